//! Assertions as calls. An `assert_eq!` is proved anew at each place where it is written out; a call costs next to nothing.

ghost use Rattle.std.specs.Prelude.{◌≡◌, Ok};

use std::fmt::Debug;
use std::process::Abort;

/// A failure shows both as one value: each that is formatted is proved by itself.
pub(crate) fn same(rt: &impl Abort, found: &[u8], want: &[u8]) {
    let is_same = found == want;
    let shown = (found, want);
    assert!(rt; is_same, "{shown:?}");
}

/// What a call gives that is to succeed. A `?` is proved at each place with all that is let go there; a call is not.
pub(crate) fn must<T, E: Debug + Drop>(rt: &impl Abort, outcome: Result<T, E>) -> T
    ensures { outcome ≡ Ok result }
{
    outcome.expect(rt, "a call that is to succeed")
}
