//! What is found among digests in rising order.

ghost use Rattle.std.specs.Prelude.{◌≡◌};
ghost use Rattle.std.specs.List.{list_any};
ghost use Rattle.std.specs.List.Sorted.{IsSorted};
ghost use Rattle.std.specs.Str.{bytes_eq};
ghost use Rattle.restore_reader.specs.Digests.{digest_cmp};

use store_types::Digest32;

/// The digest is one of these. It takes no memory.
pub fn contains(digests: &[Digest32], digest: &Digest32) -> bool
    requires { IsSorted digest_cmp digests.now }
    ensures { result ≡ list_any (λ d. bytes_eq d.0 digest.now.0) digests.now }
{
    digests.binary_search(digest).is_ok()
}
