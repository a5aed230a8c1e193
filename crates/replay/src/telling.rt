//! The line that tells a comparison.

ghost use Rattle.std.specs.Prelude.{◌≡◌, IfOk, string_bytes};
ghost use Rattle.replay.specs.Compare.{line as line_of, shown as shown_as};

use crate::difference::Unequal;
use std::alloc::{AllocError, Global};

/// `equal`, or the lane and the place of the first byte that differs, what is replayed there and what was kept: each as two
/// hexadecimal digits, or `--` where that side has ended. A line feed ends it.
pub fn line(alloc: Global, compared: Option<Unequal>) -> Result<String, AllocError>
    ensures { IfOk result (λ text. string_bytes text ≡ line_of compared) }
{
    match compared {
        Some(unequal) => unequal_line(alloc, unequal),
        None => String::from_str(alloc, "equal\n"),
    }
}

fn unequal_line(alloc: Global, unequal: Unequal) -> Result<String, AllocError>
    ensures { IfOk result (λ text. string_bytes text ≡ line_of (Some unequal)) }
{
    let (lane, place) = (unequal.lane, unequal.place);
    let replayed = shown(alloc, unequal.replayed)?;
    let kept = shown(alloc, unequal.kept)?;
    format!(in alloc; "lane {lane} byte {place}: {replayed} {kept}\n")
}

fn shown(alloc: Global, byte: Option<u8>) -> Result<String, AllocError>
    ensures { IfOk result (λ text. string_bytes text ≡ shown_as byte) }
{
    match byte {
        Some(byte) => hex::encode(alloc, [byte]),
        None => String::from_str(alloc, "--"),
    }
}
