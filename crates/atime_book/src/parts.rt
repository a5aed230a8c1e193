//! The parts of a book: its chunks by the first bytes of their digests.

ghost use Rattle.std.specs.Prelude.{◌≡◌, ◌<◌, length, filter, nat_le, IfOk};
ghost use Rattle.atime_book.specs.Parts.{number_of as number_in, AreEmpty, IsRising, IsPlace};

use std::alloc::{AllocError, Global};
use store_types::Digest32;

/// A chunk and its last touch.
#[derive(Clone, Copy, Debug, PartialEq, Eq)]
pub struct Touched {
    pub digest: Digest32,
    pub moment: u64,
}

/// A part for each byte, without chunks.
pub fn empty_parts(alloc: Global) -> Result<Vec<Vec<Touched>>, AllocError>
    ensures { IfOk result (λ parts. AreEmpty parts.items) }
{
    let mut parts = Vec::with_capacity(alloc, 256)?;
    while parts.len() < 256 {
        parts.push(Vec::new(alloc))?;
    }
    Ok(parts)
}

/// The number of the part that a digest belongs to: its first byte.
pub fn number_of(digest: &Digest32) -> usize
    ensures number { result ≡ number_in digest.now.0 }
    ensures byte { result < 256 }
{
    usize::from(digest.0[0])
}

/// Where a digest stands in a part, or else where it would.
pub fn place_of(part: &[Touched], digest: &Digest32) -> Result<usize, usize>
    requires { IsRising part.now }
    ensures { IsPlace part.now digest.now.0 result }
{
    part.binary_search_by_key(digest, |touched| touched.digest)
}

/// How many of these chunks were touched at the start or later.
pub fn count_since(part: &[Touched], start: u64) -> usize
    ensures { result ≡ length (filter (λ t. nat_le start t.moment) part.now) }
{
    part.iter()
        .filter(|touched| touched.moment >= start)
        .count()
}
