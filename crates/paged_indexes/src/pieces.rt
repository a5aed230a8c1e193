//! The pieces of a fixed index, page by page.

ghost use Rattle.std.specs.Prelude.{◌≡◌, ◌+◌, ◌*◌, ◌<◌, ◌≤◌, length, IfOk};
ghost use Rattle.store_files.specs.Cells.{cells};
ghost use Rattle.dynamic_index.specs.Pieces.{last_end};
ghost use Rattle.paged_indexes.specs.Fixed.{Cuts, ends_in};
ghost use Rattle.paged_indexes.specs.Handing.{HandsOn};

use crate::kinds::IndexEntry;
use crate::taking::TakesEntries;
use std::alloc::AllocError;
use store_types::Digest32;

/// How an archive is cut: into pieces of one length, but for the last.
#[derive(Clone, Copy)]
pub struct Cut {
    /// The archive's size in bytes.
    pub size: u64,
    /// The bytes of each piece but the last.
    pub chunk_size: u64,
}

/// The digest that a cell of 32 bytes is.
fn digest_in(cell: &[u8]) -> Digest32
    requires { length cell.now ≡ 32 }
    ensures { result.0 ≡ cell.now }
{
    let mut digest = [0; 32];
    digest.copy_from_slice(cell);
    Digest32(digest)
}

/// Hands on the entries of these digests, of which the first one's piece begins at the start, and tells where the last
/// piece ends.
pub fn hand_on<T: TakesEntries>(
    cut: Cut,
    start: u64,
    bytes: &[u8],
    taker: &mut T,
) -> Result<u64, AllocError>
    requires { Cuts cut start (length (cells 32 bytes.now)) }
    ensures end { IfOk result (λ end. end ≡ last_end start (ends_in cut start bytes.now)) }
    ensures hands { IfOk result (λ _. HandsOn T.taken start (ends_in cut start bytes.now)
        taker.old taker.new) }
{
    let mut reached = start;
    let mut rest = bytes;
    while rest.len() >= 32 {
        let (cell, behind) = rest.split_at(32);
        let end = reached + cut.chunk_size.min(cut.size - reached);
        let digest = digest_in(cell);
        taker.take(reached, &IndexEntry { digest, end })?;
        reached = end;
        rest = behind;
    }
    Ok(reached)
}
