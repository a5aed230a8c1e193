//! The steps of a dynamic index, page by page.

ghost use Rattle.std.specs.Prelude.{◌≡◌, ◌≤◌, ◌*◌, ◌<◌, length, IfOk, IfSome};
ghost use Rattle.std.specs.List.Sorted.{IsNonDecreasingBy};
ghost use Rattle.store_files.specs.DynamicIndex.{entry_of};
ghost use Rattle.paged_indexes.specs.Handing.{HandsOn, ended_of};
ghost use Rattle.paged_indexes.specs.Steps.{ended_before, entries_of, is_step as is_step_of, page_with as page_of, stepped};

use crate::kinds::IndexEntry;
use crate::taking::TakesEntries;
use std::alloc::AllocError;
use store_types::{Digest32, PIECE_LIMIT};

fn is_step(start: u64, end: u64) -> bool
    ensures { result ≡ is_step_of start end }
{
    start < end && end - start <= PIECE_LIMIT
}

/// The entry that a cell of 40 bytes spells.
fn entry_in(cell: &[u8]) -> IndexEntry
    requires { length cell.now ≡ 40 }
    ensures { ended_of result ≡ entry_of cell.now }
{
    let (front, back) = cell.split_at(8);
    let mut word = [0; 8];
    word.copy_from_slice(front);
    let mut digest = [0; 32];
    digest.copy_from_slice(back);
    IndexEntry {
        digest: Digest32(digest),
        end: u64::from_le_bytes(word),
    }
}

/// Hands on these entries, the first of which begins at the start, and tells where the last piece ends; `None` where a
/// piece is not as long as a piece may be.
pub fn hand_on<T: TakesEntries>(
    start: u64,
    bytes: &[u8],
    taker: &mut T,
) -> Result<Option<u64>, AllocError>
    ensures value { IfOk result (λ end. end ≡ stepped start (entries_of bytes.now)) }
    ensures hands { IfOk result (λ end. IfSome end (λ _. HandsOn T.taken start
        (entries_of bytes.now) taker.old taker.new)) }
{
    let mut end = start;
    let mut rest = bytes;
    while rest.len() >= 40 {
        let (cell, behind) = rest.split_at(40);
        let entry = entry_in(cell);
        if !is_step(end, entry.end) {
            return Ok(None);
        }
        taker.take(end, &entry)?;
        end = entry.end;
        rest = behind;
    }
    Ok(Some(end))
}

/// How many of the pieces of these entries, from the first on, end at the offset or before it.
pub fn ended_in(bytes: &[u8], offset: u64) -> u32
    requires { length bytes.now ≤ 40_960 }
    ensures value { result ≡ ended_before offset (entries_of bytes.now) }
    ensures limit { result * 40 ≤ length bytes.now }
{
    let mut count = 0;
    let mut rest = bytes;
    while rest.len() >= 40 {
        let (cell, behind) = rest.split_at(40);
        if offset < entry_in(cell).end {
            return count;
        }
        count += 1;
        rest = behind;
    }
    count
}

/// The first page of which the last piece ends behind the offset, found by halving.
pub fn page_with(ends: &[u64], offset: u64) -> Option<usize>
    requires { IsNonDecreasingBy (λ n. n) ends.now }
    ensures value { result ≡ page_of offset ends.now }
    ensures within { IfSome result (λ i. i < length ends.now) }
{
    let place = ends.partition_point(|end| *end <= offset);
    if place == ends.len() {
        return None;
    }
    Some(place)
}
