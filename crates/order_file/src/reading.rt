//! An order as it is read from its file's bytes.

ghost use Rattle.std.specs.Prelude.{◌≡◌, ◌≤◌, length, drop, IsTrue, IfOk, option_map};
ghost use Rattle.std.specs.Str.{bytes_eq};
ghost use Rattle.store_files.specs.Order.{entry_of as entry_in, order_text, order_of};
ghost use Rattle.order_file.specs.Progress.{entries_at, TellsEntries};

use crate::progress::Progress;
use crate::{ENTRY_SIZE, MAGIC};
use std::alloc::{AllocError, Global};
use store_types::Entry;

/// The order whose file this is, for so many lanes, or `None` where the bytes are none: where they are no text of one, a
/// lane is not below their number, a moment is before another's that stands before it or after 9999, a kind is above 7, or
/// a lane has not one end alone, as its last entry.
pub fn read_order(alloc: Global, lanes: u32, bytes: &[u8]) -> Result<Option<Vec<Entry>>, AllocError>
    ensures { IfOk result (λ order. option_map (λ v. v.items) order ≡ order_of lanes bytes.now) }
{
    if !is_text(bytes) {
        return Ok(None);
    }
    entries_in(alloc, lanes, &bytes[MAGIC.len()..])
}

// Whether they are the text of some entries.
fn is_text(bytes: &[u8]) -> bool
    ensures exact { result ≡ bytes_eq bytes.now (order_text (entries_at (drop 8 bytes.now))) }
    ensures long { IsTrue result → 8 ≤ length bytes.now }
{
    bytes.starts_with(&MAGIC) && (bytes.len() - MAGIC.len()).is_multiple_of(ENTRY_SIZE)
}

// The entries that the bytes are, where they keep the rules.
fn entries_in(alloc: Global, lanes: u32, bytes: &[u8]) -> Result<Option<Vec<Entry>>, AllocError>
    ensures { IfOk result (TellsEntries lanes bytes.now) }
{
    let mut progress = Progress::new(alloc, lanes)?;
    let mut entries = Vec::with_capacity(alloc, bytes.len() / ENTRY_SIZE)?;
    let mut rest = bytes;
    while rest.len() >= ENTRY_SIZE {
        let (cell, behind) = rest.split_at(ENTRY_SIZE);
        let entry = entry_of(cell);
        if !progress.is_next(entry) {
            return Ok(None);
        }
        progress.take(entry);
        entries.push(entry)?;
        rest = behind;
    }
    if !progress.is_over() {
        return Ok(None);
    }
    Ok(Some(entries))
}

fn entry_of(cell: &[u8]) -> Entry
    requires { length cell.now ≡ ENTRY_SIZE }
    ensures { result ≡ entry_in cell.now }
{
    let mut lane = [0; 4];
    lane.copy_from_slice(&cell[..4]);
    let mut moment = [0; 8];
    moment.copy_from_slice(&cell[4..12]);
    Entry {
        lane: u32::from_le_bytes(lane),
        moment: u64::from_le_bytes(moment),
        kind: cell[12],
    }
}
