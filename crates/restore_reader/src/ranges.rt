//! The parts of pieces that make a range.

ghost use Rattle.std.specs.Prelude.{◌≡◌, ◌+◌, ◌-◌, ◌<◌, ◌≤◌, IsTrue, IfOk, IfErr, OnOk};
ghost use Rattle.store_files.specs.DynamicIndex.{steps_fit};
ghost use Rattle.restore_reader.specs.Answers.{RefusesRange};
ghost use Rattle.restore_reader.specs.Cutting.{total_of};
ghost use Rattle.restore_reader.specs.Plan.{ends_of, parts_in, with_part};
ghost use Rattle.store_model.specs.ReaderSteps as plain;

use paged_indexes::IndexEntry;
use std::alloc::{AllocError, Global};
use store_types::{Digest32, RANGE_LIMIT, Refusal};

/// A part of a chunk.
#[derive(Clone, Copy, Debug, PartialEq, Eq)]
pub struct Part {
    /// The chunk's digest.
    pub digest: Digest32,
    /// The offset in the chunk at which the part begins.
    pub from: u32,
    /// How many bytes it has, 1 or more.
    pub length: u32,
    /// How many bytes the whole chunk has, by the index.
    pub chunk_length: u32,
}

/// A range that content of this size has.
pub fn want_range(size: u64, offset: u64, length: u32) -> Result<(), Refusal>
    ensures value { result ≡ plain.want_range size offset length }
    ensures limit { OnOk result (length ≤ 4_194_304) }
    ensures within { OnOk result (offset + length ≤ size) }
    ensures refusal { IfErr result RefusesRange }
{
    if length > RANGE_LIMIT {
        return Err(Refusal::TooMany { limit: RANGE_LIMIT });
    }
    if offset > size || length as u64 > size - offset {
        return Err(Refusal::BadRange { size });
    }
    Ok(())
}

/// Adds what the range has of a piece that begins at the start.
fn push_part(
    parts: &mut Vec<Part>,
    entry: &IndexEntry,
    start: u64,
    from: u64,
    to: u64,
) -> Result<(), AllocError>
    requires above { start < entry.now.end }
    requires limit { entry.now.end ≤ start + 16_777_216 }
    ensures { OnOk result (parts.new.items ≡ with_part parts.old.items from to start entry.now) }
{
    let begin = from.max(start);
    let end = to.min(entry.end);
    if begin >= end {
        return Ok(());
    }
    parts.push(Part {
        digest: entry.digest,
        from: (begin - start) as u32,
        length: (end - begin) as u32,
        chunk_length: (entry.end - start) as u32,
    })?;
    Ok(())
}

/// What the range from one offset up to another has of a page's pieces, the first of which begins at the start. The
/// parts of a range are those of its pages, one page's behind another's.
pub fn parts_of_page(
    alloc: Global,
    entries: &[IndexEntry],
    start: u64,
    from: u64,
    to: u64,
) -> Result<Vec<Part>, AllocError>
    requires { IsTrue (steps_fit start (ends_of entries.now)) }
    ensures value { IfOk result (λ ps. ps.items ≡ parts_in from to start (ends_of entries.now)) }
    ensures total { IfOk result (λ parts. total_of parts.items ≤ to - from) }
{
    let mut parts = Vec::new(alloc);
    let mut reached = start;
    for entry in entries {
        if reached >= to {
            return Ok(parts);
        }
        push_part(&mut parts, entry, reached, from, to)?;
        reached = entry.end;
    }
    Ok(parts)
}
