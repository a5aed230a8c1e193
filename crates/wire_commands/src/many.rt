//! Values one after another: the rows of replies.

ghost use Rattle.std.specs.Prelude.{◌≡◌, ℕ, ◌+◌, ◌≤◌, List, ◌++◌, length, All, Option, is_some, IsSome, IfOk, OnErr};
ghost use Rattle.std.specs.List.{flat_map};
ghost use Rattle.std.specs.Option.{option_map};
ghost use Rattle.port_traits.specs.Faults.{HasCause};
ghost use Rattle.wire_frames.specs.Frames.{body_limit};
ghost use Rattle.wire_commands.specs.Fields as spec;
ghost use Rattle.wire_commands.specs.Fields.{Read, whole, many_at};
ghost use Rattle.wire_commands.specs.HasText as fits;
ghost use Rattle.wire_commands.specs.Puts.{Puts, PutsRows};
ghost use Rattle.wire_commands.specs.ReplyText as texts;
ghost use Rattle.wire_commands.specs.ReplyReading as reading;

use crate::fields::{byte_at, copied, digest_at, flag_at, text_at, u64_at};
use crate::head::Head;
use crate::refusal::zeros_at;
use crate::rows::{FaultRow, FileFault, FileRow, ListRow, PruneMark, PruneRow};
use port_traits::{Failed, Sink, write_counted};
use std::alloc::{AllocError, Global};
use store_types::{Bytes, Rows};

/// A value that stands among others of its kind.
pub trait Row: Drop {
    /// How a value is spelled.
    ghost spelled: { Self → List ℕ };

    /// The value at the front, and what stands behind it.
    ghost read: { List ℕ → Read Self };

    /// The value has a spelling.
    ghost Fits: { Self → Type 0 };

    /// What stands behind the value at the front. It takes no memory.
    fn skip(bytes: &[u8]) -> Option<&[u8]>
        ensures { option_map (λ x. x.now) result ≡ option_map (λ x. x.1) (read bytes.now) };

    /// The value at the front, and what stands behind it.
    fn at(alloc: Global, bytes: &[u8]) -> Result<Option<(Self, &[u8])>, AllocError>
        ensures { IfOk result (λ found. option_map (λ x. (x.0, x.1.now)) found ≡ read bytes.now) };

    /// The value's spelling.
    fn head(&self) -> Head
        requires { Fits self.now }
        ensures { result ≡ spelled self.now };
}

impl Row for Bytes {
    ghost spelled = { spec.text };

    ghost read = { spec.text_at };

    ghost Fits = { fits.IsText };

    fn skip(bytes: &[u8]) -> Option<&[u8]> {
        let (_text, rest) = text_at(bytes)?;
        Some(rest)
    }

    fn at(alloc: Global, bytes: &[u8]) -> Result<Option<(Bytes, &[u8])>, AllocError> {
        let Some((text, rest)) = text_at(bytes) else {
            return Ok(None);
        };
        Ok(Some((copied(alloc, text)?, rest)))
    }

    fn head(&self) -> Head {
        Head::of_text(self)
    }
}

impl Row for ListRow {
    ghost spelled = { texts.list_row_text };

    ghost read = { reading.list_row_at };

    ghost Fits = { fits.FitsListRow };

    fn skip(bytes: &[u8]) -> Option<&[u8]> {
        let (_snapshot, rest) = text_at(bytes)?;
        let (damaged, rest) = flag_at(rest)?;
        let (files, rest) = byte_at(rest)?;
        files_fit(damaged, files).then_some(rest)
    }

    fn at(alloc: Global, bytes: &[u8]) -> Result<Option<(ListRow, &[u8])>, AllocError> {
        let Some((snapshot, rest)) = text_at(bytes) else {
            return Ok(None);
        };
        let Some((damaged, rest)) = flag_at(rest) else {
            return Ok(None);
        };
        let Some((files, rest)) = byte_at(rest) else {
            return Ok(None);
        };
        if !files_fit(damaged, files) {
            return Ok(None);
        }
        let snapshot = copied(alloc, snapshot)?;
        let row = ListRow {
            snapshot,
            damaged,
            files,
        };
        Ok(Some((row, rest)))
    }

    fn head(&self) -> Head {
        Head::of_text(&self.snapshot)
            .flag(self.damaged)
            .byte(self.files)
    }
}

impl Row for FileRow {
    ghost spelled = { texts.file_row_text };

    ghost read = { reading.file_row_at };

    ghost Fits = { fits.FitsFileRow };

    fn skip(bytes: &[u8]) -> Option<&[u8]> {
        let (_file, rest) = text_at(bytes)?;
        let (_size, rest) = u64_at(rest)?;
        let (_csum, rest) = digest_at(rest)?;
        Some(rest)
    }

    fn at(alloc: Global, bytes: &[u8]) -> Result<Option<(FileRow, &[u8])>, AllocError> {
        let Some((file, rest)) = text_at(bytes) else {
            return Ok(None);
        };
        let Some((size, rest)) = u64_at(rest) else {
            return Ok(None);
        };
        let Some((csum, rest)) = digest_at(rest) else {
            return Ok(None);
        };
        let file = copied(alloc, file)?;
        Ok(Some((FileRow { file, size, csum }, rest)))
    }

    fn head(&self) -> Head {
        Head::of_text(&self.file).u64(self.size).bytes(&self.csum.0)
    }
}

impl Row for PruneRow {
    ghost spelled = { texts.prune_row_text };

    ghost read = { reading.prune_row_at };

    ghost Fits = { fits.FitsPruneRow };

    fn skip(bytes: &[u8]) -> Option<&[u8]> {
        let (_snapshot, rest) = text_at(bytes)?;
        let (_mark, rest) = mark_at(rest)?;
        Some(rest)
    }

    fn at(alloc: Global, bytes: &[u8]) -> Result<Option<(PruneRow, &[u8])>, AllocError> {
        let Some((snapshot, rest)) = text_at(bytes) else {
            return Ok(None);
        };
        let Some((mark, rest)) = mark_at(rest) else {
            return Ok(None);
        };
        let snapshot = copied(alloc, snapshot)?;
        Ok(Some((PruneRow { snapshot, mark }, rest)))
    }

    fn head(&self) -> Head {
        Head::of_text(&self.snapshot).byte(mark_number(self.mark))
    }
}

impl Row for FaultRow {
    ghost spelled = { texts.fault_row_text };

    ghost read = { reading.fault_row_at };

    ghost Fits = { fits.FitsFaultRow };

    fn skip(bytes: &[u8]) -> Option<&[u8]> {
        let (_file, rest) = text_at(bytes)?;
        let (_fault, rest) = file_fault_at(rest)?;
        Some(rest)
    }

    fn at(alloc: Global, bytes: &[u8]) -> Result<Option<(FaultRow, &[u8])>, AllocError> {
        let Some((file, rest)) = text_at(bytes) else {
            return Ok(None);
        };
        let Some((fault, rest)) = file_fault_at(rest) else {
            return Ok(None);
        };
        let file = copied(alloc, file)?;
        Ok(Some((FaultRow { file, fault }, rest)))
    }

    fn head(&self) -> Head {
        with_file_fault(Head::of_text(&self.file), &self.fault)
    }
}

/// Whether a snapshot may be listed so: a damaged one has 0 files.
fn files_fit(damaged: bool, files: u8) -> bool
    ensures { result ≡ texts.files_fit damaged files }
{
    !damaged || files == 0
}

fn mark_number(mark: PruneMark) -> u8
    ensures { result ≡ texts.mark_number mark }
{
    match mark {
        PruneMark::Removed => 0,
        PruneMark::Kept => 1,
        PruneMark::Held => 2,
        PruneMark::Gone => 3,
    }
}

fn mark_at(bytes: &[u8]) -> Option<(PruneMark, &[u8])>
    ensures { option_map (λ x. (x.0, x.1.now)) result ≡ reading.mark_at bytes.now }
{
    let (number, rest) = byte_at(bytes)?;
    let mark = match number {
        0 => PruneMark::Removed,
        1 => PruneMark::Kept,
        2 => PruneMark::Held,
        3 => PruneMark::Gone,
        _ => return None,
    };
    Some((mark, rest))
}

fn with_file_fault(head: Head, fault: &FileFault) -> Head
    requires { length head ≤ 256 }
    ensures { result ≡ head ++ texts.file_fault_text fault.now }
{
    match fault {
        FileFault::Differs => head.byte(19).bytes(&[0; 32]),
        FileFault::Damaged(digest) => head.byte(23).bytes(&digest.0),
        FileFault::Unreadable => head.byte(24).bytes(&[0; 32]),
    }
}

fn file_fault_at(bytes: &[u8]) -> Option<(FileFault, &[u8])>
    ensures { option_map (λ x. (x.0, x.1.now)) result ≡ reading.file_fault_at bytes.now }
{
    let (code, rest) = byte_at(bytes)?;
    match code {
        19 => Some((FileFault::Differs, zeros_at(32, rest)?)),
        23 => {
            let (digest, rest) = digest_at(rest)?;
            Some((FileFault::Damaged(digest), rest))
        }
        24 => Some((FileFault::Unreadable, zeros_at(32, rest)?)),
        _ => None,
    }
}

/// So many values that are all that there is. Memory is only taken where they are.
pub fn values_in<R: Row>(
    alloc: Global,
    count: usize,
    bytes: &[u8],
) -> Result<Option<Rows<R>>, AllocError>
    ensures values { IfOk result (λ rows. rows ≡ whole (many_at R.read count bytes.now)) }
    ensures memory { OnErr result (IsSome (whole (many_at R.read count bytes.now))) }
{
    if !are_values::<R>(count, bytes) {
        return Ok(None);
    }
    let mut rows = Vec::new(alloc);
    let mut rest = bytes;
    for _place in 0..count {
        let Some((row, behind)) = R::at(alloc, rest)? else {
            return Ok(None);
        };
        rows.push(row)?;
        rest = behind;
    }
    Ok(Some(Rows::from_vec(rows)))
}

/// Whether the bytes are so many values, and nothing more. It takes no memory.
fn are_values<R: Row>(count: usize, bytes: &[u8]) -> bool
    ensures { result ≡ is_some (whole (many_at R.read count bytes.now)) }
{
    let mut rest = bytes;
    for _place in 0..count {
        let Some(behind) = R::skip(rest) else {
            return false;
        };
        rest = behind;
    }
    rest.is_empty()
}

/// Writes a frame of a head and rows behind it, or fails with a front of it written, and adds how many bytes were written to a
/// count. It takes no memory.
pub fn put_rows<R: Row, K: Sink>(
    sink: &mut K,
    head: &Head,
    rows: &[R],
    given: &mut u64,
) -> Result<(), Failed>
    requires fit { All R.Fits rows.now }
    requires within { length head.now + length (flat_map R.spelled rows.now) ≤ body_limit }
    ensures bytes { PutsRows K.taken sink.old sink.new given.old given.new
        head.now R.spelled rows.now result }
    ensures cause { HasCause (K.faults sink.old) (K.faults sink.new) result }
{
    let head = head.as_slice();
    let length = (head.len() + size_of_all(rows)) as u32;
    write_counted(sink, &length.to_le_bytes(), given)?;
    write_counted(sink, head, given)?;
    write_values(sink, rows, given)
}

/// How many bytes the values have together.
fn size_of_all<R: Row>(rows: &[R]) -> usize
    requires fit { All R.Fits rows.now }
    requires within { length (flat_map R.spelled rows.now) ≤ body_limit }
    ensures { result ≡ length (flat_map R.spelled rows.now) }
{
    let mut size = 0;
    for row in rows {
        let head = row.head();
        size += head.as_slice().len();
    }
    size
}

fn write_values<R: Row, K: Sink>(sink: &mut K, rows: &[R], given: &mut u64) -> Result<(), Failed>
    requires { All R.Fits rows.now }
    ensures bytes { Puts K.taken sink.old sink.new given.old given.new R.spelled rows.now result }
    ensures cause { HasCause (K.faults sink.old) (K.faults sink.new) result }
{
    let _before = *given;
    for row in rows {
        let head = row.head();
        write_counted(sink, head.as_slice(), given)?;
    }
    Ok(())
}
