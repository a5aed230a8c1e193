//! VERIFY: each file of a snapshot is read, and each chunk that its indexes name.

ghost use Rattle.std.specs.Prelude.{◌≡◌, ◌+◌, ◌≤◌, length, All, IfOk, IfSome};
ghost use Rattle.std.specs.Option.{option_or};
ghost use Rattle.wire_commands.specs.HasText.{FitsFileFault, FitsFileRow, ReplyHasText};
ghost use Rattle.wire_commands.specs.declared.reply.Reply.TheVariants as replies;
ghost use Rattle.store_model.specs.VerifyJob as model;
ghost use Rattle.store_model.specs.FaultRows.{IsFitRow};
ghost use Rattle.plain_lanes.specs.Jobs.{shown_job, GivesJob, IsSpelledJob};
ghost use Rattle.plain_lanes.specs.Visits.{GivesOrBack, GivesVisit, JudgesChunk, shown_visit as shown, shown_judged, is_done as tells_done, is_part, is_files, is_data, fault_told as told_of, chunk_told as told_of_chunk, unreadable_told, with_faults, counted_of, read_by, checked_by};

use crate::ending::{Close, asked, ended};
use crate::job::{Asking, Job, Stage};
use crate::judging::{Judged, chunk_fault, judge, long_fault};
use crate::visit::Visit;
use std::alloc::{AllocError, Global};
use std::collections::VecDeque;
use store_types::{Bytes, Digest32, Piece, Refusal, Rows};
use wire_commands::{FaultRow, FileFault, FileRow, Reply};

// ---- from file to file

/// On to the next of the files to come. Behind the last the reader is closed, and then what was read is the report.
fn next_file(alloc: Global, visit: Visit) -> Job
    ensures job { shown_job result ≡ model.next_file (shown visit) visit.later.items }
    ensures spelled { IsSpelledJob result }
{
    let Visit {
        snapshot,
        files,
        entries,
        bytes,
        faults,
        mut later,
    } = visit;
    let Some(row) = later.pop_front() else {
        let report = Reply::Verified {
            files,
            entries,
            bytes,
            faults: Rows::from_vec(faults),
        };
        return asked(Close::Reader, report);
    };
    let visit = Visit {
        snapshot,
        files,
        entries,
        bytes,
        faults,
        later,
    };
    let stage = Stage::Reading {
        visit,
        row,
        bytes: Vec::new(alloc),
    };
    Job::Asking(Asking { stage })
}

/// The faults behind that of one more file, where it has one.
fn push_fault(
    faults: Vec<FaultRow>,
    row: FileRow,
    fault: Option<FileFault>,
) -> Result<Vec<FaultRow>, AllocError>
    requires row { FitsFileRow row }
    requires fault { IfSome fault FitsFileFault }
    requires faults { All IsFitRow faults.items }
    ensures faults { IfOk result (λ after. after.items ≡ with_faults row fault faults.items) }
    ensures count { IfOk result (λ after. length after.items ≤ length faults.items + 1) }
    ensures spelled { IfOk result (λ after. All IsFitRow after.items) }
{
    let Some(fault) = fault else {
        return Ok(faults);
    };
    let FileRow {
        file,
        size: _,
        csum: _,
    } = row;
    let mut faults = faults;
    faults.push(FaultRow { file, fault })?;
    Ok(faults)
}

/// All of the file is read.
fn file_done(
    alloc: Global,
    visit: Visit,
    row: FileRow,
    fault: Option<FileFault>,
) -> Result<Job, AllocError>
    requires row { FitsFileRow row }
    requires fault { IfSome fault FitsFileFault }
    ensures job { GivesJob result (model.file_done (shown visit) row fault) }
    ensures spelled { IfOk result IsSpelledJob }
{
    let Visit {
        snapshot,
        files,
        entries,
        bytes,
        faults,
        later,
    } = visit;
    let files = files.checked_add(1).ok_or(AllocError)?;
    let faults = push_fault(faults, row, fault)?;
    let visit = Visit {
        snapshot,
        files,
        entries,
        bytes,
        faults,
        later,
    };
    Ok(next_file(alloc, visit))
}

/// On to the next chunk of the file, at a place, or to the file's end.
fn next_chunk(
    alloc: Global,
    visit: Visit,
    row: FileRow,
    fault: Option<FileFault>,
    place: u32,
    pieces: VecDeque<Piece>,
) -> Result<Job, AllocError>
    requires row { FitsFileRow row }
    requires fault { IfSome fault FitsFileFault }
    ensures job { GivesJob result (model.next_chunk (shown visit) row fault place pieces.items) }
    ensures spelled { IfOk result IsSpelledJob }
{
    let mut later = pieces;
    let Some(piece) = later.pop_front() else {
        return file_done(alloc, visit, row, fault);
    };
    let stage = Stage::Checking {
        visit,
        row,
        fault,
        place,
        piece,
        later,
    };
    Ok(Job::Asking(Asking { stage }))
}

/// So many more entries, with so many bytes together. More than a `u64` counts no memory holds.
fn counted(visit: Visit, more: u64, longer: u64) -> Result<Visit, AllocError>
    ensures { GivesVisit result (counted_of (shown visit) more longer) }
{
    let Visit {
        snapshot,
        files,
        entries,
        bytes,
        faults,
        later,
    } = visit;
    let entries = entries.checked_add(more).ok_or(AllocError)?;
    let bytes = bytes.checked_add(longer).ok_or(AllocError)?;
    Ok(Visit {
        snapshot,
        files,
        entries,
        bytes,
        faults,
        later,
    })
}

/// The file is read, and of an index the chunks come next.
fn file_read(alloc: Global, visit: Visit, row: FileRow, judged: Judged) -> Result<Job, AllocError>
    requires row { FitsFileRow row }
    requires fault { IfSome judged.fault FitsFileFault }
    ensures job { GivesJob result (model.file_read (shown visit) row (shown_judged judged)) }
    ensures spelled { IfOk result IsSpelledJob }
{
    let Judged {
        fault,
        bytes,
        entries,
    } = judged;
    let visit = counted(visit, entries.len() as u64, bytes)?;
    next_chunk(alloc, visit, row, fault, 0, entries)
}

// ---- the replies

fn is_done(reply: &Reply) -> bool
    ensures { result ≡ tells_done reply.now }
{
    matches!(reply, Reply::Done)
}

/// The files that a reply tells, or the reply back.
fn files_in(reply: Reply) -> Result<Rows<FileRow>, Reply>
    ensures { GivesOrBack (λ rows. replies.Files rows) is_files reply result }
{
    match reply {
        Reply::Files(rows) => Ok(rows),
        other => Err(other),
    }
}

/// The size of a file and a part of it, or the reply back.
fn part_in(reply: Reply) -> Result<(u64, Bytes), Reply>
    ensures { GivesOrBack (λ part. replies.Part part.0 part.1) is_part reply result }
{
    match reply {
        Reply::Part { total, bytes } => Ok((total, bytes)),
        other => Err(other),
    }
}

/// The bytes that a reply gives, or the reply back.
fn data_in(reply: Reply) -> Result<Bytes, Reply>
    ensures { GivesOrBack (λ bytes. replies.Data bytes) is_data reply result }
{
    match reply {
        Reply::Data(bytes) => Ok(bytes),
        other => Err(other),
    }
}

/// The fault of a file that a refusal tells.
fn fault_told(reply: &Reply) -> Option<FileFault>
    requires { ReplyHasText reply.now }
    ensures fault { result ≡ told_of reply.now }
    ensures fits { IfSome result FitsFileFault }
{
    match reply {
        Reply::Refused(Refusal::Damaged { digest, .. }) => Some(FileFault::Damaged(*digest)),
        Reply::Refused(Refusal::Unreadable { .. }) => Some(FileFault::Unreadable),
        _ => None,
    }
}

/// The job after the reply to OPEN_READER.
pub fn opened(snapshot: Bytes, reply: Reply) -> Job
    requires { ReplyHasText reply }
    ensures job { shown_job result ≡ model.opened snapshot reply }
    ensures spelled { IsSpelledJob result }
{
    if is_done(&reply) {
        drop(reply);
        return Job::Asking(Asking {
            stage: Stage::Listing { snapshot },
        });
    }
    Job::Over(reply)
}

/// The job after the reply to FILES.
pub fn listed(alloc: Global, snapshot: Bytes, reply: Reply) -> Job
    requires { ReplyHasText reply }
    ensures job { shown_job result ≡ model.listed snapshot reply }
    ensures spelled { IsSpelledJob result }
{
    match files_in(reply) {
        Ok(rows) => {
            let visit = Visit {
                snapshot,
                files: 0,
                entries: 0,
                bytes: 0,
                faults: Vec::new(alloc),
                later: VecDeque::from_vec(rows.into_vec()),
            };
            next_file(alloc, visit)
        }
        Err(reply) => ended(Close::Reader, reply),
    }
}

/// A part of the file is read, of which these bytes are behind. A file that is too long is not read on.
fn part_read(
    alloc: Global,
    visit: Visit,
    row: FileRow,
    bytes: Vec<u8>,
    total: u64,
) -> Result<Job, AllocError>
    requires { FitsFileRow row }
    ensures job { GivesJob result (model.part_read (shown visit) row bytes.items total) }
    ensures spelled { IfOk result IsSpelledJob }
{
    if let Some(fault) = long_fault(alloc, &row, total)? {
        return file_done(alloc, visit, row, Some(fault));
    }
    let so_far = bytes.len() as u64;
    if so_far < total {
        let stage = Stage::Reading { visit, row, bytes };
        return Ok(Job::Asking(Asking { stage }));
    }
    let judged = judge(alloc, visit.snapshot.as_slice(), &row, &bytes)?;
    file_read(alloc, visit, row, judged)
}

/// The job after any other reply to the read of a file's part.
fn unread(alloc: Global, visit: Visit, row: FileRow, reply: Reply) -> Result<Job, AllocError>
    requires row { FitsFileRow row }
    requires reply { ReplyHasText reply }
    ensures job { GivesJob result (read_by (shown visit) row reply) }
    ensures spelled { IfOk result IsSpelledJob }
{
    let Some(fault) = fault_told(&reply) else {
        return Ok(ended(Close::Reader, reply));
    };
    drop(reply);
    file_done(alloc, visit, row, Some(fault))
}

/// The job after the reply to the read of a file's part, behind these bytes.
pub fn read_part(
    alloc: Global,
    visit: Visit,
    row: FileRow,
    bytes: Vec<u8>,
    reply: Reply,
) -> Result<Job, AllocError>
    requires row { FitsFileRow row }
    requires reply { ReplyHasText reply }
    ensures job { GivesJob result (model.read_part (shown visit) row bytes.items reply) }
    ensures spelled { IfOk result IsSpelledJob }
{
    match part_in(reply) {
        Ok(part) => {
            let mut bytes = bytes;
            bytes.extend_from_slice(part.1.as_slice())?;
            part_read(alloc, visit, row, bytes, part.0)
        }
        Err(reply) => unread(alloc, visit, row, reply),
    }
}

/// The first of two faults.
fn first_fault(fault: Option<FileFault>, other: Option<FileFault>) -> Option<FileFault>
    requires fault { IfSome fault FitsFileFault }
    requires other { IfSome other FitsFileFault }
    ensures first { result ≡ option_or fault other }
    ensures fits { IfSome result FitsFileFault }
{
    match fault {
        Some(fault) => Some(fault),
        None => other,
    }
}

/// The fault of a chunk of this digest that a refusal of its read tells.
fn chunk_told(reply: &Reply, digest: Digest32) -> Option<FileFault>
    ensures fault { result ≡ told_of_chunk reply.now digest }
    ensures fits { IfSome result FitsFileFault }
{
    match reply {
        Reply::Refused(Refusal::Damaged { .. }) => Some(FileFault::Damaged(digest)),
        _ => None,
    }
}

fn is_unreadable(reply: &Reply) -> bool
    ensures { result ≡ unreadable_told reply.now }
{
    matches!(reply, Reply::Refused(Refusal::Unreadable { .. }))
}

/// The job after any other reply to the read of a chunk.
fn unchecked(
    alloc: Global,
    visit: Visit,
    row: FileRow,
    fault: Option<FileFault>,
    reply: Reply,
) -> Result<Job, AllocError>
    requires row { FitsFileRow row }
    requires fault { IfSome fault FitsFileFault }
    requires reply { ReplyHasText reply }
    ensures job { GivesJob result (checked_by (shown visit) row fault reply) }
    ensures spelled { IfOk result IsSpelledJob }
{
    if is_unreadable(&reply) {
        drop(reply);
        let fault = first_fault(fault, Some(FileFault::Unreadable));
        return file_done(alloc, visit, row, fault);
    }
    Ok(ended(Close::Reader, reply))
}

/// The fault that the reply to the read of the piece's chunk tells, where the file goes on: the reply back where it does not.
fn chunk_in(reply: Reply, piece: Piece) -> Result<Option<FileFault>, Reply>
    requires { ReplyHasText reply }
    ensures fault { JudgesChunk reply piece result }
    ensures fits { IfOk result (λ fault. IfSome fault FitsFileFault) }
{
    let reply = match data_in(reply) {
        Ok(bytes) => return Ok(chunk_fault(piece, bytes.as_slice())),
        Err(reply) => reply,
    };
    match chunk_told(&reply, piece.digest) {
        Some(fault) => {
            drop(reply);
            Ok(Some(fault))
        }
        None => Err(reply),
    }
}

/// The job after the reply to the read of the chunk at a place, of this piece.
pub fn checked(
    alloc: Global,
    visit: Visit,
    row: FileRow,
    fault: Option<FileFault>,
    place: u32,
    piece: Piece,
    later: VecDeque<Piece>,
    reply: Reply,
) -> Result<Job, AllocError>
    requires row { FitsFileRow row }
    requires fault { IfSome fault FitsFileFault }
    requires reply { ReplyHasText reply }
    ensures job { GivesJob result
        (model.checked (shown visit) row fault place piece later.items reply) }
    ensures spelled { IfOk result IsSpelledJob }
{
    match chunk_in(reply, piece) {
        Ok(found) => {
            let place = place.checked_add(1).ok_or(AllocError)?;
            let fault = first_fault(fault, found);
            next_chunk(alloc, visit, row, fault, place, later)
        }
        Err(reply) => unchecked(alloc, visit, row, fault, reply),
    }
}
