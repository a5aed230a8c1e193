//! NEW_DYNAMIC, NEW_FIXED, APPEND and CLOSE_INDEX.

ghost use Rattle.std.specs.Prelude.{◌≡◌, ◌<◌, ◌≤◌, true, map, None, IfOk, IfErr, IsErrOf, IsTrue};
ghost use Rattle.store_types.specs.Times.{last_moment};
ghost use Rattle.wire_commands.specs.declared.command.Command.TheVariants.{Append, NewDynamic};
ghost use Rattle.store_model.specs.ArchiveSteps.{named as named_entry};
ghost use Rattle.backup_session.specs.Answers.{IsPendingAt};
ghost use Rattle.core_state.specs.Closing.{is_writer};
ghost use Rattle.core_state.specs.Commands.{PlainDoes, PlainLeaves};
ghost use Rattle.core_state.specs.Named.{is_named};
ghost use Rattle.snapshot_files.specs.Reads.{StopHasText};
ghost use Rattle.store_stops.specs.declared.stop.Stop.TheVariants.{DiskFailed};
ghost use Rattle.core_writer.specs.Calls.{AppendsEntries, AppendsPlainly, AppendsQuietly, BeginsIndex, BeginsPlainly, BeginsQuietly, ClosesIndex, ClosesPending, ClosesPlainly};
ghost use Rattle.core_writer.specs.CommandClauses.{ClosingDoes, ClosingLeaves, FixedDoes, FixedLeaves};

use crate::files::{NewFile, keep_pending, stored_file};
use crate::names::file_name;
use backup_session::Writer;
use core_state::{Parts, Place, Session};
use disk_trait::Disk;
use std::alloc::{AllocError, Global};
use store_stops::{Stop, answered};
use store_types::{AppendEntry, Bytes, Digest32, FileName, Refusal};
use wire_commands::Reply;

/// An index that is begun.
#[derive(Clone, Copy)]
enum NewIndex {
    Dynamic,
    /// For an archive of so many bytes, in pieces of so many bytes.
    Fixed { size: u64, chunk_size: u64 },
}

/// The backup begins an index of this name, and gives its number. Where it is refused, and where memory is wanting, it is
/// as before.
fn begin(
    session: &mut Writer,
    alloc: Global,
    name: FileName,
    moment: u64,
    index: NewIndex,
) -> Result<u8, Stop>
    requires settled { session.old.pending ≡ None }
    requires in_time { moment ≤ last_moment }
    ensures does { BeginsIndex session.old session.new index name moment result }
    ensures settled { session.new.pending ≡ None }
    ensures plain { BeginsPlainly session.old session.new index name moment result }
    ensures text { IfErr result StopHasText }
    ensures uncalled { IsErrOf result DiskFailed → ⊥ }
{
    match index {
        NewIndex::Dynamic => answered(session.new_dynamic(alloc, name, moment)),
        NewIndex::Fixed { size, chunk_size } => {
            answered(session.new_fixed(alloc, name, moment, size, chunk_size))
        }
    }
}

/// A session's writer begins an index, whose number is the reply. Where it is refused, and where memory is wanting, the
/// session is as before.
fn begin_index(
    session: &mut Session,
    alloc: Global,
    name: &[u8],
    moment: u64,
    index: NewIndex,
) -> Result<Reply, Stop>
    requires named { IsTrue (is_named session.old) }
    requires writer { is_writer session.old ≡ true }
    requires in_time { moment ≤ last_moment }
    ensures { BeginsQuietly session.old session.new moment index name.now result }
{
    match session {
        Session::Writer(w) => {
            let name = file_name(alloc, name)?;
            let number = begin(&mut w.session, alloc, name, moment, index)?;
            Ok(Reply::Number(number))
        }
        _ => unreachable!(),
    }
}

/// The lane's writer begins a dynamic index. It makes no disk call.
///
/// The reply is the index's number. The refusals, in the order in which they are tested: the lane has no writer; the name
/// is no dynamic index's; the writer has such a file or open index; it has 64 of them; 16 indexes are open.
pub fn new_dynamic<D: Disk>(
    parts: &mut Parts<D>,
    alloc: Global,
    at: Place,
    name: &[u8],
) -> Result<Reply, Stop>
    requires lane { at.lane < 64 }
    requires in_time { at.moment ≤ last_moment }
    ensures does { PlainDoes D.Disk parts.old parts.new at (NewDynamic name.now) result }
    ensures leaves { PlainLeaves D.Disk parts.old parts.new at (NewDynamic name.now) result }
{
    parts.writer(at.lane)?;
    let session = &mut parts.sessions[at.lane as usize];
    begin_index(session, alloc, name, at.moment, NewIndex::Dynamic)
}

/// The lane's writer begins a fixed index, of an archive of so many bytes, in pieces of so many bytes. It makes no disk
/// call.
///
/// The reply is the index's number. The refusals, in the order in which they are tested: the lane has no writer; the name
/// is no fixed index's; the writer has such a file or open index; it has 64 of them; 16 indexes are open; the length of
/// pieces is no power of two from 4,096 to 16,777,216; the archive would have more than 1,048,576 pieces.
pub fn new_fixed<D: Disk>(
    parts: &mut Parts<D>,
    alloc: Global,
    at: Place,
    name: &[u8],
    size: u64,
    chunk_size: u64,
) -> Result<Reply, Stop>
    requires lane { at.lane < 64 }
    requires in_time { at.moment ≤ last_moment }
    ensures does { FixedDoes D.Disk parts.old parts.new at name.now size chunk_size result }
    ensures leaves { FixedLeaves D.Disk parts.old parts.new at name.now size chunk_size result }
{
    parts.writer(at.lane)?;
    let session = &mut parts.sessions[at.lane as usize];
    let index = NewIndex::Fixed { size, chunk_size };
    begin_index(session, alloc, name, at.moment, index)
}

/// The entries as pairs.
fn pairs_of(alloc: Global, entries: &[AppendEntry]) -> Result<Vec<(Digest32, u64)>, AllocError>
    ensures { IfOk result (λ pairs. pairs.items ≡ map named_entry entries.now) }
{
    let mut pairs = Vec::with_capacity(alloc, entries.len())?;
    for entry in entries {
        pairs.push((entry.digest, entry.offset))?;
    }
    Ok(pairs)
}

/// The backup gets chunks that were sent, as in `append`. Where it is refused, and where memory is wanting, it is as before.
fn grow(
    session: &mut Writer,
    alloc: Global,
    number: u8,
    entries: &[AppendEntry],
) -> Result<(), Stop>
    requires { session.old.pending ≡ None }
    ensures does { AppendsEntries session.old session.new number entries.now result }
    ensures settled { session.new.pending ≡ None }
    ensures plain { AppendsPlainly session.old session.new number entries.now result }
    ensures text { IfErr result StopHasText }
    ensures uncalled { IsErrOf result DiskFailed → ⊥ }
{
    let pairs = pairs_of(alloc, entries)?;
    answered(session.append(alloc, number, &pairs))
}

/// The session's writer appends chunks, as in `append`. Where it is refused, and where memory is wanting, the session is as
/// before.
fn append_to(
    session: &mut Session,
    alloc: Global,
    number: u8,
    entries: &[AppendEntry],
) -> Result<Reply, Stop>
    requires named { IsTrue (is_named session.old) }
    requires writer { is_writer session.old ≡ true }
    ensures { AppendsQuietly session.old session.new number entries.now result }
{
    match session {
        Session::Writer(w) => {
            grow(&mut w.session, alloc, number, entries)?;
            Ok(Reply::Done)
        }
        _ => unreachable!(),
    }
}

/// The lane's writer appends chunks that it sent to an open index. It makes no disk call.
///
/// The refusals, in the order in which they are tested: the lane has no writer; no index of the number is open; there are
/// more than 4,096 entries; the index would have more than 1,048,576; then entry by entry, with its place, the chunk was
/// not sent, its offset isn't the end reached so far, and in a fixed index its piece has another length than is asked
/// there.
pub fn append<D: Disk>(
    parts: &mut Parts<D>,
    alloc: Global,
    at: Place,
    number: u8,
    entries: &[AppendEntry],
) -> Result<Reply, Stop>
    requires { at.lane < 64 }
    ensures does { PlainDoes D.Disk parts.old parts.new at (Append number entries.now) result }
    ensures leaves { PlainLeaves D.Disk parts.old parts.new at (Append number entries.now) result }
{
    parts.writer(at.lane)?;
    let session = &mut parts.sessions[at.lane as usize];
    append_to(session, alloc, number, entries)
}

/// The backup closes an index, whose file is pending then, and gives its text. Where it is refused, and where memory is
/// wanting, it is as before.
fn close(
    session: &mut Writer,
    alloc: Global,
    number: u8,
    count: u64,
    size: u64,
    csum: &Digest32,
) -> Result<Vec<u8>, Stop>
    requires { session.old.pending ≡ None }
    ensures does { ClosesIndex session.old session.new number count size csum.now result }
    ensures pending { IsPendingAt session.new result }
    ensures plain { ClosesPlainly session.old session.new number count size csum.now result }
    ensures text { IfErr result StopHasText }
    ensures uncalled { IsErrOf result DiskFailed → ⊥ }
{
    answered(session.close_index(alloc, number, count, size, csum))
}

/// An index of the session's writer becomes a file, which is pending then. Where it is refused, and where memory is
/// wanting, the session is as before.
fn take_index(
    session: &mut Session,
    alloc: Global,
    number: u8,
    count: u64,
    size: u64,
    csum: &Digest32,
) -> Result<NewFile, Stop>
    requires named { IsTrue (is_named session.old) }
    requires writer { is_writer session.old ≡ true }
    ensures { ClosesPending session.old session.new number count size csum.now result }
{
    match session {
        Session::Writer(w) => {
            let name = w.session.index_name(number).ok_or(Refusal::NoFile)?;
            let file = stored_file(alloc, w.session.key(), name)?;
            let text = close(&mut w.session, alloc, number, count, size, csum)?;
            Ok(NewFile {
                file,
                text: Bytes::from_vec(text),
            })
        }
        _ => unreachable!(),
    }
}

/// An index of the lane's writer becomes a file. After a fault of the disk the index is open as before.
///
/// The refusals, in the order in which they are tested: the lane has no writer; no index of the number is open; the number
/// of its entries, the size of its archive or its checksum is another; the pieces of a fixed index don't reach its size.
pub fn close_index<D: Disk>(
    parts: &mut Parts<D>,
    alloc: Global,
    at: Place,
    number: u8,
    count: u64,
    size: u64,
    csum: &Digest32,
) -> Result<Reply, Stop>
    requires { at.lane < 64 }
    ensures does { ClosingDoes D.Disk parts.old parts.new at number count size csum.now result }
    ensures leaves { ClosingLeaves D.Disk parts.old parts.new at number count size csum.now result }
{
    parts.writer(at.lane)?;
    let session = &mut parts.sessions[at.lane as usize];
    let new = take_index(session, alloc, number, count, size, csum)?;
    keep_pending(&mut parts.disk, alloc, session, new)?;
    Ok(Reply::Done)
}
