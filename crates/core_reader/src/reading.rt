//! The reads of a VERIFY, which note nothing in the reader.

ghost use Rattle.std.specs.Prelude.{◌≡◌, ◌<◌, ◌≤◌, IfOk, IsErrOf, OnErr, OnOk, IsTrue, length, string_bytes};
ghost use Rattle.store_types.specs.FileNames.{is_file_name};
ghost use Rattle.store_history.specs.declared.act.Act.TheVariants.{ReadChunk, ReadFile};
ghost use Rattle.core_state.specs.Calls.{ActCalls};
ghost use Rattle.core_state.specs.Commands.{ActDoes, ActLeaves};
ghost use Rattle.core_state.specs.Unreadables.{ActUnreadable};
ghost use Rattle.store_stops.specs.declared.stop.Stop.TheVariants.{DiskFailed};
ghost use Rattle.core_reader.specs.AnsweredBy.{ActReads, chunk_told, part_told};
ghost use Rattle.core_reader.specs.Asked.{GivesPlace, asked_entry, asked_part};
ghost use Rattle.core_reader.specs.Damages.{ActDamaged};
ghost use Rattle.core_reader.specs.NotesEntry.{NotesEntry, is_found, kept_by};

use crate::entries::{Turn, find_entry, keep};
use crate::loading::read_bytes;
use core_state::{Indexes, Parts, Place};
use disk_trait::Disk;
use snapshot_files::read_part;
use std::alloc::{AllocError, Global};
use store_stops::Stop;
use store_types::{Bytes, FileName, Refusal};
use wire_commands::Reply;

/// Where the file of the reader's snapshot stands that has this name. The disk is not called.
fn path_of<D>(parts: &Parts<D>, alloc: Global, lane: u32, name: &FileName) -> Result<String, Stop>
    requires { lane < 64 }
    ensures value { GivesPlace parts.now lane name.now result }
    ensures short { IfOk result (λ path. length (string_bytes path) ≤ 255) }
    ensures unfailed { IsErrOf result DiskFailed → ⊥ }
    ensures name { IsTrue (is_file_name name.now) }
{
    let _ = name.as_slice();
    let reader = parts.reader(lane)?;
    let Some(path) = parts.catalogue.path(reader.key(), name) else {
        return Err(Stop::Refused(Refusal::NoFile));
    };
    let path = String::from_str(alloc, path.as_str())?;
    Ok(path)
}

/// A part of a file of the reader's snapshot, from an offset in bytes. No index is read whole for it.
///
/// The refusals, in the order in which they are tested: the lane has no reader; the snapshot has no such file; the
/// offset is beyond the file's size. A file that isn't there, or gives fewer bytes than its size says, is refused as
/// unreadable.
pub fn read_file<D: Disk>(
    parts: &mut Parts<D>,
    alloc: Global,
    at: Place,
    name: &FileName,
    offset: u64,
) -> Result<Reply, Stop>
    requires { at.lane < 64 }
    ensures does { ActDoes D.Disk parts.old parts.new at (ReadFile name.now offset) result }
    ensures leaves { ActLeaves D.Disk parts.old parts.new at (ReadFile name.now offset) result }
    // on an honest disk, whatever it holds, it is the part that stands there, or the refusal
    ensures by_disk { ActReads D.Disk (part_told name.now offset) parts.old at result }
    // no file is read that is not asked for, and none twice
    ensures calls { ActCalls D.Disk (asked_part name.now offset) parts.old parts.new at }
    // it is unreadable exactly where nothing stands there, as far as the disk tells
    ensures unreadable { ActUnreadable D.Disk (asked_part name.now offset) parts.old at result }
{
    let path = path_of(parts, alloc, at.lane, name)?;
    let part = read_part(&mut parts.disk, alloc, path.as_str(), offset)?;
    Ok(Reply::Part {
        total: part.total,
        bytes: part.bytes,
    })
}

/// The lane keeps what was opened and read for an entry, where its chunk was read, or is damaged.
fn keep_found(
    row: &mut Indexes,
    alloc: Global,
    turn: Turn,
    read: &Result<Bytes, Stop>,
) -> Result<(), AllocError>
    ensures ok { OnOk result (row.new ≡ kept_by (is_found read.now) turn row.old) }
    ensures err { OnErr result (row.new ≡ row.old) }
{
    match read {
        Ok(_) | Err(Stop::Refused(Refusal::Damaged { .. })) => keep(row, alloc, turn),
        Err(_) => Ok(()),
    }
}

/// The bytes of the chunk at an entry of an index of the reader's snapshot, as they stand on the disk: whether they are
/// the blob of a piece with its digest is tested outside of the act. The index is opened where the lane does not have it
/// open, and its page is taken from the opening; else that page is read where it is not at hand. The lane keeps both where
/// the chunk is read, or damaged: all indexes that were opened so, and the page that was read last.
///
/// The refusals, in the order in which they are tested: the lane has no reader; the name is no index's, or the snapshot
/// has no such file; the index, as it is opened, isn't there or is none, which is unreadable; it has no such entry; the
/// page is not as it was opened, which is unreadable too. A chunk is damaged where nothing is there, or more than a blob
/// may have.
pub fn read_chunk<D: Disk>(
    parts: &mut Parts<D>,
    alloc: Global,
    at: Place,
    name: &FileName,
    entry: u32,
) -> Result<Reply, Stop>
    requires { at.lane < 64 }
    ensures does { ActDoes D.Disk parts.old parts.new at (ReadChunk name.now entry) result }
    ensures leaves { ActLeaves D.Disk parts.old parts.new at (ReadChunk name.now entry) result }
    // on an honest disk, whatever it holds, it is the bytes that stand there, or the refusal
    ensures by_disk { ActReads D.Disk (chunk_told name.now entry) parts.old at result }
    // it is unreadable exactly where the file is no index as it is opened, or a page is not as it was opened
    ensures unreadable { ActUnreadable D.Disk (asked_entry name.now entry) parts.old at result }
    ensures damaged { ActDamaged D.Disk parts.old at (ReadChunk name.now entry) result }
    // what the lane keeps of indexes then
    ensures notes { NotesEntry D.Disk parts.old parts.new at.lane name.now entry result }
{
    let path = path_of(parts, alloc, at.lane, name)?;
    if !name.is_index() {
        return Err(Stop::Refused(Refusal::NoFile));
    }
    let lane = at.lane as usize;
    let row = &parts.indexes[lane];
    let found = find_entry(&mut parts.disk, alloc, path.as_str(), row, name, entry)?;
    let read = read_bytes(&mut parts.disk, alloc, &found.digest);
    keep_found(&mut parts.indexes[lane], alloc, found.turn, &read)?;
    let bytes = read?;
    Ok(Reply::Data(bytes))
}
