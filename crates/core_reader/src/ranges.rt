//! RANGE.

ghost use Rattle.std.specs.Prelude.{◌≡◌, ◌+◌, ◌<◌, true, IfOk, IfErr, IfSome, IsErrOf, OnErr, is_some, length, string_bytes};
ghost use Rattle.disk_trait.specs.Effects.{OnlyReads};
ghost use Rattle.store_types.specs.FileNames.{is_index_name};
ghost use Rattle.wire_commands.specs.declared.command.Command.TheVariants.{Range};
ghost use Rattle.store_history.specs.declared.act.Act.TheVariants.{Plain};
ghost use Rattle.store_stops.specs.Stops.{IfRefused};
ghost use Rattle.store_stops.specs.declared.stop.Stop.TheVariants.{DiskFailed};
ghost use Rattle.snapshot_files.specs.Reads.{StopHasText};
ghost use Rattle.core_state.specs.Kept.{kept_at};
ghost use Rattle.core_state.specs.Commands.{LeavesRows};
ghost use Rattle.core_state.specs.Unchanged.{SamePlain, is_uncalled};
ghost use Rattle.core_state.specs.Unreadables.{ActUnreadable};
ghost use Rattle.core_reader.specs.AnsweredBy.{ActReads, bytes_told};
ghost use Rattle.core_reader.specs.Asked.{asked_range};
ghost use Rattle.core_reader.specs.Damages.{ActDamaged};
ghost use Rattle.core_reader.specs.Ranges.{FindsIndex, FitsRange, GivesRange, RangeRefuses, ReadsRange, range_asked as asked_for};
ghost use Rattle.core_reader.specs.NotesRange.{NotesRange};
ghost use Rattle.core_reader.specs.ReaderActs.{RangeDoes, RangeLeaves};

use crate::paging::{RangeRead, read_range};
use core_state::{Parts, Place};
use disk_trait::Disk;
use std::alloc::{AllocError, Global};
use store_stops::Stop;
use store_types::{Bytes, FileName, Refusal};
use wire_commands::Reply;

/// The text as the name of an index, where it is one.
fn index_name(alloc: Global, text: &[u8]) -> Result<Option<FileName>, AllocError>
    ensures exact { IfOk result (λ found. is_some found ≡ is_index_name text.now) }
    ensures value { IfOk result (λ found. IfSome found (λ name. name ≡ text.now)) }
{
    let Ok(name) = FileName::check(alloc, text)? else {
        return Ok(None);
    };
    if !name.is_index() {
        return Ok(None);
    }
    Ok(Some(name))
}

/// An index of which a range is asked.
#[derive(Drop)]
struct AskedIndex {
    name: FileName,
    /// Where it stands.
    path: String,
}

/// The index of the reader's snapshot, by what is kept. The disk is not called.
fn asked_index<D>(
    parts: &Parts<D>,
    alloc: Global,
    lane: u32,
    file: &[u8],
) -> Result<AskedIndex, Stop>
    requires { lane < 64 }
    ensures value { FindsIndex parts.now lane file.now result }
    ensures name { IfOk result (λ a. a.name ≡ file.now) }
    ensures short { IfOk result (λ a. length (string_bytes a.path) < 256) }
    ensures unfailed { IsErrOf result DiskFailed → ⊥ }
    ensures text { IfErr result StopHasText }
{
    let reader = parts.reader(lane)?;
    let Some(name) = index_name(alloc, file)? else {
        return Err(Stop::Refused(Refusal::BadName));
    };
    let Some(path) = parts.catalogue.path(reader.key(), &name) else {
        return Err(Stop::Refused(Refusal::NoFile));
    };
    let path = String::from_str(alloc, path.as_str())?;
    Ok(AskedIndex { name, path })
}

/// The bytes of a range of an archive of the reader's snapshot. The lane keeps the page that was read last.
fn range_bytes<D: Disk>(
    parts: &mut Parts<D>,
    alloc: Global,
    lane: u32,
    file: &[u8],
    offset: u64,
    length: u32,
) -> Result<Vec<u8>, Stop>
    requires { lane < 64 }
    ensures reads { OnlyReads D.Disk parts.old.disk parts.new.disk (IsErrOf result DiskFailed) }
    ensures kept { SamePlain parts.old parts.new }
    ensures stays { OnErr result (parts.new.indexes.items ≡ parts.old.indexes.items) }
    ensures exact { GivesRange D.Disk parts.old lane file.now offset length result }
    // of an index that stands there, and whose pieces do, the bytes are read
    ensures whole { ReadsRange D.Disk parts.old lane file.now offset length result }
    // on any disk
    ensures notes { NotesRange D.Disk parts.old parts.new lane file.now offset length result }
    ensures others { IfOk result (λ _. LeavesRows parts.old parts.new
        lane (Plain (Range file.now offset length))) }
    ensures fits { IfOk result (FitsRange length) }
    ensures refusal { IfErr result (IfRefused (RangeRefuses
        (asked_for file.now offset length (kept_at parts.old lane)) offset (offset + length))) }
    ensures uncalled { IfErr result (IfRefused
        (λ refusal. is_uncalled refusal ≡ true → parts.new.disk ≡ parts.old.disk)) }
    ensures text { IfErr result StopHasText }
{
    let asked = asked_index(parts, alloc, lane, file)?;
    let reader = parts.sessions[lane as usize].reader()?;
    let pages = reader.range_plan(&asked.name, offset, length)?;
    let end = offset + u64::from(length);
    let lane = lane as usize;
    let row = &parts.indexes[lane];
    let at_hand = row.ranged(&asked.name);
    let read = read_range(
        &mut parts.disk,
        alloc,
        asked.path.as_str(),
        pages,
        at_hand,
        offset,
        end,
    )?;
    let RangeRead { bytes, last } = read;
    parts.indexes[lane].note_ranged(asked.name, last);
    Ok(bytes)
}

/// So many bytes of an archive's content from an offset on. Beside the reply there is one page of the index, its parts,
/// and one chunk at a time in memory, and the page that the lane keeps. It keeps the one that was read last, once the
/// range is done, and a range that begins on that page does not read it again: so a restore in order reads each page once.
///
/// The refusals, in the order in which they are tested: the lane has no reader; the text is no index's name; the snapshot
/// has no such file; the reader did not download it; the range has more than 4,194,304 bytes; it goes beyond the
/// content, whose size the refusal has. Then, of the index's pages and of each page's chunks in turn, the first refusal: a
/// page is unreadable that is read and is not as the download opened it; a chunk is damaged, also where it is not as long
/// as the index says.
pub fn range<D: Disk>(
    parts: &mut Parts<D>,
    alloc: Global,
    at: Place,
    file: &[u8],
    offset: u64,
    length: u32,
) -> Result<Reply, Stop>
    requires { at.lane < 64 }
    ensures does { RangeDoes D.Disk parts.old parts.new at file.now offset length result }
    ensures leaves { RangeLeaves D.Disk parts.old parts.new at file.now offset length result }
    // on an honest disk, whatever it holds, it is the bytes by the index as it was opened, or the refusal
    ensures by_disk { ActReads D.Disk (bytes_told file.now offset length) parts.old at result }
    // the index is unreadable exactly where a page that is read is not as it was opened
    ensures unreadable { ActUnreadable D.Disk (asked_range file.now offset length) parts.old at result }
    // a chunk is damaged exactly where one of the range's has no piece with its digest and its length by the index
    ensures damaged { ActDamaged D.Disk parts.old at (Plain (Range file.now offset length)) result }
    // what the lane keeps of indexes then
    ensures notes { NotesRange D.Disk parts.old parts.new at.lane file.now offset length result }
{
    let bytes = range_bytes(parts, alloc, at.lane, file, offset, length)?;
    Ok(Reply::Data(Bytes::from_vec(bytes)))
}
