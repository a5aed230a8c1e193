//! DOWNLOAD.

ghost use Rattle.std.specs.Prelude.{◌≡◌, ◌<◌, ◌≤◌, IfErr, IfOk, IsErrOf, MatchResult, OnOk, OnErr, Some, length, string_bytes};
ghost use Rattle.wire_commands.specs.declared.command.Command.TheVariants.{Download};
ghost use Rattle.snapshot_files.specs.Calls.{CallsForPart};
ghost use Rattle.core_state.specs.Calls.{ActCalls};
ghost use Rattle.core_state.specs.Commands.{PlainDoes, PlainLeaves};
ghost use Rattle.core_state.specs.Unreadables.{ActUnreadable};
ghost use Rattle.store_stops.specs.declared.stop.Stop.TheVariants.{DiskFailed};
ghost use Rattle.disk_trait.specs.Effects.{OnlyReads};
ghost use Rattle.snapshot_files.specs.Parts.{PartHasText, RefusesPart};
ghost use Rattle.snapshot_files.specs.Reads.{StopHasText};
ghost use Rattle.store_stops.specs.Stops.{IfRefused};
ghost use Rattle.core_reader.specs.Asked.{GivesFile, NotesPlainly, ReadsTable, asked_download, noting, whole_for};
ghost use Rattle.core_reader.specs.NotesIndex.{NotesIndex};

use core_state::{Parts, Place, Session};
use disk_trait::Disk;
use paged_indexes::{IndexKind, IndexPages};
use restore_reader::{Reader, Table};
use snapshot_files::{FilePart, kind_of, read_index, read_part};
use std::alloc::{AllocError, Global};
use store_stops::Stop;
use store_types::{FileName, Refusal};
use wire_commands::Reply;

/// Notes an archive that the reader downloaded, by the entries of its index and what is kept of it, unless one of the name
/// was noted. At want of memory nothing has changed.
fn note(
    session: &mut Session,
    name: FileName,
    table: Table,
    pages: IndexPages,
) -> Result<(), AllocError>
    ensures ok { OnOk result (session.new ≡ noting name table pages session.old) }
    ensures err { OnErr result (session.new ≡ session.old) }
    ensures plain { OnOk result (NotesPlainly name table pages session.old session.new) }
{
    let Session::Reader(reader) = session else {
        return Ok(());
    };
    reader.downloaded(name, table, pages)
}

/// Whether the file is read whole, as an index that was not downloaded before, and then of which kind.
fn whole_index(reader: &Reader, name: &FileName) -> Option<IndexKind>
    ensures { result ≡ whole_for reader.now name.now }
{
    if reader.is_downloaded(name) {
        return None;
    }
    kind_of(name)
}

/// A file that is asked for.
#[derive(Drop)]
struct AskedFile {
    name: FileName,
    /// Where it stands.
    path: String,
    /// Of an index that is read whole, its kind.
    whole: Option<IndexKind>,
}

/// The file of the reader's snapshot, by what is kept. The disk is not called.
fn asked_file<D>(parts: &Parts<D>, alloc: Global, lane: u32, file: &[u8]) -> Result<AskedFile, Stop>
    requires { lane < 64 }
    ensures value { GivesFile parts.now lane file.now result }
    ensures name { IfOk result (λ a. a.name ≡ file.now) }
    ensures short { IfOk result (λ a. length (string_bytes a.path) ≤ 255) }
    ensures unfailed { IsErrOf result DiskFailed → ⊥ }
{
    let reader = parts.reader(lane)?;
    let Ok(name) = FileName::check(alloc, file)? else {
        return Err(Stop::Refused(Refusal::BadName));
    };
    let Some(path) = parts.catalogue.path(reader.key(), &name) else {
        return Err(Stop::Refused(Refusal::NoFile));
    };
    let path = String::from_str(alloc, path.as_str())?;
    let whole = whole_index(reader, &name);
    Ok(AskedFile { name, path, whole })
}

/// A part of an index, what is kept of the index, and the table of its entries.
#[derive(Drop)]
struct Given {
    part: FilePart,
    pages: IndexPages,
    table: Table,
}

/// A part of an index that is read whole, page by page, and what is noted of it.
fn read_table<D: Disk>(
    disk: &mut D,
    alloc: Global,
    path: &str,
    kind: IndexKind,
    offset: u64,
) -> Result<Given, Stop>
    requires { length path.now ≤ 255 }
    ensures reads { OnlyReads D.Disk disk.old disk.new (IsErrOf result DiskFailed) }
    ensures calls { CallsForPart D.Disk disk.old disk.new path.now (Some kind) }
    ensures exact { ReadsTable D.Disk disk.old path.now kind offset result }
    ensures kind { IfErr result (IfRefused (RefusesPart path.now)) }
    ensures text { MatchResult result (λ g. PartHasText g.part) StopHasText }
{
    let mut table = Table::new(alloc);
    let index = read_index(disk, alloc, path, kind, offset, &mut table)?;
    Ok(Given {
        part: index.part,
        pages: index.pages,
        table,
    })
}

/// A part of a file of the reader's snapshot.
///
/// The refusals, in the order in which they are tested: the lane has no reader; the text is no file's name; the snapshot
/// has no such file; the offset, in bytes, is beyond the file's size. A file that isn't there, or gives fewer bytes than
/// its size says, is refused as unreadable, and so is an index that is none. Where a part of an index is given for the
/// first time, the index is read whole, and its digests and what is kept of it for its pages to be read are noted.
pub fn download<D: Disk>(
    parts: &mut Parts<D>,
    alloc: Global,
    at: Place,
    file: &[u8],
    offset: u64,
) -> Result<Reply, Stop>
    requires { at.lane < 64 }
    ensures does { PlainDoes D.Disk parts.old parts.new at (Download file.now offset) result }
    ensures leaves { PlainLeaves D.Disk parts.old parts.new at (Download file.now offset) result }
    // no file is read that is not asked for, and none twice
    ensures calls { ActCalls D.Disk (asked_download file.now offset) parts.old parts.new at }
    // it is unreadable exactly where nothing stands there, or where what is read whole is no index, as far as the disk tells
    ensures unreadable { ActUnreadable D.Disk (asked_download file.now offset) parts.old at result }
    // what is noted of an index that was read whole is what was opened and read
    ensures notes { NotesIndex D.Disk parts.old parts.new at.lane file.now offset result }
{
    let asked = asked_file(parts, alloc, at.lane, file)?;
    let Some(kind) = asked.whole else {
        let part = read_part(&mut parts.disk, alloc, asked.path.as_str(), offset)?;
        return Ok(Reply::Part {
            total: part.total,
            bytes: part.bytes,
        });
    };
    let index = read_table(&mut parts.disk, alloc, asked.path.as_str(), kind, offset)?;
    let Given { part, pages, table } = index;
    note(
        &mut parts.sessions[at.lane as usize],
        asked.name,
        table,
        pages,
    )?;
    Ok(Reply::Part {
        total: part.total,
        bytes: part.bytes,
    })
}
