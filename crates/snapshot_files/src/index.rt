//! Indexes of snapshots, read page by page.

ghost use Rattle.std.specs.Prelude.{◌≡◌, ◌<◌, ◌≤◌, IfErr, IfOk, IsErrOf, MatchResult, Some, length};
ghost use Rattle.disk_trait.specs.Disk.{TicksOnce};
ghost use Rattle.disk_trait.specs.Effects.{OnlyReads};
ghost use Rattle.store_types.specs.declared.refusal.Refusal.TheVariants.{Unreadable as UnreadableAt};
ghost use Rattle.paged_indexes.specs.Calls.{CallsToOpen};
ghost use Rattle.snapshot_files.specs.Calls.{CallsForPart};
ghost use Rattle.paged_indexes.specs.Handing.{HandsSome};
ghost use Rattle.index_pages.specs.Paged.{page_count};
ghost use Rattle.paged_indexes.specs.Index.{HandsEntries, HandsKept, pages_by, told_by};
ghost use Rattle.snapshot_files.specs.Indexes.{OpensIndex, ReadsIndex, ReadsPage, StopsBy, kind_named, kind_of_index};
ghost use Rattle.snapshot_files.specs.Parts.{PartHasText, RefusesPart};
ghost use Rattle.snapshot_files.specs.Reads.{StopHasText};
ghost use Rattle.store_stops.specs.Stops.{IfRefused};

use crate::parts::{FilePart, read_part, unreadable};
use disk_trait::Disk;
use paged_indexes::{IndexKind, IndexPages, Page, PageFault, TakesEntries};
use std::alloc::Global;
use store_stops::Stop;
use store_types::FileName;

/// Which kind of index a file of this name is, if it is one's.
pub fn kind_of(name: &FileName) -> Option<IndexKind>
    ensures { result ≡ kind_named name.now }
{
    if name.is_fixed() {
        return Some(IndexKind::Fixed);
    }
    if name.is_dynamic() {
        return Some(IndexKind::Dynamic);
    }
    None
}

/// Which kind of index a file of this name is, which is an index's.
pub fn index_kind(name: &FileName) -> IndexKind
    ensures { result ≡ kind_of_index name.now }
{
    if name.is_fixed() {
        return IndexKind::Fixed;
    }
    IndexKind::Dynamic
}

/// The index at the path is not read for this fault: it is unreadable, but for want of memory and a failed disk.
fn stopped(alloc: Global, path: &str, fault: PageFault) -> Stop
    requires { length path.now ≤ 255 }
    ensures value { StopsBy path.now fault result }
    ensures text { StopHasText result }
{
    match fault {
        PageFault::Failed => Stop::DiskFailed,
        PageFault::NoMemory => Stop::NoMemory,
        _ => match unreadable(alloc, path) {
            Ok(refusal) => Stop::Refused(refusal),
            Err(_) => Stop::NoMemory,
        },
    }
}

/// Opens an index of this kind, and hands its entries on as it is read page by page. After a refusal, and where memory is
/// wanting or the disk failed, some were handed on.
///
/// It is unreadable where nothing is there, and where the file is no index of this kind.
pub fn open_index<D: Disk, T: TakesEntries>(
    disk: &mut D,
    alloc: Global,
    path: &str,
    kind: IndexKind,
    taker: &mut T,
) -> Result<IndexPages, Stop>
    requires { length path.now ≤ 255 }
    ensures reads { OnlyReads D.Disk disk.old disk.new (IsErrOf result Stop.DiskFailed) }
    ensures calls { CallsToOpen D.Disk disk.old disk.new path.now kind }
    ensures exact { OpensIndex D.Disk disk.old path.now kind result }
    ensures those { IfOk result
        (λ _. HandsEntries D.Disk disk.old path.now kind T.taken taker.old taker.new) }
    // on any disk
    ensures some { IfOk result
        (λ pages. HandsSome T.taken (pages_by pages) (told_by pages) taker.old taker.new) }
    ensures refusal { IfErr result (IfRefused (λ refusal. refusal ≡ UnreadableAt path.now)) }
    ensures text { IfErr result StopHasText }
{
    match IndexPages::open_into(disk, alloc, path, kind, taker) {
        Ok(pages) => Ok(pages),
        Err(fault) => Err(stopped(alloc, path, fault)),
    }
}

/// Reads a page of an index that was opened at the path, and hands its entries on. After a refusal, and where memory is
/// wanting or the disk failed, some may have been.
///
/// It is unreadable where nothing is there, and where the page is not as it was opened.
pub fn read_page<D: Disk, T: TakesEntries>(
    disk: &mut D,
    alloc: Global,
    path: &str,
    pages: &IndexPages,
    i: u32,
    room: &mut Page,
    taker: &mut T,
) -> Result<(), Stop>
    requires path { length path.now ≤ 255 }
    requires place { i < page_count (pages_by pages.now).count }
    ensures reads { OnlyReads D.Disk disk.old disk.new (IsErrOf result Stop.DiskFailed) }
    ensures calls { TicksOnce D.honest D.calls disk.old disk.new }
    ensures exact { ReadsPage D.Disk disk.old path.now pages.now i
        T.taken taker.old taker.new result }
    // on any disk
    ensures kept { IfOk result (λ _. HandsKept pages.now i T.taken taker.old taker.new) }
    ensures refusal { IfErr result (IfRefused (λ refusal. refusal ≡ UnreadableAt path.now)) }
    ensures text { IfErr result StopHasText }
{
    match pages.read_into(disk, i, room, taker) {
        Ok(()) => Ok(()),
        Err(fault) => Err(stopped(alloc, path, fault)),
    }
}

/// A part of an index, and what is kept of the index.
#[derive(Drop)]
pub struct IndexPart {
    pub part: FilePart,
    pub pages: IndexPages,
}

/// Reads an index of this kind whole, page by page, and hands its entries on; of its text it gives what is left from an
/// offset in bytes, and no more than 4,194,304 bytes. Where it stops, some entries were handed on.
///
/// The refusals, in the order in which they are tested: nothing is there; the offset is beyond the file's size, which
/// the refusal has; the file gives fewer bytes than its size says, or is no index of this kind.
pub fn read_index<D: Disk, T: TakesEntries>(
    disk: &mut D,
    alloc: Global,
    path: &str,
    kind: IndexKind,
    offset: u64,
    taker: &mut T,
) -> Result<IndexPart, Stop>
    requires { length path.now ≤ 255 }
    ensures reads { OnlyReads D.Disk disk.old disk.new (IsErrOf result Stop.DiskFailed) }
    ensures calls { CallsForPart D.Disk disk.old disk.new path.now (Some kind) }
    ensures exact { ReadsIndex D.Disk disk.old path.now kind offset
        T.taken taker.old taker.new result }
    // on any disk
    ensures some { IfOk result
        (λ x. HandsSome T.taken (pages_by x.pages) (told_by x.pages) taker.old taker.new) }
    ensures kind { IfErr result (IfRefused (RefusesPart path.now)) }
    ensures text { MatchResult result (λ index. PartHasText index.part) StopHasText }
{
    let part = read_part(disk, alloc, path, offset)?;
    let pages = open_index(disk, alloc, path, kind, taker)?;
    Ok(IndexPart { part, pages })
}
