//! A range of an archive: its front by the page at hand, the rest page by page of its index.

ghost use Rattle.std.specs.Prelude.{◌≡◌, ◌<◌, ◌≤◌, ◌+◌, ◌-◌, IfOk, IfErr, IsErrOf, OnOk, length, option_map};
ghost use Rattle.disk_trait.specs.Disk.{TicksOnce};
ghost use Rattle.disk_trait.specs.Effects.{OnlyReads};
ghost use Rattle.index_pages.specs.Paged.{page_count};
ghost use Rattle.paged_indexes.specs.Index.{pages_by};
ghost use Rattle.store_stops.specs.Stops.{IfRefused};
ghost use Rattle.store_stops.specs.declared.stop.Stop.TheVariants.{DiskFailed};
ghost use Rattle.store_types.specs.declared.refusal.Refusal.TheVariants.{Unreadable};
ghost use Rattle.snapshot_files.specs.Reads.{StopHasText};
ghost use Rattle.restore_reader.specs.Cutting.{total_of};
ghost use Rattle.restore_reader.specs.Plan.{ends_of};
ghost use Rattle.core_reader.specs.Chunks.{HoldsParts, IsUnrefused, ReadsParts, StopsAmong, digests_of};
ghost use Rattle.core_reader.specs.Ranges.{AreKept, GivesAsked, GivesEntries, GivesFront, GivesPageRange, GivesPages, GivesReadPage, Grows, HoldsFront, IsLast, IsPageRead, LastRead, ReadsAsked, ReadsLast, ReadsPage, ReadsWhole, RefusesAsked, RefusesFront, RefusesRead, asking, parts_on, ranged};

use crate::loading::read_parts;
use core_state::ReadPage;
use disk_trait::Disk;
use paged_indexes::{IndexEntry, IndexPages, Page, TakesEntries};
use restore_reader::parts_of_page;
use snapshot_files::read_page;
use std::alloc::{AllocError, Global};
use store_stops::Stop;

/// The entries of a page as they are read.
#[derive(Drop)]
struct PageEntries {
    items: Vec<IndexEntry>,
}

impl TakesEntries for PageEntries {
    ghost taken = { λ e base entries. ends_of e.items.items ≡ entries };

    fn take(&mut self, _start: u64, entry: &IndexEntry) -> Result<(), AllocError> {
        self.items.push(*entry)?;
        Ok(())
    }
}

/// The entries of a page.
pub fn page_entries<D: Disk>(
    disk: &mut D,
    alloc: Global,
    path: &str,
    pages: &IndexPages,
    i: u32,
    room: &mut Page,
) -> Result<Vec<IndexEntry>, Stop>
    requires path { length path.now ≤ 255 }
    requires place { i < page_count (pages_by pages.now).count }
    ensures reads { OnlyReads D.Disk disk.old disk.new (IsErrOf result DiskFailed) }
    ensures calls { TicksOnce D.honest D.calls disk.old disk.new }
    ensures exact { GivesEntries D.Disk disk.old path.now pages.now i result }
    // a page of an index that stands there is read
    ensures whole { ReadsWhole D.Disk disk.old pages.now result }
    // on any disk
    ensures kept { IfOk result (λ entries. AreKept pages.now i (ends_of entries.items)) }
    ensures refusal { IfErr result (IfRefused (λ refusal. refusal ≡ Unreadable path.now)) }
    ensures text { IfErr result StopHasText }
{
    let mut entries = PageEntries {
        items: Vec::new(alloc),
    };
    read_page(disk, alloc, path, pages, i, room, &mut entries)?;
    Ok(entries.items)
}

/// Reads a page.
fn read_next<D: Disk>(
    disk: &mut D,
    alloc: Global,
    path: &str,
    pages: &IndexPages,
    i: u32,
    room: &mut Page,
) -> Result<ReadPage, Stop>
    requires path { length path.now ≤ 255 }
    requires place { i < page_count (pages_by pages.now).count }
    ensures reads { OnlyReads D.Disk disk.old disk.new (IsErrOf result DiskFailed) }
    ensures calls { TicksOnce D.honest D.calls disk.old disk.new }
    ensures exact { GivesReadPage D.Disk disk.old (ranged path.now pages.now) i result }
    ensures whole { ReadsWhole D.Disk disk.old pages.now result }
    // on any disk
    ensures page { IfOk result (IsPageRead pages.now i) }
    ensures refusal { IfErr result (IfRefused (λ refusal. refusal ≡ Unreadable path.now)) }
    ensures text { IfErr result StopHasText }
{
    let entries = page_entries(disk, alloc, path, pages, i, room)?;
    Ok(ReadPage {
        number: i,
        start: pages.start(i),
        entries,
    })
}

/// Reads what the range from one offset up to another has of a page's pieces, behind the bytes that were read before.
fn read_pieces<D: Disk>(
    disk: &mut D,
    alloc: Global,
    page: &ReadPage,
    from: u64,
    to: u64,
    bytes: &mut Vec<u8>,
) -> Result<(), Stop>
    ensures reads { OnlyReads D.Disk disk.old disk.new (IsErrOf result DiskFailed) }
    ensures value { D.honest disk.old → ReadsParts (D.content disk.old) (parts_on from to page.now)
        bytes.old.items bytes.new.items result }
    // parts of pieces that stand there are read
    ensures held { D.honest disk.old → HoldsParts (D.content disk.old) (parts_on from to page.now)
        → IsUnrefused result }
    // on any disk
    ensures size { OnOk result (length bytes.new.items
        ≤ length bytes.old.items + total_of (parts_on from to page.now)) }
    ensures damage { IfErr result (StopsAmong (digests_of (parts_on from to page.now))) }
{
    let parts = parts_of_page(alloc, &page.entries, page.start, from, to)?;
    read_parts(disk, alloc, &parts, bytes)
}

/// Reads a page, and what the range from one offset up to another has of it behind the bytes that were read before.
fn read_page_range<D: Disk>(
    disk: &mut D,
    alloc: Global,
    path: &str,
    pages: &IndexPages,
    i: u32,
    from: u64,
    to: u64,
    room: &mut Page,
    bytes: &mut Vec<u8>,
) -> Result<ReadPage, Stop>
    requires path { length path.now ≤ 255 }
    requires place { i < page_count (pages_by pages.now).count }
    ensures reads { OnlyReads D.Disk disk.old disk.new (IsErrOf result DiskFailed) }
    ensures exact { GivesPageRange D.Disk disk.old (ranged path.now pages.now) i from to
        bytes.old.items bytes.new.items result }
    ensures whole { ReadsWhole D.Disk disk.old pages.now result }
    ensures given { D.honest disk.old → IfOk result (ReadsPage (D.content disk.old)
        (ranged path.now pages.now)) }
    // on any disk
    ensures page { IfOk result (IsPageRead pages.now i) }
    ensures size { OnOk result (Grows pages.now i from to bytes.old.items bytes.new.items) }
    ensures refusal { IfErr result (IfRefused (RefusesRead (ranged path.now pages.now) from to)) }
    ensures text { IfErr result StopHasText }
{
    let page = read_next(disk, alloc, path, pages, i, room)?;
    read_pieces(disk, alloc, &page, from, to, bytes)?;
    Ok(page)
}

/// Reads the bytes of an archive's content from one offset up to another, behind those that were read before, and gives the
/// page that was read last. A page is read, then the chunks of its parts, then the next page; of no bytes none is read.
fn read_pages<D: Disk>(
    disk: &mut D,
    alloc: Global,
    path: &str,
    pages: &IndexPages,
    from: u64,
    to: u64,
    bytes: &mut Vec<u8>,
) -> Result<Option<ReadPage>, Stop>
    requires path { length path.now ≤ 255 }
    requires order { from ≤ to }
    ensures reads { OnlyReads D.Disk disk.old disk.new (IsErrOf result DiskFailed) }
    ensures exact { GivesPages D.Disk disk.old (ranged path.now pages.now) from to
        bytes.old.items bytes.new.items result }
    // of an index that stands there, and whose pieces do, the bytes are read
    ensures whole { ReadsWhole D.Disk disk.old pages.now result }
    ensures given { D.honest disk.old → IfOk result (ReadsLast (D.content disk.old)
        (ranged path.now pages.now)) }
    // on any disk
    ensures last { IfOk result (IsLast pages.now from to) }
    ensures size { OnOk result (length bytes.new.items
        ≤ length bytes.old.items + (to - from)) }
    ensures refusal { IfErr result (IfRefused (RefusesRead (ranged path.now pages.now) from to)) }
    ensures text { IfErr result StopHasText }
{
    let mut last = None;
    if from == to {
        return Ok(last);
    }
    let Some(first) = pages.page_with(from) else {
        return Ok(last);
    };
    let mut room = Page::new(alloc)?;
    let count = pages.page_count();
    for i in first..count {
        if pages.start(i) >= to {
            return Ok(last);
        }
        last = None;
        let page = read_page_range(disk, alloc, path, pages, i, from, to, &mut room, bytes)?;
        last = Some(page);
    }
    Ok(last)
}

/// Reads what the page at hand has of a range's front, where it begins there or before.
fn read_front<D: Disk>(
    disk: &mut D,
    alloc: Global,
    at_hand: Option<&ReadPage>,
    from: u64,
    to: u64,
    bytes: &mut Vec<u8>,
) -> Result<(), Stop>
    ensures reads { OnlyReads D.Disk disk.old disk.new (IsErrOf result DiskFailed) }
    ensures exact { GivesFront D.Disk disk.old (option_map (λ p. p.now) at_hand.entry) from to
        bytes.old.items bytes.new.items result }
    ensures held { D.honest disk.old → HoldsFront (D.content disk.old)
        (option_map (λ p. p.now) at_hand.entry) from to → IsUnrefused result }
    // on any disk
    ensures size { OnOk result (length bytes.new.items ≤ length bytes.old.items + (to - from)) }
    ensures refusal { IfErr result (IfRefused
        (RefusesFront (option_map (λ p. p.now) at_hand.entry) from to)) }
    ensures text { IfErr result StopHasText }
{
    let Some(page) = at_hand else {
        return Ok(());
    };
    if page.start > from {
        return Ok(());
    }
    read_pieces(disk, alloc, page, from, to, bytes)
}

/// The bytes of a range, and the page that was read for them last, where one was.
#[derive(Drop)]
pub struct RangeRead {
    pub bytes: Vec<u8>,
    pub last: Option<ReadPage>,
}

/// The bytes of an archive's content from one offset up to another. What the page at hand has of their front is not read
/// of the index again; behind it a page is read, then the chunks of its parts, then the next page.
pub fn read_range<D: Disk>(
    disk: &mut D,
    alloc: Global,
    path: &str,
    pages: &IndexPages,
    at_hand: Option<&ReadPage>,
    from: u64,
    to: u64,
) -> Result<RangeRead, Stop>
    requires path { length path.now ≤ 255 }
    requires order { from ≤ to }
    ensures reads { OnlyReads D.Disk disk.old disk.new (IsErrOf result DiskFailed) }
    ensures exact { GivesAsked D.Disk disk.old
        (asking path.now pages.now (option_map (λ p. p.now) at_hand.entry)) from to result }
    // of an index that stands there, and whose pieces do, the bytes are read
    ensures whole { ReadsAsked D.Disk disk.old
        (asking path.now pages.now (option_map (λ p. p.now) at_hand.entry)) result }
    ensures last { IfOk result (λ read. LastRead D.Disk disk.old
        (asking path.now pages.now (option_map (λ p. p.now) at_hand.entry)) from to read.last) }
    // on any disk
    ensures size { IfOk result (λ read. length read.bytes.items ≤ to - from) }
    ensures refusal { IfErr result (IfRefused (RefusesAsked
        (asking path.now pages.now (option_map (λ p. p.now) at_hand.entry)) from to)) }
    ensures text { IfErr result StopHasText }
{
    let mut bytes = Vec::with_capacity(alloc, (to - from) as usize)?;
    read_front(disk, alloc, at_hand, from, to, &mut bytes)?;
    let reached = from + bytes.len() as u64;
    let last = read_pages(disk, alloc, path, pages, reached, to, &mut bytes)?;
    Ok(RangeRead { bytes, last })
}
