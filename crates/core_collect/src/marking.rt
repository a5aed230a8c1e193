//! The marks of a collector.

ghost use Rattle.std.specs.Prelude.{◌≡◌, ◌<◌, ◌-◌, min, IfErr, IfOk, IsErrOf, IsSome, length, option_map};
ghost use Rattle.disk_trait.specs.Effects.{OnlyReads};
ghost use Rattle.index_pages.specs.declared.fault.PageFault.TheVariants.{Failed as ReadFailed};
ghost use Rattle.index_pages.specs.Paged.{page_count};
ghost use Rattle.gc_plan.specs.Plan.{mark_limit, next_mark};
ghost use Rattle.paged_indexes.specs.Index.{HasWidth, pages_by};
ghost use Rattle.core_state.specs.MarkedPage.{FitsLast};
ghost use Rattle.core_state.specs.Unchanged.{SameKept};
ghost use Rattle.index_pages.specs.Calls.{CallsAtMost};
ghost use Rattle.paged_indexes.specs.Calls.{CallsToOpen};
ghost use Rattle.core_collect.specs.Calls.{SearchCalls, SettleCalls, page_calls, pages_calls};
ghost use Rattle.core_collect.specs.declared.marking.Unread.TheVariants.{DiskFailed, NoMemory, Unreadable};
ghost use Rattle.core_collect.specs.Entries.{AreNext, HandsPage, HasPage, IsBatch, IsThePage, ReadsPage, ReadsPages, TakesKept, TakesPage, entry_digests};
ghost use Rattle.core_collect.specs.Marking.{AreFirst, AtHand, FindsNext, IfUnreadable, KeepsLast, MarksSome, OpensFirst, PassesOver, ReadsNext, SettlesNext, UnreadBy, path_at};

use atime_book::Book;
use core_state::{Catalogue, Collector, MarkedPage, MarkedPages, Parts, path_named, touch_each};
use disk_trait::Disk;
use gc_plan::{IndexAt, MARK_LIMIT, mark_size};
use paged_indexes::{IndexEntry, IndexKind, IndexPages, Page, PageFault, TakesEntries};
use snapshot_files::{FilePath, index_kind};
use std::alloc::{AllocError, Global};
use store_types::Digest32;

// The entries of a page of an index.
const PAGE_ENTRIES: u32 = index_pages::PAGE_ENTRIES as u32;

/// Why the digests that are marked next are not had.
#[derive(Debug, Drop)]
pub enum Unread {
    /// No index stands there, the file does not decode, or a page is not as it was opened.
    Unreadable(FilePath),
    NoMemory,
    DiskFailed,
}

impl From<AllocError> for Unread {
    ghost from_gives = { λ _ unread. unread ≡ NoMemory };

    fn from(_: AllocError) -> Self {
        Unread::NoMemory
    }
}

/// Where the index stands, if its snapshot was not forgotten.
fn path_of<'a>(catalogue: &'a Catalogue, index: &IndexAt) -> Option<&'a FilePath>
    ensures { option_map (λ p. p.now) result ≡ path_at index.now catalogue.now.listed }
{
    let kept = catalogue.by_number(index.snapshot)?;
    path_named(kept.files.as_slice(), &index.name)
}

/// The file at the path is no index.
fn unreadable(alloc: Global, path: &FilePath) -> Result<Unread, AllocError>
    ensures { IfOk result (λ unread. unread ≡ Unreadable path.now) }
{
    let text = String::from_str(alloc, path.as_str())?;
    Ok(Unread::Unreadable(FilePath::from_string(text)))
}

/// The index at the path is not read for this fault.
fn why_unread(alloc: Global, path: &FilePath, fault: PageFault) -> Unread
    ensures { UnreadBy path.now fault result }
{
    match fault {
        PageFault::Failed => Unread::DiskFailed,
        PageFault::NoMemory => Unread::NoMemory,
        _ => match unreadable(alloc, path) {
            Ok(unread) => unread,
            Err(_) => Unread::NoMemory,
        },
    }
}

/// The digests that are marked next, as entries of their index are read: some are passed over first.
#[derive(Drop)]
pub struct Batch {
    /// So many entries are still to be passed over.
    pub skip: u32,
    /// 1,000 at most.
    pub digests: Vec<Digest32>,
}

impl TakesEntries for Batch {
    ghost taken = { λ b base entries. IsBatch b (entry_digests entries) };

    fn take(&mut self, _start: u64, entry: &IndexEntry) -> Result<(), AllocError> {
        if self.skip > 0 {
            self.skip -= 1;
            return Ok(());
        }
        if self.digests.len() < MARK_LIMIT as usize {
            self.digests.push(entry.digest)?;
        }
        Ok(())
    }
}

/// An index that was opened to be marked.
#[derive(Drop)]
pub struct Opened {
    pub pages: IndexPages,
    /// Those of its first entries, 1,000 at most.
    pub digests: Vec<Digest32>,
}

/// Opens the index at the path. It is unreadable where no such index stands there.
fn open_first<D: Disk>(
    disk: &mut D,
    alloc: Global,
    path: &FilePath,
    kind: IndexKind,
) -> Result<Opened, Unread>
    ensures reads { OnlyReads D.Disk disk.old disk.new (IsErrOf result DiskFailed) }
    ensures calls { CallsToOpen D.Disk disk.old disk.new path.now kind }
    ensures exact { OpensFirst D.Disk disk.old path.now kind result }
    // on any disk
    ensures many { IfOk result (λ opened. length opened.digests.items
        ≡ min mark_limit (pages_by opened.pages).count) }
    ensures kept { IfOk result AreFirst }
    ensures named { IfErr result (IfUnreadable (λ name. name ≡ path.now)) }
{
    let mut batch = Batch {
        skip: 0,
        digests: Vec::new(alloc),
    };
    match IndexPages::open_into(disk, alloc, path.as_str(), kind, &mut batch) {
        Ok(pages) => Ok(Opened {
            pages,
            digests: batch.digests,
        }),
        Err(fault) => Err(why_unread(alloc, path, fault)),
    }
}

/// A page of an index: the one at hand, where it is that, else as it is read.
fn page_of<D: Disk>(
    disk: &mut D,
    alloc: Global,
    pages: &IndexPages,
    at_hand: Option<MarkedPage>,
    i: u32,
) -> Result<MarkedPage, PageFault>
    requires place { i < page_count (pages_by pages.now).count }
    requires at_hand { FitsLast pages.now at_hand }
    ensures reads { OnlyReads D.Disk disk.old disk.new (IsErrOf result ReadFailed) }
    ensures calls { CallsAtMost D.Disk disk.old disk.new (page_calls at_hand i) }
    ensures exact { HasPage D.Disk disk.old pages.now at_hand i result }
    // on any disk
    ensures page { IfOk result (IsThePage pages.now i) }
{
    if let Some(page) = at_hand {
        if page.number == i {
            return Ok(page);
        }
    }
    let mut bytes = Page::new(alloc)?;
    pages.page(disk, i, &mut bytes)?;
    Ok(MarkedPage { number: i, bytes })
}

/// Hands on the entries of a page, which is at hand then.
fn hand_on<D: Disk>(
    disk: &mut D,
    alloc: Global,
    pages: &IndexPages,
    at_hand: Option<MarkedPage>,
    i: u32,
    batch: &mut Batch,
) -> Result<MarkedPage, PageFault>
    requires place { i < page_count (pages_by pages.now).count }
    requires at_hand { FitsLast pages.now at_hand }
    ensures reads { OnlyReads D.Disk disk.old disk.new (IsErrOf result ReadFailed) }
    ensures calls { CallsAtMost D.Disk disk.old disk.new (page_calls at_hand i) }
    ensures exact { HandsPage D.Disk disk.old pages.now at_hand i result }
    // on any disk
    ensures taken { IfOk result (TakesPage pages.now i batch.old batch.new) }
{
    let page = page_of(disk, alloc, pages, at_hand, i)?;
    pages.hand_on(i, &page.bytes, batch)?;
    Ok(page)
}

/// The same. The index is unreadable where the page is not as it was opened.
fn take_page<D: Disk>(
    disk: &mut D,
    alloc: Global,
    path: &FilePath,
    pages: &IndexPages,
    at_hand: Option<MarkedPage>,
    i: u32,
    batch: &mut Batch,
) -> Result<MarkedPage, Unread>
    requires place { i < page_count (pages_by pages.now).count }
    requires at_hand { FitsLast pages.now at_hand }
    ensures reads { OnlyReads D.Disk disk.old disk.new (IsErrOf result DiskFailed) }
    ensures calls { CallsAtMost D.Disk disk.old disk.new (page_calls at_hand i) }
    ensures exact { ReadsPage D.Disk disk.old path.now pages.now at_hand i result }
    // on any disk
    ensures taken { IfOk result (TakesPage pages.now i batch.old batch.new) }
    ensures named { IfErr result (IfUnreadable (λ name. name ≡ path.now)) }
{
    match hand_on(disk, alloc, pages, at_hand, i, batch) {
        Ok(page) => Ok(page),
        Err(fault) => Err(why_unread(alloc, path, fault)),
    }
}

/// Hands on the entries of the page of an entry, and those of the next page where the entries that are marked from that one
/// on reach into it. The last of these pages is at hand then.
fn read_pages<D: Disk>(
    disk: &mut D,
    alloc: Global,
    path: &FilePath,
    pages: &IndexPages,
    at_hand: Option<MarkedPage>,
    first: u32,
    batch: &mut Batch,
) -> Result<MarkedPage, Unread>
    requires place { first < (pages_by pages.now).count }
    requires at_hand { FitsLast pages.now at_hand }
    ensures reads { OnlyReads D.Disk disk.old disk.new (IsErrOf result DiskFailed) }
    ensures calls { CallsAtMost D.Disk disk.old disk.new (pages_calls pages.now at_hand first) }
    ensures exact { ReadsPages D.Disk disk.old path.now pages.now at_hand first
        batch.old batch.new result }
    // on any disk
    ensures kept { IfOk result (TakesKept pages.now first batch.old batch.new) }
    ensures width { HasWidth pages.now }
    ensures named { IfErr result (IfUnreadable (λ name. name ≡ path.now)) }
{
    let end = pages.len().min(first + MARK_LIMIT);
    let i = first / PAGE_ENTRIES;
    let page = take_page(disk, alloc, path, pages, at_hand, i, batch)?;
    if end <= (i + 1) * PAGE_ENTRIES {
        return Ok(page);
    }
    take_page(disk, alloc, path, pages, Some(page), i + 1, batch)
}

/// The digests that are marked of an index from one of its entries on: of 1,000 entries, or of all that are left. It is
/// unreadable where one of their pages is not as it was opened. The last page is at hand then.
fn read_next<D: Disk>(
    disk: &mut D,
    alloc: Global,
    path: &FilePath,
    pages: &mut MarkedPages,
    first: u32,
) -> Result<Vec<Digest32>, Unread>
    requires { first < (pages_by pages.old.kept).count }
    ensures reads { OnlyReads D.Disk disk.old disk.new (IsErrOf result DiskFailed) }
    ensures calls { CallsAtMost D.Disk disk.old disk.new
        (pages_calls pages.old.kept pages.old.last first) }
    ensures exact { ReadsNext D.Disk disk.old path.now pages.old first result }
    ensures pages { KeepsLast D.Disk disk.old pages.old pages.new first result }
    // on any disk
    ensures kept { IfOk result (λ digests. AreNext pages.old.kept first digests.items) }
    ensures many { IfOk result (λ digests. length digests.items
        ≡ min mark_limit ((pages_by pages.old.kept).count - first)) }
    ensures named { IfErr result (IfUnreadable (λ name. name ≡ path.now)) }
{
    let mut batch = Batch {
        skip: first % PAGE_ENTRIES,
        digests: Vec::new(alloc),
    };
    let at_hand = pages.last.take();
    let page = read_pages(disk, alloc, path, &pages.kept, at_hand, first, &mut batch)?;
    pages.last = Some(page);
    Ok(batch.digests)
}

/// Passes over the index that is next. It takes no memory.
fn pass_over(collector: &mut Collector)
    requires { IsSome (next_mark collector.old.plan) }
    ensures { PassesOver collector.old collector.new }
{
    collector.plan.marked(0, 0);
    collector.pages = None;
}

/// Reads the next entries of the index that is next, which is opened where its pages are not at hand. None are to be marked
/// where it is passed over: it was forgotten or has no entries.
fn settle_next<D: Disk>(
    parts: &mut Parts<D>,
    alloc: Global,
    collector: &mut Collector,
) -> Result<Option<Vec<Digest32>>, Unread>
    ensures reads { OnlyReads D.Disk parts.old.disk parts.new.disk (IsErrOf result DiskFailed) }
    ensures calls { SettleCalls D.Disk parts.old parts.new collector.old }
    ensures kept { SameKept parts.old parts.new }
    ensures next { SettlesNext D.Disk parts.old collector.old collector.new result }
{
    let Some((_, first)) = collector.plan.mark_next() else {
        return Ok(None);
    };
    let Some(index) = collector.plan.index_next() else {
        return Ok(None);
    };
    let kind = index_kind(&index.name);
    let Some(path) = path_of(&parts.catalogue, index) else {
        pass_over(collector);
        return Ok(None);
    };
    if let Some(pages) = &mut collector.pages {
        let digests = read_next(&mut parts.disk, alloc, path, pages, first)?;
        return Ok(Some(digests));
    }
    let opened = open_first(&mut parts.disk, alloc, path, kind)?;
    if opened.pages.len() == 0 {
        pass_over(collector);
        return Ok(None);
    }
    collector.pages = Some(MarkedPages {
        kept: opened.pages,
        last: None,
    });
    Ok(Some(opened.digests))
}

/// Passes over indexes that were forgotten or have no entries. The digests that are marked next, if an index is left: its
/// pages are at hand then. The next one may not decode, or not be as it was opened.
pub fn find_next<D: Disk>(
    parts: &mut Parts<D>,
    alloc: Global,
    collector: &mut Collector,
) -> Result<Option<Vec<Digest32>>, Unread>
    ensures reads { OnlyReads D.Disk parts.old.disk parts.new.disk (IsErrOf result DiskFailed) }
    ensures calls { SearchCalls D.Disk parts.old parts.new collector.old }
    ensures kept { SameKept parts.old parts.new }
    ensures next { FindsNext D.Disk parts.old collector.old collector.new result }
{
    while collector.plan.mark_next().is_some() {
        if let Some(digests) = settle_next(parts, alloc, collector)? {
            return Ok(Some(digests));
        }
    }
    Ok(None)
}

/// Marks the next entries of the index that is next, which have these digests: touches those of their chunks that are
/// there. It takes no memory.
pub fn mark(book: &mut Book, collector: &mut Collector, digests: &[Digest32], moment: u64)
    requires { AtHand collector.old digests.now }
    ensures { MarksSome book.old book.new collector.old collector.new digests.now moment }
{
    let Some((_, first)) = collector.plan.mark_next() else {
        return;
    };
    let Some(pages) = &collector.pages else {
        return;
    };
    let left = pages.kept.len() - first;
    let count = mark_size(left);
    touch_each(book, digests, moment);
    collector.plan.marked(count, left - count);
    if count == left {
        collector.pages = None;
    }
}
