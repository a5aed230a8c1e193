//! An index of either kind.

ghost use Rattle.std.specs.Prelude.{◌≡◌, ◌<◌, ◌≤◌, [], length, IfOk, IsErrOf, IsTrue, OnErr, OnOk};
ghost use Rattle.disk_trait.specs.Disk.{TicksOnce};
ghost use Rattle.disk_trait.specs.Effects.{OnlyReads};
ghost use Rattle.index_pages.specs.declared.fault.PageFault.TheVariants.{Failed as ReadFailed, NoMemory as NoRoom};
ghost use Rattle.paged_indexes.specs.Calls.{CallsToOpen};
ghost use Rattle.index_pages.specs.Paged.{IsOfBytes, ReadsPage, is_kept, page_count, page_len};
ghost use Rattle.paged_indexes.specs.Handing.{HandsSome, HandsTold};
ghost use Rattle.paged_indexes.specs.Index.{HandsEntries, HandsKept, HasWidth, OpensIndex, ReadsInto, page_with as page_of, pages_by, size_by, start_by, told_by};

use crate::dynamic::DynamicPages;
use crate::fixed::FixedPages;
use crate::kinds::IndexKind;
use crate::taking::TakesEntries;
use disk_trait::Disk;
use index_pages::{Page, PageFault};
use std::alloc::Global;

/// What is kept of an index for its pages to be read.
#[derive(Drop)]
pub enum IndexPages {
    Fixed(FixedPages),
    Dynamic(DynamicPages),
}

impl IndexPages {
    /// Opens the index of this kind that stands at the name, and hands its entries on as its pages are read. After a fault
    /// some were.
    pub fn open_into<D: Disk, T: TakesEntries>(
        disk: &mut D,
        alloc: Global,
        name: &str,
        kind: IndexKind,
        taker: &mut T,
    ) -> Result<IndexPages, PageFault>
        ensures reads { OnlyReads D.Disk disk.old disk.new (IsErrOf result ReadFailed) }
        ensures calls { CallsToOpen D.Disk disk.old disk.new name.now kind }
        ensures exact { OpensIndex D.Disk disk.old name.now kind result }
        ensures those { IfOk result (λ _. HandsEntries D.Disk disk.old name.now kind
            T.taken taker.old taker.new) }
        // on any disk
        ensures some { IfOk result
            (λ p. HandsSome T.taken (pages_by p) (told_by p) taker.old taker.new) }
    {
        match kind {
            IndexKind::Fixed => {
                let pages = FixedPages::open_into(disk, alloc, name, taker)?;
                Ok(IndexPages::Fixed(pages))
            }
            IndexKind::Dynamic => {
                let pages = DynamicPages::open_into(disk, alloc, name, taker)?;
                Ok(IndexPages::Dynamic(pages))
            }
        }
    }

    /// How many entries there are: of a fixed index each of 32 bytes, of a dynamic one of 40.
    pub fn len(&self) -> u32
        ensures value { result ≡ (pages_by self.now).count }
        ensures limit { result ≤ 1_048_576 }
        ensures width { HasWidth self.now }
    {
        match self {
            IndexPages::Fixed(pages) => pages.len(),
            IndexPages::Dynamic(pages) => pages.len(),
        }
    }

    /// How many pages there are.
    pub fn page_count(&self) -> u32
        ensures { result ≡ page_count (pages_by self.now).count }
    {
        match self {
            IndexPages::Fixed(pages) => pages.page_count(),
            IndexPages::Dynamic(pages) => pages.page_count(),
        }
    }

    /// The archive's size in bytes.
    pub fn size(&self) -> u64
        ensures { result ≡ size_by self.now }
    {
        match self {
            IndexPages::Fixed(pages) => pages.size(),
            IndexPages::Dynamic(pages) => pages.size(),
        }
    }

    /// Reads a page. Its bytes are the file's at this moment, and behind the entries before them have the SHA-256 that the
    /// opening kept. It takes no memory.
    pub fn page<D: Disk>(&self, disk: &mut D, i: u32, into: &mut Page) -> Result<(), PageFault>
        requires { i < page_count (pages_by self.now).count }
        ensures reads { OnlyReads D.Disk disk.old disk.new (IsErrOf result ReadFailed) }
        ensures calls { TicksOnce D.honest D.calls disk.old disk.new }
        ensures exact { ReadsPage D.Disk disk.old (pages_by self.now) i into.new result }
        // on any disk
        ensures kept { OnOk result (IsTrue (is_kept (pages_by self.now) i into.new)) }
        ensures bytes { IsOfBytes (pages_by self.now) }
        ensures err { OnErr result (into.new ≡ []) }
        ensures memory { IsErrOf result NoRoom → ⊥ }
    {
        match self {
            IndexPages::Fixed(pages) => pages.page(disk, i, into),
            IndexPages::Dynamic(pages) => pages.page(disk, i, into),
        }
    }

    /// Where the first piece of a page begins in the archive.
    pub fn start(&self, i: u32) -> u64
        requires { i < page_count (pages_by self.now).count }
        ensures { result ≡ start_by self.now i }
    {
        match self {
            IndexPages::Fixed(pages) => pages.start(i),
            IndexPages::Dynamic(pages) => pages.start(i),
        }
    }

    /// Hands on the entries of a page from its bytes. It is changed where a piece is not as long as pieces may be, and where
    /// the last one does not end where it did at the opening: no page of the opening is so.
    pub fn hand_on<T: TakesEntries>(
        &self,
        i: u32,
        page: &Page,
        taker: &mut T,
    ) -> Result<(), PageFault>
        requires place { i < page_count (pages_by self.now).count }
        requires len { length page.now ≡ page_len (pages_by self.now) i }
        ensures { HandsTold T.taken (start_by self.now i) (told_by self.now i page.now)
            taker.old taker.new result }
    {
        match self {
            IndexPages::Fixed(pages) => pages.hand_on(i, page, taker),
            IndexPages::Dynamic(pages) => pages.hand_on(i, page, taker),
        }
    }

    /// Reads a page into the room, and hands its entries on. After a fault some may have been.
    pub fn read_into<D: Disk, T: TakesEntries>(
        &self,
        disk: &mut D,
        i: u32,
        room: &mut Page,
        taker: &mut T,
    ) -> Result<(), PageFault>
        requires { i < page_count (pages_by self.now).count }
        ensures reads { OnlyReads D.Disk disk.old disk.new (IsErrOf result ReadFailed) }
        ensures calls { TicksOnce D.honest D.calls disk.old disk.new }
        ensures exact { ReadsInto D.Disk disk.old self.now i T.taken taker.old taker.new result }
        // on any disk
        ensures kept { IfOk result (λ _. HandsKept self.now i T.taken taker.old taker.new) }
    {
        self.page(disk, i, room)?;
        self.hand_on(i, room, taker)
    }

    /// The first page of which the last piece ends behind an offset, or `None` where the archive ends there or before it.
    pub fn page_with(&self, offset: u64) -> Option<u32>
        ensures { result ≡ page_of self.now offset }
    {
        match self {
            IndexPages::Fixed(pages) => pages.page_with(offset),
            IndexPages::Dynamic(pages) => pages.page_with(offset),
        }
    }
}
