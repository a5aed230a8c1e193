//! The pages of a dynamic index.

ghost use Rattle.std.specs.Prelude.{◌≡◌, ◌<◌, ◌≤◌, [], length, IfOk, IsErrOf, IsTrue, OnErr, OnOk};
ghost use Rattle.disk_trait.specs.Disk.{TicksOnce};
ghost use Rattle.disk_trait.specs.Effects.{OnlyReads};
ghost use Rattle.index_pages.specs.declared.fault.PageFault.TheVariants.{Failed as ReadFailed, NoMemory as NoRoom};
ghost use Rattle.paged_indexes.specs.Calls.{CallsToOpen};
ghost use Rattle.paged_indexes.specs.declared.kinds.IndexKind.TheVariants as Kind;
ghost use Rattle.index_pages.specs.Paged.{IsOfBytes, ReadsPage, is_kept, page_count};
ghost use Rattle.paged_indexes.specs.Dynamic.{CallsOnceAtMost, FindsChunk, OpensDynamic, dynamic_entries, dynamic_told, size_by, start_in};
ghost use Rattle.paged_indexes.specs.Handing.{HandsSome, HandsThose, HandsTold};
ghost use Rattle.paged_indexes.specs.Steps.{page_with as page_of};

use crate::reading::read_body;
use crate::steps::{ended_in, hand_on, page_with};
use crate::taking::{Nothing, TakesEntries};
use disk_trait::Disk;
use index_pages::{Page, PageFault, Pages, count_in, read_head};
use std::alloc::Global;
use std::marker::Model;
use store_files::IndexFault;

// The bytes of an entry.
pub const ENTRY_SIZE: usize = 40;

const MAGIC: [u8; 8] = [28, 145, 78, 165, 25, 186, 179, 205];

/// A dynamic index as contracts see it: where it stands and how many entries it has; of each page what its opening kept,
/// and where its last piece ends.
#[derive(Drop)]
pub struct DynamicPages {
    pages: Pages,
    ends: Vec<u64>,
}

impl Model for DynamicPages {
    ghost use Rattle.paged_indexes.specs.Dynamic.{DynamicPaged, HasEnds};

    ghost Value = { DynamicPaged };

    ghost view = { λ p. record { pages = p.pages; ends = p.ends.items } };

    ghost invariant = { λ p. HasEnds p.pages p.ends.items };
}

impl DynamicPages {
    /// Reads the file at the name page by page. It is an index exactly where `DynamicView::open_on` takes its bytes as
    /// one, and else the fault has that call's cause.
    pub fn open_on<D: Disk>(
        disk: &mut D,
        alloc: Global,
        name: &str,
    ) -> Result<DynamicPages, PageFault>
        ensures reads { OnlyReads D.Disk disk.old disk.new (IsErrOf result ReadFailed) }
        ensures calls { CallsToOpen D.Disk disk.old disk.new name.now Kind.Dynamic }
        ensures exact { OpensDynamic D.Disk disk.old name.now result }
    {
        DynamicPages::open_into(disk, alloc, name, &mut Nothing)
    }

    /// The same, and each page's entries are handed on as it is read. After a fault some were.
    pub fn open_into<D: Disk, T: TakesEntries>(
        disk: &mut D,
        alloc: Global,
        name: &str,
        taker: &mut T,
    ) -> Result<DynamicPages, PageFault>
        ensures reads { OnlyReads D.Disk disk.old disk.new (IsErrOf result ReadFailed) }
        ensures calls { CallsToOpen D.Disk disk.old disk.new name.now Kind.Dynamic }
        ensures exact { OpensDynamic D.Disk disk.old name.now result }
        ensures those { IfOk result (λ _. HandsThose D.Disk disk.old name.now
            dynamic_entries T.taken taker.old taker.new) }
        // on any disk
        ensures some { IfOk result
            (λ p. HandsSome T.taken p.pages (dynamic_told p) taker.old taker.new) }
    {
        let mut room = Page::new(alloc)?;
        let head = read_head(disk, name, &mut room)?;
        let count = count_in(&head, &MAGIC, ENTRY_SIZE)?;
        let read = read_body(disk, alloc, name, count, &mut room, taker)?;
        if !head.has_csum(&read.body.csum) {
            return Err(PageFault::BadIndex {
                cause: IndexFault::Csum,
            });
        }
        let pages = Pages::of(alloc, name, ENTRY_SIZE, count, read.body.sums)?;
        Ok(DynamicPages {
            pages,
            ends: read.ends,
        })
    }

    /// How many entries there are, each of 40 bytes.
    pub fn len(&self) -> u32
        ensures value { result ≡ self.now.pages.count }
        ensures limit { result ≤ 1_048_576 }
        ensures width { self.now.pages.width ≡ 40 }
    {
        self.pages.len()
    }

    /// How many pages there are.
    pub fn page_count(&self) -> u32
        ensures { result ≡ page_count self.now.pages.count }
    {
        self.pages.page_count()
    }

    /// The archive's size in bytes.
    pub fn size(&self) -> u64
        ensures { result ≡ size_by self.now.ends }
    {
        match self.ends.last() {
            Some(end) => *end,
            None => 0,
        }
    }

    /// Reads a page. Its bytes are the file's at this moment, and behind the entries before them have the SHA-256 that the
    /// opening kept. It takes no memory.
    pub fn page<D: Disk>(&self, disk: &mut D, i: u32, into: &mut Page) -> Result<(), PageFault>
        requires { i < page_count self.now.pages.count }
        ensures reads { OnlyReads D.Disk disk.old disk.new (IsErrOf result ReadFailed) }
        ensures calls { TicksOnce D.honest D.calls disk.old disk.new }
        ensures exact { ReadsPage D.Disk disk.old self.now.pages i into.new result }
        // on any disk
        ensures kept { OnOk result (IsTrue (is_kept self.now.pages i into.new)) }
        ensures bytes { IsOfBytes self.now.pages }
        ensures err { OnErr result (into.new ≡ []) }
        ensures memory { IsErrOf result NoRoom → ⊥ }
    {
        self.pages.read(disk, i, into)
    }

    /// Where the first piece of a page begins in the archive.
    pub fn start(&self, i: u32) -> u64
        requires { i < page_count self.now.pages.count }
        ensures { result ≡ start_in self.now i }
    {
        if i == 0 {
            return 0;
        }
        self.ends[i as usize - 1]
    }

    /// Hands on the entries of a page from its bytes. It is changed where a piece is not as long as pieces may be, and where
    /// the last one does not end where it did at the opening: no page of the opening is so.
    pub fn hand_on<T: TakesEntries>(
        &self,
        i: u32,
        page: &Page,
        taker: &mut T,
    ) -> Result<(), PageFault>
        requires { i < page_count self.now.pages.count }
        ensures { HandsTold T.taken (start_in self.now i) (dynamic_told self.now i page.now)
            taker.old taker.new result }
    {
        match hand_on(self.start(i), page.as_slice(), taker)? {
            Some(end) if end == self.ends[i as usize] => Ok(()),
            _ => Err(PageFault::Changed { page: i }),
        }
    }

    /// The first page of which the last piece ends behind an offset, or `None` where the archive ends there or before it.
    pub fn page_with(&self, offset: u64) -> Option<u32>
        ensures { result ≡ page_of offset self.now.ends }
    {
        let i = page_with(&self.ends, offset)?;
        Some(i as u32)
    }

    /// The piece that has the byte at an offset, or `None` where the archive ends at the offset or before it. Where each
    /// page ends is in memory, so one page is read, into the room that is handed in. It takes no memory.
    pub fn chunk_at<D: Disk>(
        &self,
        disk: &mut D,
        room: &mut Page,
        offset: u64,
    ) -> Result<Option<u32>, PageFault>
        ensures reads { OnlyReads D.Disk disk.old disk.new (IsErrOf result ReadFailed) }
        ensures calls { CallsOnceAtMost D.Disk disk.old disk.new }
        ensures exact { FindsChunk D.Disk disk.old self.now offset result }
        ensures memory { IsErrOf result NoRoom → ⊥ }
    {
        let Some(i) = page_with(&self.ends, offset) else {
            return Ok(None);
        };
        self.pages.read(disk, i as u32, room)?;
        Ok(Some(i as u32 * 1024 + ended_in(room.as_slice(), offset)))
    }
}
