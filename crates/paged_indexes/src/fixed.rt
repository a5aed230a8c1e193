//! The pages of a fixed index.

ghost use Rattle.std.specs.Prelude.{◌≡◌, ◌<◌, ◌≤◌, [], length, IfOk, IsErrOf, IsTrue, OnErr, OnOk};
ghost use Rattle.disk_trait.specs.Disk.{TicksOnce};
ghost use Rattle.disk_trait.specs.Effects.{OnlyReads};
ghost use Rattle.index_pages.specs.declared.fault.PageFault.TheVariants.{Failed as ReadFailed, NoMemory as NoRoom};
ghost use Rattle.index_pages.specs.Calls.{CallsAtMost};
ghost use Rattle.paged_indexes.specs.Calls.{CallsToOpen};
ghost use Rattle.paged_indexes.specs.declared.kinds.IndexKind.TheVariants as Kind;
ghost use Rattle.index_pages.specs.Paged.{IsOfBytes, ReadsPage, is_kept, page_count, page_len};
ghost use Rattle.paged_indexes.specs.Fixed.{Cuts, OpensFixed, chunk_in, fixed_entries, fixed_told, page_with as page_of, sizes_agree, start_in};
ghost use Rattle.paged_indexes.specs.Handing.{HandsSome, HandsThose, HandsTold};
ghost use Rattle.paged_indexes.specs.Reading.{HandsFixedBody, ReadsFixedBody, ReadsSomeFixed};

use crate::pieces::{Cut, hand_on};
use crate::taking::{Nothing, TakesEntries};
use disk_trait::Disk;
use fixed_index::{is_chunk_size, piece_count};
use index_pages::{Body, Opening, Page, PageFault, Pages, count_in, pages_in, read_head};
use std::alloc::Global;
use std::marker::Model;
use store_files::IndexFault;

// The bytes of an entry.
const ENTRY_SIZE: usize = 32;

const MAGIC: [u8; 8] = [47, 127, 65, 237, 145, 253, 15, 205];

/// A fixed index as contracts see it: where it stands and how many entries it has, the archive's size and the length of
/// each piece but the last; of each page what its opening kept.
#[derive(Drop)]
pub struct FixedPages {
    pages: Pages,
    size: u64,
    chunk_size: u64,
}

impl Model for FixedPages {
    ghost use Rattle.paged_indexes.specs.Fixed.{FixedPaged, HasSizes};

    ghost Value = { FixedPaged };

    ghost view = { λ p. record { pages = p.pages; size = p.size; chunk_size = p.chunk_size } };

    ghost invariant = { λ p. HasSizes p.pages p.size p.chunk_size };
}

impl FixedPages {
    /// Reads the file at the name page by page. It is an index exactly where `FixedView::open_on` takes its bytes as one,
    /// and else the fault has that call's cause.
    pub fn open_on<D: Disk>(
        disk: &mut D,
        alloc: Global,
        name: &str,
    ) -> Result<FixedPages, PageFault>
        ensures reads { OnlyReads D.Disk disk.old disk.new (IsErrOf result ReadFailed) }
        ensures calls { CallsToOpen D.Disk disk.old disk.new name.now Kind.Fixed }
        ensures exact { OpensFixed D.Disk disk.old name.now result }
    {
        FixedPages::open_into(disk, alloc, name, &mut Nothing)
    }

    /// The same, and each page's entries are handed on as it is read. After a fault some were.
    pub fn open_into<D: Disk, T: TakesEntries>(
        disk: &mut D,
        alloc: Global,
        name: &str,
        taker: &mut T,
    ) -> Result<FixedPages, PageFault>
        ensures reads { OnlyReads D.Disk disk.old disk.new (IsErrOf result ReadFailed) }
        ensures calls { CallsToOpen D.Disk disk.old disk.new name.now Kind.Fixed }
        ensures exact { OpensFixed D.Disk disk.old name.now result }
        ensures those { IfOk result (λ _. HandsThose D.Disk disk.old name.now
            fixed_entries T.taken taker.old taker.new) }
        // on any disk
        ensures some { IfOk result
            (λ p. HandsSome T.taken p.pages (fixed_told p) taker.old taker.new) }
    {
        let mut room = Page::new(alloc)?;
        let head = read_head(disk, name, &mut room)?;
        let count = count_in(&head, &MAGIC, ENTRY_SIZE)?;
        let size = head.number_at(64);
        let chunk_size = head.number_at(72);
        if !has_sizes(size, chunk_size, count) {
            return Err(PageFault::BadIndex {
                cause: IndexFault::Sizes,
            });
        }
        let cut = Cut { size, chunk_size };
        let body = read_body(disk, alloc, name, count, cut, &mut room, taker)?;
        if !head.has_csum(&body.csum) {
            return Err(PageFault::BadIndex {
                cause: IndexFault::Csum,
            });
        }
        let pages = Pages::of(alloc, name, ENTRY_SIZE, count, body.sums)?;
        Ok(FixedPages {
            pages,
            size,
            chunk_size,
        })
    }

    /// How many entries there are, each of 32 bytes.
    pub fn len(&self) -> u32
        ensures value { result ≡ self.now.pages.count }
        ensures limit { result ≤ 1_048_576 }
        ensures width { self.now.pages.width ≡ 32 }
    {
        self.pages.len()
    }

    /// How many pages there are.
    pub fn page_count(&self) -> u32
        ensures { result ≡ page_count self.now.pages.count }
    {
        self.pages.page_count()
    }

    /// The archive's size in bytes.
    pub fn size(&self) -> u64
        ensures { result ≡ self.now.size }
    {
        self.size
    }

    /// The bytes of each piece but the last.
    pub fn chunk_size(&self) -> u64
        ensures { result ≡ self.now.chunk_size }
    {
        self.chunk_size
    }

    /// Reads a page. Its bytes are the file's at this moment, and behind the entries before them have the SHA-256 that the
    /// opening kept. It takes no memory.
    pub fn page<D: Disk>(&self, disk: &mut D, i: u32, into: &mut Page) -> Result<(), PageFault>
        requires { i < page_count self.now.pages.count }
        ensures reads { OnlyReads D.Disk disk.old disk.new (IsErrOf result ReadFailed) }
        ensures calls { TicksOnce D.honest D.calls disk.old disk.new }
        ensures exact { ReadsPage D.Disk disk.old self.now.pages i into.new result }
        // on any disk
        ensures kept { OnOk result (IsTrue (is_kept self.now.pages i into.new)) }
        ensures bytes { IsOfBytes self.now.pages }
        ensures err { OnErr result (into.new ≡ []) }
        ensures memory { IsErrOf result NoRoom → ⊥ }
    {
        self.pages.read(disk, i, into)
    }

    /// Where the first piece of a page begins in the archive.
    pub fn start(&self, i: u32) -> u64
        requires { i < page_count self.now.pages.count }
        ensures { result ≡ start_in self.now i }
    {
        self.size.min(u64::from(i) * 1024 * self.chunk_size)
    }

    /// Hands on the entries of a page from its bytes.
    pub fn hand_on<T: TakesEntries>(
        &self,
        i: u32,
        page: &Page,
        taker: &mut T,
    ) -> Result<(), PageFault>
        requires place { i < page_count self.now.pages.count }
        requires len { length page.now ≡ page_len self.now.pages i }
        ensures { HandsTold T.taken (start_in self.now i) (fixed_told self.now i page.now)
            taker.old taker.new result }
    {
        let cut = Cut {
            size: self.size,
            chunk_size: self.chunk_size,
        };
        hand_on(cut, self.start(i), page.as_slice(), taker)?;
        Ok(())
    }

    /// The first page of which the last piece ends behind an offset, or `None` where the archive ends there or before it.
    pub fn page_with(&self, offset: u64) -> Option<u32>
        ensures { result ≡ page_of self.now offset }
    {
        let i = self.chunk_at(offset)?;
        Some(i / 1024)
    }

    /// The piece that has the byte at an offset, or `None` where the archive ends at the offset or before it. No page is
    /// read for it.
    pub fn chunk_at(&self, offset: u64) -> Option<u32>
        ensures { result ≡ chunk_in self.now offset }
    {
        if self.size <= offset {
            return None;
        }
        Some((offset / self.chunk_size) as u32)
    }
}

/// Whether the chunk size is allowed, and the size makes so many pieces.
fn has_sizes(size: u64, chunk_size: u64, count: u32) -> bool
    ensures { result ≡ sizes_agree size chunk_size count }
{
    is_chunk_size(chunk_size) && u64::from(count) == piece_count(size, chunk_size)
}

/// Reads all pages, and hands their entries on.
fn read_body<D: Disk, T: TakesEntries>(
    disk: &mut D,
    alloc: Global,
    name: &str,
    count: u32,
    cut: Cut,
    room: &mut Page,
    taker: &mut T,
) -> Result<Body, PageFault>
    requires limit { count ≤ 1_048_576 }
    requires cuts { Cuts cut 0 count }
    ensures reads { OnlyReads D.Disk disk.old disk.new (IsErrOf result ReadFailed) }
    ensures calls { CallsAtMost D.Disk disk.old disk.new (page_count count) }
    ensures exact { ReadsFixedBody D.Disk disk.old name.now count result }
    ensures those { IfOk result (λ _. HandsFixedBody D.Disk disk.old name.now count
        cut T.taken taker.old taker.new) }
    // on any disk
    ensures sums { IfOk result (λ b. length b.sums.items ≡ page_count count) }
    ensures some { IfOk result (λ b. ReadsSomeFixed T.taken count cut b taker.old taker.new) }
{
    let pages = pages_in(count);
    let mut opening = Opening::begin(alloc, pages)?;
    let mut start = 0;
    for i in 0..pages {
        opening.take(disk, name, ENTRY_SIZE, count, i, room)?;
        start = hand_on(cut, start, room.as_slice(), taker)?;
    }
    Ok(opening.close())
}
