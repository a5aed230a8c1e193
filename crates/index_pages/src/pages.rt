//! The pages of an index.

ghost use Rattle.std.specs.Prelude.{◌≡◌, ◌<◌, ◌≤◌, [], length, IfOk, IsErrOf, IsTrue, OnErr, OnOk};
ghost use Rattle.disk_trait.specs.Disk.{TicksOnce};
ghost use Rattle.disk_trait.specs.Effects.{OnlyReads};
ghost use Rattle.index_pages.specs.declared.fault.PageFault.TheVariants.{Failed as ReadFailed, NoMemory as NoRoom};
ghost use Rattle.index_pages.specs.Paged.{IsOfBytes, IsWidth, ReadsPage, entries_at, is_kept, page_count, paged_by};

use crate::{HEADER_SIZE, PAGE_ENTRIES, Page, PageFault, PageSum};
use disk_trait::Disk;
use std::alloc::{AllocError, Global};
use std::marker::Model;

/// An index as contracts see it: where it stands, how wide its entries are and how many there are; of each page what its
/// opening kept.
#[derive(Drop)]
pub struct Pages {
    name: String,
    width: usize,
    count: u32,
    sums: Vec<PageSum>,
}

impl Model for Pages {
    ghost use Rattle.std.specs.Prelude.{string_bytes};
    ghost use Rattle.index_pages.specs.Paged.{Paged, FitsPaged, paged_by};

    ghost Value = { Paged };

    ghost view = { λ p. paged_by (string_bytes p.name) p.width p.count p.sums.items };

    ghost invariant = { λ p. FitsPaged (paged_by (string_bytes p.name) p.width p.count p.sums.items) };
}

/// How many pages so many entries make.
pub fn pages_in(count: u32) -> u32
    requires { count ≤ 1_048_576 }
    ensures { result ≡ page_count count }
{
    (count + 1023) / 1024
}

/// How many entries a page has.
pub(crate) fn entries_in(count: u32, i: u32) -> usize
    requires { i < page_count count }
    ensures { result ≡ entries_at count i }
{
    (count as usize - i as usize * PAGE_ENTRIES).min(PAGE_ENTRIES)
}

impl Pages {
    /// Of so many entries of a width, and what was kept of each page of them.
    pub fn of(
        alloc: Global,
        name: &str,
        width: usize,
        count: u32,
        sums: Vec<PageSum>,
    ) -> Result<Pages, AllocError>
        requires width { IsWidth width }
        requires count { count ≤ 1_048_576 }
        requires bytes { IsOfBytes (paged_by name.now width count sums.items) }
        ensures { IfOk result (λ pages. pages ≡ paged_by name.now width count sums.items) }
    {
        let name = String::from_str(alloc, name)?;
        Ok(Pages {
            name,
            width,
            count,
            sums,
        })
    }

    /// How many entries there are.
    pub fn len(&self) -> u32
        ensures { result ≡ self.now.count }
    {
        self.count
    }

    /// How many pages there are.
    pub fn page_count(&self) -> u32
        ensures { result ≡ page_count self.now.count }
    {
        pages_in(self.count)
    }

    /// Reads a page. Its bytes are the file's at this moment, and behind the entries before them have the SHA-256 that the
    /// opening kept. It takes no memory.
    pub fn read<D: Disk>(&self, disk: &mut D, i: u32, into: &mut Page) -> Result<(), PageFault>
        requires { i < page_count self.now.count }
        ensures reads { OnlyReads D.Disk disk.old disk.new (IsErrOf result ReadFailed) }
        ensures calls { TicksOnce D.honest D.calls disk.old disk.new }
        ensures exact { ReadsPage D.Disk disk.old self.now i into.new result }
        // on any disk
        ensures kept { OnOk result (IsTrue (is_kept self.now i into.new)) }
        ensures bytes { IsOfBytes self.now }
        ensures err { OnErr result (into.new ≡ []) }
        ensures memory { IsErrOf result NoRoom → ⊥ }
    {
        let len = entries_in(self.count, i) * self.width;
        let start = HEADER_SIZE + u64::from(i) * (PAGE_ENTRIES * self.width) as u64;
        let changed = PageFault::Changed { page: i };
        into.fill(disk, self.name.as_str(), start, len, changed)?;
        if !self.sums[i as usize].has(into.as_slice()) {
            into.clear();
            return Err(changed);
        }
        Ok(())
    }
}
