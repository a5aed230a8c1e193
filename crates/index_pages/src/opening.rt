//! The opening of an index, page by page.

ghost use Rattle.std.specs.Prelude.{◌≡◌, ◌<◌, ◌≤◌, ◌+◌, ◌*◌, ℕ, [], length, IfOk, OnOk, IsErrOf};
ghost use Rattle.disk_trait.specs.Disk.{TicksOnce};
ghost use Rattle.disk_trait.specs.Effects.{OnlyReads};
ghost use Rattle.index_pages.specs.declared.fault.PageFault.TheVariants.{Failed as ReadFailed};
ghost use Rattle.index_pages.specs.Opening.{AreBytes, Begins, ClosesAt, NotesPage, TakesPage};
ghost use Rattle.index_pages.specs.Paged.{IsWidth, entries_at, page_count};

use crate::pages::entries_in;
use crate::{HEADER_SIZE, PAGE_ENTRIES, Page, PageFault, PageSum};
use disk_trait::Disk;
use hash_states::HashState;
use std::alloc::{AllocError, Global};
use store_files::IndexFault;

/// What is kept of an index as its pages are read in turn, and the state of the SHA-256 behind them.
#[derive(Drop)]
pub struct Opening {
    sums: Vec<PageSum>,
    state: HashState,
}

/// What is kept of all pages, and the SHA-256 of all entries.
#[derive(Drop)]
pub struct Body {
    pub sums: Vec<PageSum>,
    pub csum: [u8; 32],
}

impl Opening {
    /// Before the first page, with room for so many.
    pub fn begin(alloc: Global, pages: u32) -> Result<Opening, AllocError>
        ensures begins { IfOk result Begins }
        ensures len { IfOk result (λ o. length o.sums.items ≡ 0) }
    {
        let sums = Vec::with_capacity(alloc, pages as usize)?;
        Ok(Opening {
            sums,
            state: HashState::new(),
        })
    }

    /// Reads page i of an index of so many entries of a width, and notes it.
    pub fn take<D: Disk>(
        &mut self,
        disk: &mut D,
        name: &str,
        width: usize,
        count: u32,
        i: u32,
        room: &mut Page,
    ) -> Result<(), PageFault>
        requires width { IsWidth width }
        requires limit { count ≤ 1_048_576 }
        requires place { i < page_count count }
        ensures reads { OnlyReads D.Disk disk.old disk.new (IsErrOf result ReadFailed) }
        ensures calls { TicksOnce D.honest D.calls disk.old disk.new }
        ensures takes { TakesPage D.Disk disk.old name.now width count i
            self.old self.new room.new result }
        // on any disk
        ensures len { OnOk result (length self.new.sums.items ≡ length self.old.sums.items + 1) }
        ensures size { OnOk result (length room.new ≡ entries_at count i * width) }
        ensures bytes { OnOk result (AreBytes room.new) }
        ensures notes { OnOk result (NotesPage self.old self.new room.new) }
    {
        let start = HEADER_SIZE + u64::from(i) * (PAGE_ENTRIES * width) as u64;
        let len = entries_in(count, i) * width;
        let fewer = PageFault::BadIndex {
            cause: IndexFault::Length,
        };
        room.fill(disk, name, start, len, fewer)?;
        self.note(room.as_slice())?;
        Ok(())
    }

    // Notes the next page's bytes.
    fn note(&mut self, bytes: &[u8]) -> Result<(), AllocError>
        ensures bytes { AreBytes bytes.now }
        ensures notes { OnOk result (NotesPage self.old self.new bytes.now) }
        ensures len { OnOk result (length self.new.sums.items ≡ length self.old.sums.items + 1) }
    {
        let sum = PageSum::of(&mut self.state, bytes);
        self.sums.push(sum)?;
        Ok(())
    }

    /// Behind the last page.
    pub fn close(self) -> Body
        ensures closes { ClosesAt self result }
        ensures len { length result.sums.items ≡ length self.sums.items }
    {
        let Opening { sums, state } = self;
        let csum = state.digest();
        Body { sums, csum }
    }
}
