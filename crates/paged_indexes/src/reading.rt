//! The pages of a dynamic index as its opening reads them in turn.

ghost use Rattle.std.specs.Prelude.{◌≡◌, ◌<◌, ◌≤◌, ◌+◌, [], length, IfOk, OnOk, IsErrOf};
ghost use Rattle.std.specs.List.Sorted.{IsNonDecreasingBy};
ghost use Rattle.disk_trait.specs.Disk.{TicksOnce};
ghost use Rattle.disk_trait.specs.Effects.{OnlyReads};
ghost use Rattle.index_pages.specs.declared.fault.PageFault.TheVariants.{Failed as ReadFailed};
ghost use Rattle.index_pages.specs.Calls.{CallsAtMost};
ghost use Rattle.index_pages.specs.Opening.{Begins};
ghost use Rattle.index_pages.specs.Paged.{page_count};
ghost use Rattle.paged_indexes.specs.Reading.{EndsRise, HandsBody, HandsPage, ReadsBody, ReadsSome, TakesPage, sums_of};

use crate::dynamic::ENTRY_SIZE;
use crate::steps::hand_on;
use crate::taking::TakesEntries;
use disk_trait::Disk;
use index_pages::{Body, Opening, Page, PageFault, pages_in};
use std::alloc::{AllocError, Global};
use store_files::IndexFault;

/// What is kept of the pages that were read.
#[derive(Drop)]
struct Reading {
    opening: Opening,
    /// Where the last piece of each page ends.
    ends: Vec<u64>,
    /// Where the last piece so far ends.
    end: u64,
}

/// What is kept of all pages.
#[derive(Drop)]
pub struct DynamicBody {
    pub body: Body,
    /// Where the last piece of each page ends.
    pub ends: Vec<u64>,
}

impl Reading {
    /// Before the first page, with room for so many.
    fn begin(alloc: Global, pages: u32) -> Result<Reading, AllocError>
        ensures begins { IfOk result (λ r. Begins r.opening) }
        ensures len { IfOk result (λ r. length r.opening.sums.items ≡ 0) }
        ensures ends { IfOk result (λ r. r.ends.items ≡ []) }
        ensures start { IfOk result (λ r. r.end ≡ 0) }
    {
        let opening = Opening::begin(alloc, pages)?;
        let ends = Vec::with_capacity(alloc, pages as usize)?;
        Ok(Reading {
            opening,
            ends,
            end: 0,
        })
    }

    /// Reads page i of an index of so many entries, notes it and hands its entries on.
    fn take<D: Disk, T: TakesEntries>(
        &mut self,
        disk: &mut D,
        name: &str,
        count: u32,
        i: u32,
        room: &mut Page,
        taker: &mut T,
    ) -> Result<(), PageFault>
        requires limit { count ≤ 1_048_576 }
        requires place { i < page_count count }
        ensures reads { OnlyReads D.Disk disk.old disk.new (IsErrOf result ReadFailed) }
        ensures calls { TicksOnce D.honest D.calls disk.old disk.new }
        ensures takes { TakesPage D.Disk disk.old name.now count i
            self.old self.new room.new result }
        // on any disk
        ensures len { OnOk result (sums_of self.new ≡ sums_of self.old + 1) }
        ensures ends { OnOk result (length self.new.ends.items ≡ length self.old.ends.items + 1) }
        ensures rises { OnOk result (EndsRise self.old → EndsRise self.new) }
        ensures hands { OnOk result (HandsPage T.taken count i
            self.old self.new room.new taker.old taker.new) }
    {
        self.opening.take(disk, name, ENTRY_SIZE, count, i, room)?;
        let Some(end) = hand_on(self.end, room.as_slice(), taker)? else {
            return Err(PageFault::BadIndex {
                cause: IndexFault::Sizes,
            });
        };
        self.ends.push(end)?;
        self.end = end;
        Ok(())
    }
}

/// Reads all pages, and hands their entries on.
pub fn read_body<D: Disk, T: TakesEntries>(
    disk: &mut D,
    alloc: Global,
    name: &str,
    count: u32,
    room: &mut Page,
    taker: &mut T,
) -> Result<DynamicBody, PageFault>
    requires { count ≤ 1_048_576 }
    ensures reads { OnlyReads D.Disk disk.old disk.new (IsErrOf result ReadFailed) }
    ensures calls { CallsAtMost D.Disk disk.old disk.new (page_count count) }
    ensures exact { ReadsBody D.Disk disk.old name.now count result }
    // on any disk
    ensures sums { IfOk result (λ b. length b.body.sums.items ≡ page_count count) }
    ensures ends { IfOk result (λ b. length b.ends.items ≡ page_count count) }
    ensures rises { IfOk result (λ b. IsNonDecreasingBy (λ n. n) b.ends.items) }
    ensures some { IfOk result (λ b. ReadsSome T.taken count b taker.old taker.new) }
    ensures those { IfOk result (λ _. HandsBody D.Disk disk.old name.now count
        T.taken taker.old taker.new) }
{
    let pages = pages_in(count);
    let mut reading = Reading::begin(alloc, pages)?;
    for i in 0..pages {
        reading.take(disk, name, count, i, room, taker)?;
    }
    let Reading { opening, ends, .. } = reading;
    Ok(DynamicBody {
        body: opening.close(),
        ends,
    })
}
