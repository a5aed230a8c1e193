//! The entries of a page, of an index of either kind.

use crate::asserts::{must, same, same_at};
use crate::fixtures::{Counted, NAME, changed, disk_with};
use crate::{dynamic, fixed};
use disk_trait::{Disk, MemoryDisk};
use paged_indexes::{IndexEntry, IndexKind, IndexPages, Nothing, Page, PageFault};
use std::alloc::Global;
use std::process::Abort;
use store_types::Digest32;

/// An index of this kind with 1,025 entries: of pieces of 3 bytes, or of 4,096 and a last one of 1.
fn text_of(rt: &impl Abort, alloc: Global, kind: IndexKind) -> Vec<u8> {
    match kind {
        IndexKind::Fixed => fixed::whole_index(rt, alloc),
        IndexKind::Dynamic => dynamic::index_of(rt, alloc, 1025),
    }
}

/// What is told of a page: where it begins, how many entries are handed on, and the last one; or why there are none.
fn handed(
    rt: &impl Abort,
    alloc: Global,
    pages: &IndexPages,
    disk: &mut MemoryDisk,
    i: u32,
) -> (u64, Result<(u32, Option<IndexEntry>), PageFault>) {
    let mut room = must(rt, Page::new(alloc));
    let mut taker = Counted {
        count: 0,
        last: None,
    };
    if i >= pages.page_count() {
        return (0, Err(PageFault::Missing));
    }
    let told = pages.read_into(disk, i, &mut room, &mut taker);
    let last = taker.last.map(|(_, entry)| entry);
    (pages.start(i), told.map(|()| (taker.count, last)))
}

#[test]
fn each_page_hands_its_entries_on(rt: HostRuntime) {
    let alloc = rt.alloc();
    // the kind; where page 1 begins, and where it ends; where a byte of page 1's digest stands
    let kinds = [
        (IndexKind::Fixed, 4_194_304, 4_194_305, 4096 + 1024 * 32),
        (IndexKind::Dynamic, 3072, 3075, 4096 + 1024 * 40 + 8),
    ];
    let digest = Digest32([9; 32]);
    for (kind, begins, size, place) in kinds {
        let text = text_of(&rt, alloc, kind);
        let mut disk = disk_with(&rt, alloc, &text);
        let pages = must(
            &rt,
            IndexPages::open_into(&mut disk, alloc, NAME, kind, &mut Nothing),
        );
        let ends = |end| Some(IndexEntry { digest, end });
        let first = handed(&rt, alloc, &pages, &mut disk, 0);
        same_at(&rt, kind, first, (0, Ok((1024, ends(begins)))));
        let second = handed(&rt, alloc, &pages, &mut disk, 1);
        same_at(&rt, kind, second, (begins, Ok((1, ends(size)))));
        let found = [0, begins - 1, begins, size - 1, size].map(|at| pages.page_with(at));
        same_at(&rt, kind, found, [Some(0), Some(0), Some(1), Some(1), None]);
        let other = changed(&rt, &text, place, 8);
        must(&rt, disk.put(alloc, NAME, &other));
        let page = 1;
        let told = handed(&rt, alloc, &pages, &mut disk, 1);
        same_at(&rt, kind, told.1, Err(PageFault::Changed { page }));
        let still = handed(&rt, alloc, &pages, &mut disk, 0);
        same(&rt, still, (0, Ok((1024, ends(begins)))));
    }
}
