//! Dynamic indexes.

use crate::asserts::{must, same, same_at};
use crate::fixtures::{
    Counted, NAME, changed, disk_with, failing_at, front, header, put, summed, zeros,
};
use disk_trait::{Disk, MemoryDisk};
use dynamic_index::DynamicView;
use paged_indexes::{DynamicPages, IndexEntry, IndexFault, IndexKind, IndexPages, Page, PageFault};
use std::alloc::Global;
use std::process::Abort;
use store_types::Digest32;

const MAGIC: &[u8] = b"\x1c\x91\x4e\xa5\x19\xba\xb3\xcd";

/// Where the first entry of page 1 stands.
const PAGE_ONE: usize = 4096 + 1024 * 40;

/// An index of so many pieces of 3 bytes.
pub(crate) fn index_of(rt: &impl Abort, alloc: Global, count: u32) -> Vec<u8> {
    let mut text = header(rt, alloc, &[(0, MAGIC)]);
    for i in 0..count {
        let end = (u64::from(i) + 1) * 3;
        must(rt, text.extend_from_slice(&end.to_le_bytes()));
        must(rt, text.extend_from_slice(&[9; 32]));
    }
    summed(&mut text);
    text
}

fn opened(rt: &impl Abort, alloc: Global, disk: &mut MemoryDisk) -> DynamicPages {
    must(rt, DynamicPages::open_on(disk, alloc, NAME))
}

/// What is told of a page, and how many bytes it has; `None` where there is no such page.
fn told(
    pages: &DynamicPages,
    disk: &mut MemoryDisk,
    room: &mut Page,
    i: u32,
) -> Option<(Result<(), PageFault>, usize)> {
    if i < pages.page_count() {
        let told = pages.page(disk, i, room);
        Some((told, room.as_slice().len()))
    } else {
        None
    }
}

#[test]
fn pages_of_1024_and_the_rest(rt: HostRuntime) {
    let alloc = rt.alloc();
    let text = index_of(&rt, alloc, 1025);
    let mut disk = disk_with(&rt, alloc, &text);
    let pages = opened(&rt, alloc, &mut disk);
    same(
        &rt,
        (pages.len(), pages.page_count(), pages.size()),
        (1025, 2, 3075),
    );
    let mut room = must(&rt, Page::new(alloc));
    same(
        &rt,
        told(&pages, &mut disk, &mut room, 0),
        Some((Ok(()), 40_960)),
    );
    same(
        &rt,
        told(&pages, &mut disk, &mut room, 1),
        Some((Ok(()), 40)),
    );
    same(&rt, text.get(PAGE_ONE..), Some(room.as_slice()));
    same(&rt, told(&pages, &mut disk, &mut room, 2), None);
}

#[test]
fn no_entries_make_no_page(rt: HostRuntime) {
    let alloc = rt.alloc();
    let mut disk = disk_with(&rt, alloc, &index_of(&rt, alloc, 0));
    let pages = opened(&rt, alloc, &mut disk);
    same(
        &rt,
        (pages.len(), pages.page_count(), pages.size()),
        (0, 0, 0),
    );
    let mut room = must(&rt, Page::new(alloc));
    same(&rt, pages.chunk_at(&mut disk, &mut room, 0), Ok(None));
}

#[test]
fn entries_are_handed_on(rt: HostRuntime) {
    let alloc = rt.alloc();
    let mut disk = disk_with(&rt, alloc, &index_of(&rt, alloc, 1025));
    let mut taker = Counted {
        count: 0,
        last: None,
    };
    let kind = IndexKind::Dynamic;
    let pages = must(
        &rt,
        IndexPages::open_into(&mut disk, alloc, NAME, kind, &mut taker),
    );
    same(
        &rt,
        (pages.len(), pages.page_count(), pages.size()),
        (1025, 2, 3075),
    );
    let entry = IndexEntry {
        digest: Digest32([9; 32]),
        end: 3075,
    };
    same(&rt, (taker.count, taker.last), (1025, Some((3072, entry))));
}

/// What is told of both pages of an index of 1,025 entries once another text stands in its place.
fn try_changed(rt: &impl Abort, alloc: Global, text: &[u8], wanted: [Result<(), PageFault>; 2]) {
    let mut disk = disk_with(rt, alloc, &index_of(rt, alloc, 1025));
    let pages = opened(rt, alloc, &mut disk);
    must(rt, disk.put(alloc, NAME, text));
    let mut room = must(rt, Page::new(alloc));
    let [first, last] = wanted;
    let found = told(&pages, &mut disk, &mut room, 0).map(|page| page.0);
    same_at(rt, text.len(), found, Some(first));
    let found = told(&pages, &mut disk, &mut room, 1).map(|page| page.0);
    same_at(rt, text.len(), found, Some(last));
}

const NOT_AS_OPENED: [Result<(), PageFault>; 2] = [
    Err(PageFault::Changed { page: 0 }),
    Err(PageFault::Changed { page: 1 }),
];

#[test]
fn a_changed_page_is_told(rt: HostRuntime) {
    let alloc = rt.alloc();
    let text = index_of(&rt, alloc, 1025);
    let [first, last] = NOT_AS_OPENED;
    let one = changed(&rt, &text, PAGE_ONE, 1);
    try_changed(&rt, alloc, &one, [Ok(()), last]);
    let zero = changed(&rt, &text, PAGE_ONE - 1, 1);
    try_changed(&rt, alloc, &zero, [first, Ok(())]);
    // shorter by a byte, by a page, and none but the header; longer
    try_changed(&rt, alloc, front(&text, PAGE_ONE + 39), [Ok(()), last]);
    try_changed(&rt, alloc, front(&text, PAGE_ONE), [Ok(()), last]);
    try_changed(&rt, alloc, front(&text, 4096), [first, last]);
    try_changed(&rt, alloc, &index_of(&rt, alloc, 1026), [Ok(()), Ok(())]);
    // another index
    try_changed(
        &rt,
        alloc,
        &zeros(&rt, alloc, 4096 + 1025 * 40),
        [first, last],
    );
}

#[test]
fn what_is_gone_is_missing(rt: HostRuntime) {
    let alloc = rt.alloc();
    let mut disk = disk_with(&rt, alloc, &index_of(&rt, alloc, 1025));
    let pages = opened(&rt, alloc, &mut disk);
    same(&rt, disk.remove(NAME), Ok(true));
    let mut room = must(&rt, Page::new(alloc));
    let missing = Some((Err(PageFault::Missing), 0));
    same(&rt, told(&pages, &mut disk, &mut room, 0), missing);
    let opened = DynamicPages::open_on(&mut disk, alloc, NAME).err();
    same(&rt, opened, Some(PageFault::Missing));
}

/// Offsets at the borders of pieces and pages.
const OFFSETS: [u64; 9] = [0, 2, 3, 3_071, 3_072, 3_074, 3_075, 3_076, u64::MAX];

#[test]
fn pieces_by_their_offsets(rt: HostRuntime) {
    let alloc = rt.alloc();
    let text = index_of(&rt, alloc, 1025);
    let mut disk = disk_with(&rt, alloc, &text);
    let pages = opened(&rt, alloc, &mut disk);
    let view = must(&rt, DynamicView::open_on(&text));
    let mut room = must(&rt, Page::new(alloc));
    for offset in OFFSETS {
        let found = pages.chunk_at(&mut disk, &mut room, offset);
        same_at(&rt, offset, found, Ok(view.chunk_at(offset)));
    }
    must(
        &rt,
        disk.put(alloc, NAME, &changed(&rt, &text, PAGE_ONE, 1)),
    );
    let last = Err(PageFault::Changed { page: 1 });
    same(&rt, pages.chunk_at(&mut disk, &mut room, 3_072), last);
    same(
        &rt,
        pages.chunk_at(&mut disk, &mut room, 3_071),
        Ok(Some(1_023)),
    );
}

fn cause_of(rt: &impl Abort, alloc: Global, text: &[u8]) -> Option<PageFault> {
    DynamicPages::open_on(&mut disk_with(rt, alloc, text), alloc, NAME).err()
}

/// The cause is this one, by pages and by the view.
fn try_cause(rt: &impl Abort, alloc: Global, text: &[u8], cause: Option<IndexFault>) {
    let wanted = cause.map(|cause| PageFault::BadIndex { cause });
    same_at(rt, text.len(), cause_of(rt, alloc, text), wanted);
    let viewed = DynamicView::open_on(text).err().map(|bad| bad.cause);
    same_at(rt, text.len(), viewed, cause);
}

/// A byte that is put at a place, how many of the first bytes are left, and the cause.
static CAUSES: [(usize, u8, usize, Option<IndexFault>); 11] = [
    (8, 9, 45_096, None),
    (64, 9, 45_096, None),
    (0, 9, 4095, Some(IndexFault::Short)),
    (7, 9, 45_095, Some(IndexFault::Magic)),
    (32, 9, 45_095, Some(IndexFault::Length)),
    (4096, 0, 45_096, Some(IndexFault::Sizes)),
    (4099, 1, 45_096, Some(IndexFault::Sizes)),
    // the first entry of page 1 ends where page 0 does
    (PAGE_ONE, 0, 45_096, Some(IndexFault::Sizes)),
    (PAGE_ONE, 4, 45_096, Some(IndexFault::Csum)),
    (32, 9, 45_096, Some(IndexFault::Csum)),
    (8, 9, PAGE_ONE, Some(IndexFault::Csum)),
];

#[test]
fn first_cause(rt: HostRuntime) {
    let alloc = rt.alloc();
    let text = index_of(&rt, alloc, 1025);
    for (at, byte, len, cause) in &CAUSES {
        try_cause(
            &rt,
            alloc,
            front(&changed(&rt, &text, *at, *byte), *len),
            *cause,
        );
    }
}

#[test]
fn too_many_entries(rt: HostRuntime) {
    let alloc = rt.alloc();
    let mut long = zeros(&rt, alloc, 4096 + 40 * 1_048_577);
    put(&mut long, 0, MAGIC);
    try_cause(&rt, alloc, &long, Some(IndexFault::Count));
}

/// Size, front and both pages: each of the four calls failing.
#[test]
fn a_call_fails(rt: HostRuntime) {
    let alloc = rt.alloc();
    let text = index_of(&rt, alloc, 1025);
    for number in 0..4 {
        let mut disk = failing_at(&rt, alloc, &text, number);
        let failed = DynamicPages::open_on(&mut disk, alloc, NAME).err();
        same_at(&rt, number, failed, Some(PageFault::Failed));
        let pages = must(&rt, DynamicPages::open_on(&mut disk, alloc, NAME));
        same_at(&rt, number, pages.len(), 1025);
    }
    let mut disk = failing_at(&rt, alloc, &text, 4);
    let pages = must(&rt, DynamicPages::open_on(&mut disk, alloc, NAME));
    let mut room = must(&rt, Page::new(alloc));
    let failed = pages.chunk_at(&mut disk, &mut room, 0);
    same(&rt, failed, Err(PageFault::Failed));
    same(&rt, pages.chunk_at(&mut disk, &mut room, 0), Ok(Some(0)));
}
