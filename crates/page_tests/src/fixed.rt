//! Fixed indexes.

use crate::asserts::{must, same, same_at};
use crate::fixtures::{
    Counted, NAME, changed, disk_with, failing_at, front, header, put, summed, zeros,
};
use disk_trait::{Disk, MemoryDisk};
use fixed_index::FixedView;
use paged_indexes::{FixedPages, IndexEntry, IndexFault, IndexKind, IndexPages, Page, PageFault};
use std::alloc::Global;
use std::process::Abort;
use store_types::Digest32;

const MAGIC: &[u8] = b"\x2f\x7f\x41\xed\x91\xfd\x0f\xcd";

/// 1,024 pieces of 4,096 bytes and one of 1.
const SIZE: u64 = 4_194_305;

/// Where the digest of page 1 stands.
const PAGE_ONE: usize = 4096 + 1024 * 32;

/// An index of an archive of this size, in pieces of 4,096 bytes, with so many digests.
fn index_of(rt: &impl Abort, alloc: Global, size: u64, count: u32) -> Vec<u8> {
    let parts: [(usize, &[u8]); 3] = [
        (0, MAGIC),
        (64, &size.to_le_bytes()),
        (72, b"\0\x10\0\0\0\0\0\0"),
    ];
    let mut text = header(rt, alloc, &parts);
    for _ in 0..count {
        must(rt, text.extend_from_slice(&[9; 32]));
    }
    summed(&mut text);
    text
}

pub(crate) fn whole_index(rt: &impl Abort, alloc: Global) -> Vec<u8> {
    index_of(rt, alloc, SIZE, 1025)
}

fn opened(rt: &impl Abort, alloc: Global, disk: &mut MemoryDisk) -> FixedPages {
    must(rt, FixedPages::open_on(disk, alloc, NAME))
}

/// What is told of a page, and how many bytes it has; `None` where there is no such page.
fn told(
    pages: &FixedPages,
    disk: &mut MemoryDisk,
    room: &mut Page,
    i: u32,
) -> Option<(Result<(), PageFault>, usize)> {
    if i < pages.page_count() {
        let told = pages.page(disk, i, room);
        Some((told, room.as_slice().len()))
    } else {
        None
    }
}

#[test]
fn pages_of_1024_and_the_rest(rt: HostRuntime) {
    let alloc = rt.alloc();
    let text = whole_index(&rt, alloc);
    let mut disk = disk_with(&rt, alloc, &text);
    let pages = opened(&rt, alloc, &mut disk);
    same(&rt, (pages.len(), pages.page_count()), (1025, 2));
    same(&rt, (pages.size(), pages.chunk_size()), (SIZE, 4096));
    let mut room = must(&rt, Page::new(alloc));
    same(
        &rt,
        told(&pages, &mut disk, &mut room, 0),
        Some((Ok(()), 32_768)),
    );
    same(
        &rt,
        told(&pages, &mut disk, &mut room, 1),
        Some((Ok(()), 32)),
    );
    same(&rt, text.get(PAGE_ONE..), Some(room.as_slice()));
    same(&rt, told(&pages, &mut disk, &mut room, 2), None);
}

#[test]
fn entries_are_handed_on(rt: HostRuntime) {
    let alloc = rt.alloc();
    let mut disk = disk_with(&rt, alloc, &whole_index(&rt, alloc));
    let mut taker = Counted {
        count: 0,
        last: None,
    };
    let kind = IndexKind::Fixed;
    let pages = must(
        &rt,
        IndexPages::open_into(&mut disk, alloc, NAME, kind, &mut taker),
    );
    same(
        &rt,
        (pages.len(), pages.page_count(), pages.size()),
        (1025, 2, SIZE),
    );
    let entry = IndexEntry {
        digest: Digest32([9; 32]),
        end: SIZE,
    };
    same(
        &rt,
        (taker.count, taker.last),
        (1025, Some((4_194_304, entry))),
    );
}

#[test]
fn no_entries_make_no_page(rt: HostRuntime) {
    let alloc = rt.alloc();
    let mut disk = disk_with(&rt, alloc, &index_of(&rt, alloc, 0, 0));
    let pages = opened(&rt, alloc, &mut disk);
    same(&rt, (pages.len(), pages.page_count()), (0, 0));
    same(&rt, pages.chunk_at(0), None);
}

#[test]
fn a_changed_page_is_told(rt: HostRuntime) {
    let alloc = rt.alloc();
    let text = whole_index(&rt, alloc);
    let mut disk = disk_with(&rt, alloc, &text);
    let pages = opened(&rt, alloc, &mut disk);
    let mut room = must(&rt, Page::new(alloc));
    must(
        &rt,
        disk.put(alloc, NAME, &changed(&rt, &text, PAGE_ONE, 1)),
    );
    let last = Some((Err(PageFault::Changed { page: 1 }), 0));
    same(&rt, told(&pages, &mut disk, &mut room, 1), last);
    same(
        &rt,
        told(&pages, &mut disk, &mut room, 0),
        Some((Ok(()), 32_768)),
    );
    must(&rt, disk.put(alloc, NAME, front(&text, PAGE_ONE + 31)));
    same(&rt, told(&pages, &mut disk, &mut room, 1), last);
    same(&rt, disk.remove(NAME), Ok(true));
    let missing = Some((Err(PageFault::Missing), 0));
    same(&rt, told(&pages, &mut disk, &mut room, 0), missing);
}

/// Offsets at the borders of pieces and pages, and the piece that each is in.
static PLACES: [(u64, Option<u32>); 7] = [
    (0, Some(0)),
    (4095, Some(0)),
    (4096, Some(1)),
    (4_194_303, Some(1023)),
    (4_194_304, Some(1024)),
    (SIZE, None),
    (u64::MAX, None),
];

#[test]
fn pieces_by_their_offsets(rt: HostRuntime) {
    let alloc = rt.alloc();
    let mut disk = disk_with(&rt, alloc, &whole_index(&rt, alloc));
    let pages = opened(&rt, alloc, &mut disk);
    for (offset, place) in &PLACES {
        same_at(&rt, *offset, pages.chunk_at(*offset), *place);
    }
}

fn cause_of(rt: &impl Abort, alloc: Global, text: &[u8]) -> Option<PageFault> {
    FixedPages::open_on(&mut disk_with(rt, alloc, text), alloc, NAME).err()
}

/// The cause is this one, by pages and by the view.
fn try_cause(rt: &impl Abort, alloc: Global, text: &[u8], cause: Option<IndexFault>) {
    let wanted = cause.map(|cause| PageFault::BadIndex { cause });
    same_at(rt, text.len(), cause_of(rt, alloc, text), wanted);
    let viewed = FixedView::open_on(text).err().map(|bad| bad.cause);
    same_at(rt, text.len(), viewed, cause);
}

/// A byte that is put at a place, how many of the first bytes are left, and the cause.
static CAUSES: [(usize, u8, usize, Option<IndexFault>); 9] = [
    (8, 9, 36_896, None),
    (80, 9, 36_896, None),
    (0, 9, 4095, Some(IndexFault::Short)),
    (7, 9, 36_895, Some(IndexFault::Magic)),
    (72, 1, 36_895, Some(IndexFault::Length)),
    (72, 1, 36_896, Some(IndexFault::Sizes)),
    (64, 0, 36_896, Some(IndexFault::Sizes)),
    (32, 9, PAGE_ONE, Some(IndexFault::Sizes)),
    (PAGE_ONE + 31, 0, 36_896, Some(IndexFault::Csum)),
];

#[test]
fn first_cause(rt: HostRuntime) {
    let alloc = rt.alloc();
    let text = whole_index(&rt, alloc);
    for (at, byte, len, cause) in &CAUSES {
        try_cause(
            &rt,
            alloc,
            front(&changed(&rt, &text, *at, *byte), *len),
            *cause,
        );
    }
}

#[test]
fn too_many_entries(rt: HostRuntime) {
    let alloc = rt.alloc();
    let mut long = zeros(&rt, alloc, 4096 + 32 * 1_048_577);
    put(&mut long, 0, MAGIC);
    try_cause(&rt, alloc, &long, Some(IndexFault::Count));
}

/// Size, front and both pages: each of the four calls failing.
#[test]
fn a_call_fails(rt: HostRuntime) {
    let alloc = rt.alloc();
    let text = whole_index(&rt, alloc);
    for number in 0..4 {
        let mut disk = failing_at(&rt, alloc, &text, number);
        let failed = FixedPages::open_on(&mut disk, alloc, NAME).err();
        same_at(&rt, number, failed, Some(PageFault::Failed));
        let pages = must(&rt, FixedPages::open_on(&mut disk, alloc, NAME));
        same_at(&rt, number, pages.len(), 1025);
    }
}
