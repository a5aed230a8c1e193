//! A reader's session over an index that is read page by page.

use crate::asserts::{must, same};
use crate::dynamic::index_of;
use crate::fixtures::{NAME, disk_with};
use paged_indexes::{IndexEntry, IndexKind, IndexPages};
use restore_reader::{Part, Reader, Table, open_reader, parts_of_page};
use std::alloc::Global;
use std::process::Abort;
use store_types::{Digest32, FileName, Refusal, SnapshotKey};

fn file_name(rt: &impl Abort, alloc: Global, text: &str) -> FileName {
    must(rt, must(rt, FileName::check(alloc, text.as_bytes())))
}

/// A reader that downloaded an index of so many pieces of 3 bytes.
fn reader_of(rt: &impl Abort, alloc: Global, count: u32) -> Reader {
    let key = SnapshotKey::parse(alloc, b"host/a/2020-01-15T06:30:03Z");
    let mut reader = open_reader(alloc, must(rt, must(rt, key)));
    let mut disk = disk_with(rt, alloc, &index_of(rt, alloc, count));
    let mut table = Table::new(alloc);
    let pages = must(
        rt,
        IndexPages::open_into(&mut disk, alloc, NAME, IndexKind::Dynamic, &mut table),
    );
    must(
        rt,
        reader.downloaded(file_name(rt, alloc, "root.didx"), table, pages),
    );
    reader
}

/// How many pages there are to read for a range, or why there is none.
fn planned(reader: &Reader, name: &FileName, offset: u64, length: u32) -> Result<u32, Refusal> {
    match reader.range_plan(name, offset, length) {
        Ok(pages) => Ok(pages.page_count()),
        Err(refusal) => Err(refusal),
    }
}

#[test]
fn what_is_downloaded_by_pages_is_allowed(rt: HostRuntime) {
    let alloc = rt.alloc();
    let reader = reader_of(&rt, alloc, 1025);
    same(&rt, reader.allowed(&Digest32([9; 32])), true);
    same(&rt, reader.allowed(&Digest32([8; 32])), false);
    let none = reader_of(&rt, alloc, 0);
    same(&rt, none.allowed(&Digest32([9; 32])), false);
}

#[test]
fn a_range_is_planned_within_the_content(rt: HostRuntime) {
    let alloc = rt.alloc();
    let reader = reader_of(&rt, alloc, 1025);
    let name = file_name(&rt, alloc, "root.didx");
    let other = file_name(&rt, alloc, "data.didx");
    let size = 3075;
    same(&rt, planned(&reader, &name, 3000, 75), Ok(2));
    same(
        &rt,
        planned(&reader, &name, 3000, 76),
        Err(Refusal::BadRange { size }),
    );
    same(
        &rt,
        planned(&reader, &name, 0, 4_194_305),
        Err(Refusal::TooMany { limit: 4_194_304 }),
    );
    same(
        &rt,
        planned(&reader, &other, 0, 1),
        Err(Refusal::NotAllowed),
    );
}

#[test]
fn parts_lie_within_the_pieces(rt: HostRuntime) {
    let alloc = rt.alloc();
    let digests = [Digest32([1; 32]), Digest32([2; 32]), Digest32([3; 32])];
    let entries = [
        IndexEntry {
            digest: digests[0],
            end: 103,
        },
        IndexEntry {
            digest: digests[1],
            end: 107,
        },
        IndexEntry {
            digest: digests[2],
            end: 112,
        },
    ];
    let parts = must(&rt, parts_of_page(alloc, &entries, 100, 102, 109));
    let wanted = [
        Part {
            digest: digests[0],
            from: 2,
            length: 1,
            chunk_length: 3,
        },
        Part {
            digest: digests[1],
            from: 0,
            length: 4,
            chunk_length: 4,
        },
        Part {
            digest: digests[2],
            from: 0,
            length: 2,
            chunk_length: 5,
        },
    ];
    same(&rt, parts.as_slice(), wanted.as_slice());
    let behind = must(&rt, parts_of_page(alloc, &entries, 100, 20, 100));
    same(&rt, behind.len(), 0);
    let before = must(&rt, parts_of_page(alloc, &entries, 100, 112, 200));
    same(&rt, before.len(), 0);
}
