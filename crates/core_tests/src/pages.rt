//! Indexes that change once they were opened: what is told of their pages. The bytes are made by `tests/make-tables`.

use crate::acts::{Row, Rows, Step};
use crate::asserts::{must, same, same_at};
use crate::cases::{Spot, put_beside, try_row, try_rows, try_tables};
use crate::collecting::{APPEND, NEW, PASS, START, TAKE_OVER, TWO_USED};
use crate::damage::{ABC_DATA, DE_DATA, NAME};
use crate::fixtures::{
    ABC_CHUNK, DE_BLOB, DE_CHUNK, Kept, ROOT_PATH, STILL, TestCore, kept, opened,
};
use crate::folders::{Archives, Contents, FIRST_PATH, THIRD_PATH, folder};
use crate::indexes::{
    ABC_OF_THIRD, ARCHIVES, AT_END, BESIDE, DE_OF_FIXED, DOWNLOAD_AT_END, Damage, FAULT, FILES,
    GIVEN_ABC, GIVEN_DE, HALTED_BY_2, HALTED_BY_3, NO_THIRD, NO_X, RANGE, READ_BOTH, Reads,
    put_damaged, state, text_of, try_faults,
};
use crate::sent::{
    AT_END as OF_TWO_AT_END, DONE, FIRST_BASE, LIST, NO_INDEX, NUMBER, OPEN_SECOND, READ_FIRST,
};
use disk_trait::Disk;
use std::alloc::Global;
use std::process::Abort;

/// Of the pages of an index each that is so.
type Pages = [bool; 3];

/// How an index changes, and which of its pages are as they were.
type Change = (Damage, Pages);

/// What is asked of an index that was opened, which pages it reads, and what is told where they are as they were.
type Asked = (Step, Pages, &'static [u8]);

/// An index that is opened, changes, and is asked for.
#[derive(Drop)]
struct Used {
    files: Contents,
    archives: Archives,
    /// Where the index stands.
    path: &'static str,
    /// What opens it.
    before: Rows,
    changes: &'static [Change],
    asked: &'static [Asked],
    /// What is told of a page that is not as it was.
    changed: &'static [u8],
}

/// The index of three pages is opened.
const DOWNLOADED: Rows = &[
    (4, Step::Send(READ_FIRST), DONE, 0),
    (4, Step::Send(DOWNLOAD_AT_END), AT_END, 0),
];

/// Changes of the index of three pages.
const CHANGES: &[Change] = &[
    // no page has the header
    (Damage::Byte(0), [true, true, true]),
    (Damage::Byte(32), [true, true, true]),
    (Damage::Byte(4_096), [false, true, true]),
    (Damage::Byte(4_104), [false, true, true]),
    (Damage::Byte(45_064), [true, false, true]),
    (Damage::Byte(86_024), [true, true, false]),
    (Damage::Front(86_055), [true, true, false]),
    (Damage::Front(86_016), [true, true, false]),
    (Damage::Front(45_056), [true, false, false]),
    (Damage::Front(4_096), [false, false, false]),
    // what stands behind its last entry is in no page
    (Damage::Longer(40), [true, true, true]),
    // `de` is in all other entries of a longer index, and the shorter one has `abc` alone
    (Damage::Another(3_000), [true, true, false]),
    (Damage::Another(1), [false, false, false]),
    (Damage::Gone, [false, false, false]),
];

/// A piece of each page, the last of the first page and the first of the second, and what is given.
const RANGE_OF_FIRST: &[u8] = b"\x17\x09root.didx\0\0\0\0\0\0\0\0\x02\0\0\0";

const RANGE_OF_SECOND: &[u8] = b"\x17\x09root.didx\0\x08\0\0\0\0\0\0\x02\0\0\0";

const RANGE_OF_LAST: &[u8] = b"\x17\x09root.didx\0\x10\0\0\0\0\0\0\x03\0\0\0";

const RANGE_OF_TWO: &[u8] = b"\x17\x09root.didx\xfe\x07\0\0\0\0\0\0\x04\0\0\0";

const GIVEN_TWO: &[u8] = b"\x05\0\0\0\0dede";

/// Ranges of one piece in each page, of two in two pages, and of no bytes within a page and at the archive's end.
static BY_RANGE: Used = Used {
    files: FILES,
    archives: ARCHIVES,
    path: ROOT_PATH,
    before: DOWNLOADED,
    changes: CHANGES,
    asked: &[
        (Step::Send(RANGE_OF_FIRST), [true, false, false], GIVEN_DE),
        (Step::Send(RANGE_OF_SECOND), [false, true, false], GIVEN_DE),
        (Step::Send(RANGE_OF_LAST), [false, false, true], GIVEN_ABC),
        (Step::Send(RANGE_OF_TWO), [true, true, false], GIVEN_TWO),
        (Step::Send(RANGE), [false, true, true], b"\x06\0\0\0\0deabc"),
        (
            Step::Send(b"\x17\x09root.didx\x01\x08\0\0\0\0\0\0\0\0\0\0"),
            [false, false, false],
            DONE,
        ),
        (
            Step::Send(b"\x17\x09root.didx\x03\x10\0\0\0\0\0\0\0\0\0\0"),
            [false, false, false],
            DONE,
        ),
    ],
    changed: NO_INDEX,
};

/// Ranges behind one of the first page, in order, and one of the first page again: each page is read once, until another was.
static BY_RANGE_IN_ORDER: Used = Used {
    files: FILES,
    archives: ARCHIVES,
    path: ROOT_PATH,
    before: &[
        (4, Step::Send(READ_FIRST), DONE, 0),
        (4, Step::Send(DOWNLOAD_AT_END), AT_END, 0),
        (4, Step::Send(RANGE_OF_FIRST), GIVEN_DE, 0),
    ],
    changes: &[
        (Damage::Byte(0), [true, true, true]),
        (Damage::Byte(4_104), [false, true, true]),
        (Damage::Byte(45_064), [true, false, true]),
        (Damage::Byte(86_024), [true, true, false]),
        (Damage::Longer(40), [true, true, true]),
    ],
    asked: &[
        (Step::Send(RANGE_OF_FIRST), [false, false, false], GIVEN_DE),
        (Step::Send(RANGE_OF_TWO), [false, true, false], GIVEN_TWO),
        (Step::Send(RANGE_OF_SECOND), [false, true, false], GIVEN_DE),
        (Step::Send(RANGE_OF_LAST), [false, false, true], GIVEN_ABC),
        (Step::Send(RANGE_OF_FIRST), [true, false, false], GIVEN_DE),
    ],
    changed: NO_INDEX,
};

/// By a VERIFY, which opens the index at the first entry that it asks for, and keeps the page that it read last.
static BY_ENTRY: Used = Used {
    files: FILES,
    archives: ARCHIVES,
    path: ROOT_PATH,
    before: &[
        (4, Step::Send(READ_FIRST), DONE, 0),
        (4, Step::ReadChunk(NAME, 0), DE_DATA, 0),
    ],
    changes: CHANGES,
    asked: &[
        (Step::ReadChunk(NAME, 1_023), [false, false, false], DE_DATA),
        (Step::ReadChunk(NAME, 1_024), [false, true, false], DE_DATA),
        (Step::ReadChunk(NAME, 2_048), [false, false, true], ABC_DATA),
    ],
    changed: NO_INDEX,
};

/// By a VERIFY that read another index since: it is open still, and no page of it is at hand.
static BY_ENTRY_AGAIN: Used = Used {
    files: BESIDE,
    archives: Archives::Three(2_001),
    path: THIRD_PATH,
    before: &[
        (4, Step::Send(READ_FIRST), DONE, 0),
        (4, Step::ReadChunk(b"c.didx", 2_000), ABC_DATA, 0),
        (4, Step::ReadChunk(b"a.fidx", 1), DE_DATA, 0),
    ],
    changes: &[
        (Damage::Byte(0), [true, true, true]),
        (Damage::Byte(4_104), [false, true, true]),
        (Damage::Byte(84_104), [true, false, true]),
        (Damage::Front(84_135), [true, false, true]),
        (Damage::Longer(40), [true, true, true]),
        (Damage::Gone, [false, false, true]),
    ],
    asked: &[
        (
            Step::ReadChunk(b"a.fidx", 1),
            [false, false, false],
            DE_DATA,
        ),
        (
            Step::ReadChunk(b"c.didx", 2_000),
            [false, true, false],
            ABC_DATA,
        ),
        (
            Step::ReadChunk(b"c.didx", 1_023),
            [true, false, false],
            NO_X,
        ),
    ],
    changed: NO_THIRD,
};

/// Of a fixed index of one page, and of another index beside it.
static BESIDE_ANOTHER: Used = Used {
    files: BESIDE,
    archives: Archives::Three(2_001),
    path: FIRST_PATH,
    before: READ_BOTH,
    changes: &[
        (Damage::Byte(80), [true, true, true]),
        (Damage::Byte(4_096), [false, true, true]),
        (Damage::Byte(4_159), [false, true, true]),
        (Damage::Front(4_159), [false, true, true]),
        (Damage::Front(4_128), [false, true, true]),
        (Damage::Longer(32), [true, true, true]),
        (Damage::Gone, [false, true, true]),
    ],
    asked: &[
        (Step::Send(DE_OF_FIXED), [true, false, false], GIVEN_DE),
        (Step::Send(ABC_OF_THIRD), [false, false, false], GIVEN_ABC),
    ],
    changed: b"$\0\0\0\x18\"host/a/2020-01-15T06:30:03Z/a.fidx",
};

/// Each page that is read is as it was.
fn are_as_before(read: Pages, as_before: Pages) -> bool {
    for (is_read, is_as_before) in read.iter().zip(as_before.iter()) {
        if *is_read && !*is_as_before {
            return false;
        }
    }
    true
}

/// Asks for the index, of which these pages are as they were.
fn try_asked(
    rt: &impl Abort,
    core: &mut TestCore,
    alloc: Global,
    spot: Spot,
    used: &Used,
    as_before: Pages,
) {
    for (number, asked) in used.asked.iter().enumerate() {
        let (step, read, given) = *asked;
        let told = if are_as_before(read, as_before) {
            given
        } else {
            used.changed
        };
        try_row(rt, core, alloc, (spot, number), &(4, step, told, 0));
    }
}

/// It is asked for as it has changed, and as it was. Nothing else changes by that.
fn try_change(
    rt: &impl Abort,
    alloc: Global,
    number: usize,
    used: &Used,
    text: &[u8],
    change: &Change,
) {
    let (damage, as_before) = *change;
    let disk = folder(rt, alloc, used.files, used.archives);
    let mut core = opened(rt, alloc, disk, STILL);
    try_rows(rt, &mut core, alloc, [number, 0, 0, 0], used.before);
    let had = state(&core);
    put_damaged(rt, &mut core, alloc, used.path, text, damage);
    try_asked(rt, &mut core, alloc, [number, 1, 0, 0], used, as_before);
    same_at(rt, number, state(&core), had);
    put_beside(rt, &mut core, alloc, used.path, text);
    try_asked(rt, &mut core, alloc, [number, 2, 0, 0], used, [true; 3])
}

fn try_changes(rt: &impl Abort, alloc: Global, used: &Used) {
    let text = text_of(rt, alloc, used.archives, used.path);
    for (number, change) in used.changes.iter().enumerate() {
        try_change(rt, alloc, number, used, &text, change);
    }
}

/// A range in a page that is not as it was opened is refused, and others are given.
#[test]
fn pages_are_compared_by_ranges(rt: HostRuntime) {
    let alloc = rt.alloc();
    try_changes(&rt, alloc, &BY_RANGE);
    try_changes(&rt, alloc, &BY_RANGE_IN_ORDER)
}

#[test]
fn pages_are_compared_by_a_verify(rt: HostRuntime) {
    let alloc = rt.alloc();
    try_changes(&rt, alloc, &BY_ENTRY);
    try_changes(&rt, alloc, &BY_ENTRY_AGAIN)
}

#[test]
fn pages_of_another_index_are_given(rt: HostRuntime) {
    try_changes(&rt, rt.alloc(), &BESIDE_ANOTHER)
}

/// Which chunk of a range in two pages is gone, how the index changes, and what is told: a page is read, its chunks, and then the next page.
static FIRST_CAUSES: [(&str, Damage, &[u8]); 4] = [
    (DE_CHUNK, Damage::Byte(45_064), NO_INDEX),
    (
        DE_CHUNK,
        Damage::Byte(86_024),
        b"B\0\0\0\x17\x95\x9aE\xd4No\xcfX6\x1e\xd0\x04h\x15V\xfeP\x12\x9f!\x09\xe8\x17\xde\xc0\x98\xc0\x0c\x9e]%x\0\0\0\0\0\0\0\0\0\0\0\0\0\0\0\0\0\0\0\0\0\0\0\0\0\0\0\0\0\0\0\0\0",
    ),
    (ABC_CHUNK, Damage::Byte(86_024), NO_INDEX),
    (
        ABC_CHUNK,
        Damage::Byte(4_104),
        b"B\0\0\0\x17\xbax\x16\xbf\x8f\x01\xcf\xeaAA@\xde]\xae\"#\xb0\x03a\xa3\x96\x17z\x9c\xb4\x10\xffa\xf2\0\x15\xad\0\0\0\0\0\0\0\0\0\0\0\0\0\0\0\0\0\0\0\0\0\0\0\0\0\0\0\0\0\0\0\0\0",
    ),
];

#[test]
fn the_first_cause_of_a_range_is_told(rt: HostRuntime) {
    let alloc = rt.alloc();
    for (number, row) in FIRST_CAUSES.iter().enumerate() {
        let (chunk, damage, told) = *row;
        let mut core = opened(&rt, alloc, folder(&rt, alloc, FILES, ARCHIVES), STILL);
        try_rows(&rt, &mut core, alloc, [number, 0, 0, 0], DOWNLOADED);
        let parts = &mut core.parts;
        same(&rt, must(&rt, parts.disk.remove(chunk)), true);
        let text = text_of(&rt, alloc, ARCHIVES, ROOT_PATH);
        put_damaged(&rt, &mut core, alloc, ROOT_PATH, &text, damage);
        let asked = (4, Step::Send(RANGE), told, 0);
        try_row(&rt, &mut core, alloc, ([number, 1, 0, 0], 0), &asked);
    }
}

/// A range in two pages: each is read, and two chunks, by two calls each.
static READS_RANGE: Reads = Reads {
    files: FILES,
    archives: ARCHIVES,
    before: DOWNLOADED,
    act: (4, Step::Send(RANGE)),
    failed: &[
        (4, Step::Send(RANGE), FAULT, 5),
        (5, Step::Send(LIST), HALTED_BY_2, 5),
    ],
};

/// The same behind a range that ended on the first of them: that page is not read again.
static READS_RANGE_IN_ORDER: Reads = Reads {
    files: FILES,
    archives: ARCHIVES,
    before: &[
        (4, Step::Send(READ_FIRST), DONE, 0),
        (4, Step::Send(DOWNLOAD_AT_END), AT_END, 0),
        (4, Step::Send(RANGE_OF_TWO), GIVEN_TWO, 0),
    ],
    act: (4, Step::Send(RANGE)),
    failed: &[
        (4, Step::Send(RANGE), FAULT, 5),
        (5, Step::Send(LIST), HALTED_BY_3, 5),
    ],
};

/// And within the page that was read last: two calls for its chunk.
static READS_RANGE_AGAIN: Reads = Reads {
    files: FILES,
    archives: ARCHIVES,
    before: &[
        (4, Step::Send(READ_FIRST), DONE, 0),
        (4, Step::Send(DOWNLOAD_AT_END), AT_END, 0),
        (4, Step::Send(RANGE_OF_FIRST), GIVEN_DE, 0),
    ],
    act: (4, Step::Send(RANGE_OF_FIRST)),
    failed: &[
        (4, Step::Send(RANGE_OF_FIRST), FAULT, 5),
        (5, Step::Send(LIST), HALTED_BY_3, 5),
    ],
};

/// An entry in another page than the one that was read last: the page is read, and a chunk, by two calls.
static READS_ENTRY: Reads = Reads {
    files: FILES,
    archives: ARCHIVES,
    before: &[
        (4, Step::Send(READ_FIRST), DONE, 0),
        (4, Step::ReadChunk(NAME, 0), DE_DATA, 0),
    ],
    act: (4, Step::ReadChunk(NAME, 2_048)),
    failed: &[
        (4, Step::ReadChunk(NAME, 2_048), FAULT, 5),
        (5, Step::Send(LIST), HALTED_BY_2, 5),
    ],
};

/// The second mark of the index, whose entries are in two pages.
static READS_MARK: Reads = Reads {
    files: FILES,
    archives: ARCHIVES,
    before: &[START, PASS],
    act: (5, Step::Pass),
    failed: &[
        (5, Step::Pass, FAULT, 5),
        (5, Step::Send(LIST), HALTED_BY_2, 5),
    ],
};

/// The third one, whose entries are in the page that the second one read last and in the next.
static READS_MARK_ON: Reads = Reads {
    files: FILES,
    archives: ARCHIVES,
    before: &[START, PASS, PASS],
    act: (5, Step::Pass),
    failed: &[
        (5, Step::Pass, FAULT, 5),
        (5, Step::Send(LIST), HALTED_BY_3, 5),
    ],
};

#[test]
fn each_read_of_a_page_fails(rt: HostRuntime) {
    let alloc = rt.alloc();
    try_faults(&rt, alloc, &READS_RANGE, 6);
    try_faults(&rt, alloc, &READS_RANGE_IN_ORDER, 5);
    try_faults(&rt, alloc, &READS_RANGE_AGAIN, 2);
    try_faults(&rt, alloc, &READS_ENTRY, 3);
    try_faults(&rt, alloc, &READS_MARK, 2);
    try_faults(&rt, alloc, &READS_MARK_ON, 1)
}

const HALF_MARKED: Kept = (1_000_000, Some(5), Some(1_000_000), 0);

const MARKED: Kept = (1_000_000, Some(1_000_000), Some(1_000_000), 0);

const FIRST: Rows = &[START, PASS];

const SECOND: Rows = &[START, PASS, PASS];

const ENDS_BEHIND_ONE: Rows = &[PASS, (5, Step::Pass, NO_INDEX, 4)];

const ENDS_BEHIND_TWO: Rows = &[PASS, PASS, (5, Step::Pass, NO_INDEX, 4)];

const MARKS_ON: Rows = &[PASS, PASS, PASS, TWO_USED];

/// How the index changes behind these marks, what is told then, and what the core has in the end. The first mark touches `de`. The second,
/// of which `abc` is one, needs the first page and the next; the third needs that one, which is at hand, and the last.
static MARKS: [(Rows, Damage, Rows, Kept); 12] = [
    (FIRST, Damage::Byte(4_104), ENDS_BEHIND_ONE, HALF_MARKED),
    (FIRST, Damage::Byte(45_064), ENDS_BEHIND_ONE, HALF_MARKED),
    (FIRST, Damage::Front(45_056), ENDS_BEHIND_ONE, HALF_MARKED),
    (FIRST, Damage::Another(2_049), ENDS_BEHIND_ONE, HALF_MARKED),
    (FIRST, Damage::Gone, ENDS_BEHIND_ONE, HALF_MARKED),
    (FIRST, Damage::Byte(86_024), ENDS_BEHIND_TWO, MARKED),
    (FIRST, Damage::Front(86_055), ENDS_BEHIND_TWO, MARKED),
    (
        FIRST,
        Damage::Longer(40),
        &[PASS, PASS, PASS, PASS, TWO_USED],
        MARKED,
    ),
    (SECOND, Damage::Byte(4_104), MARKS_ON, MARKED),
    (SECOND, Damage::Byte(45_064), MARKS_ON, MARKED),
    (SECOND, Damage::Byte(86_024), ENDS_BEHIND_ONE, MARKED),
    (SECOND, Damage::Gone, ENDS_BEHIND_ONE, MARKED),
];

fn try_marks(rt: &impl Abort, alloc: Global, number: usize, row: &(Rows, Damage, Rows, Kept)) {
    let (before, damage, rows, left) = *row;
    let mut core = opened(rt, alloc, folder(rt, alloc, FILES, Archives::Amid), STILL);
    try_rows(rt, &mut core, alloc, [number, 0, 0, 0], before);
    let text = text_of(rt, alloc, Archives::Amid, ROOT_PATH);
    put_damaged(rt, &mut core, alloc, ROOT_PATH, &text, damage);
    try_rows(rt, &mut core, alloc, [number, 1, 0, 0], rows);
    same_at(rt, number, kept(&core), left);
}

/// A mark touches all its entries or none.
#[test]
fn pages_are_compared_by_marks(rt: HostRuntime) {
    for (number, row) in MARKS.iter().enumerate() {
        try_marks(&rt, rt.alloc(), number, row);
    }
}

/// A writer that was told an index by PREVIOUS is told parts of it as they stand then, and may name what it might name.
static PREVIOUS_AGAIN: [Row; 8] = [
    (3, Step::Send(OPEN_SECOND), FIRST_BASE, 0),
    (3, Step::Send(NEW), NUMBER, 0),
    (3, Step::Send(TAKE_OVER), OF_TWO_AT_END, 0),
    (3, Step::Put(ROOT_PATH, DE_BLOB), DONE, 0),
    (
        3,
        Step::Send(b"\x0b\x09root.didx\x0c\0\0\0\0\0\0\0"),
        b"\x0b\0\0\0\0\x0e\0\0\0\0\0\0\0de",
        0,
    ),
    (3, Step::Remove(ROOT_PATH), DONE, 0),
    (3, Step::Send(TAKE_OVER), NO_INDEX, 0),
    (3, Step::Send(APPEND), DONE, 0),
];

#[test]
fn later_parts_are_told_as_they_stand(rt: HostRuntime) {
    try_tables(
        &rt,
        rt.alloc(),
        FILES,
        Archives::Root(2),
        &[],
        &PREVIOUS_AGAIN,
    )
}
