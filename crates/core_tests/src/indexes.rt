//! Indexes of several pages that are damaged once the core is opened, or whose reads fail: what is told of them, and that nothing has
//! changed then. The bytes are made by `tests/make-tables`.

use crate::acts::{Row, Rows, Step, do_act};
use crate::asserts::{must, same, same_at};
use crate::books::SAVED;
use crate::cases::{put_beside, try_rows, try_tables};
use crate::collecting::{APPEND, NEW, OF_THREE, OF_TWO, PASS, START, TWO_USED};
use crate::damage::{ABC_DATA, DE_DATA, GET_ABC, NAME};
use crate::fixtures::{
    ABC, ABC_BLOB, ABC_CHUNK, BOOK, DE, DE_BLOB, DE_CHUNK, Kept, MANIFEST_PATH, ROOT_PATH, STILL,
    TestCore, kept, opened, opened_over,
};
use crate::folders::{Archives, Contents, THIRD_PATH, folder};
use crate::sent::{
    DONE, FIRST_BASE, IN_NONE, LIST, NO_INDEX, NOT_ALLOWED, NUMBER, OPEN_SECOND, READ_FIRST,
};
use disk_trait::{Disk, FailingDisk};
use std::alloc::Global;
use std::process::Abort;
use store_types::Digest32;

pub(crate) const FILES: Contents = &[
    (ABC_CHUNK, ABC_BLOB),
    (DE_CHUNK, DE_BLOB),
    (BOOK, SAVED),
    (MANIFEST_PATH, OF_TWO),
];

/// The index has pages of 1,024, 1,024 and 1 entries, and 86,056 bytes. `abc` is the last, and `de` each before it.
pub(crate) const ARCHIVES: Archives = Archives::Root(2_049);

/// What becomes of the index.
#[derive(Clone, Copy)]
pub(crate) enum Damage {
    /// The byte at this place is another.
    Byte(usize),
    /// So many of its first bytes are left.
    Front(usize),
    /// So many zeros stand behind it.
    Longer(usize),
    /// Another index stands in its place, of so many entries.
    Another(u32),
    /// It is gone.
    Gone,
}

const DAMAGES: &[Damage] = &[
    // its magic number, and its checksum
    Damage::Byte(0),
    Damage::Byte(32),
    // the first entry's end and digest; the digests of the middle one, with which page 1 begins, and of the last
    Damage::Byte(4_096),
    Damage::Byte(4_104),
    Damage::Byte(45_064),
    Damage::Byte(86_024),
    // it lacks a byte, an entry, and all pages but the first
    Damage::Front(86_055),
    Damage::Front(86_016),
    Damage::Front(45_056),
    // it has a byte more, and an entry
    Damage::Longer(1),
    Damage::Longer(40),
    Damage::Gone,
];

/// An act that reads an index.
#[derive(Drop)]
pub(crate) struct Reads {
    /// What stands there.
    pub(crate) files: Contents,
    pub(crate) archives: Archives,
    /// What comes before it.
    pub(crate) before: Rows,
    pub(crate) act: (u32, Step),
    /// What is told where the disk fails in it.
    pub(crate) failed: Rows,
}

/// An act that opens an index.
#[derive(Drop)]
struct Opens {
    reads: Reads,
    /// Where the index stands, and how it is damaged.
    path: &'static str,
    damages: &'static [Damage],
    /// What is told where it is damaged, the act first.
    damaged: Rows,
    /// What is told once it is whole again.
    whole: Rows,
}

const PREVIOUS: &[u8] = b"\x0b\x09root.didx\0\0\0\0\0\0\0\0";

const PREVIOUS_AT_END: &[u8] = b"\x0b\x09root.didx(P\x01\0\0\0\0\0";

const APPEND_DE: &[u8] =
    b"\x0f\0\x01\0\x95\x9aE\xd4No\xcfX6\x1e\xd0\x04h\x15V\xfeP\x12\x9f!\x09\xe8\x17\xde\xc0\x98\xc0\x0c\x9e]%x\x03\0\0\0\0\0\0\0";

const DOWNLOAD: &[u8] = b"\x15\x09root.didx\0\0\0\0\0\0\0\0";

pub(crate) const DOWNLOAD_AT_END: &[u8] = b"\x15\x09root.didx(P\x01\0\0\0\0\0";

pub(crate) const AT_END: &[u8] = b"\x09\0\0\0\0(P\x01\0\0\0\0\0";

const PREVIOUS_OF_THIRD: &[u8] = b"\x0b\x06c.didx\0\0\0\0\0\0\0\0";

const PREVIOUS_OF_THIRD_AT_END: &[u8] = b"\x0b\x06c.didx\xa8H\x01\0\0\0\0\0";

const THIRD_AT_END: &[u8] = b"\x09\0\0\0\0\xa8H\x01\0\0\0\0\0";

/// `c.didx` is unreadable, and the chunk of its first piece is not there.
pub(crate) const NO_THIRD: &[u8] = b"$\0\0\0\x18\"host/a/2020-01-15T06:30:03Z/c.didx";

pub(crate) const NO_X: &[u8] =
    b"B\0\0\0\x17\xa2\xe6Y\xda\xcbF\x91\xe8\x87\xac\x019\xf8\x89=\x04vN\xe1\x97\xd7\x0f\xb7=1\x90\xd5a\x13\xd1\x8e>\0\0\0\0\0\0\0\0\0\0\0\0\0\0\0\0\0\0\0\0\0\0\0\0\0\0\0\0\0\0\0\0\0";

const UNKNOWN: &[u8] = b"\x05\0\0\0\x0e\0\0\0\0";

/// The last five bytes of the archive.
pub(crate) const RANGE: &[u8] = b"\x17\x09root.didx\xfe\x0f\0\0\0\0\0\0\x05\0\0\0";

pub(crate) const FAULT: &[u8] = b"\x01\0\0\0\x1a";

/// The fault was the entry with this number.
const HALTED_BY_1: &[u8] = b"\x09\0\0\0\x1b\x01\0\0\0\0\0\0\0";

pub(crate) const HALTED_BY_2: &[u8] = b"\x09\0\0\0\x1b\x02\0\0\0\0\0\0\0";

pub(crate) const HALTED_BY_3: &[u8] = b"\x09\0\0\0\x1b\x03\0\0\0\0\0\0\0";

/// A writer may name none of the pieces, and then each.
static BY_PREVIOUS: Opens = Opens {
    reads: Reads {
        files: FILES,
        archives: ARCHIVES,
        before: &[
            (3, Step::Send(OPEN_SECOND), FIRST_BASE, 0),
            (3, Step::Send(NEW), NUMBER, 0),
        ],
        act: (3, Step::Send(PREVIOUS)),
        failed: &[
            (3, Step::Send(PREVIOUS), FAULT, 5),
            (5, Step::Send(LIST), HALTED_BY_2, 5),
        ],
    },
    path: ROOT_PATH,
    damages: DAMAGES,
    damaged: &[
        (3, Step::Send(PREVIOUS), NO_INDEX, 0),
        (3, Step::Send(APPEND), UNKNOWN, 0),
        (3, Step::Send(APPEND_DE), UNKNOWN, 0),
    ],
    whole: &[
        (3, Step::Send(PREVIOUS_AT_END), AT_END, 0),
        (3, Step::Send(APPEND), DONE, 0),
        (3, Step::Send(APPEND_DE), DONE, 0),
    ],
};

/// A writer was told another index before, whose last piece is `de`. It may still name that one, and then `abc` too.
static BY_PREVIOUS_OF_TWO: Opens = Opens {
    reads: Reads {
        files: BESIDE,
        archives: Archives::Three(2_001),
        before: &[
            (3, Step::Send(OPEN_SECOND), FIRST_BASE, 0),
            (3, Step::Send(NEW), NUMBER, 0),
            (
                3,
                Step::Send(b"\x0b\x06a.fidx@\x10\0\0\0\0\0\0"),
                b"\x09\0\0\0\0@\x10\0\0\0\0\0\0",
                0,
            ),
        ],
        act: (3, Step::Send(PREVIOUS_OF_THIRD)),
        failed: &[
            (3, Step::Send(PREVIOUS_OF_THIRD), FAULT, 5),
            (5, Step::Send(LIST), HALTED_BY_3, 5),
        ],
    },
    path: THIRD_PATH,
    damages: &[
        Damage::Byte(4_096),
        Damage::Byte(45_064),
        Damage::Byte(84_104),
        Damage::Front(84_135),
        Damage::Gone,
    ],
    damaged: &[
        (3, Step::Send(PREVIOUS_OF_THIRD), NO_THIRD, 0),
        (3, Step::Send(APPEND), UNKNOWN, 0),
    ],
    whole: &[
        (3, Step::Send(PREVIOUS_OF_THIRD_AT_END), THIRD_AT_END, 0),
        (3, Step::Send(APPEND), DONE, 0),
        (3, Step::Send(APPEND_DE), DONE, 0),
    ],
};

/// A reader is given none of the pieces, and then each.
static BY_DOWNLOAD: Opens = Opens {
    reads: Reads {
        files: FILES,
        archives: ARCHIVES,
        before: &[(4, Step::Send(READ_FIRST), DONE, 0)],
        act: (4, Step::Send(DOWNLOAD)),
        failed: &[
            (4, Step::Send(DOWNLOAD), FAULT, 5),
            (5, Step::Send(LIST), HALTED_BY_1, 5),
        ],
    },
    path: ROOT_PATH,
    damages: DAMAGES,
    damaged: &[
        (4, Step::Send(DOWNLOAD), NO_INDEX, 0),
        (4, Step::Send(GET_ABC), NOT_ALLOWED, 0),
        (4, Step::Send(RANGE), NOT_ALLOWED, 0),
    ],
    whole: &[
        (4, Step::Send(DOWNLOAD_AT_END), AT_END, 0),
        (4, Step::Send(GET_ABC), ABC_DATA, 0),
        (4, Step::Send(RANGE), b"\x06\0\0\0\0deabc", 0),
    ],
};

/// A VERIFY is given no entry, and then each. It allows no piece.
static BY_ENTRY: Opens = Opens {
    reads: Reads {
        files: FILES,
        archives: ARCHIVES,
        before: &[(4, Step::Send(READ_FIRST), DONE, 0)],
        act: (4, Step::ReadChunk(NAME, 0)),
        failed: &[
            (4, Step::ReadChunk(NAME, 0), FAULT, 5),
            (5, Step::Send(LIST), HALTED_BY_1, 5),
        ],
    },
    path: ROOT_PATH,
    damages: DAMAGES,
    damaged: &[
        (4, Step::ReadChunk(NAME, 0), NO_INDEX, 0),
        (4, Step::ReadChunk(NAME, 2_048), NO_INDEX, 0),
    ],
    whole: &[
        (4, Step::ReadChunk(NAME, 0), DE_DATA, 0),
        (4, Step::ReadChunk(NAME, 2_048), ABC_DATA, 0),
        (
            4,
            Step::ReadChunk(NAME, 2_049),
            b"\x09\0\0\0\x16\x01\x08\0\0\0\0\0\0",
            0,
        ),
        (4, Step::Send(GET_ABC), NOT_ALLOWED, 0),
    ],
};

/// The collection ends, and nothing is touched. A later one marks the index in three acts.
static BY_MARK: Opens = Opens {
    reads: Reads {
        files: FILES,
        archives: ARCHIVES,
        before: &[START],
        act: (5, Step::Pass),
        failed: &[
            (5, Step::Pass, FAULT, 5),
            (5, Step::Send(LIST), HALTED_BY_1, 5),
        ],
    },
    path: ROOT_PATH,
    damages: DAMAGES,
    damaged: &[
        PASS,
        (5, Step::Pass, NO_INDEX, 4),
        (5, Step::Pass, IN_NONE, 0),
    ],
    whole: &[START, PASS, PASS, PASS, PASS, PASS, TWO_USED],
};

/// A later PREVIOUS of an index.
static PREVIOUS_LATER: Reads = Reads {
    files: FILES,
    archives: ARCHIVES,
    before: &[
        (3, Step::Send(OPEN_SECOND), FIRST_BASE, 0),
        (3, Step::Send(PREVIOUS_AT_END), AT_END, 0),
    ],
    act: (3, Step::Send(PREVIOUS)),
    failed: &[
        (3, Step::Send(PREVIOUS), FAULT, 5),
        (5, Step::Send(LIST), HALTED_BY_2, 5),
    ],
};

/// A later DOWNLOAD.
static DOWNLOAD_LATER: Reads = Reads {
    files: FILES,
    archives: ARCHIVES,
    before: &[
        (4, Step::Send(READ_FIRST), DONE, 0),
        (4, Step::Send(DOWNLOAD_AT_END), AT_END, 0),
    ],
    act: (4, Step::Send(DOWNLOAD)),
    failed: &[
        (4, Step::Send(DOWNLOAD), FAULT, 5),
        (5, Step::Send(LIST), HALTED_BY_2, 5),
    ],
};

/// A VERIFY's read of another entry of the page that was read last.
static ENTRY_LATER: Reads = Reads {
    files: FILES,
    archives: ARCHIVES,
    before: &[
        (4, Step::Send(READ_FIRST), DONE, 0),
        (4, Step::ReadChunk(NAME, 0), DE_DATA, 0),
    ],
    act: (4, Step::ReadChunk(NAME, 1_023)),
    failed: &[
        (4, Step::ReadChunk(NAME, 1_023), FAULT, 5),
        (5, Step::Send(LIST), HALTED_BY_2, 5),
    ],
};

/// What stands beside the snapshot of a fixed index and two dynamic ones.
pub(crate) const BESIDE: Contents = &[
    (ABC_CHUNK, ABC_BLOB),
    (DE_CHUNK, DE_BLOB),
    (MANIFEST_PATH, OF_THREE),
];

/// The last piece of `a.fidx`.
pub(crate) const DE_OF_FIXED: &[u8] = b"\x17\x06a.fidx\0\x10\0\0\0\0\0\0\x02\0\0\0";

/// And that of `c.didx`.
pub(crate) const ABC_OF_THIRD: &[u8] = b"\x17\x06c.didx\0\0}\0\0\0\0\0\x03\0\0\0";

pub(crate) const GIVEN_DE: &[u8] = b"\x03\0\0\0\0de";

pub(crate) const GIVEN_ABC: &[u8] = b"\x04\0\0\0\0abc";

pub(crate) const READ_BOTH: Rows = &[
    (4, Step::Send(READ_FIRST), DONE, 0),
    (
        4,
        Step::Send(b"\x15\x06a.fidx@\x10\0\0\0\0\0\0"),
        b"\x09\0\0\0\0@\x10\0\0\0\0\0\0",
        0,
    ),
    (
        4,
        Step::Send(b"\x15\x06c.didx\xa8H\x01\0\0\0\0\0"),
        b"\x09\0\0\0\0\xa8H\x01\0\0\0\0\0",
        0,
    ),
];

/// Ranges of two indexes in turns: `a.fidx` has a piece that is not there and then `de`, and `c.didx` that piece 2,000 times and then `abc`.
static IN_TURNS: [Row; 4] = [
    (4, Step::Send(DE_OF_FIXED), GIVEN_DE, 0),
    (
        4,
        Step::Send(b"\x17\x06c.didx\0\0\0\0\0\0\0\0\x01\0\0\0"),
        NO_X,
        0,
    ),
    (4, Step::Send(ABC_OF_THIRD), GIVEN_ABC, 0),
    (4, Step::Send(DE_OF_FIXED), GIVEN_DE, 0),
];

/// What stands in place of the index that has this text, if anything does.
fn damaged(rt: &impl Abort, alloc: Global, text: &[u8], damage: Damage) -> Option<Vec<u8>> {
    let mut left = must(rt, text.to_vec(alloc));
    match damage {
        Damage::Byte(at) => {
            if let Some(byte) = left.get_mut(at) {
                *byte = byte.wrapping_add(1);
            }
        }
        Damage::Front(count) => left.truncate(count),
        Damage::Longer(count) => must(rt, left.resize(text.len().saturating_add(count), 0)),
        Damage::Another(entries) => {
            return Some(text_of(rt, alloc, Archives::Root(entries), ROOT_PATH));
        }
        Damage::Gone => return None,
    }
    Some(left)
}

/// The text of an index.
pub(crate) fn text_of(rt: &impl Abort, alloc: Global, archives: Archives, path: &str) -> Vec<u8> {
    let text = must(rt, folder(rt, alloc, &[], archives).read(alloc, path));
    must(rt, text.ok_or("no index"))
}

pub(crate) fn put_damaged(
    rt: &impl Abort,
    core: &mut TestCore,
    alloc: Global,
    path: &str,
    text: &[u8],
    damage: Damage,
) {
    match damaged(rt, alloc, text, damage) {
        Some(left) => put_beside(rt, core, alloc, path, &left),
        None => same(rt, must(rt, core.parts.disk.remove(path)), true),
    }
}

/// Whether the writer may name a piece with the digest, or the reader is given it.
fn is_known(core: &TestCore, digest: &Digest32) -> bool {
    if let Ok(writing) = core.parts.writer(3) {
        return writing.session.knows(digest);
    }
    if let Ok(reader) = core.parts.reader(4) {
        return reader.allowed(digest);
    }
    false
}

/// Whether `abc` and `de` are known, and what the core has.
pub(crate) fn state(core: &TestCore) -> (bool, bool, Kept) {
    (is_known(core, &ABC), is_known(core, &DE), kept(core))
}

fn try_damage(
    rt: &impl Abort,
    alloc: Global,
    number: usize,
    asked: &Opens,
    text: &[u8],
    damage: Damage,
) {
    let disk = folder(rt, alloc, asked.reads.files, asked.reads.archives);
    let mut core = opened(rt, alloc, disk, STILL);
    try_rows(rt, &mut core, alloc, [number, 0, 0, 0], asked.reads.before);
    let had = state(&core);
    put_damaged(rt, &mut core, alloc, asked.path, text, damage);
    try_rows(rt, &mut core, alloc, [number, 1, 0, 0], asked.damaged);
    same_at(rt, number, state(&core), had);
    put_beside(rt, &mut core, alloc, asked.path, text);
    try_rows(rt, &mut core, alloc, [number, 2, 0, 0], asked.whole)
}

fn try_damages(rt: &impl Abort, alloc: Global, asked: &Opens) {
    let text = text_of(rt, alloc, asked.reads.archives, asked.path);
    for (number, damage) in asked.damages.iter().enumerate() {
        try_damage(rt, alloc, number, asked, &text, *damage);
    }
}

/// The numbers of the disk's calls in the act: its first, and the one behind its last.
fn calls_of(rt: &impl Abort, alloc: Global, reads: &Reads) -> (u64, u64) {
    let disk = folder(rt, alloc, reads.files, reads.archives);
    let made = disk.calls();
    let mut core = opened(rt, alloc, disk, STILL);
    try_rows(rt, &mut core, alloc, [0; 4], reads.before);
    let first = core.parts.disk.calls().saturating_sub(made);
    let (lane, step) = reads.act;
    drop(do_act(rt, &mut core, alloc, lane, step));
    (first, core.parts.disk.calls().saturating_sub(made))
}

fn try_fault(rt: &impl Abort, alloc: Global, reads: &Reads, call: u64) {
    let calls = must(rt, Vec::from_slice(alloc, &[call]));
    let disk = folder(rt, alloc, reads.files, reads.archives);
    let disk = FailingDisk::at_calls(disk, calls);
    let mut core = opened_over(rt, alloc, disk, STILL);
    let spot = [call as usize, 0, 0, 0];
    try_rows(rt, &mut core, alloc, spot, reads.before);
    let had = state(&core);
    try_rows(rt, &mut core, alloc, spot, reads.failed);
    same_at(rt, spot, state(&core), had)
}

/// Each call fails, of which there are so many.
pub(crate) fn try_faults(rt: &impl Abort, alloc: Global, reads: &Reads, calls: u64) {
    let (first, end) = calls_of(rt, alloc, reads);
    same(rt, end.saturating_sub(first), calls);
    for call in first..end {
        try_fault(rt, alloc, reads, call);
    }
}

#[test]
fn indexes_are_read_in_turns(rt: HostRuntime) {
    try_tables(
        &rt,
        rt.alloc(),
        BESIDE,
        Archives::Three(2_001),
        READ_BOTH,
        &IN_TURNS,
    )
}

#[test]
fn damaged_indexes_name_no_pieces(rt: HostRuntime) {
    let alloc = rt.alloc();
    try_damages(&rt, alloc, &BY_PREVIOUS);
    try_damages(&rt, alloc, &BY_PREVIOUS_OF_TWO)
}

#[test]
fn damaged_indexes_allow_no_pieces(rt: HostRuntime) {
    try_damages(&rt, rt.alloc(), &BY_DOWNLOAD)
}

#[test]
fn damaged_indexes_have_no_entries(rt: HostRuntime) {
    try_damages(&rt, rt.alloc(), &BY_ENTRY)
}

#[test]
fn damaged_indexes_are_not_marked(rt: HostRuntime) {
    try_damages(&rt, rt.alloc(), &BY_MARK)
}

/// Of an index that is told a size and a part are read. Of one that is opened its size, its front, and each page.
#[test]
fn each_read_of_an_index_fails(rt: HostRuntime) {
    let alloc = rt.alloc();
    try_faults(&rt, alloc, &BY_PREVIOUS.reads, 7);
    try_faults(&rt, alloc, &BY_PREVIOUS_OF_TWO.reads, 6);
    try_faults(&rt, alloc, &BY_DOWNLOAD.reads, 7);
    try_faults(&rt, alloc, &BY_ENTRY.reads, 7);
    try_faults(&rt, alloc, &BY_MARK.reads, 5)
}

/// Of an index that was opened a size and a part are read, of an entry in the page at hand its chunk alone.
#[test]
fn each_later_read_of_an_index_fails(rt: HostRuntime) {
    let alloc = rt.alloc();
    try_faults(&rt, alloc, &PREVIOUS_LATER, 2);
    try_faults(&rt, alloc, &DOWNLOAD_LATER, 2);
    try_faults(&rt, alloc, &ENTRY_LATER, 2)
}
