//! Files on a disk in memory.

ghost use Rattle.std.specs.Prelude.{◌≤◌, length};

use crate::asserts::{must, same_at};
use crate::faults::{Fault, refusal};
use crate::fixtures::{NINES, ROOT, SEVENS};
use disk_trait::{Disk, FailingDisk, MemoryDisk};
use dynamic_index::DynamicWriter;
use fixed_index::FixedWriter;
use paged_indexes::{IndexEntry, IndexKind, TakesEntries};
use snapshot_files::{FilePart, read_index, read_part};
use std::alloc::{AllocError, Global};
use std::process::Abort;
use store_stops::Stop;
use store_types::{Digest32, Refusal};

const FIXED: &str = "host/a/2020-01-15T06:30:03Z/disk.fidx";

/// An index without its last byte.
const CUT: &str = "host/a/2020-01-15T06:30:03Z/cut.didx";

const NOTHING: &str = "host/a/2020-01-15T06:30:03Z/none.didx";

/// The index of 4,097 bytes in pieces of 4,096. It has 4,160 bytes.
fn fixed_text(rt: &impl Abort, alloc: Global) -> Vec<u8> {
    let mut writer = FixedWriter::new(alloc, [1; 16], 1_579_069_803, 4097, 4096);
    must(rt, writer.append(&SEVENS, 4096));
    must(rt, writer.append(&NINES, 1));
    must(rt, writer.close(alloc))
}

/// The index of a piece of 3 bytes and one of 2. It has 4,176 bytes.
fn dynamic_text(rt: &impl Abort, alloc: Global) -> Vec<u8> {
    let mut writer = DynamicWriter::new(alloc, [1; 16], 1_579_069_803);
    must(rt, writer.append(&SEVENS, 3));
    must(rt, writer.append(&NINES, 2));
    must(rt, writer.close(alloc))
}

fn disk_of_indexes(rt: &impl Abort, alloc: Global) -> MemoryDisk {
    let mut disk = MemoryDisk::new(alloc);
    must(rt, disk.put(alloc, FIXED, &fixed_text(rt, alloc)));
    let text = dynamic_text(rt, alloc);
    must(rt, disk.put(alloc, ROOT, &text));
    must(
        rt,
        disk.put(alloc, CUT, must(rt, text.get(..4175).ok_or("short"))),
    );
    disk
}

/// What is read from an offset of a file on: of an index, whose kind is told, or of any file.
#[derive(Clone, Copy)]
enum Read {
    Fixed(&'static str, u64),
    Dynamic(&'static str, u64),
    Part(&'static str, u64),
}

/// What is told: the file's size, the bytes from the offset on, and an index's entries, none for any file.
type Told = (u64, &'static [u8], &'static [IndexEntry]);

/// The entries of an index as they are read.
#[derive(Drop)]
struct Entries {
    items: Vec<IndexEntry>,
}

impl TakesEntries for Entries {
    ghost taken = { λ _ _ _. Unit {0} };

    fn take(&mut self, _start: u64, entry: &IndexEntry) -> Result<(), AllocError> {
        self.items.push(*entry)?;
        Ok(())
    }
}

/// A part of a file, and an index's entries, none for any file.
#[derive(Drop)]
struct Seen {
    part: FilePart,
    entries: Entries,
}

/// A part of an index, and its entries.
fn read_entries<D: Disk>(
    disk: &mut D,
    alloc: Global,
    path: &str,
    kind: IndexKind,
    offset: u64,
) -> Result<Seen, Stop>
    requires { length path.now ≤ 255 }
{
    let mut entries = Entries {
        items: Vec::new(alloc),
    };
    let index = read_index(disk, alloc, path, kind, offset, &mut entries)?;
    Ok(Seen {
        part: index.part,
        entries,
    })
}

/// What is read, or the refusal.
fn told<T: Drop>(rt: &impl Abort, read: Result<T, Stop>) -> Result<T, Refusal> {
    match read {
        Ok(value) => Ok(value),
        Err(Stop::Refused(refusal)) => Err(refusal),
        Err(Stop::NoMemory) => panic!(rt; "no memory"),
        Err(Stop::DiskFailed) => panic!(rt; "the disk failed"),
    }
}

/// The index of the kind, where the path is no longer than a path may be.
fn index_at(
    rt: &impl Abort,
    disk: &mut MemoryDisk,
    alloc: Global,
    path: &str,
    kind: IndexKind,
    offset: u64,
) -> Result<Seen, Refusal> {
    assert!(rt; path.len() <= 255);
    told(rt, read_entries(disk, alloc, path, kind, offset))
}

/// The part of any file, as that of an index without entries.
fn part_at(
    rt: &impl Abort,
    disk: &mut MemoryDisk,
    alloc: Global,
    path: &str,
    offset: u64,
) -> Result<Seen, Refusal> {
    assert!(rt; path.len() <= 255);
    match told(rt, read_part(disk, alloc, path, offset)) {
        Ok(part) => Ok(Seen {
            part,
            entries: Entries {
                items: Vec::new(alloc),
            },
        }),
        Err(refusal) => Err(refusal),
    }
}

fn make(
    rt: &impl Abort,
    disk: &mut MemoryDisk,
    alloc: Global,
    read: Read,
) -> Result<Seen, Refusal> {
    match read {
        Read::Fixed(path, offset) => index_at(rt, disk, alloc, path, IndexKind::Fixed, offset),
        Read::Dynamic(path, offset) => index_at(rt, disk, alloc, path, IndexKind::Dynamic, offset),
        Read::Part(path, offset) => part_at(rt, disk, alloc, path, offset),
    }
}

fn is_part(part: &FilePart, size: u64, wanted: &[u8]) -> bool {
    part.total == size && part.bytes.as_slice() == wanted
}

fn try_told(rt: &impl Abort, number: usize, told: &Seen, wanted: &Told) {
    let (size, text, entries) = wanted;
    same_at(rt, number, is_part(&told.part, *size, text), true);
    same_at(rt, number, told.entries.items.as_slice(), *entries);
}

fn try_read(
    rt: &impl Abort,
    disk: &mut MemoryDisk,
    alloc: Global,
    number: usize,
    row: &(Read, Told),
) {
    let (read, wanted) = row;
    let told = must(rt, make(rt, disk, alloc, *read).ok().ok_or("refused"));
    try_told(rt, number, &told, wanted);
}

fn try_refused(
    rt: &impl Abort,
    disk: &mut MemoryDisk,
    alloc: Global,
    number: usize,
    row: &(Read, Fault),
) {
    let (read, fault) = row;
    let found = make(rt, disk, alloc, *read).err();
    same_at(rt, number, found, Some(refusal(rt, alloc, *fault)));
}

/// Where the pieces of both indexes end.
const FIXED_ENDS: &[IndexEntry] = &[
    IndexEntry {
        digest: SEVENS,
        end: 4096,
    },
    IndexEntry {
        digest: NINES,
        end: 4097,
    },
];

const DYNAMIC_ENDS: &[IndexEntry] = &[
    IndexEntry {
        digest: SEVENS,
        end: 3,
    },
    IndexEntry {
        digest: NINES,
        end: 5,
    },
];

/// From where the second entry begins, at the end, and of any file.
static READ: [(Read, Told); 5] = [
    (Read::Fixed(FIXED, 4128), (4160, &[9; 32], FIXED_ENDS)),
    (Read::Dynamic(ROOT, 4144), (4176, &[9; 32], DYNAMIC_ENDS)),
    (Read::Fixed(FIXED, 4160), (4160, b"", FIXED_ENDS)),
    (Read::Part(CUT, 4144), (4175, &[9; 31], &[])),
    (Read::Part(CUT, 4175), (4175, b"", &[])),
];

static REFUSED: [(Read, Fault); 8] = [
    (Read::Dynamic(ROOT, 4177), Fault::BadRange(4176)),
    // the offset comes before the index
    (Read::Dynamic(CUT, 4176), Fault::BadRange(4175)),
    (Read::Part(CUT, 4176), Fault::BadRange(4175)),
    (Read::Dynamic(NOTHING, 0), Fault::Unreadable(NOTHING)),
    (Read::Dynamic(CUT, 4175), Fault::Unreadable(CUT)),
    // the other kind has another magic number
    (Read::Fixed(ROOT, 0), Fault::Unreadable(ROOT)),
    (Read::Dynamic(FIXED, 0), Fault::Unreadable(FIXED)),
    (Read::Part(NOTHING, 0), Fault::Unreadable(NOTHING)),
];

#[test]
fn parts_are_read(rt: HostRuntime) {
    let alloc = rt.alloc();
    let mut disk = disk_of_indexes(&rt, alloc);
    for (number, row) in READ.iter().enumerate() {
        try_read(&rt, &mut disk, alloc, number, row);
    }
}

#[test]
fn parts_are_refused(rt: HostRuntime) {
    let alloc = rt.alloc();
    let mut disk = disk_of_indexes(&rt, alloc);
    for (number, row) in REFUSED.iter().enumerate() {
        try_refused(&rt, &mut disk, alloc, number, row);
    }
}

fn read_root(disk: &mut FailingDisk<MemoryDisk>, alloc: Global) -> Result<Seen, Stop> {
    read_entries(disk, alloc, ROOT, IndexKind::Dynamic, 4144)
}

/// A disk that fails at its call of this number, and then no more.
fn failing_at(rt: &impl Abort, alloc: Global, number: u64) -> FailingDisk<MemoryDisk> {
    let plan = must(rt, Vec::from_slice(alloc, &[number]));
    FailingDisk::at_calls(disk_of_indexes(rt, alloc), plan)
}

static ROOT_READ: Told = (4176, &[9; 32], DYNAMIC_ENDS);

fn try_root(rt: &impl Abort, alloc: Global, disk: &mut FailingDisk<MemoryDisk>) {
    let told = must(rt, read_root(disk, alloc).ok().ok_or("not read"));
    try_told(rt, 0, &told, &ROOT_READ);
}

fn try_fault(rt: &impl Abort, alloc: Global, number: u64) {
    let mut disk = failing_at(rt, alloc, number);
    let failed = read_root(&mut disk, alloc).err();
    same_at(rt, number, failed, Some(Stop::DiskFailed));
    try_root(rt, alloc, &mut disk)
}

/// The size is asked first, and then the part; then the size again, the front and each page.
#[test]
fn a_call_fails(rt: HostRuntime) {
    for number in 0..5 {
        try_fault(&rt, rt.alloc(), number);
    }
}
