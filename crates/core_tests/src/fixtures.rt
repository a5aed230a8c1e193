//! Cores over disks in memory, which may fail, and bytes that several tests use. Digests and checksums are made by
//! `tests/make-tables`.

use crate::asserts::must;
use core_opening::open_on;
use core_state::Core;
use disk_trait::{FailingDisk, MemoryDisk};
use port_traits::SetClock;
use std::alloc::Global;
use std::process::Abort;
use store_types::Digest32;

pub(crate) type TestDisk = FailingDisk<MemoryDisk>;

pub(crate) type TestCore = Core<TestDisk, MemoryDisk, SetClock>;

/// What a clock reads first, and then always.
pub(crate) type Clock = (&'static [u64], u64);

/// It stands, or falls.
pub(crate) const STILL: Clock = (&[], 1_000_000);

pub(crate) const FALLING: Clock = (&[1_000_000], 5);

/// What a core has: its last moment, the last touches of `abc` and of `de`, and how many chunks are undated.
pub(crate) type Kept = (u64, Option<u64>, Option<u64>, usize);

/// Where the first snapshot's manifest stands, and its index.
pub(crate) const MANIFEST_PATH: &str = "host/a/2020-01-15T06:30:03Z/index.json.blob";

pub(crate) const ROOT_PATH: &str = "host/a/2020-01-15T06:30:03Z/root.didx";

pub(crate) const BOOK: &str = ".chunks/book";

pub(crate) const ABC_CHUNK: &str =
    ".chunks/ba78/ba7816bf8f01cfea414140de5dae2223b00361a396177a9cb410ff61f20015ad";

pub(crate) const DE_CHUNK: &str =
    ".chunks/959a/959a45d44e6fcf58361ed004681556fe50129f2109e817dec098c00c9e5d2578";

pub(crate) const ABC_BLOB: &[u8] = b"B\xab8\x07\xbe\x83p\xa1\xc2A$5abc";

pub(crate) const DE_BLOB: &[u8] = b"B\xab8\x07\xbe\x83p\xa1\x8b)\x90}de";

/// The blob of `123456789`.
pub(crate) const DIGITS: &[u8] = b"B\xab8\x07\xbe\x83p\xa1&9\xf4\xcb123456789";

/// The blob of a manifest of the first that lists no files.
pub(crate) const MANIFEST: &[u8] =
    b"B\xab8\x07\xbe\x83p\xa1\xb2\x94\x08E{\"backup-id\":\"a\",\"backup-time\":1579069803,\"backup-type\":\"host\",\"files\":[]}";

/// SHA-256 of `abc`, and of `de`.
pub(crate) const ABC: Digest32 = Digest32([
    0xba, 0x78, 0x16, 0xbf, 0x8f, 0x01, 0xcf, 0xea, 0x41, 0x41, 0x40, 0xde, 0x5d, 0xae, 0x22, 0x23,
    0xb0, 0x03, 0x61, 0xa3, 0x96, 0x17, 0x7a, 0x9c, 0xb4, 0x10, 0xff, 0x61, 0xf2, 0x00, 0x15, 0xad,
]);

pub(crate) const DE: Digest32 = Digest32([
    0x95, 0x9a, 0x45, 0xd4, 0x4e, 0x6f, 0xcf, 0x58, 0x36, 0x1e, 0xd0, 0x04, 0x68, 0x15, 0x56, 0xfe,
    0x50, 0x12, 0x9f, 0x21, 0x09, 0xe8, 0x17, 0xde, 0xc0, 0x98, 0xc0, 0x0c, 0x9e, 0x5d, 0x25, 0x78,
]);

/// A core that is opened over the disk, by such a clock.
pub(crate) fn opened_over(
    rt: &impl Abort,
    alloc: Global,
    disk: TestDisk,
    clock: Clock,
) -> TestCore {
    let (moments, last) = clock;
    let clock = SetClock::new(must(rt, moments.to_vec(alloc)), last);
    let opened = open_on(alloc, disk, None::<MemoryDisk>, clock);
    must(rt, opened.ok().ok_or("not opened"))
}

/// The same over a disk that does not fail.
pub(crate) fn opened(rt: &impl Abort, alloc: Global, disk: MemoryDisk, clock: Clock) -> TestCore {
    let disk = FailingDisk::at_calls(disk, Vec::new(alloc));
    opened_over(rt, alloc, disk, clock)
}

pub(crate) fn kept(core: &TestCore) -> Kept {
    let book = &core.upkeep.book;
    let undated = core.upkeep.undated.len();
    (core.last, book.last(&ABC), book.last(&DE), undated)
}

/// What stands on its disk.
pub(crate) fn disk_of(core: TestCore) -> MemoryDisk {
    core.parts().disk.into_inner()
}
