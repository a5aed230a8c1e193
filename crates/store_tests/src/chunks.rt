ghost use Rattle.std.specs.Prelude.{◌≡◌};
ghost use Rattle.sha2.specs.Sha256.{sha256};

use crate::asserts::{must, same, same_at};
use crate::fixtures::{ABC, NOTHING};
use chunk_store::{Chunk, ChunkName, LoadFault, insert, load, remove, scan};
use disk_trait::{Disk, DiskError, Failed, FailingDisk, MemoryDisk};
use sha2::{Digest, Sha256};
use std::alloc::Global;
use std::process::Abort;
use store_types::{ChunkFault, Digest32};

const ABC_CHUNK: &str =
    ".chunks/ba78/ba7816bf8f01cfea414140de5dae2223b00361a396177a9cb410ff61f20015ad";

/// The blob of `abc`.
const ABC_BLOB: &[u8] = b"\x42\xab\x38\x07\xbe\x83\x70\xa1\xc2\x41\x24\x35abc";

fn digest_of(piece: &[u8]) -> Digest32
    ensures { result.0 ≡ sha256 piece.now }
{
    Digest32(Sha256::digest(piece))
}

fn put(rt: &impl Abort, alloc: Global, disk: &mut MemoryDisk, piece: &[u8]) {
    assert!(rt; !piece.is_empty() && piece.len() <= 16_777_216);
    must(rt, insert(disk, alloc, &digest_of(piece), piece));
}

fn load_from(disk: &mut MemoryDisk, alloc: Global, digest: &Digest32) -> Result<Chunk, LoadFault> {
    load(disk, alloc, digest)
}

/// The chunk of `abc` is there.
fn try_abc(rt: &impl Abort, alloc: Global, disk: &mut MemoryDisk) {
    let chunk = must(rt, load_from(disk, alloc, &ABC));
    same(rt, chunk.piece(), b"abc".as_slice());
    same(rt, chunk.blob(), ABC_BLOB);
    same(rt, chunk.into_blob().as_slice(), ABC_BLOB);
}

fn remove_abc(rt: &impl Abort, disk: &mut MemoryDisk) -> bool {
    must(rt, remove(disk, &ABC))
}

#[test]
fn names_of_pieces(rt: HostRuntime) {
    same(&rt, digest_of(b"abc"), ABC);
    same(&rt, ChunkName::of(&ABC).as_str(), ABC_CHUNK);
}

/// Puts `abc`, which takes three steps the first time, and none where it is there.
fn put_abc(rt: &impl Abort, alloc: Global, disk: &mut MemoryDisk) {
    put(rt, alloc, disk, b"abc");
    same(rt, disk.steps().len(), 3);
}

fn try_kept(rt: &impl Abort, alloc: Global, disk: &mut MemoryDisk) {
    put_abc(rt, alloc, disk);
    put_abc(rt, alloc, disk);
    try_abc(rt, alloc, disk);
    same(rt, remove_abc(rt, disk), true);
    same(rt, remove_abc(rt, disk), false);
}

#[test]
fn pieces_are_kept(rt: HostRuntime) {
    try_kept(&rt, rt.alloc(), &mut MemoryDisk::new(rt.alloc()))
}

/// The blob of nothing.
const EMPTY: &[u8] = b"\x42\xab\x38\x07\xbe\x83\x70\xa1\0\0\0\0";

/// SHA-256 of `123456789`.
const DIGITS: Digest32 = Digest32([
    0x15, 0xe2, 0xb0, 0xd3, 0xc3, 0x38, 0x91, 0xeb, 0xb0, 0xf1, 0xef, 0x60, 0x9e, 0xc4, 0x19, 0x42,
    0x0c, 0x20, 0xe3, 0x20, 0xce, 0x94, 0xc6, 0x5f, 0xbc, 0x8c, 0x33, 0x12, 0x44, 0x8e, 0xb2, 0x25,
]);

/// A digest, what stands under the name of its chunk, and what is told of it.
static DAMAGE: [(Digest32, Option<&[u8]>, ChunkFault); 6] = [
    (ABC, None, ChunkFault::Nothing),
    (ABC, Some(b""), ChunkFault::NotABlob),
    (
        ABC,
        Some(b"\x42\xab\x38\x07\xbe\x83\x70\xa1\xc2\x41\x24\x35abd"),
        ChunkFault::NotABlob,
    ),
    (
        ABC,
        Some(b"\x42\xab\x38\x07\xbe\x83\x70\xa1\x26\x39\xf4\xcb123456789"),
        ChunkFault::Other(DIGITS),
    ),
    (ABC, Some(EMPTY), ChunkFault::Other(NOTHING)),
    // the blob of nothing is no chunk, not even under the digest of nothing
    (NOTHING, Some(EMPTY), ChunkFault::Other(NOTHING)),
];

fn try_damage(
    rt: &impl Abort,
    alloc: Global,
    digest: Digest32,
    text: Option<&[u8]>,
    found: ChunkFault,
) {
    let mut disk = MemoryDisk::new(alloc);
    if let Some(text) = text {
        must(rt, disk.put(alloc, ChunkName::of(&digest).as_str(), text));
    }
    let fault = load_from(&mut disk, alloc, &digest).err();
    let damaged = LoadFault::Damaged { digest, found };
    same_at(rt, text, fault, Some(damaged));
}

#[test]
fn damage_is_told(rt: HostRuntime) {
    for (digest, text, found) in &DAMAGE {
        try_damage(&rt, rt.alloc(), *digest, *text, *found);
    }
}

/// A file of one byte more than a blob has is damaged, and its size alone is asked.
#[test]
fn what_is_too_long_is_not_read(rt: HostRuntime) {
    let mut disk = MemoryDisk::new(rt.alloc());
    put_long(&rt, &mut disk, rt.alloc());
    let fault = load_from(&mut disk, rt.alloc(), &ABC).err();
    let damaged = LoadFault::Damaged {
        digest: ABC,
        found: ChunkFault::NotABlob,
    };
    same(&rt, fault, Some(damaged));
    same(&rt, disk.calls(), 2);
}

fn put_long(rt: &impl Abort, disk: &mut MemoryDisk, alloc: Global) {
    let mut text = Vec::new(alloc);
    must(rt, text.resize(16_777_229, 0));
    must(rt, disk.put(alloc, ABC_CHUNK, &text));
}

/// Names that are none of a chunk.
static NAMES: [&str; 6] = [
    ".chunks/book",
    ".chunks/ba78/ba7816bf8f01cfea414140de5dae2223b00361a396177a9cb410ff61f20015ad.tmp",
    ".chunks/BA78/BA7816BF8F01CFEA414140DE5DAE2223B00361A396177A9CB410FF61F20015AD",
    ".chunks/ba79/ba7816bf8f01cfea414140de5dae2223b00361a396177a9cb410ff61f20015ad",
    ".chunks/ba78/ba7816bf8f01cfea414140de5dae2223b00361a396177a9cb410ff61f20015a",
    "host/a/2020-01-15T06:30:03Z/index.json.blob",
];

fn put_names(rt: &impl Abort, disk: &mut MemoryDisk, alloc: Global) {
    for name in &NAMES {
        must(rt, disk.put(alloc, name, b""));
    }
}

fn digests_on(rt: &impl Abort, disk: &mut MemoryDisk, alloc: Global) -> Vec<Digest32> {
    must(rt, scan(disk, alloc))
}

fn put_three(rt: &impl Abort, disk: &mut MemoryDisk, alloc: Global) {
    put(rt, alloc, disk, b"abc");
    put(rt, alloc, disk, b"abd");
    must(rt, disk.put(alloc, ChunkName::of(&NOTHING).as_str(), b""));
}

fn try_listed(rt: &impl Abort, alloc: Global, disk: &mut MemoryDisk) {
    put_names(rt, disk, alloc);
    same(rt, digests_on(rt, disk, alloc).len(), 0);
    put_three(rt, disk, alloc);
    let digests = digests_on(rt, disk, alloc);
    let wanted = [digest_of(b"abd"), ABC, NOTHING];
    same(rt, digests.as_slice(), wanted.as_slice());
}

#[test]
fn names_of_the_form_are_listed(rt: HostRuntime) {
    try_listed(&rt, rt.alloc(), &mut MemoryDisk::new(rt.alloc()))
}

type Failing = FailingDisk<MemoryDisk>;

fn insert_abc(disk: &mut Failing, alloc: Global) -> Result<(), DiskError> {
    insert(disk, alloc, &digest_of(b"abc"), b"abc")
}

fn load_abc(disk: &mut Failing, alloc: Global) -> Result<Chunk, LoadFault> {
    load(disk, alloc, &ABC)
}

fn remove_failing(disk: &mut Failing) -> Result<bool, Failed> {
    remove(disk, &ABC)
}

fn scan_failing(disk: &mut Failing, alloc: Global) -> Result<Vec<Digest32>, DiskError> {
    scan(disk, alloc)
}

/// The second call of an insert fails.
fn try_inserts(rt: &impl Abort, alloc: Global, disk: &mut Failing) {
    same(rt, insert_abc(disk, alloc), Err(DiskError::Failed));
    same(rt, insert_abc(disk, alloc), Ok(()));
}

/// And the first of each other.
fn try_others(rt: &impl Abort, alloc: Global, disk: &mut Failing) {
    same(rt, load_abc(disk, alloc).err(), Some(LoadFault::Failed));
    same(rt, remove_failing(disk), Err(Failed));
    let scan_fault = scan_failing(disk, alloc).err();
    same(rt, scan_fault, Some(DiskError::Failed));
    same(rt, disk.faults(), 4);
}

fn try_load(rt: &impl Abort, alloc: Global, disk: &mut Failing) {
    let chunk = must(rt, load_abc(disk, alloc));
    same(rt, chunk.piece(), b"abc".as_slice());
}

#[test]
fn faults_are_told(rt: HostRuntime) {
    let alloc = rt.alloc();
    let plan = must(&rt, Vec::from_slice(alloc, &[1, 6, 7, 8]));
    let mut disk = FailingDisk::at_calls(MemoryDisk::new(alloc), plan);
    try_inserts(&rt, alloc, &mut disk);
    try_others(&rt, alloc, &mut disk);
    try_load(&rt, alloc, &mut disk)
}
