//! Datastores, and the snapshots that are read of them. Checksums, digests and the bytes of indexes are made by `tests/make-tables`.

use crate::asserts::{must, same};
use crate::folders::{File as Stored, change, disk_of, numbered};
use disk_trait::{Disk, DiskError, FailingDisk, MemoryDisk};
use plain_snapshots::{Content, File, Snapshot, read_snapshots};
use sha2::{Digest, Sha256};
use std::alloc::Global;
use std::process::Abort;

pub(crate) const MANIFEST: &str = "host/a/2020-01-15T06:30:03Z/index.json.blob";

const FIXED: &str = "host/a/2020-01-15T06:30:03Z/root.fidx";

pub(crate) const DYNAMIC: &str = "host/a/2020-01-15T06:30:03Z/root.didx";

pub(crate) const BLOB: &str = "host/a/2020-01-15T06:30:03Z/set.blob";

/// The chunk of 4,096 zeros, and those of the other pieces.
const ZEROS: &str = ".chunks/ad7f/ad7facb2586fc6e966c004d7d1d16b024f5805ff7cb47c7a85dabd8b48892ca7";

const X: &str = ".chunks/2d71/2d711642b726b04401627ca9fbac32f5c8530fb1903cc4db02258717921a4881";

const ABC: &str = ".chunks/ba78/ba7816bf8f01cfea414140de5dae2223b00361a396177a9cb410ff61f20015ad";

const DE: &str = ".chunks/959a/959a45d44e6fcf58361ed004681556fe50129f2109e817dec098c00c9e5d2578";

/// The manifest of the second snapshot, which lists nothing.
pub(crate) const OTHER_BLOB: &[u8] =
    b"B\xab8\x07\xbe\x83p\xa1\xd8\x04\xd8h{\"backup-type\":\"host\",\"backup-id\":\"a-b\",\"backup-time\":1579069803,\"files\":[]}";

/// Two snapshots, whose names stand in another order than they: the first has the pieces `abc` and `de` as an archive, zeros and `x` as one of
/// pieces of 4,096 bytes, and a blob. Its manifest lists itself too.
static DATASTORE: [Stored; 9] = [
    (
        ZEROS,
        b"B\xab8\x07\xbe\x83p\xa1\x11\0\x1c\xc7",
        b"\0\0\0\0\0\0\0\0\0\0\0\0",
    ),
    (X, b"", b"B\xab8\x07\xbe\x83p\xa1\x83\x16\xdc\x8cx"),
    (ABC, b"", b"B\xab8\x07\xbe\x83p\xa1\xc2A$5abc"),
    (DE, b"", b"B\xab8\x07\xbe\x83p\xa1\x8b)\x90}de"),
    (
        FIXED,
        b"/\x7fA\xed\x91\xfd\x0f\xcd\x01\x01\x01\x01\x01\x01\x01\x01\x01\x01\x01\x01\x01\x01\x01\x01k\xb1\x1e^\0\0\0\0\xb4m{\xe83X\x83\x18\x1c\"<\xb2\xb7\xb9\xd7Hk\xf8-|\x8d\xa57\x05\xc4\xb2\xbb\x19e\xfeU\x7f\x01\x10\0\0\0\0\0\0\0\x10\0\0\0\0\0\0",
        b"\xad\x7f\xac\xb2Xo\xc6\xe9f\xc0\x04\xd7\xd1\xd1k\x02OX\x05\xff|\xb4|z\x85\xda\xbd\x8bH\x89,\xa7-q\x16B\xb7&\xb0D\x01b|\xa9\xfb\xac2\xf5\xc8S\x0f\xb1\x90<\xc4\xdb\x02%\x87\x17\x92\x1aH\x81",
    ),
    (
        DYNAMIC,
        b"\x1c\x91N\xa5\x19\xba\xb3\xcd\x02\x02\x02\x02\x02\x02\x02\x02\x02\x02\x02\x02\x02\x02\x02\x02\xff\xff\xff\xff\xff\xff\xff\xff\xdaFJ\xae=\x9fc\xd0o0\x87\x10\x06+]\xb4\x19\x96\xb1\xe3i\x90\xb9.\xcci4@\xe6f\x01Q",
        b"\x03\0\0\0\0\0\0\0\xbax\x16\xbf\x8f\x01\xcf\xeaAA@\xde]\xae\"#\xb0\x03a\xa3\x96\x17z\x9c\xb4\x10\xffa\xf2\0\x15\xad\x05\0\0\0\0\0\0\0\x95\x9aE\xd4No\xcfX6\x1e\xd0\x04h\x15V\xfeP\x12\x9f!\x09\xe8\x17\xde\xc0\x98\xc0\x0c\x9e]%x",
    ),
    (BLOB, b"", b"B\xab8\x07\xbe\x83p\xa1\xdc%\x14\xe6set"),
    (
        MANIFEST,
        b"",
        b"B\xab8\x07\xbe\x83p\xa1\xdf\xd0\xbf\xb3{\"backup-type\":\"host\",\"backup-id\":\"a\",\"backup-time\":1579069803,\"files\":[{\"filename\":\"set.blob\",\"size\":15,\"csum\":\"0000000000000000000000000000000000000000000000000000000000000000\"},{\"filename\":\"root.fidx\",\"size\":4097,\"csum\":\"0000000000000000000000000000000000000000000000000000000000000000\"},{\"filename\":\"index.json.blob\",\"size\":1,\"csum\":\"0000000000000000000000000000000000000000000000000000000000000000\"},{\"filename\":\"root.didx\",\"size\":5,\"csum\":\"0000000000000000000000000000000000000000000000000000000000000000\"}]}",
    ),
    (
        "host/a-b/2020-01-15T06:30:03Z/index.json.blob",
        b"",
        OTHER_BLOB,
    ),
];

pub(crate) fn datastore(rt: &impl Abort, alloc: Global) -> MemoryDisk {
    disk_of(rt, alloc, &DATASTORE)
}

/// A file: its name, and the lengths of its pieces, or of its blob behind a `:`.
fn show_file(rt: &impl Abort, alloc: Global, text: &mut Vec<u8>, file: &File) {
    must(rt, text.extend_from_slice(b" "));
    must(rt, text.extend_from_slice(file.name.as_slice()));
    match &file.content {
        Content::Archive(archive) => {
            for piece in &archive.pieces {
                let length = piece.as_slice().len();
                must(
                    rt,
                    text.extend_from_slice(numbered(rt, alloc, "/", length, "").as_bytes()),
                );
            }
        }
        Content::Blob(contents) => {
            let length = must(rt, contents.text(alloc)).len();
            must(
                rt,
                text.extend_from_slice(numbered(rt, alloc, ":", length, "").as_bytes()),
            );
        }
    }
}

/// The snapshots, one behind another: the key, and the files.
fn shown(rt: &impl Abort, alloc: Global, snapshots: &[Snapshot]) -> Vec<u8> {
    let mut text = Vec::new(alloc);
    for snapshot in snapshots {
        must(rt, text.extend_from_slice(b"["));
        must(
            rt,
            text.extend_from_slice(must(rt, snapshot.key.text(alloc)).as_slice()),
        );
        for file in &snapshot.files {
            show_file(rt, alloc, &mut text, file);
        }
        must(rt, text.extend_from_slice(b"]"));
    }
    text
}

/// A name, what stands there in place of what stood there, and what is read then.
type Case = (&'static str, Option<&'static [u8]>, &'static [u8]);

fn try_case(rt: &impl Abort, alloc: Global, case: &Case) {
    let (name, bytes, wanted) = case;
    let mut disk = datastore(rt, alloc);
    change(rt, &mut disk, alloc, name, *bytes);
    let (snapshots, _) = must(rt, read_snapshots(alloc, &mut disk));
    let text = shown(rt, alloc, &snapshots);
    same(rt, &text, wanted);
}

/// The second snapshot alone.
const OTHER_SHOWN: &[u8] = b"[host/a-b/2020-01-15T06:30:03Z index.json.blob:88]";

static CASES: [Case; 13] = [
    (
        "no/name",
        Some(b"x"),
        b"[host/a/2020-01-15T06:30:03Z index.json.blob:526 root.didx/3/2 root.fidx/4096/1 set.blob:15][host/a-b/2020-01-15T06:30:03Z index.json.blob:88]",
    ),
    (
        X,
        None,
        b"[host/a/2020-01-15T06:30:03Z index.json.blob:526 root.didx/3/2 root.fidx/4096/0 set.blob:15][host/a-b/2020-01-15T06:30:03Z index.json.blob:88]",
    ),
    (
        ZEROS,
        None,
        b"[host/a/2020-01-15T06:30:03Z index.json.blob:526 root.didx/3/2 root.fidx/0/1 set.blob:15][host/a-b/2020-01-15T06:30:03Z index.json.blob:88]",
    ),
    (
        ABC,
        None,
        b"[host/a/2020-01-15T06:30:03Z index.json.blob:526 root.didx/0/2 root.fidx/4096/1 set.blob:15][host/a-b/2020-01-15T06:30:03Z index.json.blob:88]",
    ),
    (
        X,
        Some(b"B\xab8\x07\xbe\x83p\xa1\x15&\xdb\xfby"),
        b"[host/a/2020-01-15T06:30:03Z index.json.blob:526 root.didx/3/2 root.fidx/4096/0 set.blob:15][host/a-b/2020-01-15T06:30:03Z index.json.blob:88]",
    ),
    (
        DE,
        Some(b"no blob"),
        b"[host/a/2020-01-15T06:30:03Z index.json.blob:526 root.didx/3/0 root.fidx/4096/1 set.blob:15][host/a-b/2020-01-15T06:30:03Z index.json.blob:88]",
    ),
    (
        FIXED,
        Some(b"no index"),
        b"[host/a/2020-01-15T06:30:03Z index.json.blob:526 root.didx/3/2 root.fidx set.blob:15][host/a-b/2020-01-15T06:30:03Z index.json.blob:88]",
    ),
    (
        DYNAMIC,
        Some(b"no index"),
        b"[host/a/2020-01-15T06:30:03Z index.json.blob:526 root.didx root.fidx/4096/1 set.blob:15][host/a-b/2020-01-15T06:30:03Z index.json.blob:88]",
    ),
    (
        BLOB,
        Some(b"no blob"),
        b"[host/a/2020-01-15T06:30:03Z index.json.blob:526 root.didx/3/2 root.fidx/4096/1 set.blob:12][host/a-b/2020-01-15T06:30:03Z index.json.blob:88]",
    ),
    (FIXED, None, OTHER_SHOWN),
    (BLOB, None, OTHER_SHOWN),
    (MANIFEST, None, OTHER_SHOWN),
    (MANIFEST, Some(b"no blob"), OTHER_SHOWN),
];

#[test]
fn what_is_read(rt: HostRuntime) {
    let alloc = rt.alloc();
    for case in &CASES {
        try_case(&rt, alloc, case);
    }
    let (none, _) = must(&rt, read_snapshots(alloc, &mut MemoryDisk::new(alloc)));
    same(&rt, &shown(&rt, alloc, &none), b"");
}

/// The text of a file is the bytes that were read, in which an archive's checksum stands. Each piece has its own digest.
fn try_file(rt: &impl Abort, alloc: Global, disk: &mut MemoryDisk, file: &File, path: &str) {
    let Some(bytes) = must(rt, disk.read(alloc, path)) else {
        panic!(rt; "nothing is there");
    };
    same(rt, &must(rt, file.content.text(alloc)), &bytes);
    if let Content::Archive(archive) = &file.content {
        let csum = must(rt, archive.csum(alloc));
        same(rt, bytes.get(32..64).unwrap_or(b""), &csum.0);
        for piece in &archive.pieces {
            same(rt, &piece.digest().0, &Sha256::digest(piece.as_slice()));
        }
    }
}

#[test]
fn texts_and_checksums_of_files(rt: HostRuntime) {
    let alloc = rt.alloc();
    let mut disk = datastore(&rt, alloc);
    let (snapshots, _) = must(&rt, read_snapshots(alloc, &mut disk));
    let [first, _] = snapshots.as_slice() else {
        panic!(rt; "not two snapshots");
    };
    let [manifest, dynamic, fixed, blob] = first.files.as_slice() else {
        panic!(rt; "not four files");
    };
    try_file(&rt, alloc, &mut disk, manifest, MANIFEST);
    try_file(&rt, alloc, &mut disk, dynamic, DYNAMIC);
    try_file(&rt, alloc, &mut disk, fixed, FIXED);
    try_file(&rt, alloc, &mut disk, blob, BLOB)
}

/// Where the call of the disk with this number fails: whether the reading fails by it, and how often the disk failed.
fn failed_at(rt: &impl Abort, alloc: Global, call: u64) -> [u8; 2] {
    let mut disk = FailingDisk::at_calls(datastore(rt, alloc), must(rt, [call].to_vec(alloc)));
    let failed = match read_snapshots(alloc, &mut disk) {
        Ok(_) => 0,
        Err(DiskError::Failed) => 1,
        Err(_) => 2,
    };
    [failed, disk.faults().min(9) as u8]
}

/// How many calls of the disk are made: the names are listed, and each is read.
const CALLS: u64 = 10;

/// Each call of the disk fails in turn.
#[test]
fn each_call_fails(rt: HostRuntime) {
    for call in 0..CALLS {
        same(&rt, &failed_at(&rt, rt.alloc(), call), &[1, 1]);
    }
    same(&rt, &failed_at(&rt, rt.alloc(), CALLS), &[0, 0]);
}
