//! Long archives and large files: sent, verified, and pulled from a remote, by which steps, and what then stands here.

use super::*;
use disk_trait::DiskError;

/// A BLOB of one data byte more than a blob may have, and a CHUNK of as many, each behind OPEN_WRITER: what stands in front of the zeros, how
/// many these are, and the replies.
pub static LARGE: [(&[u8], usize, &[u8]); 2] = [
    (
        b"\x1d\0\0\0\x0a\x1bhost/a/2020-01-15T06:30:03Z\x15\0\0\x01\x11\x06a.blobB\xab8\x07\xbe\x83p\xa1\0\0\0\0",
        16_777_217,
        b"\x02\0\0\0\0\0\x02\0\0\0\x0b\x06",
    ),
    (
        b"\x1d\0\0\0\x0a\x1bhost/a/2020-01-15T06:30:03Z-\0\0\x01\x0e\x08\x0a\xcf5\xa5\x07\xac\x98I\xcf\xcb\xa4}\xc2\xad\x83\xe0\x1buf:Qby\xc8\xb9\xd2C\xb7\x19d>B\xab8\x07\xbe\x83p\xa1J\xa1|\xa4",
        16_777_216,
        b"\x02\0\0\0\0\0\x01\0\0\0\0",
    ),
];

fn try_large(
    rt: &(impl Abort + Threads + Wait + Sync),
    alloc: Global,
    row: &(&[u8], usize, &[u8]),
) {
    let (front, zeros, replies) = row;
    let sent = must(rt, with_zeros(alloc, front, *zeros));
    let port = must(rt, port_of(alloc, &sent));
    let disk = MemoryDisk::new(alloc);
    let Ran { sink, served } = must(rt, session(rt, alloc, port, disk, None, standing(alloc)));
    same(rt, sink.as_bytes(), replies);
    let report = LaneReport {
        taken: sent.len() as u64,
        given: replies.len() as u64,
        ending: Ending::Clean,
    };
    assert_report(rt, &served, Status::Ok, report);
    assert_kinds(rt, alloc, &served, &[0, 0, 6])
}

pub fn with_zeros(alloc: Global, front: &[u8], zeros: usize) -> Result<Vec<u8>, AllocError> {
    let mut bytes = front.to_vec(alloc)?;
    let len = bytes.len().saturating_add(zeros);
    bytes.resize(len, 0)?;
    Ok(bytes)
}

#[test]
fn blobs_have_a_limit(rt: HostRuntime) {
    try_large(&rt, rt.alloc(), &LARGE[0])
}

#[test]
fn chunks_have_the_same_limit(rt: HostRuntime) {
    try_large(&rt, rt.alloc(), &LARGE[1])
}

/// VERIFY and SYNC of one snapshot: what is sent and told.
const VERIFY: &[u8] = b"\x1d\0\0\0\"\x1bhost/a/2020-01-15T06:30:03Z";

const TWO_FILES: &[u8] = b"\x13\0\0\0\0\x02\0\0\0\0\0\0\0\0\0\0\0\0\0\0\0\0\0";

pub const SYNC: &[u8] = b"\x08\0\0\0#\x06host/a";

const ONE_KEY: &[u8] = b"\x1f\0\0\0\0\x01\0\x1bhost/a/2020-01-15T06:30:03Z";

/// A blob of 4,194,304 bytes, which one read gives, and one of a byte more: its header, how many zeros are behind it, the snapshot's
/// manifest, how many entries the order of its VERIFY has, and the kinds of those of its SYNC: 1 for a read of the remote, 0 for each step on
/// the disk.
type Blob = (&'static [u8], usize, &'static [u8], u64, &'static [u8]);

static LARGE_BLOBS: [Blob; 2] = [
    (
        b"B\xab8\x07\xbe\x83p\xa1\xbc_\xec\x91",
        4_194_292,
        b"B\xab8\x07\xbe\x83p\xa1cw*\xb3{\"backup-id\":\"a\",\"backup-time\":1579069803,\"backup-type\":\"host\",\"files\":[{\"crypt-mode\":\"none\",\"csum\":\"648952b369e4c6ab40c681cfbf2b7ae92022c49c64a237e6d121767441634801\",\"filename\":\"a.blob\",\"size\":4194304}]}",
        6,
        &[1, 0, 0, 1, 1, 0, 0, 0, 6],
    ),
    (
        b"B\xab8\x07\xbe\x83p\xa1u\xfcD\x10",
        4_194_293,
        b"B\xab8\x07\xbe\x83p\xa1_RB\xc0{\"backup-id\":\"a\",\"backup-time\":1579069803,\"backup-type\":\"host\",\"files\":[{\"crypt-mode\":\"none\",\"csum\":\"92a82ad5f0780e40265483ac0d9841ea6f417f3f3af95f90874b4baf4c5055d7\",\"filename\":\"a.blob\",\"size\":4194305}]}",
        7,
        &[1, 0, 0, 1, 1, 1, 0, 0, 0, 6],
    ),
];

fn with_blob(rt: &impl Abort, alloc: Global, row: &Blob) -> MemoryDisk {
    let (header, zeros, manifest, _, _) = row;
    let mut disk = MemoryDisk::new(alloc);
    let file = must(rt, with_zeros(alloc, header, *zeros));
    must(
        rt,
        disk.put(alloc, "host/a/2020-01-15T06:30:03Z/a.blob", &file),
    );
    must(rt, disk.put(alloc, MANIFEST, manifest));
    disk
}

#[test]
fn files_are_read_in_parts(rt: HostRuntime) {
    let alloc = rt.alloc();
    for row in &LARGE_BLOBS {
        let port = must(&rt, port_of(alloc, VERIFY));
        let disk = with_blob(&rt, alloc, row);
        let Ran { sink, served } = must(
            &rt,
            session(&rt, alloc, port, disk, None, standing(alloc)),
        );
        same(&rt, sink.as_bytes(), TWO_FILES);
        let found = [u64::from(served.status.number()), served.order.len() as u64];
        same_numbers(&rt, &found, &[0, row.3]);
    }
}

/// Every file of the remote stands here, and no other, beside the books of touches.
fn same_files(rt: &impl Abort, alloc: Global, disk: &mut MemoryDisk, remote: &mut MemoryDisk) {
    let _ = must(rt, disk.remove(".chunks/book"));
    let _ = must(rt, remote.remove(".chunks/book"));
    let names = must(rt, remote.list(alloc, ""));
    same_numbers(
        rt,
        &[must(rt, disk.list(alloc, "")).len() as u64],
        &[names.len() as u64],
    );
    for name in &names {
        let here = must(rt, disk.read(alloc, name.as_str())).unwrap_or(Vec::new(alloc));
        let there = must(rt, remote.read(alloc, name.as_str())).unwrap_or(Vec::new(alloc));
        let is_same = here == there;
        same_numbers(
            rt,
            &[here.len() as u64, u64::from(is_same)],
            &[there.len() as u64, 1],
        );
    }
}

/// A SYNC on an empty datastore, with these kinds of entries. The remote stays as it was, and all of it is here then.
fn try_pull(
    rt: &(impl Abort + Threads + Wait + Sync),
    alloc: Global,
    remote: MemoryDisk,
    kinds: &[u8],
) {
    let steps = remote.steps().len() as u64;
    let port = must(rt, port_of(alloc, SYNC));
    let disk = MemoryDisk::new(alloc);
    let Ran { sink, served } = must(
        rt,
        session(rt, alloc, port, disk, Some(remote), standing(alloc)),
    );
    same(rt, sink.as_bytes(), ONE_KEY);
    same(rt, &[served.status.number()], &[0]);
    assert_kinds(rt, alloc, &served, kinds);
    let Served {
        mut disk,
        remote,
        ..
    } = served;
    let mut remote = must(rt, remote.ok_or("no remote"));
    same_numbers(rt, &[remote.steps().len() as u64], &[steps]);
    same_files(rt, alloc, &mut disk, &mut remote)
}

#[test]
fn large_files_are_pulled_in_parts(rt: HostRuntime) {
    let alloc = rt.alloc();
    for row in &LARGE_BLOBS {
        try_pull(&rt, alloc, with_blob(&rt, alloc, row), row.4);
    }
}

/// An archive of so many pieces `x`: its index up to its reserved bytes, the snapshot's manifest, and the kinds. There is an APPEND for
/// each 4,096 entries.
pub type Long = (u64, &'static [u8], &'static [u8], &'static [u8]);

pub static LONG_ARCHIVES: [Long; 3] = [
    (
        4096,
        b"\x1c\x91N\xa5\x19\xba\xb3\xcd<\xc0@h\x0e\xbcZ|\x83\xe3{\xd8\xa2\xf4F\xcd\0\x10^_\0\0\0\0\x17\xfb:fyPl\x1b\x0ey\x12\xfe;\xc7[\xfe\x9b\x98\xf8\xa2\xbd\xe6\xa6\xf3\xfcG\xb7\x81\xa2a\xa1\x0d",
        b"B\xab8\x07\xbe\x83p\xa1b\xff\"a{\"backup-id\":\"a\",\"backup-time\":1579069803,\"backup-type\":\"host\",\"files\":[{\"crypt-mode\":\"none\",\"csum\":\"17fb3a6679506c1b0e7912fe3bc75bfe9b98f8a2bde6a6f3fc47b781a261a10d\",\"filename\":\"root.didx\",\"size\":4096}]}",
        &[1, 0, 0, 1, 1, 0, 1, 0, 0, 0, 0, 0, 6],
    ),
    (
        4097,
        b"\x1c\x91N\xa5\x19\xba\xb3\xcd<\xc0@h\x0e\xbcZ|\x83\xe3{\xd8\xa2\xf4F\xcd\0\x10^_\0\0\0\0\xc2\\ \xc5\xf3M\x90\xe7\x8b\xfc\xaa\xf9\x1f\0\xbel/\xb0\x9c\xf7\xc9\x99\xb4\xc1+<B\x8cj\x1f\xe5?",
        b"B\xab8\x07\xbe\x83p\xa1\"\xe2n\xc2{\"backup-id\":\"a\",\"backup-time\":1579069803,\"backup-type\":\"host\",\"files\":[{\"crypt-mode\":\"none\",\"csum\":\"c25c20c5f34d90e78bfcaaf91f00be6c2fb09cf7c999b4c12b3c428c6a1fe53f\",\"filename\":\"root.didx\",\"size\":4097}]}",
        &[1, 0, 0, 1, 1, 0, 1, 0, 0, 0, 0, 0, 0, 6],
    ),
    (
        8193,
        b"\x1c\x91N\xa5\x19\xba\xb3\xcd<\xc0@h\x0e\xbcZ|\x83\xe3{\xd8\xa2\xf4F\xcd\0\x10^_\0\0\0\0\xbe\xf2\x98;\xc3g\x9d?\xeam\xae\x93n$S \x1f0\xbfz\xb3\xc2\xce>\x80\xcd\xfd4\x7f\xf8\x14\xe2",
        b"B\xab8\x07\xbe\x83p\xa1\xf0NL/{\"backup-id\":\"a\",\"backup-time\":1579069803,\"backup-type\":\"host\",\"files\":[{\"crypt-mode\":\"none\",\"csum\":\"bef2983bc3679d3fea6dae936e2453201f30bf7ab3c2ce3e80cdfd347ff814e2\",\"filename\":\"root.didx\",\"size\":8193}]}",
        &[1, 0, 0, 1, 1, 0, 1, 0, 0, 0, 0, 0, 0, 0, 6],
    ),
];

/// An index of so many pieces `x` behind its front.
fn long_index(alloc: Global, front: &[u8], count: u64) -> Result<Vec<u8>, AllocError> {
    let mut file = front.to_vec(alloc)?;
    file.resize(4096, 0)?;
    for place in 0..count {
        let end = place.saturating_add(1);
        file.extend_from_slice(&end.to_le_bytes())?;
        file.extend_from_slice(
            b"-q\x16B\xb7&\xb0D\x01b|\xa9\xfb\xac2\xf5\xc8S\x0f\xb1\x90<\xc4\xdb\x02%\x87\x17\x92\x1aH\x81",
        )?;
    }
    Ok(file)
}

/// A remote with this archive, and the chunk of `x`.
pub fn long_remote(alloc: Global, row: &Long) -> Result<MemoryDisk, DiskError> {
    let (count, front, manifest, _) = row;
    let mut remote = MemoryDisk::new(alloc);
    let index = long_index(alloc, front, *count)?;
    remote.put(
        alloc,
        ".chunks/2d71/2d711642b726b04401627ca9fbac32f5c8530fb1903cc4db02258717921a4881",
        b"B\xab8\x07\xbe\x83p\xa1\x83\x16\xdc\x8cx",
    )?;
    remote.put(alloc, "host/a/2020-01-15T06:30:03Z/root.didx", &index)?;
    remote.put(alloc, MANIFEST, manifest)?;
    Ok(remote)
}

#[test]
fn long_archives_are_appended_in_parts(rt: HostRuntime) {
    let alloc = rt.alloc();
    for row in &LONG_ARCHIVES {
        try_pull(&rt, alloc, must(&rt, long_remote(alloc, row)), row.3);
    }
}
