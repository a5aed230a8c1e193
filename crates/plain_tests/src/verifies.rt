//! A VERIFY step by step: an index whose chunks come in several batches, its first fault, and files that are too long.

use crate::asserts::{must, same};
use crate::steps::{Row, answer, report_of, started, try_rows};
use job_steps::Job;
use sha2::{Digest, Sha256};
use std::alloc::Global;
use std::process::Abort;
use std::thread::Threads;

/// VERIFY of the snapshot.
const VERIFY: &[u8] = b"\"\x1bhost/a/2020-01-15T06:30:03Z";

const DONE: &[u8] = b"\0";

/// Of `x`: its digest, and the reply that gives its blob.
const DIGEST: &[u8; 32] =
    b"-q\x16B\xb7&\xb0D\x01b|\xa9\xfb\xac2\xf5\xc8S\x0f\xb1\x90<\xc4\xdb\x02%\x87\x17\x92\x1aH\x81";

const BLOB: &[u8] = b"\0B\xab8\x07\xbe\x83p\xa1\x83\x16\xdc\x8cx";

/// Of so many zeros: their digest, and the front of the reply that gives their blob.
const MANY: u64 = 4_194_304;

const ZEROS_DIGEST: &[u8; 32] =
    b"\xbb\x9f\x8d\xf6\x14t\xd2^q\xfa\0r#\x18\xcd8s\x96\xca\x176`^\x12H\x82\x1c\xc0\xde=:\xf8";

const ZEROS_FRONT: &[u8] = b"\0B\xab8\x07\xbe\x83p\xa1j@G\x11";

/// Digests of none of the pieces; the refusals of a chunk that is damaged, and of one whose index can't be read any more.
const OTHER: &[u8; 32] = &[7; 32];

const DAMAGED: &[u8; 32] = &[8; 32];

const UNREADABLE: &[u8; 32] = &[9; 32];

const DAMAGED_TOLD: &[u8] =
    b"\x17\x08\x08\x08\x08\x08\x08\x08\x08\x08\x08\x08\x08\x08\x08\x08\x08\x08\x08\x08\x08\x08\x08\x08\x08\x08\x08\x08\x08\x08\x08\x08\x08\0\0\0\0\0\0\0\0\0\0\0\0\0\0\0\0\0\0\0\0\0\0\0\0\0\0\0\0\0\0\0\0\0";

const UNREADABLE_TOLD: &[u8] = b"\x18\x09root.didx";

/// What an index tells of the entry of a letter: its length, and its digest. An upper-case letter stands for a piece of many bytes. `x` is as
/// it should be, `l` has a byte more by the index and `s` one less, `o` has another digest, `d` is told as damaged, and at `u` the index can't
/// be read any more.
fn entry_of(letter: u8) -> (u64, &'static [u8; 32]) {
    let (length, digest) = if letter.is_ascii_uppercase() {
        (MANY, ZEROS_DIGEST)
    } else {
        (1, DIGEST)
    };
    match letter.to_ascii_lowercase() {
        b'l' => (length.saturating_add(1), digest),
        b's' => (length.saturating_sub(1), digest),
        b'o' => (length, OTHER),
        b'd' => (length, DAMAGED),
        b'u' => (length, UNREADABLE),
        _ => (length, digest),
    }
}

/// The reply to its read.
fn reply_to(rt: &impl Abort, alloc: Global, letter: u8) -> Vec<u8> {
    match letter {
        b'd' | b'D' => must(rt, DAMAGED_TOLD.to_vec(alloc)),
        b'u' => must(rt, UNREADABLE_TOLD.to_vec(alloc)),
        b'a'..=b'z' => must(rt, BLOB.to_vec(alloc)),
        _ => {
            let mut reply = must(rt, ZEROS_FRONT.to_vec(alloc));
            must(rt, reply.resize(4_194_317, 0));
            reply
        }
    }
}

/// Entries of an index: so many of a letter, and of the next.
type Runs = &'static [(u16, u8)];

/// The entries' bytes, and where the last ends.
fn entries_of(rt: &impl Abort, alloc: Global, runs: &[(u16, u8)]) -> (Vec<u8>, u64) {
    let mut entries = Vec::new(alloc);
    let mut end: u64 = 0;
    for (count, letter) in runs {
        let (length, digest) = entry_of(*letter);
        for _ in 0..*count {
            end = end.saturating_add(length);
            must(rt, entries.extend_from_slice(&end.to_le_bytes()));
            must(rt, entries.extend_from_slice(digest));
        }
    }
    (entries, end)
}

/// The reply of FILES that lists the index alone.
fn listed(rt: &impl Abort, alloc: Global, size: u64, csum: &[u8]) -> Vec<u8> {
    let mut body = must(rt, b"\0\x01\x09root.didx".to_vec(alloc));
    must(rt, body.extend_from_slice(&size.to_le_bytes()));
    must(rt, body.extend_from_slice(csum));
    body
}

/// The index with these entries.
fn index_of(rt: &impl Abort, alloc: Global, entries: &[u8], csum: &[u8]) -> Vec<u8> {
    let mut index = must(rt, b"\x1c\x91N\xa5\x19\xba\xb3\xcd".to_vec(alloc));
    must(rt, index.extend_from_slice(&[0; 24]));
    must(rt, index.extend_from_slice(csum));
    must(rt, index.resize(4096, 0));
    must(rt, index.extend_from_slice(entries));
    index
}

/// The reply to the read of a part, of a file of so many bytes.
fn part_of(rt: &impl Abort, alloc: Global, total: usize, part: &[u8]) -> Vec<u8> {
    let mut body = must(rt, DONE.to_vec(alloc));
    must(rt, body.extend_from_slice(&total.to_le_bytes()));
    must(rt, body.extend_from_slice(part));
    body
}

/// Answers the reads of the index in two parts.
fn answer_parts(rt: &(impl Abort + Threads + Sync), alloc: Global, job: &mut Job, index: &[u8]) {
    let (first, second) = index.split_at(index.len() / 2);
    answer(rt, alloc, job, &part_of(rt, alloc, index.len(), first));
    answer(rt, alloc, job, &part_of(rt, alloc, index.len(), second));
}

/// Answers the reads of the chunks, up to one by which the index can't be read any more.
fn answer_chunks(
    rt: &(impl Abort + Threads + Sync),
    alloc: Global,
    job: &mut Job,
    runs: &[(u16, u8)],
) {
    for (count, letter) in runs {
        let reply = reply_to(rt, alloc, *letter);
        for _ in 0..*count {
            answer(rt, alloc, job, &reply);
        }
        if *letter == b'u' {
            break;
        }
    }
}

/// Answers all steps of the job: a reader, the files, the index, the chunks, and the reader's close.
fn answer_all(
    rt: &(impl Abort + Threads + Sync),
    alloc: Global,
    job: &mut Job,
    runs: &[(u16, u8)],
) {
    let (entries, size) = entries_of(rt, alloc, runs);
    let csum = Sha256::digest(&entries);
    answer(rt, alloc, job, DONE);
    answer(rt, alloc, job, &listed(rt, alloc, size, &csum));
    answer_parts(rt, alloc, job, &index_of(rt, alloc, &entries, &csum));
    answer_chunks(rt, alloc, job, runs);
    answer(rt, alloc, job, DONE);
}

/// What is reported of a snapshot of one index.
type Long = (Runs, &'static [u8]);

fn try_long(rt: &(impl Abort + Threads + Sync), alloc: Global, row: &Long) {
    let (runs, wanted) = row;
    let mut job = started(rt, alloc, VERIFY);
    answer_all(rt, alloc, &mut job, runs);
    same(rt, &report_of(rt, alloc, job), wanted);
}

fn try_all_long(rt: &(impl Abort + Threads + Sync), alloc: Global, rows: &[Long]) {
    for row in rows {
        try_long(rt, alloc, row);
    }
}

/// The last of a batch, the first of the next, and the last of all; the last of a batch before one that is damaged, and longer than the index
/// gives it before one that has another digest.
static BATCHES: [Long; 7] = [
    (
        &[(4096, b'x')],
        b"\x13\0\0\0\0\x01\0\x10\0\0\0\0\0\0\0\x10\0\0\0\0\0\0\0",
    ),
    (
        &[(4097, b'x')],
        b"\x13\0\0\0\0\x01\x01\x10\0\0\0\0\0\0\x01\x10\0\0\0\0\0\0\0",
    ),
    (
        &[(4095, b'x'), (1, b'o'), (2, b'x')],
        b">\0\0\0\0\x01\x02\x10\0\0\0\0\0\0\x02\x10\0\0\0\0\0\0\x01\x09root.didx\x17\x07\x07\x07\x07\x07\x07\x07\x07\x07\x07\x07\x07\x07\x07\x07\x07\x07\x07\x07\x07\x07\x07\x07\x07\x07\x07\x07\x07\x07\x07\x07\x07",
    ),
    (
        &[(4096, b'x'), (1, b'o'), (1, b'x')],
        b">\0\0\0\0\x01\x02\x10\0\0\0\0\0\0\x02\x10\0\0\0\0\0\0\x01\x09root.didx\x17\x07\x07\x07\x07\x07\x07\x07\x07\x07\x07\x07\x07\x07\x07\x07\x07\x07\x07\x07\x07\x07\x07\x07\x07\x07\x07\x07\x07\x07\x07\x07\x07",
    ),
    (
        &[(4097, b'x'), (1, b'o')],
        b">\0\0\0\0\x01\x02\x10\0\0\0\0\0\0\x02\x10\0\0\0\0\0\0\x01\x09root.didx\x17\x07\x07\x07\x07\x07\x07\x07\x07\x07\x07\x07\x07\x07\x07\x07\x07\x07\x07\x07\x07\x07\x07\x07\x07\x07\x07\x07\x07\x07\x07\x07\x07",
    ),
    (
        &[(4095, b'x'), (1, b'o'), (1, b'd'), (1, b'x')],
        b">\0\0\0\0\x01\x02\x10\0\0\0\0\0\0\x02\x10\0\0\0\0\0\0\x01\x09root.didx\x17\x07\x07\x07\x07\x07\x07\x07\x07\x07\x07\x07\x07\x07\x07\x07\x07\x07\x07\x07\x07\x07\x07\x07\x07\x07\x07\x07\x07\x07\x07\x07\x07",
    ),
    (
        &[(4095, b'x'), (1, b'l'), (1, b'o'), (1, b'x')],
        b">\0\0\0\0\x01\x02\x10\0\0\0\0\0\0\x03\x10\0\0\0\0\0\0\x01\x09root.didx\x17-q\x16B\xb7&\xb0D\x01b|\xa9\xfb\xac2\xf5\xc8S\x0f\xb1\x90<\xc4\xdb\x02%\x87\x17\x92\x1aH\x81",
    ),
];

/// Of few chunks: one that waits comes before one that is damaged. Sixteen of 4 MiB are a batch, by what the index tells.
static FAULTS: [Long; 6] = [
    (
        &[(1, b'x')],
        b"\x13\0\0\0\0\x01\x01\0\0\0\0\0\0\0\x01\0\0\0\0\0\0\0\0",
    ),
    (
        &[(10, b'x'), (1, b'o'), (9, b'x'), (1, b'd'), (9, b'x')],
        b">\0\0\0\0\x01\x1e\0\0\0\0\0\0\0\x1e\0\0\0\0\0\0\0\x01\x09root.didx\x17\x07\x07\x07\x07\x07\x07\x07\x07\x07\x07\x07\x07\x07\x07\x07\x07\x07\x07\x07\x07\x07\x07\x07\x07\x07\x07\x07\x07\x07\x07\x07\x07",
    ),
    (
        &[(10, b'x'), (1, b'd'), (9, b'x'), (1, b'o'), (9, b'x')],
        b">\0\0\0\0\x01\x1e\0\0\0\0\0\0\0\x1e\0\0\0\0\0\0\0\x01\x09root.didx\x17\x08\x08\x08\x08\x08\x08\x08\x08\x08\x08\x08\x08\x08\x08\x08\x08\x08\x08\x08\x08\x08\x08\x08\x08\x08\x08\x08\x08\x08\x08\x08\x08",
    ),
    (
        &[(10, b'x'), (1, b'o'), (9, b'x'), (1, b'u'), (9, b'x')],
        b">\0\0\0\0\x01\x1e\0\0\0\0\0\0\0\x1e\0\0\0\0\0\0\0\x01\x09root.didx\x17\x07\x07\x07\x07\x07\x07\x07\x07\x07\x07\x07\x07\x07\x07\x07\x07\x07\x07\x07\x07\x07\x07\x07\x07\x07\x07\x07\x07\x07\x07\x07\x07",
    ),
    (
        &[(20, b'x'), (1, b'u'), (9, b'x')],
        b">\0\0\0\0\x01\x1e\0\0\0\0\0\0\0\x1e\0\0\0\0\0\0\0\x01\x09root.didx\x18\0\0\0\0\0\0\0\0\0\0\0\0\0\0\0\0\0\0\0\0\0\0\0\0\0\0\0\0\0\0\0\0",
    ),
    (
        &[(15, b'X'), (1, b'O'), (1, b'D')],
        b">\0\0\0\0\x01\x11\0\0\0\0\0\0\0\0\0@\x04\0\0\0\0\x01\x09root.didx\x17\x07\x07\x07\x07\x07\x07\x07\x07\x07\x07\x07\x07\x07\x07\x07\x07\x07\x07\x07\x07\x07\x07\x07\x07\x07\x07\x07\x07\x07\x07\x07\x07",
    ),
];

/// Of chunks that have another length than the index gives them.
static LENGTHS: [Long; 6] = [
    (
        &[(1, b'l'), (29, b'x')],
        b">\0\0\0\0\x01\x1e\0\0\0\0\0\0\0\x1f\0\0\0\0\0\0\0\x01\x09root.didx\x17-q\x16B\xb7&\xb0D\x01b|\xa9\xfb\xac2\xf5\xc8S\x0f\xb1\x90<\xc4\xdb\x02%\x87\x17\x92\x1aH\x81",
    ),
    (
        &[(29, b'x'), (1, b'l')],
        b">\0\0\0\0\x01\x1e\0\0\0\0\0\0\0\x1f\0\0\0\0\0\0\0\x01\x09root.didx\x17-q\x16B\xb7&\xb0D\x01b|\xa9\xfb\xac2\xf5\xc8S\x0f\xb1\x90<\xc4\xdb\x02%\x87\x17\x92\x1aH\x81",
    ),
    (
        &[(10, b'x'), (1, b'o'), (9, b'x'), (1, b'l'), (9, b'x')],
        b">\0\0\0\0\x01\x1e\0\0\0\0\0\0\0\x1f\0\0\0\0\0\0\0\x01\x09root.didx\x17\x07\x07\x07\x07\x07\x07\x07\x07\x07\x07\x07\x07\x07\x07\x07\x07\x07\x07\x07\x07\x07\x07\x07\x07\x07\x07\x07\x07\x07\x07\x07\x07",
    ),
    (
        &[(10, b'x'), (1, b'l'), (9, b'x'), (1, b'd'), (9, b'x')],
        b">\0\0\0\0\x01\x1e\0\0\0\0\0\0\0\x1f\0\0\0\0\0\0\0\x01\x09root.didx\x17-q\x16B\xb7&\xb0D\x01b|\xa9\xfb\xac2\xf5\xc8S\x0f\xb1\x90<\xc4\xdb\x02%\x87\x17\x92\x1aH\x81",
    ),
    (
        &[(1, b'L')],
        b">\0\0\0\0\x01\x01\0\0\0\0\0\0\0\x01\0@\0\0\0\0\0\x01\x09root.didx\x17\xbb\x9f\x8d\xf6\x14t\xd2^q\xfa\0r#\x18\xcd8s\x96\xca\x176`^\x12H\x82\x1c\xc0\xde=:\xf8",
    ),
    (
        &[(1, b'S')],
        b">\0\0\0\0\x01\x01\0\0\0\0\0\0\0\xff\xff?\0\0\0\0\0\x01\x09root.didx\x17\xbb\x9f\x8d\xf6\x14t\xd2^q\xfa\0r#\x18\xcd8s\x96\xca\x176`^\x12H\x82\x1c\xc0\xde=:\xf8",
    ),
];

#[test]
fn the_first_fault_is_told(rt: HostRuntime) {
    try_all_long(&rt, rt.alloc(), &FAULTS)
}

#[test]
fn lengths_are_compared(rt: HostRuntime) {
    try_all_long(&rt, rt.alloc(), &LENGTHS)
}

#[test]
fn batches_tell_the_first_fault(rt: HostRuntime) {
    try_all_long(&rt, rt.alloc(), &BATCHES)
}

/// A file that has more bytes by its first part than its kind may have, or a blob one more than is listed, is not read on.
static TOO_LONG: [Row; 6] = [
    (
        VERIFY,
        &[
            DONE,
            b"\0\x01\x09root.fidx\x01\x10\0\x02\0\0\0\0\0\0\0\0\0\0\0\0\0\0\0\0\0\0\0\0\0\0\0\0\0\0\0\0\0\0\0\0\0\0\0\0",
            b"\0\x01\x10\0\x02\0\0\0\0x",
            DONE,
        ],
        b"\x1d\0\0\0\x14\x1bhost/a/2020-01-15T06:30:03Z\x1d\0\0\0\x1f\x1bhost/a/2020-01-15T06:30:03Z\x13\0\0\0\x15\x09root.fidx\0\0\0\0\0\0\0\0\x01\0\0\0\x18>\0\0\0\0\x01\0\0\0\0\0\0\0\0\0\0\0\0\0\0\0\0\x01\x09root.fidx\x18\0\0\0\0\0\0\0\0\0\0\0\0\0\0\0\0\0\0\0\0\0\0\0\0\0\0\0\0\0\0\0\0",
    ),
    (
        VERIFY,
        &[
            DONE,
            b"\0\x01\x09root.didx\x01\x10\x80\x02\0\0\0\0\0\0\0\0\0\0\0\0\0\0\0\0\0\0\0\0\0\0\0\0\0\0\0\0\0\0\0\0\0\0\0\0",
            b"\0\x01\x10\x80\x02\0\0\0\0x",
            DONE,
        ],
        b"\x1d\0\0\0\x14\x1bhost/a/2020-01-15T06:30:03Z\x1d\0\0\0\x1f\x1bhost/a/2020-01-15T06:30:03Z\x13\0\0\0\x15\x09root.didx\0\0\0\0\0\0\0\0\x01\0\0\0\x18>\0\0\0\0\x01\0\0\0\0\0\0\0\0\0\0\0\0\0\0\0\0\x01\x09root.didx\x18\0\0\0\0\0\0\0\0\0\0\0\0\0\0\0\0\0\0\0\0\0\0\0\0\0\0\0\0\0\0\0\0",
    ),
    (
        VERIFY,
        &[
            DONE,
            b"\0\x01\x09root.didx\x05\0\0\0\0\0\0\0\0\0\0\0\0\0\0\0\0\0\0\0\0\0\0\0\0\0\0\0\0\0\0\0\0\0\0\0\0\0\0\0",
            b"\0\x01\x10\x80\x02\0\0\0\0x",
            DONE,
        ],
        b"\x1d\0\0\0\x14\x1bhost/a/2020-01-15T06:30:03Z\x1d\0\0\0\x1f\x1bhost/a/2020-01-15T06:30:03Z\x13\0\0\0\x15\x09root.didx\0\0\0\0\0\0\0\0\x01\0\0\0\x18>\0\0\0\0\x01\0\0\0\0\0\0\0\0\0\0\0\0\0\0\0\0\x01\x09root.didx\x18\0\0\0\0\0\0\0\0\0\0\0\0\0\0\0\0\0\0\0\0\0\0\0\0\0\0\0\0\0\0\0\0",
    ),
    (
        VERIFY,
        &[
            DONE,
            b"\0\x01\x06a.blob\x0d\0\0\x01\0\0\0\0\0\0\0\0\0\0\0\0\0\0\0\0\0\0\0\0\0\0\0\0\0\0\0\0\0\0\0\0\0\0\0\0",
            b"\0\x0d\0\0\x01\0\0\0\0x",
            DONE,
        ],
        b"\x1d\0\0\0\x14\x1bhost/a/2020-01-15T06:30:03Z\x1d\0\0\0\x1f\x1bhost/a/2020-01-15T06:30:03Z\x10\0\0\0\x15\x06a.blob\0\0\0\0\0\0\0\0\x01\0\0\0\x18;\0\0\0\0\x01\0\0\0\0\0\0\0\0\0\0\0\0\0\0\0\0\x01\x06a.blob\x18\0\0\0\0\0\0\0\0\0\0\0\0\0\0\0\0\0\0\0\0\0\0\0\0\0\0\0\0\0\0\0\0",
    ),
    (
        VERIFY,
        &[
            DONE,
            b"\0\x01\x06a.blob\x0c\0\0\x01\0\0\0\0\0\0\0\0\0\0\0\0\0\0\0\0\0\0\0\0\0\0\0\0\0\0\0\0\0\0\0\0\0\0\0\0",
            b"\0\x0d\0\0\x01\0\0\0\0x",
            DONE,
        ],
        b"\x1d\0\0\0\x14\x1bhost/a/2020-01-15T06:30:03Z\x1d\0\0\0\x1f\x1bhost/a/2020-01-15T06:30:03Z\x10\0\0\0\x15\x06a.blob\0\0\0\0\0\0\0\0\x01\0\0\0\x18;\0\0\0\0\x01\0\0\0\0\0\0\0\0\0\0\0\0\0\0\0\0\x01\x06a.blob\x13\0\0\0\0\0\0\0\0\0\0\0\0\0\0\0\0\0\0\0\0\0\0\0\0\0\0\0\0\0\0\0\0",
    ),
    (
        VERIFY,
        &[
            DONE,
            b"\0\x01\x0findex.json.blobV\0\0\0\0\0\0\0\0\0\0\0\0\0\0\0\0\0\0\0\0\0\0\0\0\0\0\0\0\0\0\0\0\0\0\0\0\0\0\0",
            b"\0\xff\xff\xff\xff\xff\xff\xff\xffx",
            DONE,
        ],
        b"\x1d\0\0\0\x14\x1bhost/a/2020-01-15T06:30:03Z\x1d\0\0\0\x1f\x1bhost/a/2020-01-15T06:30:03Z\x19\0\0\0\x15\x0findex.json.blob\0\0\0\0\0\0\0\0\x01\0\0\0\x18D\0\0\0\0\x01\0\0\0\0\0\0\0\0\0\0\0\0\0\0\0\0\x01\x0findex.json.blob\x13\0\0\0\0\0\0\0\0\0\0\0\0\0\0\0\0\0\0\0\0\0\0\0\0\0\0\0\0\0\0\0\0",
    ),
];

#[test]
fn what_is_too_long_is_not_read_on(rt: HostRuntime) {
    try_rows(&rt, rt.alloc(), &TOO_LONG)
}

/// The most bytes that a file of each kind has: it is read on.
static LONGEST: [Row; 4] = [
    (
        VERIFY,
        &[
            DONE,
            b"\0\x01\x09root.fidx\0\x10\0\x02\0\0\0\0\0\0\0\0\0\0\0\0\0\0\0\0\0\0\0\0\0\0\0\0\0\0\0\0\0\0\0\0\0\0\0\0",
            b"\0\0\x10\0\x02\0\0\0\0x",
            b"\x18\x09root.fidx",
            DONE,
        ],
        b"\x1d\0\0\0\x14\x1bhost/a/2020-01-15T06:30:03Z\x1d\0\0\0\x1f\x1bhost/a/2020-01-15T06:30:03Z\x13\0\0\0\x15\x09root.fidx\0\0\0\0\0\0\0\0\x13\0\0\0\x15\x09root.fidx\x01\0\0\0\0\0\0\0\x01\0\0\0\x18>\0\0\0\0\x01\0\0\0\0\0\0\0\0\0\0\0\0\0\0\0\0\x01\x09root.fidx\x18\0\0\0\0\0\0\0\0\0\0\0\0\0\0\0\0\0\0\0\0\0\0\0\0\0\0\0\0\0\0\0\0",
    ),
    (
        VERIFY,
        &[
            DONE,
            b"\0\x01\x09root.didx\0\x10\x80\x02\0\0\0\0\0\0\0\0\0\0\0\0\0\0\0\0\0\0\0\0\0\0\0\0\0\0\0\0\0\0\0\0\0\0\0\0",
            b"\0\0\x10\x80\x02\0\0\0\0x",
            b"\x18\x09root.didx",
            DONE,
        ],
        b"\x1d\0\0\0\x14\x1bhost/a/2020-01-15T06:30:03Z\x1d\0\0\0\x1f\x1bhost/a/2020-01-15T06:30:03Z\x13\0\0\0\x15\x09root.didx\0\0\0\0\0\0\0\0\x13\0\0\0\x15\x09root.didx\x01\0\0\0\0\0\0\0\x01\0\0\0\x18>\0\0\0\0\x01\0\0\0\0\0\0\0\0\0\0\0\0\0\0\0\0\x01\x09root.didx\x18\0\0\0\0\0\0\0\0\0\0\0\0\0\0\0\0\0\0\0\0\0\0\0\0\0\0\0\0\0\0\0\0",
    ),
    (
        VERIFY,
        &[
            DONE,
            b"\0\x01\x06a.blob\x0c\0\0\x01\0\0\0\0\0\0\0\0\0\0\0\0\0\0\0\0\0\0\0\0\0\0\0\0\0\0\0\0\0\0\0\0\0\0\0\0",
            b"\0\x0c\0\0\x01\0\0\0\0x",
            b"\x18\x06a.blob",
            DONE,
        ],
        b"\x1d\0\0\0\x14\x1bhost/a/2020-01-15T06:30:03Z\x1d\0\0\0\x1f\x1bhost/a/2020-01-15T06:30:03Z\x10\0\0\0\x15\x06a.blob\0\0\0\0\0\0\0\0\x10\0\0\0\x15\x06a.blob\x01\0\0\0\0\0\0\0\x01\0\0\0\x18;\0\0\0\0\x01\0\0\0\0\0\0\0\0\0\0\0\0\0\0\0\0\x01\x06a.blob\x18\0\0\0\0\0\0\0\0\0\0\0\0\0\0\0\0\0\0\0\0\0\0\0\0\0\0\0\0\0\0\0\0",
    ),
    (
        VERIFY,
        &[
            DONE,
            b"\0\x01\x0findex.json.blob\x0c\0\0\x01\0\0\0\0\0\0\0\0\0\0\0\0\0\0\0\0\0\0\0\0\0\0\0\0\0\0\0\0\0\0\0\0\0\0\0\0",
            b"\0\x0c\0\0\x01\0\0\0\0x",
            b"\x18\x0findex.json.blob",
            DONE,
        ],
        b"\x1d\0\0\0\x14\x1bhost/a/2020-01-15T06:30:03Z\x1d\0\0\0\x1f\x1bhost/a/2020-01-15T06:30:03Z\x19\0\0\0\x15\x0findex.json.blob\0\0\0\0\0\0\0\0\x19\0\0\0\x15\x0findex.json.blob\x01\0\0\0\0\0\0\0\x01\0\0\0\x18D\0\0\0\0\x01\0\0\0\0\0\0\0\0\0\0\0\0\0\0\0\0\x01\x0findex.json.blob\x18\0\0\0\0\0\0\0\0\0\0\0\0\0\0\0\0\0\0\0\0\0\0\0\0\0\0\0\0\0\0\0\0",
    ),
];

#[test]
fn what_may_be_as_long_is_read_on(rt: HostRuntime) {
    try_rows(&rt, rt.alloc(), &LONGEST)
}

/// A file that is gone, or a manifest that is none, is a fault; and what is reported where a step is refused: behind the close of the reader,
/// which comes again where memory is wanting for it, but at once where the disk failed.
static ENDED: [Row; 7] = [
    (
        VERIFY,
        &[
            DONE,
            b"\0\x02\x0ba.conf.blob\x15\0\0\0\0\0\0\0i\xdc\xb4\x83\x0c( <&\xa1\xda\xde-\x89=\x7f\x1d\x13\xcd\xba^\xb3\x9e4\x8b\0\x8f:Z\x0f\xb6\x88\x0findex.json.blobV\0\0\0\0\0\0\0\xc1j.\x19\xd5R\x1a\xca\xf0\x88\xf4=\x8do\x0b\xa1\x15\x198\xc1]X\x98\xda\xe2Gt$tAN\xa2",
            b"\x18'host/a/2020-01-15T06:30:03Z/a.conf.blob",
            b"\0V\0\0\0\0\0\0\0B\xab8\x07\xbe\x83p\xa1\xb2\x94\x08E{\"backup-id\":\"a\",\"backup-time\":1579069803,\"backup-type\":\"host\",\"files\":[]}",
            DONE,
        ],
        b"\x1d\0\0\0\x14\x1bhost/a/2020-01-15T06:30:03Z\x1d\0\0\0\x1f\x1bhost/a/2020-01-15T06:30:03Z\x15\0\0\0\x15\x0ba.conf.blob\0\0\0\0\0\0\0\0\x19\0\0\0\x15\x0findex.json.blob\0\0\0\0\0\0\0\0\x01\0\0\0\x18@\0\0\0\0\x02\0\0\0\0\0\0\0\0\0\0\0\0\0\0\0\0\x01\x0ba.conf.blob\x18\0\0\0\0\0\0\0\0\0\0\0\0\0\0\0\0\0\0\0\0\0\0\0\0\0\0\0\0\0\0\0\0",
    ),
    (
        VERIFY,
        &[
            DONE,
            b"\0\x01\x0findex.json.blob\x0e\0\0\0\0\0\0\0\x13\xa9p<{{\x99t\x1d\x85\xa2m\xc0\x8a\xbcv\x17\xb9x\xcf\xe6\x01\x9f\xcc<g\x89<\xd2\xb5\x02\xc7",
            b"\0\x0e\0\0\0\0\0\0\0B\xab8\x07\xbe\x83p\xa1)\xbbL\x0d[]",
            DONE,
        ],
        b"\x1d\0\0\0\x14\x1bhost/a/2020-01-15T06:30:03Z\x1d\0\0\0\x1f\x1bhost/a/2020-01-15T06:30:03Z\x19\0\0\0\x15\x0findex.json.blob\0\0\0\0\0\0\0\0\x01\0\0\0\x18D\0\0\0\0\x01\0\0\0\0\0\0\0\0\0\0\0\0\0\0\0\0\x01\x0findex.json.blob\x18\0\0\0\0\0\0\0\0\0\0\0\0\0\0\0\0\0\0\0\0\0\0\0\0\0\0\0\0\0\0\0\0",
    ),
    (
        VERIFY,
        &[DONE, b"\x08", DONE],
        b"\x1d\0\0\0\x14\x1bhost/a/2020-01-15T06:30:03Z\x1d\0\0\0\x1f\x1bhost/a/2020-01-15T06:30:03Z\x01\0\0\0\x18\x01\0\0\0\x08",
    ),
    (
        VERIFY,
        &[DONE, b"\x1b\x07\0\0\0\0\0\0\0"],
        b"\x1d\0\0\0\x14\x1bhost/a/2020-01-15T06:30:03Z\x1d\0\0\0\x1f\x1bhost/a/2020-01-15T06:30:03Z\x09\0\0\0\x1b\x07\0\0\0\0\0\0\0",
    ),
    (
        VERIFY,
        &[DONE, b"\0\0", b"\x1b\x07\0\0\0\0\0\0\0"],
        b"\x1d\0\0\0\x14\x1bhost/a/2020-01-15T06:30:03Z\x1d\0\0\0\x1f\x1bhost/a/2020-01-15T06:30:03Z\x01\0\0\0\x18\x09\0\0\0\x1b\x07\0\0\0\0\0\0\0",
    ),
    (
        VERIFY,
        &[DONE, b"\0\0", b"\x1c", DONE],
        b"\x1d\0\0\0\x14\x1bhost/a/2020-01-15T06:30:03Z\x1d\0\0\0\x1f\x1bhost/a/2020-01-15T06:30:03Z\x01\0\0\0\x18\x01\0\0\0\x18\x01\0\0\0\x1c",
    ),
    (
        VERIFY,
        &[DONE, b"\x08", b"\x1c", DONE],
        b"\x1d\0\0\0\x14\x1bhost/a/2020-01-15T06:30:03Z\x1d\0\0\0\x1f\x1bhost/a/2020-01-15T06:30:03Z\x01\0\0\0\x18\x01\0\0\0\x18\x01\0\0\0\x08",
    ),
];

#[test]
fn a_refused_step_is_reported(rt: HostRuntime) {
    try_rows(&rt, rt.alloc(), &ENDED)
}
