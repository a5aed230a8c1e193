//! Lanes that take turns over datastores, and what they are told, in bytes. These are made by `tests/make-tables`, which says of each
//! string which commands and replies it has.

use crate::asserts::{must, same};
use crate::folders::{File, store_of};
use crate::order::order_of;
use plain_store::{Misfit, Plain, Woven};
use std::alloc::Global;
use std::process::Abort;
use store_model::Ending;
use store_types::{Bytes, Rows};

/// A session of one lane: what stands here, and in the remote where there is one; the order; what is sent, and what is told. Where the
/// order does not fit, the misfit.
pub(crate) struct Talk {
    pub here: &'static [File],
    pub there: Option<&'static [File]>,
    pub order: &'static [u8],
    pub sent: &'static [u8],
    pub told: &'static [u8],
}

/// What each lane is told, or the misfit: its entry, lane, and how much was replayed.
fn told_by(rt: &impl Abort, alloc: Global, woven: Result<Woven, Misfit>) -> Rows<Bytes> {
    match woven {
        Ok(woven) => woven.replies,
        Err(misfit) => {
            let mut told = must(rt, misfit.entry.to_le_bytes().to_vec(alloc));
            must(rt, told.extend_from_slice(&misfit.lane.to_le_bytes()));
            must(rt, told.extend_from_slice(&misfit.replayed.to_le_bytes()));
            let mut all = Vec::new(alloc);
            must(rt, all.push(Bytes::from_vec(told)));
            Rows::from_vec(all)
        }
    }
}

/// What one lane or two are told that send this in turn, and then end.
pub(crate) fn replayed(
    rt: &impl Abort,
    alloc: Global,
    here: &Plain,
    there: Option<&Plain>,
    order: &[u8],
    sent: &[Bytes],
) -> Rows<Bytes> {
    let lanes = sent.len();
    assert!(rt; lanes <= 2);
    let order = order_of(rt, alloc, lanes as u32, order);
    let endings = [Ending::Clean; 2];
    let woven = must(
        rt,
        here.weave(alloc, there, &order, sent, &endings[..lanes]),
    );
    told_by(rt, alloc, woven)
}

/// What one lane is told.
pub(crate) fn told_alone(
    rt: &impl Abort,
    alloc: Global,
    here: &Plain,
    there: Option<&Plain>,
    order: &[u8],
    sent: &[u8],
) -> Bytes {
    let mut all = Vec::new(alloc);
    must(rt, all.push(must(rt, Bytes::from_slice(alloc, sent))));
    let mut told = replayed(rt, alloc, here, there, order, &all).into_vec();
    told.pop().expect(rt, "a lane")
}

fn try_talk(rt: &impl Abort, alloc: Global, talk: &Talk) {
    let here = store_of(rt, alloc, talk.here);
    let there = match talk.there {
        Some(files) => Some(store_of(rt, alloc, files)),
        None => None,
    };
    let told = told_alone(rt, alloc, &here, there.as_ref(), talk.order, talk.sent);
    same(rt, told.as_slice(), talk.told);
}

pub(crate) fn try_talks(rt: &impl Abort, alloc: Global, talks: &[Talk]) {
    for talk in talks {
        try_talk(rt, alloc, talk);
    }
}

/// Bytes in parts. An empty one stands for 4,096 zeros.
type Parts = &'static [&'static [u8]];

fn joined(rt: &impl Abort, alloc: Global, parts: &[&[u8]]) -> Bytes {
    let mut bytes = Vec::new(alloc);
    for part in parts {
        if part.is_empty() {
            must(rt, bytes.extend_from_slice(&[0; 4096]));
        }
        must(rt, bytes.extend_from_slice(part));
    }
    Bytes::from_vec(bytes)
}

/// Two lanes send this over a store, and are told that.
fn try_both(
    rt: &impl Abort,
    alloc: Global,
    here: &[File],
    order: &[u8],
    sent: [Parts; 2],
    told: [Parts; 2],
) {
    let here = store_of(rt, alloc, here);
    let [first, second] = sent;
    let mut all = Vec::new(alloc);
    must(rt, all.push(joined(rt, alloc, first)));
    must(rt, all.push(joined(rt, alloc, second)));
    let replies = replayed(rt, alloc, &here, None, order, &all);
    let [one, two] = replies.as_slice() else {
        panic!(rt; "not two lanes");
    };
    let [first, second] = told;
    same(rt, one.as_slice(), joined(rt, alloc, first).as_slice());
    same(rt, two.as_slice(), joined(rt, alloc, second).as_slice());
}

/// What the first lane sends: a writer without a base; manifests that are none, of another group, and without an upload; a fixed archive of
/// 4,097 bytes, of which a chunk is 4,096 zeros; and a backup that names a piece of the base.
static FIRST: [&[u8]; 6] = [
    b"\x1d\0\0\0\x0a\x1bhost/a/2020-01-15T06:30:03Z\x01\0\0\0\x18\x13\0\0\0\x0b\x09root.fidx\0\0\0\0\0\0\0\0\x01\0\0\0\x12",
    b"\x1e\0\0\0\x11\x0findex.json.blobB\xab8\x07\xbe\x83p\xa1\x83\x16\xdc\x8cx\x1e\0\0\0\x11\x0findex.json.blobB\xab8\x07\xbe\x83p\xa1\x83\x16\xdc\x8cx\x01\0\0\0\x12\x01\0\0\0\x13\x1d\0\0\0\x0a\x1bhost/a/2020-01-15T06:30:03Zg\0\0\0\x11\x0findex.json.blobB\xab8\x07\xbe\x83p\xa1b\x01\x0d\xc1{\"backup-id\":\"b\",\"backup-time\":1579069803,\"backup-type\":\"host\",\"files\":[]}\x01\0\0\0\x12\x01\0\0\0\x13\x1d\0\0\0\x0a\x1bhost/a/2020-01-15T06:30:03Zg\0\0\0\x11\x0findex.json.blobB\xab8\x07\xbe\x83p\xa1\xb2\x94\x08E{\"backup-id\":\"a\",\"backup-time\":1579069803,\"backup-type\":\"host\",\"files\":[]}\x16\0\0\0\x11\x08set.blobB\xab8\x07\xbe\x83p\xa1\0\0\0\0\x01\0\0\0\x12\x01\0\0\0\x13",
    b"\x1d\0\0\0\x0a\x1bhost/a/2020-01-15T06:30:03Z\x1b\0\0\0\x0c\x09root.didx\x01\x10\0\0\0\0\0\0\0\x10\0\0\0\0\0\0\x1b\0\0\0\x0c\x09root.fidx\x01\x10\0\0\0\0\0\0\xff\x0f\0\0\0\0\0\0\x1b\0\0\0\x0c\x09root.fidx\x01\0\0\0\x01\0\0\0\0\x10\0\0\0\0\0\0\x1b\0\0\0\x0c\x09root.fidx\x01\x10\0\0\0\0\0\0\0\x10\0\0\0\0\0\0-\x10\0\0\x0e\xad\x7f\xac\xb2Xo\xc6\xe9f\xc0\x04\xd7\xd1\xd1k\x02OX\x05\xff|\xb4|z\x85\xda\xbd\x8bH\x89,\xa7B\xab8\x07\xbe\x83p\xa1\x11\0\x1c\xc7",
    b"",
    b".\0\0\0\x0e-q\x16B\xb7&\xb0D\x01b|\xa9\xfb\xac2\xf5\xc8S\x0f\xb1\x90<\xc4\xdb\x02%\x87\x17\x92\x1aH\x81B\xab8\x07\xbe\x83p\xa1\x83\x16\xdc\x8cx,\0\0\0\x0f\0\x01\0-q\x16B\xb7&\xb0D\x01b|\xa9\xfb\xac2\xf5\xc8S\x0f\xb1\x90<\xc4\xdb\x02%\x87\x17\x92\x1aH\x81\0\0\0\0\0\0\0\0,\0\0\0\x0f\0\x01\0\xad\x7f\xac\xb2Xo\xc6\xe9f\xc0\x04\xd7\xd1\xd1k\x02OX\x05\xff|\xb4|z\x85\xda\xbd\x8bH\x89,\xa7\0\0\0\0\0\0\0\02\0\0\0\x10\0\x01\0\0\0\0\0\0\0\0\x10\0\0\0\0\0\0\xbb\x91\x12\xbe\x14\xe7\xf7\xbe\xdb\xa9co(\xa8=\x12xA\x88\xa1\xac\xa7\x8d\xa3\x99\xc6\xe6\x1e5\xf0aD,\0\0\0\x0f\0\x01\0-q\x16B\xb7&\xb0D\x01b|\xa9\xfb\xac2\xf5\xc8S\x0f\xb1\x90<\xc4\xdb\x02%\x87\x17\x92\x1aH\x81\0\x10\0\0\0\0\0\0\x01\0\0\0\x122\0\0\0\x10\0\x02\0\0\0\0\0\0\0\x01\x10\0\0\0\0\0\0\xb4m{\xe83X\x83\x18\x1c\"<\xb2\xb7\xb9\xd7Hk\xf8-|\x8d\xa57\x05\xc4\xb2\xbb\x19e\xfeU\x7f\xe9\0\0\0\x11\x0findex.json.blobB\xab8\x07\xbe\x83p\xa1Xr\xb0k{\"backup-id\":\"a\",\"backup-time\":1579069803,\"backup-type\":\"host\",\"files\":[{\"crypt-mode\":\"none\",\"csum\":\"b46d7be8335883181c223cb2b7b9d7486bf82d7c8da53705c4b2bb1965fe557f\",\"filename\":\"root.fidx\",\"size\":4097}]}\x01\0\0\0\x12\x1d\0\0\0\x0a\x1bhost/a/2020-01-15T06:30:03Z",
    b"\x1d\0\0\0\x0a\x1bhost/a/2020-01-16T06:30:03Z\x0a\0\0\0\x0d\x08set.didx\x12\0\0\0\x0b\x08set.didx\0\0\0\0\0\0\0\0\x13\0\0\0\x0b\x09root.fidxA\x10\0\0\0\0\0\0,\0\0\0\x0f\0\x01\0-q\x16B\xb7&\xb0D\x01b|\xa9\xfb\xac2\xf5\xc8S\x0f\xb1\x90<\xc4\xdb\x02%\x87\x17\x92\x1aH\x81\0\0\0\0\0\0\0\0\x13\0\0\0\x0b\x09root.fidx\0\x10\0\0\0\0\0\0T\0\0\0\x0f\0\x02\0-q\x16B\xb7&\xb0D\x01b|\xa9\xfb\xac2\xf5\xc8S\x0f\xb1\x90<\xc4\xdb\x02%\x87\x17\x92\x1aH\x81\0\0\0\0\0\0\0\0\xbax\x16\xbf\x8f\x01\xcf\xeaAA@\xde]\xae\"#\xb0\x03a\xa3\x96\x17z\x9c\xb4\x10\xffa\xf2\0\x15\xad\x01\0\0\0\0\0\0\00\0\0\0\x0e\xbax\x16\xbf\x8f\x01\xcf\xeaAA@\xde]\xae\"#\xb0\x03a\xa3\x96\x17z\x9c\xb4\x10\xffa\xf2\0\x15\xadB\xab8\x07\xbe\x83p\xa1a\xd4@\xababd-\0\0\0\x0e\xe3\xb0\xc4B\x98\xfc\x1c\x14\x9a\xfb\xf4\xc8\x99o\xb9$'\xaeA\xe4d\x9b\x93L\xa4\x95\x99\x1bxR\xb8UB\xab8\x07\xbe\x83p\xa1\0\0\0\00\0\0\0\x0e\xbax\x16\xbf\x8f\x01\xcf\xeaAA@\xde]\xae\"#\xb0\x03a\xa3\x96\x17z\x9c\xb4\x10\xffa\xf2\0\x15\xadB\xab8\x07\xbe\x83p\xa1\xc2A$5abcT\0\0\0\x0f\0\x02\0-q\x16B\xb7&\xb0D\x01b|\xa9\xfb\xac2\xf5\xc8S\x0f\xb1\x90<\xc4\xdb\x02%\x87\x17\x92\x1aH\x81\0\0\0\0\0\0\0\0\xbax\x16\xbf\x8f\x01\xcf\xeaAA@\xde]\xae\"#\xb0\x03a\xa3\x96\x17z\x9c\xb4\x10\xffa\xf2\0\x15\xad\x02\0\0\0\0\0\0\0T\0\0\0\x0f\0\x02\0-q\x16B\xb7&\xb0D\x01b|\xa9\xfb\xac2\xf5\xc8S\x0f\xb1\x90<\xc4\xdb\x02%\x87\x17\x92\x1aH\x81\0\0\0\0\0\0\0\0\xbax\x16\xbf\x8f\x01\xcf\xeaAA@\xde]\xae\"#\xb0\x03a\xa3\x96\x17z\x9c\xb4\x10\xffa\xf2\0\x15\xad\x01\0\0\0\0\0\0\02\0\0\0\x10\0\x01\0\0\0\0\0\0\0\x04\0\0\0\0\0\0\08\xf1ZH[\x0a\xf7\xd7n\x13e\x8f\x87\x1c5\xc4w\x81\xc1\x02\x05Tc\xbbo*Dj\xd8Y?e2\0\0\0\x10\0\x02\0\0\0\0\0\0\0\x04\0\0\0\0\0\0\0\xe3\xb0\xc4B\x98\xfc\x1c\x14\x9a\xfb\xf4\xc8\x99o\xb9$'\xaeA\xe4d\x9b\x93L\xa4\x95\x99\x1bxR\xb8U2\0\0\0\x10\0\x02\0\0\0\0\0\0\0\x04\0\0\0\0\0\0\08\xf1ZH[\x0a\xf7\xd7n\x13e\x8f\x87\x1c5\xc4w\x81\xc1\x02\x05Tc\xbbo*Dj\xd8Y?e\xe5\0\0\0\x11\x0findex.json.blobB\xab8\x07\xbe\x83p\xa1&\xf9<\x7f{\"backup-id\":\"a\",\"backup-time\":1579156203,\"backup-type\":\"host\",\"files\":[{\"crypt-mode\":\"none\",\"csum\":\"38f15a485b0af7d76e13658f871c35c47781c102055463bb6f2a446ad8593f65\",\"filename\":\"set.didx\",\"size\":4}]}\x01\0\0\0\x12",
];

static FIRST_TOLD: [&[u8]; 4] = [
    b"\x02\0\0\0\0\0\x02\0\0\0\x03\x01\x01\0\0\0\x08\x01\0\0\0\x09",
    b"\x01\0\0\0\0\x01\0\0\0\x0a\x02\0\0\0\x12\x01\x01\0\0\0\0\x02\0\0\0\0\0\x01\0\0\0\0\x03\0\0\0\x13\0\x02\x01\0\0\0\0\x02\0\0\0\0\0\x01\0\0\0\0\x01\0\0\0\0\x0b\0\0\0\x13\x08set.blob\x05\x01\0\0\0\0",
    b"\x02\0\0\0\0\0\x01\0\0\0\x04\x0d\0\0\0\x0d\0\0\0\0\xff\x0f\0\0\0\0\0\0\x05\0\0\0\x15\0\0\x10\0\x02\0\0\0\0\0\x01\0\0\0\0\x01\0\0\0\0\x0d\0\0\0\x0d\0\0\0\0\x01\0\0\0\0\0\0\0\x01\0\0\0\0\"\0\0\0\x10\x04\x01\x10\0\0\0\0\0\0\0\0\0\0\0\0\0\0\0\0\0\0\0\0\0\0\0\0\0\0\0\0\0\0\x01\0\0\0\0\x02\0\0\0\x11\x01\x01\0\0\0\0\x01\0\0\0\0\x01\0\0\0\0\x09\0\0\0\x07k\xb1\x1e^\0\0\0\0",
    b"\x1d\0\0\0\0\x1bhost/a/2020-01-15T06:30:03Z\x02\0\0\0\0\0\x01\0\0\0\x09\x09\0\0\0\x16@\x10\0\0\0\0\0\0\x05\0\0\0\x0e\0\0\0\0I\0\0\0\0@\x10\0\0\0\0\0\0\xad\x7f\xac\xb2Xo\xc6\xe9f\xc0\x04\xd7\xd1\xd1k\x02OX\x05\xff|\xb4|z\x85\xda\xbd\x8bH\x89,\xa7-q\x16B\xb7&\xb0D\x01b|\xa9\xfb\xac2\xf5\xc8S\x0f\xb1\x90<\xc4\xdb\x02%\x87\x17\x92\x1aH\x81\x05\0\0\0\x0e\x01\0\0\0!\0\0\0\x0c\xa5-\x15\x9f&+,m\xdbrJa\x84\x0b\xef\xc3n\xb3\x0c\x88\x87z@0\xb6\\\xbe\x86)\x84I\xc9\x0d\0\0\0\x0d\0\0\0\0\0\0\0\0\0\0\0\0\x01\0\0\0\0\x0d\0\0\0\x0f\x01\0\0\0\x01\0\0\0\0\0\0\0\x01\0\0\0\0\"\0\0\0\x10\x01\x02\0\0\0\0\0\0\0\0\0\0\0\0\0\0\0\0\0\0\0\0\0\0\0\0\0\0\0\0\0\0\0\"\0\0\0\x10\x038\xf1ZH[\x0a\xf7\xd7n\x13e\x8f\x87\x1c5\xc4w\x81\xc1\x02\x05Tc\xbbo*Dj\xd8Y?e\x01\0\0\0\0\x01\0\0\0\0\x01\0\0\0\0",
];

/// The second lane tries two commands before the first finishes a snapshot, and then reads that one: its pieces and ranges, and its files.
static SECOND: [&[u8]; 2] = [
    b"\x01\0\0\0\x13\x1d\0\0\0\x0a\x1bhost/a/2020-01-15T06:30:03Z\x1d\0\0\0\x14\x1bhost/a/2020-01-15T06:30:03Z!\0\0\0\x16-q\x16B\xb7&\xb0D\x01b|\xa9\xfb\xac2\xf5\xc8S\x0f\xb1\x90<\xc4\xdb\x02%\x87\x17\x92\x1aH\x81\x17\0\0\0\x17\x09root.fidx\xff\x0f\0\0\0\0\0\0\x02\0\0\0\x16\0\0\0\x17\x08set.blob\0\0\0\0\0\0\0\0\x01\0\0\0\x16\0\0\0\x17\x08set.didx\0\0\0\0\0\0\0\0\x01\0\0\0\x13\0\0\0\x15\x09root.fidxA\x10\0\0\0\0\0\0\x13\0\0\0\x15\x09root.fidx\0\x10\0\0\0\0\0\0!\0\0\0\x16-q\x16B\xb7&\xb0D\x01b|\xa9\xfb\xac2\xf5\xc8S\x0f\xb1\x90<\xc4\xdb\x02%\x87\x17\x92\x1aH\x81!\0\0\0\x16\xbax\x16\xbf\x8f\x01\xcf\xeaAA@\xde]\xae\"#\xb0\x03a\xa3\x96\x17z\x9c\xb4\x10\xffa\xf2\0\x15\xad\x17\0\0\0\x17\x09root.fidx\xff\x0f\0\0\0\0\0\0\x02\0\0\0\x17\0\0\0\x17\x09root.fidx\0\x10\0\0\0\0\0\0\x02\0\0\0\x17\0\0\0\x17\x09root.fidx\0\0\0\0\0\0\0\0\x01\0@\0\x01\0\0\0\x18!\0\0\0\x16-q\x16B\xb7&\xb0D\x01b|\xa9\xfb\xac2\xf5\xc8S\x0f\xb1\x90<\xc4\xdb\x02%\x87\x17\x92\x1aH\x81",
    b"\x1d\0\0\0\x1f\x1bhost/a/2020-01-15T06:30:03Z",
];

static SECOND_TOLD: [&[u8]; 2] = [
    b"\x02\0\0\0\x03\0\x05\0\0\0\x05\0\0\0\0\x01\0\0\0\0\x01\0\0\0\x14\x01\0\0\0\x14\x01\0\0\0\x04\x01\0\0\0\x09\x09\0\0\0\x16@\x10\0\0\0\0\0\0I\0\0\0\0@\x10\0\0\0\0\0\0\xad\x7f\xac\xb2Xo\xc6\xe9f\xc0\x04\xd7\xd1\xd1k\x02OX\x05\xff|\xb4|z\x85\xda\xbd\x8bH\x89,\xa7-q\x16B\xb7&\xb0D\x01b|\xa9\xfb\xac2\xf5\xc8S\x0f\xb1\x90<\xc4\xdb\x02%\x87\x17\x92\x1aH\x81\x0e\0\0\0\0B\xab8\x07\xbe\x83p\xa1\x83\x16\xdc\x8cx\x01\0\0\0\x14\x03\0\0\0\0\0x\x09\0\0\0\x16\x01\x10\0\0\0\0\0\0\x05\0\0\0\x15\0\0@\0\x01\0\0\0\0\x02\0\0\0\x03\0",
    b"l\0\0\0\0\x02\x0findex.json.blob\xd8\0\0\0\0\0\0\0\xf9\x95\xaf5d!\xc7\x95\xb7-*+\xcb\xa4\xb2Z\x8c\xee\xe2p7#\x17\x8c\xb1_\x8bZ\x1e\xe3Z\x1d\x09root.fidx\x01\x10\0\0\0\0\0\0\xb4m{\xe83X\x83\x18\x1c\"<\xb2\xb7\xb9\xd7Hk\xf8-|\x8d\xa57\x05\xc4\xb2\xbb\x19e\xfeU\x7f",
];

#[test]
fn two_lanes_take_turns(rt: HostRuntime) {
    try_both(
        &rt,
        rt.alloc(),
        &[],
        b"a00a000000000000000000000000000000000000000000000000aaaaaaaaaaaaaaag6",
        [&FIRST, &SECOND],
        [&FIRST_TOLD, &SECOND_TOLD],
    )
}

/// A snapshot with an empty manifest.
const SNAPSHOT: &str = "host/a/2020-01-15T06:30:03Z/index.json.blob";

pub(crate) const MANIFEST: &[u8] =
    b"B\xab8\x07\xbe\x83p\xa1\xb2\x94\x08E{\"backup-id\":\"a\",\"backup-time\":1579069803,\"backup-type\":\"host\",\"files\":[]}";

pub(crate) const ONE: &[File] = &[(SNAPSHOT, b"", MANIFEST)];

const SIX: &[File] = &[
    ("host/a/2020-01-14T00:00:00Z/index.json.blob", b"", MANIFEST),
    (SNAPSHOT, b"", MANIFEST),
    ("host/a/2020-01-15T12:00:00Z/index.json.blob", b"", MANIFEST),
    ("host/b/2020-12-31T00:00:00Z/index.json.blob", b"", MANIFEST),
    ("host/b/2021-01-03T00:00:00Z/index.json.blob", b"", MANIFEST),
    ("host/b/2021-01-04T00:00:00Z/index.json.blob", b"", MANIFEST),
];

/// What a lane asks of six snapshots: listings, files and groups; then PRUNEs with a count above the limit, a dry one, one with weeks
/// across the year's end, what goes and stays beside the other lane, and two for which memory is wanting or the disk fails.
static ASKING: [&[u8]; 2] = [
    b"\x02\0\0\0\x1e\0\x1d\0\0\0\x1e\x1bhost/b/2021-01-03T00:00:00Z\x1d\0\0\0\x1e\x1bhost/b/2021-01-01T00:00:00Z\x08\0\0\0\x1e\x06host/b\x1d\0\0\0\x1f\x1bhost/a/2020-01-15T06:30:03Z\x1d\0\0\0\x1f\x1bhost/c/2021-01-01T00:00:00Z\x08\0\0\0(\x06host/b\x08\0\0\0(\x06host/c",
    b"\x15\0\0\0!\x06host/b\0\0\0\0\0\0\xe9\x03\0\0\0\0\0\x15\0\0\0!\x06host/b\0\0\0\0\0\0\x02\0\0\0\0\0\x01\x15\0\0\0!\x06host/b\0\0\0\0\0\0\x02\0\0\0\0\0\0\x15\0\0\0!\x06host/a\x01\0\0\0\x01\0\0\0\0\0\0\0\0\x1d\0\0\0 \x1bhost/a/2020-01-15T12:00:00Z\x1d\0\0\0 \x1bhost/a/2020-01-15T12:00:00Z\x1d\0\0\0 \x1bhost/a/2020-01-15T12:00:00Z\x15\0\0\0!\x06host/a\x01\0\0\0\0\0\0\0\0\0\0\0\0\x02\0\0\0\x1e\0\x15\0\0\0!\x06host/b\x01\0\0\0\0\0\0\0\0\0\0\0\0\x15\0\0\0!\x06host/b\x01\0\0\0\0\0\0\0\0\0\0\0\0",
];

static ASKING_TOLD: [&[u8]; 2] = [
    b"\xb7\0\0\0\0\x06\0\x1bhost/a/2020-01-14T00:00:00Z\0\x01\x1bhost/a/2020-01-15T06:30:03Z\0\x01\x1bhost/a/2020-01-15T12:00:00Z\0\x01\x1bhost/b/2020-12-31T00:00:00Z\0\x01\x1bhost/b/2021-01-03T00:00:00Z\0\x01\x1bhost/b/2021-01-04T00:00:00Z\0\x01!\0\0\0\0\x01\0\x1bhost/b/2021-01-04T00:00:00Z\0\x01?\0\0\0\0\x02\0\x1bhost/b/2021-01-03T00:00:00Z\0\x01\x1bhost/b/2021-01-04T00:00:00Z\0\x01\x01\0\0\0\x04:\0\0\0\0\x01\x0findex.json.blobV\0\0\0\0\0\0\0\xc1j.\x19\xd5R\x1a\xca\xf0\x88\xf4=\x8do\x0b\xa1\x15\x198\xc1]X\x98\xda\xe2Gt$tAN\xa2\x01\0\0\0\x08W\0\0\0\0\x03\0\x1bhost/b/2020-12-31T00:00:00Z\x1bhost/b/2021-01-03T00:00:00Z\x1bhost/b/2021-01-04T00:00:00Z\x03\0\0\0\0\0\0",
    b"\x05\0\0\0\x15\xe8\x03\0\0Z\0\0\0\0\x03\0\x1bhost/b/2021-01-04T00:00:00Z\x01\x1bhost/b/2021-01-03T00:00:00Z\x01\x1bhost/b/2020-12-31T00:00:00Z\0Z\0\0\0\0\x03\0\x1bhost/b/2021-01-04T00:00:00Z\x01\x1bhost/b/2021-01-03T00:00:00Z\x01\x1bhost/b/2020-12-31T00:00:00Z\0Z\0\0\0\0\x03\0\x1bhost/a/2020-01-15T12:00:00Z\x01\x1bhost/a/2020-01-15T06:30:03Z\x02\x1bhost/a/2020-01-14T00:00:00Z\x01\x05\0\0\0\x06\x01\0\0\0\x01\0\0\0\0\x01\0\0\0\x08=\0\0\0\0\x02\0\x1bhost/a/2020-01-15T06:30:03Z\x01\x1bhost/a/2020-01-14T00:00:00Z\x03]\0\0\0\0\x03\0\x1bhost/a/2020-01-15T06:30:03Z\0\x01\x1bhost/b/2021-01-03T00:00:00Z\0\x01\x1bhost/b/2021-01-04T00:00:00Z\0\x01\x01\0\0\0\x1c\x01\0\0\0\x1a",
];

/// What another lane does in between: a reader forgets and prunes nothing, a writer has a base, and one forgets what is to go.
static BESIDE: [&[u8]; 1] = [
    b"\x1d\0\0\0\x14\x1bhost/a/2020-01-15T06:30:03Z\x1d\0\0\0 \x1bhost/a/2020-01-14T00:00:00Z\x15\0\0\0!\x06host/a\0\0\0\0\0\0\0\0\0\0\0\0\0\x01\0\0\0\x18\x1d\0\0\0\x0a\x1bhost/a/2020-01-16T00:00:00Z\x01\0\0\0\x13\x1d\0\0\0 \x1bhost/a/2020-01-14T00:00:00Z",
];

static BESIDE_TOLD: [&[u8]; 1] = [
    b"\x01\0\0\0\0\x02\0\0\0\x03\x02\x02\0\0\0\x03\x02\x01\0\0\0\0\x1d\0\0\0\0\x1bhost/a/2020-01-15T12:00:00Z\x01\0\0\0\0\x01\0\0\0\0",
];

#[test]
fn snapshots_are_told_and_pruned(rt: HostRuntime) {
    try_both(
        &rt,
        rt.alloc(),
        SIX,
        b"aaa00000000000000aa0a000a000205g6",
        [&ASKING, &BESIDE],
        [&ASKING_TOLD, &BESIDE_TOLD],
    )
}

/// An end alone, behind BYE, and behind what is no command; a step at BYE, which does not fit; a reader of a snapshot that is loaded; and
/// a job that is open at a clean end.
static ENDS: [Talk; 6] = [
    Talk {
        here: &[],
        there: None,
        order: b"6",
        sent: b"",
        told: b"",
    },
    Talk {
        here: &[],
        there: None,
        order: b"6",
        sent: b"\x01\0\0\0?",
        told: b"\x01\0\0\0\0",
    },
    Talk {
        here: &[],
        there: None,
        order: b"6",
        sent: b"\x01\0\0\0c",
        told: b"\x09\0\0\0\x01\0\0\0\0\0\0\0\0",
    },
    Talk {
        here: &[],
        there: None,
        order: b"06",
        sent: b"\x01\0\0\0?",
        told: b"\0\0\0\0\0\0\0\0\0\0\0\0\0\0\0\0\0\0\0\0",
    },
    Talk {
        here: ONE,
        there: None,
        order: b"06",
        sent: b"\x1d\0\0\0\x14\x1bhost/a/2020-01-15T06:30:03Z",
        told: b"\x01\0\0\0\0",
    },
    Talk {
        here: SIX,
        there: None,
        order: b"06",
        sent: b"\x15\0\0\0!\x06host/b\x01\0\0\0\0\0\0\0\0\0\0\0\0",
        told: b"\x01\0\0\0\0\0\0\0\0\0\0\0\0\0\0\0\0\0\0\0",
    },
];

#[test]
fn lanes_end(rt: HostRuntime) {
    try_talks(&rt, rt.alloc(), &ENDS)
}
