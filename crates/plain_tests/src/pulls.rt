//! Collections and jobs in a replay: the order of a session, beside a remote where there is one, gives the replies of that session.

use crate::asserts::{must, same};
use crate::folders::{File, store_of};
use crate::order::order_of;
use crate::weaving::{ONE, Talk, try_talks};
use std::alloc::Global;
use std::process::Abort;
use store_model::Ending;
use store_types::Bytes;

/// GC, VERIFY of the snapshot and SYNC of the group, each with BYE behind it: a collector opens, acts twice, and closes; a reader is opened,
/// the files are told, the manifest is read, and the reader is closed; the remote's snapshots are read, a writer is opened, and the manifest
/// and FINISH are sent.
static JOBS: [Talk; 3] = [
    Talk {
        here: ONE,
        there: None,
        order: b"31146",
        sent: b"\x01\0\0\0$\x01\0\0\0?",
        told: b")\0\0\0\0\0\0\0\0\0\0\0\0\0\0\0\0\0\0\0\0\0\0\0\0\0\0\0\0\0\0\0\0\0\0\0\0\0\0\0\0\0\0\0\0\x01\0\0\0\0",
    },
    Talk {
        here: ONE,
        there: None,
        order: b"00006",
        sent: b"\x1d\0\0\0\"\x1bhost/a/2020-01-15T06:30:03Z\x01\0\0\0?",
        told: b"\x13\0\0\0\0\x01\0\0\0\0\0\0\0\0\0\0\0\0\0\0\0\0\0\x01\0\0\0\0",
    },
    Talk {
        here: &[],
        there: Some(ONE),
        order: b"1001006",
        sent: b"\x08\0\0\0#\x06host/a\x01\0\0\0?",
        told: b"\x1f\0\0\0\0\x01\0\x1bhost/a/2020-01-15T06:30:03Z\x01\0\0\0\0",
    },
];

#[test]
fn jobs_are_done(rt: HostRuntime) {
    try_talks(&rt, rt.alloc(), &JOBS)
}

/// An order, what each of two lanes sends, and where their replies have the numbers of collections.
type Freeing = (&'static [u8], [&'static [u8]; 2], &'static [u8]);

/// Two collections behind a LIST; one beside another lane's LIST; one beside another, which is refused; and two that
/// reply without numbers: memory is wanting, and the disk fails.
static FREES: [Freeing; 5] = [
    (
        b"0343146g",
        [b"\x02\0\0\0\x1e\0\x01\0\0\0$\x01\0\0\0$", b""],
        b"0:12 0:57 ",
    ),
    (b"0de6g", [b"\x02\0\0\0\x1e\0", b"\x01\0\0\0$"], b"1:5 "),
    (b"3a46g", [b"\x01\0\0\0$", b"\x01\0\0\0$"], b"0:5 "),
    (b"3246g", [b"\x01\0\0\0$", b""], b""),
    (b"356g", [b"\x01\0\0\0$", b""], b""),
];

/// The lanes and places of the free numbers.
fn frees_of(rt: &impl Abort, alloc: Global, order: &[u8], sent: &[Bytes; 2]) -> Vec<u8> {
    let order = order_of(rt, alloc, 2, order);
    let store = store_of(rt, alloc, &[]);
    let Ok(replayed) = must(
        rt,
        store.replay(alloc, None, &order, sent, &[Ending::Clean; 2]),
    ) else {
        panic!(rt; "a misfit");
    };
    let mut text = String::new(alloc);
    for free in &replayed.frees {
        must(rt, write!(text, "{}:{} ", free.lane, free.place));
    }
    text.into_bytes()
}

#[test]
fn numbers_of_collections_are_free(rt: HostRuntime) {
    let alloc = rt.alloc();
    for (order, sent, wanted) in &FREES {
        let sent = [
            must(&rt, Bytes::from_slice(alloc, sent[0])),
            must(&rt, Bytes::from_slice(alloc, sent[1])),
        ];
        same(&rt, &frees_of(&rt, alloc, order, &sent), wanted);
    }
}

/// A snapshot of a blob and an archive, with its chunks.
const WHOLE: &[File] = &[
    (
        "host/a/2020-01-15T06:30:03Z/index.json.blob",
        b"",
        b"B\xab8\x07\xbe\x83p\xa1\xc8\xff\x9c\xdf{\"backup-id\":\"a\",\"backup-time\":1579069803,\"backup-type\":\"host\",\"files\":[{\"crypt-mode\":\"none\",\"csum\":\"69dcb4830c28203c26a1dade2d893d7f1d13cdba5eb39e348b008f3a5a0fb688\",\"filename\":\"a.conf.blob\",\"size\":21},{\"crypt-mode\":\"none\",\"csum\":\"da464aae3d9f63d06f308710062b5db41996b1e36990b92ecc693440e6660151\",\"filename\":\"root.didx\",\"size\":5}]}",
    ),
    (
        "host/a/2020-01-15T06:30:03Z/a.conf.blob",
        b"",
        b"B\xab8\x07\xbe\x83p\xa1&9\xf4\xcb123456789",
    ),
    (
        "host/a/2020-01-15T06:30:03Z/root.didx",
        b"\x1c\x91N\xa5\x19\xba\xb3\xcd<\xc0@h\x0e\xbcZ|\x83\xe3{\xd8\xa2\xf4F\xcd\0\x10^_\0\0\0\0\xdaFJ\xae=\x9fc\xd0o0\x87\x10\x06+]\xb4\x19\x96\xb1\xe3i\x90\xb9.\xcci4@\xe6f\x01Q",
        b"\x03\0\0\0\0\0\0\0\xbax\x16\xbf\x8f\x01\xcf\xeaAA@\xde]\xae\"#\xb0\x03a\xa3\x96\x17z\x9c\xb4\x10\xffa\xf2\0\x15\xad\x05\0\0\0\0\0\0\0\x95\x9aE\xd4No\xcfX6\x1e\xd0\x04h\x15V\xfeP\x12\x9f!\x09\xe8\x17\xde\xc0\x98\xc0\x0c\x9e]%x",
    ),
    (
        ".chunks/ba78/ba7816bf8f01cfea414140de5dae2223b00361a396177a9cb410ff61f20015ad",
        b"",
        b"B\xab8\x07\xbe\x83p\xa1\xc2A$5abc",
    ),
    (
        ".chunks/959a/959a45d44e6fcf58361ed004681556fe50129f2109e817dec098c00c9e5d2578",
        b"",
        b"B\xab8\x07\xbe\x83p\xa1\x8b)\x90}de",
    ),
];

/// Snapshots without files but their manifests, at ten and eleven o'clock.
const AT_TEN: File = (
    "host/a/2020-01-15T10:00:00Z/index.json.blob",
    b"",
    b"B\xab8\x07\xbe\x83p\xa1\x17\xe6\x08\xca{\"backup-id\":\"a\",\"backup-time\":1579082400,\"backup-type\":\"host\",\"files\":[]}",
);

const AT_ELEVEN: File = (
    "host/a/2020-01-15T11:00:00Z/index.json.blob",
    b"",
    b"B\xab8\x07\xbe\x83p\xa1?\xe8\x0b\x9c{\"backup-id\":\"a\",\"backup-time\":1579086000,\"backup-type\":\"host\",\"files\":[]}",
);

const TEN: &[File] = &[AT_TEN];

const BOTH: &[File] = &[AT_TEN, AT_ELEVEN];

/// A snapshot whose manifest lists itself.
const LISTS_ITSELF: &[File] = &[(
    "host/a/2020-01-15T10:00:00Z/index.json.blob",
    b"",
    b"B\xab8\x07\xbe\x83p\xa1$Av\xb5{\"backup-id\":\"a\",\"backup-time\":1579082400,\"backup-type\":\"host\",\"files\":[{\"crypt-mode\":\"none\",\"csum\":\"0000000000000000000000000000000000000000000000000000000000000000\",\"filename\":\"index.json.blob\",\"size\":1}]}",
)];

/// SYNC of the group, and GROUP of it; the same behind a SYNC before.
const SYNC: &[u8] = b"\x08\0\0\0#\x06host/a\x08\0\0\0(\x06host/a";

const TWICE: &[u8] = b"\x08\0\0\0#\x06host/a\x08\0\0\0#\x06host/a\x08\0\0\0(\x06host/a";

/// Without a remote a SYNC is refused, behind the test of its group. One is here, and one more on the remote: it is pulled, and then none.
/// A blob and an archive are pulled.
static PULLED: [Talk; 4] = [
    Talk {
        here: &[],
        there: None,
        order: b"06",
        sent: b"\x08\0\0\0#\x06host/a",
        told: b"\x01\0\0\0\x1d",
    },
    Talk {
        here: &[],
        there: None,
        order: b"06",
        sent: b"\x06\0\0\0#\x04host",
        told: b"\x01\0\0\0\x04",
    },
    Talk {
        here: TEN,
        there: Some(BOTH),
        order: b"1001001006",
        sent: TWICE,
        told: b"\x1f\0\0\0\0\x01\0\x1bhost/a/2020-01-15T11:00:00Z\x03\0\0\0\0\0\0;\0\0\0\0\x02\0\x1bhost/a/2020-01-15T10:00:00Z\x1bhost/a/2020-01-15T11:00:00Z",
    },
    Talk {
        here: &[],
        there: Some(WHOLE),
        order: b"100110101010000006",
        sent: SYNC,
        told: b"\x1f\0\0\0\0\x01\0\x1bhost/a/2020-01-15T06:30:03Z\x1f\0\0\0\0\x01\0\x1bhost/a/2020-01-15T06:30:03Z",
    },
];

#[test]
fn the_later_is_pulled(rt: HostRuntime) {
    try_talks(&rt, rt.alloc(), &PULLED)
}

/// A list, or the read of the second snapshot's manifest, fails; memory is wanting as it is begun; the disk fails at its FINISH. What was
/// pulled before stays.
static FAILED: [Talk; 4] = [
    Talk {
        here: &[],
        there: Some(BOTH),
        order: b"706",
        sent: SYNC,
        told: b"\x01\0\0\0\x1e\x03\0\0\0\0\0\0",
    },
    Talk {
        here: &[],
        there: Some(BOTH),
        order: b"10010007006",
        sent: SYNC,
        told: b"\x01\0\0\0\x1e\x1f\0\0\0\0\x01\0\x1bhost/a/2020-01-15T10:00:00Z",
    },
    Talk {
        here: &[],
        there: Some(BOTH),
        order: b"100100012006",
        sent: SYNC,
        told: b"\x01\0\0\0\x1c\x1f\0\0\0\0\x01\0\x1bhost/a/2020-01-15T10:00:00Z",
    },
    Talk {
        here: &[],
        there: Some(BOTH),
        order: b"10010556",
        sent: SYNC,
        told: b"\x01\0\0\0\x1a\x09\0\0\0\x1b\x05\0\0\0\0\0\0\0",
    },
];

#[test]
fn what_was_pulled_before_stays(rt: HostRuntime) {
    try_talks(&rt, rt.alloc(), &FAILED)
}

/// A manifest that lists itself is sent as one of its files, and refused where it is sent as the manifest.
static REFUSED: [Talk; 1] = [Talk {
    here: &[],
    there: Some(LISTS_ITSELF),
    order: b"1001100006",
    sent: SYNC,
    told: b"\x01\0\0\0\x0a\x03\0\0\0\0\0\0",
}];

#[test]
fn a_manifest_is_no_file_of_its_own(rt: HostRuntime) {
    try_talks(&rt, rt.alloc(), &REFUSED)
}
