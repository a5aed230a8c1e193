//! Collections of unused chunks, act by act, beside the acts of other lanes: what is told, what goes and what stays. The bytes are
//! made by `tests/make-tables`.

use crate::acts::{Row, Step};
use crate::books::{BOTH, NONE_OF_BOTH, OF_ABC, SAVED};
use crate::cases::{Case, try_cases};
use crate::fixtures::{ABC_BLOB, ABC_CHUNK, BOOK, DE_BLOB, DE_CHUNK, MANIFEST_PATH, ROOT_PATH};
use crate::folders::{Archives, Contents, THIRD_PATH};
use crate::sent::{
    AT_END, BUSY, DONE, FINISH, FIRST_BASE, FORGET_FIRST, IN_NONE, IN_WRITER, LIST, NO_BASE,
    NO_INDEX, NO_MEMORY, NONE_THERE, NOTHING, NUMBER, OPEN_FIRST, OPEN_OTHER, OPEN_SECOND,
    READ_SECOND, UNREADABLE,
};

/// The acts of a collection. They are told nothing but at the end: how many chunks are used, pending and removed.
pub(crate) const START: Row = (5, Step::Start, NOTHING, 3);

pub(crate) const PASS: Row = (5, Step::Pass, NOTHING, 1);

pub(crate) const TWO_USED: Row = (
    5,
    Step::Pass,
    b")\0\0\0\0@B\x0f\0\0\0\0\0\x94\xef\x0d\0\0\0\0\0\x02\0\0\0\0\0\0\0\0\0\0\0\0\0\0\0\0\0\0\0\0\0\0\0",
    4,
);

pub(crate) const ONE_OF_TWO: Row = (
    5,
    Step::Pass,
    b")\0\0\0\0@B\x0f\0\0\0\0\0\x94\xef\x0d\0\0\0\0\0\x01\0\0\0\0\0\0\0\0\0\0\0\0\0\0\0\x01\0\0\0\0\0\0\0",
    4,
);

pub(crate) const ONE_USED: Row = (
    5,
    Step::Pass,
    b")\0\0\0\0@B\x0f\0\0\0\0\0\x94\xef\x0d\0\0\0\0\0\x01\0\0\0\0\0\0\0\0\0\0\0\0\0\0\0\0\0\0\0\0\0\0\0",
    4,
);

pub(crate) const NONE_USED: Row = (
    5,
    Step::Pass,
    b")\0\0\0\0@B\x0f\0\0\0\0\0\x94\xef\x0d\0\0\0\0\0\0\0\0\0\0\0\0\0\0\0\0\0\0\0\0\0\0\0\0\0\0\0\0\0",
    4,
);

pub(crate) const ONE_CAME_BACK: Row = (
    5,
    Step::Pass,
    b")\0\0\0\0@B\x0f\0\0\0\0\0\x94\xef\x0d\0\0\0\0\0\x02\0\0\0\0\0\0\0\0\0\0\0\0\0\0\0\x01\0\0\0\0\0\0\0",
    4,
);

pub(crate) const TWO_CAME_BACK: Row = (
    5,
    Step::Pass,
    b")\0\0\0\0@B\x0f\0\0\0\0\0\x94\xef\x0d\0\0\0\0\0\x02\0\0\0\0\0\0\0\0\0\0\0\0\0\0\0\x02\0\0\0\0\0\0\0",
    4,
);

pub(crate) const TWO_GONE: Row = (
    5,
    Step::Pass,
    b")\0\0\0\0@B\x0f\0\0\0\0\0\x94\xef\x0d\0\0\0\0\0\0\0\0\0\0\0\0\0\0\0\0\0\0\0\0\0\x02\0\0\0\0\0\0\0",
    4,
);

pub(crate) const ONE_PENDING: Row = (
    5,
    Step::Pass,
    b")\0\0\0\0@B\x0f\0\0\0\0\0\x94\xef\x0d\0\0\0\0\0\0\0\0\0\0\0\0\0\x01\0\0\0\0\0\0\0\x01\0\0\0\0\0\0\0",
    4,
);

/// The first snapshot's archive has `abc` alone.
pub(crate) const ONE_NEEDED: Contents = &[
    (ABC_CHUNK, ABC_BLOB),
    (DE_CHUNK, DE_BLOB),
    (BOOK, SAVED),
    (MANIFEST_PATH, OF_ONE),
];

/// One chunk was touched at the cutoff of a collector that starts at 1,000,000, the other a second before.
const AT_CUTOFF: &[u8] =
    b"PBSBOOK1\x94\xef\x0d\0\0\0\0\0\x02\0\0\0\0\0\0\0\x95\x9aE\xd4No\xcfX6\x1e\xd0\x04h\x15V\xfeP\x12\x9f!\x09\xe8\x17\xde\xc0\x98\xc0\x0c\x9e]%x\x93\xef\x0d\0\0\0\0\0\xbax\x16\xbf\x8f\x01\xcf\xeaAA@\xde]\xae\"#\xb0\x03a\xa3\x96\x17z\x9c\xb4\x10\xffa\xf2\0\x15\xad\x94\xef\x0d\0\0\0\0\0\x89\xcel41S\xb3\xa3k\xe0\x05q\xd8\xa8\x7fa`\xe4\xd8\xea\x01\x11\xa5P\xec?j\x84fk\xb4\x8b";

/// They are listed in byte order, `de` before `abc`. While the collector is open no other opens, and behind its end it has no act.
static BY_CUTOFF: Case<'static> = Case {
    files: &[
        (ABC_CHUNK, ABC_BLOB),
        (DE_CHUNK, DE_BLOB),
        (BOOK, AT_CUTOFF),
    ],
    archives: Archives::Root(0),
    clock: (&[], 1_000_000),
    steps: &[
        (5, Step::Pass, IN_NONE, 0),
        START,
        (6, Step::Start, BUSY, 0),
        (5, Step::Start, BUSY, 0),
        (6, Step::Pass, IN_NONE, 0),
        PASS,
        PASS,
        ONE_PENDING,
        (5, Step::Pass, IN_NONE, 0),
    ],
    left: (1_000_000, Some(913_300), None, 0),
    saved: (1_000_000, Some(913_300), None, 0),
};

/// The oldest writer began at 900,000: `abc` was touched then, `de` a second before the cutoff.
const RUNNING: &[u8] =
    b"PBSBOOK1\xa0\xbb\x0d\0\0\0\0\0\x02\0\0\0\0\0\0\0\x95\x9aE\xd4No\xcfX6\x1e\xd0\x04h\x15V\xfeP\x12\x9f!\x09\xe8\x17\xde\xc0\x98\xc0\x0c\x9e]%xs\xba\x0d\0\0\0\0\0\xbax\x16\xbf\x8f\x01\xcf\xeaAA@\xde]\xae\"#\xb0\x03a\xa3\x96\x17z\x9c\xb4\x10\xffa\xf2\0\x15\xad\xa0\xbb\x0d\0\0\0\0\0\x98i\xf1i/n\x91\x85\"y\xaeL\xdb\x05S.\xcf\xc3\x1f\xac*\xa2s.\xa06\x17L\x08\x08\x0c\xba";

/// A later writer moves no cutoff. A lane with a session opens no collector.
static BESIDE_WRITERS: Case<'static> = Case {
    files: &[(ABC_CHUNK, ABC_BLOB), (DE_CHUNK, DE_BLOB), (BOOK, RUNNING)],
    archives: Archives::Root(0),
    clock: (&[900_000, 990_000], 1_000_000),
    steps: &[
        (3, Step::Send(OPEN_FIRST), NO_BASE, 0),
        (4, Step::Send(OPEN_OTHER), NO_BASE, 0),
        (3, Step::Start, IN_WRITER, 0),
        (3, Step::Pass, IN_WRITER, 0),
        START,
        // it has a session, and another lane's collector is open
        (3, Step::Start, IN_WRITER, 0),
        PASS,
        PASS,
        (
            5,
            Step::Pass,
            b")\0\0\0\0@B\x0f\0\0\0\0\0t\xba\x0d\0\0\0\0\0\0\0\0\0\0\0\0\0\x01\0\0\0\0\0\0\0\x01\0\0\0\0\0\0\0",
            4,
        ),
    ],
    left: (1_000_000, Some(900_000), None, 0),
    saved: (1_000_000, Some(900_000), None, 0),
};

/// No cutoff is before 0, and nothing goes then.
static EARLY: Case<'static> = Case {
    files: &[(ABC_CHUNK, ABC_BLOB), (DE_CHUNK, DE_BLOB), (BOOK, SAVED)],
    archives: Archives::Root(0),
    clock: (&[], 100),
    steps: &[
        START,
        PASS,
        PASS,
        (
            5,
            Step::Pass,
            b")\0\0\0\0d\0\0\0\0\0\0\0\0\0\0\0\0\0\0\0\0\0\0\0\0\0\0\0\x02\0\0\0\0\0\0\0\0\0\0\0\0\0\0\0",
            4,
        ),
    ],
    left: (100, Some(5), Some(4), 0),
    saved: (100, Some(5), Some(4), 0),
};

/// Without a book chunks stand as of the first act. Without chunks the first visit lists none.
static WITHOUT_BOOK: Case<'static> = Case {
    files: BOTH,
    archives: Archives::Root(0),
    clock: (&[], 1_000_000),
    steps: &[START, PASS, PASS, TWO_USED],
    left: (1_000_000, Some(1_000_000), Some(1_000_000), 0),
    saved: (1_000_000, Some(1_000_000), Some(1_000_000), 0),
};

static WITHOUT_CHUNKS: Case<'static> = Case {
    files: NONE_OF_BOTH,
    archives: Archives::Root(0),
    clock: (&[], 1_000_000),
    steps: &[START, PASS, NONE_USED],
    left: (1_000_000, None, None, 0),
    saved: (1_000_000, None, None, 0),
};

/// The blob of the first snapshot's manifest, whose archive has one piece, two, 1,000, or 1,001.
const OF_ONE: &[u8] =
    b"B\xab8\x07\xbe\x83p\xa1h\xc3o\xd2{\"backup-id\":\"a\",\"backup-time\":1579069803,\"backup-type\":\"host\",\"files\":[{\"crypt-mode\":\"none\",\"csum\":\"80a67215aff0c585b6c055e38aa04b76d4b208e2d0c3eb31bfd02822ae62e1c0\",\"filename\":\"root.didx\",\"size\":3}]}";

pub(crate) const OF_TWO: &[u8] =
    b"B\xab8\x07\xbe\x83p\xa1=\xe7\xa5\x0d{\"backup-id\":\"a\",\"backup-time\":1579069803,\"backup-type\":\"host\",\"files\":[{\"crypt-mode\":\"none\",\"csum\":\"8422682973ec0769ea78d13c53280463ec68e3cb5820cf9dbb43bfd71fb8932a\",\"filename\":\"root.didx\",\"size\":5}]}";

const OF_THOUSAND: &[u8] =
    b"B\xab8\x07\xbe\x83p\xa1*F\xd5\xf9{\"backup-id\":\"a\",\"backup-time\":1579069803,\"backup-type\":\"host\",\"files\":[{\"crypt-mode\":\"none\",\"csum\":\"16bb4608b333f6bd4847cfb483c0348a1a686103165f118e26a3e5380e8f0d3d\",\"filename\":\"root.didx\",\"size\":2001}]}";

pub(crate) const OF_MANY: &[u8] =
    b"B\xab8\x07\xbe\x83p\xa1\xb1\x9e\xd2\x8d{\"backup-id\":\"a\",\"backup-time\":1579069803,\"backup-type\":\"host\",\"files\":[{\"crypt-mode\":\"none\",\"csum\":\"39bcb24a313367516a988a486e819b823754fff46947f95d873ce6dede24cd08\",\"filename\":\"root.didx\",\"size\":2003}]}";

/// The chunks of a snapshot stay, and go once it is forgotten.
static FORGOTTEN_BETWEEN: Case<'static> = Case {
    files: &[
        (ABC_CHUNK, ABC_BLOB),
        (DE_CHUNK, DE_BLOB),
        (BOOK, SAVED),
        (MANIFEST_PATH, OF_TWO),
    ],
    archives: Archives::Root(2),
    clock: (
        &[
            1_000_000, 1_000_000, 1_000_000, 1_000_000, 1_000_000, 1_000_000,
        ],
        1_100_000,
    ),
    steps: &[
        START,
        PASS,
        PASS,
        PASS,
        TWO_USED,
        (5, Step::Send(FORGET_FIRST), DONE, 0),
        START,
        PASS,
        PASS,
        (
            5,
            Step::Pass,
            b")\0\0\0\0\xe0\xc8\x10\0\0\0\0\04v\x0f\0\0\0\0\0\0\0\0\0\0\0\0\0\0\0\0\0\0\0\0\0\x02\0\0\0\0\0\0\0",
            4,
        ),
    ],
    left: (1_100_000, None, None, 0),
    saved: (1_100_000, None, None, 0),
};

/// An index of 1,000 entries is marked in one act.
static IN_ONE_MARK: Case<'static> = Case {
    files: &[
        (ABC_CHUNK, ABC_BLOB),
        (DE_CHUNK, DE_BLOB),
        (BOOK, SAVED),
        (MANIFEST_PATH, OF_THOUSAND),
    ],
    archives: Archives::Root(1_000),
    clock: (&[], 1_000_000),
    steps: &[START, PASS, PASS, PASS, TWO_USED],
    left: (1_000_000, Some(1_000_000), Some(1_000_000), 0),
    saved: (1_000_000, Some(1_000_000), Some(1_000_000), 0),
};

/// An index of 1,001 entries is marked in two acts. `abc` is the last.
static IN_TWO_MARKS: Case<'static> = Case {
    files: &[
        (ABC_CHUNK, ABC_BLOB),
        (DE_CHUNK, DE_BLOB),
        (BOOK, SAVED),
        (MANIFEST_PATH, OF_MANY),
    ],
    archives: Archives::Root(1_001),
    clock: (&[], 1_000_000),
    steps: &[START, PASS, PASS, PASS, PASS, TWO_USED],
    left: (1_000_000, Some(1_000_000), Some(1_000_000), 0),
    saved: (1_000_000, Some(1_000_000), Some(1_000_000), 0),
};

/// Its snapshot is forgotten behind the first of them: the rest is passed over.
static FORGOTTEN_HALF_MARKED: Case<'static> = Case {
    files: &[
        (ABC_CHUNK, ABC_BLOB),
        (DE_CHUNK, DE_BLOB),
        (BOOK, SAVED),
        (MANIFEST_PATH, OF_MANY),
    ],
    archives: Archives::Root(1_001),
    clock: (&[], 1_000_000),
    steps: &[
        START,
        PASS,
        (6, Step::Send(FORGET_FIRST), DONE, 0),
        PASS,
        PASS,
        ONE_OF_TWO,
    ],
    left: (1_000_000, None, Some(1_000_000), 0),
    saved: (1_000_000, None, Some(1_000_000), 0),
};

/// Both chunks of the first snapshot were touched at 100.
pub(crate) const BEFORE: &[u8] =
    b"PBSBOOK1d\0\0\0\0\0\0\0\x02\0\0\0\0\0\0\0\x95\x9aE\xd4No\xcfX6\x1e\xd0\x04h\x15V\xfeP\x12\x9f!\x09\xe8\x17\xde\xc0\x98\xc0\x0c\x9e]%xd\0\0\0\0\0\0\0\xbax\x16\xbf\x8f\x01\xcf\xeaAA@\xde]\xae\"#\xb0\x03a\xa3\x96\x17z\x9c\xb4\x10\xffa\xf2\0\x15\xadd\0\0\0\0\0\0\0\x8b\x19\x83VT\x82\xa7S\xba,\x88\0ns\xc9\x87|\xd4\xb0\x8bga\xc4\xbd*)\xb9%hc&H";

/// PREVIOUS of its archive from the index's end on, and a second snapshot's archive of `abc` alone.
pub(crate) const TAKE_OVER: &[u8] = b"\x0b\x09root.didxP\x10\0\0\0\0\0\0";

pub(crate) const NEW: &[u8] = b"\x0d\x09root.didx";

pub(crate) const APPEND: &[u8] =
    b"\x0f\0\x01\0\xbax\x16\xbf\x8f\x01\xcf\xeaAA@\xde]\xae\"#\xb0\x03a\xa3\x96\x17z\x9c\xb4\x10\xffa\xf2\0\x15\xad\0\0\0\0\0\0\0\0";

pub(crate) const CLOSE: &[u8] =
    b"\x10\0\x01\0\0\0\0\0\0\0\x03\0\0\0\0\0\0\0\x80\xa6r\x15\xaf\xf0\xc5\x85\xb6\xc0U\xe3\x8a\xa0Kv\xd4\xb2\x08\xe2\xd0\xc3\xeb1\xbf\xd0(\"\xaeb\xe1\xc0";

pub(crate) const PUT: &[u8] =
    b"\x11\x0findex.json.blobB\xab8\x07\xbe\x83p\xa1#\xcc\x11\x06{\"backup-id\":\"a\",\"backup-time\":1579069804,\"backup-type\":\"host\",\"files\":[{\"crypt-mode\":\"none\",\"csum\":\"80a67215aff0c585b6c055e38aa04b76d4b208e2d0c3eb31bfd02822ae62e1c0\",\"filename\":\"root.didx\",\"size\":3}]}";

/// The second snapshot's index from its end on, and the bytes of its archive.
pub(crate) const FROM_END: &[u8] = b"\x15\x09root.didx(\x10\0\0\0\0\0\0";

pub(crate) const ALL_THREE: &[u8] = b"\x17\x09root.didx\0\0\0\0\0\0\0\0\x03\0\0\0";

/// A writer takes a chunk over from its base, and finishes. The base is forgotten before it is marked: what the writer took stays, and is
/// restored, and the base's other chunk goes.
static TAKEN_OVER: Case<'static> = Case {
    files: &[
        (ABC_CHUNK, ABC_BLOB),
        (DE_CHUNK, DE_BLOB),
        (BOOK, BEFORE),
        (MANIFEST_PATH, OF_TWO),
    ],
    archives: Archives::Root(2),
    clock: (&[], 1_000_000),
    steps: &[
        (3, Step::Send(OPEN_SECOND), FIRST_BASE, 0),
        START,
        (3, Step::Send(TAKE_OVER), AT_END, 0),
        (3, Step::Send(NEW), NUMBER, 0),
        (3, Step::Send(APPEND), DONE, 0),
        (3, Step::Send(CLOSE), DONE, 0),
        (3, Step::Send(PUT), DONE, 0),
        (3, Step::Send(FINISH), DONE, 0),
        (6, Step::Send(FORGET_FIRST), DONE, 0),
        PASS,
        PASS,
        ONE_OF_TWO,
        (4, Step::Send(READ_SECOND), DONE, 0),
        (4, Step::Send(FROM_END), b"\x09\0\0\0\0(\x10\0\0\0\0\0\0", 0),
        (4, Step::Send(ALL_THREE), b"\x04\0\0\0\0abc", 0),
    ],
    left: (1_000_000, Some(1_000_000), None, 0),
    saved: (1_000_000, Some(1_000_000), None, 0),
};

pub(crate) fn taken_over() -> &'static Case<'static> {
    &TAKEN_OVER
}

/// Want of memory ends a collector: its next act is the end, which tells it and saves nothing. So does any want of memory of its lane, and
/// no other lane's. A lane's end closes its collector.
static CUT_SHORT: Case<'static> = Case {
    files: &[(ABC_CHUNK, ABC_BLOB), (DE_CHUNK, DE_BLOB), (BOOK, SAVED)],
    archives: Archives::Root(0),
    clock: (&[], 1_000_000),
    steps: &[
        START,
        (7, Step::Short, NO_MEMORY, 2),
        PASS,
        (5, Step::Short, NO_MEMORY, 2),
        (6, Step::Start, BUSY, 0),
        (5, Step::Pass, NO_MEMORY, 4),
        (5, Step::Pass, IN_NONE, 0),
        (6, Step::Start, NOTHING, 3),
        (6, Step::End, NOTHING, 6),
        START,
        (5, Step::End, NOTHING, 6),
    ],
    left: (1_000_000, Some(5), None, 0),
    saved: (10, Some(5), None, 0),
};

/// A snapshot's manifest is damaged: no collector opens.
static DAMAGED: Case<'static> = Case {
    files: &[
        (ABC_CHUNK, ABC_BLOB),
        (DE_CHUNK, DE_BLOB),
        (BOOK, SAVED),
        (MANIFEST_PATH, b"abc"),
    ],
    archives: Archives::Root(0),
    clock: (&[], 1_000_000),
    steps: &[
        (5, Step::Start, UNREADABLE, 0),
        (3, Step::Send(OPEN_OTHER), NO_BASE, 0),
        (3, Step::Start, IN_WRITER, 0),
        (5, Step::Pass, IN_NONE, 0),
        (6, Step::Send(FORGET_FIRST), DONE, 0),
        START,
    ],
    left: (1_000_000, Some(5), Some(4), 0),
    saved: (10, Some(5), Some(4), 0),
};

/// An index does not decode: nothing is marked or visited, and the next act is the end, which tells its file and saves nothing.
static UNDECODED: Case<'static> = Case {
    files: &[
        (ABC_CHUNK, ABC_BLOB),
        (DE_CHUNK, DE_BLOB),
        (BOOK, SAVED),
        (MANIFEST_PATH, OF_TWO),
        (ROOT_PATH, b"abc"),
    ],
    archives: Archives::Root(0),
    clock: (&[], 1_000_000),
    steps: &[
        START,
        PASS,
        // what came first stands
        (5, Step::Short, NO_MEMORY, 2),
        (5, Step::Pass, NO_INDEX, 4),
        (5, Step::Pass, IN_NONE, 0),
    ],
    left: (1_000_000, Some(5), Some(4), 0),
    saved: (10, Some(5), Some(4), 0),
};

/// Its manifest lists `a.fidx` of a chunk that is not there and `de`, `b.didx` of nothing, and `c.didx`, 2,000 times of a chunk that is not
/// there and then of `abc`.
pub(crate) const OF_THREE: &[u8] =
    b"B\xab8\x07\xbe\x83p\xa1F\xc9|U{\"backup-id\":\"a\",\"backup-time\":1579069803,\"backup-type\":\"host\",\"files\":[{\"crypt-mode\":\"none\",\"csum\":\"158dc14dcc37cc5ced2faf6a70203d3bef51e9539c2bba779913df3fb22fb8d1\",\"filename\":\"a.fidx\",\"size\":4098},{\"crypt-mode\":\"none\",\"csum\":\"e3b0c44298fc1c149afbf4c8996fb92427ae41e4649b934ca495991b7852b855\",\"filename\":\"b.didx\",\"size\":0},{\"crypt-mode\":\"none\",\"csum\":\"b3c36c6bc929896d1f0c38eef424c1bcdea31c99abdd036adca4240e42e98b90\",\"filename\":\"c.didx\",\"size\":8192003}]}";

/// The indexes of each snapshot are marked one after another, fixed ones too, and one without entries has no act of its own. Chunks that are
/// not there take their places among the entries.
static THREE_INDEXES: Case<'static> = Case {
    files: &[
        (ABC_CHUNK, ABC_BLOB),
        (DE_CHUNK, DE_BLOB),
        (BOOK, BEFORE),
        (MANIFEST_PATH, OF_THREE),
    ],
    archives: Archives::Three(2_001),
    clock: (
        &[
            1_000_000, 1_000_001, 1_000_002, 1_000_003, 1_000_004, 1_000_005, 1_000_006,
        ],
        1_000_007,
    ),
    steps: &[START, PASS, PASS, PASS, PASS, PASS, PASS, TWO_USED],
    left: (1_000_007, Some(1_000_004), Some(1_000_001), 0),
    saved: (1_000_007, Some(1_000_004), Some(1_000_001), 0),
};

/// The last of them does not decode: the first is marked, and nothing is visited.
static THIRD_UNDECODED: Case<'static> = Case {
    files: &[
        (ABC_CHUNK, ABC_BLOB),
        (DE_CHUNK, DE_BLOB),
        (BOOK, BEFORE),
        (MANIFEST_PATH, OF_THREE),
        (THIRD_PATH, b"abc"),
    ],
    archives: Archives::Three(0),
    clock: (&[1_000_000, 1_000_001], 1_000_002),
    steps: &[
        START,
        PASS,
        PASS,
        (
            5,
            Step::Pass,
            b"$\0\0\0\x18\"host/a/2020-01-15T06:30:03Z/c.didx",
            4,
        ),
        (5, Step::Pass, IN_NONE, 0),
    ],
    left: (1_000_002, Some(100), Some(1_000_001), 0),
    saved: (100, Some(100), Some(100), 0),
};

/// Moments do not fall where the clock does, nor below the saved book's.
const SAVED_LATER: &[u8] =
    b"PBSBOOK1@B\x0f\0\0\0\0\0\x02\0\0\0\0\0\0\0\x95\x9aE\xd4No\xcfX6\x1e\xd0\x04h\x15V\xfeP\x12\x9f!\x09\xe8\x17\xde\xc0\x98\xc0\x0c\x9e]%x\x93\xef\x0d\0\0\0\0\0\xbax\x16\xbf\x8f\x01\xcf\xeaAA@\xde]\xae\"#\xb0\x03a\xa3\x96\x17z\x9c\xb4\x10\xffa\xf2\0\x15\xad\x94\xef\x0d\0\0\0\0\0t{\xe66\x8da\x93\xc2\x8eoc\xa0H\xf2\xda\xc2U\x08\x11\x1d\xd8w\xea\xf1A\xbf\xa2\xb7<\x89RR";

static FALLING: Case<'static> = Case {
    files: &[
        (ABC_CHUNK, ABC_BLOB),
        (DE_CHUNK, DE_BLOB),
        (BOOK, SAVED_LATER),
    ],
    archives: Archives::Root(0),
    clock: (&[10], 5),
    steps: &[START, PASS, PASS, ONE_PENDING],
    left: (1_000_000, Some(913_300), None, 0),
    saved: (1_000_000, Some(913_300), None, 0),
};

/// The writer began at 990,000, and so does the collector.
static FALLING_BEHIND_WRITER: Case<'static> = Case {
    files: &[(ABC_CHUNK, ABC_BLOB), (DE_CHUNK, DE_BLOB), (BOOK, RUNNING)],
    archives: Archives::Root(0),
    clock: (&[990_000], 10),
    steps: &[
        (3, Step::Send(OPEN_FIRST), NO_BASE, 0),
        START,
        PASS,
        PASS,
        (
            5,
            Step::Pass,
            b")\0\0\0\00\x1b\x0f\0\0\0\0\0\x84\xc8\x0d\0\0\0\0\0\0\0\0\0\0\0\0\0\0\0\0\0\0\0\0\0\x02\0\0\0\0\0\0\0",
            4,
        ),
    ],
    left: (990_000, None, None, 0),
    saved: (990_000, None, None, 0),
};

/// Each act has a moment of its own: what is marked is touched then, and is used.
static RISING: Case<'static> = Case {
    files: &[
        (ABC_CHUNK, ABC_BLOB),
        (DE_CHUNK, DE_BLOB),
        (BOOK, BEFORE),
        (MANIFEST_PATH, OF_TWO),
    ],
    archives: Archives::Root(2),
    clock: (&[1_000_000, 1_000_001, 1_000_002, 1_000_003], 1_000_004),
    steps: &[START, PASS, PASS, PASS, TWO_USED],
    left: (1_000_004, Some(1_000_001), Some(1_000_001), 0),
    saved: (1_000_004, Some(1_000_001), Some(1_000_001), 0),
};

/// The book lacks a chunk, which stands as of the first act.
static STALE: Case<'static> = Case {
    files: &[(ABC_CHUNK, ABC_BLOB), (DE_CHUNK, DE_BLOB), (BOOK, OF_ABC)],
    archives: Archives::Root(0),
    clock: (&[], 1_000_000),
    steps: &[START, PASS, PASS, ONE_OF_TWO],
    left: (1_000_000, None, Some(1_000_000), 0),
    saved: (1_000_000, None, Some(1_000_000), 0),
};

/// The book is damaged. Opening removes what was not installed, and a folder without a manifest.
static LITTERED: Case<'static> = Case {
    files: &[
        (ABC_CHUNK, ABC_BLOB),
        (DE_CHUNK, DE_BLOB),
        (BOOK, b"abc"),
        (".chunks/book.tmp", SAVED),
        (".chunks/ba78/abc.tmp", ABC_BLOB),
        (ROOT_PATH, b"abc"),
    ],
    archives: Archives::Root(0),
    clock: (&[], 1_000_000),
    steps: &[
        START,
        PASS,
        PASS,
        TWO_USED,
        (5, Step::Send(LIST), NONE_THERE, 0),
    ],
    left: (1_000_000, Some(1_000_000), Some(1_000_000), 0),
    saved: (1_000_000, Some(1_000_000), Some(1_000_000), 0),
};

#[test]
fn unused_chunks_go_by_their_last_touch(rt: HostRuntime) {
    let cases = [&BY_CUTOFF, &BESIDE_WRITERS];
    try_cases(&rt, rt.alloc(), &cases)
}

#[test]
fn unused_chunks_go_by_any_book(rt: HostRuntime) {
    let cases = [&EARLY, &WITHOUT_BOOK, &STALE];
    try_cases(&rt, rt.alloc(), &cases)
}

#[test]
fn chunks_are_collected_by_any_clock(rt: HostRuntime) {
    let cases = [&FALLING, &FALLING_BEHIND_WRITER, &RISING];
    try_cases(&rt, rt.alloc(), &cases)
}

#[test]
fn chunks_of_snapshots_are_marked(rt: HostRuntime) {
    let cases = [taken_over(), &THREE_INDEXES, &THIRD_UNDECODED];
    try_cases(&rt, rt.alloc(), &cases)
}

#[test]
fn indexes_are_marked_by_the_thousand(rt: HostRuntime) {
    let cases = [&IN_ONE_MARK, &IN_TWO_MARKS];
    try_cases(&rt, rt.alloc(), &cases)
}

#[test]
fn snapshots_are_forgotten_beside_marks(rt: HostRuntime) {
    let cases = [&FORGOTTEN_BETWEEN, &FORGOTTEN_HALF_MARKED];
    try_cases(&rt, rt.alloc(), &cases)
}

#[test]
fn collections_end_over_any_folder(rt: HostRuntime) {
    let cases = [&WITHOUT_CHUNKS, &DAMAGED, &LITTERED];
    try_cases(&rt, rt.alloc(), &cases)
}

#[test]
fn collections_are_cut_short(rt: HostRuntime) {
    let cases = [&CUT_SHORT, &UNDECODED];
    try_cases(&rt, rt.alloc(), &cases)
}
