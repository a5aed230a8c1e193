//! Collections beside the acts of other lanes, which fall at every place of them. The clock stands still, or it falls. The bytes are made
//! by `tests/make-tables`.

use crate::acts::{Row, Rows, Step};
use crate::asserts::must;
use crate::books::NONE_OF_BOTH;
use crate::cases::{Case, Spot, try_case};
use crate::collecting::{
    ALL_THREE, APPEND, BEFORE, CLOSE as CLOSE_INDEX, FROM_END, NEW, NONE_USED, OF_MANY, OF_TWO,
    ONE_CAME_BACK, ONE_NEEDED, ONE_OF_TWO, ONE_PENDING, ONE_USED, PASS, PUT, START, TAKE_OVER,
    TWO_CAME_BACK, TWO_GONE, TWO_USED,
};
use crate::fixtures::{
    ABC_BLOB, ABC_CHUNK, BOOK, Clock, DE_BLOB, DE_CHUNK, FALLING, Kept, MANIFEST_PATH, STILL,
};
use crate::folders::{Archives, Contents};
use crate::sent::{
    ABORT, AT_END, BUSY, CLOSE_READER, DONE, FINISH, FIRST_BASE, FORGET_FIRST, IN_NONE, NO_BASE,
    NO_MEMORY, NOTHING, NUMBER, OPEN_FIRST, OPEN_SECOND, READ_FIRST, READ_SECOND,
};
use std::alloc::Global;
use std::process::Abort;

/// How a collection goes where others' acts fall at one of its places, and what the core has in the end, and one that is opened then.
#[derive(Clone, Copy)]
struct Place {
    /// Whether it opens, how many acts of it are told nothing, and the last.
    starts: bool,
    passes: usize,
    last: Option<Row>,
    left: Kept,
    saved: Kept,
}

/// What stands in a folder, and the acts that fall at one place of a collection there: at the first, before its start, at the second, and
/// so on.
#[derive(Clone, Copy)]
struct Beside {
    files: Contents,
    entries: u32,
    before: Rows,
    acts: Rows,
    /// So many of them may come at any earlier place. That changes nothing.
    early: usize,
    places: &'static [Place],
    after: Rows,
}

/// An end that memory was wanting for.
const CUT: Row = (5, Step::Pass, NO_MEMORY, 4);

const BOTH_STAY: Kept = (1_000_000, Some(1_000_000), Some(1_000_000), 0);

const ABC_STAYS: Kept = (1_000_000, Some(1_000_000), None, 0);

const NONE_STAYS: Kept = (1_000_000, None, None, 0);

/// The first snapshot, of `de` and `abc`, which were touched long ago.
const BACKED_UP: Contents = &[
    (ABC_CHUNK, ABC_BLOB),
    (DE_CHUNK, DE_BLOB),
    (BOOK, BEFORE),
    (MANIFEST_PATH, OF_TWO),
];

/// A writer takes `abc` over from it, and sends nothing.
const OPEN: Row = (3, Step::Send(OPEN_SECOND), FIRST_BASE, 0);

const TAKE: Row = (3, Step::Send(TAKE_OVER), AT_END, 0);

const BEGIN: Row = (3, Step::Send(NEW), NUMBER, 0);

const NAME_ABC: Row = (3, Step::Send(APPEND), DONE, 0);

const CLOSE_ABC: Row = (3, Step::Send(CLOSE_INDEX), DONE, 0);

const PUT_SECOND: Row = (3, Step::Send(PUT), DONE, 0);

const FINISHED: Row = (3, Step::Send(FINISH), DONE, 0);

const FORGOT: Row = (6, Step::Send(FORGET_FIRST), DONE, 0);

/// What is restored in the end.
pub(crate) const OPENED_FIRST: Row = (4, Step::Send(READ_FIRST), DONE, 0);

pub(crate) const OPENED_SECOND: Row = (4, Step::Send(READ_SECOND), DONE, 0);

pub(crate) const AT_END_OF_ONE: Row = (
    4,
    Step::Send(FROM_END),
    b"\x09\0\0\0\0(\x10\0\0\0\0\0\0",
    0,
);

pub(crate) const ABC: Row = (4, Step::Send(ALL_THREE), b"\x04\0\0\0\0abc", 0);

pub(crate) const AT_END_OF_TWO: Row = (
    4,
    Step::Send(b"\x15\x09root.didxP\x10\0\0\0\0\0\0"),
    AT_END,
    0,
);

pub(crate) const DE_ABC: Row = (
    4,
    Step::Send(b"\x17\x09root.didx\0\0\0\0\0\0\0\0\x05\0\0\0"),
    b"\x06\0\0\0\0deabc",
    0,
);

pub(crate) const CLOSE: Row = (4, Step::Send(CLOSE_READER), DONE, 0);

/// A writer beside a collection. The snapshot that it takes from stays.
const REUSE: Rows = &[OPEN, TAKE, BEGIN, NAME_ABC, CLOSE_ABC, PUT_SECOND, FINISHED];

const MARKED: Place = Place {
    starts: true,
    passes: 3,
    last: Some(TWO_USED),
    left: BOTH_STAY,
    saved: BOTH_STAY,
};

const MARKED_TWICE: Place = Place {
    starts: true,
    passes: 4,
    last: Some(TWO_USED),
    left: BOTH_STAY,
    saved: BOTH_STAY,
};

/// The snapshot that it took from is forgotten at once. What it took stays, whether that was marked or not.
const REUSE_ALONE: Rows = &[
    OPEN, TAKE, BEGIN, NAME_ABC, CLOSE_ABC, PUT_SECOND, FINISHED, FORGOT,
];

const ONE_MARKED: Place = Place {
    starts: true,
    passes: 3,
    last: Some(ONE_OF_TWO),
    left: ABC_STAYS,
    saved: ABC_STAYS,
};

const ONE_TOUCHED: Place = Place {
    starts: true,
    passes: 2,
    last: Some(ONE_OF_TWO),
    left: ABC_STAYS,
    saved: ABC_STAYS,
};

/// A writer sends both chunks, which are there and of no snapshot.
const UNNEEDED: Contents = &[(ABC_CHUNK, ABC_BLOB), (DE_CHUNK, DE_BLOB), (BOOK, BEFORE)];

const BEGIN_FIRST: Row = (3, Step::Send(OPEN_FIRST), NO_BASE, 0);

const SEND_DE: Row = (
    3,
    Step::Send(
        b"\x0e\x95\x9aE\xd4No\xcfX6\x1e\xd0\x04h\x15V\xfeP\x12\x9f!\x09\xe8\x17\xde\xc0\x98\xc0\x0c\x9e]%xB\xab8\x07\xbe\x83p\xa1\x8b)\x90}de",
    ),
    DONE,
    0,
);

const SEND_ABC: Row = (
    3,
    Step::Send(
        b"\x0e\xbax\x16\xbf\x8f\x01\xcf\xeaAA@\xde]\xae\"#\xb0\x03a\xa3\x96\x17z\x9c\xb4\x10\xffa\xf2\0\x15\xadB\xab8\x07\xbe\x83p\xa1\xc2A$5abc",
    ),
    DONE,
    0,
);

const NAME_BOTH: Row = (
    3,
    Step::Send(
        b"\x0f\0\x02\0\x95\x9aE\xd4No\xcfX6\x1e\xd0\x04h\x15V\xfeP\x12\x9f!\x09\xe8\x17\xde\xc0\x98\xc0\x0c\x9e]%x\0\0\0\0\0\0\0\0\xbax\x16\xbf\x8f\x01\xcf\xeaAA@\xde]\xae\"#\xb0\x03a\xa3\x96\x17z\x9c\xb4\x10\xffa\xf2\0\x15\xad\x02\0\0\0\0\0\0\0",
    ),
    DONE,
    0,
);

const CLOSE_BOTH: Row = (
    3,
    Step::Send(
        b"\x10\0\x02\0\0\0\0\0\0\0\x05\0\0\0\0\0\0\0\x84\"h)s\xec\x07i\xeax\xd1<S(\x04c\xech\xe3\xcbX \xcf\x9d\xbbC\xbf\xd7\x1f\xb8\x93*",
    ),
    DONE,
    0,
);

const PUT_FIRST: Row = (
    3,
    Step::Send(
        b"\x11\x0findex.json.blobB\xab8\x07\xbe\x83p\xa1=\xe7\xa5\x0d{\"backup-id\":\"a\",\"backup-time\":1579069803,\"backup-type\":\"host\",\"files\":[{\"crypt-mode\":\"none\",\"csum\":\"8422682973ec0769ea78d13c53280463ec68e3cb5820cf9dbb43bfd71fb8932a\",\"filename\":\"root.didx\",\"size\":5}]}",
    ),
    DONE,
    0,
);

const WRITE: Rows = &[
    BEGIN_FIRST,
    BEGIN,
    SEND_DE,
    SEND_ABC,
    NAME_BOTH,
    CLOSE_BOTH,
    PUT_FIRST,
    FINISHED,
];

/// A chunk that is sent before it is visited stays. One that is gone by then is there again, and is used.
const TWO_TOUCHED: Place = Place {
    starts: true,
    passes: 2,
    last: Some(TWO_USED),
    left: BOTH_STAY,
    saved: BOTH_STAY,
};

const HALF_VISITED: Place = Place {
    starts: true,
    passes: 2,
    last: Some(ONE_CAME_BACK),
    left: BOTH_STAY,
    saved: BOTH_STAY,
};

const VISITED: Place = Place {
    starts: true,
    passes: 2,
    last: Some(TWO_CAME_BACK),
    left: BOTH_STAY,
    saved: BOTH_STAY,
};

/// The book was saved before: a core that is opened then has no entry of them.
const SENT_BEHIND: Place = Place {
    starts: true,
    passes: 2,
    last: Some(TWO_GONE),
    left: BOTH_STAY,
    saved: (1_000_000, Some(1_000_000), Some(1_000_000), 2),
};

/// One chunk is sent where none is there. It is used, whether it was listed or not.
const ONE_SENT: Place = Place {
    starts: true,
    passes: 1,
    last: Some(ONE_USED),
    left: ABC_STAYS,
    saved: ABC_STAYS,
};

const ONE_SENT_BEHIND: Place = Place {
    starts: true,
    passes: 1,
    last: Some(NONE_USED),
    left: ABC_STAYS,
    saved: (1_000_000, Some(1_000_000), None, 1),
};

/// A snapshot is forgotten before it is marked, or behind that. `abc` was touched within the last day, and `de` long ago.
const RECENT: &[u8] =
    b"PBSBOOK1\xf0~\x0e\0\0\0\0\0\x02\0\0\0\0\0\0\0\x95\x9aE\xd4No\xcfX6\x1e\xd0\x04h\x15V\xfeP\x12\x9f!\x09\xe8\x17\xde\xc0\x98\xc0\x0c\x9e]%xd\0\0\0\0\0\0\0\xbax\x16\xbf\x8f\x01\xcf\xeaAA@\xde]\xae\"#\xb0\x03a\xa3\x96\x17z\x9c\xb4\x10\xffa\xf2\0\x15\xad\xf0~\x0e\0\0\0\0\0\xa9\x7f|\xdf`{`>r\0\x97\x13\xb6\xff\xda\xd9\x0e\xbdld\x07\xba\xbe._\x91\x0f\xee.\x14\x8a5";

const UNMARKED: Place = Place {
    starts: true,
    passes: 2,
    last: Some(ONE_PENDING),
    left: (1_000_000, Some(950_000), None, 0),
    saved: (1_000_000, Some(950_000), None, 0),
};

/// A snapshot, of `de` a thousand times and `abc`, is forgotten and made again, of `abc` alone. Its new index is no more marked, and what is
/// left of the old one is passed over.
const MAKE_AGAIN: Rows = &[
    FORGOT,
    BEGIN_FIRST,
    BEGIN,
    SEND_ABC,
    NAME_ABC,
    CLOSE_ABC,
    (
        3,
        Step::Send(
            b"\x11\x0findex.json.blobB\xab8\x07\xbe\x83p\xa1h\xc3o\xd2{\"backup-id\":\"a\",\"backup-time\":1579069803,\"backup-type\":\"host\",\"files\":[{\"crypt-mode\":\"none\",\"csum\":\"80a67215aff0c585b6c055e38aa04b76d4b208e2d0c3eb31bfd02822ae62e1c0\",\"filename\":\"root.didx\",\"size\":3}]}",
        ),
        DONE,
        0,
    ),
    FINISHED,
];

/// Another lane collects too. While one's collector is open the other is refused.
const START_OTHER: Row = (6, Step::Start, NOTHING, 3);

const PASS_OTHER: Row = (6, Step::Pass, NOTHING, 1);

const NONE_USED_BY_OTHER: Row = (
    6,
    Step::Pass,
    b")\0\0\0\0@B\x0f\0\0\0\0\0\x94\xef\x0d\0\0\0\0\0\0\0\0\0\0\0\0\0\0\0\0\0\0\0\0\0\0\0\0\0\0\0\0\0",
    4,
);

const TWO_GONE_BY_OTHER: Row = (
    6,
    Step::Pass,
    b")\0\0\0\0@B\x0f\0\0\0\0\0\x94\xef\x0d\0\0\0\0\0\0\0\0\0\0\0\0\0\0\0\0\0\0\0\0\0\x02\0\0\0\0\0\0\0",
    4,
);

const REFUSED: Place = Place {
    starts: false,
    passes: 0,
    last: Some((5, Step::Start, b"\x05\0\0\0\x19\x06\0\0\0", 0)),
    left: NONE_STAYS,
    saved: NONE_STAYS,
};

const OPENED: Place = Place {
    starts: false,
    passes: 2,
    last: Some(TWO_GONE),
    left: NONE_STAYS,
    saved: NONE_STAYS,
};

/// Memory is wanting on the collector's lane. Its next act is the end, which saves nothing. `abc` is needed, and was touched at 5.
const SHORT_AT_MARK: Place = Place {
    starts: true,
    passes: 0,
    last: Some(CUT),
    left: (1_000_000, Some(5), Some(4), 0),
    saved: (10, Some(5), Some(4), 0),
};

const SHORT_AT_FIRST: Place = Place {
    starts: true,
    passes: 1,
    last: Some(CUT),
    left: (1_000_000, Some(1_000_000), Some(4), 0),
    saved: (10, Some(5), Some(4), 0),
};

const SHORT_AT_SECOND: Place = Place {
    starts: true,
    passes: 2,
    last: Some(CUT),
    left: ABC_STAYS,
    saved: (10, Some(5), None, 0),
};

const SHORT_AT_END: Place = Place {
    starts: true,
    passes: 3,
    last: Some(CUT),
    left: ABC_STAYS,
    saved: (10, Some(5), None, 0),
};

/// The collector's lane ends, and another one's opens.
const LEFT_AT_MARK: Place = Place {
    starts: false,
    passes: 0,
    last: None,
    left: (1_000_000, Some(5), Some(4), 0),
    saved: (10, Some(5), Some(4), 0),
};

const LEFT_AT_FIRST: Place = Place {
    starts: false,
    passes: 1,
    last: None,
    left: (1_000_000, Some(1_000_000), Some(4), 0),
    saved: (10, Some(5), Some(4), 0),
};

const LEFT_AT_SECOND: Place = Place {
    starts: false,
    passes: 2,
    last: None,
    left: ABC_STAYS,
    saved: (10, Some(5), None, 0),
};

const LEFT_AT_END: Place = Place {
    starts: false,
    passes: 3,
    last: None,
    left: ABC_STAYS,
    saved: (10, Some(5), None, 0),
};

/// A writer takes over what its base has.
static REUSED: Beside = Beside {
    files: BACKED_UP,
    entries: 2,
    before: &[],
    acts: REUSE,
    early: 6,
    // where it finishes before the start, its index is marked too
    places: &[MARKED_TWICE, MARKED, MARKED, MARKED, MARKED, MARKED],
    after: &[
        OPENED_SECOND,
        AT_END_OF_ONE,
        ABC,
        CLOSE,
        OPENED_FIRST,
        AT_END_OF_TWO,
        DE_ABC,
    ],
};

/// The same, and the base is forgotten.
static REUSED_ALONE: Beside = Beside {
    files: BACKED_UP,
    entries: 2,
    before: &[],
    acts: REUSE_ALONE,
    early: 6,
    places: &[ONE_MARKED, ONE_TOUCHED, MARKED, MARKED, MARKED, MARKED],
    after: &[OPENED_SECOND, AT_END_OF_ONE, ABC],
};

/// A writer sends what is there already.
static WRITTEN: Beside = Beside {
    files: UNNEEDED,
    entries: 0,
    before: &[],
    acts: WRITE,
    early: 2,
    places: &[MARKED, TWO_TOUCHED, HALF_VISITED, VISITED, SENT_BEHIND],
    after: &[OPENED_FIRST, AT_END_OF_TWO, DE_ABC],
};

/// The same, but that it finishes after the collection.
static FINISHED_AFTER: Beside = Beside {
    files: UNNEEDED,
    entries: 0,
    before: &[],
    acts: &[BEGIN_FIRST, BEGIN, SEND_DE, SEND_ABC],
    early: 2,
    places: &[TWO_TOUCHED, TWO_TOUCHED, HALF_VISITED, VISITED, SENT_BEHIND],
    after: &[
        NAME_BOTH,
        CLOSE_BOTH,
        PUT_FIRST,
        FINISHED,
        OPENED_FIRST,
        AT_END_OF_TWO,
        DE_ABC,
    ],
};

/// A writer sends what is not there, and goes no further.
static SENT: Beside = Beside {
    files: NONE_OF_BOTH,
    entries: 0,
    before: &[],
    acts: &[BEGIN_FIRST, BEGIN, SEND_ABC],
    early: 2,
    places: &[ONE_SENT, ONE_SENT, ONE_SENT, ONE_SENT_BEHIND],
    after: &[],
};

/// A snapshot is forgotten.
static FORGOTTEN: Beside = Beside {
    files: &[
        (ABC_CHUNK, ABC_BLOB),
        (DE_CHUNK, DE_BLOB),
        (BOOK, RECENT),
        (MANIFEST_PATH, OF_TWO),
    ],
    entries: 2,
    before: &[],
    acts: &[FORGOT],
    early: 0,
    places: &[UNMARKED, UNMARKED, MARKED, MARKED, MARKED, MARKED],
    after: &[],
};

/// It is forgotten and made again.
static MADE_AGAIN: Beside = Beside {
    files: &[
        (ABC_CHUNK, ABC_BLOB),
        (DE_CHUNK, DE_BLOB),
        (BOOK, BEFORE),
        (MANIFEST_PATH, OF_MANY),
    ],
    entries: 1_001,
    before: &[],
    acts: MAKE_AGAIN,
    early: 0,
    // the third place is between its two marks
    places: &[
        ONE_MARKED,
        ONE_TOUCHED,
        MARKED,
        MARKED_TWICE,
        MARKED_TWICE,
        MARKED_TWICE,
        MARKED_TWICE,
    ],
    after: &[OPENED_FIRST, AT_END_OF_ONE, ABC],
};

/// Another lane's collector is open before, and goes on.
static OTHER_IS_OPEN: Beside = Beside {
    files: UNNEEDED,
    entries: 0,
    before: &[START_OTHER],
    acts: &[PASS_OTHER],
    early: 0,
    places: &[REFUSED, REFUSED],
    after: &[PASS_OTHER, TWO_GONE_BY_OTHER],
};

/// Another lane's collector is refused, and opens after.
static OTHER_IS_REFUSED: Beside = Beside {
    files: UNNEEDED,
    entries: 0,
    before: &[START],
    acts: &[(6, Step::Start, BUSY, 0), (6, Step::Pass, IN_NONE, 0)],
    early: 0,
    places: &[OPENED, OPENED, OPENED],
    after: &[START_OTHER, PASS_OTHER, NONE_USED_BY_OTHER],
};

/// Memory is wanting on the collector's lane.
static SHORT: Beside = Beside {
    files: ONE_NEEDED,
    entries: 1,
    before: &[],
    acts: &[(5, Step::Short, NO_MEMORY, 2)],
    early: 0,
    places: &[
        ONE_MARKED,
        SHORT_AT_MARK,
        SHORT_AT_FIRST,
        SHORT_AT_SECOND,
        SHORT_AT_END,
        ONE_MARKED,
    ],
    after: &[(5, Step::Pass, IN_NONE, 0)],
};

/// Memory is wanting on other lanes, a writer's among them.
static SHORT_ELSEWHERE: Beside = Beside {
    files: ONE_NEEDED,
    entries: 1,
    before: &[],
    acts: &[
        (7, Step::Short, NO_MEMORY, 2),
        OPEN,
        (3, Step::Short, NO_MEMORY, 2),
        (3, Step::Send(ABORT), DONE, 0),
    ],
    early: 1,
    places: &[
        ONE_MARKED, ONE_MARKED, ONE_MARKED, ONE_MARKED, ONE_MARKED, ONE_MARKED,
    ],
    after: &[],
};

/// The collector's lane ends, and another one's opens.
static ENDED: Beside = Beside {
    files: ONE_NEEDED,
    entries: 1,
    before: &[START],
    acts: &[(5, Step::End, NOTHING, 6), START_OTHER],
    early: 0,
    places: &[LEFT_AT_MARK, LEFT_AT_FIRST, LEFT_AT_SECOND, LEFT_AT_END],
    after: &[],
};

/// Adds the rows from one number on, up to another.
fn add(rt: &impl Abort, list: &mut Vec<Row>, rows: &[Row], from: usize, to: usize) {
    for (number, row) in rows.iter().enumerate() {
        if from <= number && number < to {
            must(rt, list.push(*row));
        }
    }
}

/// The acts of a collection.
fn collection_of(rt: &impl Abort, alloc: Global, place: &Place) -> Vec<Row> {
    let mut rows: Vec<Row> = Vec::new(alloc);
    if place.starts {
        must(rt, rows.push(START));
    }
    for _ in 0..place.passes {
        must(rt, rows.push(PASS));
    }
    if let Some(last) = place.last {
        must(rt, rows.push(last));
    }
    rows
}

/// What is done in all. So many of the acts come at an earlier place, and the rest at their own.
fn woven(rt: &impl Abort, alloc: Global, table: &Beside, place: &Place, spot: Spot) -> Vec<Row> {
    let [from, early, to, _] = spot;
    let collection = collection_of(rt, alloc, place);
    let mut list: Vec<Row> = Vec::new(alloc);
    add(rt, &mut list, table.before, 0, usize::MAX);
    add(rt, &mut list, &collection, 0, from);
    add(rt, &mut list, table.acts, 0, early);
    add(rt, &mut list, &collection, from, to);
    add(rt, &mut list, table.acts, early, usize::MAX);
    add(rt, &mut list, &collection, to, usize::MAX);
    add(rt, &mut list, table.after, 0, usize::MAX);
    list
}

/// Moments stand still, where the clock falls too.
fn try_spot(
    rt: &impl Abort,
    alloc: Global,
    clock: Clock,
    table: &Beside,
    place: &Place,
    spot: Spot,
) {
    let steps = woven(rt, alloc, table, place, spot);
    let case = Case {
        files: table.files,
        archives: Archives::Root(table.entries),
        clock,
        steps: &steps,
        left: place.left,
        saved: place.saved,
    };
    try_case(rt, alloc, spot, &case)
}

/// All acts come at one place, or so many before the collection begins, or at the place before.
fn try_place(rt: &impl Abort, alloc: Global, table: &Beside, place: &Place, spot: Spot) {
    try_spot(rt, alloc, STILL, table, place, spot);
    try_spot(rt, alloc, FALLING, table, place, spot);
    let [_, _, to, _] = spot;
    let from = to.saturating_sub(1);
    for early in 1..=table.early {
        try_spot(rt, alloc, STILL, table, place, [0, early, to, 0]);
        try_spot(rt, alloc, FALLING, table, place, [from, early, to, 0]);
    }
}

fn try_table(rt: &impl Abort, alloc: Global, table: &Beside) {
    for (to, place) in table.places.iter().enumerate() {
        try_place(rt, alloc, table, place, [0, 0, to, 0]);
    }
}

#[test]
fn a_writer_reuses(rt: HostRuntime) {
    try_table(&rt, rt.alloc(), &REUSED)
}

#[test]
fn a_writer_reuses_and_its_base_is_forgotten(rt: HostRuntime) {
    try_table(&rt, rt.alloc(), &REUSED_ALONE)
}

#[test]
fn a_writer_sends(rt: HostRuntime) {
    try_table(&rt, rt.alloc(), &WRITTEN)
}

#[test]
fn a_writer_sends_and_finishes_after(rt: HostRuntime) {
    try_table(&rt, rt.alloc(), &FINISHED_AFTER)
}

#[test]
fn a_writer_sends_what_is_gone(rt: HostRuntime) {
    try_table(&rt, rt.alloc(), &SENT)
}

#[test]
fn a_snapshot_is_forgotten(rt: HostRuntime) {
    try_table(&rt, rt.alloc(), &FORGOTTEN)
}

#[test]
fn a_snapshot_is_made_again(rt: HostRuntime) {
    try_table(&rt, rt.alloc(), &MADE_AGAIN)
}

#[test]
fn another_collector_is_open(rt: HostRuntime) {
    try_table(&rt, rt.alloc(), &OTHER_IS_OPEN)
}

#[test]
fn another_collector_is_refused(rt: HostRuntime) {
    try_table(&rt, rt.alloc(), &OTHER_IS_REFUSED)
}

#[test]
fn memory_is_wanting(rt: HostRuntime) {
    try_table(&rt, rt.alloc(), &SHORT)
}

#[test]
fn memory_is_wanting_elsewhere(rt: HostRuntime) {
    try_table(&rt, rt.alloc(), &SHORT_ELSEWHERE)
}

#[test]
fn the_lane_ends(rt: HostRuntime) {
    try_table(&rt, rt.alloc(), &ENDED)
}
