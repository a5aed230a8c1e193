//! Prunes step by step. The bytes are made by `tests/make-tables`.

use crate::steps::{Row, try_rows};

/// The last week of 2020 ends in the next year; the day of the last is served already; the newest goes first, and one that a lane holds,
/// and one that is gone, do not end the job.
static PRUNES: [Row; 3] = [
    (
        b"!\x06host/a\0\0\0\0\0\0\x02\0\0\0\0\0\0",
        &[
            b"\0\x03\0\x1bhost/a/2020-12-31T12:00:00Z\x1bhost/a/2021-01-03T12:00:00Z\x1bhost/a/2021-01-04T12:00:00Z",
            b"\0",
        ],
        b"\x08\0\0\0(\x06host/a\x1d\0\0\0 \x1bhost/a/2020-12-31T12:00:00ZZ\0\0\0\0\x03\0\x1bhost/a/2021-01-04T12:00:00Z\x01\x1bhost/a/2021-01-03T12:00:00Z\x01\x1bhost/a/2020-12-31T12:00:00Z\0",
    ),
    (
        b"!\x06host/a\x01\0\0\0\x01\0\0\0\0\0\0\0\0",
        &[
            b"\0\x03\0\x1bhost/a/2020-01-14T23:59:59Z\x1bhost/a/2020-01-15T00:00:00Z\x1bhost/a/2020-01-15T06:30:03Z",
            b"\0",
        ],
        b"\x08\0\0\0(\x06host/a\x1d\0\0\0 \x1bhost/a/2020-01-15T00:00:00ZZ\0\0\0\0\x03\0\x1bhost/a/2020-01-15T06:30:03Z\x01\x1bhost/a/2020-01-15T00:00:00Z\0\x1bhost/a/2020-01-14T23:59:59Z\x01",
    ),
    (
        b"!\x06host/a\x01\0\0\0\0\0\0\0\0\0\0\0\0",
        &[
            b"\0\x03\0\x1bhost/a/2020-01-14T23:59:59Z\x1bhost/a/2020-01-15T00:00:00Z\x1bhost/a/2020-01-15T06:30:03Z",
            b"\x06\x03\0\0\0",
            b"\x08",
        ],
        b"\x08\0\0\0(\x06host/a\x1d\0\0\0 \x1bhost/a/2020-01-15T00:00:00Z\x1d\0\0\0 \x1bhost/a/2020-01-14T23:59:59ZZ\0\0\0\0\x03\0\x1bhost/a/2020-01-15T06:30:03Z\x01\x1bhost/a/2020-01-15T00:00:00Z\x02\x1bhost/a/2020-01-14T23:59:59Z\x03",
    ),
];

/// Prunes that remove nothing: a dry run asks no more than the group; with no option all is kept; a group without snapshots.
static KEEPING: [Row; 3] = [
    (
        b"!\x06host/a\x01\0\0\0\x01\0\0\0\0\0\0\0\x01",
        &[
            b"\0\x03\0\x1bhost/a/2020-01-14T23:59:59Z\x1bhost/a/2020-01-15T00:00:00Z\x1bhost/a/2020-01-15T06:30:03Z",
        ],
        b"\x08\0\0\0(\x06host/aZ\0\0\0\0\x03\0\x1bhost/a/2020-01-15T06:30:03Z\x01\x1bhost/a/2020-01-15T00:00:00Z\0\x1bhost/a/2020-01-14T23:59:59Z\x01",
    ),
    (
        b"!\x06host/a\0\0\0\0\0\0\0\0\0\0\0\0\0",
        &[
            b"\0\x03\0\x1bhost/a/2020-12-31T12:00:00Z\x1bhost/a/2021-01-03T12:00:00Z\x1bhost/a/2021-01-04T12:00:00Z",
        ],
        b"\x08\0\0\0(\x06host/aZ\0\0\0\0\x03\0\x1bhost/a/2021-01-04T12:00:00Z\x01\x1bhost/a/2021-01-03T12:00:00Z\x01\x1bhost/a/2020-12-31T12:00:00Z\x01",
    ),
    (
        b"!\x06host/a\x01\0\0\0\0\0\0\0\0\0\0\0\0",
        &[b"\0\0\0"],
        b"\x08\0\0\0(\x06host/a\x03\0\0\0\0\0\0",
    ),
];

/// Other refusals are the report.
static ENDED: [Row; 3] = [
    (
        b"!\x06host/a\x01\0\0\0\0\0\0\0\0\0\0\0\0",
        &[
            b"\0\x03\0\x1bhost/a/2020-01-14T23:59:59Z\x1bhost/a/2020-01-15T00:00:00Z\x1bhost/a/2020-01-15T06:30:03Z",
            b"\x03\x01",
        ],
        b"\x08\0\0\0(\x06host/a\x1d\0\0\0 \x1bhost/a/2020-01-15T00:00:00Z\x02\0\0\0\x03\x01",
    ),
    (
        b"!\x06host/a\x01\0\0\0\0\0\0\0\0\0\0\0\0",
        &[
            b"\0\x03\0\x1bhost/a/2020-01-14T23:59:59Z\x1bhost/a/2020-01-15T00:00:00Z\x1bhost/a/2020-01-15T06:30:03Z",
            b"\x1c",
        ],
        b"\x08\0\0\0(\x06host/a\x1d\0\0\0 \x1bhost/a/2020-01-15T00:00:00Z\x01\0\0\0\x1c",
    ),
    (
        b"!\x06host/a\x01\0\0\0\0\0\0\0\0\0\0\0\0",
        &[
            b"\0\x03\0\x1bhost/a/2020-01-14T23:59:59Z\x1bhost/a/2020-01-15T00:00:00Z\x1bhost/a/2020-01-15T06:30:03Z",
            b"\0",
            b"\x1a",
        ],
        b"\x08\0\0\0(\x06host/a\x1d\0\0\0 \x1bhost/a/2020-01-15T00:00:00Z\x1d\0\0\0 \x1bhost/a/2020-01-14T23:59:59Z\x01\0\0\0\x1a",
    ),
];

/// Prunes whose own command is refused: that is the report.
static REFUSED: [Row; 3] = [
    (
        b"!\x06host/a\x01\0\0\0\0\0\0\0\0\0\0\0\0",
        &[b"\x03\x01"],
        b"\x08\0\0\0(\x06host/a\x02\0\0\0\x03\x01",
    ),
    (
        b"!\x06host/a\x01\0\0\0\0\0\0\0\0\0\0\0\0",
        &[b"\x04"],
        b"\x08\0\0\0(\x06host/a\x01\0\0\0\x04",
    ),
    (
        b"!\x06host/a\x01\0\0\0\0\0\0\0\0\0\0\0\0",
        &[b"\x15\xe8\x03\0\0"],
        b"\x08\0\0\0(\x06host/a\x05\0\0\0\x15\xe8\x03\0\0",
    ),
];

#[test]
fn prunes_ask_and_report(rt: HostRuntime) {
    try_rows(&rt, rt.alloc(), &PRUNES);
    try_rows(&rt, rt.alloc(), &KEEPING);
    try_rows(&rt, rt.alloc(), &ENDED);
    try_rows(&rt, rt.alloc(), &REFUSED)
}
