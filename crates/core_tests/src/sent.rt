//! Commands as they are sent, and frames of replies, that several tables have. They are made by `tests/make-tables`.
//!
//! The first and the second are two snapshots of one group, and the other is one of another group.

/// OPEN_WRITER.
pub(crate) const OPEN_FIRST: &[u8] = b"\x0a\x1bhost/a/2020-01-15T06:30:03Z";

pub(crate) const OPEN_SECOND: &[u8] = b"\x0a\x1bhost/a/2020-01-15T06:30:04Z";

pub(crate) const OPEN_OTHER: &[u8] = b"\x0a\x1bhost/b/2020-01-15T06:30:03Z";

/// OPEN_READER.
pub(crate) const READ_FIRST: &[u8] = b"\x14\x1bhost/a/2020-01-15T06:30:03Z";

pub(crate) const READ_SECOND: &[u8] = b"\x14\x1bhost/a/2020-01-15T06:30:04Z";

/// LIST of all.
pub(crate) const LIST: &[u8] = b"\x1e\0";

/// GROUP of the first two.
pub(crate) const GROUP: &[u8] = b"(\x06host/a";

/// FILES of the first.
pub(crate) const FILES: &[u8] = b"\x1f\x1bhost/a/2020-01-15T06:30:03Z";

pub(crate) const FORGET_FIRST: &[u8] = b" \x1bhost/a/2020-01-15T06:30:03Z";

pub(crate) const FORGET_SECOND: &[u8] = b" \x1bhost/a/2020-01-15T06:30:04Z";

pub(crate) const FORGET_OTHER: &[u8] = b" \x1bhost/b/2020-01-15T06:30:03Z";

/// PRUNE of the group of the first two, with no option.
pub(crate) const PRUNE: &[u8] = b"!\x06host/a\0\0\0\0\0\0\0\0\0\0\0\0\0";

/// A BLOB of `123456789`, and one of a manifest of the first that lists nothing, or that file.
pub(crate) const PUT_DIGITS: &[u8] =
    b"\x11\x0ba.conf.blobB\xab8\x07\xbe\x83p\xa1&9\xf4\xcb123456789";

pub(crate) const PUT_MANIFEST: &[u8] =
    b"\x11\x0findex.json.blobB\xab8\x07\xbe\x83p\xa1\xb2\x94\x08E{\"backup-id\":\"a\",\"backup-time\":1579069803,\"backup-type\":\"host\",\"files\":[]}";

pub(crate) const PUT_WITH_FILE: &[u8] =
    b"\x11\x0findex.json.blobB\xab8\x07\xbe\x83p\xa1X\xf6\x81\x8a{\"backup-id\":\"a\",\"backup-time\":1579069803,\"backup-type\":\"host\",\"files\":[{\"filename\":\"a.conf.blob\",\"size\":21,\"csum\":\"69dcb4830c28203c26a1dade2d893d7f1d13cdba5eb39e348b008f3a5a0fb688\"}]}";

pub(crate) const FINISH: &[u8] = b"\x12";

pub(crate) const ABORT: &[u8] = b"\x13";

pub(crate) const CLOSE_READER: &[u8] = b"\x18";

/// Nothing is told.
pub(crate) const NOTHING: &[u8] = b"";

pub(crate) const DONE: &[u8] = b"\x01\0\0\0\0";

/// The lane has no session, a writer, a reader.
pub(crate) const IN_NONE: &[u8] = b"\x02\0\0\0\x03\0";

pub(crate) const IN_WRITER: &[u8] = b"\x02\0\0\0\x03\x01";

pub(crate) const IN_READER: &[u8] = b"\x02\0\0\0\x03\x02";

pub(crate) const BAD_NAME: &[u8] = b"\x01\0\0\0\x04";

/// The writer of the group is lane 3's.
pub(crate) const GROUP_BUSY: &[u8] = b"\x05\0\0\0\x05\x03\0\0\0";

/// A new snapshot is not later than the first.
pub(crate) const NOT_NEWER: &[u8] = b"\x09\0\0\0\x07k\xb1\x1e^\0\0\0\0";

pub(crate) const NO_SNAPSHOT: &[u8] = b"\x01\0\0\0\x08";

pub(crate) const NO_FILE: &[u8] = b"\x01\0\0\0\x09";

pub(crate) const EXISTS: &[u8] = b"\x01\0\0\0\x0a";

pub(crate) const NOT_ALLOWED: &[u8] = b"\x01\0\0\0\x14";

/// The collector of lane 5 is open.
pub(crate) const BUSY: &[u8] = b"\x05\0\0\0\x19\x05\0\0\0";

pub(crate) const NO_MEMORY: &[u8] = b"\x01\0\0\0\x1c";

/// The first snapshot's manifest is unreadable, or its index.
pub(crate) const UNREADABLE: &[u8] = b"-\0\0\0\x18+host/a/2020-01-15T06:30:03Z/index.json.blob";

pub(crate) const NO_INDEX: &[u8] = b"'\0\0\0\x18%host/a/2020-01-15T06:30:03Z/root.didx";

/// A new writer has no base; it has the first snapshot as base.
pub(crate) const NO_BASE: &[u8] = b"\x02\0\0\0\0\0";

pub(crate) const FIRST_BASE: &[u8] = b"\x1d\0\0\0\0\x1bhost/a/2020-01-15T06:30:03Z";

/// The number of the first index of a writer.
pub(crate) const NUMBER: &[u8] = b"\x02\0\0\0\0\0";

/// No snapshot is told.
pub(crate) const NONE_THERE: &[u8] = b"\x03\0\0\0\0\0\0";

/// The first snapshot alone, as LIST tells it, with one file, and as GROUP does.
pub(crate) const ONE_LISTED: &[u8] = b"!\0\0\0\0\x01\0\x1bhost/a/2020-01-15T06:30:03Z\0\x01";

pub(crate) const ONE_KEY: &[u8] = b"\x1f\0\0\0\0\x01\0\x1bhost/a/2020-01-15T06:30:03Z";

/// The first two, as GROUP tells them.
pub(crate) const BOTH_KEYS: &[u8] =
    b";\0\0\0\0\x02\0\x1bhost/a/2020-01-15T06:30:03Z\x1bhost/a/2020-01-15T06:30:04Z";

/// A part of an index of two pieces from its end on, of 4,176 bytes.
pub(crate) const AT_END: &[u8] = b"\x09\0\0\0\0P\x10\0\0\0\0\0\0";
