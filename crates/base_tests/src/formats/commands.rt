ghost use Rattle.wire_commands.specs.HasText.{ReplyHasText};

use crate::asserts::{must, same, same_at};
use port_traits::{Failed, MemSink, Sink};
use std::alloc::Global;
use std::process::Abort;
use wire_commands::{BadFrame, Command, Reply};

/// Bodies of commands of writers.
static WRITER_COMMANDS: [&[u8]; 13] = [
    b"\x0a\x1bhost/a/2020-01-15T06:30:03Z",
    b"\x0b\x09root.didx\x15\0\0\0\0\0\0\0",
    b"\x0c\x09disk.fidx\x01\x10\0\0\0\0\0\0\0\x20\0\0\0\0\0\0",
    b"\x0d\x09root.didx",
    b"\x0e\xba\x78\x16\xbf\x8f\x01\xcf\xea\x41\x41\x40\xde\x5d\xae\x22\x23\xb0\x03\x61\xa3\x96\x17\x7a\x9c\xb4\x10\xff\x61\xf2\0\x15\xad\x42\xab\x38\x07\xbe\x83\x70\xa1\xc2\x41\x24\x35abc",
    b"\x0e\xba\x78\x16\xbf\x8f\x01\xcf\xea\x41\x41\x40\xde\x5d\xae\x22\x23\xb0\x03\x61\xa3\x96\x17\x7a\x9c\xb4\x10\xff\x61\xf2\0\x15\xad",
    b"\x0f\0\x02\0\xba\x78\x16\xbf\x8f\x01\xcf\xea\x41\x41\x40\xde\x5d\xae\x22\x23\xb0\x03\x61\xa3\x96\x17\x7a\x9c\xb4\x10\xff\x61\xf2\0\x15\xad\0\0\0\0\0\0\0\0\x95\x9a\x45\xd4\x4e\x6f\xcf\x58\x36\x1e\xd0\x04\x68\x15\x56\xfe\x50\x12\x9f\x21\x09\xe8\x17\xde\xc0\x98\xc0\x0c\x9e\x5d\x25\x78\x03\0\0\0\0\0\0\0",
    b"\x0f\x0f\0\0",
    b"\x10\0\x02\0\0\0\0\0\0\0\x05\0\0\0\0\0\0\0\xda\x46\x4a\xae\x3d\x9f\x63\xd0\x6f\x30\x87\x10\x06\x2b\x5d\xb4\x19\x96\xb1\xe3\x69\x90\xb9\x2e\xcc\x69\x34\x40\xe6\x66\x01\x51",
    b"\x11\x0findex.json.blob\x42\xab\x38\x07\xbe\x83\x70\xa1\xb2\x94\x08\x45{\"backup-id\":\"a\",\"backup-time\":1579069803,\"backup-type\":\"host\",\"files\":[]}",
    b"\x11\0",
    b"\x12",
    b"\x13",
];

/// Of commands outside of sessions.
static OTHER_COMMANDS: [&[u8]; 10] = [
    b"\x1e\0",
    b"\x1e\x1bhost/a/2020-01-15T06:30:03Z",
    b"\x1f\x1bhost/a/2020-01-15T06:30:03Z",
    b"\x20\x1bhost/a/2020-01-15T06:30:03Z",
    b"\x21\x06host/a\0\0\0\0\0\0\x02\0\0\0\0\0\0",
    b"\x21\x06host/a\x01\0\x02\0\x03\0\x04\0\x05\0\xe8\x03\x01",
    b"\x22\x1bhost/a/2020-01-15T06:30:03Z",
    b"\x23\x06host/a",
    b"\x24",
    b"\x28\x06host/a",
];

/// Of commands of readers, and BYE.
static READER_COMMANDS: [&[u8]; 7] = [
    b"\x14\x1bhost/a/2020-01-15T06:30:03Z",
    b"\x15\x0findex.json.blob\0\0\0\0\0\0\0\0",
    b"\x15\0\x01\x02\x03\x04\x05\x06\x07\x08",
    b"\x16\xba\x78\x16\xbf\x8f\x01\xcf\xea\x41\x41\x40\xde\x5d\xae\x22\x23\xb0\x03\x61\xa3\x96\x17\x7a\x9c\xb4\x10\xff\x61\xf2\0\x15\xad",
    b"\x17\x09root.didx\x02\x01\0\0\0\0\0\0\x03\0\0\0",
    b"\x18",
    b"\x3f",
];

/// Bodies that are no commands of writers.
static BAD_WRITER_BODIES: [&[u8]; 20] = [
    b"\x0a",
    b"\x0a\x02a",
    b"\x0a\x01ab",
    b"\x0b\x01a\0\0\0\0\0\0\0",
    b"\x0c\x01a\0\0\0\0\0\0\0\0\0\x10\0\0",
    b"\x0c\x01a\0\0\0\0\0\0\0\0\0\x10\0\0\0\0\0\0\0",
    b"\x0d",
    b"\x0d\x01ab",
    b"\x0e\xba\x78\x16\xbf\x8f\x01\xcf\xea\x41\x41\x40\xde\x5d\xae\x22\x23\xb0\x03\x61\xa3\x96\x17\x7a\x9c\xb4\x10\xff\x61\xf2\0\x15",
    b"\x0f\0\0",
    b"\x0f\0\0\0\0",
    b"\x0f\0\x01\0\xba\x78\x16\xbf\x8f\x01\xcf\xea\x41\x41\x40\xde\x5d\xae\x22\x23\xb0\x03\x61\xa3\x96\x17\x7a\x9c\xb4\x10\xff\x61\xf2\0\x15\xad\0\0\0\0\0\0\0",
    b"\x0f\0\x02\0\xba\x78\x16\xbf\x8f\x01\xcf\xea\x41\x41\x40\xde\x5d\xae\x22\x23\xb0\x03\x61\xa3\x96\x17\x7a\x9c\xb4\x10\xff\x61\xf2\0\x15\xad\0\0\0\0\0\0\0\0",
    b"\x0f\0\0\0\xba\x78\x16\xbf\x8f\x01\xcf\xea\x41\x41\x40\xde\x5d\xae\x22\x23\xb0\x03\x61\xa3\x96\x17\x7a\x9c\xb4\x10\xff\x61\xf2\0\x15\xad\0\0\0\0\0\0\0\0",
    b"\x10\0\0\0\0\0\0\0\0\0\0\0\0\0\0\0\0\0\xe3\xb0\xc4\x42\x98\xfc\x1c\x14\x9a\xfb\xf4\xc8\x99\x6f\xb9\x24\x27\xae\x41\xe4\x64\x9b\x93\x4c\xa4\x95\x99\x1b\x78\x52\xb8",
    b"\x10\0\0\0\0\0\0\0\0\0\0\0\0\0\0\0\0\0\xe3\xb0\xc4\x42\x98\xfc\x1c\x14\x9a\xfb\xf4\xc8\x99\x6f\xb9\x24\x27\xae\x41\xe4\x64\x9b\x93\x4c\xa4\x95\x99\x1b\x78\x52\xb8\x55\0",
    b"\x11",
    b"\x11\x02a",
    b"\x12\0",
    b"\x13\0",
];

/// Of readers.
static BAD_READER_BODIES: [&[u8]; 8] = [
    b"\x14\x01",
    b"\x15\x01a\0\0\0\0\0\0\0",
    b"\x15\x01a\0\0\0\0\0\0\0\0\0",
    b"\x16\xba\x78\x16\xbf\x8f\x01\xcf\xea\x41\x41\x40\xde\x5d\xae\x22\x23\xb0\x03\x61\xa3\x96\x17\x7a\x9c\xb4\x10\xff\x61\xf2\0\x15",
    b"\x16\xba\x78\x16\xbf\x8f\x01\xcf\xea\x41\x41\x40\xde\x5d\xae\x22\x23\xb0\x03\x61\xa3\x96\x17\x7a\x9c\xb4\x10\xff\x61\xf2\0\x15\xad\0",
    b"\x17\x01a\0\0\0\0\0\0\0\0\0\0\0",
    b"\x17\x01a\0\0\0\0\0\0\0\0\0\0\0\0\0\0\0\0",
    b"\x18\0",
];

/// And none outside of sessions.
static BAD_OTHER_BODIES: [&[u8]; 9] = [
    b"\x1e",
    b"\x1e\x02a",
    b"\x1f\x01ab",
    b"\x21\x06host/a\0\0\0\0\0\0\x02\0\0\0\0\0",
    b"\x21\x06host/a\0\0\0\0\0\0\x02\0\0\0\0\0\x02",
    b"\x21\x06host/a\0\0\0\0\0\0\x02\0\0\0\0\0\0\0",
    b"\x22\x01",
    b"\x23\x01ab",
    b"\x24\0",
];

/// Bodies with no command's code, and a BYE that is too long.
static BAD_CODES: [&[u8]; 6] = [b"", b"\0", b"\x63", b"\x29", b"\x3f\0", b"\xff"];

/// The code of a writer's or a reader's command or of BYE, and the frame of a reply to it.
static SESSION_REPLIES: [(u8, &[u8]); 17] = [
    (10, b"\x02\0\0\0\0\0"),
    (10, b"\x1d\0\0\0\0\x1bhost/a/2020-01-15T06:30:03Z"),
    (11, b"\x0b\0\0\0\0\x15\0\0\0\0\0\0\0\x42\xab"),
    (12, b"\x02\0\0\0\0\x01"),
    (13, b"\x02\0\0\0\0\x0f"),
    (14, b"\x01\0\0\0\0"),
    (15, b"\x01\0\0\0\0"),
    (16, b"\x01\0\0\0\0"),
    (17, b"\x01\0\0\0\0"),
    (19, b"\x01\0\0\0\0"),
    (
        22,
        b"\x10\0\0\0\0\x42\xab\x38\x07\xbe\x83\x70\xa1\xc2\x41\x24\x35abc",
    ),
    (23, b"\x04\0\0\0\0abc"),
    (23, b"\x01\0\0\0\0"),
    (24, b"\x01\0\0\0\0"),
    (63, b"\x01\0\0\0\0"),
    (
        21,
        b"\x1e\0\0\0\0\x15\0\0\0\0\0\0\0\x42\xab\x38\x07\xbe\x83\x70\xa1\x26\x39\xf4\xcb123456789",
    ),
    (21, b"\x09\0\0\0\0\x15\0\0\0\0\0\0\0"),
];

/// The same, of commands outside of sessions.
static OTHER_REPLIES: [(u8, &[u8]); 11] = [
    (30, b"\x03\0\0\0\0\0\0"),
    (
        30,
        b"\x28\0\0\0\0\x02\0\x1bhost/a/2020-01-15T06:30:03Z\0\x01\x04ct/a\x01\0",
    ),
    (
        31,
        b"\x34\0\0\0\0\x01\x09root.didx\x05\0\0\0\0\0\0\0\xba\x78\x16\xbf\x8f\x01\xcf\xea\x41\x41\x40\xde\x5d\xae\x22\x23\xb0\x03\x61\xa3\x96\x17\x7a\x9c\xb4\x10\xff\x61\xf2\0\x15\xad",
    ),
    (32, b"\x01\0\0\0\0"),
    (33, b"\x10\0\0\0\0\x04\0\x02ab\0\x01c\x01\x01d\x02\x01e\x03"),
    (
        34,
        b"\x13\0\0\0\0\x02\x02\0\0\0\0\0\0\0\x05\0\0\0\0\0\0\0\0",
    ),
    (
        34,
        b"\x7c\0\0\0\0\x03\0\0\0\0\0\0\0\0\0\0\0\0\0\0\0\0\x03\x01a\x13\0\0\0\0\0\0\0\0\0\0\0\0\0\0\0\0\0\0\0\0\0\0\0\0\0\0\0\0\0\0\0\0\x01b\x17\xba\x78\x16\xbf\x8f\x01\xcf\xea\x41\x41\x40\xde\x5d\xae\x22\x23\xb0\x03\x61\xa3\x96\x17\x7a\x9c\xb4\x10\xff\x61\xf2\0\x15\xad\x01c\x18\0\0\0\0\0\0\0\0\0\0\0\0\0\0\0\0\0\0\0\0\0\0\0\0\0\0\0\0\0\0\0\0",
    ),
    (35, b"\x1f\0\0\0\0\x01\0\x1bhost/a/2020-01-15T06:30:03Z"),
    (
        36,
        b"\x29\0\0\0\0\x40\x42\x0f\0\0\0\0\0\x94\xef\x0d\0\0\0\0\0\x02\0\0\0\0\0\0\0\0\0\0\0\0\0\0\0\0\0\0\0\0\0\0\0",
    ),
    (40, b"\x03\0\0\0\0\0\0"),
    (40, b"\x08\0\0\0\0\x02\0\x02ab\x01c"),
];

/// Frames of refusals: the numbers 1 to 11.
static REFUSALS: [&[u8]; 19] = [
    b"\x09\0\0\0\x01\0\0\0\0\0\0\0\0",
    b"\x05\0\0\0\x02\x01\x04\0\x01",
    b"\x02\0\0\0\x03\0",
    b"\x02\0\0\0\x03\x01",
    b"\x02\0\0\0\x03\x02",
    b"\x01\0\0\0\x04",
    b"\x05\0\0\0\x05\x03\0\0\0",
    b"\x05\0\0\0\x06\x02\x01\0\0",
    b"\x09\0\0\0\x07\x6b\xb1\x1e\x5e\0\0\0\0",
    b"\x01\0\0\0\x08",
    b"\x01\0\0\0\x09",
    b"\x01\0\0\0\x0a",
    b"\x02\0\0\0\x0b\x01",
    b"\x02\0\0\0\x0b\x02",
    b"\x02\0\0\0\x0b\x03",
    b"\x02\0\0\0\x0b\x04",
    b"\x02\0\0\0\x0b\x05",
    b"\x02\0\0\0\x0b\x06",
    b"\x0a\0\0\0\x0b\x07\x27\x39\xf4\xcb\x26\x39\xf4\xcb",
];

/// The numbers 12 to 19.
static LATER_REFUSALS: [&[u8]; 12] = [
    b"\x21\0\0\0\x0c\xba\x78\x16\xbf\x8f\x01\xcf\xea\x41\x41\x40\xde\x5d\xae\x22\x23\xb0\x03\x61\xa3\x96\x17\x7a\x9c\xb4\x10\xff\x61\xf2\0\x15\xad",
    b"\x0d\0\0\0\x0d\x01\0\0\0\x88\x13\0\0\0\0\0\0",
    b"\x05\0\0\0\x0e\0\0\0\0",
    b"\x0d\0\0\0\x0f\x01\0\0\0\x03\0\0\0\0\0\0\0",
    b"\x22\0\0\0\x10\x01\0\0\0\0\0\0\0\0\0\0\0\0\0\0\0\0\0\0\0\0\0\0\0\0\0\0\0\0\0\0\0\0",
    b"\x22\0\0\0\x10\x02\x01\x10\0\0\0\0\0\0\0\0\0\0\0\0\0\0\0\0\0\0\0\0\0\0\0\0\0\0\0\0\0\0",
    b"\x22\0\0\0\x10\x03\xe3\xb0\xc4\x42\x98\xfc\x1c\x14\x9a\xfb\xf4\xc8\x99\x6f\xb9\x24\x27\xae\x41\xe4\x64\x9b\x93\x4c\xa4\x95\x99\x1b\x78\x52\xb8\x55",
    b"\x22\0\0\0\x10\x04\x05\0\0\0\0\0\0\0\0\0\0\0\0\0\0\0\0\0\0\0\0\0\0\0\0\0\0\0\0\0\0\0",
    b"\x02\0\0\0\x11\x01",
    b"\x02\0\0\0\x12\x05",
    b"\x03\0\0\0\x13\0\x03",
    b"\x0c\0\0\0\x13\x09root.didx\x06",
];

/// The numbers from 20 on.
static LAST_REFUSALS: [&[u8]; 13] = [
    b"\x01\0\0\0\x14",
    b"\x05\0\0\0\x15\0\0\x10\0",
    b"\x09\0\0\0\x16\x15\0\0\0\0\0\0\0",
    b"\x42\0\0\0\x17\xba\x78\x16\xbf\x8f\x01\xcf\xea\x41\x41\x40\xde\x5d\xae\x22\x23\xb0\x03\x61\xa3\x96\x17\x7a\x9c\xb4\x10\xff\x61\xf2\0\x15\xad\0\0\0\0\0\0\0\0\0\0\0\0\0\0\0\0\0\0\0\0\0\0\0\0\0\0\0\0\0\0\0\0\0",
    b"\x42\0\0\0\x17\xba\x78\x16\xbf\x8f\x01\xcf\xea\x41\x41\x40\xde\x5d\xae\x22\x23\xb0\x03\x61\xa3\x96\x17\x7a\x9c\xb4\x10\xff\x61\xf2\0\x15\xad\x01\0\0\0\0\0\0\0\0\0\0\0\0\0\0\0\0\0\0\0\0\0\0\0\0\0\0\0\0\0\0\0\0",
    b"\x42\0\0\0\x17\xba\x78\x16\xbf\x8f\x01\xcf\xea\x41\x41\x40\xde\x5d\xae\x22\x23\xb0\x03\x61\xa3\x96\x17\x7a\x9c\xb4\x10\xff\x61\xf2\0\x15\xad\x02\xe3\xb0\xc4\x42\x98\xfc\x1c\x14\x9a\xfb\xf4\xc8\x99\x6f\xb9\x24\x27\xae\x41\xe4\x64\x9b\x93\x4c\xa4\x95\x99\x1b\x78\x52\xb8\x55",
    b"\x0b\0\0\0\x18\x09root.didx",
    b"\x05\0\0\0\x19\x3f\0\0\0",
    b"\x01\0\0\0\x1a",
    b"\x09\0\0\0\x1b\x07\0\0\0\0\0\0\0",
    b"\x01\0\0\0\x1c",
    b"\x01\0\0\0\x1d",
    b"\x01\0\0\0\x1e",
];

/// The code of a writer's or a reader's command or of none, and a body that is no reply to it.
static BAD_SESSION_REPLIES: [(u8, &[u8]); 10] = [
    (11, b"\0"),
    (12, b"\0"),
    (13, b"\0"),
    (13, b"\0\0\0"),
    (14, b"\0\0"),
    (18, b"\0\0"),
    (99, b"\0"),
    (10, b"\0"),
    (21, b"\0\x01\x02\x03\x04\x05\x06\x07"),
    (22, b""),
];

/// Bodies that are no refusals.
static BAD_REFUSALS: [&[u8]; 13] = [
    b"",
    b"\x1f",
    b"\x03\x03",
    b"\x0b\0",
    b"\x0b\x08",
    b"\x10\x05\0\0\0\0\0\0\0\0\0\0\0\0\0\0\0\0\0\0\0\0\0\0\0\0\0\0\0\0\0\0\0\0",
    b"\x10\x01\0\0\0\0\0\0\0\0\0\0\0\0\0\0\0\0\0\0\0\0\0\0\0\0\0\0\0\0\0\0\0\x01",
    b"\x12\x06",
    b"\x13\x01a\x03",
    b"\x13\0\x04",
    b"\x17\xba\x78\x16\xbf\x8f\x01\xcf\xea\x41\x41\x40\xde\x5d\xae\x22\x23\xb0\x03\x61\xa3\x96\x17\x7a\x9c\xb4\x10\xff\x61\xf2\0\x15\xad\0\xe3\xb0\xc4\x42\x98\xfc\x1c\x14\x9a\xfb\xf4\xc8\x99\x6f\xb9\x24\x27\xae\x41\xe4\x64\x9b\x93\x4c\xa4\x95\x99\x1b\x78\x52\xb8\x55",
    b"\x17\xba\x78\x16\xbf\x8f\x01\xcf\xea\x41\x41\x40\xde\x5d\xae\x22\x23\xb0\x03\x61\xa3\x96\x17\x7a\x9c\xb4\x10\xff\x61\xf2\0\x15\xad\x03\0\0\0\0\0\0\0\0\0\0\0\0\0\0\0\0\0\0\0\0\0\0\0\0\0\0\0\0\0\0\0\0",
    b"\x04\0",
];

/// The code of a command outside of sessions, and a body that is no reply to it.
static BAD_OTHER_REPLIES: [(u8, &[u8]); 14] = [
    (30, b"\0\x01"),
    (30, b"\0\x01\0\x01a\x02\0"),
    (30, b"\0\x01\0\x01a\x01\x05"),
    (31, b"\0\x01\x01a\0\0\0\0\0\0\0\0"),
    (32, b"\0\0"),
    (33, b"\0\x01\0\x01a\x04"),
    (33, b"\0\x02\0\x01a\x01"),
    (
        34,
        b"\0\x01\0\0\0\0\0\0\0\0\0\0\0\0\0\0\0\0\x01\x01a\x14\0\0\0\0\0\0\0\0\0\0\0\0\0\0\0\0\0\0\0\0\0\0\0\0\0\0\0\0\0\0\0\0",
    ),
    (
        34,
        b"\0\x01\0\0\0\0\0\0\0\0\0\0\0\0\0\0\0\0\x01\x01a\x13\xba\x78\x16\xbf\x8f\x01\xcf\xea\x41\x41\x40\xde\x5d\xae\x22\x23\xb0\x03\x61\xa3\x96\x17\x7a\x9c\xb4\x10\xff\x61\xf2\0\x15\xad",
    ),
    (35, b"\0"),
    (
        36,
        b"\0\x40\x42\x0f\0\0\0\0\0\x94\xef\x0d\0\0\0\0\0\x02\0\0\0\0\0\0\0\0\0\0\0\0\0\0\0\0\0\0\0\0\0\0",
    ),
    (
        36,
        b"\0\x40\x42\x0f\0\0\0\0\0\x94\xef\x0d\0\0\0\0\0\x02\0\0\0\0\0\0\0\0\0\0\0\0\0\0\0\0\0\0\0\0\0\0\0\0",
    ),
    (40, b"\0\x01\0\x01a\0"),
    (40, b"\0\0\0\0"),
];

/// The text of the command that a body spells, where it spells one.
fn text_read(rt: &impl Abort, alloc: Global, body: &[u8]) -> Option<Vec<u8>> {
    match must(rt, Command::read(alloc, body)) {
        Ok(command) => Some(must(rt, command.text(alloc))),
        Err(BadFrame) => None,
    }
}

fn try_command(rt: &impl Abort, alloc: Global, body: &[u8]) {
    let text = text_read(rt, alloc, body);
    same_at(rt, body, text.is_some(), true);
    let text = must(rt, text.ok_or("no command"));
    same_at(rt, body, text.as_slice(), body);
}

/// Each front of a body is no command, or the whole text of one.
fn try_fronts(rt: &impl Abort, alloc: Global, body: &[u8]) {
    for len in 0..body.len() {
        let front = &body[..len];
        if let Some(text) = text_read(rt, alloc, front) {
            same_at(rt, body, text.as_slice(), front);
        }
    }
}

fn try_commands(rt: &impl Abort, alloc: Global, bodies: &[&[u8]]) {
    for body in bodies {
        try_command(rt, alloc, body);
        try_fronts(rt, alloc, body);
    }
}

#[test]
fn commands(rt: HostRuntime) {
    let alloc = rt.alloc();
    try_commands(&rt, alloc, &WRITER_COMMANDS);
    try_commands(&rt, alloc, &READER_COMMANDS);
    try_commands(&rt, alloc, &OTHER_COMMANDS)
}

fn try_no_commands(rt: &impl Abort, alloc: Global, bodies: &[&[u8]]) {
    for body in bodies {
        let is_none = text_read(rt, alloc, body).is_none();
        same_at(rt, *body, is_none, true);
    }
}

#[test]
fn no_commands(rt: HostRuntime) {
    let alloc = rt.alloc();
    try_no_commands(&rt, alloc, &BAD_WRITER_BODIES);
    try_no_commands(&rt, alloc, &BAD_READER_BODIES);
    try_no_commands(&rt, alloc, &BAD_OTHER_BODIES);
    try_no_commands(&rt, alloc, &BAD_CODES)
}

/// How many bytes were given.
fn put<K: Sink>(reply: &Reply, sink: &mut K) -> Result<u64, Failed>
    requires { ReplyHasText reply.now }
{
    let mut given = 0;
    reply.put_counted(sink, &mut given)?;
    Ok(given)
}

/// The frame of a reply, and how many bytes are given where it is put once more.
fn frame_of(rt: &impl Abort, alloc: Global, reply: &Reply) -> (Vec<u8>, u64)
    requires { ReplyHasText reply.now }
{
    let mut sink = MemSink::new(alloc, Vec::new(alloc));
    must(rt, reply.put(&mut sink));
    let frame = must(rt, sink.as_bytes().to_vec(alloc));
    let given = must(rt, put(reply, &mut sink));
    (frame, given)
}

/// The same of the reply to a command of the code that a body spells, where it spells one.
fn frame_read(rt: &impl Abort, alloc: Global, code: u8, body: &[u8]) -> Option<(Vec<u8>, u64)> {
    match must(rt, Reply::read(alloc, code, body)) {
        Some(reply) => Some(frame_of(rt, alloc, &reply)),
        None => None,
    }
}

fn try_reply(rt: &impl Abort, alloc: Global, code: u8, frame: &[u8]) {
    let body = must(rt, frame.get(4..).ok_or("no frame"));
    let read = frame_read(rt, alloc, code, body);
    same_at(rt, (code, body), read.is_some(), true);
    let (found, given) = must(rt, read.ok_or("no reply"));
    same_at(rt, frame, found.as_slice(), frame);
    same_at(rt, frame, given, frame.len() as u64);
}

/// Each front of a reply's body is none to the code, or the whole body of one.
fn try_short_replies(rt: &impl Abort, alloc: Global, code: u8, frame: &[u8]) {
    let body = must(rt, frame.get(4..).ok_or("no frame"));
    for len in 0..body.len() {
        let front = &body[..len];
        if let Some((found, _)) = frame_read(rt, alloc, code, front) {
            same_at(rt, (code, body), found.get(4..), Some(front));
        }
    }
}

fn try_replies(rt: &impl Abort, alloc: Global, replies: &[(u8, &[u8])]) {
    for (code, frame) in replies {
        try_reply(rt, alloc, *code, frame);
        try_short_replies(rt, alloc, *code, frame);
    }
}

#[test]
fn replies(rt: HostRuntime) {
    let alloc = rt.alloc();
    try_replies(&rt, alloc, &SESSION_REPLIES);
    try_replies(&rt, alloc, &OTHER_REPLIES)
}

/// Refusals as replies to a code that no command has.
fn try_refusals(rt: &impl Abort, alloc: Global, frames: &[&[u8]]) {
    for frame in frames {
        try_reply(rt, alloc, 99, frame);
        try_short_replies(rt, alloc, 99, frame);
    }
}

#[test]
fn refusals(rt: HostRuntime) {
    let alloc = rt.alloc();
    try_refusals(&rt, alloc, &REFUSALS);
    try_refusals(&rt, alloc, &LATER_REFUSALS);
    try_refusals(&rt, alloc, &LAST_REFUSALS)
}

fn try_no_reply(rt: &impl Abort, alloc: Global, code: u8, body: &[u8]) {
    let is_none = frame_read(rt, alloc, code, body).is_none();
    same_at(rt, (code, body), is_none, true);
}

fn try_no_replies(rt: &impl Abort, alloc: Global, bodies: &[(u8, &[u8])]) {
    for (code, body) in bodies {
        try_no_reply(rt, alloc, *code, body);
    }
}

#[test]
fn no_replies(rt: HostRuntime) {
    let alloc = rt.alloc();
    try_no_replies(&rt, alloc, &BAD_SESSION_REPLIES);
    try_no_replies(&rt, alloc, &BAD_OTHER_REPLIES);
    // to the opening of a writer
    for body in &BAD_REFUSALS {
        try_no_reply(&rt, alloc, 10, body);
    }
}

/// A CHUNK, and the reply to a GET_CHUNK, of a byte more than a frame has.
#[test]
fn bodies_have_a_limit(rt: HostRuntime) {
    let alloc = rt.alloc();
    let command = must(&rt, vec![in alloc; 14u8; 16_778_241]);
    same(&rt, text_read(&rt, alloc, &command).is_none(), true);
    let reply = must(&rt, vec![in alloc; 0u8; 16_778_241]);
    same(&rt, frame_read(&rt, alloc, 22, &reply).is_none(), true);
}
