//! Replies that were kept of an order, compared with those of its replay. The bytes are made by `tests/make-tables`, which says of each
//! string which commands and replies it has.

ghost use Rattle.std.specs.Prelude.{◌≡◌, ◌<◌, ◌+◌, length};

use crate::asserts::{must, same};
use crate::folders::store_of;
use crate::order::file_of;
use port_traits::MemSource;
use replay::{Comparison, Unread, line, read_faultless, read_out, replay};
use std::alloc::Global;
use std::process::Abort;
use store_types::Bytes;

/// What two lanes send to an empty datastore in this order, what was kept of their replies, and the line that tells the comparison.
struct Check {
    order: &'static [u8],
    sent: [&'static [u8]; 2],
    kept: [&'static [u8]; 2],
    line: &'static [u8],
}

fn inputs_of(rt: &impl Abort, alloc: Global, sent: [&[u8]; 2]) -> Vec<Bytes>
    ensures { length result.items ≡ 2 }
{
    let [first, second] = sent;
    let mut inputs = Vec::new(alloc);
    must(rt, inputs.push(must(rt, Bytes::from_slice(alloc, first))));
    must(rt, inputs.push(must(rt, Bytes::from_slice(alloc, second))));
    inputs
}

/// The next lane's replies.
fn take(rt: &impl Abort, alloc: Global, comparison: &mut Comparison, kept: &[u8])
    requires { comparison.old.lane < 64 }
    ensures { comparison.new.lane ≡ comparison.old.lane + 1 }
{
    let bytes = must(rt, kept.to_vec(alloc));
    let mut out = MemSource::new(bytes, Vec::new(alloc));
    must(rt, comparison.take_out(&mut out));
}

fn compared(rt: &impl Abort, alloc: Global, check: &Check) -> String {
    let file = file_of(rt, alloc, check.order);
    let Some(order) = must(rt, read_faultless(alloc, 2, &file)) else {
        return must(rt, String::from_str(alloc, "no order\n"));
    };
    let inputs = inputs_of(rt, alloc, check.sent);
    let store = store_of(rt, alloc, &[]);
    let mut comparison = must(rt, replay(alloc, &store, None, &order, &inputs));
    let [first, second] = check.kept;
    take(rt, alloc, &mut comparison, first);
    take(rt, alloc, &mut comparison, second);
    must(rt, line(alloc, comparison.end()))
}

/// Equal replies, also beside commands that were left unread, and of a collection with other numbers or that memory was wanting for; a byte
/// that differs, in either lane and in both, behind a collection too; replies that are too short or too long, also within a collection's
/// numbers; an entry that does not fit, in the second lane beside replies of the first that differ; and orders that are not replayed.
static CHECKS: [Check; 17] = [
    Check {
        order: b"00a6g",
        sent: [b"\x02\0\0\0\x1e\0\x02\0\0\0\x1e\0", b"\x02\0\0\0\x1e\0"],
        kept: [b"\x03\0\0\0\0\0\0\x03\0\0\0\0\0\0", b"\x03\0\0\0\0\0\0"],
        line: b"equal\n",
    },
    Check {
        order: b"0a6g",
        sent: [b"\x02\0\0\0\x1e\0", b"\x02\0\0\0\x1e\0"],
        kept: [b"\x04\0\0\0\0\0\0", b"\x03\0\0\0\0\0\x01"],
        line: b"lane 0 byte 0: 03 04\n",
    },
    Check {
        order: b"0a6g",
        sent: [b"\x02\0\0\0\x1e\0", b"\x02\0\0\0\x1e\0"],
        kept: [b"\x03\0\0\0\0\0\0", b"\x03\0\0\0\0\0\x01"],
        line: b"lane 1 byte 6: 00 01\n",
    },
    Check {
        order: b"0a6g",
        sent: [b"\x02\0\0\0\x1e\0", b"\x02\0\0\0\x1e\0"],
        kept: [b"\x03\0\0\0\0\0", b"\x01\0\0\0\0\0\0"],
        line: b"lane 0 byte 6: 00 --\n",
    },
    Check {
        order: b"0a6g",
        sent: [b"\x02\0\0\0\x1e\0", b"\x02\0\0\0\x1e\0"],
        kept: [b"\x03\0\0\0\0\0\0*", b"\x03\0\0\0\0\0\0"],
        line: b"lane 0 byte 7: -- 2a\n",
    },
    Check {
        order: b"0aag6",
        sent: [b"\x02\0\0\0\x1e\0", b"\x02\0\0\0\x1e\0"],
        kept: [b"", b"\x03\0\0\0\0\0\0\xff"],
        line: b"lane 1 byte 7: -- ff\n",
    },
    Check {
        order: b"0aag6",
        sent: [b"\x02\0\0\0\x1e\0", b"\x02\0\0\0\x1e\0"],
        kept: [b"", b"\x03\0\0\0\0\0\0"],
        line: b"lane 1 byte 7: -- --\n",
    },
    Check {
        order: b"346g",
        sent: [b"\x01\0\0\0$", b""],
        kept: [
            b")\0\0\0\0\x09\0\0\0\0\0\0\0\x08\0\0\0\0\0\0\0\x07\0\0\0\0\0\0\0\x06\0\0\0\0\0\0\0\x05\0\0\0\0\0\0\0",
            b"",
        ],
        line: b"equal\n",
    },
    Check {
        order: b"346g",
        sent: [b"\x01\0\0\0$", b""],
        kept: [
            b")\0\0\0\0\xfe\0\0\0\0\0\0\0\x08\0\0\0\0\0\0\0\x07\0\0\0\0\0\0\0\x06\0\0\0\0\0\0\0\x05\0\0\0\0\0\0\0",
            b"",
        ],
        line: b"equal\n",
    },
    Check {
        order: b"346g",
        sent: [b"\x01\0\0\0$", b""],
        kept: [
            b")\0\0\0\x1c\x09\0\0\0\0\0\0\0\x08\0\0\0\0\0\0\0\x07\0\0\0\0\0\0\0\x06\0\0\0\0\0\0\0\x05\0\0\0\0\0\0\0",
            b"",
        ],
        line: b"lane 0 byte 4: 00 1c\n",
    },
    Check {
        order: b"346g",
        sent: [b"\x01\0\0\0$", b""],
        kept: [b")\0\0\0\0\x09\0\0\0\0\0\0\0\x08\0\0\0\0\0\0", b""],
        line: b"lane 0 byte 20: 00 --\n",
    },
    Check {
        order: b"346g",
        sent: [b"\x01\0\0\0$", b""],
        kept: [
            b")\0\0\0\0\x09\0\0\0\0\0\0\0\x08\0\0\0\0\0\0\0\x07\0\0\0\0\0\0\0\x06\0\0\0\0\0\0\0\x05\0\0\0\0\0\0\0\x01",
            b"",
        ],
        line: b"lane 0 byte 45: -- 01\n",
    },
    Check {
        order: b"3406g",
        sent: [b"\x01\0\0\0$\x02\0\0\0\x1e\0", b""],
        kept: [
            b")\0\0\0\0\x09\0\0\0\0\0\0\0\x08\0\0\0\0\0\0\0\x07\0\0\0\0\0\0\0\x06\0\0\0\0\0\0\0\x05\0\0\0\0\0\0\0\x09\0\0\0\0\0\0",
            b"",
        ],
        line: b"lane 0 byte 45: 03 09\n",
    },
    Check {
        order: b"3426g",
        sent: [b"\x01\0\0\0$\x02\0\0\0\x1e\0", b""],
        kept: [
            b")\0\0\0\0\x09\0\0\0\0\0\0\0\x08\0\0\0\0\0\0\0\x07\0\0\0\0\0\0\0\x06\0\0\0\0\0\0\0\x05\0\0\0\0\0\0\0\x01\0\0\0\x1c",
            b"",
        ],
        line: b"equal\n",
    },
    Check {
        order: b"6g",
        sent: [b"\x02\0\0\0\x1e\0", b"\x01\0\0\0?"],
        kept: [b"", b"\x01\0\0\0\0"],
        line: b"equal\n",
    },
    Check {
        order: b"5g6",
        sent: [b"\x02\0\0\0\x1e\0", b""],
        kept: [b"", b""],
        line: b"no order\n",
    },
    Check {
        order: b"06",
        sent: [b"\x02\0\0\0\x1e\0", b""],
        kept: [b"\x03\0\0\0\0\0\0", b""],
        line: b"no order\n",
    },
];

#[test]
fn kept_replies_are_compared(rt: HostRuntime) {
    let alloc = rt.alloc();
    for check in &CHECKS {
        let line = compared(&rt, alloc, check);
        same(&rt, line.as_bytes(), check.line);
    }
}

/// A source that fails is told, and one whose bytes were read is at its end.
#[test]
fn a_port_is_read_to_its_end(rt: HostRuntime) {
    let alloc = rt.alloc();
    let bytes = must(&rt, b"abc".to_vec(alloc));
    let mut source = MemSource::new(bytes, Vec::new(alloc));
    let read = must(&rt, read_out(alloc, &mut source));
    same(&rt, read.as_slice(), b"abc");
    let again = must(&rt, read_out(alloc, &mut source));
    same(&rt, again.as_slice(), b"");
    let mut failing = Vec::new(alloc);
    must(&rt, failing.push(1));
    let bytes = must(&rt, b"abc".to_vec(alloc));
    let mut broken = MemSource::new(bytes, failing);
    let fails = matches!(read_out(alloc, &mut broken), Err(Unread::Failed));
    assert!(rt; fails);
}
