//! The order of a replay, as text.

ghost use Rattle.std.specs.Prelude.{IsTrue};
ghost use Rattle.store_files.specs.Order.{keeps_rules};

use crate::asserts::must;
use order_file::{put_order, read_order, what_is_read_has_one_spelling};
use port_traits::MemSink;
use std::alloc::Global;
use std::process::Abort;
use store_types::Entry;

/// The entry of a letter: a digit is the kind of one of lane 0, and of one of lane 1 0 is `a`, 1 is `b`, and so on.
fn entry_of(letter: u8) -> Entry {
    let is_second = letter >= b'a';
    Entry {
        lane: if is_second { 1 } else { 0 },
        moment: 5,
        kind: letter.saturating_sub(if is_second { b'a' } else { b'0' }),
    }
}

/// The bytes of the order file with the entries of these letters.
pub(crate) fn file_of(rt: &impl Abort, alloc: Global, letters: &[u8]) -> Vec<u8> {
    let mut order = Vec::new(alloc);
    for letter in letters {
        must(rt, order.push(entry_of(*letter)));
    }
    let mut file = MemSink::new(alloc, Vec::new(alloc));
    must(rt, put_order(&mut file, &order));
    file.into_bytes()
}

/// The order of these letters, as its file gives it: it keeps the rules for so many lanes.
pub(crate) fn order_of(rt: &impl Abort, alloc: Global, lanes: u32, letters: &[u8]) -> Vec<Entry>
    ensures { IsTrue (keeps_rules lanes result.items) }
{
    what_is_read_has_one_spelling();
    let read = must(rt, read_order(alloc, lanes, &file_of(rt, alloc, letters)));
    read.expect(rt, "an order that keeps the rules")
}
