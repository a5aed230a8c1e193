//! An order as it is written.

ghost use Rattle.std.specs.Prelude.{◌≡◌, ◌+◌, ◌++◌, ◌≤◌, length};
ghost use Rattle.std.specs.List.{flat_map};
ghost use Rattle.port_traits.specs.Faults.{HasCause};
ghost use Rattle.store_files.specs.Order.{entry_text};
ghost use Rattle.order_file.specs.Writing.{PutsOrder, PutsEntries};

use crate::{ENTRY_SIZE, MAGIC};
use arrayvec::ArrayVec;
use port_traits::{Failed, Sink, write_all_of};
use store_types::Entry;

/// How many entries are written at once, and room for their bytes.
const PART_LEN: usize = 315;

const PART_SIZE: usize = PART_LEN * ENTRY_SIZE;

/// Writes the order's file, or fails with a front of it written. It takes no memory.
pub fn put_order<K: Sink>(sink: &mut K, order: &[Entry]) -> Result<(), Failed>
    ensures text { PutsOrder K.taken sink.old sink.new order.now result }
    ensures cause { HasCause (K.faults sink.old) (K.faults sink.new) result }
{
    write_all_of(sink, &MAGIC)?;
    put_entries(sink, order)
}

fn put_entries<K: Sink>(sink: &mut K, entries: &[Entry]) -> Result<(), Failed>
    ensures text { PutsEntries K.taken sink.old sink.new entries.now result }
    ensures cause { HasCause (K.faults sink.old) (K.faults sink.new) result }
{
    let mut rest = entries;
    while !rest.is_empty() {
        let (part, behind) = rest.split_at(rest.len().min(PART_LEN));
        put_part(sink, part)?;
        rest = behind;
    }
    Ok(())
}

// At most so many entries as are written at once.
fn put_part<K: Sink>(sink: &mut K, part: &[Entry]) -> Result<(), Failed>
    requires { length part.now ≤ PART_LEN }
    ensures text { PutsEntries K.taken sink.old sink.new part.now result }
    ensures cause { HasCause (K.faults sink.old) (K.faults sink.new) result }
{
    let text = part_text(part);
    write_all_of(sink, text.as_slice())
}

fn part_text(part: &[Entry]) -> ArrayVec<u8, PART_SIZE>
    requires { length part.now ≤ PART_LEN }
    ensures { result.items ≡ flat_map entry_text part.now }
{
    let mut text = ArrayVec::new();
    for entry in part {
        push_entry(&mut text, *entry);
    }
    text
}

fn push_entry(text: &mut ArrayVec<u8, PART_SIZE>, entry: Entry)
    requires { length text.old.items + ENTRY_SIZE ≤ PART_SIZE }
    ensures { text.new.items ≡ text.old.items ++ entry_text entry }
{
    push_bytes(text, &entry.lane.to_le_bytes());
    push_bytes(text, &entry.moment.to_le_bytes());
    push_bytes(text, &[entry.kind]);
}

fn push_bytes(text: &mut ArrayVec<u8, PART_SIZE>, bytes: &[u8])
    requires { length text.old.items + length bytes.now ≤ PART_SIZE }
    ensures { text.new.items ≡ text.old.items ++ bytes.now }
{
    text.try_extend_from_slice(bytes).unwrap();
}
