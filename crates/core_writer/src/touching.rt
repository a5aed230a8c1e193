//! CHUNK and APPEND, which touch the chunks that they name.

ghost use Rattle.std.specs.Prelude.{◌≡◌, ◌<◌, IfOk, OnErr};
ghost use Rattle.wire_commands.specs.declared.command.Command.TheVariants.{Append};
ghost use Rattle.store_history.specs.Acts.{IsCheckedChunk};
ghost use Rattle.store_history.specs.declared.act.Act.TheVariants.{Chunk};
ghost use Rattle.core_state.specs.Commands.{ActDoes, ActLeaves, PlainDoes, PlainLeaves};
ghost use Rattle.core_writer.specs.Touching.{ActTouches, EndsEntry, MakesEntry, PlainTouches, TouchesNamed};

use crate::archives::append;
use crate::chunks::chunk;
use atime_book::Book;
use core_state::{Parts, Place, Upkeep};
use disk_trait::Disk;
use std::alloc::{AllocError, Global};
use store_stops::Stop;
use store_types::{AppendEntry, Bytes, Digest32, Refusal};
use wire_commands::Reply;

/// Makes the entry of a chunk that the book does not have, and says whether it did. At want of memory nothing has changed.
fn make_entry(book: &mut Book, digest: &Digest32, moment: u64) -> Result<bool, AllocError>
    ensures ok { IfOk result (λ made. MakesEntry book.old book.new digest.now.0 moment made) }
    ensures err { OnErr result (book.new ≡ book.old) }
{
    if book.last(digest).is_some() {
        return Ok(false);
    }
    book.touch(digest, moment)?;
    Ok(true)
}

/// Touches the chunk, where the command was done. Where it was not, the entry goes again that was made for it. It takes no
/// memory.
fn end_entry(book: &mut Book, digest: &Digest32, moment: u64, done: bool, made: bool)
    ensures { EndsEntry book.old book.new digest.now.0 moment done made }
{
    if done {
        book.touch_known(digest, moment);
        return;
    }
    if !made {
        return;
    }
    book.forget(digest);
}

/// CHUNK, which touches its chunk. The chunk's entry in the book is made before anything else is done: where memory is
/// wanting for it, nothing has changed. Where the command is refused, and where memory is wanting or the disk fails in it, the
/// last touches are as before.
pub fn chunk_touched<D: Disk>(
    parts: &mut Parts<D>,
    upkeep: &mut Upkeep,
    alloc: Global,
    at: Place,
    digest: &Digest32,
    checked: Result<Bytes, Refusal>,
) -> Result<Reply, Stop>
    requires lane { at.lane < 64 }
    requires checked { IsCheckedChunk digest.now checked }
    ensures does { ActDoes D.Disk parts.old parts.new at (Chunk digest.now checked) result }
    ensures leaves { ActLeaves D.Disk parts.old parts.new at (Chunk digest.now checked) result }
    ensures touches { ActTouches upkeep.old upkeep.new at (Chunk digest.now checked) result }
{
    let made = make_entry(&mut upkeep.book, digest, at.moment)?;
    let ended = chunk(parts, alloc, at, digest, checked);
    end_entry(&mut upkeep.book, digest, at.moment, ended.is_ok(), made);
    ended
}

/// Touches the chunks of the entries, those that the book has. It takes no memory.
fn touch_all(book: &mut Book, entries: &[AppendEntry], moment: u64)
    ensures { TouchesNamed book.old book.new entries.now moment }
{
    for entry in entries {
        book.touch_known(&entry.digest, moment);
    }
}

/// APPEND, which touches the chunk of each of its entries. Where it stops, the last touches are as before.
pub fn append_touched<D: Disk>(
    parts: &mut Parts<D>,
    upkeep: &mut Upkeep,
    alloc: Global,
    at: Place,
    number: u8,
    entries: &[AppendEntry],
) -> Result<Reply, Stop>
    requires { at.lane < 64 }
    ensures does { PlainDoes D.Disk parts.old parts.new at (Append number entries.now) result }
    ensures leaves { PlainLeaves D.Disk parts.old parts.new at (Append number entries.now) result }
    ensures touches { PlainTouches upkeep.old upkeep.new at (Append number entries.now) result }
{
    let ended = append(parts, alloc, at, number, entries);
    if ended.is_ok() {
        touch_all(&mut upkeep.book, entries, at.moment);
    }
    ended
}
