//! The book of the chunks that are there, as a datastore is opened.

ghost use Rattle.std.specs.Prelude.{◌≡◌, ◌≤◌, IfOk, IsErr, IsErrOf, unwrap_or};
ghost use Rattle.disk_trait.specs.Effects.{OnlyReads};
ghost use Rattle.store_types.specs.Times.{last_moment};
ghost use Rattle.store_files.specs.Book.{book_of};
ghost use Rattle.atime_book.specs.Touches.{IsEarly, empty};
ghost use Rattle.store_history.specs.Saved.{saved_book};
ghost use Rattle.core_opening.specs.Booking.{CallsTwiceAtMost, IsPassedOver, TellsCount};
ghost use Rattle.core_opening.specs.Opening.{KeepsChunks};

use atime_book::Book;
use core_state::{BOOK_NAME, Upkeep};
use disk_trait::{Disk, DiskError, Failed};
use std::alloc::{AllocError, Global};
use store_types::Digest32;

/// The book whose text these bytes are, or an empty one.
fn book_in(alloc: Global, bytes: &[u8]) -> Result<Book, AllocError>
    ensures book { IfOk result (λ book. book ≡ unwrap_or (book_of bytes.now) empty) }
    ensures early { IfOk result IsEarly }
    ensures in_time { IfOk result (λ book. book.moment ≤ last_moment) }
{
    match Book::read(alloc, bytes)? {
        Some(book) => Ok(book),
        None => Ok(Book::new(alloc)),
    }
}

/// Whether the book's file may be one: it has just as many bytes as a book of the touches that its head counts.
fn counts_its_size<D: Disk>(disk: &mut D) -> Result<bool, Failed>
    ensures reads { OnlyReads D.Disk disk.old disk.new (IsErr result) }
    ensures value { TellsCount D.Disk disk.old result }
    ensures calls { CallsTwiceAtMost D.Disk disk.old disk.new }
{
    let Some(size) = disk.size(BOOK_NAME)? else {
        return Ok(false);
    };
    let mut count = [0; 8];
    let _ = disk.read_part(BOOK_NAME, 16, &mut count)?;
    Ok(u128::from(size) == 56 + 40 * u128::from(u64::from_le_bytes(count)))
}

/// The saved book. It is empty where none is there, or bytes that are none. A file whose head does not count its size is not
/// read.
fn saved_book_of<D: Disk>(disk: &mut D, alloc: Global) -> Result<Book, DiskError>
    ensures reads { OnlyReads D.Disk disk.old disk.new (IsErrOf result DiskError.Failed) }
    ensures book { D.honest disk.old → IfOk result (λ b. b ≡ saved_book (D.content disk.old)) }
    ensures unread { IsPassedOver D.Disk disk.old disk.new result }
    // on any disk
    ensures early { IfOk result IsEarly }
    ensures in_time { IfOk result (λ book. book.moment ≤ last_moment) }
{
    if !counts_its_size(disk)? {
        return Ok(Book::new(alloc));
    }
    let Some(bytes) = disk.read(alloc, BOOK_NAME)? else {
        return Ok(Book::new(alloc));
    };
    Ok(book_in(alloc, &bytes)?)
}

/// The book of these chunks, with the touches that the saved one has of them.
pub fn upkeep_of<D: Disk>(
    disk: &mut D,
    alloc: Global,
    present: &[Digest32],
) -> Result<Upkeep, DiskError>
    ensures reads { OnlyReads D.Disk disk.old disk.new (IsErrOf result DiskError.Failed) }
    ensures keeps { D.honest disk.old → IfOk result (KeepsChunks (D.content disk.old) present.now) }
    // on any disk
    ensures early { IfOk result (λ upkeep. IsEarly upkeep.book) }
    ensures in_time { IfOk result (λ upkeep. upkeep.book.moment ≤ last_moment) }
{
    let saved = saved_book_of(disk, alloc)?;
    let present = saved.of_present(alloc, present)?;
    Ok(Upkeep {
        book: present.book,
        undated: present.undated,
    })
}
