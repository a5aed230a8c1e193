//! The parts of a book's file.

ghost use Rattle.std.specs.Prelude.{◌≡◌, ◌≤◌, length, slice_range, IfOk, option_map};
ghost use Rattle.std.specs.Int.{w64, from_le_bytes};
ghost use Rattle.store_files.specs.Book.{touch_of as touch_in};
ghost use Rattle.atime_book.specs.Parts.{as_touch};
ghost use Rattle.atime_book.specs.Reading.{above, TellsTouches};

use crate::Book;
use crate::parts::Touched;
use std::alloc::{AllocError, Global};
use store_types::Digest32;

/// The last moment.
pub fn moment_of(bytes: &[u8]) -> u64
    requires { 56 ≤ length bytes.now }
    ensures { result ≡ from_le_bytes w64 (slice_range bytes.now 8 16) }
{
    let mut word = [0; 8];
    word.copy_from_slice(&bytes[8..16]);
    u64::from_le_bytes(word)
}

/// The book of the chunks at this moment, where their digests rise and no touch is after it.
pub fn touches_in(alloc: Global, bytes: &[u8], moment: u64) -> Result<Option<Book>, AllocError>
    ensures { IfOk result (TellsTouches moment bytes.now) }
{
    let mut book = Book::as_of(alloc, moment);
    let mut before = None;
    let mut rest = bytes;
    while rest.len() >= 40 {
        let (cell, behind) = rest.split_at(40);
        let touched = touch_of(cell);
        if touched.moment > moment {
            return Ok(None);
        }
        if !rises(before, touched.digest) {
            return Ok(None);
        }
        book.note_new(touched)?;
        before = Some(touched.digest);
        rest = behind;
    }
    Ok(Some(book))
}

/// A chunk and its last touch.
fn touch_of(cell: &[u8]) -> Touched
    requires { length cell.now ≡ 40 }
    ensures { as_touch result ≡ touch_in cell.now }
{
    let (front, back) = cell.split_at(32);
    let mut digest = [0; 32];
    digest.copy_from_slice(front);
    let mut word = [0; 8];
    word.copy_from_slice(back);
    Touched {
        digest: Digest32(digest),
        moment: u64::from_le_bytes(word),
    }
}

/// Whether a digest is above the one before it.
fn rises(before: Option<Digest32>, digest: Digest32) -> bool
    ensures { result ≡ above (option_map (λ d. d.0) before) digest.0 }
{
    match before {
        Some(before) => before.cmp(&digest).is_lt(),
        None => true,
    }
}
