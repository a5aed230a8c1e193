//! The book of the chunks that are there.

ghost use Rattle.std.specs.Prelude.{IfOk};
ghost use Rattle.atime_book.specs.Touches.{IsEarly};
ghost use Rattle.atime_book.specs.Present.{IsOfPresent};

use crate::Book;
use std::alloc::{AllocError, Global};
use store_types::Digest32;

/// The book of the chunks that are there, and those of them that the saved book did not know, in the order given.
#[derive(Drop)]
pub struct Present {
    pub book: Book,
    pub undated: Vec<Digest32>,
}

impl Book {
    /// The book of these chunks alone. One that this book does not know stands as of its moment, and is undated.
    pub fn of_present(&self, alloc: Global, present: &[Digest32]) -> Result<Present, AllocError>
        ensures just { IfOk result (λ p. IsOfPresent self.now p.book present.now p.undated.items) }
        ensures early { IsEarly self.now → IfOk result (λ p. IsEarly p.book) }
    {
        let mut book = Book::as_of(alloc, self.moment());
        let mut undated = Vec::new(alloc);
        for digest in present {
            let last = self.last(digest);
            if last.is_none() {
                undated.push(*digest)?;
            }
            book.touch(digest, last.unwrap_or(self.moment()))?;
        }
        Ok(Present { book, undated })
    }
}
