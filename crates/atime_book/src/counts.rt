//! How many chunks of the book were touched since a collector's start.

ghost use Rattle.atime_book.specs.Counts.{Divides};

use crate::Book;
use crate::parts::count_since;

/// How many chunks of a book were touched at a moment or later, and how many others it has.
#[derive(Clone, Copy, Debug, PartialEq, Eq)]
pub struct Counts {
    pub used: u64,
    pub pending: u64,
}

impl Book {
    /// Counts the chunks that were touched at the start or later, and the others. It takes no memory.
    pub fn counts(&self, start: u64) -> Counts
        ensures { Divides self.now start result.used result.pending }
    {
        let all = self.count;
        let mut used = 0;
        for part in &self.parts {
            used += count_since(part, start) as u64;
        }
        Counts {
            used,
            pending: all - used,
        }
    }
}
