//! What the core keeps of the chunks that are there.

ghost use Rattle.store_history.specs.LastTouches.{SameTouches, dated};
ghost use Rattle.core_state.specs.Upkeeps.{TouchesEach, touches_kept};

use atime_book::Book;
use store_types::Digest32;

/// The chunks that are there, and when each was last touched.
#[derive(Drop)]
pub struct Upkeep {
    pub book: Book,
    /// Those that stood there at opening and that the saved book did not have. The book has them too, so that dating them takes
    /// no memory.
    pub undated: Vec<Digest32>,
}

/// Touches those of the chunks that the book has. It takes no memory.
pub fn touch_each(book: &mut Book, digests: &[Digest32], moment: u64)
    ensures { TouchesEach book.old book.new digests.now moment }
{
    for digest in digests {
        book.touch_known(digest, moment);
    }
}

impl Upkeep {
    /// Touches the undated chunks at the moment of an entry of the order: then none is left. It takes no memory.
    pub fn date(&mut self, moment: u64)
        ensures { SameTouches (touches_kept self.new) (dated moment (touches_kept self.old)) }
    {
        touch_each(&mut self.book, &self.undated, moment);
        self.undated.clear();
    }
}
