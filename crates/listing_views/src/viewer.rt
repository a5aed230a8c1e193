//! The readers' half.
ghost use Rattle.std.specs.Prelude.{◌≡◌, ◌≤◌, [], length, IfOk};
ghost use mathlib.Core.List.{IsPrefix};
ghost use Rattle.left_right.specs.Sides.{view};
ghost use Rattle.listing_views.specs.Listings.{rows};

use crate::listing::Listing;
use crate::poster::Poster;
use crate::story::{Lawful, Seen, Sees, Story};
use core::mem::replace_with;
use left_right::reader::Reader;
use std::alloc::{AllocError, Global};

type ListingReader<L> = Reader<Listing, Seen, Story<L>, Global>;

/// What reads the listing without waiting.
#[derive(Drop)]
pub struct Viewer<L: Lawful> {
    pub reader: ListingReader<L>,
}

/// The listing that is shown now, where it is of a history at least as long as this.
fn list_by<L: Lawful>(
    reader: ListingReader<L>,
    least: u64,
) -> (ListingReader<L>, Result<Listing, AllocError>)
    ensures later { IsPrefix (view reader.place) (view result.0.place) }
    ensures lists { IfOk result.1 (λ x. L.is (view result.0.place) (rows x)
        × (least ≤ length (view result.0.place))) }
{
    match reader.enter_as::<Sees<L>>() {
        Ok(reading) => {
            let shared = reading.get().share_from(least);
            (reading.leave(), shared)
        }
        Err(reader) => (reader, Err(AllocError)),
    }
}

impl<L: Lawful> Viewer<L> {
    pub fn make(poster: &Poster<L>) -> Result<Viewer<L>, AllocError>
        ensures { IfOk result (λ v. view v.reader.place ≡ []) }
    {
        Ok(Viewer {
            reader: poster.writer.factory().reader()?,
        })
    }

    /// The listing after events that begin with all that this viewer had seen, and are at least so many.
    pub fn list(&mut self, least: u64) -> Result<Listing, AllocError>
        ensures later { IsPrefix (view self.old.reader.place) (view self.new.reader.place) }
        ensures lists { IfOk result (λ x. L.is (view self.new.reader.place) (rows x)
            × (least ≤ length (view self.new.reader.place))) }
    {
        replace_with(&mut self.reader, least, |reader, least| {
            list_by(reader, least)
        })
    }
}
