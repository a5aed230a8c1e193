//! The rule: there is one history, and what is shown is a listing after it.
ghost use Rattle.std.specs.Prelude.{◌≡◌, List, []};
ghost use Rattle.store_history.specs.declared.act.Event.{Event};
ghost use Rattle.listing_views.specs.declared.listed.Listed.{Listed};
ghost use Rattle.listing_views.specs.Story.{Kept, Sees as SeesThen};

use crate::listing::Listing;
use crossbeam_utils::rule::{Outcome, Protocol};
use std::collections::LinkedList;
use std::marker::{Brand, PhantomData};
use store_history::Event;

/// Which listings there may be after a history.
pub trait Lawful {
    ghost is: { List Event → List Listed → Type 0 };
}

/// Events with which the history up to what is shown begins: what one thread knows. No value of it is made.
pub type Seen = LinkedList<Event>;

/// The rule over the listing and what each thread knows.
pub struct Story<L> {
    of: PhantomData<L>,
}

impl<L: Lawful> Protocol<Listing, Seen> for Story<L> {
    ghost holds = { Kept L.is };

    ghost first = { [] };
}

/// A read.
pub(crate) struct Sees<L> {
    of: PhantomData<L>,
}

impl<L: Lawful> Outcome<Listing, Seen> for Sees<L> {
    ghost then = { SeesThen L.is };
}

/// The history up to what is shown next.
pub trait Whole {
    ghost history: { List Event };
}

// A call that shows a listing picks another.
impl Whole for Brand {
    ghost history = { [] };
}

/// The next listing is shown.
pub(crate) struct Shows<G> {
    to: PhantomData<G>,
}

impl<G: Whole> Outcome<Listing, Seen> for Shows<G> {
    ghost then = { λ v x y w. w ≡ G.history };
}
