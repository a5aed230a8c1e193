//! The writer's half. Its place is behind the turn.
ghost use Rattle.std.specs.Prelude.{◌≡◌, ◌<◌, ◌^◌, ◌++◌, ◌∷◌, [], true, List, length, drop, IfOk};
ghost use mathlib.Core.List.{IsPrefix};
ghost use Rattle.store_history.specs.declared.act.Event.{Event};
ghost use Rattle.left_right.specs.Sides.{view};
ghost use Rattle.listing_views.specs.Listings.{rows};

use crate::listed::Listed;
use crate::listing::Listing;
use crate::story::{Lawful, Seen, Shows, Story, Whole};
use left_right::writer::Writer;
use std::alloc::{AllocError, Global};
use std::marker::Brand;
use std::sync::Wait;

type ListingWriter<L> = Writer<Listing, Listing, Seen, Story<L>, Global>;

/// What shows the listing. It has seen all of the history up to what is shown.
pub struct Poster<L: Lawful> {
    pub writer: ListingWriter<L>,
    ghost all: { length (view writer.desk.place) ≡ writer.desk.shown.value.count },
    ghost none: { drop writer.behind writer.log.items ≡ [] },
}

/// Puts one operation into the log, if there is memory for it.
fn try_put<L: Lawful>(writer: &mut ListingWriter<L>, next: Listing) -> bool
    ensures desk { writer.new.desk ≡ writer.old.desk }
    ensures put { result ≡ true → drop writer.new.behind writer.new.log.items
        ≡ drop writer.old.behind writer.old.log.items ++ next ∷ [] }
{
    match writer.append(next) {
        Ok(()) => true,
        Err(_) => false,
    }
}

/// Puts one operation into the log. The log has room for it.
fn put<L: Lawful, R: Wait>(rt: &R, writer: &mut ListingWriter<L>, next: Listing)
    ensures desk { writer.new.desk ≡ writer.old.desk }
    ensures put { drop writer.new.behind writer.new.log.items
        ≡ drop writer.old.behind writer.old.log.items ++ next ∷ [] }
{
    let mut next = next;
    for _ in rt.forever() {
        match writer.append(next) {
            Ok(()) => return,
            Err(back) => next = back,
        }
    }
    unreachable!()
}

/// Publishes the one operation in the log, until no copy refuses it.
fn show_as<L: Lawful, G: Whole, R: Wait>(
    rt: &R,
    writer: ListingWriter<L>,
    count: u64,
) -> ListingWriter<L>
    requires pending { (op : Listing) × (drop writer.behind writer.log.items ≡ op ∷ [])
        × (op.count ≡ count) × L.is G.history (rows op) }
    requires all { length (view writer.desk.place) ≡ writer.desk.shown.value.count }
    requires longer { IsPrefix (view writer.desk.place) G.history }
    requires count { length G.history ≡ count }
    ensures shown { (view result.desk.place ≡ G.history)
        × (result.desk.shown.value.count ≡ count) }
    ensures rows { (op : Listing) → drop writer.behind writer.log.items ≡ op ∷ []
        → rows result.desk.shown.value ≡ rows op }
    ensures none { drop result.behind result.log.items ≡ [] }
{
    let mut writer = writer;
    for _ in rt.forever() {
        let (back, done) = writer.publish_as::<Shows<G>, R>(rt);
        if done.is_ok() {
            return back;
        }
        writer = back;
    }
    unreachable!()
}

impl<L: Lawful> Poster<L> {
    /// The listing before any event, with room for so many views. It is shown twice, so that the log has its room.
    pub fn make<R: Wait>(
        rt: &R,
        alloc: Global,
        listed: Vec<Listed>,
        views: usize,
    ) -> Result<Poster<L>, AllocError>
        requires views { (0 < views) × (views < 2 ^ 32) }
        requires first { L.is [] listed.items }
        ensures { IfOk result (λ p. (view p.writer.desk.place ≡ [])
            × (rows p.writer.desk.shown.value ≡ listed.items)) }
    {
        let first = Listing::first(alloc, listed)?;
        let second = first.share()?;
        let again = first.share()?;
        let poster = Poster {
            writer: Writer::new(alloc, first, second, views)?,
        };
        poster.with_room(rt, again)
    }

    /// Shows the listing of no event again, for which the log grows.
    fn with_room<R: Wait>(self, rt: &R, again: Listing) -> Result<Poster<L>, AllocError>
        requires start { view self.writer.desk.place ≡ [] }
        requires none { again.count ≡ 0 }
        requires shows { L.is [] (rows again) }
        ensures { IfOk result (λ p. (view p.writer.desk.place ≡ [])
            × (rows p.writer.desk.shown.value ≡ rows again)) }
    {
        let Poster { mut writer } = self;
        if try_put(&mut writer, again) {
            let writer = show_as::<L, Brand, R>(rt, writer, 0);
            Ok(Poster { writer })
        } else {
            drop(writer.take(rt));
            Err(AllocError)
        }
    }

    /// What is shown.
    pub fn shown(&self) -> &Listing
        ensures { result.now ≡ self.now.writer.desk.shown.value }
    {
        self.writer.published()
    }

    /// Shows the next listing, which was made before. It waits for those that still read the listing before the last. The
    /// caller's proof picks the history that it is of, which begins with that of the listing shown.
    pub fn post<R: Wait>(self, rt: &R, next: Listing) -> Poster<L>
        ghost whole: { List Event }
        requires longer { IsPrefix (view self.writer.desk.place) whole }
        requires count { length whole ≡ next.count }
        requires shows { L.is whole (rows next) }
        ensures posted { (view result.writer.desk.place ≡ whole)
            × (rows result.writer.desk.shown.value ≡ rows next) }
    {
        self.post_as::<Brand, R>(rt, next)
    }

    fn post_as<G: Whole, R: Wait>(self, rt: &R, next: Listing) -> Poster<L>
        requires longer { IsPrefix (view self.writer.desk.place) G.history }
        requires count { length G.history ≡ next.count }
        requires shows { L.is G.history (rows next) }
        ensures posted { (view result.writer.desk.place ≡ G.history)
            × (rows result.writer.desk.shown.value ≡ rows next) }
    {
        let Poster { mut writer } = self;
        let count = next.count;
        put(rt, &mut writer, next);
        Poster {
            writer: show_as::<L, G, R>(rt, writer, count),
        }
    }

    /// Waits for the views, and ends.
    pub fn end<R: Wait>(self, rt: &R) {
        let Poster { writer } = self;
        drop(writer.take(rt));
    }
}
