//! A core whose beginning contracts know, with what shows its listing.

ghost use Rattle.std.specs.Prelude.{◌≡◌, ◌<◌, ◌^◌, ◌++◌, ◌∷◌, [], true, List, length, IfNone, IfSome};
ghost use Rattle.std.specs.Arc.{arc_value};
ghost use mathlib.Core.List.{IsPrefix};
ghost use Rattle.left_right.specs.Sides.{view};
ghost use Rattle.wire_commands.specs.HasText.{ReplyHasText};
ghost use Rattle.store_history.specs.declared.act.Event.{Event};
ghost use Rattle.store_history.specs.Acts.{IsWellFormed};
ghost use Rattle.core_state.specs.Answers.{IsTold};
ghost use Rattle.core_state.specs.History.{event_of};
ghost use Rattle.core_state.specs.Reserved.{HasRoom};
ghost use Rattle.listing_views.specs.Listings.{rows};
ghost use Rattle.listing_views.specs.Rows.{all_rows};
ghost use Rattle.shared_store.specs.Acted.{HasActed};
ghost use Rattle.shared_store.specs.Applied.{HasApplied};
ghost use Rattle.shared_store.specs.Comes.{ComesTo, IsFresh, SameCore, StandsFor};
ghost use Rattle.shared_store.specs.Views.{IsActedOn, IsNoteOf, posted, rows_of};

use crate::next::{is_done, next_listing};
use crate::{apply, want};
use core_state::{Act, Answer, Core};
use disk_trait::Disk;
use listing_views::{Chunks, Lawful, Listing, Poster};
use port_traits::Clock;
use std::alloc::Global;
use std::marker::{Brand, PhantomData};
use std::mem;
use std::snapshot::Snapshot;
use std::sync::{Arc, Wait};
use store_history::Event;
use turn_lock::{Replays, Seat};

/// An order behind the turn has fewer entries than this.
const MOST: usize = 1 << 62;

/// Which values a run began with. A type tells it, since a lock tells nothing of a value but what its type says.
pub trait Origin<T> {
    ghost is: { T → Type 0 };
}

// A call that opens a run picks another.
impl<T> Origin<T> for Brand {
    ghost is = { λ _. Unit {0} };
}

/// Histories to which a core came from one of those values, and its rows then.
pub struct Came<D, E, C, N> {
    of: PhantomData<(D, E, C, N)>,
}

impl<D: Disk, E: Disk, C: Clock, N: Origin<Core<D, E, C>>> Lawful for Came<D, E, C, N> {
    ghost use Rattle.shared_store.specs.Comes.{CameTo};

    ghost is = { CameTo D.Disk E.Disk C.Clock N.is };
}

/// The core, beside which values it came from, and what shows its listing.
pub struct Known<D: Disk, E: Disk, C: Clock, N: Origin<Core<D, E, C>>> {
    pub core: Core<D, E, C>,
    pub poster: Option<Poster<Came<D, E, C, N>>>,
    pub(crate) origin: PhantomData<N>,
}

/// Does one act beside the listing that is shown. With the answer come the rows after it, where the act changed them. Memory
/// for them is taken before the act; where it is wanting, the act is answered so.
fn act_on<D: Disk, E: Disk, C: Clock>(
    core: &mut Core<D, E, C>,
    alloc: Global,
    shown: &Listing,
    lane: u32,
    act: Act,
) -> (Answer, Option<Arc<Chunks>>)
    requires lane { lane < 64 }
    requires room { HasRoom core.old lane }
    requires formed { IsWellFormed act }
    requires rows { rows shown.now ≡ rows_of core.old.parts.catalogue.listed }
    ensures applied { HasApplied D.Disk E.Disk C.Clock core.old core.new lane act result.0 }
    ensures next { IsActedOn core.old core.new act result.0 result.1 }
{
    let Ok(next) = next_listing(core, alloc, shown, lane, &act) else {
        return (want(core, alloc, lane, act), None);
    };
    let answer = apply(core, alloc, lane, act);
    if is_done(&answer) {
        (answer, next)
    } else {
        (answer, None)
    }
}

/// The next rows are shown, where there are any. The caller's proof picks the history that they are of.
fn show_next<L: Lawful, R: Wait, A>(
    rt: &R,
    poster: Poster<L>,
    next: Option<Arc<Chunks>>,
    count: u64,
    about: &A,
) -> Poster<L>
    ghost whole: { List Event }
    requires longer { IsPrefix (view poster.writer.desk.place) whole }
    requires count { length whole ≡ count }
    requires shows { IfSome next (λ x. L.is whole (all_rows (arc_value x).items)) }
    ensures some { IfSome next (λ x. (view result.writer.desk.place ≡ whole)
        × (rows result.writer.desk.shown.value ≡ all_rows (arc_value x).items)) }
    ensures none { IfNone next ((view result.writer.desk.place ≡ view poster.writer.desk.place)
        × (rows result.writer.desk.shown.value ≡ rows poster.writer.desk.shown.value)) }
{
    let _ = about;
    match next {
        Some(chunks) => poster.post(rt, Listing { chunks, count }),
        None => poster,
    }
}

impl<D: Disk, E: Disk, C: Clock, N: Origin<Core<D, E, C>>> Known<D, E, C, N> {
    /// A core with which a run begins, whose listing is shown.
    pub(crate) fn new(core: Core<D, E, C>, poster: Poster<Came<D, E, C, N>>) -> Known<D, E, C, N>
        requires origin { N.is core }
        requires fresh { IsFresh C.Clock core }
        requires seen { view poster.writer.desk.place ≡ [] }
        requires rows { rows poster.writer.desk.shown.value ≡ rows_of core.parts.catalogue.listed }
        ensures core { result.core ≡ core }
        ensures stands { StandsFor D.Disk E.Disk C.Clock N.is result.core (posted result.poster) [] }
    {
        Known {
            core,
            poster: Some(poster),
            origin: PhantomData,
        }
    }

    /// Does one act, and shows the listing after it. Where there is no room for its entry, it waits until there is. It tells how
    /// many events the history has up to what is then shown. The caller's proof picks the history so far.
    pub(crate) fn enter<R: Wait>(
        &mut self,
        rt: &R,
        alloc: Global,
        lane: u32,
        act: Act,
        about: &Seat<Known<D, E, C, N>>,
    ) -> (Answer, u64)
        ghost history: { List Event }
        requires lane { lane < 64 }
        requires formed { IsWellFormed act }
        requires stands { StandsFor D.Disk E.Disk C.Clock N.is self.old.core
            (posted self.old.poster) history }
        ensures acted { HasActed D.Disk E.Disk C.Clock N.is self.new.core
            history lane act result.0 }
        ensures stands { let calls = D.Disk.calls self.new.core.parts.disk in
            StandsFor D.Disk E.Disk C.Clock N.is self.new.core (posted self.new.poster)
            (history ++ event_of act result.0 calls ∷ []) }
        ensures note { let calls = D.Disk.calls self.new.core.parts.disk in
            IsNoteOf result.1 (history ++ event_of act result.0 calls ∷ []) }
        ensures told { IsTold act result.0 }
        ensures lane { result.0.entry.lane ≡ lane }
        ensures text { IfSome result.0.reply ReplyHasText }
    {
        let _ = about;
        make_room(rt, &mut self.core, lane);
        let Some(poster) = self.poster.take() else {
            unreachable!()
        };
        let asked = Snapshot::of(&act);
        let (answer, next) = act_on(&mut self.core, alloc, poster.shown(), lane, act);
        let calls = self.core.parts.disk.calls();
        let count = self.core.journal.entries.len() as u64;
        let about = (asked, Snapshot::of(&answer), calls);
        let poster = show_next(rt, poster, next, count, &about);
        let note = poster.shown().count;
        let gone = mem::replace(&mut self.poster, Some(poster));
        let None = gone else { unreachable!() };
        (answer, note)
    }
}

/// Waits until there is room for an entry of the lane.
fn make_room<R: Wait, D, E, C>(rt: &R, core: &mut Core<D, E, C>, lane: u32)
    requires lane { lane < 64 }
    ensures room { HasRoom core.new lane }
    ensures below { length core.new.journal.entries.items < 2 ^ 62 }
    ensures same { SameCore core.old core.new }
{
    for _ in rt.forever() {
        if has_room(core, lane) {
            return;
        }
        let _ = core.reserve(1);
    }
    unreachable!()
}

/// There is room for an entry of the lane, and the order is short enough.
fn has_room<D, E, C>(core: &Core<D, E, C>, lane: u32) -> bool
    requires lane { lane < 64 }
    ensures room { result ≡ true → HasRoom core.now lane }
    ensures below { result ≡ true → length core.now.journal.entries.items < 2 ^ 62 }
{
    core.journal.room(lane as usize) && core.journal.entries.len() < MOST
}

impl<D: Disk, E: Disk, C: Clock, N: Origin<Core<D, E, C>>> Replays for Known<D, E, C, N> {
    type Event = Event;

    ghost stands = { λ v h. StandsFor D.Disk E.Disk C.Clock N.is v.core (posted v.poster) h };

    fn entries(&self) -> u64 {
        self.core.journal.entries.len() as u64
    }

    ghost short = { λ _ _ s. s.comes.short };
}
