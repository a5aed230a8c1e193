//! Acts of many threads on one core.

ghost use Rattle.std.specs.Prelude.{◌≡◌, ◌≤◌, ◌<◌, ◌/◌, ◌-◌, ◌^◌, [], false, length, IfOk, IfErr, IfSome};
ghost use Rattle.std.specs.List.{range_with_len};
ghost use mathlib.Core.List.{IsPrefix};
ghost use Rattle.turn_lock.specs.State.{IsNewTurn, seat_after_join, seat_after_split, seat_split_off};
ghost use Rattle.turn_lock.specs.Places.{RisesWithin};
ghost use Rattle.wire_commands.specs.HasText.{ReplyHasText};
ghost use Rattle.store_history.specs.Acts.{IsWellFormed};
ghost use Rattle.core_state.specs.declared.state.Core.{Core};
ghost use Rattle.core_state.specs.Answers.{IsTold};
ghost use Rattle.seat_history.specs.Entered.{HasEntered, OwnRises};
ghost use Rattle.shared_store.specs.Acted.{ActsOn};
ghost use Rattle.shared_store.specs.Comes.{AreAnswered, CanAct, ComesTo, HasCome, IsFresh};

use crate::board::make_board;
use crate::known::{Known, Origin};
use crate::seat::Seat;
use crate::view::Place;
use core_state::{Act, Answer, Core};
use disk_trait::Disk;
use port_traits::Clock;
use std::alloc::Global;
use std::snapshot::Snapshot;
use std::sync::Wait;
use turn_lock::Turn;

/// A core that threads act on in turn, and whose listing they view meanwhile. It is ended by `close` alone.
pub struct Shared<D: Disk, E: Disk, C: Clock, N: Origin<Core<D, E, C>>> {
    pub turn: Turn<Known<D, E, C, N>>,
}

/// A store that is shared, its first seat, and places for views.
pub type WithViews<D, E, C, N> = (Shared<D, E, C, N>, Seat<D, E, C, N>, Vec<Place<D, E, C, N>>);

impl<D: Disk, E: Disk, C: Clock, N: Origin<Core<D, E, C>>> Shared<D, E, C, N> {
    /// A turn round the core, and its first seat. The core comes back where memory ran out.
    pub fn make<R: Wait>(
        rt: &R,
        alloc: Global,
        core: Core<D, E, C>,
    ) -> Result<(Shared<D, E, C, N>, Seat<D, E, C, N>), Core<D, E, C>>
        requires origin { N.is core }
        requires fresh { IsFresh C.Clock core }
        ensures ok { IfOk result (λ r. IsNewTurn [] (r.0.turn, r.1)) }
        ensures err { IfErr result (λ c. c ≡ core) }
    {
        let (shared, seat, _) = Shared::make_with_views(rt, alloc, core, 0)?;
        Ok((shared, seat))
    }

    /// The same, with places for so many views, which have learnt nothing. The core comes back where memory ran out.
    pub fn make_with_views<R: Wait>(
        rt: &R,
        alloc: Global,
        core: Core<D, E, C>,
        views: usize,
    ) -> Result<WithViews<D, E, C, N>, Core<D, E, C>>
        requires origin { N.is core }
        requires fresh { IsFresh C.Clock core }
        requires views { views ≤ 64 }
        ensures ok { IfOk result (λ r. IsNewTurn [] (r.0.turn, r.1)) }
        ensures places { IfOk result (λ r. length r.2.items ≡ views) }
        ensures err { IfErr result (λ c. c ≡ core) }
    {
        let Ok((poster, places)) = make_board(rt, alloc, &core, views) else {
            return Err(core);
        };
        match Turn::make(alloc, Known::new(core, poster)) {
            Ok((turn, inner)) => Ok((Shared { turn }, Seat { inner, note: 0 }, places)),
            Err(known) => {
                let Known {
                    core,
                    poster,
                    origin: _,
                } = known;
                if let Some(poster) = poster {
                    poster.end(rt);
                }
                Err(core)
            }
        }
    }

    /// Does one act in one hold of the turn, in which the listing after it is shown too. Where there is no room for its entry, it holds the turn until there is.
    pub fn act<R: Wait>(
        &self,
        rt: &R,
        alloc: Global,
        seat: &mut Seat<D, E, C, N>,
        lane: u32,
        act: Act,
    ) -> Answer
        requires can { CanAct self.now.turn.id seat.old }
        requires lane { lane < 64 }
        requires formed { IsWellFormed act }
        ensures can { CanAct self.now.turn.id seat.new }
        ensures entered { HasEntered act result seat.old seat.new }
        ensures rises { OwnRises seat.new }
        // the core behind the turn came to this history
        ensures comes { HasCome D.Disk E.Disk C.Clock N.is seat.new.seen }
        // how the act found it, and what it did to it
        ensures acts { ActsOn D.Disk E.Disk C.Clock N.is lane act result
            seat.old.seen seat.new.seen }
        // each act of the history has one of the answers that it may have
        ensures answered { AreAnswered seat.new.seen }
        ensures told { IsTold act result }
        ensures lane { result.entry.lane ≡ lane }
        ensures text { IfSome result.reply ReplyHasText }
    {
        let mut held = self.turn.take(rt, &mut seat.inner);
        let asked = Snapshot::of(&act);
        let (answer, note) = held.value.enter(rt, alloc, lane, act, &seat.inner);
        held.pass(&self.turn, &mut seat.inner, &(asked, &answer));
        seat.note = note;
        answer
    }

    /// The length of the history, with no waiting.
    pub fn front(&self, seat: &mut Seat<D, E, C, N>) -> u64
        requires own { seat.old.turn ≡ self.now.turn.id }
        ensures seat { seat.new ≡ record seat.old { seen = seat.new.seen } }
        ensures seen { IsPrefix seat.old.seen seat.new.seen }
        ensures length { result ≡ length seat.new.seen }
        ensures at_least { length seat.old.seen ≤ result }
    {
        self.turn.front(&mut seat.inner)
    }

    /// Makes two seats of one. The second has seen as much, and has entered nothing.
    pub fn split(&self, seat: Seat<D, E, C, N>) -> (Seat<D, E, C, N>, Seat<D, E, C, N>)
        requires own { seat.turn ≡ self.now.turn.id }
        requires idle { seat.holding ≡ false }
        requires reach { 2 ≤ seat.reach }
        ensures left { result.0 ≡ seat_after_split seat }
        ensures right { result.1 ≡ seat_split_off seat }
    {
        let Seat { inner, note } = seat;
        let (left, right) = self.turn.split(inner);
        (Seat { inner: left, note }, Seat { inner: right, note })
    }

    /// Makes one seat of two. It has seen what the one that saw more had seen, and has both seats' own places.
    pub fn join(&self, left: Seat<D, E, C, N>, right: Seat<D, E, C, N>) -> Seat<D, E, C, N>
        requires own { (left.turn ≡ self.now.turn.id) × (right.turn ≡ self.now.turn.id) }
        requires idle { (left.holding ≡ false) × (right.holding ≡ false) }
        ensures seat { result ≡ seat_after_join left right }
        ensures left { IsPrefix left.seen result.seen }
        ensures right { IsPrefix right.seen result.seen }
        ensures rises { RisesWithin 0 (length result.seen) result.mine }
    {
        let mut seat = left;
        self.absorb(&mut seat, right);
        seat
    }

    /// Takes a second seat out of one. It has seen as much, and has entered nothing.
    pub fn split_off(&self, seat: &mut Seat<D, E, C, N>) -> Seat<D, E, C, N>
        requires own { seat.old.turn ≡ self.now.turn.id }
        requires idle { seat.old.holding ≡ false }
        requires reach { 2 ≤ seat.old.reach }
        ensures left { seat.new ≡ seat_after_split seat.old }
        ensures right { result ≡ seat_split_off seat.old }
    {
        let inner = self.turn.split_off(&mut seat.inner);
        let note = seat.note;
        Seat { inner, note }
    }

    /// Puts a second seat into one, as `join` does.
    pub fn absorb(&self, seat: &mut Seat<D, E, C, N>, other: Seat<D, E, C, N>)
        requires own { (seat.old.turn ≡ self.now.turn.id) × (other.turn ≡ self.now.turn.id) }
        requires idle { (seat.old.holding ≡ false) × (other.holding ≡ false) }
        ensures seat { seat.new ≡ seat_after_join seat.old other }
        ensures left { IsPrefix seat.old.seen seat.new.seen }
        ensures right { IsPrefix other.seen seat.new.seen }
        ensures rises { RisesWithin 0 (length seat.new.seen) seat.new.mine }
    {
        let Seat { inner, note } = other;
        self.turn.absorb(&mut seat.inner, inner);
        seat.note = seat.note.max(note);
    }

    /// Ends the run, once no view reads any more. The core has come to the whole history, and each place of it is the seat's own.
    pub fn close<R: Wait>(self, rt: &R, seat: Seat<D, E, C, N>) -> Core<D, E, C>
        requires own { seat.turn ≡ self.turn.id }
        requires idle { seat.holding ≡ false }
        requires whole { seat.reach ≡ 2 ^ 32 }
        ensures comes { ComesTo D.Disk E.Disk C.Clock N.is result seat.seen }
        ensures mine { let before = length self.turn.opening in
            seat.mine ≡ range_with_len before (length seat.seen - before) }
    {
        let Shared { turn } = self;
        let Seat { inner, note: _ } = seat;
        let Known {
            core,
            poster,
            origin: _,
        } = turn.close(inner);
        if let Some(poster) = poster {
            poster.end(rt);
        }
        core
    }
}
