//! The turn.
ghost use Rattle.std.specs.Prelude.{◌≡◌, ℕ, ◌+◌, ◌-◌, ◌/◌, ◌^◌, ◌<◌, ◌≤◌, true, false, List, [], length, IfOk, IfErr, IfNone};
ghost use Rattle.std.specs.List.{range_with_len};
ghost use mathlib.Core.List.{IsPrefix};
ghost use Rattle.turn_lock.specs.State.{IsNewTurn, seat_after_join, seat_after_split, seat_split_off};
ghost use Rattle.turn_lock.specs.Places.{RisesWithin};
ghost use Rattle.turn_lock.specs.Steps.{IsWaiting, Takes, TakesFound};

use crate::held::Held;
use crate::opening::Opening;
use crate::parking::Parking;
use crate::replays::Replays;
use crate::rule::{
    Both, Draw, Front, Halves, Look, OneHistory, SERVING, Settle, TICKET, VALUE, View,
};
use crate::seat::{Seat, TableSeat};
use atomic_table::{Refused, Table};
use std::alloc::{AllocFailed, Global};
use std::marker::Model;
use std::sync::Wait;
use std::thread;

/// How often a waiting thread yields the processor before it sleeps.
const YIELDS: u32 = 4;

/// A value that threads change in turn, and the history of what they did to it.
///
/// Contracts see which turn it is, and the history that the value stood for as it was handed in.
#[derive(Drop)]
pub struct Turn<T: Replays> {
    pub(crate) table: Table<Option<T>, View<T::Event>, Opening<T::Event>, OneHistory<T>, Global>,
    pub(crate) parking: Parking,
}

impl<T: Replays> Model for Turn<T> {
    ghost use Rattle.std.specs.Prelude.{◌≡◌};
    ghost use Rattle.turn_lock.specs.State.{TurnState};

    ghost Value = { TurnState T.Event };

    ghost view = { λ t. record { id = t.table.shared.table_id; opening = t.table.shared.key.history } };

    ghost invariant = { λ t. (t.table.shared.table_id.words ≡ 2) × (t.table.shared.table_id.slots ≡ 1) };
}

impl<T: Replays> Turn<T> {
    /// A turn round the value, and its first seat, which has seen the history that the value stands for.
    /// The value comes back where memory ran out.
    pub fn make(alloc: Global, value: T) -> Result<(Turn<T>, Seat<T>), T>
        ghost history: { List T.Event }
        requires { T.stands value history }
        ensures ok { IfOk result (IsNewTurn history) }
        ensures err { IfErr result (λ v. v ≡ value) }
    {
        let opening = Opening::of();
        let entries = value.entries();
        let mut slots = Vec::new(alloc);
        if let Err(failed) = slots.push(Some(value)) {
            let AllocFailed { value } = failed;
            let Some(value) = value else { unreachable!() };
            slots.destroy_empty();
            return Err(value);
        }
        match Table::new(alloc, &[entries, entries], slots, &opening) {
            Ok((table, inner)) => {
                let parking = Parking::new();
                Ok((Turn { table, parking }, Seat { inner }))
            }
            Err(Refused { mut slots }) => {
                let Some(Some(value)) = slots.pop() else {
                    unreachable!()
                };
                slots.destroy_empty();
                Err(value)
            }
        }
    }

    /// Draws a ticket, waits until it is served, and takes the value out. The value stands for all of the history.
    /// A waiting thread yields the processor a few times, and then sleeps until its ticket is next.
    pub fn take<R: Wait>(&self, rt: &R, seat: &mut Seat<T>) -> Held<T>
        requires own { seat.old.turn ≡ self.now.id }
        requires idle { seat.old.holding ≡ false }
        ensures seat { seat.new ≡ record seat.old { seen = seat.new.seen; holding = true } }
        ensures seen { IsPrefix seat.old.seen seat.new.seen }
        ensures value { T.stands result.value seat.new.seen }
    {
        let seat = &mut seat.inner;
        let ticket = self.table.shared.fetch_add::<Draw>(seat, TICKET, 1);
        Held::new(self.wait(rt, seat, ticket))
    }

    // Looks until the ticket is served, and takes the value out.
    fn wait<R: Wait>(&self, rt: &R, seat: &mut TableSeat<T>, ticket: u64) -> T
        requires own { seat.old.table_id ≡ self.now.id }
        requires waiting { IsWaiting ticket seat.old }
        ensures same { (seat.new.table_id ≡ seat.old.table_id) × (seat.new.id ≡ seat.old.id) }
        ensures takes { Takes T.stands seat.old.me ticket result seat.new.me }
    {
        let mut yields = 0;
        for _ in rt.forever() {
            let wakes = self.parking.wakes(ticket);
            if let Some(value) = self.value_at(seat, ticket) {
                return value;
            }
            if yields < YIELDS {
                yields += 1;
                thread::yield_now();
            } else {
                self.parking.sleep(rt, ticket, wakes);
            }
        }
        unreachable!()
    }

    // The value, taken out of the slot, where the ticket is served.
    fn value_at(&self, seat: &mut TableSeat<T>, ticket: u64) -> Option<T>
        requires own { seat.old.table_id ≡ self.now.id }
        requires waiting { IsWaiting ticket seat.old }
        ensures same { (seat.new.table_id ≡ seat.old.table_id) × (seat.new.id ≡ seat.old.id) }
        ensures some { TakesFound T.stands seat.old.me ticket result seat.new.me }
        ensures none { IfNone result (seat.new.me ≡ seat.old.me) }
    {
        let shared = &self.table.shared;
        if shared.load::<Look<T>>(seat, SERVING) != ticket {
            return None;
        }
        shared.exchange(seat, VALUE, None)
    }

    /// The length of the history, with no waiting. A value that is out with another seat does not matter.
    pub fn front(&self, seat: &mut Seat<T>) -> u64
        requires own { seat.old.turn ≡ self.now.id }
        ensures seat { seat.new ≡ record seat.old { seen = seat.new.seen } }
        ensures seen { IsPrefix seat.old.seen seat.new.seen }
        ensures length { result ≡ length seat.new.seen }
        ensures at_least { length seat.old.seen ≤ result }
    {
        self.table.shared.load::<Front>(&mut seat.inner, SERVING)
    }

    /// Lets a thread run that waits for this processor, where one has the turn or waits for it.
    pub fn give_way(&self) {
        let shared = &self.table.shared;
        if shared.peek(SERVING) != shared.peek(TICKET) {
            thread::yield_now();
        }
    }

    /// Makes two seats of one. The second has seen as much, and has entered nothing.
    pub fn split(&self, seat: Seat<T>) -> (Seat<T>, Seat<T>)
        requires own { seat.turn ≡ self.now.id }
        requires idle { seat.holding ≡ false }
        requires reach { 2 ≤ seat.reach }
        ensures left { result.0 ≡ seat_after_split seat }
        ensures right { result.1 ≡ seat_split_off seat }
    {
        let mut left = seat;
        let right = self.split_off(&mut left);
        (left, right)
    }

    /// Makes one seat of two. It has seen what the one that saw more had seen, and has both seats' own places.
    pub fn join(&self, left: Seat<T>, right: Seat<T>) -> Seat<T>
        requires own { (left.turn ≡ self.now.id) × (right.turn ≡ self.now.id) }
        requires idle { (left.holding ≡ false) × (right.holding ≡ false) }
        ensures seat { result ≡ seat_after_join left right }
        ensures left { IsPrefix left.seen result.seen }
        ensures right { IsPrefix right.seen result.seen }
        ensures rises { RisesWithin 0 (length result.seen) result.mine }
    {
        let mut seat = left;
        self.absorb(&mut seat, right);
        seat
    }

    /// Takes a second seat out of one, as `split` does.
    pub fn split_off(&self, seat: &mut Seat<T>) -> Seat<T>
        requires own { seat.old.turn ≡ self.now.id }
        requires idle { seat.old.holding ≡ false }
        requires reach { 2 ≤ seat.old.reach }
        ensures left { seat.new ≡ seat_after_split seat.old }
        ensures right { result ≡ seat_split_off seat.old }
    {
        let inner = self.table.shared.split_seat::<Halves>(&mut seat.inner);
        Seat { inner }
    }

    /// Puts a second seat into one, as `join` does.
    pub fn absorb(&self, seat: &mut Seat<T>, other: Seat<T>)
        requires own { (seat.old.turn ≡ self.now.id) × (other.turn ≡ self.now.id) }
        requires idle { (seat.old.holding ≡ false) × (other.holding ≡ false) }
        ensures seat { seat.new ≡ seat_after_join seat.old other }
        ensures left { IsPrefix seat.old.seen seat.new.seen }
        ensures right { IsPrefix other.seen seat.new.seen }
        ensures rises { RisesWithin 0 (length seat.new.seen) seat.new.mine }
    {
        let shared = &self.table.shared;
        shared.join_seat::<Both>(&mut seat.inner, other.into_inner());
        shared.load::<Settle>(&mut seat.inner, TICKET);
    }

    /// Ends the turn. The seat is made of all that were split, so its own places are those of all events.
    pub fn close(self, seat: Seat<T>) -> T
        requires own { seat.turn ≡ self.id }
        requires idle { seat.holding ≡ false }
        requires whole { seat.reach ≡ 2 ^ 32 }
        ensures value { T.stands result seat.seen }
        ensures mine { let before = length self.opening in
            seat.mine ≡ range_with_len before (length seat.seen - before) }
    {
        let Turn { table, parking: _ } = self;
        let mut closed = table.close_with(seat.into_inner());
        let Some(value) = closed.take(VALUE) else {
            unreachable!()
        };
        closed.free();
        value
    }
}
