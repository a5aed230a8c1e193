//! What lanes are served by.

ghost use Rattle.std.specs.Prelude.{◌≡◌, ◌≤◌, ◌<◌, false, List};
ghost use Rattle.std.specs.Thread.{IsSync};
ghost use mathlib.Core.List.{IsPrefix};
ghost use Rattle.turn_lock.specs.State.{SeatState, TableId, seat_after_join, seat_after_split, seat_split_off};
ghost use Rattle.store_history.specs.declared.act.Event.{Event};
ghost use Rattle.seat_history.specs.Entered.{OwnRises};
ghost use Rattle.store_history.specs.declared.port.LaneReport.{LaneReport};
ghost use Rattle.lane.specs.Served.{Run, OneRan};

use crate::run_with;
use core_state::Core;
use disk_trait::Disk;
use port_traits::{Clock, Gate, Sink, Source};
use shared_store::{Origin, Seat, Shared};
use std::alloc::Global;
use std::sync::Wait;
use std::thread::Threads;
use store_history::{LaneReport, Port};

/// What serves lanes. A seat is a `T`, and a lane's port a `U`: the threads over halves of the ports get a proof over types
/// with one parameter each alone.
pub trait Serves<T, U> {
    /// What contracts see of a seat.
    ghost state: { T → SeatState Event };

    /// The turn that seats are of.
    ghost turn: { Self → TableId };

    /// So a lane runs, by these events of its own.
    ghost runs: { U → U → LaneReport → Run → List Event → Type 0 };

    /// Takes a second seat out of one. It has seen as much, and has entered nothing.
    fn split_off(&self, seat: &mut T) -> T
        requires own { (state seat.old).turn ≡ turn self.now }
        requires idle { (state seat.old).holding ≡ false }
        requires reach { 2 ≤ (state seat.old).reach }
        ensures left { state seat.new ≡ seat_after_split (state seat.old) }
        ensures right { state result ≡ seat_split_off (state seat.old) };

    /// Puts a second seat into one, which then has both seats' own places.
    fn absorb(&self, seat: &mut T, other: T)
        requires own { ((state seat.old).turn ≡ turn self.now)
            × ((state other).turn ≡ turn self.now) }
        requires idle { ((state seat.old).holding ≡ false) × ((state other).holding ≡ false) }
        ensures seat { state seat.new ≡ seat_after_join (state seat.old) (state other) }
        ensures left { IsPrefix (state seat.old).seen (state seat.new).seen }
        ensures right { IsPrefix (state other).seen (state seat.new).seen }
        ensures rises { OwnRises (state seat.new) };

    /// Serves one lane, from its first byte to its end.
    fn serve<R: Threads + Wait + Sync>(
        &self,
        rt: &R,
        seat: &mut T,
        lane: u32,
        port: &mut U,
    ) -> LaneReport
        requires sync { IsSync R.row }
        requires own { (state seat.old).turn ≡ turn self.now }
        requires idle { (state seat.old).holding ≡ false }
        requires rises { OwnRises (state seat.old) }
        requires lane { lane < 64 }
        ensures ran { OneRan runs lane port.old port.new result (state seat.old) (state seat.new) };
}

/// The core behind the turn, and what a lane has besides.
#[derive(Clone, Copy)]
pub struct Service<'a, D: Disk, E: Disk, C: Clock, N: Origin<Core<D, E, C>>, G> {
    pub alloc: Global,
    pub shared: &'a Shared<D, E, C, N>,
    pub gate: &'a G,
}

impl<'a, D: Disk, E: Disk, C: Clock, N: Origin<Core<D, E, C>>, G: Gate, S: Source, K: Sink> Serves<
    Seat<D, E, C, N>,
    Port<S, K>,
> for Service<'a, D, E, C, N, G> {
    ghost use Rattle.lane.specs.Served.{RanAs};

    ghost state = { λ s. s };

    ghost turn = { λ on. on.shared.now.turn.id };

    ghost runs = { RanAs S.Source K.Sink };

    fn split_off(&self, seat: &mut Seat<D, E, C, N>) -> Seat<D, E, C, N> {
        self.shared.split_off(seat)
    }

    fn absorb(&self, seat: &mut Seat<D, E, C, N>, other: Seat<D, E, C, N>) {
        self.shared.absorb(seat, other);
    }

    fn serve<R: Threads + Wait + Sync>(
        &self,
        rt: &R,
        seat: &mut Seat<D, E, C, N>,
        lane: u32,
        port: &mut Port<S, K>,
    ) -> LaneReport {
        run_with(rt, self.alloc, self.shared, seat, lane, port, self.gate)
    }
}
