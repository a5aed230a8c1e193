//! A lane hashes what it is sent outside the turn.

ghost use Rattle.std.specs.Prelude.{◌≤◌};
ghost use denote.Param.Send.{IsSync};
ghost use Rattle.seat_history.specs.Entered.{OwnRises};
ghost use Rattle.shared_store.specs.Comes.{CanAct};
ghost use Rattle.server_tests.specs.Seats.{ComesBackIdle};

use crate::asserts::must;
use crate::seats::list_act;
use crate::serving::long::{LARGE, with_zeros};
use crate::stores::{Place, Store, opened, order_of};
use crate::talks::{Talk, session};
use crate::watch::{LOOKS, Watch};
use port_traits::Gate;
use std::alloc::Global;
use std::process::Abort;
use std::sync::Wait;
use std::sync::atomic::AtomicBool;
use std::sync::atomic::Ordering::SeqCst;
use std::thread::{Threads, join_mut, yield_now};
use store_types::Entry;

/// How many acts another thread does while the lane hashes.
const ACTS: usize = 20;

/// How often it is tried, since the other thread may not be run meanwhile.
const TRIES: usize = 10;

/// It tells that a lane's second command has begun.
#[derive(Drop)]
struct SecondBegun {
    has_begun: AtomicBool,
}

impl Gate for SecondBegun {
    fn before(&self, _lane: u32, number: u64) {
        if number == 1 {
            self.has_begun.store(true, SeqCst);
        }
    }

    fn after(&self, _lane: u32, _number: u64) {}
}

impl SecondBegun {
    fn wait(&self) {
        for _ in 0..LOOKS {
            if self.has_begun.load(SeqCst) {
                return;
            }
            yield_now();
        }
    }
}

/// LIST on lane 1, one after another.
fn list_often<R: Wait>(rt: &R, alloc: Global, store: &Store, seat: &mut Place, gate: &SecondBegun)
    requires { CanAct store.now.turn.id seat.old }
    ensures { ComesBackIdle seat.old seat.new }
{
    gate.wait();
    for _ in 0..ACTS {
        drop(store.act(rt, alloc, seat, 1, list_act(alloc)));
    }
}

/// OPEN_WRITER and a CHUNK of the greatest size on lane 0. As the CHUNK has begun, another thread acts on lane 1.
fn chunk_beside<R: Threads + Wait + Sync>(
    rt: &R,
    alloc: Global,
    store: &Store,
    seat: &mut Place,
    chunk: &mut Talk,
    gate: &SecondBegun,
)
    requires can { CanAct store.now.turn.id seat.old }
    requires rises { OwnRises seat.old }
    requires reach { 2 ≤ seat.old.reach }
    ensures { ComesBackIdle seat.old seat.new }
{
    let mut right = store.split_off(seat);
    let ((), ()) = join_mut(
        rt,
        &mut || -> ()
            requires { CanAct store.now.turn.id seat.now × OwnRises seat.now × IsSync R.row }
            ensures { ComesBackIdle seat.entry.now seat.exit.now }
        { session(rt, alloc, store, seat, 0, chunk, gate) },
        &mut || -> ()
            requires { CanAct store.now.turn.id right × IsSync R.row }
            ensures { ComesBackIdle right.entry right.exit }
        { list_often(rt, alloc, store, &mut right, gate) },
    );
    store.absorb(seat, right);
}

/// The second entry of lane 0 is behind all of lane 1.
fn is_last_but_end(order: &[Entry]) -> bool {
    match order {
        [first, others @ .., chunk, end] => {
            others.len() == ACTS && first.lane == 0 && chunk.lane == 0 && end.lane == 0
        }
        _ => false,
    }
}

fn try_once(rt: &(impl Threads + Wait + Abort + Sync), alloc: Global) -> bool {
    let (front, zeros, replies) = LARGE[1];
    let mut chunk = must(
        rt,
        Talk::of(alloc, &must(rt, with_zeros(alloc, front, zeros)), replies),
    );
    let (store, mut seat) = must(rt, opened(rt, alloc, must(rt, Watch::of(alloc, false))));
    let gate = SecondBegun {
        has_begun: AtomicBool::new(false),
    };
    chunk_beside(rt, alloc, &store, &mut seat, &mut chunk, &gate);
    chunk.assert_told(rt);
    is_last_but_end(&order_of(rt, store, seat))
}

/// A lane that had the turn as it hashes would let none of these acts go before its own.
#[test]
fn others_act_as_a_lane_hashes(rt: HostRuntime) {
    for _ in 0..TRIES {
        if try_once(&rt, rt.alloc()) {
            return;
        }
    }
    panic!(rt; "no act went before the CHUNK's")
}
