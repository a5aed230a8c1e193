//! Sessions on lanes of one store, one alone or several at once.

ghost use Rattle.std.specs.Prelude.{◌+◌, ◌≤◌, ◌<◌};
ghost use denote.Param.Send.{IsSync};
ghost use Rattle.seat_history.specs.Entered.{OwnRises};
ghost use Rattle.shared_store.specs.Comes.{CanAct};
ghost use Rattle.server_tests.specs.Seats.{ComesBackIdle};

use crate::asserts::same;
use crate::stores::{Place, Store};
use lane::{Ending, run_with};
use port_traits::{Gate, MemSink, MemSource};
use std::alloc::{AllocError, Global};
use std::process::Abort;
use std::sync::Wait;
use std::thread::{Threads, join_mut};
use store_history::Port;

/// What a lane is sent and is to be told, and what it was told and how it ended.
#[derive(Drop)]
pub(crate) struct Talk {
    port: Port<MemSource, MemSink>,
    replies: &'static [u8],
    pub(crate) ending: Ending,
}

impl Talk {
    pub(crate) fn of(
        alloc: Global,
        sent: &[u8],
        replies: &'static [u8],
    ) -> Result<Talk, AllocError> {
        let source = MemSource::new(sent.to_vec(alloc)?, Vec::new(alloc));
        let sink = MemSink::new(alloc, Vec::new(alloc));
        Ok(Talk::over(source, sink, replies))
    }

    /// The same, where the read and the write with these numbers fail. Each write takes one byte.
    pub(crate) fn failing(
        alloc: Global,
        sent: &[u8],
        replies: &'static [u8],
        read: u64,
        write: u64,
    ) -> Result<Talk, AllocError> {
        let source = MemSource::new(sent.to_vec(alloc)?, [read].to_vec(alloc)?);
        let sink = MemSink::new(alloc, [write].to_vec(alloc)?).at_most(1);
        Ok(Talk::over(source, sink, replies))
    }

    fn over(source: MemSource, sink: MemSink, replies: &'static [u8]) -> Talk {
        Talk {
            port: Port { source, sink },
            replies,
            ending: Ending::Clean,
        }
    }

    pub(crate) fn told(&self) -> &[u8] {
        self.port.sink.as_bytes()
    }

    /// It was told what it is to be told.
    pub(crate) fn assert_told(&self, rt: &impl Abort) {
        same(rt, self.told(), self.replies);
    }
}

/// Serves a session.
pub(crate) fn session(
    rt: &(impl Threads + Wait + Sync),
    alloc: Global,
    store: &Store,
    seat: &mut Place,
    lane: u32,
    talk: &mut Talk,
    gate: &impl Gate,
)
    requires lane { lane < 64 }
    requires can { CanAct store.now.turn.id seat.old }
    requires rises { OwnRises seat.old }
    ensures back { ComesBackIdle seat.old seat.new }
    ensures rises { OwnRises seat.new }
{
    let report = run_with(rt, alloc, store, seat, lane, &mut talk.port, gate);
    talk.ending = report.ending;
}

/// Two at once, on this lane and the next, each in a thread of its own.
pub(crate) fn two_sessions<R: Threads + Wait + Sync, G: Gate + Sync>(
    rt: &R,
    alloc: Global,
    store: &Store,
    seat: &mut Place,
    lane: u32,
    one: &mut Talk,
    other: &mut Talk,
    gate: &G,
)
    requires lane { lane + 1 < 64 }
    requires can { CanAct store.now.turn.id seat.old }
    requires rises { OwnRises seat.old }
    requires reach { 2 ≤ seat.old.reach }
    ensures back { ComesBackIdle seat.old seat.new }
    ensures rises { OwnRises seat.new }
{
    let next = lane + 1;
    let mut right = store.split_off(seat);
    let ((), ()) = join_mut(
        rt,
        &mut || -> ()
            requires { CanAct store.now.turn.id seat.now × OwnRises seat.now
                × (lane < 64) × IsSync R.row }
            ensures { ComesBackIdle seat.entry.now seat.exit.now }
        { session(rt, alloc, store, seat, lane, one, gate) },
        &mut || -> ()
            requires { CanAct store.now.turn.id right × OwnRises right
                × (next < 64) × IsSync R.row }
            ensures { ComesBackIdle right.entry right.exit }
        { session(rt, alloc, store, &mut right, next, other, gate) },
    );
    store.absorb(seat, right);
}
