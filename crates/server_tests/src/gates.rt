//! Gates of several lanes: one that fixes in which order commands are done, one at which all lanes meet, and one that counts commands.

use crate::watch::LOOKS;
use port_traits::Gate;
use std::alloc::{AllocError, Global};
use std::sync::atomic::Ordering::SeqCst;
use std::sync::atomic::{AtomicBool, AtomicU64};
use std::thread::yield_now;

/// A command: its lane, and its number there, from 0.
pub(crate) type Numbered = (u32, u64);

/// A command, and the one that is answered before it.
pub(crate) type Held = (Numbered, Numbered);

/// A counter for each lane.
fn counters(alloc: Global, lanes: usize) -> Result<Vec<AtomicU64>, AllocError> {
    let mut counters = Vec::new(alloc);
    for _ in 0..lanes {
        counters.push(AtomicU64::new(0))?;
    }
    Ok(counters)
}

fn count(counters: &[AtomicU64], lane: u32) -> u64 {
    match counters.get(lane as usize) {
        Some(counter) => counter.load(SeqCst),
        None => 0,
    }
}

fn raise(counters: &[AtomicU64], lane: u32) {
    if let Some(counter) = counters.get(lane as usize) {
        counter.fetch_add(1, SeqCst);
    }
}

/// It holds each command of a list until its partner was answered.
#[derive(Drop)]
pub(crate) struct TurnGate {
    held: &'static [Held],
    /// How many commands of each lane were answered.
    answered: Vec<AtomicU64>,
    gave_up: AtomicBool,
}

impl TurnGate {
    pub(crate) fn of(
        alloc: Global,
        lanes: usize,
        held: &'static [Held],
    ) -> Result<TurnGate, AllocError> {
        Ok(TurnGate {
            held,
            answered: counters(alloc, lanes)?,
            gave_up: AtomicBool::new(false),
        })
    }

    /// It let a command go whose partner was not answered.
    pub(crate) fn gave_up(&self) -> bool {
        self.gave_up.load(SeqCst)
    }

    fn was_answered(&self, partner: Numbered) -> bool {
        let (lane, number) = partner;
        count(&self.answered, lane) > number
    }

    fn wait_for(&self, partner: Numbered) {
        for _ in 0..LOOKS {
            if self.was_answered(partner) {
                return;
            }
            yield_now();
        }
        self.gave_up.store(true, SeqCst);
    }
}

impl Gate for TurnGate {
    fn before(&self, lane: u32, number: u64) {
        for (command, partner) in self.held {
            if command.0 == lane && command.1 == number {
                self.wait_for(*partner);
            }
        }
    }

    fn after(&self, lane: u32, _number: u64) {
        raise(&self.answered, lane);
    }
}

/// It holds the first command of each lane until all lanes have come to theirs.
#[derive(Drop)]
pub(crate) struct MeetingGate {
    lanes: u64,
    /// How often a lane looks for the others before it goes on alone.
    looks: u32,
    /// How many lanes have come.
    come: AtomicU64,
    gave_up: AtomicBool,
}

impl MeetingGate {
    /// It takes no memory.
    pub(crate) fn of(lanes: u64, looks: u32) -> MeetingGate {
        MeetingGate {
            lanes,
            looks,
            come: AtomicU64::new(0),
            gave_up: AtomicBool::new(false),
        }
    }

    /// All lanes have come, and none went on before.
    pub(crate) fn have_met(&self) -> bool {
        self.come.load(SeqCst) == self.lanes && !self.gave_up.load(SeqCst)
    }

    fn meet(&self) {
        self.come.fetch_add(1, SeqCst);
        for _ in 0..self.looks {
            if self.come.load(SeqCst) >= self.lanes {
                return;
            }
            yield_now();
        }
        self.gave_up.store(true, SeqCst);
    }
}

impl Gate for MeetingGate {
    fn before(&self, _lane: u32, number: u64) {
        if number == 0 {
            self.meet();
        }
    }

    fn after(&self, _lane: u32, _number: u64) {}
}

/// It counts its calls by lane, and those that come out of turn: with another number, or not before and after a command in turn.
#[derive(Drop)]
pub(crate) struct CountingGate {
    before: Vec<AtomicU64>,
    after: Vec<AtomicU64>,
    out_of_turn: AtomicU64,
}

impl CountingGate {
    pub(crate) fn of(alloc: Global, lanes: usize) -> Result<CountingGate, AllocError> {
        Ok(CountingGate {
            before: counters(alloc, lanes)?,
            after: counters(alloc, lanes)?,
            out_of_turn: AtomicU64::new(0),
        })
    }

    /// How many commands of a lane began and were answered, and how many calls of all lanes came out of turn.
    pub(crate) fn counts(&self, lane: u32) -> [u64; 3] {
        let out_of_turn = self.out_of_turn.load(SeqCst);
        [
            count(&self.before, lane),
            count(&self.after, lane),
            out_of_turn,
        ]
    }

    fn check(&self, is_in_turn: bool) {
        if !is_in_turn {
            self.out_of_turn.fetch_add(1, SeqCst);
        }
    }
}

impl Gate for CountingGate {
    fn before(&self, lane: u32, number: u64) {
        self.check(number == count(&self.before, lane) && number == count(&self.after, lane));
        raise(&self.before, lane);
    }

    fn after(&self, lane: u32, number: u64) {
        let begun = number.checked_add(1);
        let is_begun = begun == Some(count(&self.before, lane));
        self.check(is_begun && number == count(&self.after, lane));
        raise(&self.after, lane);
    }
}
