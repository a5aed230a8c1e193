//! A gate by which the commands of several sessions come in the order of a text's lines.

ghost use Rattle.std.specs.Prelude.{None};

use port_traits::{Clock, Gate, SetClock};
use std::alloc::{AllocError, Global};
use std::sync::Arc;
use std::sync::atomic::Ordering::SeqCst;
use std::sync::atomic::{AtomicBool, AtomicU64};
use std::thread::yield_now;

/// How often a thread looks whether its turn has come, before it gives up.
const LOOKS: u32 = 10_000_000;

/// What a line says of a session.
#[derive(Clone, Copy, PartialEq, Eq)]
pub enum Event {
    /// The command of this number, from 0, is let in, and its first act has the turn of the store.
    Begins(u64),
    /// It is answered.
    Answered(u64),
    /// The session ends.
    Ends,
}

/// One comes behind another.
#[derive(Clone, Copy, PartialEq, Eq)]
pub struct Step {
    pub lane: u32,
    pub event: Event,
}

/// A gate that the clock of its run has too.
pub type GateHandle = Arc<LineGate, Global>;

/// It lets commands and ends in by their steps. Where there are none it holds up nothing.
#[derive(Drop)]
pub struct LineGate {
    steps: Vec<Step>,
    /// How many of them are done.
    done: AtomicU64,
    gave_up: AtomicBool,
}

impl LineGate {
    pub fn over(alloc: Global, steps: Vec<Step>) -> Result<GateHandle, AllocError> {
        let gate = LineGate {
            steps,
            done: AtomicU64::new(0),
            gave_up: AtomicBool::new(false),
        };
        Ok(Arc::new(alloc, gate)?)
    }

    /// Something waited for its turn in vain.
    pub fn gave_up(&self) -> bool {
        self.gave_up.load(SeqCst)
    }

    /// How many steps come before this one: all, where it is none of them.
    fn place_of(&self, lane: u32, event: Event) -> u64 {
        let wanted = Step { lane, event };
        for (place, step) in self.steps.iter().enumerate() {
            if *step == wanted {
                return place as u64;
            }
        }
        self.steps.len() as u64
    }

    /// Waits until so many steps are done.
    fn wait_for(&self, count: u64) {
        for _ in 0..LOOKS {
            if self.done.load(SeqCst) >= count || self.gave_up() {
                return;
            }
            yield_now();
        }
        self.gave_up.store(true, SeqCst);
    }

    /// The step behind so many is done, if no more are.
    fn pass(&self, count: u64) {
        let next = count.saturating_add(1);
        let _ = self.done.compare_exchange(count, next, SeqCst, SeqCst);
    }

    /// An act has the turn of the store. Where a command or an end was let in, it is that one's first. Where one waits for its reply, who was
    /// let in beside it asks for the turn meanwhile.
    fn act_begins(&self) {
        let count = self.done.load(SeqCst);
        match self.steps.get(count as usize) {
            Some(
                Step {
                    event: Event::Answered(_),
                    ..
                },
            ) => yield_now(),
            Some(_) => self.pass(count),
            None => {}
        }
    }
}

impl Gate for LineGate {
    fn before(&self, lane: u32, number: u64) {
        self.wait_for(self.place_of(lane, Event::Begins(number)));
    }

    fn after(&self, lane: u32, number: u64) {
        let answered = self.place_of(lane, Event::Answered(number));
        self.wait_for(answered);
        self.pass(answered);
        let next = self.place_of(lane, Event::Begins(number.saturating_add(1)));
        self.wait_for(next.min(self.place_of(lane, Event::Ends)));
    }
}

/// A clock that tells the gate when it is read, which each act does once.
#[derive(Drop)]
pub struct LineClock {
    clock: SetClock,
    gate: GateHandle,
}

impl LineClock {
    pub fn new(clock: SetClock, gate: GateHandle) -> LineClock {
        LineClock { clock, gate }
    }
}

impl Clock for LineClock {
    ghost readings = { λ _. None };

    fn now(&mut self) -> u64 {
        self.gate.act_begins();
        self.clock.now()
    }
}
