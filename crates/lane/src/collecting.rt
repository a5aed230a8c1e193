//! The collection of a lane.

ghost use Rattle.std.specs.Prelude.{◌≡◌};
ghost use Rattle.lane.specs.Tasks.{Stage, starts};

use crate::task::Task;
use core_state::{Act, Answer};
use std::alloc::{AllocError, Global};
use std::marker::Model;
use std::thread::Threads;
use store_types::MEMORY_KIND;
use turn_lock::{Replays, Turn};
use wire_commands::Reply;

/// A GC: the acts of the lane's collector, from its start to its end.
#[derive(Drop)]
pub struct Collection {
    state: State,
}

#[derive(Drop)]
pub enum State {
    /// The collector is to open.
    Starting,
    /// It is open.
    Sweeping,
    /// It has ended, or could not open, and this is the report.
    Over(Reply),
}

impl Model for Collection {
    ghost use Rattle.lane.specs.Sweeping.{stage_of, EndsInText};
    ghost use Rattle.lane.specs.Tasks.{Stage};

    ghost Value = { Stage };

    ghost view = { λ c. stage_of c.state };

    ghost invariant = { λ c. EndsInText (stage_of c.state) };
}

impl Collection {
    /// One that has not begun.
    pub fn new() -> Collection
        ensures { result ≡ starts }
    {
        Collection {
            state: State::Starting,
        }
    }
}

impl Task for Collection {
    ghost stage = { λ s. s };

    fn next_act<T: Replays>(&self, _alloc: Global, _turn: &Turn<T>) -> Option<Act> {
        match &self.state {
            State::Starting => Some(Act::Start),
            State::Sweeping => Some(Act::Step),
            State::Over(_) => None,
        }
    }

    /// It takes no memory. Want of memory for one of its acts is no end: the act behind it is the end, which tells it.
    fn take<R: Threads + Sync>(
        &mut self,
        _rt: &R,
        _alloc: Global,
        answer: Answer,
    ) -> Result<(), AllocError> {
        let Answer { entry, reply, .. } = answer;
        let is_open = matches!(&self.state, State::Sweeping);
        self.state = match reply {
            Some(report) if !is_open || entry.kind != MEMORY_KIND => State::Over(report),
            _reply => State::Sweeping,
        };
        Ok(())
    }

    fn report(self) -> Reply {
        let Collection { state } = self;
        match state {
            State::Over(report) => report,
            _ => unreachable!(),
        }
    }
}
