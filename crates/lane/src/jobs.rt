//! The jobs of a lane: a PRUNE or a VERIFY.

ghost use Rattle.std.specs.Prelude.{◌≡◌};
ghost use Rattle.store_history.specs.Acts.{act_of_step};
ghost use Rattle.lane.specs.Tasks.{job_stage};

use crate::commands::act_of;
use crate::task::Task;
use core_state::{Act, Answer};
use job_steps::Job;
use std::alloc::{AllocError, Global};
use std::thread::Threads;
use store_model::Step;
use turn_lock::{Replays, Turn};
use wire_commands::Reply;

/// The act for a step of a job.
fn act_of_step<T: Replays>(turn: &Turn<T>, step: Step) -> Act
    ensures { result ≡ act_of_step step }
{
    match step {
        Step::Command(command) => act_of(turn, command),
        Step::ReadFile { name, offset } => Act::ReadFile { name, offset },
        Step::ReadChunk { name, entry } => Act::ReadChunk { name, entry },
    }
}

impl Task for Job {
    ghost stage = { job_stage };

    fn next_act<T: Replays>(&self, alloc: Global, turn: &Turn<T>) -> Option<Act> {
        match self.next(alloc) {
            Ok(step) => Some(act_of_step(turn, step?)),
            Err(_) => Some(Act::Short),
        }
    }

    fn take<R: Threads + Sync>(
        &mut self,
        rt: &R,
        alloc: Global,
        answer: Answer,
    ) -> Result<(), AllocError> {
        let Answer { reply, .. } = answer;
        let Some(reply) = reply else {
            unreachable!();
        };
        Job::take(self, rt, alloc, reply)
    }

    fn report(self) -> Reply {
        Job::report(self)
    }
}
