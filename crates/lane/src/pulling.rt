//! A SYNC of a lane.

ghost use Rattle.std.specs.Prelude.{◌≡◌};
ghost use Rattle.lane.specs.Tasks.{pull_stage};
ghost use Rattle.pull_steps.specs.Asked.{act_of_ask};

use crate::commands::act_of;
use crate::task::Task;
use core_state::{Act, Answer};
use pull_steps::{Ask, Pull};
use std::alloc::{AllocError, Global};
use std::thread::Threads;
use turn_lock::{Replays, Turn};
use wire_commands::{Command, Reply};

/// The act for what a SYNC asks.
fn act_of_ask<T: Replays>(turn: &Turn<T>, ask: Ask) -> Act
    ensures { result ≡ act_of_ask ask }
{
    match ask {
        Ask::Command(command) => act_of(turn, command),
        Ask::List { group } => Act::RemoteList(Command::Sync { group }),
        Ask::File {
            snapshot,
            name,
            offset,
        } => Act::RemoteFile {
            snapshot,
            name,
            offset,
        },
        Ask::Chunk { digest } => Act::RemoteChunk { digest },
    }
}

impl Task for Pull {
    ghost stage = { pull_stage };

    fn next_act<T: Replays>(&self, alloc: Global, turn: &Turn<T>) -> Option<Act> {
        match self.next(alloc) {
            Ok(ask) => Some(act_of_ask(turn, ask?)),
            Err(_) => Some(Act::Short),
        }
    }

    fn take<R: Threads + Sync>(
        &mut self,
        _rt: &R,
        alloc: Global,
        answer: Answer,
    ) -> Result<(), AllocError> {
        let Answer { reply, .. } = answer;
        let Some(reply) = reply else {
            unreachable!();
        };
        Pull::take(self, alloc, reply)
    }

    fn report(self) -> Reply {
        Pull::report(self)
    }
}
