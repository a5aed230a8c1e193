//! What the words ask for.

ghost use Rattle.command_line.specs.Reading.{texts};
ghost use Rattle.pbs_server.specs.Words.{Answers};

use crate::status::Status;
use command_line::{Plan, WordFault, plan_words};
use std::alloc::Global;
use store_types::LANES;

/// A check of so many sessions has so many ports.
const CHECK_LIMIT: usize = 1 + 2 * LANES;

/// What is to be served.
#[derive(Clone, Copy)]
pub enum Asked {
    /// The sessions of the ports, with the order of their acts or without.
    Run { with_order: bool },
    /// Sessions of lanes 0 to `n`, which are to be made.
    Gen { n: u32 },
    /// A run, with the order and two ports of each session.
    Check,
}

/// What they ask for. Else why nothing is done: the words have no reading, or ask for another number of ports than there are, or for
/// more than 64 sessions, or memory was wanting to read them.
pub fn read_words(alloc: Global, words: &[String], ports: usize) -> Result<Asked, Status>
    ensures { Answers (texts words.now) ports result }
{
    let plan = match plan_words(alloc, words) {
        Ok(plan) => plan,
        Err(WordFault::NoReading) => return Err(Status::Usage),
        Err(WordFault::NoMemory) => return Err(Status::NoMemory),
    };
    if plan.ports() != ports {
        return Err(Status::Usage);
    }
    match &plan {
        Plan::Gen { n, .. } => Ok(Asked::Gen { n: *n }),
        Plan::Run { order, .. } => {
            if ports > LANES {
                return Err(Status::TooManyLanes);
            }
            let with_order = order.is_some();
            Ok(Asked::Run { with_order })
        }
        Plan::Check { .. } => {
            if ports > CHECK_LIMIT {
                return Err(Status::TooManyLanes);
            }
            Ok(Asked::Check)
        }
    }
}
