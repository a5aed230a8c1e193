//! Jobs: what one asks next, by the replies to its steps so far.

ghost use Rattle.std.specs.Prelude.{◌≡◌, IfOk};
ghost use Rattle.store_model.specs.Job.{step_of, is_sync as is_of_sync};
ghost use Rattle.store_model.specs.Jobs.{take as taken};
ghost use Rattle.plain_lanes.specs.Jobs.{shown_job, FitsAsked, IsSpelledJob, StartsJob};

use crate::asked::{chunk_step, copied, file_step};
use crate::ending::{Close, closed};
use crate::pull::Pull;
use crate::visit::Visit;
use crate::{prune, sync, verify};
use std::alloc::{AllocError, Global};
use std::collections::VecDeque;
use std::marker::Model;
use store_model::Step;
use store_types::{Bytes, Keep, Piece};
use wire_commands::{Command, FileFault, FileRow, PruneRow, Reply};

/// Where a job is that asks for a step.
#[derive(Drop)]
pub(crate) enum Stage {
    /// PRUNE asks for its group's snapshots, by its own command.
    Grouping {
        group: Bytes,
        keep: Keep,
        dry: bool,
    },
    /// PRUNE, behind the rows that are done, asks to forget this snapshot, before the rows to come.
    Forgetting {
        before: Vec<PruneRow>,
        snapshot: Bytes,
        later: VecDeque<PruneRow>,
    },
    /// VERIFY asks for a reader of this snapshot.
    Opening {
        snapshot: Bytes,
    },
    /// VERIFY asks for the snapshot's files.
    Listing {
        snapshot: Bytes,
    },
    /// VERIFY reads this file, behind these bytes of it.
    Reading {
        visit: Visit,
        row: FileRow,
        bytes: Vec<u8>,
    },
    /// VERIFY, with this file's fault so far, reads the chunk at a place, of this piece, before those of the others.
    Checking {
        visit: Visit,
        row: FileRow,
        fault: Option<FileFault>,
        place: u32,
        piece: Piece,
        later: VecDeque<Piece>,
    },
    /// VERIFY closes its reader, and then this is its report.
    Closing {
        report: Reply,
    },
    /// SYNC asks for a writer of its snapshot.
    Beginning {
        pull: Pull,
    },
    /// SYNC asks for this command of its snapshot's, before the others.
    Sending {
        pull: Pull,
        command: Command,
        later: VecDeque<Command>,
    },
    /// SYNC ends its writer, and then this is its report.
    Aborting {
        report: Reply,
    },
}

/// A job that asks for a step.
#[derive(Drop)]
pub struct Asking {
    pub(crate) stage: Stage,
}

impl Model for Asking {
    ghost use Rattle.store_model.specs.Job as model;
    ghost use Rattle.plain_lanes.specs.Stages.{shown_stage, FitsStage};

    ghost Value = { model.Asking };

    ghost view = { λ a. shown_stage a.stage };

    ghost invariant = { λ a. FitsStage a.stage };
}

/// A job.
#[derive(Drop)]
pub enum Job {
    /// It asks nothing more, and this is its report.
    Over(Reply),
    Asking(Asking),
}

impl Asking {
    /// The job of a command, with nothing done. A command that is no job's comes back, and so does a SYNC, which is none
    /// before its first step.
    pub fn start(command: Command) -> Result<Asking, Command>
        ensures { StartsJob command result }
    {
        match command {
            Command::Prune { group, keep, dry } => Ok(Asking {
                stage: Stage::Grouping { group, keep, dry },
            }),
            Command::Verify { snapshot } => Ok(Asking {
                stage: Stage::Opening { snapshot },
            }),
            other => Err(other),
        }
    }

    /// A SYNC's.
    pub fn is_sync(&self) -> bool
        ensures { result ≡ is_of_sync self.now }
    {
        matches!(
            &self.stage,
            Stage::Beginning { .. } | Stage::Sending { .. } | Stage::Aborting { .. }
        )
    }

    /// The step that it asks.
    pub fn next(&self, alloc: Global) -> Result<Step, AllocError>
        ensures { IfOk result (λ step. step ≡ step_of self.now) }
    {
        match &self.stage {
            Stage::Grouping { group, keep, dry } => Ok(Step::Command(Command::Prune {
                group: group.clone()?,
                keep: *keep,
                dry: *dry,
            })),
            Stage::Forgetting { snapshot, .. } => Ok(Step::Command(Command::Forget {
                snapshot: snapshot.clone()?,
            })),
            Stage::Opening { snapshot } => Ok(Step::Command(Command::OpenReader {
                snapshot: snapshot.clone()?,
            })),
            Stage::Listing { snapshot } => Ok(Step::Command(Command::Files {
                snapshot: snapshot.clone()?,
            })),
            Stage::Reading { row, bytes, .. } => {
                Ok(file_step(alloc, row.file.as_slice(), bytes.len() as u64)?)
            }
            Stage::Checking { row, place, .. } => {
                Ok(chunk_step(alloc, row.file.as_slice(), *place)?)
            }
            Stage::Closing { .. } => Ok(Step::Command(Command::CloseReader)),
            Stage::Beginning { pull } => Ok(Step::Command(Command::OpenWriter {
                snapshot: pull.snapshot.key.text(alloc)?,
            })),
            Stage::Sending { command, .. } => Ok(Step::Command(copied(alloc, command)?)),
            Stage::Aborting { .. } => Ok(Step::Command(Command::Abort)),
        }
    }

    /// The job after the reply to the step that it asked.
    #[tactic(auto, unfolding(store_model::specs::Jobs::take))]
    pub fn take(self, alloc: Global, reply: Reply) -> Result<Job, AllocError>
        requires { FitsAsked self reply }
        ensures job { IfOk result (λ job. shown_job job ≡ taken self reply) }
        ensures spelled { IfOk result IsSpelledJob }
    {
        match self.stage {
            Stage::Grouping { group, keep, dry } => {
                drop(group);
                prune::grouped(alloc, &keep, dry, reply)
            }
            Stage::Forgetting {
                before,
                snapshot,
                later,
            } => prune::forgot(before, snapshot, later, reply),
            Stage::Opening { snapshot } => Ok(verify::opened(snapshot, reply)),
            Stage::Listing { snapshot } => Ok(verify::listed(alloc, snapshot, reply)),
            Stage::Reading { visit, row, bytes } => {
                verify::read_part(alloc, visit, row, bytes, reply)
            }
            Stage::Checking {
                visit,
                row,
                fault,
                place,
                piece,
                later,
            } => verify::checked(alloc, visit, row, fault, place, piece, later, reply),
            Stage::Closing { report } => Ok(closed(Close::Reader, report, reply)),
            Stage::Beginning { pull } => sync::begun(alloc, pull, reply),
            Stage::Sending {
                pull,
                command,
                later,
            } => {
                drop(command);
                sync::replied(alloc, pull, later, reply)
            }
            Stage::Aborting { report } => Ok(closed(Close::Writer, report, reply)),
        }
    }
}
