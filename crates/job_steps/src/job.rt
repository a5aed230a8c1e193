//! A job from its command to its report.

ghost use Rattle.std.specs.Prelude.{◌≡◌, ◌≤◌, drop, false, take, vec_len, IsSome, IsNone, IfSome, IfOk, OnErr, OnOk};
ghost use Rattle.wire_commands.specs.HasText.{ReplyHasText};
ghost use Rattle.store_model.specs.Job.{asking, next as next_of, report as report_of};
ghost use Rattle.store_model.specs.Jobs.{job_of, IsJob, take_more};
ghost use Rattle.store_model.specs.PruneJob.{grouped as grouped_by, go_on};
ghost use Rattle.store_model.specs.JobReplies.{IsJobStep, IsReplyTo, IsWithinGroup};
ghost use Rattle.job_steps.specs.Checks.{stops};
ghost use Rattle.job_steps.specs.Replies.{EitherEndsInText, EndsInText, WantsForPart};
ghost use Rattle.job_steps.specs.States.{forgetting_of, job_in};
ghost use Rattle.job_steps.specs.Visits.{IsPartRead};

use crate::ending::closed;
use crate::prune::{Forgetting, Grouping, Room, first_to_go, mark_by};
use crate::stages::{Checking, Reading};
use crate::visit::Opening;
use std::alloc::{AllocError, Global};
use std::marker::Model;
use std::mem;
use std::thread::Threads;
use store_model::Step;
use store_types::{Bytes, Rows};
use wire_commands::{Command, PruneRow, Reply};

/// A job of a lane.
#[derive(Drop)]
pub struct Job {
    state: State,
}

#[derive(Drop)]
pub enum State {
    /// Nothing more is asked, and this is the report.
    Over(Reply),
    /// A PRUNE asks for its group's snapshots.
    Grouping(Grouping),
    /// A PRUNE asks to forget a snapshot.
    Forgetting(Forgetting),
    /// A VERIFY asks for a reader of its snapshot.
    Opening(Opening),
    /// A VERIFY asks for the snapshot's files.
    Listing(Opening),
    /// A VERIFY reads a file.
    Reading(Reading),
    /// A VERIFY reads the chunks of an index.
    Checking(Checking),
    /// A VERIFY closes its reader, and then this is the report.
    Closing(Reply),
}

impl Model for Job {
    ghost use Rattle.store_model.specs.Job as model;
    ghost use Rattle.job_steps.specs.Replies.{EndsInText};
    ghost use Rattle.job_steps.specs.States.{job_in};

    ghost Value = { model.Job };

    ghost view = { λ j. job_in j.state };

    ghost invariant = { λ j. EndsInText (job_in j.state) };
}

impl Job {
    /// The job of a PRUNE or a VERIFY, with nothing done. It makes the room for all that its last reply may need.
    pub fn start(alloc: Global, command: &Command) -> Result<Job, AllocError>
        requires { IsJob command.now }
        ensures { IfOk result (λ job. IfSome (job_of command.now) (λ a. job ≡ asking a)) }
    {
        match command {
            Command::Prune { group, keep, dry } => {
                let grouping = Grouping {
                    group: Bytes::from_slice(alloc, group.as_slice())?,
                    keep: *keep,
                    dry: *dry,
                    room: Room::new(alloc)?,
                };
                Ok(Job {
                    state: State::Grouping(grouping),
                })
            }
            Command::Verify { snapshot } => {
                let opening = Opening::new(alloc, snapshot.as_slice())?;
                Ok(Job {
                    state: State::Opening(opening),
                })
            }
            _ => unreachable!(),
        }
    }

    /// What the job asks next, or nothing where it is over. Where it is over, or closes its session behind a refusal,
    /// this takes no memory.
    pub fn next(&self, alloc: Global) -> Result<Option<Step>, AllocError>
        ensures step { IfOk result (λ step. step ≡ next_of self.now) }
        ensures asked { IfOk result (λ step. IfSome step IsJobStep) }
        ensures memory { OnErr result (IsSome (next_of self.now) × (stops self.now ≡ false)) }
    {
        match &self.state {
            State::Over(_) => Ok(None),
            State::Grouping(grouping) => Ok(Some(Step::Command(grouping.command(alloc)?))),
            State::Forgetting(forgetting) => Ok(Some(Step::Command(forgetting.command(alloc)?))),
            State::Opening(opening) => Ok(Some(opening.open(alloc)?)),
            State::Listing(opening) => Ok(Some(opening.files(alloc)?)),
            State::Reading(reading) => Ok(Some(reading.step(alloc)?)),
            State::Checking(checking) => Ok(Some(checking.step(alloc)?)),
            State::Closing(_) => Ok(Some(Step::Command(Command::CloseReader))),
        }
    }

    /// Takes the reply to the step that was asked, and moves what it needs out of it. Chunks that were read are tested in
    /// batches, by threads that may run on behind this call: what the job then is doesn't tell how.
    ///
    /// Memory may be wanting for a part of a file alone. Then the job is as before, and the reply is dropped.
    pub fn take<R: Threads + Sync>(
        &mut self,
        rt: &R,
        alloc: Global,
        reply: Reply,
    ) -> Result<(), AllocError>
        requires asked { IsSome (next_of self.old) }
        requires form { IfSome (next_of self.old) (λ step. IsReplyTo step reply) }
        requires text { ReplyHasText reply }
        ensures ok { OnOk result (self.new ≡ take_more self.old reply) }
        ensures err { OnErr result ((self.new ≡ self.old) × IsPartRead (next_of self.old) reply) }
    {
        let state = mem::replace(&mut self.state, State::Over(Reply::Done));
        match state.take(rt, alloc, reply) {
            Ok(state) => {
                drop(mem::replace(&mut self.state, state));
                Ok(())
            }
            Err(state) => {
                drop(mem::replace(&mut self.state, state));
                Err(AllocError)
            }
        }
    }

    /// What the job reports. It takes no memory.
    pub fn report(self) -> Reply
        requires { IsNone (next_of self) }
        ensures report { result ≡ report_of self }
        ensures text { ReplyHasText result }
    {
        let Job { state } = self;
        match state {
            State::Over(report) => report,
            _ => unreachable!(),
        }
    }
}

impl State {
    /// The state after the reply to the step that was asked. Where memory is wanting for a part of a file, the state before.
    #[tactic(auto, unfolding(store_model::specs::Jobs::take))]
    fn take<R: Threads + Sync>(self, rt: &R, alloc: Global, reply: Reply) -> Result<State, State>
        requires asked { IsSome (next_of (job_in self)) }
        requires form { IfSome (next_of (job_in self)) (λ step. IsReplyTo step reply) }
        requires text { ReplyHasText reply }
        requires ends { EndsInText (job_in self) }
        ensures ok { IfOk result (λ state. job_in state ≡ take_more (job_in self) reply) }
        ensures err { WantsForPart (job_in self) reply result }
        ensures ends { EitherEndsInText result }
    {
        match self {
            State::Over(_) => unreachable!(),
            State::Grouping(grouping) => Ok(State::grouped(grouping, reply)),
            State::Forgetting(forgetting) => Ok(State::forgot(forgetting, reply)),
            State::Opening(opening) => Ok(opening.opened(reply)),
            State::Listing(opening) => Ok(opening.listed(alloc, reply)),
            State::Reading(reading) => reading.take(alloc, reply),
            State::Checking(checking) => Ok(checking.checked(rt, alloc, reply)),
            State::Closing(report) => Ok(closed(report, reply)),
        }
    }

    /// The state after the reply to the PRUNE's own command.
    #[tactic(auto, unfolding(store_model::specs::PruneJob::grouped))]
    fn grouped(grouping: Grouping, reply: Reply) -> State
        requires { IsWithinGroup reply }
        ensures { job_in result ≡ grouped_by grouping.keep grouping.dry reply }
    {
        let Reply::Keys(snapshots) = reply else {
            return State::Over(reply);
        };
        let rows = grouping.room.rows_meant(&grouping.keep, snapshots);
        if grouping.dry {
            return State::Over(Reply::Marks(Rows::from_vec(rows)));
        }
        State::going_on(rows, 0)
    }

    /// The state after the reply to the FORGET of the snapshot that was to go.
    fn forgot(forgetting: Forgetting, reply: Reply) -> State
        ensures { job_in result ≡ take_more (forgetting_of forgetting) reply }
    {
        let Forgetting { mut rows, place } = forgetting;
        let Some(mark) = mark_by(&reply) else {
            return State::Over(reply);
        };
        drop(reply);
        rows[place].mark = mark;
        State::going_on(rows, place + 1)
    }

    /// The rows before a place are done. The next that is to go is asked for, or there is none.
    fn going_on(rows: Vec<PruneRow>, from: usize) -> State
        requires { from ≤ vec_len rows }
        ensures { job_in result ≡ go_on (take from rows.items) (drop from rows.items) }
    {
        match first_to_go(&rows, from) {
            Some(place) => State::Forgetting(Forgetting { rows, place }),
            None => State::Over(Reply::Marks(Rows::from_vec(rows))),
        }
    }
}
