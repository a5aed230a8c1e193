//! The plain store, and what a command does to it.

ghost use Rattle.std.specs.Prelude.{◌≡◌, ◌<◌, ◌≤◌, IfOk, IfErr, OnOk, OnErr};
ghost use Rattle.store_types.specs.Times.{last_moment};
ghost use Rattle.wire_commands.specs.HasText.{FitsRefusal, ReplyHasText};
ghost use Rattle.store_model.specs.Store.{session as session_at, with_session, ended, want_writer as needs_writer, want_reader as needs_reader};
ghost use Rattle.store_model.specs.JobSteps.{step_outcome as by_step};
ghost use Rattle.store_model.specs.Steps.{step as stepped, outcome as outcome_of};
ghost use Rattle.plain_sessions.specs.Sessions.{shown_held};
ghost use Rattle.plain_sessions.specs.Changes.{FitsSession};
ghost use Rattle.plain_sessions.specs.Outcomes.{Tells};
ghost use Rattle.plain_lanes.specs.Jobs.{FitsAsked};
ghost use Rattle.plain_lanes.specs.Nexts.{IsStep};
ghost use Rattle.plain_store.specs.Outcomes.{Does, IsSpelled, job_done, step_done, with_change};

use plain_lanes::Asking;
use plain_sessions::{Change, Held, Reader, Session, Stop, Writer};
use plain_snapshots::Snapshot;
use std::alloc::{AllocError, Global};
use std::marker::Model;
use store_model::Step;
use store_types::Refusal;
use wire_commands::{Command, Reply};

/// The plain store: the finished snapshots with all their bytes, in their order, and the session of
/// each of the 64 lanes.
#[derive(Drop)]
pub struct Plain {
    pub(crate) snapshots: Vec<Snapshot>,
    pub(crate) sessions: Vec<Session>,
}

impl Model for Plain {
    ghost use Rattle.std.specs.Prelude.{◌≡◌, vec_len};
    ghost use Rattle.store_model.specs.Store.{Store};

    ghost Value = { Store };

    ghost view = { λ p. record { snapshots = p.snapshots.items; sessions = p.sessions.items } };

    ghost invariant = { λ p. vec_len p.sessions ≡ 64 };
}

impl Plain {
    /// What the lane has.
    pub(crate) fn held(&self, lane: u32) -> &Held
        requires { lane < 64 }
        ensures { shown_held result.now ≡ session_at self.now lane }
    {
        let session = &self.sessions[lane as usize];
        &session.held
    }

    /// The lane's writer.
    pub(crate) fn want_writer(&self, lane: u32) -> Result<&Writer, Refusal>
        requires { lane < 64 }
        ensures fits { IfErr result FitsRefusal }
        ensures test { Tells result (needs_writer (session_at self.now lane)) (λ w. w.now) }
    {
        self.held(lane).want_writer()
    }

    /// The lane's reader.
    pub(crate) fn want_reader(&self, lane: u32) -> Result<&Reader, Refusal>
        requires { lane < 64 }
        ensures fits { IfErr result FitsRefusal }
        ensures test { Tells result (needs_reader (session_at self.now lane)) (λ r. r.now) }
    {
        self.held(lane).want_reader()
    }

    /// The lane has this.
    pub(crate) fn set_held(&mut self, lane: u32, held: Held)
        requires { lane < 64 }
        ensures { self.new ≡ with_session self.old lane (shown_held held) }
    {
        self.sessions[lane as usize] = Session { held };
    }

    /// The lane's writer is changed. At want of memory nothing has changed.
    pub(crate) fn change(&mut self, lane: u32, change: Change) -> Result<(), AllocError>
        requires lane { lane < 64 }
        requires fits { FitsSession change (session_at self.old lane) }
        ensures ok { OnOk result (self.new ≡ with_change self.old lane change) }
        ensures err { OnErr result (self.new ≡ self.old) }
    {
        let session = &mut self.sessions[lane as usize];
        session.held.change(change)
    }

    /// The lane's session ends.
    pub(crate) fn end(&mut self, lane: u32)
        requires { lane < 64 }
        ensures { self.new ≡ ended self.old lane }
    {
        self.set_held(lane, Held::Nothing);
    }

    /// Does a lane's next command, which is no job's and no BYE, and gives its reply.
    ///
    /// The moment is in seconds since 1970, and there are 64 lanes. A command that is refused
    /// changes nothing, and so does one that memory is wanting for.
    pub fn step(
        &mut self,
        alloc: Global,
        lane: u32,
        moment: u64,
        command: &Command,
    ) -> Result<Reply, AllocError>
        requires lane { lane < 64 }
        requires moment { moment ≤ last_moment }
        requires command { IsStep command.now }
        ensures step { IfOk result (λ r. (self.new, r) ≡ stepped self.old lane moment command.now) }
        ensures spelled { IfOk result ReplyHasText }
        ensures memory { OnErr result (self.new ≡ self.old) }
    {
        match self.outcome(alloc, lane, moment, command) {
            Ok(reply) => Ok(reply),
            Err(Stop::Refused(refusal)) => Ok(Reply::Refused(refusal)),
            Err(Stop::NoMemory) => Err(AllocError),
        }
    }

    /// Does the step that a lane's job asks, and gives its reply.
    pub(crate) fn do_step(
        &mut self,
        alloc: Global,
        lane: u32,
        moment: u64,
        asking: &Asking,
    ) -> Result<Reply, AllocError>
        requires lane { lane < 64 }
        requires moment { moment ≤ last_moment }
        ensures step { IfOk result (λ r. (self.new, r) ≡ job_done self.old lane moment asking.now) }
        ensures fits { IfOk result (FitsAsked asking.now) }
    {
        let step = asking.next(alloc)?;
        let told = self.answer_step(alloc, lane, moment, &step);
        drop(step);
        told
    }

    fn answer_step(
        &mut self,
        alloc: Global,
        lane: u32,
        moment: u64,
        step: &Step,
    ) -> Result<Reply, AllocError>
        requires lane { lane < 64 }
        requires moment { moment ≤ last_moment }
        ensures step { IfOk result (λ r. (self.new, r) ≡ step_done self.old lane moment step.now) }
        ensures spelled { IfOk result ReplyHasText }
    {
        match self.step_outcome(alloc, lane, moment, step) {
            Ok(reply) => Ok(reply),
            Err(Stop::Refused(refusal)) => Ok(Reply::Refused(refusal)),
            Err(Stop::NoMemory) => Err(AllocError),
        }
    }

    fn step_outcome(
        &mut self,
        alloc: Global,
        lane: u32,
        moment: u64,
        step: &Step,
    ) -> Result<Reply, Stop>
        requires lane { lane < 64 }
        requires moment { moment ≤ last_moment }
        ensures does { Does self.old self.new result (by_step self.old lane moment step.now) }
        ensures spelled { IsSpelled result }
    {
        match step {
            Step::Command(command) => self.outcome(alloc, lane, moment, command),
            Step::ReadFile { name, offset } => self.read_file(alloc, lane, name, *offset),
            Step::ReadChunk { name, entry } => self.read_chunk(alloc, lane, name, *entry),
        }
    }

    /// Does a command, or the first step of a job's.
    #[tactic(auto, unfolding(store_model::specs::Steps::outcome), using(crate::proofs::Spelled::done_spelled))]
    fn outcome(
        &mut self,
        alloc: Global,
        lane: u32,
        moment: u64,
        command: &Command,
    ) -> Result<Reply, Stop>
        requires lane { lane < 64 }
        requires moment { moment ≤ last_moment }
        ensures does { Does self.old self.new result (outcome_of self.old lane moment command.now) }
        ensures spelled { IsSpelled result }
    {
        match command {
            Command::OpenWriter { snapshot } => {
                self.open_writer(alloc, lane, moment, snapshot.as_slice())
            }
            Command::Previous { file, offset } => {
                self.previous(alloc, lane, file.as_slice(), *offset)
            }
            Command::NewFixed {
                file,
                size,
                chunk_size,
            } => self.new_fixed(alloc, lane, moment, file.as_slice(), *size, *chunk_size),
            Command::NewDynamic { file } => self.new_dynamic(alloc, lane, moment, file.as_slice()),
            Command::Chunk { digest, blob } => {
                self.put_chunk(alloc, lane, digest, blob.as_slice())
            }
            Command::Append { number, entries } => {
                self.append(alloc, lane, *number, entries.as_slice())
            }
            Command::CloseIndex {
                number,
                count,
                size,
                csum,
            } => self.close_index(alloc, lane, *number, *count, *size, csum),
            Command::Blob { file, blob } => {
                self.put_blob(alloc, lane, file.as_slice(), blob.as_slice())
            }
            Command::Finish => self.finish(alloc, lane),
            Command::Abort => self.abort(lane),
            Command::OpenReader { snapshot } => self.open_reader(alloc, lane, snapshot.as_slice()),
            Command::Download { file, offset } => {
                self.download(alloc, lane, file.as_slice(), *offset)
            }
            Command::GetChunk { digest } => self.get_chunk(alloc, lane, digest),
            Command::Range {
                file,
                offset,
                length,
            } => self.range(alloc, lane, file.as_slice(), *offset, *length),
            Command::CloseReader => self.close_reader(lane),
            Command::List { after } => self.list(alloc, lane, after.as_slice()),
            Command::Files { snapshot } => self.files(alloc, lane, snapshot.as_slice()),
            Command::Forget { snapshot } => self.forget(alloc, lane, snapshot.as_slice()),
            Command::Prune { group, keep, .. } => {
                self.prune_group(alloc, lane, group.as_slice(), keep)
            }
            Command::Verify { .. } | Command::Sync { .. } | Command::Gc => Ok(Reply::Done),
            Command::Group { group } => self.group(alloc, lane, group.as_slice()),
            Command::Bye => {
                self.end(lane);
                Ok(Reply::Done)
            }
        }
    }
}
