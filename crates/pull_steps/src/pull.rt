//! A SYNC from its command to its report.

ghost use Rattle.std.specs.Prelude.{◌≡◌, Some, IfErr, IfOk, MatchResult, OnErr, OnOk};
ghost use Rattle.wire_commands.specs.HasText.{ReplyHasText};
ghost use Rattle.store_history.specs.Pulling.{asks, seeking, take_more};
ghost use Rattle.pull_steps.specs.Asked.{AsksNext, IsAsking, IsOver, MayWant, report_of};
ghost use Rattle.pull_steps.specs.States.{EndsInText, pull_in};
ghost use Rattle.pull_steps.specs.Taken.{IsReadOf, IsReplyTo};

use crate::ask::Ask;
use crate::course::{Comparing, Course, Seeking};
use crate::ending::{aborted, rejecting};
use crate::stages::{AtEntry, FileRead, HasBlob, HasChunk, HasFiles, ManifestRead, Sending};
use std::alloc::{AllocError, Global};
use std::marker::Model;
use std::mem;
use store_types::{Bytes, Refusal};
use wire_commands::{Command, Reply};

/// A SYNC of a lane.
#[derive(Drop)]
pub struct Pull {
    state: State,
}

#[derive(Drop)]
pub enum State {
    /// Nothing more is asked, and this is the report.
    Over(Reply),
    /// It asks what the remote has of its group.
    Seeking(Seeking),
    /// It asks what is here of it.
    Comparing(Comparing),
    /// It asks for a writer of its snapshot.
    Starting(Course),
    /// It reads the manifest.
    ReadingManifest(ManifestRead),
    /// It reads a file.
    ReadingFile(FileRead),
    /// It begins an index.
    Opening(Sending),
    /// It reads the chunk of an entry.
    ReadingChunk(AtEntry),
    /// It sends the chunk of an entry.
    SendingChunk(HasChunk),
    /// It appends the entries from one on.
    Appending(AtEntry),
    /// It closes an index.
    ClosingIndex(Sending),
    /// It sends a blob.
    SendingBlob(HasBlob),
    /// It sends the manifest.
    SendingManifest(HasFiles),
    /// It finishes its snapshot.
    Finishing(Course),
    /// It ends its writer: the file of this full name is none.
    Rejecting(Bytes),
    /// It ends its writer behind this refusal.
    Aborting(Refusal),
}

impl Model for Pull {
    ghost use Rattle.store_history.specs.Pulling as model;
    ghost use Rattle.pull_steps.specs.States.{EndsInText, pull_in};

    ghost Value = { model.SyncJob };

    ghost view = { λ p. pull_in p.state };

    ghost invariant = { λ p. EndsInText (pull_in p.state) };
}

impl Pull {
    /// The SYNC of a group, with nothing done. It makes the room for all that its last reply may need.
    pub fn start(alloc: Global, group: &[u8]) -> Result<Pull, AllocError>
        ensures { IfOk result (λ job. job ≡ asks (seeking group.now)) }
    {
        let seeking = Seeking::new(alloc, group)?;
        Ok(Pull {
            state: State::Seeking(seeking),
        })
    }

    /// What the job asks next, or nothing where it is over. Where it is over, or ends its writer behind a refusal, this takes
    /// no memory.
    pub fn next(&self, alloc: Global) -> Result<Option<Ask>, AllocError>
        ensures asked { IfOk result (AsksNext self.now) }
        ensures memory { OnErr result (MayWant self.now) }
    {
        match &self.state {
            State::Over(_) => Ok(None),
            state => Ok(Some(state.ask(alloc)?)),
        }
    }

    /// Takes the reply to what was asked, and moves what it needs out of it.
    ///
    /// Memory may be wanting for a part of a file and for a chunk alone. Then the job is as before, and the reply is dropped.
    pub fn take(&mut self, alloc: Global, reply: Reply) -> Result<(), AllocError>
        requires { IsReplyTo self.old reply }
        ensures ok { OnOk result (self.new ≡ take_more self.old reply) }
        ensures err { OnErr result ((self.new ≡ self.old) × IsReadOf self.old reply) }
    {
        let state = mem::replace(&mut self.state, State::Over(Reply::Done));
        match state.take(alloc, reply) {
            Ok(state) => {
                put(&mut self.state, state);
                Ok(())
            }
            Err(state) => {
                put(&mut self.state, state);
                Err(AllocError)
            }
        }
    }

    /// What the job reports. It takes no memory.
    pub fn report(self) -> Reply
        requires { IsOver self }
        ensures report { result ≡ report_of self }
        ensures text { ReplyHasText result }
    {
        let Pull { state } = self;
        match state {
            State::Over(report) => report,
            _ => unreachable!(),
        }
    }
}

/// Puts another state in a place.
fn put(place: &mut State, state: State)
    ensures { place.new ≡ state }
{
    drop(mem::replace(place, state));
}

impl State {
    /// What is asked. To end its writer behind a refusal it takes no memory.
    fn ask(&self, alloc: Global) -> Result<Ask, AllocError>
        requires asking { IsAsking (pull_in self.now) }
        requires texts { EndsInText (pull_in self.now) }
        ensures asked { IfOk result (λ ask. AsksNext (pull_in self.now) (Some ask)) }
        ensures memory { OnErr result (MayWant (pull_in self.now)) }
    {
        match self {
            State::Over(_) => unreachable!(),
            State::Seeking(seeking) => seeking.ask(alloc),
            State::Comparing(comparing) => comparing.ask(alloc),
            State::Starting(course) => course.ask(alloc),
            State::ReadingManifest(read) => read.ask(alloc),
            State::ReadingFile(read) => read.ask(alloc),
            State::Opening(sending) => sending.open(alloc),
            State::ReadingChunk(at) => Ok(at.read()),
            State::SendingChunk(chunk) => chunk.ask(alloc),
            State::Appending(at) => at.append(alloc),
            State::ClosingIndex(sending) => Ok(sending.close()),
            State::SendingBlob(blob) => blob.ask(alloc),
            State::SendingManifest(files) => files.ask(alloc),
            State::Finishing(_) => Ok(Ask::Command(Command::Finish)),
            State::Rejecting(_) | State::Aborting(_) => Ok(Ask::Command(Command::Abort)),
        }
    }

    /// The state after the reply to what was asked. Where memory is wanting for a part or a chunk, the state before.
    #[tactic(auto, unfolding(store_history::specs::Pulling::take))]
    fn take(self, alloc: Global, reply: Reply) -> Result<State, State>
        requires reply { IsReplyTo (pull_in self) reply }
        requires texts { EndsInText (pull_in self) }
        ensures ok { IfOk result (λ state. pull_in state ≡ take_more (pull_in self) reply) }
        ensures err { IfErr result
            (λ state. (pull_in state ≡ pull_in self) × IsReadOf (pull_in self) reply) }
        ensures text { MatchResult result (λ state. EndsInText (pull_in state))
            (λ state. EndsInText (pull_in state)) }
    {
        match self {
            State::Over(_) => unreachable!(),
            State::Seeking(seeking) => Ok(seeking.sought(reply)),
            State::Comparing(comparing) => Ok(comparing.compared(reply)),
            State::Starting(course) => Ok(course.started(alloc, reply)),
            State::ReadingManifest(read) => read.take(alloc, reply),
            State::ReadingFile(read) => read.take(alloc, reply),
            State::Opening(sending) => Ok(sending.opened(reply)),
            State::ReadingChunk(at) => at.chunk_read(reply),
            State::SendingChunk(chunk) => Ok(chunk.sent(reply)),
            State::Appending(at) => Ok(at.appended(reply)),
            State::ClosingIndex(sending) => Ok(sending.closed(alloc, reply)),
            State::SendingBlob(blob) => Ok(blob.sent(alloc, reply)),
            State::SendingManifest(files) => Ok(files.sent(reply)),
            State::Finishing(course) => Ok(course.finished(reply)),
            State::Rejecting(path) => Ok(rejecting(path, &reply)),
            State::Aborting(first) => Ok(aborted(first, &reply)),
        }
    }
}
