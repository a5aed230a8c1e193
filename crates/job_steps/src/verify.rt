//! VERIFY: each file of a snapshot is read, and each chunk that its indexes name.

ghost use Rattle.std.specs.Prelude.{◌≡◌, ◌+◌, ◌<◌, ◌++◌, length, vec_len, IfErr, IfOk, OnErr, OnOk, Some};
ghost use Rattle.std.specs.Option.{option_map};
ghost use Rattle.wire_commands.specs.HasText.{FitsFileRow, ReplyHasText};
ghost use Rattle.store_model.specs.VerifyJob as model;
ghost use Rattle.job_steps.specs.Replies.{EitherEndsInText, EndsInText};
ghost use Rattle.job_steps.specs.States.{chunks_of, job_in};
ghost use Rattle.job_steps.specs.Checks.{CountsFile, GivesStep, GivesWhole, IsPart, checked_by, damaged_by, fault_told as told_of, held_by, judged_of, part_by, read_by, read_on, reading_of, shown_whole, unheld_by, unread_by, unreadable_by};
ghost use Rattle.store_model.specs.Job.{ended_by, closing};
ghost use Rattle.job_steps.specs.FaultRows.{IsFitFault};
ghost use Rattle.job_steps.specs.Visits.{EndsTested, IsUncounted, WaitsFor, judged_by, place_in, shown_visit as shown};

use crate::chunks::{Chunks, Judged};
use crate::ending::ended;
use crate::job::State;
use crate::judging::{file_name, judge, too_long};
use crate::stages::{Checking, Reading, Whole};
use crate::testing::first_of;
use crate::visit::{Opening, Visit};
use std::alloc::{AllocError, Global};
use std::collections::VecDeque;
use std::thread::Threads;
use store_model::Step;
use store_types::{Bytes, Refusal, Rows};
use wire_commands::{Command, FaultRow, FileFault, FileRow, Reply};

impl Opening {
    /// The OPEN_READER of the snapshot.
    pub fn open(&self, alloc: Global) -> Result<Step, AllocError>
        ensures { GivesStep result (Step.Command (Command.OpenReader self.now.snapshot)) }
    {
        let snapshot = Bytes::from_slice(alloc, self.snapshot.as_slice())?;
        Ok(Step::Command(Command::OpenReader { snapshot }))
    }

    /// And the FILES of it.
    pub fn files(&self, alloc: Global) -> Result<Step, AllocError>
        ensures { GivesStep result (Step.Command (Command.Files self.now.snapshot)) }
    {
        let snapshot = Bytes::from_slice(alloc, self.snapshot.as_slice())?;
        Ok(Step::Command(Command::Files { snapshot }))
    }

    /// The state after the reply to OPEN_READER.
    #[tactic(auto, unfolding(store_model::specs::VerifyJob::opened))]
    pub fn opened(self, reply: Reply) -> State
        requires { ReplyHasText reply }
        ensures job { job_in result ≡ model.opened self.snapshot reply }
        ensures text { EndsInText (job_in result) }
    {
        match reply {
            Reply::Done => State::Listing(self),
            reply => State::Over(reply),
        }
    }

    /// The state after the reply to FILES.
    #[tactic(auto, unfolding(store_model::specs::VerifyJob::listed))]
    pub fn listed(self, alloc: Global, reply: Reply) -> State
        requires { ReplyHasText reply }
        ensures job { job_in result ≡ model.listed self.snapshot reply }
        ensures text { EndsInText (job_in result) }
    {
        let Reply::Files(rows) = reply else {
            return ended(reply);
        };
        let Opening { snapshot, room } = self;
        next_file(
            alloc,
            Visit {
                snapshot,
                files: 0,
                entries: 0,
                bytes: 0,
                faults: room,
                later: VecDeque::from_vec(rows.into_vec()),
            },
        )
    }
}

/// On to the next of the files to come. Behind the last the reader is closed, and then what was read is the report.
#[tactic(auto, unfolding(store_model::specs::VerifyJob::next_file))]
fn next_file(alloc: Global, mut visit: Visit) -> State
    requires { IsUncounted visit }
    ensures job { job_in result ≡ model.next_file (shown visit) visit.later.items }
    ensures text { EndsInText (job_in result) }
{
    match visit.later.pop_front() {
        Some(row) => State::Reading(Reading {
            visit,
            row,
            bytes: Vec::new(alloc),
        }),
        None => State::Closing(visit.report()),
    }
}

/// All of the file is read.
fn file_done(alloc: Global, mut visit: Visit, row: FileRow, fault: Option<FileFault>) -> State
    requires row { FitsFileRow row }
    requires fault { IsFitFault fault }
    requires told { visit.files + length visit.later.items < 255 }
    ensures job { job_in result ≡ model.file_done (shown visit) row fault }
    ensures text { EndsInText (job_in result) }
{
    visit.count_file(row, fault);
    next_file(alloc, visit)
}

/// On to the next chunk of the index, or to the file's end.
fn next_chunk(
    alloc: Global,
    visit: Visit,
    row: FileRow,
    fault: Option<FileFault>,
    chunks: Chunks,
) -> State
    requires row { FitsFileRow row }
    requires fault { IsFitFault fault }
    requires told { visit.files + length visit.later.items < 255 }
    requires waits { WaitsFor fault chunks }
    requires few { vec_len chunks.waiting.chunks < 128 }
    requires ends { EndsTested chunks }
    ensures job { job_in result ≡ chunks_of visit row fault chunks }
    ensures text { EndsInText (job_in result) }
{
    if chunks.is_read() {
        return file_done(alloc, visit, row, fault);
    }
    State::Checking(Checking {
        visit,
        row,
        fault,
        chunks,
    })
}

impl Visit {
    /// What was read. It takes no memory.
    fn report(self) -> Reply
        ensures report { result ≡ model.tally (shown self) }
        ensures text { ReplyHasText result }
    {
        Reply::Verified {
            files: self.files,
            entries: self.entries,
            bytes: self.bytes,
            faults: Rows::from_vec(self.faults),
        }
    }

    /// One more file was read, with its first fault. It takes no memory.
    fn count_file(&mut self, row: FileRow, fault: Option<FileFault>)
        requires row { FitsFileRow row }
        requires fault { IsFitFault fault }
        requires told { self.old.files + length self.old.later.items < 255 }
        ensures counts { CountsFile (shown self.old) (shown self.new) row fault }
        ensures uncounted { IsUncounted self.new }
    {
        self.files += 1;
        let Some(fault) = fault else {
            return;
        };
        let FileRow { file, .. } = row;
        self.faults.push_reserved(FaultRow { file, fault });
    }
}

impl Reading {
    /// The read of the next part.
    pub fn step(&self, alloc: Global) -> Result<Step, AllocError>
        ensures { GivesStep result (Step.ReadFile self.now.row.file (length self.now.bytes.items)) }
    {
        let name = file_name(alloc, self.row.file.as_slice())?;
        Ok(Step::ReadFile {
            name,
            offset: self.bytes.len() as u64,
        })
    }

    /// What the bytes say, where they are all of the file.
    fn whole(&self, alloc: Global) -> Result<Whole, AllocError>
        ensures { GivesWhole result (judged_of self.now) }
    {
        let judged = judge(
            alloc,
            self.visit.snapshot.as_slice(),
            &self.row,
            &self.bytes,
        )?;
        let Judged {
            fault,
            bytes,
            entries,
        } = judged;
        let chunks = Chunks::new(alloc, entries)?;
        Ok(Whole {
            fault,
            bytes,
            chunks,
        })
    }

    /// Puts a part behind the bytes, and tells what the file says where all of it is there. At want of memory nothing has
    /// changed.
    fn append(
        &mut self,
        alloc: Global,
        total: u64,
        more: &[u8],
    ) -> Result<Option<Whole>, AllocError>
        ensures visit { self.new.visit ≡ self.old.visit }
        ensures row { self.new.row ≡ self.old.row }
        ensures ok { OnOk result (self.new.bytes.items ≡ self.old.bytes.items ++ more.now) }
        ensures whole { IfOk result (λ w. option_map shown_whole w
            ≡ judged_by (shown self.old.visit) self.old.row (self.old.bytes.items ++ more.now) total) }
        ensures err { OnErr result (self.new.bytes.items ≡ self.old.bytes.items) }
    {
        let before = self.bytes.len();
        self.bytes.extend_from_slice(more)?;
        if (self.bytes.len() as u64) < total {
            return Ok(None);
        }
        match self.whole(alloc) {
            Ok(whole) => Ok(Some(whole)),
            Err(AllocError) => {
                self.bytes.truncate(before);
                Err(AllocError)
            }
        }
    }

    /// The state after a part was put behind the bytes: the next is read, or what the file says is counted. It takes no
    /// memory.
    fn read(self, alloc: Global, whole: Option<Whole>) -> State
        ensures job { job_in result ≡ read_on self whole }
        ensures text { EndsInText (job_in result) }
    {
        let Some(whole) = whole else {
            return State::Reading(self);
        };
        let Reading { mut visit, row, .. } = self;
        let Whole {
            fault,
            bytes,
            chunks,
        } = whole;
        visit.entries += chunks.entries.len() as u64;
        visit.bytes += bytes;
        next_chunk(alloc, visit, row, fault, chunks)
    }

    /// The state where the file is not read any more, and has this fault. It takes no memory.
    fn done(self, alloc: Global, fault: FileFault) -> State
        requires { IsFitFault (Some fault) }
        ensures job { job_in result ≡ model.file_done (shown self.visit) self.row (Some fault) }
        ensures text { EndsInText (job_in result) }
    {
        let Reading { visit, row, .. } = self;
        file_done(alloc, visit, row, Some(fault))
    }

    /// The state after any other reply to the read of a part. It takes no memory.
    fn unread(self, alloc: Global, reply: Reply) -> State
        requires { ReplyHasText reply }
        ensures job { job_in result ≡ unread_by self reply }
        ensures text { EndsInText (job_in result) }
    {
        let Some(fault) = fault_told(&reply) else {
            return ended(reply);
        };
        self.done(alloc, fault)
    }

    /// The state after a part of a file of so many bytes. What is too long for its kind is not read on. Where memory is
    /// wanting, the state before.
    fn part(mut self, alloc: Global, total: u64, more: &[u8]) -> Result<State, State>
        ensures ok { IfOk result (λ state. job_in state ≡ part_by self more.now total) }
        ensures err { IfErr result (λ state. job_in state ≡ reading_of self) }
        ensures ends { EitherEndsInText result }
    {
        match too_long(alloc, &self.row, total) {
            Ok(None) => {}
            Ok(Some(fault)) => return Ok(self.done(alloc, fault)),
            Err(AllocError) => return Err(State::Reading(self)),
        }
        match self.append(alloc, total, more) {
            Ok(whole) => Ok(self.read(alloc, whole)),
            Err(AllocError) => Err(State::Reading(self)),
        }
    }

    /// The state after the reply to the read of a part. Where memory is wanting for a part, the state before.
    pub fn take(self, alloc: Global, reply: Reply) -> Result<State, State>
        requires { ReplyHasText reply }
        ensures ok { IfOk result (λ state. job_in state ≡ read_by self reply) }
        ensures err { IfErr result (λ state. (job_in state ≡ reading_of self) × IsPart reply) }
        ensures ends { EitherEndsInText result }
    {
        match reply {
            Reply::Part { total, bytes } => self.part(alloc, total, bytes.as_slice()),
            reply => Ok(self.unread(alloc, reply)),
        }
    }
}

/// The fault of a file that a refusal tells.
fn fault_told(reply: &Reply) -> Option<FileFault>
    requires { ReplyHasText reply.now }
    ensures fault { result ≡ told_of reply.now }
    ensures fits { IsFitFault result }
{
    match reply {
        Reply::Refused(Refusal::Damaged { digest, .. }) => Some(FileFault::Damaged(*digest)),
        Reply::Refused(Refusal::Unreadable { .. }) => Some(FileFault::Unreadable),
        _ => None,
    }
}

impl Checking {
    /// The read of the next chunk.
    pub fn step(&self, alloc: Global) -> Result<Step, AllocError>
        ensures { GivesStep result (Step.ReadChunk self.now.row.file (place_in self.now.chunks)) }
    {
        let name = file_name(alloc, self.row.file.as_slice())?;
        let entry = self.chunks.place() as u32;
        Ok(Step::ReadChunk { name, entry })
    }

    /// The state after the reply to the read of the next chunk. It takes no memory.
    pub fn checked<R: Threads + Sync>(self, rt: &R, alloc: Global, reply: Reply) -> State
        requires { ReplyHasText reply }
        ensures job { job_in result ≡ checked_by self reply }
        ensures text { EndsInText (job_in result) }
    {
        match reply {
            Reply::Data(blob) => self.held(rt, alloc, blob),
            reply => self.unheld(rt, alloc, reply),
        }
    }

    /// The state after any other reply to the read of the next chunk.
    fn unheld<R: Threads + Sync>(self, rt: &R, alloc: Global, reply: Reply) -> State
        requires { ReplyHasText reply }
        ensures job { job_in result ≡ unheld_by self reply (told_of reply) }
        ensures text { EndsInText (job_in result) }
    {
        match fault_told(&reply) {
            Some(FileFault::Damaged(_)) => self.damaged(rt, alloc),
            Some(_) => self.unreadable(rt, alloc),
            None => self.stopped(rt, reply),
        }
    }

    /// The job ends, and no thread tests any more.
    fn stopped<R: Threads>(self, rt: &R, reply: Reply) -> State
        requires { ReplyHasText reply }
        ensures job { job_in result ≡ ended_by closing reply }
        ensures text { EndsInText (job_in result) }
    {
        let Checking { mut chunks, .. } = self;
        let _ = chunks.handed.join(rt);
        ended(reply)
    }

    /// The next chunk is there, with these bytes. One that is not as long as its index says is damaged, and not held. Where
    /// its batch has ended it is tested.
    fn held<R: Threads + Sync>(self, rt: &R, alloc: Global, blob: Bytes) -> State
        ensures job { job_in result ≡ held_by self blob }
        ensures text { EndsInText (job_in result) }
    {
        if !self.chunks.is_as_long(&blob) {
            return self.damaged(rt, alloc);
        }
        let Checking {
            visit,
            row,
            fault,
            mut chunks,
        } = self;
        chunks.put(&fault, blob);
        let fault = chunks.settle(rt, fault);
        next_chunk(alloc, visit, row, fault, chunks)
    }

    /// The next chunk is damaged. Those that wait come before it.
    fn damaged<R: Threads + Sync>(self, rt: &R, alloc: Global) -> State
        ensures job { job_in result ≡ damaged_by self }
        ensures text { EndsInText (job_in result) }
    {
        let Checking {
            visit,
            row,
            fault,
            mut chunks,
        } = self;
        let piece = chunks.next();
        let before = first_of(fault, chunks.test(rt));
        chunks.skip();
        let fault = first_of(before, Some(FileFault::Damaged(piece.digest)));
        next_chunk(alloc, visit, row, fault, chunks)
    }

    /// The index can't be read any more: the file is done.
    fn unreadable<R: Threads + Sync>(self, rt: &R, alloc: Global) -> State
        ensures job { job_in result ≡ unreadable_by self }
        ensures text { EndsInText (job_in result) }
    {
        let Checking {
            visit,
            row,
            fault,
            mut chunks,
        } = self;
        let before = first_of(fault, chunks.test(rt));
        let fault = first_of(before, Some(FileFault::Unreadable));
        file_done(alloc, visit, row, fault)
    }
}
