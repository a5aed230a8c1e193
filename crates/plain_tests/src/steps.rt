//! Jobs step by step: what they ask and report, in bytes, by what they are told.

ghost use Rattle.std.specs.Prelude.{IsTrue};
ghost use Rattle.wire_commands.specs.HasText.{ReplyHasText};
ghost use Rattle.store_model.specs.JobReplies.{IsReplyTo};
ghost use Rattle.store_model.specs.Jobs.{IsJob};

use crate::asserts::{must, same};
use job_steps::Job;
use port_traits::MemSink;
use std::alloc::Global;
use std::process::Abort;
use std::thread::Threads;
use store_model::Step;
use wire_commands::{Command, Reply};

/// A body of a code, a text behind its length, and these bytes.
fn body_of(rt: &impl Abort, alloc: Global, code: u8, text: &[u8], behind: &[u8]) -> Vec<u8> {
    let mut body = Vec::new(alloc);
    must(
        rt,
        body.extend_from_slice(&[code, (text.len() % 256) as u8]),
    );
    must(rt, body.extend_from_slice(text));
    must(rt, body.extend_from_slice(behind));
    body
}

/// A step as the body of a command: of a PRUNE's own that of GROUP, of a file's part that of DOWNLOAD, and of a chunk one as
/// GET_CHUNK's, with the index and the entry.
fn spelled(rt: &impl Abort, alloc: Global, step: &Step) -> Vec<u8> {
    match step {
        Step::Command(Command::Prune { group, .. }) => body_of(
            rt,
            alloc,
            40,
            group.as_slice(),
            b"",
        ),
        Step::Command(Command::Forget { snapshot }) => body_of(
            rt,
            alloc,
            32,
            snapshot.as_slice(),
            b"",
        ),
        Step::Command(Command::OpenReader { snapshot }) => {
            body_of(rt, alloc, 20, snapshot.as_slice(), b"")
        }
        Step::Command(Command::Files { snapshot }) => body_of(
            rt,
            alloc,
            31,
            snapshot.as_slice(),
            b"",
        ),
        Step::Command(Command::CloseReader) => must(rt, [24].to_vec(alloc)),
        Step::ReadFile { name, offset } => {
            body_of(rt, alloc, 21, name.as_slice(), &offset.to_le_bytes())
        }
        Step::ReadChunk { name, entry } => {
            body_of(rt, alloc, 22, name.as_slice(), &entry.to_le_bytes())
        }
        _ => panic!(rt; "another step"),
    }
}

/// The reply that a body is, of a command of the code.
fn reply_of(rt: &impl Abort, alloc: Global, code: u8, body: &[u8]) -> Reply
    ensures { ReplyHasText result }
{
    must(rt, Reply::read(alloc, code, body)).expect(rt, "the body is no reply")
}

fn is_reply_to(step: &Step, reply: &Reply) -> bool
    ensures { IsTrue result → IsReplyTo step.now reply.now }
{
    match (step, reply) {
        (Step::Command(_), Reply::Refused(_)) => true,
        (Step::ReadFile { .. }, Reply::Refused(_)) => true,
        (Step::ReadChunk { .. }, Reply::Refused(_)) => true,
        (Step::Command(Command::Prune { .. }), Reply::Keys(keys)) => keys.as_slice().len() <= 4096,
        (Step::Command(Command::Forget { .. }), Reply::Done) => true,
        (Step::Command(Command::OpenReader { .. }), Reply::Done) => true,
        (Step::Command(Command::Files { .. }), Reply::Files(_)) => true,
        (Step::Command(Command::CloseReader), Reply::Done) => true,
        (Step::ReadFile { .. }, Reply::Part { .. }) => true,
        (Step::ReadChunk { .. }, Reply::Data(_)) => true,
        _ => false,
    }
}

/// Answers the step that the job asks; its body.
pub(crate) fn answer(
    rt: &(impl Abort + Threads + Sync),
    alloc: Global,
    job: &mut Job,
    body: &[u8],
) -> Vec<u8> {
    let Some(step) = must(rt, job.next(alloc)) else {
        panic!(rt; "nothing is asked");
    };
    let asked = spelled(rt, alloc, &step);
    let code = asked.first().copied().unwrap_or(0);
    let reply = reply_of(rt, alloc, code, body);
    assert!(rt; is_reply_to(&step, &reply));
    drop(step);
    must(rt, job.take(rt, alloc, reply));
    asked
}

/// The frame of what a job reports that asks nothing more.
pub(crate) fn report_of(rt: &impl Abort, alloc: Global, job: Job) -> Vec<u8> {
    let next = must(rt, job.next(alloc));
    let asks_more = next.is_some();
    drop(next);
    assert!(rt; !asks_more);
    let report = job.report();
    let mut sink = MemSink::new(alloc, Vec::new(alloc));
    must(rt, report.put(&mut sink));
    drop(report);
    sink.into_bytes()
}

fn is_job(command: &Command) -> bool
    ensures { IsTrue result → IsJob command.now }
{
    match command {
        Command::Prune { .. } => true,
        Command::Verify { .. } => true,
        _ => false,
    }
}

/// The job of a command's body.
pub(crate) fn started(rt: &impl Abort, alloc: Global, body: &[u8]) -> Job {
    let command = must(rt, must(rt, Command::read(alloc, body)));
    assert!(rt; is_job(&command));
    let job = must(rt, Job::start(alloc, &command));
    drop(command);
    job
}

/// The frames of the steps that a job asks by these replies.
fn asked_by(
    rt: &(impl Abort + Threads + Sync),
    alloc: Global,
    job: &mut Job,
    replies: &[&[u8]],
) -> Vec<u8> {
    let mut steps = Vec::new(alloc);
    for reply in replies {
        let step = answer(rt, alloc, job, reply);
        must(rt, steps.extend_from_slice(&step.len().to_le_bytes()[..4]));
        must(rt, steps.extend_from_slice(&step));
    }
    steps
}

/// A job's command, the replies to its steps, and the frames of the steps and of its report.
pub(crate) type Row = (&'static [u8], &'static [&'static [u8]], &'static [u8]);

fn try_row(rt: &(impl Abort + Threads + Sync), alloc: Global, row: &Row) {
    let (command, replies, wanted) = row;
    let mut job = started(rt, alloc, command);
    let mut log = asked_by(rt, alloc, &mut job, replies);
    must(rt, log.extend_from_slice(&report_of(rt, alloc, job)));
    same(rt, &log, wanted);
}

pub(crate) fn try_rows(rt: &(impl Abort + Threads + Sync), alloc: Global, rows: &[Row]) {
    for row in rows {
        try_row(rt, alloc, row);
    }
}
