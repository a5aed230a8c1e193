//! The end of a job that has a session.

ghost use Rattle.std.specs.Prelude.{◌≡◌, true};
ghost use Rattle.wire_commands.specs.HasText.{ReplyHasText};
ghost use Rattle.store_model.specs.Job.{asking, closed as closed_by, ended_by, closes_first as has_close, is_refused as has_refusal, leaves_open as stays_open};
ghost use Rattle.plain_lanes.specs.Jobs.{shown_job, IsSpelledJob};
ghost use Rattle.plain_lanes.specs.Closes.{asked_by};

use crate::job::{Asking, Job, Stage};
use store_types::Refusal;
use wire_commands::Reply;

/// How a job ends its session.
#[derive(Clone, Copy)]
pub enum Close {
    Reader,
    Writer,
}

/// The session is to be closed, and then this is the report.
pub fn asked(close: Close, report: Reply) -> Job
    requires { ReplyHasText report }
    ensures job { shown_job result ≡ asking (asked_by close report) }
    ensures spelled { IsSpelledJob result }
{
    match close {
        Close::Reader => Job::Asking(Asking {
            stage: Stage::Closing { report },
        }),
        Close::Writer => Job::Asking(Asking {
            stage: Stage::Aborting { report },
        }),
    }
}

/// The reply is a refusal, and no fault of the disk.
fn closes_first(reply: &Reply) -> bool
    ensures { result ≡ has_close reply.now }
{
    match reply {
        Reply::Refused(Refusal::DiskFault) => false,
        Reply::Refused(Refusal::Halted { .. }) => false,
        Reply::Refused(_) => true,
        _ => false,
    }
}

pub fn is_refused(reply: &Reply) -> bool
    ensures { result ≡ has_refusal reply.now }
{
    matches!(reply, Reply::Refused(_))
}

/// The step that was to close the session has done nothing: the session is open still.
fn leaves_open(reply: &Reply) -> bool
    ensures { result ≡ stays_open reply.now }
{
    matches!(
        reply,
        Reply::Refused(Refusal::NoMemory | Refusal::RemoteFault)
    )
}

/// The job ends by the reply to one of its steps: where this is a refusal, behind the step that closes the session. After
/// a fault of the disk none follows.
pub fn ended(close: Close, reply: Reply) -> Job
    requires { ReplyHasText reply }
    ensures job { shown_job result ≡ ended_by (asked_by close) reply }
    ensures spelled { IsSpelledJob result }
{
    if closes_first(&reply) {
        return asked(close, reply);
    }
    Job::Over(reply)
}

/// The step that was to close the session has done nothing, so it comes again. What was refused first is the report.
fn asked_again(close: Close, report: Reply, reply: Reply) -> Job
    requires report { ReplyHasText report }
    requires reply { ReplyHasText reply }
    requires again { stays_open reply ≡ true }
    ensures job { shown_job result ≡ closed_by (asked_by close) report reply }
    ensures spelled { IsSpelledJob result }
{
    if is_refused(&report) {
        drop(reply);
        return asked(close, report);
    }
    drop(report);
    asked(close, reply)
}

/// The session is closed. What was refused first is the report. Where memory was wanting, or the remote failed, the
/// session is still to be closed.
pub fn closed(close: Close, report: Reply, reply: Reply) -> Job
    requires report { ReplyHasText report }
    requires reply { ReplyHasText reply }
    ensures job { shown_job result ≡ closed_by (asked_by close) report reply }
    ensures spelled { IsSpelledJob result }
{
    if leaves_open(&reply) {
        return asked_again(close, report, reply);
    }
    if is_refused(&report) {
        drop(reply);
        return Job::Over(report);
    }
    if !is_refused(&reply) {
        drop(reply);
        return Job::Over(report);
    }
    drop(report);
    Job::Over(reply)
}
