//! The end of a job that has a session.

ghost use Rattle.std.specs.Prelude.{◌≡◌, true};
ghost use Rattle.wire_commands.specs.HasText.{ReplyHasText};
ghost use Rattle.store_model.specs.Job.{closing, closed as closed_by, ended_by, closes_first as has_close, is_refused as has_refusal, leaves_open as stays_open};
ghost use Rattle.job_steps.specs.Replies.{EndsInText};
ghost use Rattle.job_steps.specs.States.{job_in};

use crate::job::State;
use store_types::Refusal;
use wire_commands::Reply;

/// The reply is a refusal, and no fault of the disk.
fn closes_first(reply: &Reply) -> bool
    ensures { result ≡ has_close reply.now }
{
    match reply {
        Reply::Refused(Refusal::DiskFault) => false,
        Reply::Refused(Refusal::Halted { .. }) => false,
        Reply::Refused(_) => true,
        _ => false,
    }
}

fn is_refused(reply: &Reply) -> bool
    ensures { result ≡ has_refusal reply.now }
{
    matches!(reply, Reply::Refused(_))
}

/// The step that was to close the session has done nothing: the session is open still.
fn leaves_open(reply: &Reply) -> bool
    ensures { result ≡ stays_open reply.now }
{
    matches!(
        reply,
        Reply::Refused(Refusal::NoMemory | Refusal::RemoteFault)
    )
}

/// The job ends by the reply to one of its steps: where this is a refusal, behind the step that closes the reader. After a
/// fault of the disk none follows. It takes no memory.
pub fn ended(reply: Reply) -> State
    requires { ReplyHasText reply }
    ensures job { job_in result ≡ ended_by closing reply }
    ensures text { EndsInText (job_in result) }
{
    if closes_first(&reply) {
        return State::Closing(reply);
    }
    State::Over(reply)
}

/// The step that was to close the reader has done nothing, so it comes again. What was refused first is the report.
fn closes_again(report: Reply, reply: Reply) -> State
    requires report { ReplyHasText report }
    requires reply { ReplyHasText reply }
    requires again { stays_open reply ≡ true }
    ensures job { job_in result ≡ closed_by closing report reply }
    ensures text { EndsInText (job_in result) }
{
    if is_refused(&report) {
        drop(reply);
        return State::Closing(report);
    }
    drop(report);
    State::Closing(reply)
}

/// The reader is closed. What was refused first is the report. Where memory was wanting, it is still to be closed. It
/// takes no memory.
pub fn closed(report: Reply, reply: Reply) -> State
    requires report { ReplyHasText report }
    requires reply { ReplyHasText reply }
    ensures job { job_in result ≡ closed_by closing report reply }
    ensures text { EndsInText (job_in result) }
{
    if leaves_open(&reply) {
        return closes_again(report, reply);
    }
    if is_refused(&report) {
        drop(reply);
        return State::Over(report);
    }
    if !is_refused(&reply) {
        drop(reply);
        return State::Over(report);
    }
    drop(report);
    State::Over(reply)
}
