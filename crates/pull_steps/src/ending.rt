//! How a SYNC ends.

ghost use Rattle.std.specs.Prelude.{◌≡◌};
ghost use Rattle.wire_commands.specs.HasText.{IsText, ReplyHasText};
ghost use Rattle.wire_commands.specs.declared.reply.Reply.TheVariants.{Refused};
ghost use Rattle.store_history.specs.Pulling.{ends, rejected, stops};
ghost use Rattle.pull_steps.specs.States.{EndsInText, pull_in};
ghost use Rattle.pull_steps.specs.Taken.{ended_by, is_out_of_memory as tells_short, is_unread as tells_unread, mismatched_of};

use crate::pull::State;
use store_types::{Bytes, ChunkFault, Digest32, Refusal};
use wire_commands::Reply;

/// A refusal ends the job, behind the step that ends its writer. After a fault of the disk none follows.
pub fn stopped(refusal: Refusal) -> State
    requires { ReplyHasText (Refused refusal) }
    ensures job { pull_in result ≡ stops refusal }
    ensures text { EndsInText (pull_in result) }
{
    match refusal {
        Refusal::DiskFault | Refusal::Halted { .. } => State::Over(Reply::Refused(refusal)),
        refusal => State::Aborting(refusal),
    }
}

/// The chunk with this digest has another length than an index gives its entry.
pub fn mismatched(digest: Digest32) -> State
    ensures job { pull_in result ≡ mismatched_of digest }
    ensures text { EndsInText (pull_in result) }
{
    stopped(Refusal::Damaged {
        digest,
        fault: ChunkFault::Other(digest),
    })
}

/// The job ends by this reply.
pub fn ended(reply: Reply) -> State
    requires { ReplyHasText reply }
    ensures job { pull_in result ≡ ended_by reply }
    ensures text { EndsInText (pull_in result) }
{
    match reply {
        Reply::Refused(refusal) => stopped(refusal),
        reply => State::Over(reply),
    }
}

/// The step that was to end the writer has done nothing: it comes again.
fn is_unread(reply: &Reply) -> bool
    ensures { result ≡ tells_unread reply.now }
{
    matches!(
        reply,
        Reply::Refused(Refusal::NoMemory | Refusal::RemoteFault)
    )
}

/// The writer is ended. What was refused first is the report. It takes no memory.
pub fn aborted(first: Refusal, reply: &Reply) -> State
    requires { ReplyHasText (Refused first) }
    ensures job { pull_in result ≡ ends first reply.now }
    ensures text { EndsInText (pull_in result) }
{
    if is_unread(reply) {
        return State::Aborting(first);
    }
    State::Over(Reply::Refused(first))
}

/// Memory was wanting.
fn is_out_of_memory(reply: &Reply) -> bool
    ensures { result ≡ tells_short reply.now }
{
    matches!(reply, Reply::Refused(Refusal::NoMemory))
}

/// The writer is ended since a file of the remote is none. Where memory was wanting, maybe for that file, this is the report.
pub fn rejecting(path: Bytes, reply: &Reply) -> State
    requires { IsText path }
    ensures job { pull_in result ≡ rejected path reply.now }
    ensures text { EndsInText (pull_in result) }
{
    if is_out_of_memory(reply) {
        return State::Aborting(Refusal::NoMemory);
    }
    aborted(Refusal::Unreadable { name: path }, reply)
}
