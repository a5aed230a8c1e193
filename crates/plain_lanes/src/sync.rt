//! SYNC: the snapshots that are pulled, each by the commands that upload it.

ghost use Rattle.std.specs.Prelude.{◌≡◌, ◌<◌, [], length, All, IfOk};
ghost use Rattle.wire_commands.specs.HasText.{IsText, ReplyHasText};
ghost use Rattle.store_model.specs.SyncJob as model;
ghost use Rattle.store_model.specs.Job.{is_refused as has_refusal};
ghost use Rattle.plain_lanes.specs.Jobs.{shown_job, GivesJob, IsSpelledJob};
ghost use Rattle.plain_lanes.specs.Pulls.{shown_pull, keys_with, is_base as tells_base};

use crate::ending::{Close, ended, is_refused};
use crate::job::{Asking, Job, Stage};
use crate::pull::Pull;
use crate::uploads::commands_of;
use plain_snapshots::Snapshot;
use std::alloc::{AllocError, Global};
use std::collections::VecDeque;
use store_types::{Bytes, Rows};
use wire_commands::{Command, Reply};

/// On to the next snapshot, or to the report of those that are pulled.
fn next_snapshot(pulled: Vec<Bytes>, snapshots: VecDeque<Snapshot>) -> Job
    requires few { length pulled.items < 65536 }
    requires spelled { All IsText pulled.items }
    ensures job { shown_job result ≡ model.next_snapshot pulled.items snapshots.items }
    ensures spelled { IsSpelledJob result }
{
    let mut later = snapshots;
    let Some(snapshot) = later.pop_front() else {
        return Job::Over(Reply::Keys(Rows::from_vec(pulled)));
    };
    let pull = Pull {
        snapshot,
        later,
        pulled,
    };
    Job::Asking(Asking {
        stage: Stage::Beginning { pull },
    })
}

/// The job that pulls these snapshots, the oldest first, with none pulled.
pub fn pull_all(alloc: Global, snapshots: Vec<Snapshot>) -> Job
    ensures job { shown_job result ≡ model.next_snapshot [] snapshots.items }
    ensures spelled { IsSpelledJob result }
{
    next_snapshot(Vec::new(alloc), VecDeque::from_vec(snapshots))
}

/// One more snapshot is pulled. No memory holds more than a reply tells.
fn push_key(
    alloc: Global,
    pulled: Vec<Bytes>,
    snapshot: &Snapshot,
) -> Result<Vec<Bytes>, AllocError>
    requires spelled { All IsText pulled.items }
    ensures keys { IfOk result (λ after. after.items ≡ keys_with pulled.items snapshot.now.key) }
    ensures few { IfOk result (λ after. length after.items < 65536) }
    ensures spelled { IfOk result (λ after. All IsText after.items) }
{
    if pulled.len() >= 65_535 {
        return Err(AllocError);
    }
    let mut pulled = pulled;
    pulled.push(snapshot.key.text(alloc)?)?;
    Ok(pulled)
}

/// On to the next command of the snapshot, or to the next snapshot where none is left.
fn next_command(alloc: Global, pull: Pull, commands: VecDeque<Command>) -> Result<Job, AllocError>
    ensures job { GivesJob result (model.next_command (shown_pull pull) commands.items) }
    ensures spelled { IfOk result IsSpelledJob }
{
    let mut later = commands;
    let Some(command) = later.pop_front() else {
        let Pull {
            snapshot,
            later: snapshots,
            pulled,
        } = pull;
        let pulled = push_key(alloc, pulled, &snapshot)?;
        return Ok(next_snapshot(pulled, snapshots));
    };
    let stage = Stage::Sending {
        pull,
        command,
        later,
    };
    Ok(Job::Asking(Asking { stage }))
}

fn is_base(reply: &Reply) -> bool
    ensures { result ≡ tells_base reply.now }
{
    matches!(reply, Reply::Base { .. })
}

/// The job after the reply to OPEN_WRITER.
pub fn begun(alloc: Global, pull: Pull, reply: Reply) -> Result<Job, AllocError>
    requires { ReplyHasText reply }
    ensures job { GivesJob result (model.begun (shown_pull pull) reply) }
    ensures spelled { IfOk result IsSpelledJob }
{
    if !is_base(&reply) {
        return Ok(Job::Over(reply));
    }
    drop(reply);
    let commands = commands_of(alloc, &pull.snapshot)?;
    next_command(alloc, pull, commands)
}

/// The job after the reply to a command of the snapshot's.
pub fn replied(
    alloc: Global,
    pull: Pull,
    later: VecDeque<Command>,
    reply: Reply,
) -> Result<Job, AllocError>
    requires { ReplyHasText reply }
    ensures job { GivesJob result (model.replied (shown_pull pull) later.items reply) }
    ensures spelled { IfOk result IsSpelledJob }
{
    if is_refused(&reply) {
        return Ok(ended(Close::Writer, reply));
    }
    drop(reply);
    next_command(alloc, pull, later)
}
