//! What a crash of a disk in memory leaves, as the steps that make it of an empty disk.

ghost use Rattle.std.specs.Prelude.{◌≡◌, ◌-◌, ◌<◌, ◌≤◌, true, T, length, get_or, IfOk, OnOk};
ghost use Rattle.disk_trait.specs.Files.{Files};
ghost use Rattle.disk_trait.specs.Replay.{done};
ghost use Rattle.disk_trait.specs.CrashImage.{is_sync, syncs, NoSyncFrom};
ghost use Rattle.disk_trait.specs.Remade.{ReplaysAll, ReplaysTorn, ReplaysSince, IsCopy, IsTorn, IsLeft};
ghost use Rattle.disk_trait.specs.declared.step_log.LoggedStep.{LoggedStep};

use crate::step_log::{LoggedStep, Step};
use std::alloc::{AllocError, Global};

fn is_sync(step: &Step) -> bool
    ensures { result ≡ syncs step.now }
{
    matches!(step, Step::Sync)
}

// How many steps there are up to the last sync.
fn synced_count(log: &[LoggedStep]) -> usize
    ensures within { result ≤ length log.now }
    ensures since { NoSyncFrom result log.now }
    ensures last { (d : LoggedStep) → 0 < result → is_sync (get_or log.now (result - 1) d) ≡ true }
{
    let mut count = log.len();
    while count > 0 {
        if is_sync(&log[count - 1].step) {
            return count;
        }
        count -= 1;
    }
    0
}

fn copied(alloc: Global, step: &Step) -> Result<Step, AllocError>
    ensures { IfOk result (IsCopy step.now) }
{
    match step {
        Step::Put { name, bytes } => Ok(Step::Put {
            name: String::from_str(alloc, name.as_str())?,
            bytes: bytes.as_slice().to_vec(alloc)?,
        }),
        Step::Rename { from, to } => Ok(Step::Rename {
            from: String::from_str(alloc, from.as_str())?,
            to: String::from_str(alloc, to.as_str())?,
        }),
        Step::Remove { name } => Ok(Step::Remove {
            name: String::from_str(alloc, name.as_str())?,
        }),
        Step::Sync => Ok(Step::Sync),
    }
}

// A put of half the bytes, and nothing of a removal.
fn torn(alloc: Global, step: &Step) -> Result<Option<Step>, AllocError>
    ensures { IfOk result (IsTorn step.now) }
{
    match step {
        Step::Put { name, bytes } => {
            let half = &bytes[..bytes.len() / 2];
            Ok(Some(Step::Put {
                name: String::from_str(alloc, name.as_str())?,
                bytes: half.to_vec(alloc)?,
            }))
        }
        Step::Rename { .. } => Ok(Some(copied(alloc, step)?)),
        Step::Remove { .. } => Ok(None),
        Step::Sync => Ok(None),
    }
}

// Adds the steps of a log to those of a new disk, as done before its first call.
fn replay(alloc: Global, into: &mut Vec<LoggedStep>, log: &[LoggedStep]) -> Result<(), AllocError>
    ensures { OnOk result (ReplaysAll into.old.items into.new.items log.now) }
{
    for logged in log {
        into.push(LoggedStep {
            at: 0,
            step: copied(alloc, &logged.step)?,
        })?;
    }
    Ok(())
}

// The same, with each put cut to half and no removal.
fn replay_torn(
    alloc: Global,
    into: &mut Vec<LoggedStep>,
    log: &[LoggedStep],
) -> Result<(), AllocError>
    ensures { OnOk result (ReplaysTorn into.old.items into.new.items log.now) }
{
    for logged in log {
        match torn(alloc, &logged.step)? {
            Some(step) => into.push(LoggedStep { at: 0, step })?,
            None => {}
        }
    }
    Ok(())
}

fn replay_since(
    alloc: Global,
    into: &mut Vec<LoggedStep>,
    since: &[LoggedStep],
    choice: u8,
) -> Result<(), AllocError>
    ensures { OnOk result (ReplaysSince choice into.old.items into.new.items since.now) }
{
    match choice {
        0 => Ok(()),
        2 => replay_torn(alloc, into, since),
        _ => replay(alloc, into, since),
    }
}

// The steps that make of an empty disk what a crash leaves of one that did those of the log, and are synced.
pub fn crash_log(
    alloc: Global,
    log: &[LoggedStep],
    choice: u8,
) -> Result<Vec<LoggedStep>, AllocError>
    ensures { IfOk result (λ left. IsLeft choice log.now left.items) }
{
    let (before, since) = log.split_at(synced_count(log));
    let mut left = Vec::new(alloc);
    replay(alloc, &mut left, before)?;
    replay_since(alloc, &mut left, since, choice)?;
    left.push(LoggedStep {
        at: 0,
        step: Step::Sync,
    })?;
    Ok(left)
}
