//! PRUNE: the group's snapshots, and then FORGET of each that no option keeps, the newest first.

ghost use Rattle.std.specs.Prelude.{◌≡◌, ◌+◌, ◌<◌, ◌≤◌, ◌∷◌, [], length, map, vec_len, All, IfOk};
ghost use Rattle.store_types.specs.Times.{last_moment};
ghost use Rattle.wire_commands.specs.HasText.{IsText, FitsPruneRow, ReplyHasText};
ghost use Rattle.store_model.specs.PruneJob as model;
ghost use Rattle.plain_lanes.specs.Jobs.{FitsTaken, GivesJob, IsSpelledJob, mark_told};

use crate::job::{Asking, Job, Stage};
use prune_rules::{Item, Mark, marks};
use std::alloc::{AllocError, Global};
use std::collections::VecDeque;
use store_types::{Bytes, Keep, Refusal, Rows, SnapshotKey};
use wire_commands::{PruneMark, PruneRow, Reply};

/// A snapshot that GROUP told: it is finished.
fn item_of(alloc: Global, snapshot: &Bytes) -> Result<Item, AllocError>
    ensures item { IfOk result (λ item. item ≡ model.item_of snapshot.now) }
    ensures time { IfOk result (λ item. item.time ≤ last_moment) }
{
    let key = SnapshotKey::parse(alloc, snapshot.as_slice())?;
    Ok(Item {
        time: key.map(|key| key.time).unwrap_or(0),
        finished: true,
    })
}

fn items_of(alloc: Global, snapshots: &[Bytes]) -> Result<Vec<Item>, AllocError>
    ensures items { IfOk result (λ items. items.items ≡ map model.item_of snapshots.now) }
    ensures times { IfOk result (λ items. All (λ item. item.time ≤ last_moment) items.items) }
{
    let mut items = Vec::new(alloc);
    for snapshot in snapshots {
        items.push(item_of(alloc, snapshot)?)?;
    }
    Ok(items)
}

fn meant(mark: Mark) -> PruneMark
    ensures { result ≡ model.meant mark }
{
    match mark {
        Mark::Kept => PruneMark::Kept,
        Mark::Removed => PruneMark::Removed,
    }
}

/// The group's snapshots by the rule, the newest first.
fn rows_meant(
    alloc: Global,
    keep: &Keep,
    oldest_first: Vec<Bytes>,
) -> Result<Vec<PruneRow>, AllocError>
    requires { All IsText oldest_first.items }
    ensures rows { IfOk result (λ rows. rows.items ≡ model.rows_meant keep.now oldest_first.items) }
    ensures count { IfOk result (λ rows. length rows.items ≤ length oldest_first.items) }
    ensures fits { IfOk result (λ rows. All FitsPruneRow rows.items) }
{
    let mut snapshots = oldest_first;
    snapshots.reverse();
    let items = items_of(alloc, &snapshots)?;
    let marks = marks(alloc, &items, keep)?;
    let mut rows = Vec::new(alloc);
    for (snapshot, mark) in snapshots.into_iter().zip(marks) {
        rows.push(PruneRow {
            snapshot,
            mark: meant(mark),
        })?;
    }
    Ok(rows)
}

/// On to the first row that is to go, behind those that are done.
fn go_on(mut before: Vec<PruneRow>, mut later: VecDeque<PruneRow>) -> Result<Job, AllocError>
    requires count { length before.items + length later.items ≤ 4096 }
    requires done { All FitsPruneRow before.items }
    requires to_come { All FitsPruneRow later.items }
    ensures job { GivesJob result (model.go_on before.items later.items) }
    ensures spelled { IfOk result IsSpelledJob }
{
    while let Some(row) = later.pop_front() {
        if row.mark == PruneMark::Removed {
            let PruneRow { snapshot, mark: _ } = row;
            let stage = Stage::Forgetting {
                before,
                snapshot,
                later,
            };
            return Ok(Job::Asking(Asking { stage }));
        }
        before.push(row)?;
    }
    Ok(Job::Over(Reply::Marks(Rows::from_vec(before))))
}

/// The job after the reply to GROUP. In a dry run what is meant is all.
#[tactic(auto, unfolding(store_model::specs::PruneJob::grouped))]
pub fn grouped(alloc: Global, keep: &Keep, dry: bool, reply: Reply) -> Result<Job, AllocError>
    requires { FitsTaken reply }
    ensures job { GivesJob result (model.grouped keep.now dry reply) }
    ensures spelled { IfOk result IsSpelledJob }
{
    let snapshots = match reply {
        Reply::Keys(snapshots) => snapshots,
        other => return Ok(Job::Over(other)),
    };
    let rows = rows_meant(alloc, keep, snapshots.into_vec())?;
    if dry {
        return Ok(Job::Over(Reply::Marks(Rows::from_vec(rows))));
    }
    go_on(Vec::new(alloc), VecDeque::from_vec(rows))
}

/// What the reply to a FORGET tells of the snapshot, unless it ends the job.
fn mark_of(reply: &Reply) -> Option<PruneMark>
    ensures { result ≡ mark_told reply.now }
{
    match reply {
        Reply::Done => Some(PruneMark::Removed),
        Reply::Refused(Refusal::SnapshotBusy { .. }) => Some(PruneMark::Held),
        Reply::Refused(Refusal::NoSnapshot) => Some(PruneMark::Gone),
        _ => None,
    }
}

/// The job after the reply to a FORGET.
pub fn forgot(
    before: Vec<PruneRow>,
    snapshot: Bytes,
    later: VecDeque<PruneRow>,
    reply: Reply,
) -> Result<Job, AllocError>
    requires count { length before.items + length later.items < 4096 }
    requires done { All FitsPruneRow before.items }
    requires asked { IsText snapshot }
    requires to_come { All FitsPruneRow later.items }
    requires fits { ReplyHasText reply }
    ensures job { GivesJob result (model.forgot before.items snapshot later.items reply) }
    ensures spelled { IfOk result IsSpelledJob }
{
    let Some(mark) = mark_of(&reply) else {
        return Ok(Job::Over(reply));
    };
    drop(reply);
    let mut before = before;
    before.push(PruneRow { snapshot, mark })?;
    go_on(before, later)
}
