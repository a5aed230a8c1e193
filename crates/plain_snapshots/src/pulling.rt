//! The snapshots of a group, and those of them that a SYNC pulls.

ghost use Rattle.std.specs.Prelude.{◌≡◌, map, option_map, None, IfOk};
ghost use Rattle.std.specs.List.{last_or};
ghost use Rattle.store_model.specs.Store.{in_group};
ghost use Rattle.store_model.specs.SyncJob.{is_later as comes_later};
ghost use Rattle.plain_snapshots.specs.Pulling.{newest_of, shown_newest, later_of};

use crate::key::PlainKey;
use crate::snapshot::Snapshot;
use std::alloc::{AllocError, Global};
use store_types::{GROUP_LIMIT, GroupKey};

/// The snapshots of a group.
pub fn members(
    alloc: Global,
    group: &GroupKey,
    snapshots: &[Snapshot],
) -> Result<Vec<Snapshot>, AllocError>
    ensures { IfOk result (λ found. found.items ≡ in_group group.now snapshots.now) }
{
    let mut found = Vec::new(alloc);
    for snapshot in snapshots {
        if snapshot.key.as_key().is_of(group) {
            found.push(snapshot.clone()?)?;
        }
    }
    Ok(found)
}

fn last_key(snapshots: &[Snapshot]) -> Option<&PlainKey>
    ensures { option_map (λ k. k.now) result ≡ last_or None (map (λ x. x.key) snapshots.now) }
{
    let mut last = None;
    for snapshot in snapshots {
        last = Some(&snapshot.key);
    }
    last
}

/// The newest of a group's snapshots that GROUP tells.
pub fn newest_told(members: &[Snapshot]) -> Option<&PlainKey>
    ensures { shown_newest result ≡ newest_of members.now }
{
    last_key(&members[..members.len().min(GROUP_LIMIT)])
}

/// The snapshot is later than this one, where there is one.
fn is_later(newest: Option<&PlainKey>, snapshot: &Snapshot) -> bool
    ensures { result ≡ comes_later (shown_newest newest.entry) snapshot.now }
{
    match newest {
        None => true,
        Some(newest) => newest.as_key().time < snapshot.key.as_key().time,
    }
}

/// Those of a group's snapshots that are later than this one, where there is one.
pub fn later_than(
    alloc: Global,
    newest: Option<&PlainKey>,
    members: &[Snapshot],
) -> Result<Vec<Snapshot>, AllocError>
    ensures { IfOk result (λ later. later.items ≡ later_of newest.entry members.now) }
{
    let mut later = Vec::new(alloc);
    for snapshot in members {
        if is_later(newest, snapshot) {
            later.push(snapshot.clone()?)?;
        }
    }
    Ok(later)
}
