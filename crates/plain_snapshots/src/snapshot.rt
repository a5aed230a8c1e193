//! Finished snapshots, in their order.

ghost use Rattle.std.specs.Prelude.{◌≡◌, length, OnOk, OnErr, position, option_map};
ghost use Rattle.store_types.specs.Names.{key_lt, group_of_key};
ghost use Rattle.store_model.specs.Store.{snapshot_named as find_snapshot, in_group, latest_in as latest_of, insert_snapshot as with_snapshot, without_snapshot as other_snapshots};

use crate::file::File;
use crate::key::PlainKey;
use std::alloc::AllocError;
use std::marker::Model;
use store_types::SnapshotKey;

/// A finished snapshot. Its files stand in byte order of their names, and there are 64 at most.
#[derive(Drop)]
pub struct Snapshot {
    pub key: PlainKey,
    pub files: Vec<File>,
}

impl Model for Snapshot {
    ghost use Rattle.std.specs.Prelude.{◌≤◌, length};
    ghost use Rattle.store_files.specs.Archive as model;

    ghost Value = { model.Snapshot };

    ghost view = { λ x. record { key = x.key; files = x.files.items } };

    ghost invariant = { λ x. length x.files.items ≤ 64 };
}

impl Snapshot {
    ghost use Rattle.store_types.specs.Names.{same_group, same_key};

    fn is_of_group(&self, key: &SnapshotKey) -> bool
        ensures { result ≡ same_group (group_of_key self.now.key) (group_of_key key.now) }
    {
        self.key.as_key().same_group(key)
    }

    fn has_key(&self, key: &SnapshotKey) -> bool
        ensures { result ≡ same_key self.now.key key.now }
    {
        self.key.as_key() == key
    }

    pub(crate) fn is_after(&self, key: &SnapshotKey) -> bool
        ensures { result ≡ key_lt key.now self.now.key }
    {
        key < self.key.as_key()
    }
}

impl Clone for Snapshot {
    ghost is_clone = { λ snapshot copy. copy ≡ snapshot };

    fn clone(&self) -> Result<Snapshot, AllocError> {
        Ok(Snapshot {
            key: self.key.clone()?,
            files: self.files.clone()?,
        })
    }
}

/// The snapshot with this key.
pub fn snapshot_named<'a>(key: &SnapshotKey, snapshots: &'a [Snapshot]) -> Option<&'a Snapshot>
    ensures { option_map (λ x. x.now) result ≡ find_snapshot key.now snapshots.now }
{
    snapshots.iter().find(|snapshot| snapshot.has_key(key))
}

/// How many snapshots the snapshot's group has.
pub fn count_in(key: &SnapshotKey, snapshots: &[Snapshot]) -> usize
    ensures { result ≡ length (in_group (group_of_key key.now) snapshots.now) }
{
    snapshots
        .iter()
        .filter(|snapshot| snapshot.is_of_group(key))
        .count()
}

/// The key of the latest snapshot of the snapshot's group.
pub fn latest_in<'a>(key: &SnapshotKey, snapshots: &'a [Snapshot]) -> Option<&'a PlainKey>
    ensures { option_map (λ k. k.now) result ≡ latest_of (group_of_key key.now) snapshots.now }
{
    let mut latest = None;
    for snapshot in snapshots {
        if snapshot.is_of_group(key) {
            latest = Some(&snapshot.key);
        }
    }
    latest
}

/// The place of the first snapshot that is greater.
fn first_after(snapshots: &[Snapshot], new: &Snapshot) -> Option<usize>
    ensures { result ≡ position (λ x. key_lt new.now.key x.key) snapshots.now }
{
    let key = new.key.as_key();
    snapshots.iter().position(|snapshot| snapshot.is_after(key))
}

/// Places a snapshot before the first that is greater. At want of memory nothing has changed.
pub fn insert_snapshot(snapshots: &mut Vec<Snapshot>, new: Snapshot) -> Result<(), AllocError>
    ensures ok { OnOk result (snapshots.new.items ≡ with_snapshot new snapshots.old.items) }
    ensures err { OnErr result (snapshots.new.items ≡ snapshots.old.items) }
{
    let after = first_after(snapshots, &new);
    let place = after.unwrap_or(snapshots.len());
    snapshots.insert(place, new)?;
    Ok(())
}

/// Takes the snapshot with this key out. It takes no memory.
pub fn remove_snapshot(snapshots: &mut Vec<Snapshot>, key: &SnapshotKey)
    ensures { snapshots.new.items ≡ other_snapshots key.now snapshots.old.items }
{
    snapshots.retain(|snapshot| !snapshot.has_key(key));
}
