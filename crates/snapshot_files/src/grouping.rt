//! The snapshots of one group on a disk.

ghost use Rattle.std.specs.Prelude.{◌≡◌, IfOk, IfSome, IsErrOf, string_bytes};
ghost use Rattle.std.specs.List.{All};
ghost use Rattle.disk_trait.specs.Effects.{OnlyReads};
ghost use Rattle.store_types.specs.Names.{IsGroup, IsKey};
ghost use Rattle.snapshot_files.specs.Grouped.{AddsKey, AreOrdered, IsOfGroup, ListsGroup, StaysOfGroup, group_folder, key_among as key_of_group, keys_among as keys_of_group};

use crate::scanning::key_of_manifest;
use disk_trait::{Disk, DiskError};
use std::alloc::{AllocError, Global};
use store_types::{GroupKey, SnapshotKey};

/// The group's folder, with a slash behind it.
fn folder_of(alloc: Global, group: &GroupKey) -> Result<String, AllocError>
    requires { IsGroup group.now }
    ensures { IfOk result (λ folder. string_bytes folder ≡ group_folder group.now) }
{
    let mut folder = group.print(alloc)?;
    folder.push_str("/")?;
    Ok(folder)
}

/// The snapshot of the group whose manifest has this name.
fn key_among(alloc: Global, group: &GroupKey, name: &str) -> Result<Option<SnapshotKey>, AllocError>
    ensures value { IfOk result (λ key. key ≡ key_of_group group.now name.now) }
    ensures named { IfOk result (λ key. IfSome key (IsOfGroup group.now)) }
{
    let Some(key) = key_of_manifest(alloc, name)? else {
        return Ok(None);
    };
    if key.is_of(group) {
        Ok(Some(key))
    } else {
        Ok(None)
    }
}

/// The snapshot of the group whose manifest has this name, behind those before.
fn add_key(
    alloc: Global,
    group: &GroupKey,
    name: &str,
    keys: &mut Vec<SnapshotKey>,
) -> Result<(), AllocError>
    ensures value { AddsKey keys.old.items keys.new.items group.now name.now result }
    ensures named { StaysOfGroup keys.old.items keys.new.items group.now result }
{
    let Some(key) = key_among(alloc, group, name)? else {
        return Ok(());
    };
    keys.push(key)?;
    Ok(())
}

/// The snapshots of the group whose manifests have one of these names.
fn keys_among(
    alloc: Global,
    group: &GroupKey,
    names: &[String],
) -> Result<Vec<SnapshotKey>, AllocError>
    ensures value { IfOk result (λ keys. keys.items ≡ keys_of_group group.now names.now) }
    ensures named { IfOk result (λ keys. All (IsOfGroup group.now) keys.items) }
{
    let mut keys = Vec::new(alloc);
    for name in names {
        add_key(alloc, group, name.as_str(), &mut keys)?;
    }
    Ok(keys)
}

/// The keys in their order. It takes no memory.
fn ordered(mut keys: Vec<SnapshotKey>) -> Vec<SnapshotKey>
    ensures { AreOrdered keys.items result.items }
{
    keys.sort_unstable_by(|a, b| a.cmp(b));
    keys
}

/// The group's snapshots whose manifest's file is there, each once, the oldest first. Damaged ones are among them: no file
/// is opened.
///
/// Other names in the group's folder are passed over. The one call of the disk lists that folder.
pub fn keys_in_group<D: Disk>(
    disk: &mut D,
    alloc: Global,
    group: &GroupKey,
) -> Result<Vec<SnapshotKey>, DiskError>
    requires { IsGroup group.now }
    ensures reads { OnlyReads D.Disk disk.old disk.new (IsErrOf result DiskError.Failed) }
    ensures keys { ListsGroup D.Disk disk.old group.now result }
    // on any disk
    ensures named { IfOk result (λ keys. All (IsOfGroup group.now) keys.items) }
{
    let folder = folder_of(alloc, group)?;
    let names = disk.list(alloc, folder.as_str())?;
    let keys = keys_among(alloc, group, &names)?;
    Ok(ordered(keys))
}
