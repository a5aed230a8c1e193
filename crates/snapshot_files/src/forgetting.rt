//! Files of snapshots are removed, the manifest first.

ghost use Rattle.std.specs.Prelude.{◌≡◌, ◌∷◌, [], None, IsOk, OnOk, IsErr, IsErrOf};
ghost use Rattle.std.specs.List.{filter_map};
ghost use Rattle.disk_trait.specs.Disk.{Serves, Steps};
ghost use Rattle.disk_trait.specs.Effects.{DiskWantKeeps};
ghost use Rattle.store_types.specs.Names.{IsKey};
ghost use Rattle.snapshot_files.specs.Effects.{Makes};
ghost use Rattle.snapshot_files.specs.Forgotten.{MayLose, MayLoseIt, Forgets, ForgetsSnapshot, NowForgotten, NowLacksSnapshot, without, without_files, without_it};
ghost use Rattle.snapshot_files.specs.Standing.{StandsForgotten};

use crate::path::{FilePath, Stored, manifest_path_of, paths_of};
use disk_trait::{Disk, DiskError, Failed};
use file_install::drop_firm;
use std::alloc::Global;
use store_types::{FileName, SnapshotKey};

// Removes its file, if it is there.
fn remove_file<D: Disk, F: Stored>(disk: &mut D, file: &F) -> Result<(), Failed>
    ensures serves { Serves D.honest D.faults disk.old disk.new (IsErr result) }
    ensures crash { Steps D.calls D.images disk.old disk.new (MayLoseIt (F.at file.now)) }
    ensures removed { Makes D.Disk disk.old disk.new result (without_it (F.at file.now)) }
    ensures none { F.at file.now ≡ None → IsOk result × (disk.new ≡ disk.old) }
{
    if let Some(path) = file.path() {
        let _ = disk.remove(path.as_str())?;
    }
    Ok(())
}

/// Removes the files of these, those of them that are there. It takes no memory, and makes no call where none has a file.
///
/// Until a sync, each removal may or may not have happened.
pub fn remove_files<D: Disk, F: Stored>(disk: &mut D, files: &[F]) -> Result<(), Failed>
    ensures serves { Serves D.honest D.faults disk.old disk.new (IsErr result) }
    ensures crash { Steps D.calls D.images disk.old disk.new (MayLose (filter_map F.at files.now)) }
    ensures removed { Makes D.Disk disk.old disk.new result (without (filter_map F.at files.now)) }
    ensures none { filter_map F.at files.now ≡ [] → IsOk result × (disk.new ≡ disk.old) }
{
    for file in files {
        remove_file(disk, file)?;
    }
    Ok(())
}

// Removes the manifest for good, and only then the other files.
fn forget_at<D: Disk>(disk: &mut D, manifest: &str, paths: &[FilePath]) -> Result<(), Failed>
    ensures serves { Serves D.honest D.faults disk.old disk.new (IsErr result) }
    ensures crash { Steps D.calls D.images disk.old disk.new (Forgets manifest.now paths.now) }
    ensures firm { OnOk result (NowForgotten D.Disk disk.old disk.new manifest.now paths.now) }
    ensures removed { Makes D.Disk disk.old disk.new result (without (manifest.now ∷ paths.now)) }
{
    drop_firm(disk, manifest)?;
    remove_files(disk, paths)?;
    Ok(())
}

/// Forgets a snapshot: removes its manifest, syncs, and only then removes its files of these names. In what a crash
/// leaves, all is as it was or the manifest is gone; after Ok it is gone for good.
///
/// Tests count the calls of the disk: remove, sync, and a remove for each name. Want of memory changes nothing.
pub fn forget<D: Disk>(
    disk: &mut D,
    alloc: Global,
    key: &SnapshotKey,
    files: &[FileName],
) -> Result<(), DiskError>
    requires { IsKey key.now }
    ensures serves { Serves D.honest D.faults disk.old disk.new (IsErrOf result DiskError.Failed) }
    ensures crash { Steps D.calls D.images disk.old disk.new (ForgetsSnapshot key.now files.now) }
    ensures firm { OnOk result (NowLacksSnapshot D.Disk disk.old disk.new key.now files.now) }
    ensures removed { Makes D.Disk disk.old disk.new result (without_files key.now files.now) }
    ensures unchanged { DiskWantKeeps D.Disk disk.old disk.new result }
    // what stood for a list stands for it, or for that list without the snapshot
    ensures stands { StandsForgotten D.Disk disk.old disk.new key.now files.now (IsOk result) }
{
    let manifest = manifest_path_of(alloc, key)?;
    let paths = paths_of(alloc, key, files)?;
    forget_at(disk, manifest.as_str(), &paths)?;
    Ok(())
}
