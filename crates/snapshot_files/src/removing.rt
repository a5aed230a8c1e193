//! Files that opening takes away are removed.

ghost use Rattle.std.specs.Prelude.{◌∷◌, [], IsErrOf};
ghost use Rattle.disk_trait.specs.Disk.{Serves};
ghost use Rattle.disk_trait.specs.Effects.{StepsOn};
ghost use Rattle.snapshot_files.specs.Opened.{CleansDisk, WantsMemory};
ghost use Rattle.snapshot_files.specs.Removed.{MayLeave, NamesAll, OkAllGo, OkGoes, OnlyLoses, StepsClean};

use crate::unfinished::{is_leaving, manifests_among};
use disk_trait::{Disk, DiskError};
use std::alloc::Global;
use std::collections::BTreeSet;

/// Removes the file of this name, if it leaves.
fn remove_leaving<D: Disk>(
    disk: &mut D,
    alloc: Global,
    name: &str,
    manifests: &BTreeSet<String>,
) -> Result<(), DiskError>
    ensures serves { Serves D.honest D.faults disk.old disk.new (IsErrOf result DiskError.Failed) }
    ensures crash { StepsOn D.Disk disk.old disk.new (MayLeave manifests.now) }
    ensures gone { OkGoes D.Disk disk.old disk.new manifests.now (name.now ∷ []) result }
    ensures only { OnlyLoses D.Disk disk.old disk.new manifests.now result }
{
    if is_leaving(alloc, name, manifests)? {
        let _ = disk.remove(name)?;
    }
    Ok(())
}

/// Removes those of the files of these names that leave.
fn remove_all_leaving<D: Disk>(
    disk: &mut D,
    alloc: Global,
    names: &[String],
    manifests: &BTreeSet<String>,
) -> Result<(), DiskError>
    ensures serves { Serves D.honest D.faults disk.old disk.new (IsErrOf result DiskError.Failed) }
    ensures crash { StepsOn D.Disk disk.old disk.new (MayLeave manifests.now) }
    ensures gone { OkAllGo D.Disk disk.old disk.new manifests.now names.now result }
    ensures only { OnlyLoses D.Disk disk.old disk.new manifests.now result }
{
    for name in names {
        remove_leaving(disk, alloc, name.as_str(), manifests)?;
    }
    Ok(())
}

/// Removes each temporary file, and each file of a snapshot without a manifest. All names are handed in.
///
/// Tests count its calls: a remove for each file that leaves.
pub fn clean<D: Disk>(disk: &mut D, alloc: Global, names: &[String]) -> Result<(), DiskError>
    requires { NamesAll D.Disk disk.old names.now }
    ensures serves { Serves D.honest D.faults disk.old disk.new (IsErrOf result DiskError.Failed) }
    ensures crash { StepsClean D.Disk disk.old disk.new }
    ensures cleaned { CleansDisk D.Disk disk.old disk.new result }
    ensures want { WantsMemory D.Disk disk.old disk.new result }
{
    let manifests = manifests_among(alloc, names)?;
    remove_all_leaving(disk, alloc, names, &manifests)?;
    Ok(())
}
