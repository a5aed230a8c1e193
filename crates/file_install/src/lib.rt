//! Files that are put so that a crash leaves the old or the new content, never a part: the content is put under a
//! temporary name and synced before it is renamed.
#![tactic(auto)]

ghost use Rattle.std.specs.Prelude.{◌≡◌, ◌⊎◌, ◌≤◌, ◌++◌, ℕ, length, codes, IfOk, OnOk, IsErr, IsErrOf, string_bytes};
ghost use Rattle.disk_trait.specs.Files.{SameBut};
ghost use Rattle.disk_trait.specs.Disk.{Serves, MayGo};
ghost use Rattle.disk_trait.specs.Effects.{StepsOn, IsDurable, DiskPuts, DiskDrops, DiskWantKeeps};
ghost use Rattle.file_install.specs.Install.{temporary, StepsInstall, OkInstalls, NowWhole, NowInstalled, NowDropped};

use disk_trait::{Disk, DiskError, Failed};
use std::alloc::{AllocError, Global};

fn temporary_name(alloc: Global, name: &str) -> Result<String, AllocError>
    ensures { IfOk result (λ t. string_bytes t ≡ temporary name.now) }
{
    let mut text = String::from_str(alloc, name)?;
    text.push_str(".tmp")?;
    Ok(text)
}

// Puts the content under its temporary name, and syncs it.
fn stage<D: Disk>(disk: &mut D, alloc: Global, name: &str, bytes: &[u8]) -> Result<(), DiskError>
    requires { length name.now ≤ 255 }
    ensures serves { Serves D.honest D.faults disk.old disk.new (IsErrOf result DiskError.Failed) }
    ensures crash { StepsOn D.Disk disk.old disk.new (SameBut name.now) }
    ensures put { DiskPuts D.Disk disk.old disk.new name.now bytes.now result }
    ensures durable { OnOk result (IsDurable D.Disk disk.new) }
    ensures unchanged { DiskWantKeeps D.Disk disk.old disk.new result }
{
    disk.put(alloc, name, bytes)?;
    disk.sync()?; // the content lasts
    Ok(())
}

/// Puts a file under `<name>.tmp`, syncs, and renames it. A crash leaves the old or the new content under the name, any
/// bytes or nothing under the temporary one, and all else as it was. Both names have at most 255 bytes.
///
/// Fails where the disk does. Tests count three calls: put, sync and rename. Want of memory changes nothing.
pub fn install<D: Disk>(
    disk: &mut D,
    alloc: Global,
    name: &str,
    bytes: &[u8],
) -> Result<(), DiskError>
    requires { length name.now ≤ 251 }
    ensures serves { Serves D.honest D.faults disk.old disk.new (IsErrOf result DiskError.Failed) }
    ensures crash { StepsInstall D.Disk disk.old disk.new name.now bytes.now }
    ensures installed { OkInstalls D.Disk disk.old disk.new name.now bytes.now result }
    ensures whole { OnOk result (NowWhole D.Disk disk.old disk.new name.now bytes.now) }
    ensures unchanged { DiskWantKeeps D.Disk disk.old disk.new result }
{
    let temporary = temporary_name(alloc, name)?;
    let staged = temporary.as_str();
    stage(disk, alloc, staged, bytes)?;
    let _ = disk.rename(staged, name)?;
    Ok(())
}

/// Installs a file, and syncs once more: after Ok a crash leaves the new content alone.
pub fn install_firm<D: Disk>(
    disk: &mut D,
    alloc: Global,
    name: &str,
    bytes: &[u8],
) -> Result<(), DiskError>
    requires { length name.now ≤ 251 }
    ensures serves { Serves D.honest D.faults disk.old disk.new (IsErrOf result DiskError.Failed) }
    ensures crash { StepsInstall D.Disk disk.old disk.new name.now bytes.now }
    ensures installed { OkInstalls D.Disk disk.old disk.new name.now bytes.now result }
    ensures firm { OnOk result (NowInstalled D.Disk disk.old disk.new name.now bytes.now) }
    ensures durable { OnOk result (IsDurable D.Disk disk.new) }
    ensures unchanged { DiskWantKeeps D.Disk disk.old disk.new result }
{
    install(disk, alloc, name, bytes)?;
    disk.sync()?; // the rename lasts
    Ok(())
}

/// Removes a file, if it is there, and syncs: after Ok a crash leaves nothing under the name.
pub fn drop_firm<D: Disk>(disk: &mut D, name: &str) -> Result<(), Failed>
    ensures serves { Serves D.honest D.faults disk.old disk.new (IsErr result) }
    ensures crash { StepsOn D.Disk disk.old disk.new (MayGo name.now) }
    ensures removed { DiskDrops D.Disk disk.old disk.new name.now result }
    ensures firm { OnOk result (NowDropped D.Disk disk.old disk.new name.now) }
    ensures durable { OnOk result (IsDurable D.Disk disk.new) }
{
    let _ = disk.remove(name)?;
    disk.sync()?; // the removal lasts
    Ok(())
}
