//! Files of snapshots are put, the manifest last.

ghost use Rattle.std.specs.Prelude.{IsOk, OnOk, IsErrOf};
ghost use Rattle.disk_trait.specs.Disk.{Serves};
ghost use Rattle.disk_trait.specs.Effects.{IsDurable, DiskWantKeeps};
ghost use Rattle.file_install.specs.Install.{StepsInstall, OkInstalls, NowWhole, NowInstalled};
ghost use Rattle.snapshot_files.specs.Effects.{PutsNoneOrWhole};
ghost use Rattle.snapshot_files.specs.Standing.{StandsFinished, StandsWithFile};

use crate::path::FilePath;
use disk_trait::{Disk, DiskError};
use file_install::{install, install_firm};
use std::alloc::Global;

/// Puts a snapshot's file. A crash leaves the old or the new content under its name, never a part; all else but a
/// temporary name stays as it was.
///
/// Tests count three calls of the disk: put, sync and rename. Until `finish`, or another sync, the old content may come
/// back.
pub fn put_file<D: Disk>(
    disk: &mut D,
    alloc: Global,
    path: &FilePath,
    text: &[u8],
) -> Result<(), DiskError>
    ensures serves { Serves D.honest D.faults disk.old disk.new (IsErrOf result DiskError.Failed) }
    ensures crash { StepsInstall D.Disk disk.old disk.new path.now text.now }
    ensures installed { OkInstalls D.Disk disk.old disk.new path.now text.now result }
    ensures whole { OnOk result (NowWhole D.Disk disk.old disk.new path.now text.now) }
    ensures unchanged { DiskWantKeeps D.Disk disk.old disk.new result }
    // what stands for a list that lacks the snapshot still does
    ensures stands { StandsWithFile D.Disk disk.old disk.new path.now (IsOk result) }
{
    install(disk, alloc, path.as_str(), text)
}

/// Finishes a snapshot: puts the text of its manifest's file at the manifest's path, and syncs. After Ok the manifest and
/// all that was put before outlast a crash.
///
/// Tests count four calls of the disk: put, sync, rename and sync.
pub fn finish<D: Disk>(
    disk: &mut D,
    alloc: Global,
    path: &FilePath,
    manifest: &[u8],
) -> Result<(), DiskError>
    ensures serves { Serves D.honest D.faults disk.old disk.new (IsErrOf result DiskError.Failed) }
    ensures crash { StepsInstall D.Disk disk.old disk.new path.now manifest.now }
    // where there was no manifest, a crash leaves none, or the whole one with all that was read
    ensures finished { PutsNoneOrWhole D.Disk disk.old disk.new path.now manifest.now }
    ensures installed { OkInstalls D.Disk disk.old disk.new path.now manifest.now result }
    ensures firm { OnOk result (NowInstalled D.Disk disk.old disk.new path.now manifest.now) }
    ensures durable { OnOk result (IsDurable D.Disk disk.new) }
    ensures unchanged { DiskWantKeeps D.Disk disk.old disk.new result }
    // what stood for a list stands for it, or for that list with the snapshot
    ensures stands { StandsFinished D.Disk disk.old disk.new path.now manifest.now (IsOk result) }
{
    install_firm(disk, alloc, path.as_str(), manifest)
}
