//! A folder is opened.

ghost use Rattle.std.specs.Prelude.{IfOk, IsErrOf};
ghost use Rattle.std.specs.List.{All};
ghost use Rattle.disk_trait.specs.Disk.{Serves, Ticks};
ghost use Rattle.snapshot_files.specs.Scanned.{HasNames};
ghost use Rattle.snapshot_files.specs.Opened.{CleansDisk, FindsChunks, FindsSnapshots, WantsMemory};
ghost use Rattle.snapshot_files.specs.Removed.{StepsClean};

use crate::removing::clean;
use crate::{Found, scan_named};
use chunk_store::digests_named;
use disk_trait::{Disk, DiskError};
use std::alloc::Global;
use store_types::Digest32;

/// What stands in the folder of a datastore.
#[derive(Debug, Drop)]
pub struct Inventory {
    /// The snapshots whose manifest's file is there, damaged ones too, in their order.
    pub snapshots: Vec<Found>,
    /// The digests under which a file stands, in byte order.
    pub chunks: Vec<Digest32>,
}

/// Opens the folder of a datastore that was synced: removes each temporary file, and each file of a snapshot without a
/// manifest; reads each manifest once, and tells the chunks. All names are listed once. No other file is touched, and no
/// index or chunk is read.
///
/// A caller syncs first: then what is read is what a crash leaves, and what stood for a list of snapshots stands for it in
/// all that a crash leaves since, at an error too.
pub fn open_files<D: Disk>(disk: &mut D, alloc: Global) -> Result<Inventory, DiskError>
    ensures serves { Serves D.honest D.faults disk.old disk.new (IsErrOf result DiskError.Failed) }
    ensures tick { Ticks D.honest D.calls disk.old disk.new }
    ensures crash { StepsClean D.Disk disk.old disk.new }
    ensures cleaned { CleansDisk D.Disk disk.old disk.new result }
    ensures want { WantsMemory D.Disk disk.old disk.new result }
    ensures found { FindsSnapshots D.Disk disk.old disk.new result }
    ensures names { IfOk result (λ i. All HasNames i.snapshots.items) }
    ensures digests { FindsChunks D.Disk disk.old disk.new result }
{
    let names = disk.list(alloc, "")?;
    clean(disk, alloc, &names)?;
    let snapshots = scan_named(disk, alloc, &names)?;
    let chunks = digests_named(alloc, &names)?;
    Ok(Inventory { snapshots, chunks })
}
