//! The disks of a check, which it reads alone.

ghost use Rattle.std.specs.Prelude.{◌≡◌, IfOk, Err};
ghost use Rattle.plain_snapshots.specs.Loading.{has_damaged};
ghost use Rattle.store_model.specs.Load.{load};
ghost use Rattle.store_model.specs.Store.{store_of};
ghost use Rattle.disk_trait.specs.Effects.{OnlyReads};
ghost use Rattle.run_check.specs.Checks.{LoadsRemote, RemoteIsOnlyRead, TellsLoad};

use crate::fault::CheckFault;
use disk_trait::{Disk, DiskError};
use plain_store::Plain;
use std::alloc::Global;

/// The plain store of the datastore that was handed in, and whether it has a damaged snapshot.
pub fn load_root<D: Disk>(alloc: Global, disk: &mut D) -> Result<(Plain, bool), CheckFault>
    ensures disk { OnlyReads D.Disk disk.old disk.new (result ≡ Err CheckFault.DiskFault) }
    ensures store { D.honest disk.old
        → IfOk result (λ x. x.0 ≡ store_of (load (D.content disk.old))) }
    ensures damaged { D.honest disk.old
        → IfOk result (λ x. x.1 ≡ has_damaged (D.content disk.old)) }
    ensures why { TellsLoad CheckFault.DiskFault result }
{
    match Plain::load_told(alloc, disk) {
        Ok(told) => Ok(told),
        Err(DiskError::Failed) => Err(CheckFault::DiskFault),
        Err(DiskError::NoMemory) => Err(CheckFault::NoMemory),
    }
}

/// The plain store of the remote, where there is one.
pub fn load_remote<E: Disk>(
    alloc: Global,
    remote: &mut Option<E>,
) -> Result<Option<Plain>, CheckFault>
    ensures remote { RemoteIsOnlyRead E.Disk remote.old remote.new
        (result ≡ Err CheckFault.RemoteFault) }
    ensures store { LoadsRemote E.Disk remote.old result }
    ensures why { TellsLoad CheckFault.RemoteFault result }
{
    let Some(remote) = remote else {
        return Ok(None);
    };
    match Plain::load(alloc, remote) {
        Ok(store) => Ok(Some(store)),
        Err(DiskError::Failed) => Err(CheckFault::RemoteFault),
        Err(DiskError::NoMemory) => Err(CheckFault::NoMemory),
    }
}
