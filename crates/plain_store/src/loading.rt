//! The plain store of a datastore's snapshots.

ghost use Rattle.std.specs.Prelude.{◌≡◌, IfOk};
ghost use Rattle.disk_trait.specs.Disk.{Same};
ghost use Rattle.disk_trait.specs.Effects.{StepsOn};
ghost use Rattle.plain_snapshots.specs.Loading.{has_damaged};
ghost use Rattle.store_model.specs.Load.{load};
ghost use Rattle.store_model.specs.Store.{store_of};
ghost use Rattle.plain_store.specs.Loaded.{LoadsStore, ServesOrFails};

use crate::plain::Plain;
use disk_trait::{Disk, DiskError};
use plain_snapshots::read_snapshots;
use std::alloc::Global;

impl Plain {
    /// The store of the snapshots that a datastore's disk has, without sessions, and whether the disk has a damaged
    /// snapshot. Those are left out, as [`read_snapshots`] says.
    pub fn load_told<D: Disk>(alloc: Global, disk: &mut D) -> Result<(Plain, bool), DiskError>
        ensures serves { ServesOrFails D.Disk disk.old disk.new result }
        ensures same { D.honest disk.old → D.content disk.new ≡ D.content disk.old }
        ensures crash { StepsOn D.Disk disk.old disk.new Same }
        ensures store { D.honest disk.old
            → IfOk result (λ x. x.0 ≡ store_of (load (D.content disk.old))) }
        ensures damaged { D.honest disk.old
            → IfOk result (λ x. x.1 ≡ has_damaged (D.content disk.old)) }
    {
        let (snapshots, damaged) = read_snapshots(alloc, disk)?;
        let store = Plain::of(alloc, snapshots)?;
        Ok((store, damaged))
    }

    /// The store that [`Plain::load_told`] gives.
    pub fn load<D: Disk>(alloc: Global, disk: &mut D) -> Result<Plain, DiskError>
        ensures serves { ServesOrFails D.Disk disk.old disk.new result }
        ensures same { D.honest disk.old → D.content disk.new ≡ D.content disk.old }
        ensures crash { StepsOn D.Disk disk.old disk.new Same }
        ensures store { LoadsStore D.Disk disk.old result }
    {
        let told = Plain::load_told(alloc, disk)?;
        Ok(told.0)
    }
}
