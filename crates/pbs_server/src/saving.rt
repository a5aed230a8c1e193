//! The book of touches is saved as a run ends.

ghost use Rattle.atime_book.specs.Touches.{NoneAfter};
ghost use Rattle.pbs_server.specs.Saving.{EndsSaved};

use core_state::Core;
use disk_trait::{Disk, DiskError};
use std::alloc::Global;

/// Saves the book of touches, and tells why it was not saved. Where the disk has failed it is not called again.
pub fn save<D: Disk, E, C>(core: &mut Core<D, E, C>, alloc: Global) -> Option<DiskError>
    requires early { NoneAfter core.old.upkeep.book core.old.last }
    ensures { EndsSaved D.Disk core.old core.new result }
{
    if core.fault.is_some() {
        return None;
    }
    core.save_book(alloc).err()
}
