//! What holds of the disk after every list of acts.

ghost use Rattle.core_laws.specs.Laws.{EndsSaveTheBook, SweepsLeaveChunkFiles};

use core_state::Core;
use disk_trait::Disk;
use port_traits::Clock;

/// In a history that the core stands for, until its disk failed: when a whole sweep ends, the chunk files on the disk are
/// exactly those, of the ones that stood there at its start or were sent since, whose last touch is not before its cutoff.
pub fn sweeps_leave_chunk_files<D: Disk, E, C: Clock>(core: &Core<D, E, C>)
    ensures { SweepsLeaveChunkFiles D.Disk C.readings core.now }
{}

/// Of each history that the core stood for: once the end of a collector that was not ended early is answered its report, the
/// folder has the book as of the end's moment, with the last touch of each chunk that is there.
pub fn ends_save_the_book<D: Disk, E, C: Clock>(old: &Core<D, E, C>, new: &Core<D, E, C>)
    ensures { EndsSaveTheBook D.Disk C.Clock old.now new.now }
{}
