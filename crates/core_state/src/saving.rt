//! The book of touches is saved.

ghost use Rattle.std.specs.Prelude.{OnOk};
ghost use Rattle.disk_trait.specs.Effects.{DiskWantKeeps};
ghost use Rattle.atime_book.specs.Touches.{NoneAfter};
ghost use Rattle.core_state.specs.Saving.{HasSaved, KeepsRest, LeavesBook, SavesBook, SavesOrFails};

use crate::state::Core;
use disk_trait::{Disk, DiskError};
use file_install::install;
use std::alloc::Global;

/// Where the book of touches stands in the datastore folder.
pub const BOOK_NAME: &str = ".chunks/book";

impl<D: Disk, E, C> Core<D, E, C> {
    /// Installs the book of touches as of the last moment: the last touch of each chunk that is there. A crash leaves the book
    /// that was saved before, or this one.
    ///
    /// It is no act: no entry is made, and a fault of the disk is told alone. Then the store is to be opened again. Before the first
    /// entry, chunks that are undated are saved as of the last moment.
    pub fn save_book(&mut self, alloc: Global) -> Result<(), DiskError>
        requires early { NoneAfter self.old.upkeep.book self.old.last }
        ensures serves { SavesOrFails D.Disk self.old self.new result }
        // all but the disk is as before
        ensures rest { KeepsRest self.old self.new }
        ensures crash { LeavesBook D.Disk self.old self.new }
        ensures saved { OnOk result (HasSaved D.Disk self.old self.new) }
        ensures unchanged { DiskWantKeeps D.Disk self.old.parts.disk self.new.parts.disk result }
        // the core stands for what it stood for, and what a crash leaves for what it did
        ensures history { SavesBook D.Disk self.old self.new result }
    {
        let text = self.upkeep.book.text(alloc, self.last)?;
        install(&mut self.parts.disk, alloc, BOOK_NAME, text.as_slice())
    }
}
