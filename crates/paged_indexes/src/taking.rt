//! Where the entries of an index go as its pages are read.

ghost use Rattle.std.specs.Prelude.{◌≡◌, ℕ, ◌+◌, ◌<◌, ◌≤◌, [], ◌∷◌, List, OnOk};
ghost use Rattle.store_files.specs.DynamicIndex.{Ended};
ghost use Rattle.paged_indexes.specs.Handing.{HandsOn, IsStep, ended_of};

use crate::kinds::IndexEntry;
use std::alloc::AllocError;

/// What takes entries of an index in turn.
pub trait TakesEntries {
    /// These entries were taken, of which the first one's piece begins there.
    ghost taken: { Self → ℕ → List Ended → Type 0 };

    /// Takes the next entry, whose piece begins at the start.
    fn take(&mut self, start: u64, entry: &IndexEntry) -> Result<(), AllocError>
        requires { IsStep start entry.now.end }
        ensures { OnOk result (HandsOn taken start (ended_of entry.now ∷ []) self.old self.new) };
}

/// Takes entries and keeps nothing of them.
#[derive(Drop)]
pub struct Nothing;

impl TakesEntries for Nothing {
    ghost taken = { λ _ _ _. Unit {0} };

    fn take(&mut self, _start: u64, _entry: &IndexEntry) -> Result<(), AllocError> {
        Ok(())
    }
}
