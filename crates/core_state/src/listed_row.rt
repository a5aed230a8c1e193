//! What is told of a finished snapshot in a listing.

ghost use Rattle.std.specs.Prelude.{◌≡◌, false, length, min};
ghost use Rattle.core_state.specs.ListedRows.{row_of};

use crate::kept::{Kept, StoredFile};

/// What LIST and views tell of a finished snapshot, beside its name.
#[derive(Clone, Copy, Debug, Drop)]
pub struct ListedRow {
    /// A file makes it damaged.
    pub damaged: bool,
    /// How many files it has, with its manifest; 0 where it is damaged.
    pub files: u8,
}

impl ListedRow {
    /// Of a snapshot with these files that is whole. It has 64 at most.
    pub fn whole(files: &[StoredFile]) -> ListedRow
        ensures damaged { result.damaged ≡ false }
        ensures files { result.files ≡ min (length files.now) 255 }
    {
        ListedRow {
            damaged: false,
            files: files.len().min(255) as u8,
        }
    }

    /// Of this one.
    pub fn of(kept: &Kept) -> ListedRow
        ensures { result ≡ row_of kept.now }
    {
        if kept.unreadable.is_some() {
            return ListedRow {
                damaged: true,
                files: 0,
            };
        }
        ListedRow::whole(kept.files.as_slice())
    }
}
