//! Rows of a listing.

ghost use Rattle.std.specs.Prelude.{◌≡◌};

use std::alloc::AllocError;
use store_types::SnapshotKey;

/// A finished snapshot, as a view shows it.
#[derive(Debug, Drop)]
pub struct Listed {
    pub key: SnapshotKey,
    /// Its manifest is not read, or one of the files that it lists is missing.
    pub damaged: bool,
    /// How many files it has, with its manifest; 0 where it is damaged.
    pub files: u8,
}

impl Clone for Listed {
    ghost is_clone = { λ row copy. copy ≡ row };

    fn clone(&self) -> Result<Listed, AllocError> {
        Ok(Listed {
            key: self.key.clone()?,
            damaged: self.damaged,
            files: self.files,
        })
    }
}
