//! A page of an index as it was read.

ghost use Rattle.std.specs.Prelude.{IsTrue};
ghost use Rattle.store_files.specs.DynamicIndex.{steps_fit};
ghost use Rattle.restore_reader.specs.Plan.{ends_of};

use paged_indexes::IndexEntry;

/// The entries of a page, and where its pieces begin.
#[derive(Drop)]
pub struct ReadPage {
    /// The page's number.
    pub number: u32,
    /// Where its first piece begins in the archive.
    pub start: u64,
    pub entries: Vec<IndexEntry>,
    ghost steps: { IsTrue (steps_fit start (ends_of entries.items)) },
}
