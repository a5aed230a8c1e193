//! Entries of indexes.

use store_types::Digest32;

/// Which kind of index it is.
#[derive(Clone, Copy, Debug, PartialEq, Eq)]
pub enum IndexKind {
    Fixed,
    Dynamic,
}

/// An entry of an index of either kind.
#[derive(Clone, Copy, Debug, PartialEq, Eq)]
pub struct IndexEntry {
    /// The digest of the entry's piece.
    pub digest: Digest32,
    /// The offset in the archive at which the piece ends, in bytes.
    pub end: u64,
}
