//! What a reply lists, row by row.

use store_types::{Bytes, Digest32};

/// A finished snapshot, as LIST shows it.
#[derive(Debug, Drop)]
pub struct ListRow {
    /// The snapshot's text.
    pub snapshot: Bytes,
    /// Its manifest is not read, or one of the files that it lists is missing.
    pub damaged: bool,
    /// How many files it has, with its manifest; 0 where it is damaged.
    pub files: u8,
}

/// A file of a snapshot, as FILES shows it: what the manifest lists, or of the manifest itself its own.
#[derive(Debug, Drop)]
pub struct FileRow {
    pub file: Bytes,
    /// Of an index the archive's size in bytes, of a blob its file's.
    pub size: u64,
    /// Of an index its checksum, of a blob the SHA-256 of its file.
    pub csum: Digest32,
}

/// What a prune did to a snapshot, or in a dry run would do.
#[derive(Clone, Copy, Debug, PartialEq, Eq)]
pub enum PruneMark {
    /// 0: it is removed.
    Removed,
    /// 1: it is kept.
    Kept,
    /// 2: it was to be removed, but a lane holds it.
    Held,
    /// 3: it was to be removed, and was gone before.
    Gone,
}

/// A snapshot of a group, as PRUNE shows it.
#[derive(Debug, Drop)]
pub struct PruneRow {
    /// The snapshot's text.
    pub snapshot: Bytes,
    pub mark: PruneMark,
}

/// What is wrong with a file of a snapshot.
#[derive(Clone, Copy, Debug, PartialEq, Eq)]
pub enum FileFault {
    /// 19: it is not what the manifest lists.
    Differs,
    /// 23: the chunk of this digest is missing, is no blob, or has another digest.
    Damaged(Digest32),
    /// 24: it is missing, or does not decode.
    Unreadable,
}

/// A file of a snapshot with its first fault, as VERIFY shows it.
#[derive(Debug, Drop)]
pub struct FaultRow {
    pub file: Bytes,
    pub fault: FileFault,
}
