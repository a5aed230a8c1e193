//! What a manifest says, and why it is refused.

use store_types::{Digest32, FileName, Rows, SnapshotKey};
use thiserror::Error;

/// What is listed of a file.
///
/// Of an index these are the size of its archive and the index's checksum, of a blob the length of the blob's file and
/// its SHA-256.
#[derive(Debug, Drop)]
pub struct FileFact {
    pub name: FileName,
    /// In bytes.
    pub size: u64,
    pub csum: Digest32,
}

/// The snapshot that a manifest belongs to, and its files in the manifest's order.
#[derive(Debug, Drop)]
pub struct Manifest {
    pub key: SnapshotKey,
    pub files: Rows<FileFact>,
}

/// Why bytes are no manifest, by the number of the cause.
///
/// | cause | what it says |
/// |---|---|
/// | 1 | the bytes are no JSON in UTF-8, or JSON that nests too deep |
/// | 2 | not an object, or `backup-type`, `backup-id`, `backup-time` or `files` is missing or outside its grammar |
/// | 3 | an entry is not an object, or its `filename`, `size` or `csum` is missing or outside its grammar |
/// | 4 | an entry has the name of one before |
/// | 5 | an entry has a `crypt-mode` other than the text `none` |
///
/// 1 and 2 come before the entries; of the entries the first that is at fault is told, and of one entry's causes the
/// first of 3, 5 and 4.
#[derive(Clone, Copy, Debug, PartialEq, Eq, Drop, Error)]
#[error("the manifest is bad, by cause {cause}")]
pub struct BadManifest {
    pub cause: u8,
}

/// Where a manifest and a session differ first: the file, where it is one, and the number of what differs.
///
/// | field | what differs |
/// |---|---|
/// | 1, 2, 3 | the snapshot's type, its id, its time; no file is named |
/// | 4 | the file is listed and was not uploaded, or is the manifest itself |
/// | 5 | the file was uploaded and is not listed |
/// | 6, 7 | the file's size, its checksum |
#[derive(Debug, PartialEq, Eq, Drop, Error)]
#[error("the manifest does not fit the session, by field {field}")]
pub struct Mismatch {
    pub file: Option<FileName>,
    pub field: u8,
}
