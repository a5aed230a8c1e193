//! Where a SYNC is in a snapshot.

ghost use Rattle.std.specs.Prelude.{◌<◌, ◌≤◌, length, vec_len};

use crate::course::Course;
use known_chunks::Known;
use std::collections::VecDeque;
use store_types::{AppendEntry, Bytes, Digest32, FileName};

/// What was read of a snapshot: the file of its manifest, the names of the files to come, and the chunks that were sent for
/// it, with the sizes of their blobs in bytes.
#[derive(Drop)]
pub struct Stock {
    pub manifest: Bytes,
    pub names: VecDeque<FileName>,
    pub sent: Known,
}

/// An index that is sent. Each entry has the offset at which its piece begins.
#[derive(Drop)]
pub struct Index {
    pub name: FileName,
    /// Of a fixed one, in bytes.
    pub chunk_size: Option<u64>,
    pub entries: Vec<AppendEntry>,
    /// Of the archive, in bytes.
    pub size: u64,
    pub csum: Digest32,
    ghost limit: { vec_len entries ≤ 1_048_576 },
}

/// The manifest is read, behind these bytes of it.
#[derive(Drop)]
pub struct ManifestRead {
    pub course: Course,
    pub bytes: Vec<u8>,
}

/// A file is read, behind these bytes of it.
#[derive(Drop)]
pub struct FileRead {
    pub course: Course,
    pub stock: Stock,
    pub name: FileName,
    pub bytes: Vec<u8>,
}

/// An index is sent.
#[derive(Drop)]
pub struct Sending {
    pub course: Course,
    pub stock: Stock,
    pub index: Index,
}

/// The chunk of the entry at a place is read, or the entries from there on are appended.
#[derive(Drop)]
pub struct AtEntry {
    pub sending: Sending,
    pub place: usize,
    ghost within: { place < vec_len sending.index.entries },
}

/// The chunk of that entry was read, and is sent.
#[derive(Drop)]
pub struct HasChunk {
    pub at: AtEntry,
    pub blob: Bytes,
}

/// A blob is sent as the file of this name.
#[derive(Drop)]
pub struct HasBlob {
    pub course: Course,
    pub stock: Stock,
    pub name: FileName,
    pub bytes: Bytes,
}

/// The files are sent, and the manifest comes.
#[derive(Drop)]
pub struct HasFiles {
    pub course: Course,
    pub stock: Stock,
}
