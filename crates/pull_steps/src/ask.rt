//! What a SYNC asks for.

use store_types::{Bytes, Digest32, FileName};
use wire_commands::Command;

/// A step of a SYNC, or a read of the remote for it.
#[derive(Debug, Drop)]
pub enum Ask {
    Command(Command),
    /// What the remote has of a group.
    List {
        group: Bytes,
    },
    /// A part of a file of one of the remote's snapshots, from an offset in bytes.
    File {
        snapshot: Bytes,
        name: FileName,
        offset: u64,
    },
    /// The remote's chunk with this digest.
    Chunk {
        digest: Digest32,
    },
}
