//! What a job asks for.

use store_types::FileName;
use wire_commands::Command;

/// A step of a job.
#[derive(Debug, Drop)]
pub enum Step {
    /// A command. A PRUNE's own is its first step, which gives the group's snapshots as GROUP does.
    Command(Command),
    /// A part of a file of the reader's snapshot, from an offset in bytes.
    ReadFile { name: FileName, offset: u64 },
    /// The blob of the piece at this entry of an index of the reader's snapshot.
    ReadChunk { name: FileName, entry: u32 },
}
