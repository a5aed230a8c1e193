//! What a VERIFY has read so far.

ghost use Rattle.std.specs.Prelude.{◌≤◌, length, All};
ghost use Rattle.wire_commands.specs.HasText.{FitsFileRow};
ghost use Rattle.store_model.specs.FaultRows.{IsFitRow};

use std::collections::VecDeque;
use store_types::Bytes;
use wire_commands::{FaultRow, FileRow};

/// A snapshot, what was counted of it so far, the files with a fault, and the files to come.
#[derive(Drop)]
pub struct Visit {
    pub snapshot: Bytes,
    pub files: u8,
    pub entries: u64,
    /// What the entries have together.
    pub bytes: u64,
    pub faults: Vec<FaultRow>,
    pub later: VecDeque<FileRow>,
    ghost few: { length faults.items ≤ files },
    ghost spelled: { All IsFitRow faults.items },
    ghost listed: { All FitsFileRow later.items },
}
