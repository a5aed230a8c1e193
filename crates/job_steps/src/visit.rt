//! What a VERIFY has read so far.

ghost use Rattle.std.specs.Prelude.{◌≡◌, ◌+◌, ◌*◌, ◌≤◌, ◌^◌, length, vec_capacity, vec_len, All, IfOk};
ghost use Rattle.wire_commands.specs.HasText.{FitsFileRow};
ghost use Rattle.store_model.specs.FaultRows.{IsFitRow};

use std::alloc::{AllocError, Global};
use std::collections::VecDeque;
use store_types::Bytes;
use wire_commands::{FaultRow, FileRow};

/// How many files a reply to FILES has at most.
const FILES_TOLD: usize = 255;

/// A snapshot that is to be verified, with room for the faults of all its files.
#[derive(Drop)]
pub struct Opening {
    pub snapshot: Bytes,
    pub room: Vec<FaultRow>,
    ghost empty: { vec_len room ≡ 0 },
    ghost capacity: { 255 ≤ vec_capacity room },
}

impl Opening {
    pub fn new(alloc: Global, snapshot: &[u8]) -> Result<Opening, AllocError>
        ensures { IfOk result (λ o. o.snapshot ≡ snapshot.now) }
    {
        Ok(Opening {
            snapshot: Bytes::from_slice(alloc, snapshot)?,
            room: Vec::with_capacity(alloc, FILES_TOLD)?,
        })
    }
}

/// A snapshot, what was counted of it so far, the files with a fault, and the files to come. Where a file is at hand, one more than
/// these is read.
#[derive(Drop)]
pub struct Visit {
    pub snapshot: Bytes,
    pub files: u8,
    pub entries: u64,
    /// What the entries have together.
    pub bytes: u64,
    pub faults: Vec<FaultRow>,
    pub later: VecDeque<FileRow>,
    ghost told: { files + length later.items ≤ 255 },
    ghost few: { length faults.items ≤ files },
    ghost room: { 255 ≤ vec_capacity faults },
    // an index has at most 2^20 entries, of at most 2^24 bytes each; that at hand may be counted
    ghost entries_few: { entries ≤ (files + 1) * 2 ^ 20 },
    ghost bytes_few: { bytes ≤ (files + 1) * 2 ^ 44 },
    ghost spelled: { All IsFitRow faults.items },
    ghost listed: { All FitsFileRow later.items },
}
