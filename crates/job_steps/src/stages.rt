//! Where a VERIFY is in a file.

ghost use Rattle.std.specs.Prelude.{◌≡◌, ◌+◌, ◌<◌, ◌≤◌, ◌^◌, length, vec_len};
ghost use Rattle.wire_commands.specs.HasText.{FitsFileRow};
ghost use Rattle.job_steps.specs.FaultRows.{IsFitFault};
ghost use Rattle.job_steps.specs.Visits.{HasNext, IsUncounted, IsUnread, WaitsFor};

use crate::chunks::Chunks;
use crate::visit::Visit;
use wire_commands::{FileFault, FileRow};

/// A file that is read, behind these bytes of it.
#[derive(Drop)]
pub struct Reading {
    pub visit: Visit,
    pub row: FileRow,
    pub bytes: Vec<u8>,
    ghost fits: { FitsFileRow row },
    // with this file
    ghost told: { visit.files + length visit.later.items < 255 },
    // of this file no entries are counted
    ghost uncounted: { IsUncounted visit },
}

/// What a whole file says: its fault, and of an index what its entries have together, and its chunks, with room for a batch.
#[derive(Drop)]
pub struct Whole {
    pub fault: Option<FileFault>,
    pub bytes: u64,
    pub chunks: Chunks,
    ghost size: { bytes ≤ 2 ^ 44 },
    ghost fits: { IsFitFault fault },
    ghost unread: { IsUnread chunks },
}

/// An index whose chunks are read, with its file's fault so far. There is a chunk to be read.
#[derive(Drop)]
pub struct Checking {
    pub visit: Visit,
    pub row: FileRow,
    pub fault: Option<FileFault>,
    pub chunks: Chunks,
    ghost fits: { FitsFileRow row },
    ghost fault_fits: { IsFitFault fault },
    ghost told: { visit.files + length visit.later.items < 255 },
    ghost next: { HasNext chunks },
    ghost waits: { WaitsFor fault chunks },
    ghost few: { vec_len chunks.waiting.chunks < 128 },
}
