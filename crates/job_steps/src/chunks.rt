//! The chunks of an index, and what a whole file says.

ghost use Rattle.std.specs.Prelude.{◌≡◌, ◌+◌, ◌*◌, ◌≤◌, ◌^◌, vec_len};
ghost use Rattle.job_steps.specs.FaultRows.{IsFitFault};

use crate::handed::Handed;
use crate::part::Part;
use store_types::Piece;
use wire_commands::FileFault;

/// The pieces that an index names, how many of their chunks are tested or at a thread, and those behind them that wait.
#[derive(Drop)]
pub struct Chunks {
    pub entries: Vec<Piece>,
    pub tested: usize,
    pub handed: Handed,
    /// How many chunks of the batch are at a thread, and what they have together, by the index.
    pub batch_chunks: usize,
    pub batch_bytes: u64,
    pub waiting: Part,
    /// What those that wait have together, by the index.
    pub bytes: u64,
    ghost within: { tested + vec_len waiting.chunks ≤ vec_len entries },
    ghost limit: { vec_len entries ≤ 1_048_576 },
    ghost begun: { batch_chunks ≤ tested },
    ghost held: { bytes ≤ vec_len waiting.chunks * 2 ^ 32 },
    ghost batch_held: { batch_bytes ≤ batch_chunks * 2 ^ 32 },
}

/// A file's fault, and of an index how many bytes its entries have together, and each of them.
#[derive(Drop)]
pub struct Judged {
    pub fault: Option<FileFault>,
    pub bytes: u64,
    pub entries: Vec<Piece>,
    ghost count: { vec_len entries ≤ 1_048_576 },
    ghost size: { bytes ≤ 2 ^ 44 },
    ghost fits: { IsFitFault fault },
}
