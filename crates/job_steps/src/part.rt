//! The chunks of an index that were read and are to be tested.

ghost use Rattle.std.specs.Prelude.{◌≡◌, ◌+◌, ◌≤◌, length, vec_capacity, vec_len};

use store_types::{Bytes, Piece};

/// A chunk that was read, and is to be tested with its batch. It is as long as its index says: so a batch holds no more than that.
#[derive(Drop)]
pub struct Waiting {
    pub piece: Piece,
    pub blob: Bytes,
    /// It is the blob of the piece. It tells nothing before the test.
    pub is_whole: bool,
    ghost fits: { length piece.digest.0 ≡ 32 },
    ghost sized: { length blob ≡ piece.length + 12 },
}

/// Chunks of a batch, one behind another, with room for as many as one thread tests.
#[derive(Drop)]
pub struct Part {
    pub chunks: Vec<Waiting>,
    ghost few: { vec_len chunks ≤ 128 },
    ghost room: { 128 ≤ vec_capacity chunks },
}
