//! Which snapshots a SYNC pulls.

ghost use Rattle.std.specs.Prelude.{◌≡◌, ◌+◌, ◌<◌, ◌≤◌, length, vec_capacity, vec_len};

use std::collections::VecDeque;
use store_types::Bytes;

/// A group that is asked for, with room for the texts of all snapshots that a group has.
#[derive(Drop)]
pub struct Seeking {
    pub group: Bytes,
    pub room: Vec<Bytes>,
    ghost empty: { vec_len room ≡ 0 },
    ghost capacity: { 4096 ≤ vec_capacity room },
}

/// What the remote has of the group, by the texts of its snapshots.
#[derive(Drop)]
pub struct Comparing {
    pub group: Bytes,
    pub remote: Vec<Bytes>,
    pub room: Vec<Bytes>,
    ghost few: { vec_len remote ≤ 4096 },
    ghost empty: { vec_len room ≡ 0 },
    ghost capacity: { 4096 ≤ vec_capacity room },
}

/// The snapshot that is pulled, those to come, and those that are pulled, by their texts. There is room for all of them.
#[derive(Drop)]
pub struct Course {
    pub snapshot: Bytes,
    pub later: VecDeque<Bytes>,
    pub pulled: Vec<Bytes>,
    ghost few: { vec_len pulled + length later.items < 4096 },
    ghost capacity: { 4096 ≤ vec_capacity pulled },
}
