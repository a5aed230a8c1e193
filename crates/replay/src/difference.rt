//! The first byte at which replies differ.

/// The first byte at which replayed and kept replies differ. None where that side has ended.
#[derive(Clone, Copy, Debug, PartialEq, Eq)]
pub struct Unequal {
    pub lane: u32,
    /// The byte's place in the lane's replies, from 0.
    pub place: u64,
    pub replayed: Option<u8>,
    pub kept: Option<u8>,
}
