//! The order of a run's acts, as a file.
//!
//! The file is `PBSORDER`, and for each entry the lane as a u32, the moment as a u64 and the kind as a byte. Numbers are
//! little-endian.
#![tactic(auto)]

mod laws;
mod progress;
mod reading;
mod writing;

pub use laws::{what_is_read_has_one_spelling, what_is_written_is_read};
pub use reading::read_order;
pub use writing::put_order;

const MAGIC: [u8; 8] = *b"PBSORDER";

/// The bytes of an entry.
const ENTRY_SIZE: usize = 13;
