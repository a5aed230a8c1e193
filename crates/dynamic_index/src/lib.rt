//! Dynamic indexes: where each piece of an archive ends, and its digest.
//!
//! The file is a header of 4,096 bytes (magic number, uuid, time, checksum of the entries) and the entries, 40 bytes
//! each: the piece's end offset and its digest. A piece has 1 to 16,777,216 bytes. Numbers are little-endian.
#![tactic(auto)]

pub mod laws;
mod view;
mod writer;

pub use store_files::IndexFault;
pub use view::{BadIndex, DynamicView};
pub use writer::DynamicWriter;

/// The bytes before the entries.
pub const HEADER_SIZE: usize = 4096;

// The bytes of an entry.
const ENTRY_SIZE: usize = 40;

const MAGIC: [u8; 8] = [28, 145, 78, 165, 25, 186, 179, 205];
