//! Fixed indexes: the digests of an archive's pieces, which all have one length but for the last.
//!
//! The file is a header of 4,096 bytes (magic number, uuid, time, checksum of the digests, the archive's size, the
//! length of a piece) and the digests, 32 bytes each. Numbers are little-endian.
#![tactic(auto)]

pub mod laws;
mod sizes;
mod view;
mod writer;

pub use sizes::{is_chunk_size, piece_count};
pub use store_files::IndexFault;
pub use view::{BadIndex, FixedView};
pub use writer::FixedWriter;

/// The bytes before the digests.
pub const HEADER_SIZE: usize = 4096;

const MAGIC: [u8; 8] = [47, 127, 65, 237, 145, 253, 15, 205];
