//! Chunks on the disk: a map from digests to pieces. Under a digest stands the blob of the piece that has this
//! SHA-256, in a file of its own.
//!
//! A piece has 1 to 16,777,216 bytes. What a file holds is tested whenever it is loaded.
#![tactic(auto)]

mod chunk;
mod listing;
mod name;
mod store;

pub use chunk::{Chunk, LoadFault, test};
pub use listing::{digests_named, scan};
pub use name::ChunkName;
pub use store::{insert, insert_blob, load, read, remove};
