//! The session of a backup as it stands in memory: which chunks may be named, which indexes are open, which files there
//! are. It holds digests and lengths in place of the chunks, and touches no disk.
#![tactic(auto)]

mod entries;
mod files;
mod finishing;
mod index;
mod indexes;
mod state;
mod writer;

pub use writer::{Writer, open_writer};
