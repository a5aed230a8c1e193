//! The session of a restore as it stands in memory: which archives were downloaded, which chunks may be asked for, which
//! parts of chunks make a range. It holds digests in place of the chunks, and what is kept of an index for its pages to
//! be read in place of where each piece ends, and touches no disk.
#![tactic(auto)]

mod digests;
mod index;
pub mod laws;
mod ranges;
mod reader;

pub use index::Table;
pub use ranges::{Part, parts_of_page};
pub use reader::{Reader, open_reader};
