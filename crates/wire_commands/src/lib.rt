//! The commands that a lane sends and the replies that it gets, as bodies of frames.
//!
//! The body of a command is its code in one byte and its fields, and nothing else. The body of a
//! reply is 0 and its fields, or the number of a refusal and the refusal's fields. A field is a
//! number, unsigned and little-endian, a digest of 32 bytes, a text behind its length in one byte,
//! a flag of 0 or 1, values behind their count in one byte or two, or, as the last, all the bytes that are left.
#![tactic(auto)]

mod command;
mod entries;
mod fields;
mod head;
pub mod laws;
mod many;
mod refusal;
mod reply;
mod rows;

pub use command::{BadFrame, Command};
pub use reply::Reply;
pub use rows::{FaultRow, FileFault, FileRow, ListRow, PruneMark, PruneRow};
