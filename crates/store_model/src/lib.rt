//! The plain store: snapshots with all their bytes, and what each command does to them. There is no code here but the types and the
//! most bytes that a file may have.
#![tactic(auto)]

mod ending;
mod limits;
mod step;

pub use ending::Ending;
pub use limits::{BLOB_LIMIT, size_limit};
pub use step::Step;
