//! One listing of snapshots that many views read without waiting, with the length of the history that it is of.
#![tactic(auto)]

mod chunk;
mod chunks;
mod listed;
mod listing;
mod poster;
mod rows;
mod story;
mod viewer;

pub use chunk::Chunk;
pub use chunks::Chunks;
pub use listed::Listed;
pub use listing::Listing;
pub use poster::Poster;
pub use story::{Lawful, Story, Whole};
pub use viewer::Viewer;
