//! Sessions that the program makes itself: for a lane of its own four collections, and for each other four snapshots of
//! one group, whose pieces are half its own and half those of all, with what verifies, forgets and prunes them.
//!
//! The same lane has the same bytes in each run, so two stores that serve them can be compared by what they reply.
#![tactic(auto)]

mod laws;
mod manifest;
mod pieces;
mod session;
mod summaries;

pub use laws::inputs_are_sessions;
pub use pieces::piece;
pub use session::generate;
pub use summaries::summary;
