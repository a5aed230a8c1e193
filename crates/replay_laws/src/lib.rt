//! What a replay of sessions that were served tells.
//!
//! Where each lane ended cleanly and the disk did not fail, the replay's replies are those that the lanes told, byte by byte, but
//! for the five numbers of a collection's report.
#![tactic(auto)]

mod laws;

pub use laws::clean_runs_replay_equal;
