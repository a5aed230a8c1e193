//! A lane: one command session, from the bytes of a source to the bytes of a sink.
#![tactic(auto)]

mod acts;
mod collecting;
mod commands;
mod ending;
mod hashing;
mod input;
mod jobs;
mod lanes;
mod pulling;
mod run;
mod serves;
mod task;
mod together;

pub use lanes::Reports;
pub use run::{run_lane, run_with};
pub use store_model::Ending;
pub use together::serve_all;
