//! The words of the command line, as `clap` reads them, and what they ask for.
#![tactic(auto)]

mod plan;
mod program;
mod reading;

pub use plan::{Plan, WordFault};
pub use reading::plan_words;
