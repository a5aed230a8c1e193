//! The chunks that a writer may name, each with its length.
#![tactic(auto)]

mod known;
mod pool;

pub use known::Known;
pub use pool::Pool;
