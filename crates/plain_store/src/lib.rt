//! The plain store as running code: each call does what the definitions of the plain store say, by
//! their words and in their order. It is slow, and uses nothing of the core that it is compared
//! with: they share the formats, names, frames and commands, and the definitions.
#![tactic(auto)]

mod admin_steps;
mod archive_steps;
mod frees;
mod heads;
mod loading;
mod parts;
mod plain;
mod reader_steps;
mod run;
mod sync_steps;
mod weave;
mod writer_steps;

pub use frees::Free;
pub use plain::Plain;
pub use weave::{Misfit, Replayed, Woven};
