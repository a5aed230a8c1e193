//! The acts that read the remote, for a SYNC: what it has of a group, a part of a file, and a chunk.
#![tactic(auto)]

mod act;
mod reading;
mod refusing;

pub use act::remote_act;
