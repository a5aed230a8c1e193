//! Manifests: the JSON that lists a snapshot's files, read, and compared with what a session uploaded.
#![tactic(auto)]

mod checking;
mod facts;
mod fields;
mod reading;

pub use checking::check;
pub use facts::{BadManifest, FileFact, Manifest, Mismatch};
pub use reading::read;
