//! A SYNC: what it asks next, of the store and of the remote, by all replies so far, and what it reports in the end.
//!
//! It asks what the remote has of its group, and then what is here of it. Of the remote's snapshots that are later than the
//! newest here, the oldest first, each is pulled: it asks for a writer, reads the manifest, and for each file that this
//! lists, in the manifest's order, reads the file whole and sends it. Of an index each chunk is read and sent at the first
//! use of its digest in the snapshot, and then its entries are appended. At each use the chunk has the length that the index
//! gives the entry. The manifest goes last. The first refusal is the report, behind the step that ends the writer; what was
//! pulled before stays.
#![tactic(auto)]

mod ask;
mod course;
mod ending;
mod files;
mod index;
mod pull;
mod sending;
mod stages;
mod starting;

pub use ask::Ask;
pub use pull::Pull;
