//! The jobs of a lane: what each asks next, by the replies to its steps so far, and what it reports in the end.
//!
//! A PRUNE asks for its group's snapshots, by its own command, and then to forget each that no option keeps, the newest
//! first. In a dry run it asks no more than the group. A snapshot that a lane holds stays, and one may be gone before;
//! any other refusal of a step is the job's report.
//!
//! A VERIFY opens a reader of its snapshot, asks for its files, reads each of them in parts and each chunk that an index names,
//! and closes the reader. What a file says is compared with what is listed of it; chunks are tested in batches, and parts of a
//! batch by threads of their own, while the next chunks are read. What is damaged or can't be read is its file's fault; any
//! other refusal of a step is the job's report, behind the step that closes the reader.
#![tactic(auto)]

mod batch;
mod chunks;
mod ending;
mod handed;
mod job;
mod judging;
mod part;
mod prune;
mod stages;
mod tested;
mod testing;
mod verify;
mod visit;

pub use job::Job;
