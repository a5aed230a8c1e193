//! The acts of the collector of unused chunks: its start, its marks and visits, and its end.
//!
//! A collection marks the indexes of all snapshots that were finished as it started, 1,000 entries an act. Then it lists the
//! chunks and visits one an act: a chunk whose last touch is before the cutoff is taken out.
#![tactic(auto)]

mod act;
mod ending;
mod marking;
mod starting;
mod stepping;
mod visiting;

pub use act::collect_act;
