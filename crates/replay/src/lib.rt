//! A run's kept replies, compared with those of its replay.
//!
//! A replay asks the plain store in the order of a run. Its replies are the run's, byte by byte, but for the five numbers of a
//! collection's report, of which only the presence is compared.
#![tactic(auto)]

mod comparing;
mod comparison;
mod difference;
mod laws;
mod orders;
mod reading;
mod telling;

pub use comparison::{Comparison, replay};
pub use difference::Unequal;
pub use laws::clean_runs_are_replayed;
pub use orders::read_faultless;
pub use reading::{Unread, read_out};
pub use telling::line;
