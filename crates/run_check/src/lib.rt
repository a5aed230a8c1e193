//! A run is checked: it is replayed on the plain store, and its replies are compared with those that were kept.
#![tactic(auto)]

mod checking;
mod disks;
mod fault;
mod ports;

pub use checking::{Compared, check_run};
pub use fault::CheckFault;
