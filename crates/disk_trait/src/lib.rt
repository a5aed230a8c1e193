//! A disk as the store sees it: a map from names to bytes, and the images of it that a crash may leave.
#![tactic(auto)]

mod crashes;
mod disk;
mod failing;
mod memory;
mod names;
mod step_log;

pub use disk::{Disk, DiskError, Failed};
pub use failing::FailingDisk;
pub use memory::MemoryDisk;
pub use step_log::{LoggedStep, Step};
