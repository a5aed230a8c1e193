//! A disk over a real folder: a file for each name. Nothing is told of its content.
#![tactic(auto)]

mod changes;
mod file_disk;
mod folder;
mod paths;
mod root;
mod syncs;
mod walk;

pub use file_disk::FileDisk;
pub use root::LockFile;
pub use syncs::{AtOnce, SyncFolders, sync_each};
