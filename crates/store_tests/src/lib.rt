//! The tests of a writer's session in memory, and of chunks and files on a disk.
#![tactic(auto)]

#[cfg(test)]
mod asserts;
#[cfg(test)]
mod backup;
#[cfg(test)]
mod chunks;
#[cfg(test)]
mod faults;
#[cfg(test)]
mod fixtures;
#[cfg(test)]
mod opening;
#[cfg(test)]
mod snapshots;
#[cfg(test)]
mod stored;
