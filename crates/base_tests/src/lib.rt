//! The tests of names, ports, locks, turns, prunes and files that are installed, and of formats.
#![tactic(auto)]

#[cfg(test)]
mod asserts;
#[cfg(test)]
mod crc;
#[cfg(test)]
mod formats;
#[cfg(test)]
mod install;
#[cfg(test)]
mod locks;
#[cfg(test)]
mod names;
#[cfg(test)]
mod ports;
#[cfg(test)]
mod prune;
#[cfg(test)]
mod turns;
#[cfg(test)]
mod words;
