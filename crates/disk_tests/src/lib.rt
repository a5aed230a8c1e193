//! The tests of what is made over the host's files: disks over real folders, sources and sinks.
#![tactic(auto)]

#[cfg(test)]
mod asserts;
#[cfg(test)]
mod at_once;
#[cfg(test)]
mod folder;
#[cfg(test)]
mod holds;
#[cfg(test)]
mod links;
#[cfg(test)]
mod maps;
#[cfg(test)]
mod ports;
#[cfg(test)]
mod refused;
#[cfg(test)]
mod sessions;
#[cfg(test)]
mod watched;
