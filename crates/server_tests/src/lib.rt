//! The tests of whole sessions: by `serve`, and on lanes, alone and at once; and of two seats of one store.
#![tactic(auto)]

#[cfg(test)]
mod asserts;
#[cfg(test)]
mod at_once;
#[cfg(test)]
mod gates;
#[cfg(test)]
mod hashing;
#[cfg(test)]
mod judged;
#[cfg(test)]
mod lacking;
#[cfg(test)]
mod lanes;
#[cfg(test)]
mod rounds;
#[cfg(test)]
mod seats;
#[cfg(test)]
mod serving;
#[cfg(test)]
mod stores;
#[cfg(test)]
mod talks;
#[cfg(test)]
mod unlisted;
#[cfg(test)]
mod views;
#[cfg(test)]
mod watch;
