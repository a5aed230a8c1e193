//! The tests of the plain store and of jobs: snapshots that are read; lanes that are woven, collections and jobs among them; prunes and
//! verifies step by step; and replies that were kept, compared with a replay's.
#![tactic(auto)]

#[cfg(test)]
mod asserts;
#[cfg(test)]
mod folders;
#[cfg(test)]
mod loading;
#[cfg(test)]
mod order;
#[cfg(test)]
mod prunes;
#[cfg(test)]
mod pulls;
#[cfg(test)]
mod reading;
#[cfg(test)]
mod replays;
#[cfg(test)]
mod steps;
#[cfg(test)]
mod verifies;
#[cfg(test)]
mod weaving;
