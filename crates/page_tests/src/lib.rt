//! The tests of indexes that are read page by page.
#![tactic(auto)]

#[cfg(test)]
mod asserts;
#[cfg(test)]
mod dynamic;
#[cfg(test)]
mod entries;
#[cfg(test)]
mod fixed;
#[cfg(test)]
mod fixtures;
#[cfg(test)]
mod reader;
#[cfg(test)]
mod states;
