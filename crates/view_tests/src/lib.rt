//! The tests of listings that are shown.
#![tactic(auto)]

#[cfg(test)]
mod rows;
