//! The tests of the core: acts on it, one after another and as one list, and what it keeps.
#![tactic(auto)]

#[cfg(test)]
mod acts;
#[cfg(test)]
mod admin;
#[cfg(test)]
mod asserts;
#[cfg(test)]
mod beside;
#[cfg(test)]
mod books;
#[cfg(test)]
mod cases;
#[cfg(test)]
mod collecting;
#[cfg(test)]
mod damage;
#[cfg(test)]
mod dispatch;
#[cfg(test)]
mod faults;
#[cfg(test)]
mod fixtures;
#[cfg(test)]
mod folders;
#[cfg(test)]
mod indexes;
#[cfg(test)]
mod opening;
#[cfg(test)]
mod pages;
#[cfg(test)]
mod reader;
#[cfg(test)]
mod sent;
#[cfg(test)]
mod state;
#[cfg(test)]
mod stopped;
#[cfg(test)]
mod writer;
