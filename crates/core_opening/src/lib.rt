//! A datastore is opened: its folder is put in order, and the core begins with what was found.
#![tactic(auto)]

mod booking;
mod cataloguing;
mod opening;

pub use opening::{NotOpened, OpenFault, open_on};
