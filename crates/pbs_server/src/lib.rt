//! The program's call: sessions are served on a datastore, and all that was handed in is handed back.
#![tactic(auto)]

mod asking;
mod checking;
mod ended;
mod generating;
mod input;
pub mod laws;
mod run;
mod saving;
mod served;
mod serving;
mod status;
mod summing;
mod telling;

pub use command_line::{Plan, WordFault, plan_words};
pub use replay::Unequal;
pub use served::{RunReport, Served};
pub use serving::serve;
pub use status::Status;
