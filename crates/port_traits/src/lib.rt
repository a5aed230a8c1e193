//! The ends of the program as traits: what bytes come from, what they go to, the clock and the gate.
//!
//! A source and a sink count their faults, and a call of theirs fails only where that count rose.
#![tactic(auto)]

mod clock;
mod files;
mod gate;
mod memory;
mod sink;
mod source;
mod wall_clock;

pub use clock::{Clock, SetClock};
pub use files::{FileSink, FileSource};
pub use gate::{FreeGate, Gate};
pub use memory::{MemSink, MemSource};
pub use sink::{Sink, write_all_of, write_counted};
pub use source::{Failed, Source};
pub use wall_clock::WallClock;
