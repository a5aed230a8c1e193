//! The commands of a writer of a snapshot, from its first to its last, and the end of a lane, over the core's parts. Each does
//! the step of the plain store.
#![tactic(auto)]

mod act;
mod archives;
mod chunks;
mod ending;
mod files;
mod finishing;
mod names;
mod opening;
mod previous_files;
mod testing;
mod touching;
mod uploads;

pub use act::{end_act, writer_act};
pub use archives::{append, close_index, new_dynamic, new_fixed};
pub use chunks::chunk;
pub use ending::{abort, end};
pub use finishing::finish;
pub use opening::open_writer;
pub use previous_files::previous;
pub use uploads::blob;
