//! The commands of a reader and the reads of a VERIFY, as acts of the core. Each does the step of the plain store.
#![tactic(auto)]

mod act;
mod chunks;
mod closing;
mod downloading;
mod entries;
mod loading;
mod opening;
mod paging;
mod ranges;
mod reading;

pub use act::reader_act;
pub use chunks::get_chunk;
pub use closing::close_reader;
pub use downloading::download;
pub use opening::open_reader;
pub use ranges::range;
pub use reading::{read_chunk, read_file};
