//! Names, digests, refusals and entries of the order: what every definition of the store speaks of.
#![tactic(auto)]

mod append;
mod grammar;
pub mod laws;
mod limits;
mod names;
mod order;
mod piece;
mod refusal;
mod rows;
mod times;

pub use append::AppendEntry;
pub use limits::{
    COUNT_LIMIT, ENTRY_LIMIT, FILE_LIMIT, GROUP_LIMIT, LANES, LIST_LIMIT, LISTED_LIMIT, PART_LIMIT,
    PIECE_LIMIT, RANGE_LIMIT,
};
pub use names::{BadName, Digest32, FileName, GroupKey, Keep, Kind, SnapshotKey};
pub use order::{
    COMMAND_KIND, END_KIND, Entry, FAULT_KIND, LAST_MOMENT, MEMORY_KIND, Moment, PART_KIND,
    REMOTE_FAULT_KIND, START_KIND, STOP_KIND,
};
pub use piece::Piece;
pub use refusal::{BadBlob, ChunkFault, CloseFault, Refusal, SessionState};
pub use rows::{Bytes, Rows};
pub use times::date_of_day;
