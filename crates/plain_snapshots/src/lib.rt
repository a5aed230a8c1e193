//! Snapshots with all their bytes, as the definitions of the plain store have them, the reading of a datastore's, and
//! what is told of them.
//! It is slow, and shares no code above the file formats with the store that it is compared with.
#![tactic(auto)]

mod archive;
mod blob;
mod file;
mod indexes;
mod key;
mod listing;
mod loading;
mod pieces;
mod pulling;
mod snapshot;
mod stored;

pub use archive::{Archive, Layout, end_of};
pub use blob::BlobData;
pub use file::{Content, File, file_named, insert_file, manifest_data};
pub use key::PlainKey;
pub use listing::{facts_in, files_reply, keys_reply, list_reply};
pub use loading::read_snapshots;
pub use pulling::{later_than, members, newest_told};
pub use snapshot::{
    Snapshot, count_in, insert_snapshot, latest_in, remove_snapshot, snapshot_named,
};
