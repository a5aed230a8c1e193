//! The files of snapshots in the datastore folder. A file of a snapshot stands at `<type>/<id>/<time>/<file name>`.
//!
//! A snapshot is finished where its manifest stands: the manifest is put last, and goes first.
#![tactic(auto)]

mod forgetting;
mod found;
mod grouping;
mod index;
pub mod laws;
mod opening;
mod parts;
mod path;
mod putting;
mod removing;
mod scanning;
mod unfinished;

pub use forgetting::{forget, remove_files};
pub use found::{Found, read_manifest};
pub use grouping::keys_in_group;
pub use index::{IndexPart, index_kind, kind_of, open_index, read_index, read_page};
pub use opening::{Inventory, open_files};
pub use parts::{FilePart, read_part, unreadable};
pub use path::{FilePath, Stored, manifest_path_of, path_of};
pub use putting::{finish, put_file};
pub use scanning::{scan, scan_named};
