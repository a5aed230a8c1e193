//! Fixed and dynamic indexes that are read page by page: of at most 1,024 entries at a time, where a view needs the whole
//! text.
#![tactic(auto)]

mod dynamic;
mod fixed;
mod index;
mod kinds;
pub mod laws;
mod pieces;
mod reading;
mod steps;
mod taking;

pub use dynamic::DynamicPages;
pub use fixed::FixedPages;
pub use index::IndexPages;
pub use index_pages::{IndexFault, Page, PageFault};
pub use kinds::{IndexEntry, IndexKind};
pub use taking::{Nothing, TakesEntries};
