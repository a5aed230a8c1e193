//! Indexes that are read page by page, of either kind: behind a header of 4,096 bytes stand entries of one width, 32 or 40
//! bytes, and a page has 1,024 of them, the last one the rest. Of each page its opening keeps the state of the SHA-256 of
//! all entries before it, and that SHA-256 at its end: one pass gives them and the checksum of the whole.
#![tactic(auto)]

mod fault;
mod head;
mod opening;
mod page;
mod pages;
mod state;

pub use fault::PageFault;
pub use head::{Head, count_in, read_head};
pub use opening::{Body, Opening};
pub use page::Page;
pub use pages::{Pages, pages_in};
pub use state::{PageState, PageSum};
pub use store_files::IndexFault;

/// The bytes before the entries.
pub const HEADER_SIZE: u64 = 4096;

/// How many entries a page has at the most.
pub const PAGE_ENTRIES: usize = 1024;

/// How many bytes a page has at the most, at the greatest width of an entry.
pub const PAGE_LIMIT: usize = 40_960;

// How many bytes of a header are looked at.
const FRONT_SIZE: usize = 80;
