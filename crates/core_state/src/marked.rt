//! What a collector has at hand of the index that it marks.

ghost use Rattle.core_state.specs.MarkedPage.{FitsLast};

use paged_indexes::{IndexPages, Page};

/// A page of an index, as it was read.
#[derive(Drop)]
pub struct MarkedPage {
    /// The page's number.
    pub number: u32,
    pub bytes: Page,
}

/// What is at hand of an index that is being marked.
#[derive(Drop)]
pub struct MarkedPages {
    /// What its opening kept.
    pub kept: IndexPages,
    /// The page that was read last, if one was, so that the next mark need not read it again.
    pub last: Option<MarkedPage>,
    ghost fits: { FitsLast kept last },
}
