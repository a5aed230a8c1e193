//! Rows that listings share.

ghost use Rattle.listing_views.specs.Rising.{Rises, Rises-prop};

use crate::listed::Listed;

/// Rows whose keys never fall.
#[derive(Drop)]
pub struct Chunk {
    pub rows: Vec<Listed>,
    ghost rises: { Rises rows.items } by { Rises-prop rows.items },
}
