//! An open index, of a dynamic or of a fixed archive.

ghost use Rattle.std.specs.Prelude.{◌≡◌, ◌*◌, ◌≤◌, IfOk, OnOk, OnErr};
ghost use Rattle.store_model.specs.Archives.{fits_layout};
ghost use Rattle.backup_session.specs.Indexes.{layout_view, layout_of, count_of, end_of, csum_of, text_of, with_pieces, FitsPieces, IsFull};

use dynamic_index::DynamicWriter;
use fixed_index::FixedWriter;
use std::alloc::{AllocError, Global};
use store_types::{Digest32, Piece};

/// How an archive is cut into pieces.
#[derive(Clone, Copy)]
pub enum Layout {
    /// Anywhere.
    Dynamic,
    /// At each multiple of the chunk size, up to the size.
    Fixed { size: u64, chunk_size: u64 },
}

impl Layout {
    /// A piece of this length fits at the end reached so far.
    pub fn fits(self, end: u64, length: u32) -> bool
        ensures { result ≡ fits_layout (layout_view self) end length }
    {
        match self {
            Layout::Dynamic => true,
            Layout::Fixed { size, chunk_size } => {
                length as u64 == chunk_size.min(size.saturating_sub(end))
            }
        }
    }
}

/// An index as it is written.
#[derive(Drop)]
pub enum OpenIndex {
    Dynamic(DynamicWriter),
    Fixed(FixedWriter),
}

impl OpenIndex {
    pub fn layout(&self) -> Layout
        ensures { layout_view result ≡ layout_of self.now }
    {
        match self {
            OpenIndex::Dynamic(_) => Layout::Dynamic,
            OpenIndex::Fixed(index) => Layout::Fixed {
                size: index.size(),
                chunk_size: index.chunk_size(),
            },
        }
    }

    /// How many pieces there are so far.
    pub fn len(&self) -> u32
        ensures { result ≡ count_of self.now }
    {
        match self {
            OpenIndex::Dynamic(index) => index.len(),
            OpenIndex::Fixed(index) => index.len(),
        }
    }

    /// Where they end.
    pub fn end(&self) -> u64
        ensures value { result ≡ end_of self.now }
        ensures limit { result ≤ 1_048_576 * 16_777_216 }
    {
        match self {
            OpenIndex::Dynamic(index) => index.end(),
            OpenIndex::Fixed(index) => index.end(),
        }
    }

    /// The next pieces, for which there is room. At want of memory nothing has changed.
    pub fn append_all(&mut self, alloc: Global, pieces: &[Piece]) -> Result<(), AllocError>
        requires { FitsPieces self.old pieces.now }
        ensures ok { OnOk result (self.new ≡ with_pieces pieces.now self.old) }
        ensures err { OnErr result (self.new ≡ self.old) }
    {
        match self {
            OpenIndex::Dynamic(index) => index.append_all(alloc, pieces),
            OpenIndex::Fixed(index) => index.append_all(alloc, pieces),
        }
    }

    /// The number of pieces, where they end, and the index's checksum. It takes no memory.
    pub fn facts(&self) -> (u32, u64, Digest32)
        ensures pieces { result.0 ≡ count_of self.now }
        ensures end { result.1 ≡ end_of self.now }
        ensures csum { result.2 ≡ csum_of self.now }
    {
        match self {
            OpenIndex::Dynamic(index) => index.facts(),
            OpenIndex::Fixed(index) => index.facts(),
        }
    }

    /// The file's text, where the pieces of a fixed archive reach its size.
    pub fn close(&self, alloc: Global) -> Result<Vec<u8>, AllocError>
        requires { IsFull self.now }
        ensures { IfOk result (λ text. text.items ≡ text_of self.now) }
    {
        match self {
            OpenIndex::Dynamic(index) => index.close(alloc),
            OpenIndex::Fixed(index) => index.close(alloc),
        }
    }
}
