//! An index of the remote, as it is sent.

ghost use Rattle.std.specs.Prelude.{◌≡◌, ◌<◌, vec_len, IfOk};
ghost use Rattle.store_history.specs.Pulling as model;
ghost use Rattle.pull_steps.specs.Indexes.{GivesIndex, end_at, fits_at};

use crate::stages::Index;
use blob_codec::HEADER_SIZE;
use dynamic_index::DynamicView;
use fixed_index::FixedView;
use std::alloc::{AllocError, Global};
use store_types::{AppendEntry, FileName};

fn fixed_entries(alloc: Global, view: &FixedView) -> Result<Vec<AppendEntry>, AllocError>
    ensures { IfOk result
        (λ entries. entries.items ≡ model.fixed_entries view.now.chunk_size 0 view.now.digests) }
{
    let mut entries = Vec::with_capacity(alloc, view.len() as usize)?;
    for i in 0..view.len() {
        entries.push_reserved(AppendEntry {
            digest: view.digest(i),
            offset: view.span(i).0,
        });
    }
    Ok(entries)
}

fn dynamic_entries(alloc: Global, view: &DynamicView) -> Result<Vec<AppendEntry>, AllocError>
    ensures { IfOk result (λ entries. entries.items ≡ model.dynamic_entries 0 view.now.entries) }
{
    let mut entries = Vec::with_capacity(alloc, view.len() as usize)?;
    for i in 0..view.len() {
        entries.push_reserved(AppendEntry {
            digest: view.digest(i),
            offset: view.span(i).0,
        });
    }
    Ok(entries)
}

/// The fixed index that the bytes are, or `None` where they are none.
fn fixed_in(alloc: Global, name: &FileName, bytes: &[u8]) -> Result<Option<Index>, AllocError>
    ensures { GivesIndex result (model.fixed_in name.now bytes.now) }
{
    let Ok(view) = FixedView::open_on(bytes) else {
        return Ok(None);
    };
    let entries = fixed_entries(alloc, &view)?;
    Ok(Some(Index {
        name: name.clone()?,
        chunk_size: Some(view.chunk_size()),
        entries,
        size: view.size(),
        csum: view.csum(),
    }))
}

/// The dynamic index that they are.
fn dynamic_in(alloc: Global, name: &FileName, bytes: &[u8]) -> Result<Option<Index>, AllocError>
    ensures { GivesIndex result (model.dynamic_in name.now bytes.now) }
{
    let Ok(view) = DynamicView::open_on(bytes) else {
        return Ok(None);
    };
    let entries = dynamic_entries(alloc, &view)?;
    Ok(Some(Index {
        name: name.clone()?,
        chunk_size: None,
        entries,
        size: view.size(),
        csum: view.csum(),
    }))
}

/// The index of this name that the bytes are.
pub fn index_in(alloc: Global, name: &FileName, bytes: &[u8]) -> Result<Option<Index>, AllocError>
    ensures { GivesIndex result (model.index_in name.now bytes.now) }
{
    if name.is_fixed() {
        fixed_in(alloc, name, bytes)
    } else {
        dynamic_in(alloc, name, bytes)
    }
}

impl Index {
    /// Where the piece of the entry at a place ends in the archive.
    fn end(&self, place: usize) -> u64
        requires { place < vec_len self.now.entries }
        ensures { result ≡ end_at self.now place }
    {
        if place + 1 < self.entries.len() {
            return self.entries[place + 1].offset;
        }
        self.size
    }

    /// A blob of this size in bytes is as long as the index gives the piece of the entry at a place.
    pub fn fits(&self, place: usize, size: u64) -> bool
        requires { place < vec_len self.now.entries }
        ensures { result ≡ fits_at self.now place size }
    {
        let length = self.end(place).saturating_sub(self.entries[place].offset);
        size >= HEADER_SIZE as u64 && size - HEADER_SIZE as u64 == length
    }
}
