//! Rows in chunks, one after another. Lists of the same chunks share them.

ghost use Rattle.std.specs.Prelude.{◌≡◌, ◌≤◌, ◌++◌, length, IfOk, OnOk};
ghost use Rattle.listing_views.specs.Rising.{Rises};
ghost use Rattle.listing_views.specs.Rows.{GoesInto, all_rows, insert_row, lent_key, rows_behind as first_behind, rows_without};

use crate::chunk::Chunk;
use crate::listed::Listed;
use crate::rows;
use std::alloc::{AllocError, Global};
use std::mem;
use std::sync::Arc;
use store_types::{Rows, SnapshotKey};

/// Rows, in chunks that others may share.
pub type Chunks = Vec<Arc<Chunk>>;

/// These rows, in chunks of which none falls.
pub(crate) fn chunks_of(alloc: Global, listed: Vec<Listed>) -> Result<Chunks, AllocError>
    ensures { IfOk result (λ chunks. all_rows chunks.items ≡ listed.items) }
{
    let mut chunks = Vec::new(alloc);
    let mut open = Vec::new(alloc);
    for row in listed {
        if !rows::may_follow(&open, &row) {
            let full = mem::replace(&mut open, Vec::new(alloc));
            chunks.push(Arc::new(alloc, Chunk { rows: full })?)?;
        }
        open.push(row)?;
    }
    chunks.push(Arc::new(alloc, Chunk { rows: open })?)?;
    Ok(chunks)
}

/// Puts these chunks behind others, which then share them.
fn share(into: &mut Chunks, chunks: &[Arc<Chunk>]) -> Result<(), AllocError>
    ensures { OnOk result (all_rows into.new.items
        ≡ all_rows into.old.items ++ all_rows chunks.now) }
{
    for chunk in chunks {
        into.push(Arc::try_clone(chunk)?)?;
    }
    Ok(())
}

/// Where the chunk stands into which a row of this key goes: the first that has a row behind it, or the last.
fn place_for(chunks: &[Arc<Chunk>], key: &SnapshotKey) -> usize
    ensures { GoesInto key.now chunks.now result }
{
    for (index, chunk) in chunks.iter().enumerate() {
        if rows::any_behind(&chunk.rows, key) {
            return index;
        }
    }
    chunks.len().saturating_sub(1)
}

/// Puts rows behind others, in one chunk, or in two where they are too many for one.
fn push_rows(alloc: Global, into: &mut Chunks, mut listed: Vec<Listed>) -> Result<(), AllocError>
    requires rises { Rises listed.items }
    ensures { OnOk result (all_rows into.new.items ≡ all_rows into.old.items ++ listed.items) }
{
    if listed.len() > rows::MOST {
        let back = listed.split_off(rows::MOST / 2)?;
        into.push(Arc::new(alloc, Chunk { rows: listed })?)?;
        into.push(Arc::new(alloc, Chunk { rows: back })?)?;
    } else {
        into.push(Arc::new(alloc, Chunk { rows: listed })?)?;
    }
    Ok(())
}

/// These rows and one more, at its place.
pub(crate) fn with(alloc: Global, chunks: &[Arc<Chunk>], row: Listed) -> Result<Chunks, AllocError>
    ensures { IfOk result (λ next. all_rows next.items ≡ insert_row row (all_rows chunks.now)) }
{
    let place = place_for(chunks, &row.key);
    let (front, back) = chunks.split_at(place);
    let mut next = Vec::new(alloc);
    share(&mut next, front)?;
    match back.split_first() {
        Some((chunk, back)) => {
            push_rows(alloc, &mut next, rows::with_row(alloc, &chunk.rows, row)?)?;
            share(&mut next, back)?;
        }
        None => push_rows(alloc, &mut next, rows::with_row(alloc, &[], row)?)?,
    }
    Ok(next)
}

/// These rows without those of a key.
pub(crate) fn without(
    alloc: Global,
    chunks: &[Arc<Chunk>],
    key: &SnapshotKey,
) -> Result<Chunks, AllocError>
    ensures { IfOk result (λ next. all_rows next.items
        ≡ rows_without key.now (all_rows chunks.now)) }
{
    let mut next = Vec::new(alloc);
    for chunk in chunks {
        if rows::may_have(&chunk.rows, key) {
            let rest = rows::without(alloc, &chunk.rows, key)?;
            if !rest.is_empty() {
                next.push(Arc::new(alloc, Chunk { rows: rest })?)?;
            }
        } else {
            next.push(Arc::try_clone(chunk)?)?;
        }
    }
    Ok(next)
}

/// The first 1,024 rows behind a key, or of all.
pub(crate) fn behind(
    alloc: Global,
    chunks: &[Arc<Chunk>],
    after: Option<&SnapshotKey>,
) -> Result<Rows<Listed>, AllocError>
    ensures { IfOk result (λ told. told
        ≡ first_behind (lent_key after.entry) (all_rows chunks.now)) }
{
    let mut told = Vec::new(alloc);
    for chunk in chunks {
        if rows::may_tell(&chunk.rows, after) {
            rows::tell(&mut told, &chunk.rows, after)?;
        }
    }
    Ok(Rows::from_vec(told))
}
