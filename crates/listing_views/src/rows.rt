//! What is done with the rows of one chunk.

ghost use Rattle.std.specs.Prelude.{◌≡◌, ◌≤◌, ◌++◌, ◌∷◌, [], false, true, take, filter, length, position, IfOk, OnOk};
ghost use Rattle.store_types.specs.Names.{key_lt};
ghost use Rattle.listing_views.specs.Rising.{Rises};
ghost use Rattle.listing_views.specs.Rows.{any_behind as has_behind, insert_row, is_behind as is_behind_key, lent_key, rows_without as without_key};

use crate::listed::Listed;
use std::alloc::{AllocError, Global};
use store_types::{LIST_LIMIT, SnapshotKey};

/// A chunk has at most so many rows. A change of the listing copies one chunk, and the list of all.
pub(crate) const MOST: usize = 256;

/// The row may stand behind these in one chunk.
pub(crate) fn may_follow(rows: &[Listed], row: &Listed) -> bool
    ensures { result ≡ true → Rises rows.now → Rises (rows.now ++ row.now ∷ []) }
{
    match rows.last() {
        Some(last) => rows.len() < MOST && !(row.key < last.key),
        None => true,
    }
}

/// One of the rows is behind the key.
pub(crate) fn any_behind(rows: &[Listed], key: &SnapshotKey) -> bool
    requires rises { Rises rows.now }
    ensures { result ≡ has_behind key.now rows.now }
{
    match rows.last() {
        Some(last) => *key < last.key,
        None => false,
    }
}

/// The key is not before, and not behind, all rows.
pub(crate) fn may_have(rows: &[Listed], key: &SnapshotKey) -> bool
    requires rises { Rises rows.now }
    ensures { result ≡ false → without_key key.now rows.now ≡ rows.now }
{
    match (rows.first(), rows.last()) {
        (Some(first), Some(last)) => !(*key < first.key) && !(last.key < *key),
        _ => false,
    }
}

/// Where the first row stands that is behind the key.
fn first_behind(rows: &[Listed], key: &SnapshotKey) -> Option<usize>
    ensures { result ≡ position (λ x. key_lt key.now x.key) rows.now }
{
    rows.iter().position(|row| *key < row.key)
}

/// Copies of the rows, with one more at its place.
pub(crate) fn with_row(
    alloc: Global,
    rows: &[Listed],
    row: Listed,
) -> Result<Vec<Listed>, AllocError>
    requires rises { Rises rows.now }
    ensures value { IfOk result (λ x. x.items ≡ insert_row row rows.now) }
    ensures rises { IfOk result (λ x. Rises x.items) }
{
    let place = first_behind(rows, &row.key).unwrap_or(rows.len());
    let mut all = Vec::new(alloc);
    for copied in rows {
        all.push(copied.clone()?)?;
    }
    all.insert(place, row)?;
    Ok(all)
}

/// Copies of the rows, but of those with the key.
pub(crate) fn without(
    alloc: Global,
    rows: &[Listed],
    key: &SnapshotKey,
) -> Result<Vec<Listed>, AllocError>
    requires rises { Rises rows.now }
    ensures value { IfOk result (λ x. x.items ≡ without_key key.now rows.now) }
    ensures rises { IfOk result (λ x. Rises x.items) }
{
    let mut rest = Vec::new(alloc);
    for row in rows {
        if row.key != *key {
            rest.push(row.clone()?)?;
        }
    }
    Ok(rest)
}

/// The row is behind the key, if there is one.
fn is_behind(row: &Listed, after: Option<&SnapshotKey>) -> bool
    ensures { result ≡ is_behind_key (lent_key after.entry) row.now }
{
    match after {
        Some(key) => *key < row.key,
        None => true,
    }
}

/// One of the rows is behind the key, if there is one.
pub(crate) fn may_tell(rows: &[Listed], after: Option<&SnapshotKey>) -> bool
    requires rises { Rises rows.now }
    ensures { result ≡ false → filter (is_behind_key (lent_key after.entry)) rows.now ≡ [] }
{
    match after {
        Some(key) => any_behind(rows, key),
        None => true,
    }
}

/// Puts copies of the rows behind the key behind others, up to as many as a listing tells at once.
pub(crate) fn tell(
    told: &mut Vec<Listed>,
    rows: &[Listed],
    after: Option<&SnapshotKey>,
) -> Result<(), AllocError>
    requires few { length told.old.items ≤ LIST_LIMIT }
    ensures { OnOk result (told.new.items
        ≡ take LIST_LIMIT (told.old.items
        ++ filter (is_behind_key (lent_key after.entry)) rows.now)) }
{
    for row in rows {
        if told.len() >= LIST_LIMIT {
            return Ok(());
        }
        if is_behind(row, after) {
            told.push(row.clone()?)?;
        }
    }
    Ok(())
}
