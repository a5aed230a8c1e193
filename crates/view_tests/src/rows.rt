//! Rows that come and go, as a viewer sees them.

ghost use Rattle.std.specs.Prelude.{◌≡◌, [], Ok};
ghost use Rattle.left_right.specs.Sides.{view};

use listing_views::{Chunks, Lawful, Listed, Listing, Poster, Viewer};
use std::alloc::{AllocError, Global};
use std::fmt::Debug;
use std::process::Abort;
use std::sync::{Arc, Wait};
use store_types::{Bytes, Kind, SnapshotKey};

/// Any rows may be shown after any history.
struct Any;

impl Lawful for Any {
    ghost is = { λ _ _. Unit {0} };
}

/// So many rows stand in more than eight chunks.
const ROWS: u64 = 2_400;

fn must<T, E: Debug + Drop>(rt: &impl Abort, outcome: Result<T, E>) -> T
    ensures { outcome ≡ Ok result }
{
    outcome.expect(rt, "a call that is to succeed")
}

fn same_numbers(rt: &impl Abort, found: &[u64], want: &[u64]) {
    let is_same = found == want;
    let shown = (found, want);
    assert!(rt; is_same, "{shown:?}");
}

fn key_at(alloc: Global, time: u64) -> Result<SnapshotKey, AllocError> {
    Ok(SnapshotKey {
        kind: Kind::Host,
        id: Bytes::from_slice(alloc, b"a")?,
        time,
    })
}

fn row_at(alloc: Global, time: u64) -> Result<Listed, AllocError> {
    Ok(Listed {
        key: key_at(alloc, time)?,
        damaged: false,
        files: 1,
    })
}

/// The rows of the even times.
fn even_rows(alloc: Global) -> Result<Vec<Listed>, AllocError> {
    let mut rows = Vec::new(alloc);
    for half in 0..ROWS / 2 {
        rows.push(row_at(alloc, 2 * half)?)?;
    }
    Ok(rows)
}

/// Shows rows of the history without events.
fn show(rt: &impl Wait, poster: Poster<Any>, chunks: Arc<Chunks>) -> Poster<Any>
    requires { view poster.writer.desk.place ≡ [] }
    ensures { view result.writer.desk.place ≡ [] }
{
    poster.post(rt, Listing { chunks, count: 0 })
}

/// How many rows are shown behind a time, the first's time and the last's.
fn told(rt: &impl Abort, alloc: Global, viewer: &mut Viewer<Any>, after: Option<u64>) -> [u64; 3] {
    let listing = must(rt, viewer.list(0));
    let key = after.map(|time| must(rt, key_at(alloc, time)));
    let rows = must(rt, listing.behind(alloc, key.as_ref()));
    let rows = rows.as_slice();
    let first = rows.first().map_or(0, |row| row.key.time);
    let last = rows.last().map_or(0, |row| row.key.time);
    [rows.len() as u64, first, last]
}

/// The odd ones come, one after another; then those of every third time go. A viewer that asks for more events than there are has
/// no listing.
#[test]
fn rows_come_and_go(rt: HostRuntime) {
    let alloc = rt.alloc();
    let mut poster = must(
        &rt,
        Poster::<Any>::make(&rt, alloc, must(&rt, even_rows(alloc)), 1),
    );
    let mut viewer = must(&rt, Viewer::make(&poster));
    same_numbers(
        &rt,
        &told(&rt, alloc, &mut viewer, None),
        &[1_024, 0, 2_046],
    );
    for half in 0..ROWS / 2 {
        let row = must(&rt, row_at(alloc, 2 * half + 1));
        let next = must(&rt, poster.shown().with(alloc, row));
        poster = show(&rt, poster, next);
    }
    same_numbers(
        &rt,
        &told(&rt, alloc, &mut viewer, None),
        &[1_024, 0, 1_023],
    );
    same_numbers(
        &rt,
        &told(&rt, alloc, &mut viewer, Some(2_000)),
        &[399, 2_001, 2_399],
    );
    for third in 0..ROWS / 3 {
        let key = must(&rt, key_at(alloc, 3 * third));
        let next = must(&rt, poster.shown().without(alloc, &key));
        poster = show(&rt, poster, next);
    }
    same_numbers(
        &rt,
        &told(&rt, alloc, &mut viewer, None),
        &[1_024, 1, 1_535],
    );
    same_numbers(
        &rt,
        &told(&rt, alloc, &mut viewer, Some(2_396)),
        &[2, 2_398, 2_399],
    );
    same_numbers(&rt, &[u64::from(viewer.list(1).is_ok())], &[0]);
    poster.end(&rt);
}
