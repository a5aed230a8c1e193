//! What is told of a run of the sessions.

ghost use Rattle.std.specs.Prelude.{◌≡◌, ◌++◌, drop, IfOk, OnOk};
ghost use Rattle.std.specs.List.{flat_map};
ghost use Rattle.generator.specs.Summaries.{lane_line, lane_lines, snapshot_line, summary_text};

use sha2::{Digest, Sha256};
use std::alloc::{AllocError, Global};
use store_types::Bytes;
use wire_commands::ListRow;

fn push_lane(alloc: Global, text: &mut Vec<u8>, k: usize, replies: &[u8]) -> Result<(), AllocError>
    ensures { OnOk result (text.new.items ≡ text.old.items ++ lane_line k replies.now) }
{
    let digits = hex::encode(alloc, Sha256::digest(replies))?;
    let size = replies.len();
    let line = format!(in alloc; "lane {k} {size} {digits}\n")?;
    text.extend_from_slice(line.as_bytes())
}

fn push_snapshot(alloc: Global, text: &mut Vec<u8>, row: &ListRow) -> Result<(), AllocError>
    ensures { OnOk result (text.new.items ≡ text.old.items ++ snapshot_line row.now) }
{
    text.extend_from_slice(row.snapshot.as_slice())?;
    let files = row.files;
    let line = format!(in alloc; " {files}\n")?;
    text.extend_from_slice(line.as_bytes())
}

/// The replies of all lanes but lane 0.
fn others(replies: &[Bytes]) -> &[Bytes]
    ensures { result.now ≡ drop 1 replies.now }
{
    match replies {
        [] => replies,
        [_, others @ ..] => others,
    }
}

/// Tells of the lanes from lane 1 on.
fn push_lanes(alloc: Global, text: &mut Vec<u8>, replies: &[Bytes]) -> Result<(), AllocError>
    ensures { OnOk result (text.new.items ≡ text.old.items ++ lane_lines 1 replies.now) }
{
    for (i, bytes) in replies.iter().enumerate() {
        push_lane(alloc, text, i + 1, bytes.as_slice())?;
    }
    Ok(())
}

fn push_snapshots(alloc: Global, text: &mut Vec<u8>, rows: &[ListRow]) -> Result<(), AllocError>
    ensures { OnOk result (text.new.items ≡ text.old.items ++ flat_map snapshot_line rows.now) }
{
    for row in rows {
        push_snapshot(alloc, text, row)?;
    }
    Ok(())
}

/// The summary of a run whose lanes, from lane 0 on, were told these replies, and whose snapshots then are these. A line for
/// each lane but lane 0: its number, that of the bytes of its replies, and their SHA-256; a line for each snapshot, with the
/// number of its files; and `status 0`.
pub fn summary(alloc: Global, replies: &[Bytes], rows: &[ListRow]) -> Result<Vec<u8>, AllocError>
    ensures { IfOk result (λ text. text.items ≡ summary_text replies.now rows.now) }
{
    let mut text = Vec::new(alloc);
    push_lanes(alloc, &mut text, others(replies))?;
    push_snapshots(alloc, &mut text, rows)?;
    text.extend_from_slice(b"status 0\n")?;
    Ok(text)
}
