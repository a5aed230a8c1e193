//! LIST.

ghost use Rattle.std.specs.Prelude.{◌≡◌, ◌<◌, ◌≤◌, length, IfOk, IsTrue};
ghost use Rattle.std.specs.List.{All, list_all};
ghost use Rattle.store_types.specs.Names.{IsKey};
ghost use Rattle.wire_commands.specs.declared.command.Command.TheVariants.{List as ListAll};
ghost use Rattle.store_history.specs.declared.act.Act.TheVariants.{Plain};
ghost use Rattle.core_state.specs.Commands.{PlainDoes, PlainLeaves};
ghost use Rattle.core_state.specs.Named.{is_named_snapshot};
ghost use Rattle.core_admin.specs.AnsweredBy.{ActAnswersBy};
ghost use Rattle.core_admin.specs.Listings.{IsListable, row_of as row_of_kept, rows_of as rows_of_first};

use core_state::{Kept, Listed, ListedRow, Parts, Place};
use disk_trait::Disk;
use std::alloc::{AllocError, Global};
use store_stops::Stop;
use store_types::{Bytes, LIST_LIMIT, Rows};
use wire_commands::{ListRow, Reply};

/// What is told of a snapshot.
pub fn row_of(alloc: Global, kept: &Kept) -> Result<ListRow, AllocError>
    requires { IsKey kept.now.key }
    ensures value { IfOk result (λ row. row ≡ row_of_kept kept.now) }
    ensures listable { IfOk result IsListable }
{
    let snapshot = Bytes::from_vec(kept.key.print(alloc)?.into_bytes());
    let row = ListedRow::of(kept);
    Ok(ListRow {
        snapshot,
        damaged: row.damaged,
        files: row.files,
    })
}

/// What is told of the first 1,024 of these snapshots.
fn rows_of(alloc: Global, listed: &[Listed]) -> Result<Rows<ListRow>, AllocError>
    requires { IsTrue (list_all is_named_snapshot listed.now) }
    ensures value { IfOk result (λ rows. rows ≡ rows_of_first listed.now) }
    ensures few { IfOk result (λ rows. length rows ≤ 1024) }
    ensures listable { IfOk result (λ rows. All IsListable rows) }
{
    let first = &listed[..listed.len().min(LIST_LIMIT)];
    let mut rows = Vec::new(alloc);
    for snapshot in first {
        rows.push(row_of(alloc, &snapshot.kept)?)?;
    }
    Ok(Rows::from_vec(rows))
}

/// The finished snapshots behind one, or from the first on where the text is empty, 1,024 at most. A damaged one is told as
/// such, without files. It changes nothing and makes no disk call.
///
/// It is refused where the text is neither empty nor a snapshot's; the snapshot need not be there.
pub fn list<D: Disk>(
    parts: &Parts<D>,
    alloc: Global,
    at: Place,
    after: &[u8],
) -> Result<Reply, Stop>
    ensures does { PlainDoes D.Disk parts.now parts.now at (ListAll after.now) result }
    ensures leaves { PlainLeaves D.Disk parts.now parts.now at (ListAll after.now) result }
    // on any disk
    ensures from_state { ActAnswersBy D.Disk parts.now at (Plain (ListAll after.now)) result }
{
    let after = parts.after_in(alloc, at.lane, after)?;
    let rows = rows_of(alloc, parts.catalogue.after(after.as_ref()))?;
    Ok(Reply::Listing(rows))
}
