//! The visits of a collector.

ghost use Rattle.std.specs.Prelude.{IsErr, IsErrOf};
ghost use Rattle.disk_trait.specs.Disk.{Serves};
ghost use Rattle.core_collect.specs.Visiting.{ListsPlan, VisitsOne, VisitsNext};

use atime_book::Book;
use chunk_store::{remove, scan};
use disk_trait::{Disk, DiskError, Failed};
use gc_plan::Gc;
use std::alloc::Global;
use store_types::Digest32;

/// Visits a chunk: where its last touch is before the cutoff it is taken out, first of the disk and then of the book. It takes
/// no memory. Until a sync, a chunk that was taken out may come back.
fn visit<D: Disk>(
    disk: &mut D,
    book: &mut Book,
    plan: &mut Gc,
    digest: &Digest32,
) -> Result<(), Failed>
    ensures serves { Serves D.honest D.faults disk.old disk.new (IsErr result) }
    ensures visits { VisitsOne D.Disk disk.old disk.new
        book.old book.new plan.old plan.new digest.now result }
{
    if !book.is_stale(digest, plan.cutoff()) {
        return Ok(());
    }
    let _ = remove(disk, digest)?;
    let _ = book.sweep_one(digest, plan.cutoff());
    plan.removed();
    Ok(())
}

/// Lists the chunks that are there, where that was not done.
fn list_chunks<D: Disk>(disk: &mut D, alloc: Global, plan: &mut Gc) -> Result<(), DiskError>
    ensures { ListsPlan D.Disk disk.old disk.new plan.old plan.new result }
{
    if plan.is_listed() {
        return Ok(());
    }
    let names = scan(disk, alloc)?;
    plan.listed(names);
    Ok(())
}

/// Visits the next chunk, if one is left. The chunks are listed first where that was not done.
pub fn visit_next<D: Disk>(
    disk: &mut D,
    alloc: Global,
    book: &mut Book,
    plan: &mut Gc,
) -> Result<(), DiskError>
    ensures serves { Serves D.honest D.faults disk.old disk.new (IsErrOf result DiskError.Failed) }
    ensures visits { VisitsNext D.Disk disk.old disk.new
        book.old book.new plan.old plan.new result }
{
    list_chunks(disk, alloc, plan)?;
    let Some(digest) = plan.sweep_next() else {
        return Ok(());
    };
    visit(disk, book, plan, &digest)?;
    Ok(())
}
