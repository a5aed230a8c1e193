//! The end of a collector.

ghost use Rattle.std.specs.Prelude.{◌≡◌, ◌<◌, IfSome, IsErrOf, IsSome, Some, true};
ghost use Rattle.disk_trait.specs.Disk.{Serves};
ghost use Rattle.disk_trait.specs.Effects.{DiskWantKeeps};
ghost use Rattle.wire_commands.specs.HasText.{ReplyHasText};
ghost use Rattle.wire_commands.specs.declared.reply.Reply.TheVariants.{Collected};
ghost use Rattle.core_state.specs.Collectors.{is_cut};
ghost use Rattle.core_state.specs.Reserved.{HasRoom};
ghost use Rattle.core_collect.specs.Ending.{EndsPlan, TellsEarly, early_in, report_reply};

use atime_book::{Book, Counts};
use core_state::{Answer, BOOK_NAME, Collector, Core, Early, enter, halted, next_place};
use disk_trait::{Disk, DiskError};
use file_install::install;
use gc_plan::{Gc, GcReport};
use port_traits::Clock;
use std::alloc::Global;
use store_types::{FAULT_KIND, STOP_KIND};
use wire_commands::Reply;

/// The report in these numbers.
fn collected(start: u64, cutoff: u64, used: u64, pending: u64, removed: u64) -> Reply
    ensures value { result ≡ Collected start cutoff used pending removed }
    ensures text { ReplyHasText result }
{
    Reply::Collected {
        start,
        cutoff,
        used,
        pending,
        removed,
    }
}

/// The report of a whole collection, as it is told.
pub fn told(report: &GcReport) -> Reply
    ensures value { result ≡ report_reply report.now }
    ensures text { ReplyHasText result }
{
    collected(
        report.start,
        report.cutoff,
        report.used,
        report.pending,
        report.removed,
    )
}

/// The report of a whole collection, once the book is saved as of this moment. At want of memory nothing has changed.
pub fn end<D: Disk>(
    disk: &mut D,
    alloc: Global,
    book: &Book,
    plan: &Gc,
    moment: u64,
) -> Result<GcReport, DiskError>
    ensures serves { Serves D.honest D.faults disk.old disk.new (IsErrOf result DiskError.Failed) }
    ensures ends { EndsPlan D.Disk disk.old disk.new book.now plan.now moment result }
    ensures unchanged { DiskWantKeeps D.Disk disk.old disk.new result }
{
    let Counts { used, pending } = book.counts(plan.start());
    let text = book.text(alloc, moment)?;
    install(disk, alloc, BOOK_NAME, text.as_slice())?;
    Ok(plan.report(used, pending))
}

/// What ended the collector early.
fn early_of(collector: Option<Collector>) -> Early
    requires { IsSome (early_in collector) }
    ensures { early_in collector ≡ Some result }
{
    let Some(Collector { ended, .. }) = collector else {
        unreachable!()
    };
    let Some(early) = ended else { unreachable!() };
    early
}

/// The end of a collector that was ended early. It replies what ended it, and takes no memory; after a fault of the disk it is
/// refused as any act is.
pub fn end_early<D: Disk, E, C: Clock>(core: &mut Core<D, E, C>, lane: u32) -> Answer
    requires lane { lane < 64 }
    requires room { HasRoom core.old lane }
    requires cut { is_cut lane core.old.collector ≡ true }
    ensures told { TellsEarly D.Disk C.readings core.old core.new lane result }
    ensures text { IfSome result.reply ReplyHasText }
{
    let at = next_place(core, lane);
    if let Some(place) = core.fault {
        return enter(core, at, FAULT_KIND, Some(halted(place)));
    }
    let early = early_of(core.collector.take());
    enter(
        core,
        at,
        STOP_KIND,
        Some(Reply::Refused(early.into_refusal())),
    )
}
