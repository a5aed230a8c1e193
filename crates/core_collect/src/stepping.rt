//! The acts of a collector after its start.

ghost use Rattle.std.specs.Prelude.{◌≡◌, ◌<◌, ◌≤◌, false, None, IfErr, IfSome};
ghost use Rattle.store_types.specs.Times.{last_moment};
ghost use Rattle.wire_commands.specs.HasText.{ReplyHasText};
ghost use Rattle.store_history.specs.declared.act.Act.TheVariants.{Step};
ghost use Rattle.core_state.specs.Applies.{ActApplies, ActKeeps};
ghost use Rattle.core_state.specs.Collectors.{closed_at_fault, is_cut};
ghost use Rattle.core_state.specs.Reserved.{HasRoom};
ghost use Rattle.snapshot_files.specs.Reads.{StopHasText};
ghost use Rattle.core_collect.specs.Stepping.{CollectDoes, EntersPass, GoesOn, PassDoes, StepTells, TakesNext};

use crate::ending::{end, end_early, told};
use crate::marking::{Unread, find_next, mark};
use crate::visiting::visit_next;
use core_state::{
    Act, Admitted, Answer, Collector, Core, Early, Parts, Place, Upkeep, begin, enter, is_on,
    settle,
};
use disk_trait::Disk;
use gc_plan::GcReport;
use port_traits::Clock;
use std::alloc::Global;
use store_stops::Stop;
use store_types::{FAULT_KIND, PART_KIND, Refusal, STOP_KIND};

/// The next mark or visit of a collector, or its end, which gives the report. An index that does not decode, or is not as it
/// was opened, is not marked: the collector's next act is its end.
fn collect<D: Disk>(
    parts: &mut Parts<D>,
    upkeep: &mut Upkeep,
    collector: &mut Collector,
    alloc: Global,
    at: Place,
) -> Result<Option<GcReport>, Stop>
    requires { collector.old.ended ≡ None }
    ensures { CollectDoes D.Disk parts.old parts.new upkeep.old upkeep.new
        collector.old collector.new at result }
{
    if collector.plan.is_over() {
        let report = end(
            &mut parts.disk,
            alloc,
            &upkeep.book,
            &collector.plan,
            at.moment,
        )?;
        return Ok(Some(report));
    }
    match find_next(parts, alloc, collector) {
        Ok(Some(digests)) => {
            mark(&mut upkeep.book, collector, &digests, at.moment);
            Ok(None)
        }
        Ok(None) => {
            visit_next(
                &mut parts.disk,
                alloc,
                &mut upkeep.book,
                &mut collector.plan,
            )?;
            Ok(None)
        }
        Err(Unread::Unreadable(path)) => {
            collector.ended = Some(Early::Unreadable(path));
            Ok(None)
        }
        Err(Unread::NoMemory) => Err(Stop::NoMemory),
        Err(Unread::DiskFailed) => Err(Stop::DiskFailed),
    }
}

/// The next act of the lane's collector. It is refused where the lane's is not open.
fn pass<D: Disk>(
    parts: &mut Parts<D>,
    upkeep: &mut Upkeep,
    collector: &mut Option<Collector>,
    alloc: Global,
    at: Place,
) -> Result<Option<GcReport>, Stop>
    requires lane { at.lane < 64 }
    requires uncut { is_cut at.lane collector.old ≡ false }
    ensures { PassDoes D.Disk parts.old parts.new upkeep.old upkeep.new
        collector.old collector.new at result }
{
    if !is_on(collector, at.lane) {
        let state = parts.sessions[at.lane as usize].state();
        return Err(Stop::Refused(Refusal::WrongState(state)));
    }
    match collector {
        Some(open) => collect(parts, upkeep, open, alloc, at),
        None => unreachable!(),
    }
}

/// Enters a mark or a visit, without a reply, the end with its report, or what stopped it.
fn enter_pass<D: Disk, E, C>(
    core: &mut Core<D, E, C>,
    at: Place,
    ended: Result<Option<GcReport>, Stop>,
) -> Answer
    requires lane { at.lane < 64 }
    requires in_time { at.moment ≤ last_moment }
    requires room { HasRoom core.old at.lane }
    requires text { IfErr ended StopHasText }
    ensures enters { EntersPass D.Disk core.old core.new at ended result }
    ensures text { IfSome result.reply ReplyHasText }
{
    match ended {
        Ok(None) => enter(core, at, PART_KIND, None),
        Ok(Some(report)) => enter(core, at, STOP_KIND, Some(told(&report))),
        Err(stop) => settle(core, at, Err(stop)),
    }
}

/// The next act of a collector that was not ended early.
fn go_on<D: Disk, E, C: Clock>(core: &mut Core<D, E, C>, alloc: Global, lane: u32) -> Answer
    requires lane { lane < 64 }
    requires room { HasRoom core.old lane }
    requires uncut { is_cut lane core.old.collector ≡ false }
    ensures { GoesOn D.Disk C.readings core.old core.new lane result }
{
    match begin(core, alloc, lane, &Act::Step) {
        Admitted::Answered(answer) => answer,
        Admitted::At(at) => {
            let ended = pass(
                &mut core.parts,
                &mut core.upkeep,
                &mut core.collector,
                alloc,
                at,
            );
            enter_pass(core, at, ended)
        }
    }
}

/// The end of the lane's collector where it was ended early, or its next act.
fn take_next<D: Disk, E, C: Clock>(core: &mut Core<D, E, C>, alloc: Global, lane: u32) -> Answer
    requires lane { lane < 64 }
    requires room { HasRoom core.old lane }
    ensures { TakesNext D.Disk C.readings core.old core.new lane result }
{
    if core.is_cut(lane) {
        return end_early(core, lane);
    }
    go_on(core, alloc, lane)
}

/// A fault of the disk, and what comes after it, closes the collector that meets it.
fn close_at_fault(collector: &mut Option<Collector>, lane: u32, kind: u8)
    ensures { collector.new ≡ closed_at_fault kind lane collector.old }
{
    if kind == FAULT_KIND && is_on(collector, lane) {
        *collector = None;
    }
}

/// The next act of the lane's collector: a mark or a visit, which are entered without a reply, or its end, which tells its
/// report and has saved the book.
///
/// It is refused where the lane's collector is not open. Want of memory changes nothing but that the next act is the end. An
/// index that does not decode is not marked, nor is one of which a page to be read is not as it was opened, and the next act is
/// the end too. Such an end replies what ended the collector, takes no memory and makes no call of the disk. Where the disk
/// fails the collector is closed.
pub fn step<D: Disk, E, C: Clock>(core: &mut Core<D, E, C>, alloc: Global, lane: u32) -> Answer
    requires lane { lane < 64 }
    requires room { HasRoom core.old lane }
    ensures applies { ActApplies D.Disk C.Clock core.old core.new lane Step result }
    ensures keeps { ActKeeps D.Disk core.old core.new lane Step result }
    // on any disk
    ensures told { StepTells D.Disk core.old core.new lane result }
{
    let answer = take_next(core, alloc, lane);
    close_at_fault(&mut core.collector, lane, answer.entry.kind);
    answer
}
