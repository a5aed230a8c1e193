//! The start of a collector.

ghost use Rattle.std.specs.Prelude.{◌≡◌, ◌<◌, ◌++◌, IfErr, IfOk, OnOk};
ghost use Rattle.store_types.specs.declared.refusal.Refusal.TheVariants.{CollectorBusy};
ghost use Rattle.wire_commands.specs.declared.reply.Reply.TheVariants.{Refused};
ghost use Rattle.wire_commands.specs.HasText.{ReplyHasText};
ghost use Rattle.store_history.specs.declared.act.Act.TheVariants.{Start};
ghost use Rattle.core_state.specs.Applies.{ActApplies, ActKeeps};
ghost use Rattle.core_state.specs.Reserved.{HasRoom};
ghost use Rattle.snapshot_files.specs.Reads.{StopHasText};
ghost use Rattle.core_state.specs.Decides.{Decides};
ghost use Rattle.core_collect.specs.Starting.{GivesCollector, IsNewCollector, earlier_of, indexes_in as indexes_listed, indexes_of as indexes_kept, oldest_kept, start_told, StartTells};

use core_state::{
    Act, Admitted, Answer, Collector, Core, Listed, Parts, Place, Session, begin, enter, settle,
};
use disk_trait::Disk;
use gc_plan::IndexAt;
use port_traits::Clock;
use std::alloc::{AllocError, Global};
use store_stops::Stop;
use store_types::{Refusal, START_KIND};

/// Adds the indexes of a finished snapshot, in byte order of their names.
fn push_indexes(indexes: &mut Vec<IndexAt>, listed: &Listed) -> Result<(), AllocError>
    ensures { OnOk result (indexes.new.items ≡ indexes.old.items ++ indexes_kept listed.now) }
{
    for file in listed.kept.files.as_slice() {
        if file.name.is_index() {
            indexes.push(IndexAt {
                snapshot: listed.number,
                name: file.name.clone()?,
            })?;
        }
    }
    Ok(())
}

/// The indexes of all finished snapshots, in the order of the catalogue.
fn indexes_in(alloc: Global, catalogue: &[Listed]) -> Result<Vec<IndexAt>, AllocError>
    ensures { IfOk result (λ indexes. indexes.items ≡ indexes_listed catalogue.now) }
{
    let mut indexes = Vec::new(alloc);
    for listed in catalogue {
        push_indexes(&mut indexes, listed)?;
    }
    Ok(indexes)
}

/// The earlier of a moment, if there is one, and the start of the session's writer, if it has one.
fn earlier(oldest: Option<u64>, session: &Session) -> Option<u64>
    ensures { result ≡ earlier_of oldest session.now }
{
    let Session::Writer(writing) = session else {
        return oldest;
    };
    let start = writing.session.start();
    match oldest {
        Some(other) => Some(other.min(start)),
        None => Some(start),
    }
}

/// The start of the oldest writer among these sessions.
fn oldest_in(sessions: &[Session]) -> Option<u64>
    ensures { result ≡ oldest_kept sessions.now }
{
    let mut oldest = None;
    for session in sessions {
        oldest = earlier(oldest, session);
    }
    oldest
}

/// The refusal while a collector is open on a lane.
#[tactic(auto, using(crate::proofs::StartLemmas::busy_has_text))]
fn busy_on(lane: u32) -> Refusal
    ensures value { result ≡ CollectorBusy lane }
    ensures text { ReplyHasText (Refused result) }
{
    Refusal::CollectorBusy { lane }
}

/// A collector may open on the lane.
///
/// The refusals, in the order in which they are tested: the lane has a session; a collector is open, on whatever lane; a
/// snapshot is damaged, of which the first in the catalogue is told.
fn may_open<D>(parts: &Parts<D>, collector: &Option<Collector>, lane: u32) -> Result<(), Stop>
    requires { lane < 64 }
    ensures { Decides (λ may. may) (start_told collector.now) parts.now lane result }
{
    parts.idle_in(lane)?;
    if let Some(other) = collector {
        return Err(Stop::Refused(busy_on(other.lane)));
    }
    if let Some(name) = parts.catalogue.first_damage() {
        let name = name.clone()?;
        return Err(Stop::Refused(Refusal::Unreadable { name }));
    }
    Ok(())
}

/// The collector that opens at this place: the indexes of all finished snapshots are to be marked.
fn new_collector<D>(parts: &Parts<D>, alloc: Global, at: Place) -> Result<Collector, AllocError>
    ensures { IfOk result (IsNewCollector parts.now at.lane at.moment) }
{
    let indexes = indexes_in(alloc, parts.catalogue.as_slice())?;
    Ok(Collector {
        lane: at.lane,
        plan: gc_plan::start(at.moment, oldest_in(&parts.sessions), indexes),
        pages: None,
        ended: None,
    })
}

/// The collector that opens, where it may.
fn opening<D>(
    parts: &Parts<D>,
    collector: &Option<Collector>,
    alloc: Global,
    at: Place,
) -> Result<Collector, Stop>
    requires { at.lane < 64 }
    ensures value { GivesCollector parts.now collector.now at result }
    ensures text { IfErr result StopHasText }
{
    may_open(parts, collector, at.lane)?;
    Ok(new_collector(parts, alloc, at)?)
}

/// Opens a collector on the lane, and enters that without a reply, or what refuses it. The disk is not called.
pub fn start<D: Disk, E, C: Clock>(core: &mut Core<D, E, C>, alloc: Global, lane: u32) -> Answer
    requires lane { lane < 64 }
    requires room { HasRoom core.old lane }
    ensures applies { ActApplies D.Disk C.Clock core.old core.new lane Start result }
    ensures keeps { ActKeeps D.Disk core.old core.new lane Start result }
    // on any disk
    ensures told { StartTells core.old core.new lane result }
{
    match begin(core, alloc, lane, &Act::Start) {
        Admitted::Answered(answer) => answer,
        Admitted::At(at) => match opening(&core.parts, &core.collector, alloc, at) {
            Ok(collector) => {
                core.collector = Some(collector);
                enter(core, at, START_KIND, None)
            }
            Err(stop) => settle(core, at, Err(stop)),
        },
    }
}
