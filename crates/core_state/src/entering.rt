//! How an act is begun, and how its entry is made.

ghost use Rattle.std.specs.Prelude.{◌≡◌, ◌≤◌, ◌<◌, true, min, max, Option};
ghost use Rattle.store_types.specs.Times.{last_moment};
ghost use Rattle.store_types.specs.declared.refusal.Refusal.TheVariants.{Halted};
ghost use Rattle.wire_commands.specs.declared.reply.Reply.TheVariants.{Refused};
ghost use Rattle.wire_commands.specs.HasText.{ReplyHasText};
ghost use Rattle.core_state.specs.Begins.{AdmittedHasText, Begins, FillsUp, IsNext, IsNotShort, IsShort};
ghost use Rattle.core_state.specs.Closing.{is_closing};
ghost use Rattle.core_state.specs.Remotes.{SettlesRead};
ghost use Rattle.core_state.specs.Reserved.{HasRoom};
ghost use Rattle.core_state.specs.Settles.{IsEntered, Settles};
ghost use Rattle.core_state.specs.Stops.{told};

use crate::noting::note_entry;
use crate::state::Core;
use disk_trait::Disk;
use port_traits::Clock;
use std::alloc::Global;
use store_history::{Act, Answer};
use store_stops::Stop;
use store_types::{
    COMMAND_KIND, Entry, FAULT_KIND, LAST_MOMENT, MEMORY_KIND, PART_KIND, REMOTE_FAULT_KIND,
    Refusal,
};
use wire_commands::Reply;

/// Where an act stands in the order: its lane, its moment, and the number of its entry.
#[derive(Clone, Copy, Debug)]
pub struct Place {
    pub lane: u32,
    /// In seconds since 1970.
    pub moment: u64,
    pub number: u64,
}

/// What comes before an act.
#[derive(Debug, Drop)]
pub enum Admitted {
    /// It may be done, at this place.
    At(Place),
    /// It is answered without being done: memory is wanting, or the disk failed before.
    Answered(Answer),
}

/// The moment of an act by the clock's reading: at least the last one, and within the years that have a text.
fn moment_by(reading: u64, last: u64) -> u64
    ensures { result ≡ min (max reading last) last_moment }
{
    reading.max(last).min(LAST_MOMENT)
}

/// Enters an act, with what it is answered. Chunks that are undated are dated by it. By its kind it may end the lane's
/// collector early, or close it.
pub fn enter<D: Disk, E, C>(
    core: &mut Core<D, E, C>,
    at: Place,
    kind: u8,
    reply: Option<Reply>,
) -> Answer
    requires lane { at.lane < 64 }
    requires in_time { at.moment ≤ last_moment }
    requires room { HasRoom core.old at.lane }
    ensures { IsEntered D.Disk core.old core.new at.lane at.moment kind reply result }
{
    let place = core.journal.entries.len() as u64;
    let entry = Entry {
        lane: at.lane,
        moment: at.moment,
        kind,
    };
    let calls = core.parts.disk.calls();
    let is_held = core.journal.enter(at.lane as usize, entry, calls);
    core.upkeep.date(at.moment);
    note_entry(&mut core.collector, at.lane, kind);
    core.last = at.moment;
    Answer {
        reply,
        entry,
        place,
        last: is_held && kind == MEMORY_KIND,
    }
}

/// The reply to an act after the disk failed, which was entered at this place.
#[tactic(auto, using(crate::proofs::Texts::halted_has_text))]
pub fn halted(place: u64) -> Reply
    ensures reply { result ≡ Refused (Halted place) }
    ensures text { ReplyHasText result }
{
    Reply::Refused(Refusal::Halted { place })
}

/// The place of the lane's next act. The clock is read for it. A lane's end is begun by this alone, since it takes no
/// memory and is never refused.
pub fn next_place<D, E, C: Clock>(core: &mut Core<D, E, C>, lane: u32) -> Place
    ensures { IsNext C.readings core.old core.new lane result }
{
    Place {
        lane,
        moment: moment_by(core.clock.now(), core.last),
        number: core.journal.entries.len() as u64,
    }
}

/// Reads the clock, fills up the lane's reserve, and refuses the act where memory is wanting or the disk failed before. An
/// act that ends a session fills up nothing: it takes no memory, and its entry may be one of the reserve.
pub fn begin<D: Disk, E, C: Clock>(
    core: &mut Core<D, E, C>,
    alloc: Global,
    lane: u32,
    act: &Act,
) -> Admitted
    requires lane { lane < 64 }
    requires room { HasRoom core.old lane }
    ensures begun { Begins D.Disk C.readings core.old core.new lane result }
    ensures text { AdmittedHasText result }
    ensures filled { FillsUp core.old core.new lane act.now result }
    ensures memory { is_closing core.old lane act.now ≡ true → IsNotShort result }
{
    let at = next_place(core, lane);
    if core.is_closing(lane, act) {
        return Admitted::At(at);
    }
    if core.journal.fill(lane as usize).is_err() {
        let reply = Reply::Refused(Refusal::NoMemory);
        return Admitted::Answered(enter(core, at, MEMORY_KIND, Some(reply)));
    }
    match core.fault {
        None => Admitted::At(at),
        Some(place) => { Admitted::Answered(enter(core, at, FAULT_KIND, Some(halted(place)))) }
    }
}

/// Answers want of memory that was met outside the core.
pub fn short<D: Disk, E, C: Clock>(core: &mut Core<D, E, C>, alloc: Global, lane: u32) -> Answer
    requires lane { lane < 64 }
    requires room { HasRoom core.old lane }
    ensures { IsShort D.Disk C.readings core.old core.new lane result }
{
    let at = next_place(core, lane);
    let _ = core.journal.fill(lane as usize);
    let reply = Reply::Refused(Refusal::NoMemory);
    enter(core, at, MEMORY_KIND, Some(reply))
}

/// Enters a read of the remote by how it ended: what the remote gave, a refusal of what it has too, is a reply.
pub fn settle_read<D: Disk, E, C>(
    core: &mut Core<D, E, C>,
    at: Place,
    ended: Result<Reply, Stop>,
) -> Answer
    requires lane { at.lane < 64 }
    requires in_time { at.moment ≤ last_moment }
    requires room { HasRoom core.old at.lane }
    ensures { SettlesRead D.Disk core.old core.new at.lane at.moment ended result }
{
    match ended {
        Ok(reply) => enter(core, at, PART_KIND, Some(reply)),
        Err(Stop::Refused(refusal)) => {
            let reply = Reply::Refused(refusal);
            enter(core, at, COMMAND_KIND, Some(reply))
        }
        Err(Stop::NoMemory) => {
            let reply = Reply::Refused(Refusal::NoMemory);
            enter(core, at, MEMORY_KIND, Some(reply))
        }
        Err(Stop::DiskFailed) => {
            let reply = Reply::Refused(Refusal::RemoteFault);
            enter(core, at, REMOTE_FAULT_KIND, Some(reply))
        }
    }
}

/// Enters an act by how its command ended: a refusal is a reply.
pub fn settle<D: Disk, E, C>(
    core: &mut Core<D, E, C>,
    at: Place,
    ended: Result<Reply, Stop>,
) -> Answer
    requires lane { at.lane < 64 }
    requires in_time { at.moment ≤ last_moment }
    requires room { HasRoom core.old at.lane }
    ensures { Settles D.Disk core.old core.new at.lane at.moment (told ended) result }
{
    match ended {
        Ok(reply) => enter(core, at, COMMAND_KIND, Some(reply)),
        Err(Stop::Refused(refusal)) => {
            let reply = Reply::Refused(refusal);
            enter(core, at, COMMAND_KIND, Some(reply))
        }
        Err(Stop::NoMemory) => {
            let reply = Reply::Refused(Refusal::NoMemory);
            enter(core, at, MEMORY_KIND, Some(reply))
        }
        Err(Stop::DiskFailed) => {
            core.fault = Some(core.journal.entries.len() as u64);
            let reply = Reply::Refused(Refusal::DiskFault);
            enter(core, at, FAULT_KIND, Some(reply))
        }
    }
}
