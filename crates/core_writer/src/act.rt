//! A writer's act, and a lane's end.

ghost use Rattle.std.specs.Prelude.{◌≡◌, ◌<◌, ◌≤◌};
ghost use Rattle.store_types.specs.Times.{last_moment};
ghost use Rattle.store_history.specs.declared.act.Act.TheVariants.{End};
ghost use Rattle.store_history.specs.Acts.{IsWellFormed, family_of};
ghost use Rattle.core_state.specs.Applies.{ActApplies, ActKeeps};
ghost use Rattle.core_state.specs.Commands.{ActDoes, ActLeaves};
ghost use Rattle.core_state.specs.Reserved.{HasRoom};
ghost use Rattle.core_state.specs.Tells.{ActTells, CoreTells};
ghost use Rattle.core_writer.specs.Touching.{ActTouches};
ghost use Rattle.core_writer.specs.WriterWords.{writer_words};

use crate::archives::{close_index, new_dynamic, new_fixed};
use crate::ending::{abort, end};
use crate::finishing::finish;
use crate::opening::open_writer;
use crate::previous_files::previous;
use crate::touching::{append_touched, chunk_touched};
use crate::uploads::blob;
use core_state::{
    Act, Admitted, Answer, Core, Family, Parts, Place, Upkeep, begin, end_session, enter,
    next_place, settle,
};
use disk_trait::Disk;
use port_traits::Clock;
use std::alloc::Global;
use store_stops::Stop;
use store_types::END_KIND;
use wire_commands::{Command, Reply};

fn perform<D: Disk>(
    parts: &mut Parts<D>,
    upkeep: &mut Upkeep,
    alloc: Global,
    at: Place,
    act: Act,
) -> Result<Reply, Stop>
    requires lane { at.lane < 64 }
    requires in_time { at.moment ≤ last_moment }
    requires kind { family_of act ≡ Family.Writes }
    requires formed { IsWellFormed act }
    ensures does { ActDoes D.Disk parts.old parts.new at act result }
    ensures leaves { ActLeaves D.Disk parts.old parts.new at act result }
    ensures touches { ActTouches upkeep.old upkeep.new at act result }
    ensures tells { ActTells (writer_words act) D.Disk parts.old parts.new at result }
{
    match act {
        Act::Plain(Command::OpenWriter { snapshot }) => {
            open_writer(parts, alloc, at, snapshot.as_slice())
        }
        Act::Plain(Command::Previous { file, offset }) => {
            previous(parts, alloc, at, file.as_slice(), offset)
        }
        Act::Plain(
            Command::NewFixed {
                file,
                size,
                chunk_size,
            },
        ) => new_fixed(parts, alloc, at, file.as_slice(), size, chunk_size),
        Act::Plain(Command::NewDynamic { file }) => {
            new_dynamic(parts, alloc, at, file.as_slice())
        }
        Act::Plain(Command::Append { number, entries }) => {
            append_touched(parts, upkeep, alloc, at, number, entries.as_slice())
        }
        Act::Plain(
            Command::CloseIndex {
                number,
                count,
                size,
                csum,
            },
        ) => close_index(parts, alloc, at, number, count, size, &csum),
        Act::Plain(Command::Finish) => finish(parts, alloc, at),
        Act::Plain(Command::Abort) => abort(parts, at),
        Act::Chunk { digest, checked } => {
            chunk_touched(parts, upkeep, alloc, at, &digest, checked)
        }
        Act::Blob { name, checked } => blob(parts, alloc, at, name.as_slice(), checked),
        _ => unreachable!(),
    }
}

/// Does a writer's command on a lane, and enters it in the order.
pub fn writer_act<D: Disk, E, C: Clock>(
    core: &mut Core<D, E, C>,
    alloc: Global,
    lane: u32,
    act: Act,
) -> Answer
    requires lane { lane < 64 }
    requires room { HasRoom core.old lane }
    requires kind { family_of act ≡ Family.Writes }
    requires formed { IsWellFormed act }
    ensures applies { ActApplies D.Disk C.Clock core.old core.new lane act result }
    ensures keeps { ActKeeps D.Disk core.old core.new lane act result }
    // on any disk OPEN_WRITER answers what the core keeps, and takes its group and base; a file of a PREVIOUS is unreadable
    // exactly where it is, as far as the disk tells, how often it calls the disk, and what it leaves of indexes and pieces
    ensures tells { CoreTells (writer_words act) D.Disk core.old core.new lane result }
{
    match begin(core, alloc, lane, &act) {
        Admitted::Answered(answer) => {
            drop(act);
            answer
        }
        Admitted::At(at) => {
            let ended = perform(&mut core.parts, &mut core.upkeep, alloc, at, act);
            settle(core, at, ended)
        }
    }
}

/// The lane's session ends, and the end is entered. It takes no memory and is never refused. Where the disk fails, that is
/// entered in its place, the session is as before, and the end is to come again; after a fault it makes no disk call.
pub fn end_act<D: Disk, E, C: Clock>(core: &mut Core<D, E, C>, lane: u32) -> Answer
    requires lane { lane < 64 }
    requires room { HasRoom core.old lane }
    ensures applies { ActApplies D.Disk C.Clock core.old core.new lane End result }
    ensures keeps { ActKeeps D.Disk core.old core.new lane End result }
{
    let at = next_place(core, lane);
    if core.fault.is_some() {
        end_session(&mut core.parts, lane);
        return enter(core, at, END_KIND, None);
    }
    match end(&mut core.parts, at) {
        Ok(()) => enter(core, at, END_KIND, None),
        Err(_) => settle(core, at, Err(Stop::DiskFailed)),
    }
}
