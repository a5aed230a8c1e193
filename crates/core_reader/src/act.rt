//! A reader's act.

ghost use Rattle.std.specs.Prelude.{◌≡◌, ◌<◌};
ghost use Rattle.store_history.specs.Acts.{family_of};
ghost use Rattle.core_state.specs.Applies.{ActApplies, ActKeeps};
ghost use Rattle.core_state.specs.Commands.{ActDoes, ActLeaves};
ghost use Rattle.core_state.specs.Reserved.{HasRoom};
ghost use Rattle.core_state.specs.Tells.{ActTells, CoreTells};
ghost use Rattle.core_reader.specs.ReaderWords.{reader_words};

use crate::chunks::get_chunk;
use crate::closing::close_reader;
use crate::downloading::download;
use crate::opening::open_reader;
use crate::ranges::range;
use crate::reading::{read_chunk, read_file};
use core_state::{Act, Admitted, Answer, Core, Family, Parts, Place, begin, settle};
use disk_trait::Disk;
use port_traits::Clock;
use std::alloc::Global;
use store_stops::Stop;
use wire_commands::{Command, Reply};

#[tactic(auto, using(core_state::proofs::Telling::calls_asked))]
fn perform<D: Disk>(parts: &mut Parts<D>, alloc: Global, at: Place, act: Act) -> Result<Reply, Stop>
    requires lane { at.lane < 64 }
    requires kind { family_of act ≡ Family.Reads }
    ensures does { ActDoes D.Disk parts.old parts.new at act result }
    ensures leaves { ActLeaves D.Disk parts.old parts.new at act result }
    ensures tells { ActTells (reader_words act) D.Disk parts.old parts.new at result }
{
    match act {
        Act::Plain(Command::OpenReader { snapshot }) => {
            open_reader(parts, alloc, at, snapshot.as_slice())
        }
        Act::Plain(Command::Download { file, offset }) => {
            download(parts, alloc, at, file.as_slice(), offset)
        }
        Act::Plain(Command::GetChunk { digest }) => get_chunk(parts, alloc, at, &digest),
        Act::Plain(
            Command::Range {
                file,
                offset,
                length,
            },
        ) => range(parts, alloc, at, file.as_slice(), offset, length),
        Act::Plain(Command::CloseReader) => close_reader(parts, at),
        Act::ReadFile { name, offset } => read_file(parts, alloc, at, &name, offset),
        Act::ReadChunk { name, entry } => read_chunk(parts, alloc, at, &name, entry),
        _ => unreachable!(),
    }
}

/// Does a reader's command or a read of a VERIFY on a lane, and enters it in the order.
pub fn reader_act<D: Disk, E, C: Clock>(
    core: &mut Core<D, E, C>,
    alloc: Global,
    lane: u32,
    act: Act,
) -> Answer
    requires lane { lane < 64 }
    requires room { HasRoom core.old lane }
    requires kind { family_of act ≡ Family.Reads }
    ensures applies { ActApplies D.Disk C.Clock core.old core.new lane act result }
    ensures keeps { ActKeeps D.Disk core.old core.new lane act result }
    // on any disk OPEN_READER answers what the core keeps, and what GET_CHUNK gives has the digest that was asked for;
    // RANGE and a VERIFY's reads answer, on an honest one, what stands there
    ensures tells { CoreTells (reader_words act) D.Disk core.old core.new lane result }
{
    match begin(core, alloc, lane, &act) {
        Admitted::Answered(answer) => {
            drop(act);
            answer
        }
        Admitted::At(at) => {
            let ended = perform(&mut core.parts, alloc, at, act);
            settle(core, at, ended)
        }
    }
}
