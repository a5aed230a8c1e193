//! An act on the store as a whole.

ghost use Rattle.std.specs.Prelude.{◌≡◌, ◌<◌};
ghost use Rattle.store_history.specs.Acts.{IsWellFormed, family_of};
ghost use Rattle.core_state.specs.Applies.{ActApplies, ActKeeps};
ghost use Rattle.core_state.specs.Commands.{ActDoes, ActLeaves};
ghost use Rattle.core_state.specs.Reserved.{HasRoom};
ghost use Rattle.core_state.specs.Tells.{ActTells, CoreTells};
ghost use Rattle.core_admin.specs.AdminActs.{admin_words};

use crate::file_list::files;
use crate::forgetting::forget;
use crate::groups::{group, prune_group};
use crate::listing::list;
use core_state::{Act, Admitted, Answer, Core, Family, Parts, Place, begin, settle};
use disk_trait::Disk;
use port_traits::Clock;
use std::alloc::Global;
use store_stops::Stop;
use wire_commands::{Command, Reply};

fn perform<D: Disk>(parts: &mut Parts<D>, alloc: Global, at: Place, act: Act) -> Result<Reply, Stop>
    requires lane { at.lane < 64 }
    requires kind { family_of act ≡ Family.Manages }
    requires formed { IsWellFormed act }
    ensures does { ActDoes D.Disk parts.old parts.new at act result }
    ensures leaves { ActLeaves D.Disk parts.old parts.new at act result }
    ensures tells { ActTells (admin_words act) D.Disk parts.old parts.new at result }
{
    match act {
        Act::Plain(Command::List { after }) => list(parts, alloc, at, after.as_slice()),
        Act::Plain(Command::Files { snapshot }) => files(parts, alloc, at, snapshot.as_slice()),
        Act::Plain(Command::Forget { snapshot }) => forget(parts, alloc, at, snapshot.as_slice()),
        Act::Plain(Command::Group { group: name }) => group(parts, alloc, at, name.as_slice()),
        Act::JobGroup(
            Command::Prune {
                group: name,
                keep,
                dry,
            },
        ) => prune_group(parts, alloc, at, name.as_slice(), &keep, dry),
        _ => unreachable!(),
    }
}

/// Does a command on the store as a whole, and enters it in the order.
pub fn admin_act<D: Disk, E, C: Clock>(
    core: &mut Core<D, E, C>,
    alloc: Global,
    lane: u32,
    act: Act,
) -> Answer
    requires lane { lane < 64 }
    requires room { HasRoom core.old lane }
    requires kind { family_of act ≡ Family.Manages }
    requires formed { IsWellFormed act }
    ensures applies { ActApplies D.Disk C.Clock core.old core.new lane act result }
    ensures keeps { ActKeeps D.Disk core.old core.new lane act result }
    // on any disk its own tests answer what the core keeps; FILES, on an honest one, what stands there. A manifest is
    // unreadable exactly where it is, as far as the disk tells
    ensures tells { CoreTells (admin_words act) D.Disk core.old core.new lane result }
{
    match begin(core, alloc, lane, &act) {
        Admitted::Answered(answer) => {
            drop(act);
            answer
        }
        Admitted::At(at) => {
            let ended = perform(&mut core.parts, alloc, at, act);
            settle(core, at, ended)
        }
    }
}
