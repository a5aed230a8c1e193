//! An act of a collector.

ghost use Rattle.std.specs.Prelude.{◌≡◌, ◌<◌};
ghost use Rattle.store_history.specs.Acts.{family_of};
ghost use Rattle.core_state.specs.Applies.{ActApplies, ActKeeps};
ghost use Rattle.core_state.specs.Reserved.{HasRoom};
ghost use Rattle.core_state.specs.Tells.{CoreTells};
ghost use Rattle.core_collect.specs.Acts.{CoreAnswersBy, collect_words};

use crate::starting::start;
use crate::stepping::step;
use core_state::{Act, Answer, Core, Family};
use disk_trait::Disk;
use port_traits::Clock;
use std::alloc::Global;

/// Opens a collector on the lane, or does the next act of the lane's, and enters it in the order.
pub fn collect_act<D: Disk, E, C: Clock>(
    core: &mut Core<D, E, C>,
    alloc: Global,
    lane: u32,
    act: Act,
) -> Answer
    requires lane { lane < 64 }
    requires room { HasRoom core.old lane }
    requires kind { family_of act ≡ Family.Collects }
    ensures applies { ActApplies D.Disk C.Clock core.old core.new lane act result }
    ensures keeps { ActKeeps D.Disk core.old core.new lane act result }
    // on any disk: what it answers by what the core keeps, which collector opens, and what ends one early
    ensures from_state { CoreAnswersBy D.Disk core.old core.new lane act result }
    // a snapshot is told as damaged exactly where one is, and an index as unreadable exactly where one ended the collector
    ensures tells { CoreTells (collect_words act core.old.collector) D.Disk core.old core.new lane result }
{
    match act {
        Act::Start => start(core, alloc, lane),
        Act::Step => step(core, alloc, lane),
        _ => unreachable!(),
    }
}
