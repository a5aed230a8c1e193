//! Lists of acts, done one after another.

ghost use Rattle.std.specs.Prelude.{◌≡◌, ◌≤◌, IfErr, IfOk, OnOk};
ghost use Rattle.core_laws.specs.Playing.{AllWhole, ArePlayable, HasPlayed};
ghost use Rattle.shared_store.specs.Comes.{SameCore};

use core_state::{Act, Answer, Core};
use disk_trait::Disk;
use port_traits::Clock;
use shared_store::apply;
use std::alloc::{AllocError, Global};
use store_types::LANES;

/// Fills up the reserve of every lane.
fn fill_all<D, E, C>(core: &mut Core<D, E, C>) -> Result<(), AllocError>
    ensures same { SameCore core.old core.new }
    ensures whole { OnOk result (AllWhole core.new) }
{
    for lane in 0..LANES {
        core.journal.fill(lane)?;
    }
    Ok(())
}

/// Fills up the reserve of every lane, and makes so many entries besides.
#[tactic(auto, using(crate::proofs::Filling::same_then, crate::proofs::Filling::whole_same))]
fn make_room<D, E, C>(core: &mut Core<D, E, C>, count: u32) -> Result<(), AllocError>
    ensures same { SameCore core.old core.new }
    ensures whole { OnOk result (AllWhole core.new) }
    ensures spare { OnOk result (count ≤ core.new.journal.spare) }
{
    fill_all(core)?;
    core.reserve(count)
}

/// Does acts one after another, each on its lane, and gives their answers. Entries and answers are reserved first: where
/// memory for them is wanting, or there are 2^32 acts or more, nothing is done, and the acts are handed back.
#[tactic(auto, using(crate::proofs::Played::none_played, crate::proofs::Played::played_more, crate::proofs::Played::stays_whole, crate::proofs::Played::one_spare))]
pub fn play<D: Disk, E: Disk, C: Clock>(
    core: &mut Core<D, E, C>,
    alloc: Global,
    acts: Vec<(u32, Act)>,
) -> Result<Vec<Answer>, Vec<(u32, Act)>>
    requires { ArePlayable acts.items }
    ensures played { IfOk result
        (λ answers. HasPlayed D.Disk E.Disk C.Clock core.old core.new acts.items answers.items) }
    ensures whole { OnOk result (AllWhole core.new) }
    ensures handed { IfErr result (λ back. back ≡ acts) }
    ensures unchanged { IfErr result (λ back. SameCore core.old core.new) }
{
    let Ok(mut answers) = Vec::with_capacity(alloc, acts.len()) else {
        return Err(acts);
    };
    let Ok(count) = u32::try_from(acts.len()) else {
        return Err(acts);
    };
    let Ok(()) = make_room(core, count) else {
        return Err(acts);
    };
    for (lane, act) in acts {
        answers.push_reserved(apply(core, alloc, lane, act));
    }
    Ok(answers)
}
