//! The dispatch of acts, and the turn in which threads do them.
#![tactic(auto)]

mod board;
mod known;
mod next;
mod seat;
mod shared;
mod view;

ghost use Rattle.std.specs.Prelude.{◌≡◌, ◌<◌, true, Some};
ghost use Rattle.store_types.specs.declared.refusal.Refusal.TheVariants.{NoMemory};
ghost use Rattle.wire_commands.specs.declared.reply.Reply.TheVariants.{Refused};
ghost use Rattle.store_history.specs.Acts.{IsWellFormed};
ghost use Rattle.core_state.specs.Reserved.{HasRoom};
ghost use Rattle.shared_store.specs.Applied.{HasApplied};
ghost use Rattle.shared_store.specs.Views.{is_listing};

use core_admin::admin_act;
use core_collect::collect_act;
use core_reader::reader_act;
use core_remote::remote_act;
use core_state::{Act, Answer, Core, Family, short};
use core_writer::{end_act, writer_act};
use disk_trait::Disk;
pub use known::{Came, Known, Origin};
use port_traits::Clock;
pub use seat::Seat;
pub use shared::{Shared, WithViews};
use std::alloc::Global;
pub use view::{Place, View};

/// Does one act on a lane, and enters it in the order. It is one atomic step of the store.
pub fn apply<D: Disk, E: Disk, C: Clock>(
    core: &mut Core<D, E, C>,
    alloc: Global,
    lane: u32,
    act: Act,
) -> Answer
    requires lane { lane < 64 }
    requires room { HasRoom core.old lane }
    requires formed { IsWellFormed act }
    ensures { HasApplied D.Disk E.Disk C.Clock core.old core.new lane act result }
{
    match act.family() {
        Family::Reads => reader_act(core, alloc, lane, act),
        Family::Writes => writer_act(core, alloc, lane, act),
        Family::Manages => admin_act(core, alloc, lane, act),
        Family::Collects => collect_act(core, alloc, lane, act),
        Family::Reaches => remote_act(core, alloc, lane, act),
        Family::Wants => {
            drop(act);
            short(core, alloc, lane)
        }
        Family::Ends => {
            drop(act);
            end_act(core, lane)
        }
    }
}

/// Answers a FINISH or a FORGET by want of memory that was met before it. Nothing is done.
fn want<D: Disk, E: Disk, C: Clock>(
    core: &mut Core<D, E, C>,
    alloc: Global,
    lane: u32,
    act: Act,
) -> Answer
    requires lane { lane < 64 }
    requires room { HasRoom core.old lane }
    requires formed { IsWellFormed act }
    requires listing { is_listing act ≡ true }
    ensures applied { HasApplied D.Disk E.Disk C.Clock core.old core.new lane act result }
    ensures wants { result.reply ≡ Some (Refused NoMemory) }
{
    drop(act);
    short(core, alloc, lane)
}
