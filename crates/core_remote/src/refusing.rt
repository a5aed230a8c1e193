//! What refuses a read of the remote.

ghost use Rattle.std.specs.Prelude.{◌≡◌, ◌<◌};
ghost use Rattle.store_history.specs.Acts.{family_of};
ghost use Rattle.core_state.specs.Decides.{Decides};
ghost use Rattle.core_remote.specs.RemoteActs.{read_told};

use core_state::{Act, Family, Parts};
use std::alloc::Global;
use store_stops::Stop;
use store_types::Refusal;
use wire_commands::Command;

/// What refuses a read of the remote, which is not read for it.
///
/// The refusals, in the order in which they are tested: of a SYNC's first step, the lane has a session, and the text names
/// no group; of any, there is no remote.
#[tactic(auto, using(core_state::proofs::Texts::no_remote_has_text))]
pub fn may_read<D>(
    parts: &Parts<D>,
    alloc: Global,
    lane: u32,
    has_remote: bool,
    act: &Act,
) -> Result<(), Stop>
    requires lane { lane < 64 }
    requires kind { family_of act.now ≡ Family.Reaches }
    ensures { Decides (λ done. done) (read_told act.now has_remote) parts.now lane result }
{
    if let Act::RemoteList(Command::Sync { group }) = act {
        parts.idle_group(alloc, lane, group.as_slice())?;
    }
    if has_remote {
        Ok(())
    } else {
        Err(Stop::Refused(Refusal::NoRemote))
    }
}
