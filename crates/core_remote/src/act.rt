//! An act that reads the remote.

ghost use Rattle.std.specs.Prelude.{◌≡◌, ◌<◌, false, IfOk, IsTrue, MatchResult};
ghost use Rattle.wire_commands.specs.HasText.{ReplyHasText};
ghost use Rattle.store_history.specs.Acts.{IsWellFormed, family_of};
ghost use Rattle.core_state.specs.Applies.{ActApplies, ActKeeps, CoreApplies};
ghost use Rattle.store_history.specs.RemoteDisk.{RemoteStays, reads_remote};
ghost use Rattle.store_history.specs.Replies.{may_give};
ghost use Rattle.core_state.specs.Reserved.{HasRoom};
ghost use Rattle.snapshot_files.specs.Reads.{StopHasText};
ghost use Rattle.core_remote.specs.RemoteActs.{FailsBy, GivesRemote, IsTested, RemoteGives, RemoteTells, TellsEnd, UnreadWhere};

use crate::reading::read;
use crate::refusing::may_read;
use core_state::{Act, Admitted, Answer, Core, Family, Parts, begin, settle_read};
use disk_trait::Disk;
use port_traits::Clock;
use std::alloc::Global;
use store_stops::Stop;
use wire_commands::Reply;

/// Reads the remote, where nothing refuses it.
fn reach<D, E: Disk>(
    parts: &Parts<D>,
    remote: &mut Option<E>,
    alloc: Global,
    lane: u32,
    act: Act,
) -> Result<Reply, Stop>
    requires lane { lane < 64 }
    requires kind { family_of act ≡ Family.Reaches }
    requires formed { IsWellFormed act }
    ensures tells { TellsEnd parts.now remote.old lane act result }
    ensures unread { UnreadWhere parts.now remote.old remote.new lane act }
    ensures stays { RemoteStays E.Disk remote.old remote.new }
    ensures failed { FailsBy E.Disk remote.old remote.new result }
    ensures gives { GivesRemote E.Disk remote.old act result }
    // on any remote
    ensures kind { IfOk result (λ reply. IsTrue (may_give act reply)) }
    ensures tested { IfOk result (IsTested act) }
    ensures text { MatchResult result ReplyHasText StopHasText }
{
    let has_remote = remote.is_some();
    may_read(parts, alloc, lane, has_remote, &act)?;
    read(remote, alloc, act)
}

/// Reads the remote once, and enters it in the order. The disk is not called.
pub fn remote_act<D: Disk, E: Disk, C: Clock>(
    core: &mut Core<D, E, C>,
    alloc: Global,
    lane: u32,
    act: Act,
) -> Answer
    requires lane { lane < 64 }
    requires room { HasRoom core.old lane }
    requires kind { family_of act ≡ Family.Reaches }
    requires formed { IsWellFormed act }
    ensures applies { CoreApplies D.Disk E.Disk C.Clock core.old core.new lane act result }
    // whatever the remote is, where its tests refuse the read
    ensures alone { reads_remote act result ≡ false
        → ActApplies D.Disk C.Clock core.old core.new lane act result }
    ensures keeps { ActKeeps D.Disk core.old core.new lane act result }
    // on any remote: what refuses it, that it is not called then, and that a chunk is tested
    ensures from_state { RemoteTells core.old core.new lane act result }
    // of an honest remote, whatever it holds: what it gives
    ensures by_remote { RemoteGives E.Disk core.old act result }
{
    match begin(core, alloc, lane, &act) {
        Admitted::Answered(answer) => {
            drop(act);
            answer
        }
        Admitted::At(at) => {
            let ended = reach(&core.parts, &mut core.remote, alloc, lane, act);
            settle_read(core, at, ended)
        }
    }
}
