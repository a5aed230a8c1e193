//! OPEN_READER.

ghost use Rattle.std.specs.Prelude.{◌<◌};
ghost use Rattle.wire_commands.specs.declared.command.Command.TheVariants.{OpenReader};
ghost use Rattle.core_state.specs.Commands.{PlainDoes, PlainLeaves};
ghost use Rattle.core_state.specs.Decides.{Decides};
ghost use Rattle.core_state.specs.Unreadables.{ActUnreadable};
ghost use Rattle.core_reader.specs.AnsweredBy.{ActOpens};
ghost use Rattle.core_reader.specs.Asked.{asked_open, to_open as key_to_open};

use core_state::{Parts, Place, Session};
use disk_trait::Disk;
use restore_reader::open_reader as reader_of;
use std::alloc::Global;
use store_stops::Stop;
use store_types::{Refusal, SnapshotKey};
use wire_commands::Reply;

/// What OPEN_READER tests: the key of the snapshot that the lane is to read.
#[tactic(auto, unfolding(crate::specs::Asked::to_open), using(core_state::proofs::Texts::no_snapshot_has_text))]
fn to_open<D>(
    parts: &Parts<D>,
    alloc: Global,
    lane: u32,
    snapshot: &[u8],
) -> Result<SnapshotKey, Stop>
    requires { lane < 64 }
    ensures { Decides (λ key. key) (key_to_open snapshot.now) parts.now lane result }
{
    let key = parts.idle_key(alloc, lane, snapshot)?;
    let kept = parts.catalogue.named(&key).ok_or(Refusal::NoSnapshot)?;
    if let Some(name) = &kept.unreadable {
        let name = name.clone()?;
        return Err(Stop::Refused(Refusal::Unreadable { name }));
    }
    Ok(key)
}

/// The lane gets a reader of the snapshot, and holds the snapshot. It makes no disk call.
///
/// The refusals, in the order in which they are tested: the lane has a session; the text names no snapshot; there is no
/// such snapshot; it is damaged, with the file that makes it so.
pub fn open_reader<D: Disk>(
    parts: &mut Parts<D>,
    alloc: Global,
    at: Place,
    snapshot: &[u8],
) -> Result<Reply, Stop>
    requires { at.lane < 64 }
    ensures does { PlainDoes D.Disk parts.old parts.new at (OpenReader snapshot.now) result }
    ensures leaves { PlainLeaves D.Disk parts.old parts.new at (OpenReader snapshot.now) result }
    // on any disk; once it is done, the lane has a reader
    ensures from_state { ActOpens snapshot.now parts.old parts.new at result }
    // it is told as damaged exactly where it is, on an honest disk
    ensures unreadable { ActUnreadable D.Disk (asked_open snapshot.now) parts.old at result }
{
    let key = to_open(parts, alloc, at.lane, snapshot)?;
    parts.locks.shared_take(at.lane, &key)?;
    parts.sessions[at.lane as usize] = Session::Reader(reader_of(alloc, key));
    Ok(Reply::Done)
}
