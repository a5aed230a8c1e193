//! FORGET.

ghost use Rattle.std.specs.Prelude.{◌≡◌, ◌<◌, option_map, Some, IfErr, IfOk};
ghost use Rattle.store_types.specs.declared.refusal.Refusal.TheVariants.{SnapshotBusy};
ghost use Rattle.store_types.specs.Chain.Refusing.{if_none};
ghost use Rattle.store_types.specs.Names.{IsKey};
ghost use Rattle.lock_book.specs.Locks.{least_sharer};
ghost use Rattle.wire_commands.specs.declared.command.Command.TheVariants.{Forget};
ghost use Rattle.store_history.specs.declared.act.Act.TheVariants.{Plain};
ghost use Rattle.core_state.specs.Changes.{names_beside as names_of_kept};
ghost use Rattle.wire_commands.specs.HasText.{ReplyHasText};
ghost use Rattle.wire_commands.specs.declared.reply.Reply.TheVariants.{Refused};
ghost use Rattle.core_state.specs.Commands.{PlainDoes, PlainLeaves};
ghost use Rattle.core_state.specs.Decides.{Decides};
ghost use Rattle.core_state.specs.Found.{kept_named};
ghost use Rattle.core_admin.specs.AnsweredBy.{ActAnswersBy};
ghost use Rattle.core_admin.specs.Forgotten.{to_forget};

use core_state::{Parts, Place, StoredFile};
use disk_trait::Disk;
use lock_book::{LaneHolds, LockBook};
use std::alloc::{AllocError, Global};
use store_stops::Stop;
use store_types::{FileName, Refusal, SnapshotKey};
use wire_commands::Reply;

/// The names of the files beside the manifest.
fn names_beside(alloc: Global, files: &[StoredFile]) -> Result<Vec<FileName>, AllocError>
    ensures { IfOk result (λ names. names.items ≡ names_of_kept files.now) }
{
    let mut names = Vec::new(alloc);
    for file in files {
        if !file.name.is_manifest() {
            names.push(file.name.clone()?)?;
        }
    }
    Ok(names)
}

/// What FORGET takes out: the snapshot, and the names of its files beside the manifest.
#[derive(Drop)]
struct Target {
    key: SnapshotKey,
    names: Vec<FileName>,
}

/// That no lane holds the snapshot; else it is refused with the least that does.
#[tactic(auto, using(crate::proofs::ForgetLemmas::snapshot_busy_has_text))]
fn want_free(locks: &LockBook, key: &SnapshotKey) -> Result<(), Refusal>
    ensures value { result ≡ if_none SnapshotBusy (least_sharer locks.now key.now) }
    ensures text { IfErr result (λ r. ReplyHasText (Refused r)) }
{
    match locks.free_for_removal(key) {
        Ok(()) => Ok(()),
        Err(LaneHolds { lane }) => Err(Refusal::SnapshotBusy { lane }),
    }
}

/// The tests of FORGET, in order: the lane has no session; the text names a snapshot; it is there; no lane holds it, else
/// the least is told.
#[tactic(auto, using(core_state::proofs::Texts::no_snapshot_has_text), unfolding(crate::specs::Forgotten::to_forget))]
fn to_forget<D>(parts: &Parts<D>, alloc: Global, lane: u32, snapshot: &[u8]) -> Result<Target, Stop>
    requires { lane < 64 }
    ensures decides { Decides (λ t. t.key) (to_forget snapshot.now) parts.now lane result }
    ensures names { IfOk result (λ t. option_map (λ k. names_of_kept k.files) (kept_named t.key parts.now.catalogue.listed) ≡ Some t.names.items) }
    ensures grammar { IfOk result (λ t. IsKey t.key) }
{
    let key = parts.idle_key(alloc, lane, snapshot)?;
    let Some(kept) = parts.catalogue.named(&key) else {
        return Err(Stop::Refused(Refusal::NoSnapshot));
    };
    want_free(&parts.locks, &key)?;
    let names = names_beside(alloc, kept.files.as_slice())?;
    Ok(Target { key, names })
}

/// Removes a snapshot that no lane holds: its manifest for good, and only then its other files.
///
/// A refusal is that of the tests, and changes nothing. All memory is taken before the
/// first call that changes the disk. After a fault of the disk the snapshot is still in the catalogue.
pub fn forget<D: Disk>(
    parts: &mut Parts<D>,
    alloc: Global,
    at: Place,
    snapshot: &[u8],
) -> Result<Reply, Stop>
    requires { at.lane < 64 }
    ensures does { PlainDoes D.Disk parts.old parts.new at (Forget snapshot.now) result }
    ensures leaves { PlainLeaves D.Disk parts.old parts.new at (Forget snapshot.now) result }
    // on any disk
    ensures from_state { ActAnswersBy D.Disk parts.old at (Plain (Forget snapshot.now)) result }
{
    let target = to_forget(parts, alloc, at.lane, snapshot)?;
    snapshot_files::forget(&mut parts.disk, alloc, &target.key, &target.names)?;
    parts.catalogue.take_out(&target.key);
    Ok(Reply::Done)
}
