//! OPEN_WRITER.

ghost use Rattle.std.specs.Prelude.{◌≡◌, ◌<◌, ◌≤◌, length, IfOk, IfErr, None, OnErr, OnOk};
ghost use Rattle.std.specs.Option.{ForSome};
ghost use Rattle.store_types.specs.Names.{IsKey, group_of_key};
ghost use Rattle.store_types.specs.Times.{last_moment};
ghost use Rattle.store_types.specs.Chain.Refusing.{if_none};
ghost use Rattle.store_types.specs.declared.refusal.Refusal.TheVariants.{GroupBusy};
ghost use Rattle.wire_commands.specs.declared.command.Command.TheVariants.{OpenWriter};
ghost use Rattle.store_model.specs.WriterSteps.{base_text as text_of_base};
ghost use Rattle.core_state.specs.Commands.{PlainDoes, PlainLeaves};
ghost use Rattle.core_state.specs.Decides.{Decides};
ghost use Rattle.core_state.specs.Found.{lent_key};
ghost use Rattle.core_state.specs.FromState.{ActTells};
ghost use Rattle.store_history.specs.Replies.{refuses_writer};
ghost use Rattle.core_writer.specs.AnsweredBy.{writer_told};
ghost use Rattle.core_writer.specs.Opened.{LendsBase, TakesBase, base_on, begins_with, other_holder, to_write as base_to_write};
ghost use Rattle.core_writer.specs.Stopping.{RefusesBy};
ghost use Rattle.core_writer.specs.WriterWords.{TakesLocks};

use crate::testing::{want_newer, want_room};
use core_state::{Catalogue, Parts, Place, Session, Writing};
use disk_trait::Disk;
use lock_book::LockBook;
use std::alloc::{AllocError, Global};
use store_stops::Stop;
use store_types::{Bytes, GroupKey, Refusal, Rows, SnapshotKey};
use wire_commands::Reply;

/// What a writer begins with: its snapshot and group, its base, and the base's text, which is empty where there is none.
#[derive(Drop)]
struct Beginning {
    key: SnapshotKey,
    group: GroupKey,
    base: Option<SnapshotKey>,
    text: Bytes,
}

/// No other lane's writer has the group.
#[tactic(auto, using(core_state::proofs::Texts::group_busy_has_text))]
fn want_free(locks: &LockBook, lane: u32, group: &GroupKey) -> Result<(), Refusal>
    ensures refusal { IfErr result (RefusesBy refuses_writer) }
    ensures value { result ≡ if_none GroupBusy (other_holder locks.now lane group.now) }
{
    match locks.free_for_writer(lane, group) {
        Ok(()) => Ok(()),
        Err(holder) => Err(Refusal::GroupBusy { lane: holder.lane }),
    }
}

/// The group's latest whole snapshot, where a writer of its snapshot of this time may begin on the lane.
#[tactic(auto, unfolding(crate::specs::Opened::base_in))]
fn base_of<'a>(
    locks: &LockBook,
    catalogue: &'a Catalogue,
    lane: u32,
    group: &GroupKey,
    time: u64,
) -> Result<Option<&'a SnapshotKey>, Refusal>
    ensures refusal { IfErr result (RefusesBy refuses_writer) }
    ensures grammar { IfOk result (λ base. ForSome base (λ k. IsKey k.now)) }
    ensures value { LendsBase (base_on locks.now catalogue.now.listed lane group.now time) result }
{
    want_free(locks, lane, group)?;
    want_newer(time, catalogue.latest(group))?;
    want_room(catalogue, group)?;
    Ok(catalogue.latest_whole(group))
}

/// The base's text, empty where there is none.
fn base_text(alloc: Global, base: Option<&SnapshotKey>) -> Result<Bytes, AllocError>
    requires { ForSome base (λ k. IsKey k.now) }
    ensures short { IfOk result (λ text. length text < 256) }
    ensures value { IfOk result (λ text. text ≡ text_of_base (lent_key base.entry)) }
{
    match base {
        None => Ok(Bytes::new(alloc)),
        Some(key) => Ok(Bytes::from_vec(key.print(alloc)?.into_bytes())),
    }
}

fn copied(base: Option<&SnapshotKey>) -> Result<Option<SnapshotKey>, AllocError>
    ensures { IfOk result (λ copy. copy ≡ lent_key base.entry) }
{
    match base {
        None => Ok(None),
        Some(key) => Ok(Some(key.clone()?)),
    }
}

/// What OPEN_WRITER tests: what the lane's writer of the snapshot begins with.
#[tactic(auto, unfolding(crate::specs::Opened::to_write))]
fn to_write<D>(
    parts: &Parts<D>,
    alloc: Global,
    lane: u32,
    snapshot: &[u8],
) -> Result<Beginning, Stop>
    requires { lane < 64 }
    ensures value { Decides begins_with (base_to_write snapshot.now) parts.now lane result }
    ensures grammar { IfOk result (λ b. IsKey b.key) }
    ensures group { IfOk result (λ b. b.group ≡ group_of_key b.key) }
    ensures text { IfOk result (λ b. b.text ≡ text_of_base b.base) }
    ensures short { IfOk result (λ b. length b.text < 256) }
{
    let key = parts.idle_key(alloc, lane, snapshot)?;
    let group = key.group(alloc)?;
    let base = base_of(&parts.locks, &parts.catalogue, lane, &group, key.time)?;
    let text = base_text(alloc, base)?;
    let base = copied(base)?;
    Ok(Beginning {
        key,
        group,
        base,
        text,
    })
}

/// The lane takes the group, which no other lane's writer has, and the base. At want of memory nothing has changed.
fn take_locks(locks: &mut LockBook, lane: u32, begun: &Beginning) -> Result<(), AllocError>
    requires { other_holder locks.old lane begun.now.group ≡ None }
    ensures ok { OnOk result (TakesBase locks.old locks.new lane begun.now) }
    ensures err { OnErr result (locks.new ≡ locks.old) }
{
    match locks.writer_take(lane, &begun.group, begun.base.as_ref())? {
        Ok(()) => Ok(()),
        Err(_) => unreachable!(),
    }
}

/// The lane gets a writer of the snapshot, and holds the group and the base. It makes no disk call.
///
/// The reply is the text of the base: the group's latest whole snapshot, or nothing. The refusals, in the order in which
/// they are tested: the lane has a session; the text names no snapshot; a writer has the group; the snapshot is not later
/// than the group's latest, whole or damaged; the group has 4,096 snapshots, damaged ones too.
pub fn open_writer<D: Disk>(
    parts: &mut Parts<D>,
    alloc: Global,
    at: Place,
    snapshot: &[u8],
) -> Result<Reply, Stop>
    requires lane { at.lane < 64 }
    requires in_time { at.moment ≤ last_moment }
    ensures does { PlainDoes D.Disk parts.old parts.new at (OpenWriter snapshot.now) result }
    ensures leaves { PlainLeaves D.Disk parts.old parts.new at (OpenWriter snapshot.now) result }
    // on any disk
    ensures from_state { ActTells (writer_told snapshot.now) parts.old at result }
    ensures locks { TakesLocks parts.old parts.new at.lane result }
{
    let begun = to_write(parts, alloc, at.lane, snapshot)?;
    take_locks(&mut parts.locks, at.lane, &begun)?;
    parts.sessions[at.lane as usize] = Session::Writer(Writing {
        session: backup_session::open_writer(alloc, begun.key, at.moment, begun.base),
        files: Rows::new(alloc),
    });
    Ok(Reply::Base {
        snapshot: begun.text,
    })
}
