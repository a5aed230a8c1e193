//! GROUP, and the first step of a PRUNE.

ghost use Rattle.std.specs.Prelude.{◌≡◌, ◌<◌, ◌≤◌, length, IfOk, IsTrue};
ghost use Rattle.std.specs.List.{All, list_all};
ghost use Rattle.wire_commands.specs.declared.command.Command.TheVariants.{Group};
ghost use Rattle.store_model.specs.AdminSteps.{counts_fit as fit_counts};
ghost use Rattle.store_history.specs.declared.act.Act.TheVariants.{Plain};
ghost use Rattle.core_state.specs.Commands.{PlainDoes, PlainLeaves};
ghost use Rattle.core_state.specs.Decides.{Decides};
ghost use Rattle.core_state.specs.Named.{is_named_snapshot};
ghost use Rattle.core_admin.specs.AdminActs.{PruneAnswersBy, PruneDoes, PruneLeaves};
ghost use Rattle.core_admin.specs.AnsweredBy.{ActAnswersBy};
ghost use Rattle.core_admin.specs.Listings.{IsShort, texts_of as texts_of_first, to_prune};

use core_state::{Listed, Parts, Place};
use disk_trait::Disk;
use std::alloc::{AllocError, Global};
use store_stops::Stop;
use store_types::{Bytes, COUNT_LIMIT, GROUP_LIMIT, GroupKey, Keep, Refusal, Rows};
use wire_commands::Reply;

/// The texts of the first 4,096 of these snapshots.
fn texts_of(alloc: Global, listed: &[Listed]) -> Result<Rows<Bytes>, AllocError>
    requires { IsTrue (list_all is_named_snapshot listed.now) }
    ensures value { IfOk result (λ texts. texts ≡ texts_of_first listed.now) }
    ensures few { IfOk result (λ texts. length texts ≤ 4096) }
    ensures short { IfOk result (λ texts. All IsShort texts) }
{
    let first = &listed[..listed.len().min(GROUP_LIMIT)];
    let mut texts = Vec::new(alloc);
    for snapshot in first {
        let text = snapshot.kept.key.print(alloc)?;
        texts.push(Bytes::from_vec(text.into_bytes()))?;
    }
    Ok(Rows::from_vec(texts))
}

/// The group's finished snapshots, the oldest first, 4,096 at most. It changes nothing and makes no disk call.
///
/// It is refused where the text names no group.
pub fn group<D: Disk>(
    parts: &Parts<D>,
    alloc: Global,
    at: Place,
    name: &[u8],
) -> Result<Reply, Stop>
    ensures does { PlainDoes D.Disk parts.now parts.now at (Group name.now) result }
    ensures leaves { PlainLeaves D.Disk parts.now parts.now at (Group name.now) result }
    // on any disk
    ensures from_state { ActAnswersBy D.Disk parts.now at (Plain (Group name.now)) result }
{
    let group = parts.group_in(alloc, at.lane, name)?;
    let texts = texts_of(alloc, parts.catalogue.group(&group))?;
    Ok(Reply::Keys(texts))
}

/// Whether each count is one that an option may have.
fn counts_fit(keep: &Keep) -> bool
    ensures { result ≡ fit_counts keep.now }
{
    keep.last <= COUNT_LIMIT
        && keep.hourly <= COUNT_LIMIT
        && keep.daily <= COUNT_LIMIT
        && keep.weekly <= COUNT_LIMIT
        && keep.monthly <= COUNT_LIMIT
        && keep.yearly <= COUNT_LIMIT
}

/// The tests of a PRUNE, in order: the lane has no session; the text names a group; no count is above 1,000.
#[tactic(auto, using(core_state::proofs::Texts::too_many_has_text), unfolding(crate::specs::Listings::to_prune))]
fn to_prune<D>(
    parts: &Parts<D>,
    alloc: Global,
    lane: u32,
    name: &[u8],
    keep: &Keep,
) -> Result<GroupKey, Stop>
    requires { lane < 64 }
    ensures { Decides (λ group. group) (to_prune name.now keep.now) parts.now lane result }
{
    let group = parts.idle_group(alloc, lane, name)?;
    if !counts_fit(keep) {
        let limit = u32::from(COUNT_LIMIT);
        return Err(Stop::Refused(Refusal::TooMany { limit }));
    }
    Ok(group)
}

/// The group's finished snapshots for a PRUNE, as GROUP tells them. It changes nothing and makes no disk call.
pub fn prune_group<D: Disk>(
    parts: &Parts<D>,
    alloc: Global,
    at: Place,
    name: &[u8],
    keep: &Keep,
    _dry: bool,
) -> Result<Reply, Stop>
    requires { at.lane < 64 }
    ensures does { PruneDoes D.Disk parts.now at name.now keep.now _dry result }
    ensures leaves { PruneLeaves D.Disk parts.now at name.now keep.now _dry result }
    // on any disk
    ensures from_state { PruneAnswersBy D.Disk parts.now at name.now keep.now _dry result }
{
    let group = to_prune(parts, alloc, at.lane, name, keep)?;
    let texts = texts_of(alloc, parts.catalogue.group(&group))?;
    Ok(Reply::Keys(texts))
}
