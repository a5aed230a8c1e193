//! What a new snapshot is tested for.

ghost use Rattle.std.specs.Prelude.{◌≡◌, IfErr};
ghost use Rattle.store_model.specs.WriterSteps.{want_newer as needs_newer};
ghost use Rattle.core_state.specs.Found.{lent_key};
ghost use Rattle.store_history.specs.Replies.{refuses_writer};
ghost use Rattle.core_writer.specs.Opened.{wants_room};
ghost use Rattle.core_writer.specs.Stopping.{RefusesBy};

use core_state::Catalogue;
use store_types::{GROUP_LIMIT, GroupKey, Refusal, SnapshotKey};

/// A snapshot of this time is later than the latest of its group, whole or damaged.
#[tactic(auto, using(core_state::proofs::Texts::not_newer_has_text))]
pub fn want_newer(time: u64, latest: Option<&SnapshotKey>) -> Result<(), Refusal>
    ensures refusal { IfErr result (RefusesBy refuses_writer) }
    ensures value { result ≡ needs_newer time (lent_key latest.entry) }
{
    match latest {
        Some(latest) if time <= latest.time => Err(Refusal::NotNewer {
            latest: latest.time,
        }),
        _ => Ok(()),
    }
}

/// The group has room for one more.
#[tactic(auto, using(core_state::proofs::Texts::too_many_has_text))]
pub fn want_room(catalogue: &Catalogue, group: &GroupKey) -> Result<(), Refusal>
    ensures refusal { IfErr result (RefusesBy refuses_writer) }
    ensures value { result ≡ wants_room group.now catalogue.now.listed }
{
    if catalogue.count(group) < GROUP_LIMIT {
        Ok(())
    } else {
        let limit = GROUP_LIMIT as u32;
        Err(Refusal::TooMany { limit })
    }
}
