//! The commands on the store as a whole.

ghost use Rattle.std.specs.Prelude.{◌≡◌, ◌<◌, IfErr};
ghost use Rattle.wire_commands.specs.HasText.{FitsRefusal};
ghost use Rattle.store_model.specs.AdminSteps.{counts_fit as all_fit, list as listed, files as files_told, forget as forgotten, group as grouped, want_free as needs_free, prune_group as prune_begun};
ghost use Rattle.plain_store.specs.Outcomes.{Answers, Does, IsSpelled};

use crate::plain::Plain;
use plain_sessions::{Stop, want_unheld};
use plain_snapshots::{files_reply, keys_reply, list_reply, remove_snapshot, snapshot_named};
use std::alloc::Global;
use store_types::{COUNT_LIMIT, Keep, Refusal, SnapshotKey};
use wire_commands::Reply;

/// Each option's count is within the limit.
fn counts_fit(keep: &Keep) -> bool
    ensures { result ≡ all_fit keep.now }
{
    keep.last <= COUNT_LIMIT
        && keep.hourly <= COUNT_LIMIT
        && keep.daily <= COUNT_LIMIT
        && keep.weekly <= COUNT_LIMIT
        && keep.monthly <= COUNT_LIMIT
        && keep.yearly <= COUNT_LIMIT
}

impl Plain {
    /// LIST: the snapshots after one.
    pub(crate) fn list(&self, alloc: Global, lane: u32, after: &[u8]) -> Result<Reply, Stop>
        ensures does { Answers self.now result (listed self.now lane after.now) }
        ensures spelled { IsSpelled result }
    {
        let after = self.after_in(alloc, lane, after)?;
        let after = after.as_ref().map(|key| key.as_key());
        Ok(list_reply(alloc, &self.snapshots, after)?)
    }

    /// FILES: the files of a snapshot.
    pub(crate) fn files(&self, alloc: Global, lane: u32, snapshot: &[u8]) -> Result<Reply, Stop>
        ensures does { Answers self.now result (files_told self.now lane snapshot.now) }
        ensures spelled { IsSpelled result }
    {
        let key = self.key_in(alloc, lane, snapshot)?;
        let Some(found) = snapshot_named(key.as_key(), &self.snapshots) else {
            return Err(Stop::Refused(Refusal::NoSnapshot));
        };
        Ok(files_reply(alloc, found)?)
    }

    /// The snapshot is there, and no lane holds it.
    fn want_free(&self, key: &SnapshotKey) -> Result<(), Refusal>
        ensures fits { IfErr result FitsRefusal }
        ensures test { result ≡ needs_free self.now key.now }
    {
        if snapshot_named(key, &self.snapshots).is_none() {
            return Err(Refusal::NoSnapshot);
        }
        want_unheld(&self.sessions, key)
    }

    /// FORGET: a snapshot goes.
    pub(crate) fn forget(
        &mut self,
        alloc: Global,
        lane: u32,
        snapshot: &[u8],
    ) -> Result<Reply, Stop>
        requires { lane < 64 }
        ensures does { Does self.old self.new result (forgotten self.old lane snapshot.now) }
        ensures spelled { IsSpelled result }
    {
        let key = self.idle_key(alloc, lane, snapshot)?;
        self.want_free(key.as_key())?;
        remove_snapshot(&mut self.snapshots, key.as_key());
        Ok(Reply::Done)
    }

    /// GROUP: the snapshots of a group.
    pub(crate) fn group(&self, alloc: Global, lane: u32, group: &[u8]) -> Result<Reply, Stop>
        ensures does { Answers self.now result (grouped self.now lane group.now) }
        ensures spelled { IsSpelled result }
    {
        let group = self.group_in(alloc, lane, group)?;
        Ok(keys_reply(alloc, &group, &self.snapshots)?)
    }

    /// The first step of a PRUNE: the snapshots of its group.
    pub(crate) fn prune_group(
        &self,
        alloc: Global,
        lane: u32,
        group: &[u8],
        keep: &Keep,
    ) -> Result<Reply, Stop>
        requires { lane < 64 }
        ensures does { Answers self.now result (prune_begun self.now lane group.now keep.now) }
        ensures spelled { IsSpelled result }
    {
        let group = self.idle_group(alloc, lane, group)?;
        if !counts_fit(keep) {
            return Err(Stop::Refused(Refusal::TooMany {
                limit: COUNT_LIMIT as u32,
            }));
        }
        Ok(keys_reply(alloc, &group, &self.snapshots)?)
    }
}
