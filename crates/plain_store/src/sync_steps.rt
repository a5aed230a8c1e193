//! What a SYNC pulls.

ghost use Rattle.std.specs.Prelude.{◌<◌};
ghost use Rattle.plain_sessions.specs.Outcomes.{IsFitRefusal};
ghost use Rattle.plain_store.specs.Outcomes.{Pulls};

use crate::plain::Plain;
use plain_sessions::Stop;
use plain_snapshots::{Snapshot, later_than, members, newest_told};
use std::alloc::Global;
use store_types::Refusal;

impl Plain {
    /// The remote's snapshots of a group that are later than the newest that GROUP tells here, the oldest first.
    pub(crate) fn to_pull(
        &self,
        alloc: Global,
        lane: u32,
        group: &[u8],
        remote: Option<&Plain>,
    ) -> Result<Vec<Snapshot>, Stop>
        requires { lane < 64 }
        ensures fits { IsFitRefusal result }
        ensures gives { Pulls remote.entry (λ p. p.now) self.now lane group.now result }
    {
        let group = self.idle_group(alloc, lane, group)?;
        let Some(remote) = remote else {
            return Err(Stop::Refused(Refusal::NoRemote));
        };
        let here = members(alloc, &group, &self.snapshots)?;
        let there = members(alloc, &group, &remote.snapshots)?;
        let found = later_than(alloc, newest_told(&here), &there)?;
        Ok(found)
    }
}
