//! How commands begin: what is tested first, in order.

ghost use Rattle.std.specs.Prelude.{◌<◌, IfOk, IfSome};
ghost use Rattle.store_types.specs.Names.{IsGroup, IsKey};
ghost use Rattle.core_state.specs.Decides.{Decides};
ghost use Rattle.core_state.specs.Heads.{after_in, group_in, idle_group, idle_in, idle_key, key_in};

use crate::parts::Parts;
use std::alloc::Global;
use store_stops::Stop;
use store_types::{GroupKey, Refusal, SnapshotKey};

impl<D> Parts<D> {
    /// The snapshot that the text names.
    #[tactic(auto, using(crate::proofs::Texts::bad_name_has_text), unfolding(crate::specs::Heads::key_in))]
    pub fn key_in(&self, alloc: Global, lane: u32, text: &[u8]) -> Result<SnapshotKey, Stop>
        ensures decides { Decides (λ key. key) (key_in text.now) self.now lane result }
        ensures grammar { IfOk result IsKey }
    {
        let Ok(key) = SnapshotKey::parse(alloc, text)? else {
            return Err(Stop::Refused(Refusal::BadName));
        };
        Ok(key)
    }

    /// The group that the text names.
    #[tactic(auto, using(crate::proofs::Texts::bad_name_has_text), unfolding(crate::specs::Heads::group_in))]
    pub fn group_in(&self, alloc: Global, lane: u32, text: &[u8]) -> Result<GroupKey, Stop>
        ensures decides { Decides (λ group. group) (group_in text.now) self.now lane result }
        ensures grammar { IfOk result IsGroup }
    {
        let Ok(group) = GroupKey::parse(alloc, text)? else {
            return Err(Stop::Refused(Refusal::BadName));
        };
        Ok(group)
    }

    /// The snapshot that the text names, or none where the text is empty.
    #[tactic(auto, unfolding(crate::specs::Heads::after_in))]
    pub fn after_in(
        &self,
        alloc: Global,
        lane: u32,
        text: &[u8],
    ) -> Result<Option<SnapshotKey>, Stop>
        ensures decides { Decides (λ after. after) (after_in text.now) self.now lane result }
        ensures grammar { IfOk result (λ after. IfSome after IsKey) }
    {
        if text.is_empty() {
            return Ok(None);
        }
        Ok(Some(self.key_in(alloc, lane, text)?))
    }

    /// The lane has no session.
    #[tactic(auto, unfolding(crate::specs::Heads::idle_in))]
    pub fn idle_in(&self, lane: u32) -> Result<(), Stop>
        requires { lane < 64 }
        ensures decides { Decides (λ done. done) idle_in self.now lane result }
    {
        Ok(self.idle(lane)?)
    }

    /// The lane has no session, and the text names this snapshot.
    #[tactic(auto, unfolding(crate::specs::Heads::idle_key))]
    pub fn idle_key(&self, alloc: Global, lane: u32, text: &[u8]) -> Result<SnapshotKey, Stop>
        requires { lane < 64 }
        ensures decides { Decides (λ key. key) (idle_key text.now) self.now lane result }
        ensures grammar { IfOk result IsKey }
    {
        self.idle_in(lane)?;
        self.key_in(alloc, lane, text)
    }

    /// The lane has no session, and the text names this group.
    #[tactic(auto, unfolding(crate::specs::Heads::idle_group))]
    pub fn idle_group(&self, alloc: Global, lane: u32, text: &[u8]) -> Result<GroupKey, Stop>
        requires { lane < 64 }
        ensures decides { Decides (λ group. group) (idle_group text.now) self.now lane result }
        ensures grammar { IfOk result IsGroup }
    {
        self.idle_in(lane)?;
        self.group_in(alloc, lane, text)
    }
}
