//! How commands begin: what is tested first, in order.

ghost use Rattle.std.specs.Prelude.{◌≡◌, ◌<◌, IfErr};
ghost use Rattle.wire_commands.specs.HasText.{FitsRefusal};
ghost use Rattle.store_model.specs.Heads.{key_in as names_key, group_in as names_group, after_in as names_after, idle_in as is_idle, idle_key as idle_names_key, idle_group as idle_names_group};
ghost use Rattle.plain_sessions.specs.Outcomes.{Gives, IsFitRefusal};

use crate::plain::Plain;
use plain_sessions::Stop;
use plain_snapshots::PlainKey;
use std::alloc::Global;
use store_types::{GroupKey, Refusal};

impl Plain {
    /// The snapshot that the text names.
    #[tactic(auto, unfolding(store_model::specs::Heads::key_in))]
    pub(crate) fn key_in(&self, alloc: Global, lane: u32, text: &[u8]) -> Result<PlainKey, Stop>
        ensures fits { IsFitRefusal result }
        ensures gives { Gives (λ key. key) result (names_key self.now lane text.now) }
    {
        let Ok(key) = PlainKey::parse(alloc, text)? else {
            return Err(Stop::Refused(Refusal::BadName));
        };
        Ok(key)
    }

    /// The group that the text names.
    #[tactic(auto, unfolding(store_model::specs::Heads::group_in))]
    pub(crate) fn group_in(&self, alloc: Global, lane: u32, text: &[u8]) -> Result<GroupKey, Stop>
        ensures fits { IsFitRefusal result }
        ensures gives { Gives (λ group. group) result (names_group self.now lane text.now) }
    {
        let Ok(group) = GroupKey::parse(alloc, text)? else {
            return Err(Stop::Refused(Refusal::BadName));
        };
        Ok(group)
    }

    /// The snapshot that the text names, or none where the text is empty.
    #[tactic(auto, unfolding(store_model::specs::Heads::key_in, store_model::specs::Heads::after_in))]
    pub(crate) fn after_in(
        &self,
        alloc: Global,
        lane: u32,
        text: &[u8],
    ) -> Result<Option<PlainKey>, Stop>
        ensures fits { IsFitRefusal result }
        ensures gives { Gives (λ after. after) result (names_after self.now lane text.now) }
    {
        if text.is_empty() {
            return Ok(None);
        }
        Ok(Some(self.key_in(alloc, lane, text)?))
    }

    /// The lane has no session.
    #[tactic(auto, unfolding(store_model::specs::Heads::idle_in))]
    pub(crate) fn idle_in(&self, lane: u32) -> Result<(), Refusal>
        requires { lane < 64 }
        ensures fits { IfErr result FitsRefusal }
        ensures test { result ≡ is_idle self.now lane }
    {
        self.held(lane).want_idle()
    }

    /// The lane has no session, and the text names this snapshot.
    #[tactic(auto, unfolding(store_model::specs::Heads::idle_key))]
    pub(crate) fn idle_key(&self, alloc: Global, lane: u32, text: &[u8]) -> Result<PlainKey, Stop>
        requires { lane < 64 }
        ensures fits { IsFitRefusal result }
        ensures gives { Gives (λ key. key) result (idle_names_key self.now lane text.now) }
    {
        self.idle_in(lane)?;
        self.key_in(alloc, lane, text)
    }

    /// The lane has no session, and the text names this group.
    #[tactic(auto, unfolding(store_model::specs::Heads::idle_group))]
    pub(crate) fn idle_group(&self, alloc: Global, lane: u32, text: &[u8]) -> Result<GroupKey, Stop>
        requires { lane < 64 }
        ensures fits { IsFitRefusal result }
        ensures gives { Gives (λ group. group) result (idle_names_group self.now lane text.now) }
    {
        self.idle_in(lane)?;
        self.group_in(alloc, lane, text)
    }
}
