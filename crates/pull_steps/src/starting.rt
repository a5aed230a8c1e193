//! Which snapshots are pulled, and from one to the next.

ghost use Rattle.std.specs.Prelude.{◌≡◌, ◌+◌, ◌≤◌, [], filter, length, map, vec_capacity, vec_len, All, IfOk};
ghost use Rattle.std.specs.Option.{option_map};
ghost use Rattle.store_types.specs.Names.{key_of};
ghost use Rattle.wire_commands.specs.HasText.{ReplyHasText};
ghost use Rattle.store_history.specs.Pulling as model;
ghost use Rattle.store_model.specs.JobReplies.{IsWithinGroup};
ghost use Rattle.pull_steps.specs.Asked.{AsksFor};
ghost use Rattle.pull_steps.specs.States.{CourseHasText, EndsInText, IsShort, pull_in, shown_course};

use crate::ask::Ask;
use crate::course::{Comparing, Course, Seeking};
use crate::ending::ended;
use crate::pull::State;
use crate::stages::ManifestRead;
use std::alloc::{AllocError, Global};
use std::collections::VecDeque;
use store_types::{Bytes, GROUP_LIMIT, Moment, Rows, SnapshotKey};
use wire_commands::{Command, Reply};

/// A snapshot's text names one.
fn is_key(text: &Bytes) -> bool
    ensures { result ≡ model.is_key text.now }
{
    SnapshotKey::time_in(text.as_slice()).is_some()
}

/// The snapshot is later than the newest here, where there is one.
fn is_later(newest: Option<Moment>, text: &Bytes) -> bool
    ensures { result ≡ model.is_later newest text.now }
{
    let Some(newest) = newest else {
        return true;
    };
    match SnapshotKey::time_in(text.as_slice()) {
        Some(time) => newest < time,
        None => false,
    }
}

/// The time of the last of these snapshots.
fn newest_in(here: &[Bytes]) -> Option<Moment>
    ensures { result ≡ model.newest_in here.now }
{
    let text = here.last()?;
    SnapshotKey::time_in(text.as_slice())
}

/// On to the next snapshot, or to the report of those that are pulled. It takes no memory.
#[tactic(auto, unfolding(store_history::specs::Pulling::next_snapshot))]
fn next_snapshot(pulled: Vec<Bytes>, mut later: VecDeque<Bytes>) -> State
    requires few { vec_len pulled + length later.items ≤ 4096 }
    requires room { 4096 ≤ vec_capacity pulled }
    requires pulled { All IsShort pulled.items }
    requires later { All IsShort later.items }
    ensures job { pull_in result ≡ model.next_snapshot pulled.items later.items }
    ensures text { EndsInText (pull_in result) }
{
    match later.pop_front() {
        Some(snapshot) => State::Starting(Course {
            snapshot,
            later,
            pulled,
        }),
        None => State::Over(Reply::Keys(Rows::from_vec(pulled))),
    }
}

impl Seeking {
    pub fn new(alloc: Global, group: &[u8]) -> Result<Seeking, AllocError>
        ensures { IfOk result (λ s. s.group ≡ group.now) }
    {
        Ok(Seeking {
            group: Bytes::from_slice(alloc, group)?,
            room: Vec::with_capacity(alloc, GROUP_LIMIT)?,
        })
    }

    pub fn ask(&self, alloc: Global) -> Result<Ask, AllocError>
        ensures { IfOk result (AsksFor (model.seeking self.now.group)) }
    {
        let group = Bytes::from_slice(alloc, self.group.as_slice())?;
        Ok(Ask::List { group })
    }

    /// The state after what the remote has of the group. It takes no memory.
    #[tactic(auto, unfolding(store_history::specs::Pulling::sought))]
    pub fn sought(self, reply: Reply) -> State
        requires text { ReplyHasText reply }
        requires few { IsWithinGroup reply }
        ensures job { pull_in result ≡ model.sought self.group reply }
        ensures text { EndsInText (pull_in result) }
    {
        let Reply::Keys(snapshots) = reply else {
            return State::Over(reply);
        };
        let Seeking { group, room } = self;
        let mut remote = snapshots.into_vec();
        remote.retain(
            |text: &Bytes| -> bool
                ensures { result ≡ model.is_key text.now }
            { is_key(text) },
        );
        State::Comparing(Comparing {
            group,
            remote,
            room,
        })
    }
}

impl Comparing {
    pub fn ask(&self, alloc: Global) -> Result<Ask, AllocError>
        ensures { IfOk result (AsksFor (model.comparing self.now.group self.now.remote.items)) }
    {
        let group = Bytes::from_slice(alloc, self.group.as_slice())?;
        Ok(Ask::Command(Command::Group { group }))
    }

    /// The state after what is here of the group: the remote's snapshots that are later than the newest here are pulled. It
    /// takes no memory.
    #[tactic(auto, unfolding(store_history::specs::Pulling::compared))]
    pub fn compared(self, reply: Reply) -> State
        requires text { ReplyHasText reply }
        requires texts { All IsShort self.remote.items }
        ensures job { pull_in result ≡ model.compared self.remote.items reply }
        ensures text { EndsInText (pull_in result) }
    {
        let Reply::Keys(here) = reply else {
            return State::Over(reply);
        };
        let newest = newest_in(here.as_slice());
        let Comparing {
            mut remote,
            room,
            ..
        } = self;
        remote.retain(
            |text: &Bytes| -> bool
                ensures { result ≡ model.is_later newest text.now }
            { is_later(newest, text) },
        );
        next_snapshot(room, VecDeque::from_vec(remote))
    }
}

impl Course {
    /// The OPEN_WRITER of the snapshot.
    pub fn ask(&self, alloc: Global) -> Result<Ask, AllocError>
        ensures { IfOk result (AsksFor (model.starting (shown_course self.now))) }
    {
        let snapshot = Bytes::from_slice(alloc, self.snapshot.as_slice())?;
        Ok(Ask::Command(Command::OpenWriter { snapshot }))
    }

    /// The state after the reply to OPEN_WRITER. It takes no memory.
    #[tactic(auto, unfolding(store_history::specs::Pulling::started))]
    pub fn started(self, alloc: Global, reply: Reply) -> State
        requires text { ReplyHasText reply }
        requires texts { CourseHasText (shown_course self) }
        ensures job { pull_in result ≡ model.started (shown_course self) reply }
        ensures text { EndsInText (pull_in result) }
    {
        match reply {
            Reply::Base { .. } => State::ReadingManifest(ManifestRead {
                course: self,
                bytes: Vec::new(alloc),
            }),
            reply => State::Over(reply),
        }
    }

    /// The state after the reply to FINISH: the snapshot is pulled, and the next comes. It takes no memory.
    #[tactic(auto, unfolding(store_history::specs::Pulling::finished))]
    pub fn finished(self, reply: Reply) -> State
        requires text { ReplyHasText reply }
        requires texts { CourseHasText (shown_course self) }
        ensures job { pull_in result ≡ model.goes_on reply (model.finished (shown_course self)) }
        ensures text { EndsInText (pull_in result) }
    {
        if let Reply::Refused(_) = reply {
            return ended(reply);
        }
        let Course {
            snapshot,
            later,
            mut pulled,
        } = self;
        pulled.push_reserved(snapshot);
        next_snapshot(pulled, later)
    }
}
