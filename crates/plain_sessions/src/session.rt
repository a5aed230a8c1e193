//! The sessions of lanes.

ghost use Rattle.std.specs.Prelude.{◌≡◌, length, IfErr, OnOk, OnErr, position};
ghost use Rattle.store_types.specs.Chain.Refusing.{if_none};
ghost use Rattle.store_types.specs.Names.{group_of_key};
ghost use Rattle.store_model.specs.Store.{writes_group as has_group, holds_snapshot as has_snapshot};
ghost use Rattle.store_types.specs.declared.refusal.Refusal.TheVariants.{GroupBusy, SnapshotBusy};
ghost use Rattle.wire_commands.specs.HasText.{FitsRefusal};
ghost use Rattle.plain_sessions.specs.Changes.{changed_in, FitsSession};
ghost use Rattle.plain_sessions.specs.Outcomes.{Tells};
ghost use Rattle.plain_sessions.specs.Sessions.{group_writer};

use crate::changes::Change;
use crate::reader::Reader;
use crate::writer::Writer;
use std::alloc::AllocError;
use std::marker::Model;
use store_types::{Refusal, SessionState, SnapshotKey};

/// What a lane has.
#[derive(Drop)]
pub enum Held {
    Nothing,
    Writing(Writer),
    Reading(Reader),
}

/// The session of a lane.
#[derive(Drop)]
pub struct Session {
    pub held: Held,
}

impl Model for Session {
    ghost use Rattle.store_model.specs.Store as model;

    ghost Value = { model.Session };

    ghost use Rattle.plain_sessions.specs.Sessions.{shown_held};

    ghost view = { λ s. shown_held s.held };
}

impl Held {
    ghost use Rattle.store_model.specs.Store.{want_idle as needs_idle, want_writer as needs_writer, want_reader as needs_reader};
    ghost use Rattle.plain_sessions.specs.Sessions.{shown_held, state_of};

    fn state(&self) -> SessionState
        ensures { result ≡ state_of self.now }
    {
        match self {
            Held::Nothing => SessionState::Idle,
            Held::Writing(_) => SessionState::Writer,
            Held::Reading(_) => SessionState::Reader,
        }
    }

    /// There is no session.
    pub fn want_idle(&self) -> Result<(), Refusal>
        ensures test { result ≡ needs_idle (shown_held self.now) }
        ensures fits { IfErr result FitsRefusal }
    {
        match self {
            Held::Nothing => Ok(()),
            _ => Err(Refusal::WrongState(self.state())),
        }
    }

    /// The session is a writer.
    pub fn want_writer(&self) -> Result<&Writer, Refusal>
        ensures fits { IfErr result FitsRefusal }
        ensures test { Tells result (needs_writer (shown_held self.now)) (λ w. w.now) }
    {
        match self {
            Held::Writing(w) => Ok(w),
            _ => Err(Refusal::WrongState(self.state())),
        }
    }

    /// The session is a reader.
    pub fn want_reader(&self) -> Result<&Reader, Refusal>
        ensures fits { IfErr result FitsRefusal }
        ensures test { Tells result (needs_reader (shown_held self.now)) (λ x. x.now) }
    {
        match self {
            Held::Reading(r) => Ok(r),
            _ => Err(Refusal::WrongState(self.state())),
        }
    }

    /// The writer, where there is one, is changed. At want of memory nothing has changed.
    pub fn change(&mut self, change: Change) -> Result<(), AllocError>
        requires { FitsSession change (shown_held self.old) }
        ensures ok { OnOk result (shown_held self.new ≡ changed_in change (shown_held self.old)) }
        ensures err { OnErr result (shown_held self.new ≡ shown_held self.old) }
    {
        match self {
            Held::Writing(w) => w.change(change),
            _ => Ok(()),
        }
    }

    /// The session's writer has the snapshot's group.
    fn writes_group(&self, key: &SnapshotKey) -> bool
        ensures { result ≡ has_group (group_of_key key.now) (shown_held self.now) }
    {
        match self {
            Held::Writing(w) => key.same_group(w.key.as_key()),
            _ => false,
        }
    }

    /// The session's writer has the snapshot as its base, or its reader has it.
    fn has_snapshot(&self, key: &SnapshotKey) -> bool
        ensures { result ≡ has_snapshot key.now (shown_held self.now) }
    {
        match self {
            Held::Nothing => false,
            Held::Writing(w) => w.has_base(key),
            Held::Reading(r) => key == r.key().as_key(),
        }
    }
}

/// The lane whose writer has the snapshot's group.
fn group_holder(sessions: &[Session], key: &SnapshotKey) -> Option<usize>
    ensures { result ≡ group_writer key.now sessions.now }
{
    sessions
        .iter()
        .position(|session| session.held.writes_group(key))
}

/// No writer has the snapshot's group.
pub fn want_free(sessions: &[Session], key: &SnapshotKey) -> Result<(), Refusal>
    requires { length sessions.now ≡ 64 }
    ensures fits { IfErr result FitsRefusal }
    ensures test { result ≡ if_none GroupBusy (group_writer key.now sessions.now) }
{
    match group_holder(sessions, key) {
        None => Ok(()),
        Some(lane) => Err(Refusal::GroupBusy { lane: lane as u32 }),
    }
}

/// The least lane that holds the snapshot.
fn snapshot_holder(sessions: &[Session], key: &SnapshotKey) -> Option<usize>
    ensures { result ≡ position (has_snapshot key.now) sessions.now }
{
    sessions
        .iter()
        .position(|session| session.held.has_snapshot(key))
}

/// No lane holds the snapshot.
pub fn want_unheld(sessions: &[Session], key: &SnapshotKey) -> Result<(), Refusal>
    requires { length sessions.now ≡ 64 }
    ensures fits { IfErr result FitsRefusal }
    ensures test { result ≡ if_none SnapshotBusy (position (has_snapshot key.now) sessions.now) }
{
    match snapshot_holder(sessions, key) {
        None => Ok(()),
        Some(lane) => Err(Refusal::SnapshotBusy { lane: lane as u32 }),
    }
}
