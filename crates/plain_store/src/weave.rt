//! The plain store and the replies, where lanes take turns in a given order.

ghost use Rattle.std.specs.Prelude.{◌≡◌, ◌<◌, ◌≤◌, length, map, replicate, slice_index_or, IfOk, IsTrue};
ghost use Rattle.store_files.specs.Order.{keeps_rules};
ghost use Rattle.store_model.specs.declared.ending.Ending.TheVariants.{Clean};
ghost use Rattle.store_model.specs.Store.{none, store_of};
ghost use Rattle.store_model.specs.Lanes.{new_lane};
ghost use Rattle.plain_store.specs.Runs.{BeginsRun, Plays};
ghost use Rattle.plain_store.specs.Replays.{Replays};
ghost use Rattle.plain_store.specs.Turns.{Turns};
ghost use Rattle.store_model.specs.Weave.{known, woven_of, misfit as misfit_at};

use crate::frees::{Free, note};
use crate::plain::Plain;
use crate::run::Run;
use plain_lanes::Lane;
use plain_sessions::{Held, Session};
use plain_snapshots::Snapshot;
use std::alloc::{AllocError, Global};
use std::marker::Model;
use store_model::Ending;
use store_types::{Bytes, Entry, Rows};

/// The last store, and each lane's replies: their frames, one after another.
#[derive(Drop)]
pub struct Woven {
    pub store: Plain,
    pub replies: Rows<Bytes>,
}

impl Model for Woven {
    ghost use Rattle.store_model.specs.Weave as model;

    ghost Value = { model.Woven };

    ghost view = { λ w. record { store = w.store; replies = w.replies } };
}

/// The first entry of the order that does not fit: its place from 0, its lane, and how many bytes
/// that lane's replies have by then.
#[derive(Debug, Drop)]
pub struct Misfit {
    pub entry: u64,
    pub lane: u32,
    pub replayed: u64,
}

impl Model for Misfit {
    ghost use Rattle.store_model.specs.Weave as model;

    ghost Value = { model.Misfit };

    ghost view = { λ m. record { entry = m.entry; lane = m.lane; replayed = m.replayed } };
}

/// What an order makes, and where its replies have numbers that are free.
#[derive(Drop)]
pub struct Replayed {
    pub woven: Woven,
    pub frees: Vec<Free>,
}

/// How the lane ends.
fn ending_of(endings: &[Ending], lane: u32) -> Ending
    requires { lane < length endings.now }
    ensures { result ≡ slice_index_or endings.now lane Clean }
{
    endings[lane as usize]
}

/// Lanes without a session.
fn idle_sessions(alloc: Global) -> Result<Vec<Session>, AllocError>
    ensures { IfOk result (λ sessions. sessions.items ≡ replicate 64 none) }
{
    let mut sessions = Vec::new(alloc);
    while sessions.len() < 64 {
        sessions.push(Session {
            held: Held::Nothing,
        })?;
    }
    Ok(sessions)
}

/// Lanes at the start of their inputs.
fn new_lanes<'a>(alloc: Global, inputs: &'a [Bytes]) -> Result<Vec<Lane<'a>>, AllocError>
    ensures { IfOk result (λ lanes. lanes.items ≡ map new_lane inputs.now) }
{
    let mut lanes = Vec::new(alloc);
    for input in inputs {
        lanes.push(Lane::new(alloc, input.as_slice()))?;
    }
    Ok(lanes)
}

/// What the lanes were told.
fn replies_of(alloc: Global, lanes: Vec<Lane>) -> Result<Vec<Bytes>, AllocError>
    ensures { IfOk result (λ replies. replies.items ≡ map (λ lane. lane.told) lanes.entry.items) }
{
    let mut replies = Vec::new(alloc);
    for lane in lanes {
        replies.push(lane.into_told())?;
    }
    Ok(replies)
}

impl Plain {
    /// A store of these snapshots, without sessions.
    pub(crate) fn of(alloc: Global, snapshots: Vec<Snapshot>) -> Result<Plain, AllocError>
        ensures { IfOk result (λ store. store ≡ store_of snapshots.items) }
    {
        let sessions = idle_sessions(alloc)?;
        Ok(Plain {
            snapshots,
            sessions,
        })
    }

    /// The run before the first entry.
    fn begin<'a>(
        &self,
        alloc: Global,
        remote: Option<&'a Plain>,
        inputs: &'a [Bytes],
    ) -> Result<Run<'a>, AllocError>
        ensures run { BeginsRun self.now remote.entry (λ p. p.now) inputs.now result }
        ensures lanes { IfOk result (λ run. length run.lanes ≡ length inputs.now) }
    {
        Ok(Run {
            store: Plain::of(alloc, self.snapshots.clone()?)?,
            remote,
            lanes: new_lanes(alloc, inputs)?,
            collecting: None,
            fault: None,
        })
    }

    /// The last store and each lane's replies, where the lanes with these inputs and endings take
    /// turns in this order, over the store's snapshots and without sessions at first; or the first
    /// entry that does not fit.
    pub fn weave(
        &self,
        alloc: Global,
        remote: Option<&Plain>,
        order: &[Entry],
        inputs: &[Bytes],
        endings: &[Ending],
    ) -> Result<Result<Woven, Misfit>, AllocError>
        requires lanes { length inputs.now ≤ 64 }
        requires endings { length endings.now ≡ length inputs.now }
        requires rules { IsTrue (keeps_rules (length inputs.now) order.now) }
        ensures { Plays self.now remote.entry (λ p. p.now) order.now inputs.now endings.now result }
    {
        match self.replay(alloc, remote, order, inputs, endings)? {
            Ok(replayed) => Ok(Ok(replayed.woven)),
            Err(misfit) => Ok(Err(misfit)),
        }
    }

    /// What [`Plain::weave`] gives, and where the replies have numbers that are free.
    pub fn replay(
        &self,
        alloc: Global,
        remote: Option<&Plain>,
        order: &[Entry],
        inputs: &[Bytes],
        endings: &[Ending],
    ) -> Result<Result<Replayed, Misfit>, AllocError>
        requires lanes { length inputs.now ≤ 64 }
        requires endings { length endings.now ≡ length inputs.now }
        requires rules { IsTrue (keeps_rules (length inputs.now) order.now) }
        ensures { Replays self.now remote.entry (λ p. p.now)
            order.now inputs.now endings.now result }
    {
        let mut run = self.begin(alloc, remote, inputs)?;
        let mut frees = Vec::new(alloc);
        for place in 0..order.len() {
            if let Some(misfit) = run.take_turn(alloc, place, order, endings, &mut frees)? {
                return Ok(Err(misfit));
            }
        }
        let woven = run.woven(alloc)?;
        Ok(Ok(Replayed { woven, frees }))
    }
}

impl Run<'_> {
    /// Takes the entry at this place of the order, and notes what its reply leaves free, or tells that it does not fit.
    fn take_turn(
        &mut self,
        alloc: Global,
        place: usize,
        order: &[Entry],
        endings: &[Ending],
        frees: &mut Vec<Free>,
    ) -> Result<Option<Misfit>, AllocError>
        requires place { place < length order.now }
        requires lanes { length self.old.lanes ≤ 64 }
        requires endings { length endings.now ≡ length self.old.lanes }
        requires rules { IsTrue (keeps_rules (length self.old.lanes) order.now) }
        ensures turn { IfOk result (Turns (known endings.now) order.now place
            self.old self.new frees.old.items frees.new.items) }
        ensures lanes { IfOk result (λ _. length self.new.lanes ≡ length self.old.lanes) }
    {
        let entry = &order[place];
        let ending = ending_of(endings, entry.lane);
        let later = &order[place + 1..];
        note(frees, self.freed(entry))?;
        if self.enter(alloc, place as u64, entry, ending, later)? {
            return Ok(None);
        }
        Ok(Some(self.misfit(place as u64, entry)))
    }

    /// The entry at this place does not fit.
    fn misfit(&self, place: u64, entry: &Entry) -> Misfit
        requires { entry.now.lane < length self.now.lanes }
        ensures { result ≡ misfit_at self.now place entry.now }
    {
        let lane = &self.lanes[entry.lane as usize];
        Misfit {
            entry: place,
            lane: entry.lane,
            replayed: lane.told_len(),
        }
    }

    /// The store and the replies at the end of the order.
    fn woven(self, alloc: Global) -> Result<Woven, AllocError>
        ensures { IfOk result (λ woven. woven ≡ woven_of self.entry) }
    {
        let Run {
            store,
            remote: _,
            lanes,
            collecting: _,
            fault: _,
        } = self;
        let replies = replies_of(alloc, lanes)?;
        Ok(Woven {
            store,
            replies: Rows::from_vec(replies),
        })
    }
}
