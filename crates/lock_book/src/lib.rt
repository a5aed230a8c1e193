//! Which lane's writer has which group, and which lanes hold which snapshots.
#![tactic(auto)]

ghost use Rattle.std.specs.Prelude.{◌≡◌, ◌<◌, ◌++◌, IfOk, OnOk, OnErr, option_map, vec_len, vec_capacity};
ghost use Rattle.std.specs.Option.{option_copied, option_to_list};
ghost use Rattle.std.specs.Result.{result_err};
ghost use Rattle.lock_book.specs.Locks.{claim_by};

use std::alloc::{AllocError, Global};
use std::collections::BTreeMap;
use std::marker::Model;
use store_types::{GroupKey, SnapshotKey};
use thiserror::Error;

/// A lane has what was asked for.
#[derive(Clone, Copy, Debug, PartialEq, Eq, Drop, Error)]
#[error("lane {lane} holds it")]
pub struct LaneHolds {
    pub lane: u32,
}

/// A group is held by one lane at most, a snapshot by any number.
#[derive(Drop)]
pub struct LockBook {
    groups: BTreeMap<GroupKey, u32>,
    shared: Vec<(SnapshotKey, u32)>,
}

impl Model for LockBook {
    ghost use Rattle.lock_book.specs.Locks.{Locks};

    ghost Value = { Locks };

    ghost view = { λ b. record { groups = b.groups.entries; shared = b.shared.items } };
}

/// The lane's claim to the snapshot, where there is one.
fn claim_of(lane: u32, key: Option<&SnapshotKey>) -> Result<Option<(SnapshotKey, u32)>, AllocError>
    ensures { IfOk result (λ claim. claim ≡ claim_by lane (option_copied key.entry)) }
{
    match key {
        None => Ok(None),
        Some(key) => Ok(Some((key.clone()?, lane))),
    }
}

/// Places the claim behind the others, where there is one. It takes no memory.
fn add_claim(claims: &mut Vec<(SnapshotKey, u32)>, claim: Option<(SnapshotKey, u32)>)
    requires { vec_len claims.old < vec_capacity claims.old }
    ensures { claims.new.items ≡ claims.old.items ++ option_to_list claim }
{
    if let Some(claim) = claim {
        claims.push_reserved(claim);
    }
}

impl LockBook {
    ghost use Rattle.lock_book.specs.Locks.{Locks, no_locks, group_holder, other_than, least_sharer, TellsHolder, OkTakesGroup, OkTakesWriter, TakesShare, Releases};

    /// No lane holds anything. It takes no memory.
    pub fn new(alloc: Global) -> LockBook
        ensures { result ≡ no_locks }
    {
        LockBook {
            groups: BTreeMap::new(alloc),
            shared: Vec::new(alloc),
        }
    }

    // The lane that has the group, if it is another one.
    fn other_holder(&self, lane: u32, group: &GroupKey) -> Option<u32>
        ensures { result ≡ other_than lane (group_holder self.now group.now) }
    {
        match self.groups.get(group) {
            Some(holder) if *holder != lane => Some(*holder),
            _ => None,
        }
    }

    /// `Ok` where no other lane has the group, else the lane that has it. It takes no memory.
    pub fn free_for_writer(&self, lane: u32, group: &GroupKey) -> Result<(), LaneHolds>
        ensures { TellsHolder self.now lane group.now result }
    {
        match self.other_holder(lane, group) {
            None => Ok(()),
            Some(holder) => Err(LaneHolds { lane: holder }),
        }
    }

    /// Takes a group for a lane, and shares the base with it, where there is one; or tells which other lane has the
    /// group. At that, and at want of memory, nothing has changed.
    pub fn writer_take(
        &mut self,
        lane: u32,
        group: &GroupKey,
        base: Option<&SnapshotKey>,
    ) -> Result<Result<(), LaneHolds>, AllocError>
        ensures held { IfOk result (TellsHolder self.old lane group.now) }
        ensures taken { IfOk result (OkTakesWriter self.old self.new lane group.now base.entry) }
        ensures refused { IfOk result (λ taken. OnErr taken (self.new ≡ self.old)) }
        ensures err { OnErr result (self.new ≡ self.old) }
    {
        if let Some(lane) = self.other_holder(lane, group) {
            return Ok(Err(LaneHolds { lane }));
        }
        let claim = claim_of(lane, base)?;
        let group = group.clone()?;
        self.shared.reserve(1)?;
        self.groups.insert(group, lane)?;
        add_claim(&mut self.shared, claim);
        Ok(Ok(()))
    }

    /// Takes a group for a lane, or tells which other lane has it. At that, and at want of memory, nothing has changed.
    pub fn group_take(
        &mut self,
        lane: u32,
        group: &GroupKey,
    ) -> Result<Result<(), LaneHolds>, AllocError>
        ensures held { IfOk result (TellsHolder self.old lane group.now) }
        ensures taken { IfOk result (OkTakesGroup self.old self.new lane group.now) }
        ensures refused { IfOk result (λ taken. OnErr taken (self.new ≡ self.old)) }
        ensures err { OnErr result (self.new ≡ self.old) }
    {
        self.writer_take(lane, group, None)
    }

    /// Shares a snapshot with a lane. At want of memory nothing has changed.
    pub fn shared_take(&mut self, lane: u32, key: &SnapshotKey) -> Result<(), AllocError>
        ensures ok { OnOk result (TakesShare self.old self.new lane key.now) }
        ensures err { OnErr result (self.new ≡ self.old) }
    {
        let key = key.clone()?;
        self.shared.push((key, lane))?;
        Ok(())
    }

    /// Frees all that a lane holds. It takes no memory.
    pub fn release(&mut self, lane: u32)
        ensures { Releases self.old self.new lane }
    {
        self.groups.retain(|_, holder| *holder != lane);
        self.shared.retain(|claim| claim.1 != lane);
    }

    /// `Ok` where no lane holds the snapshot, else the least one that does. It takes no memory.
    pub fn free_for_removal(&self, key: &SnapshotKey) -> Result<(), LaneHolds>
        ensures value { option_map (λ e. e.lane) (result_err result) ≡ least_sharer self.now key.now }
    {
        match self.least_sharer(key) {
            Some(lane) => Err(LaneHolds { lane }),
            None => Ok(()),
        }
    }

    fn least_sharer(&self, key: &SnapshotKey) -> Option<u32>
        ensures { result ≡ least_sharer self.now key.now }
    {
        let sharers = self.shared.iter().filter(|claim| claim.0 == *key);
        sharers.map(|claim| claim.1).min()
    }
}
