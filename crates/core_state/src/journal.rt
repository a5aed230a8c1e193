//! The order of the core's acts, with entries in reserve.

ghost use Rattle.std.specs.Prelude.{◌≡◌, ◌≤◌, ◌<◌, ◌+◌, ◌⊎◌, ◌↔◌, ◌++◌, ◌∷◌, [], sum, IsTrue, IfOk, OnOk, OnErr, slice_index, vec_len, vec_capacity};

use std::alloc::{AllocError, Global};
use store_types::{Entry, LANES};

/// How many entries a lane has in reserve from opening: one for a want of memory, one for the closing of its session,
/// and one for its end.
pub const HELD: u8 = 3;

/// The entries of the order, and beside each the disk's count of calls as it was answered.
#[derive(Drop)]
pub struct Journal {
    pub entries: Vec<Entry>,
    pub calls: Vec<u64>,
    /// Entries to be had without memory that are in no lane's reserve.
    pub spare: usize,
    /// Each lane's entries in reserve, and how many these are.
    pub held: [u8; LANES],
    pub all_held: usize,
    ghost all: { all_held ≡ sum held },
    ghost entries_room: { vec_len entries + spare + all_held ≤ vec_capacity entries },
    ghost calls_room: { vec_len calls + spare + all_held ≤ vec_capacity calls },
}

impl Journal {
    ghost use Rattle.core_state.specs.Entering.{Fills, Enters, SameEntries, OthersHold, NoneLost, FillsFirst, StaysWhole, AllHeld, held_by};

    /// An empty order, with the reserve of every lane.
    pub fn new(alloc: Global) -> Result<Journal, AllocError>
        ensures entries { IfOk result (λ j. j.entries.items ≡ []) }
        ensures calls { IfOk result (λ j. j.calls.items ≡ []) }
        ensures held { IfOk result AllHeld }
    {
        let entries = Vec::with_capacity(alloc, LANES * HELD as usize)?;
        let calls = Vec::with_capacity(alloc, LANES * HELD as usize)?;
        Ok(Journal {
            entries,
            calls,
            spare: 0,
            held: [HELD; LANES],
            all_held: LANES * HELD as usize,
        })
    }

    /// An entry of the lane is to be had without memory.
    pub fn room(&self, lane: usize) -> bool
        requires { lane < 64 }
        ensures { IsTrue result ↔ (0 < self.now.spare ⊎ 0 < slice_index self.now.held lane) }
    {
        0 < self.spare || 0 < self.held[lane]
    }

    /// Makes entries that are to be had without memory. At want of memory nothing has changed.
    pub fn reserve(&mut self, more: u32) -> Result<(), AllocError>
        ensures same { SameEntries self.old self.new }
        ensures held { self.new.held ≡ self.old.held }
        ensures spare { OnOk result (self.new.spare ≡ self.old.spare + more) }
        ensures err { OnErr result (self.new.spare ≡ self.old.spare) }
    {
        let wanted = (self.spare + self.all_held).saturating_add(more as usize);
        self.entries.reserve(wanted)?;
        self.calls.reserve(wanted)?;
        self.spare += more as usize;
        Ok(())
    }

    /// Fills up the lane's reserve, and makes one entry besides. At want of memory nothing has changed.
    pub fn fill(&mut self, lane: usize) -> Result<(), AllocError>
        requires { lane < 64 }
        ensures same { SameEntries self.old self.new }
        ensures ok { OnOk result (Fills self.old self.new lane) }
        ensures err { OnErr result (self.new.held ≡ self.old.held) }
        ensures spare { OnErr result (self.new.spare ≡ self.old.spare) }
        ensures more { held_by self.old lane ≤ held_by self.new lane }
        ensures none_lost { NoneLost self.old self.new lane }
        ensures whole { StaysWhole self.old self.new lane }
        ensures others { OthersHold self.old self.new lane }
        // what the lane holds is as before, or a spare entry is there
        ensures filled { FillsFirst self.old self.new lane }
    {
        let missing = HELD.saturating_sub(self.held[lane]);
        if self.spare <= missing as usize {
            self.reserve(missing as u32 + 1)?;
        }
        self.spare -= missing as usize;
        self.held[lane] += missing;
        self.all_held += missing as usize;
        Ok(())
    }

    /// Enters an act, by a spare entry where there is one, else by one of the lane's reserve. The result says whether it
    /// was the reserve's.
    pub fn enter(&mut self, lane: usize, entry: Entry, calls: u64) -> bool
        requires lane { lane < 64 }
        requires room { 0 < self.old.spare ⊎ 0 < slice_index self.old.held lane }
        ensures entries { self.new.entries.items ≡ self.old.entries.items ++ entry ∷ [] }
        ensures calls { self.new.calls.items ≡ self.old.calls.items ++ calls ∷ [] }
        ensures room { Enters self.old self.new lane result }
    {
        let is_held = self.spare == 0;
        if is_held {
            self.held[lane] -= 1;
            self.all_held -= 1;
        } else {
            self.spare -= 1;
        }
        self.entries.push_reserved(entry);
        self.calls.push_reserved(calls);
        is_held
    }
}
