//! What the entries so far leave to test.

ghost use Rattle.std.specs.Prelude.{◌≡◌, IsTrue, IfOk};
ghost use Rattle.order_file.specs.Progress.{begun, is_next, after, is_over};

use std::alloc::{AllocError, Global};
use std::marker::Model;
use store_types::{END_KIND, Entry, LAST_MOMENT, Moment};

/// The moment that no later entry may be before, and of each lane whether it has ended.
#[derive(Drop)]
pub struct Progress {
    last: Moment,
    ended: Vec<bool>,
}

impl Model for Progress {
    ghost use Rattle.order_file.specs.Progress.{Progress as Told};

    ghost Value = { Told };

    ghost view = { λ p. record { last = p.last; ended = p.ended.items } };
}

impl Progress {
    /// Before the first entry, for so many lanes. It takes a byte a lane.
    pub fn new(alloc: Global, lanes: u32) -> Result<Progress, AllocError>
        ensures { IfOk result (λ p. p ≡ begun lanes) }
    {
        let ended = vec![in alloc; false; lanes as usize]?;
        Ok(Progress { last: 0, ended })
    }

    /// Whether this may be the next entry: of a lane that has not ended, at no earlier moment, and in range.
    pub fn is_next(&self, entry: Entry) -> bool
        ensures { result ≡ is_next self.now entry }
    {
        let has_ended = self.ended.get(entry.lane as usize).copied().unwrap_or(true);
        !has_ended && self.last <= entry.moment && entry.moment <= LAST_MOMENT && entry.kind < 8
    }

    /// Takes the next entry.
    pub fn take(&mut self, entry: Entry)
        requires { IsTrue (is_next self.old entry) }
        ensures { self.new ≡ after self.old entry }
    {
        self.last = entry.moment;
        self.ended[entry.lane as usize] = entry.kind == END_KIND;
    }

    /// Whether each lane has ended.
    pub fn is_over(&self) -> bool
        ensures { result ≡ is_over self.now }
    {
        self.ended.iter().all(|ended| *ended)
    }
}
