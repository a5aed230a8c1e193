//! Calls that fail by a list of their numbers.

ghost use Rattle.std.specs.Prelude.{◌≡◌, ◌≤◌, ◌↔◌, IsTrue, Contains};
ghost use Rattle.port_traits.specs.Faults.{Rose};
ghost use Rattle.port_traits.specs.Memory.{after_call, after_fault};

use std::marker::Model;

/// Counts calls and faults. The counts stop at 2^64 - 1.
#[derive(Drop)]
pub struct FailingCalls {
    failing: Vec<u64>,
    made: u64,
    faults: u64,
}

impl Model for FailingCalls {
    ghost use Rattle.port_traits.specs.Memory.{Calls};

    ghost Value = { Calls };

    ghost view = { λ c. record { failing = c.failing.items; made = c.made; faults = c.faults } };
}

impl FailingCalls {
    pub fn new(failing: Vec<u64>) -> FailingCalls
        ensures { result ≡ record { failing = failing.items; made = 0; faults = 0 } }
    {
        FailingCalls {
            failing,
            made: 0,
            faults: 0,
        }
    }

    /// Whether the number of the next call, from 0, is listed.
    pub fn next_fails(&self) -> bool
        ensures { IsTrue result ↔ Contains self.now.failing self.now.made }
    {
        self.failing.contains(&self.made)
    }

    /// Counts a call that worked.
    pub fn count_call(&mut self)
        ensures { self.new ≡ after_call self.old }
    {
        self.made = self.made.saturating_add(1);
    }

    /// Counts a call that failed.
    pub fn count_fault(&mut self)
        ensures counted { self.new ≡ after_fault self.old }
        ensures rose { Rose self.old.faults self.new.faults }
        ensures later { self.old.faults ≤ self.new.faults }
    {
        self.made = self.made.saturating_add(1);
        self.faults = self.faults.saturating_add(1);
    }

    pub fn faults(&self) -> u64
        ensures { result ≡ self.now.faults }
    {
        self.faults
    }
}
