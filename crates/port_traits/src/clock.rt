//! What tells the time.

ghost use Rattle.std.specs.Prelude.{◌≡◌, IfSome, Option, Some};
ghost use Rattle.std.specs.Option.{option_map};
ghost use Rattle.port_traits.specs.Readings.{Readings, reading_at, readings_after};

use std::marker::Model;

/// A clock. It has no faults.
pub trait Clock {
    /// The readings to come, where they are told.
    ghost readings: { Self → Option Readings };

    /// The time in whole seconds since the start of 1970. It may go back.
    fn now(&mut self) -> u64
        ensures value { IfSome (readings self.old) (λ r. result ≡ reading_at r 0) }
        ensures after { readings self.new ≡ option_map (readings_after 1) (readings self.old) };
}

/// A clock that tells a list of readings, and after them always the same one.
#[derive(Drop)]
pub struct SetClock {
    readings: Vec<u64>,
    place: usize,
    afterwards: u64,
}

impl Model for SetClock {
    ghost use Rattle.std.specs.Prelude.{◌≤◌, drop, vec_len};
    ghost use Rattle.port_traits.specs.Readings.{Readings};

    ghost Value = { Readings };

    ghost view = { λ c. record { to_come = drop c.place c.readings.items; afterwards = c.afterwards } };

    ghost invariant = { λ c. c.place ≤ vec_len c.readings };
}

impl SetClock {
    /// A clock of these readings and the one after them.
    pub fn new(readings: Vec<u64>, afterwards: u64) -> SetClock
        ensures { result ≡ record { to_come = readings.items; afterwards = afterwards } }
    {
        SetClock {
            readings,
            place: 0,
            afterwards,
        }
    }
}

impl Clock for SetClock {
    ghost readings = { λ c. Some c };

    fn now(&mut self) -> u64 {
        if self.place == self.readings.len() {
            return self.afterwards;
        }
        let reading = self.readings[self.place];
        self.place += 1;
        reading
    }
}
