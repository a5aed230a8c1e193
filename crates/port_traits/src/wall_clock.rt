//! The clock of the system.

ghost use Rattle.std.specs.Prelude.{None};

use crate::clock::Clock;
use std::rt;
use std::time::{SystemTime, UNIX_EPOCH};

/// The system's clock in whole seconds. It tells 0 before 1970, and where the system tells no time.
#[derive(Clone, Copy, Debug)]
pub struct WallClock<R: rt::Clock> {
    rt: R,
}

impl<R: rt::Clock> WallClock<R> {
    pub fn new(rt: R) -> WallClock<R> {
        WallClock { rt }
    }
}

impl<R: rt::Clock> Clock for WallClock<R> {
    ghost readings = { λ _. None };

    fn now(&mut self) -> u64 {
        let Ok(time) = SystemTime::now(&self.rt) else {
            return 0;
        };
        match time.duration_since(UNIX_EPOCH) {
            Ok(since) => since.as_secs(),
            Err(_) => 0,
        }
    }
}
