//! What bytes come from.

ghost use Rattle.std.specs.Prelude.{◌≡◌, ℕ, ◌≤◌, List, length, IfOk, is_some, Option};
ghost use Rattle.port_traits.specs.Faults.{HasCause};
ghost use Rattle.port_traits.specs.Bytes.{GivesFront, NoneIsEnd};

use thiserror::Error;

/// A source or a sink failed. Its count of faults rose.
#[derive(Clone, Copy, Debug, PartialEq, Eq, Drop, Error)]
#[error("a source or a sink failed")]
pub struct Failed;

/// What bytes come from, as a file or a connection.
pub trait Source {
    /// The bytes that are left, where that is told.
    ghost left: { Self → Option (List ℕ) };

    /// How many faults there were. The count stops at 2^64 - 1.
    ghost faults: { Self → ℕ };

    /// Reads into the front of a slice, and says how many bytes it read. 0 for a slice that isn't
    /// empty is the end. What the slice holds behind them, and what is left after a fault, is open.
    fn read(&mut self, into: &mut [u8]) -> Result<usize, Failed>
        ensures bound { IfOk result (λ n. n ≤ length into.new) }
        ensures bytes { GivesFront left self.old self.new into.new result }
        ensures end { NoneIsEnd left self.old into.old result }
        ensures told { is_some (left self.new) ≡ is_some (left self.old) }
        ensures cause { HasCause (faults self.old) (faults self.new) result };

    /// The count of faults.
    fn faults(&self) -> u64
        ensures { result ≡ faults self.now };
}
