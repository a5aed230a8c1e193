//! What bytes go to.

ghost use Rattle.std.specs.Prelude.{◌≡◌, ℕ, ◌≤◌, List, length, take, is_ok, IfOk, OnErr, Option};
ghost use Rattle.port_traits.specs.Faults.{HasCause};
ghost use Rattle.port_traits.specs.Bytes.{AddsTo, IsCountOf, Writes, TakesFront, NoneIsFault, PutsCounted};

use crate::source::Failed;

/// What bytes go to, as a file or a connection.
pub trait Sink {
    /// The bytes that it has taken, where that is told.
    ghost taken: { Self → Option (List ℕ) };

    /// How many faults there were. The count stops at 2^64 - 1.
    ghost faults: { Self → ℕ };

    /// Writes the front of some bytes, and says how many it took. 0 for a slice that isn't empty is
    /// a fault too. A call that fails takes nothing.
    fn write(&mut self, bytes: &[u8]) -> Result<usize, Failed>
        ensures bound { IfOk result (λ n. n ≤ length bytes.now) }
        ensures ok { TakesFront taken self.old self.new bytes.now result }
        ensures err { OnErr result (taken self.new ≡ taken self.old) }
        ensures stuck { NoneIsFault faults self.old self.new bytes.now result }
        ensures cause { HasCause (faults self.old) (faults self.new) result };

    /// The count of faults.
    fn faults(&self) -> u64
        ensures { result ≡ faults self.now };
}

/// Writes all of the bytes, or fails with a front of them written. It takes no memory.
pub fn write_all_of<K: Sink>(sink: &mut K, bytes: &[u8]) -> Result<(), Failed>
    ensures bytes { Writes (K.taken sink.old) (K.taken sink.new) bytes.now (is_ok result) }
    ensures cause { HasCause (K.faults sink.old) (K.faults sink.new) result }
{
    write_front(sink, bytes).1
}

/// Writes as `write_all_of` does, and adds how many bytes were written to a count, also where it
/// fails.
pub fn write_counted<K: Sink>(sink: &mut K, bytes: &[u8], given: &mut u64) -> Result<(), Failed>
    ensures bytes { PutsCounted K.taken sink.old sink.new given.old given.new bytes.now result }
    ensures cause { HasCause (K.faults sink.old) (K.faults sink.new) result }
{
    let (count, result) = write_front(sink, bytes);
    *given = given.saturating_add(count as u64);
    result
}

// How many bytes were written, and whether these were all.
fn write_front<K: Sink>(sink: &mut K, bytes: &[u8]) -> (usize, Result<(), Failed>)
    ensures how_many { IsCountOf (is_ok result.1) bytes.now result.0 }
    ensures added { AddsTo (K.taken sink.old) (K.taken sink.new) (take result.0 bytes.now) }
    ensures cause { HasCause (K.faults sink.old) (K.faults sink.new) result.1 }
{
    let mut done = 0;
    while done < bytes.len() {
        match sink.write(&bytes[done..]) {
            Ok(count) if count > 0 => done += count,
            _ => return (done, Err(Failed)),
        }
    }
    (done, Ok(()))
}
