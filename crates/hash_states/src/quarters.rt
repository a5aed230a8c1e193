//! Bytes that are hashed again.

ghost use Rattle.std.specs.Prelude.{◌≡◌, ◌*◌, ◌/◌, IsTrue};
ghost use Rattle.hash_states.specs.States.{AreAfter};

use crate::BLOCK_LEN;
use crate::blocks::after_quarters;

/// The hash values of a SHA-256 after each quarter of some bytes that it took in. A quarter is of whole blocks, so that fewer
/// than 256 bytes may be left behind the four.
#[derive(Clone, Copy, Drop)]
pub struct Quarters {
    pub(crate) values: [[u32; 8]; 4],
}

/// How many bytes are in each quarter of so many.
pub(crate) fn quarter_len(len: usize) -> usize
    ensures { result ≡ len / 256 * 64 }
{
    len / (4 * BLOCK_LEN) * BLOCK_LEN
}

impl Quarters {
    /// Whether these are the hash values after each quarter of the bytes, behind this one.
    pub(crate) fn follow(&self, value: &[u32; 8], bytes: &[u8]) -> bool
        ensures only { IsTrue result → AreAfter value.now bytes.now self.now.values }
        ensures all { AreAfter value.now bytes.now self.now.values → IsTrue result }
    {
        let [a, b, c, _] = self.values;
        let found = after_quarters(&[*value, a, b, c], bytes, quarter_len(bytes.len()));
        found == self.values
    }
}
