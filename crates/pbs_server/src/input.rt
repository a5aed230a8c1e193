//! The input of a session that the program makes.

ghost use Rattle.std.specs.Prelude.{◌≡◌, ℕ, List, Some};

use port_traits::{Failed, MemSource, Source};
use std::alloc::Global;
use std::marker::Model;

/// Bytes in memory as a source, of which no call fails.
#[derive(Drop)]
pub struct MadeInput {
    source: MemSource,
}

impl Model for MadeInput {
    ghost use Rattle.std.specs.Prelude.{◌≡◌, ℕ, List, []};

    ghost Value = { List ℕ };

    ghost view = { λ s. s.source.left };

    ghost invariant = { λ s. s.source.calls.failing ≡ [] };
}

impl MadeInput {
    pub fn new(alloc: Global, bytes: Vec<u8>) -> MadeInput
        ensures { result ≡ bytes.items }
    {
        MadeInput {
            source: MemSource::new(bytes, Vec::new(alloc)),
        }
    }
}

impl Source for MadeInput {
    ghost left = { λ s. Some s };

    ghost faults = { λ s. 0 };

    fn read(&mut self, into: &mut [u8]) -> Result<usize, Failed> {
        self.source.read(into)
    }

    fn faults(&self) -> u64 {
        0
    }
}
