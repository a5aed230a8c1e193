//! The lengths of chunks in one map.

ghost use Rattle.std.specs.Prelude.{◌≡◌, OnOk, OnErr};
ghost use Rattle.std.specs.FinMap.{empty, get, insert, remove};
ghost use Rattle.known_chunks.specs.Lengths.{with_length};

use std::alloc::{AllocError, Global};
use std::collections::BTreeMap;
use std::marker::Model;
use store_types::Digest32;

/// The lengths of chunks by their digests, as contracts see it: a finite map.
#[derive(Drop)]
pub struct Known {
    lengths: BTreeMap<Digest32, u32>,
}

impl Model for Known {
    ghost use Rattle.known_chunks.specs.Lengths.{Lengths, lengths_of};
    ghost use Rattle.std.specs.FinMap.{code};
    ghost use Rattle.std.specs.Coded.{coded_ℕ, coded_list};

    ghost Value = { Lengths };

    ghost coded = { code (coded_list coded_ℕ) coded_ℕ };

    ghost view = { λ k. lengths_of k.lengths.entries };
}

impl Known {
    /// No chunk. It takes no memory.
    pub fn new(alloc: Global) -> Known
        ensures { result ≡ empty }
    {
        Known {
            lengths: BTreeMap::new(alloc),
        }
    }

    /// Notes a chunk's length, in place of one noted before. At want of memory nothing has changed.
    pub fn add(&mut self, digest: &Digest32, length: u32) -> Result<(), AllocError>
        ensures ok { OnOk result (self.new ≡ insert self.old digest.now.0 length) }
        ensures err { OnErr result (self.new ≡ self.old) }
    {
        self.lengths.insert(*digest, length)?;
        Ok(())
    }

    /// Notes a chunk's length, unless one is noted. At want of memory nothing has changed.
    pub fn add_new(&mut self, digest: &Digest32, length: u32) -> Result<(), AllocError>
        ensures ok { OnOk result (self.new ≡ with_length self.old (digest.now.0, length)) }
        ensures err { OnErr result (self.new ≡ self.old) }
    {
        self.lengths.entry(*digest)?.or_insert(length);
        Ok(())
    }

    /// Takes a chunk out, where it is there. It takes no memory.
    pub fn remove(&mut self, digest: &Digest32)
        ensures { self.new ≡ remove self.old digest.now.0 }
    {
        let _ = self.lengths.remove(digest);
    }

    /// The chunk's length, or `None` exactly where the chunk is not there. It takes no memory.
    pub fn find(&self, digest: &Digest32) -> Option<u32>
        ensures { result ≡ get self.now digest.now.0 }
    {
        self.lengths.get(digest).copied()
    }
}
