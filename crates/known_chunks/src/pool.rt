//! The lengths of chunks in several maps.

ghost use Rattle.std.specs.Prelude.{◌≡◌, map, OnOk, OnErr};
ghost use Rattle.std.specs.FinMap.{empty, get, insert, remove};
ghost use Rattle.known_chunks.specs.Lengths.{found_in, joined as joined_with};

use crate::known::Known;
use std::alloc::{AllocError, Global};
use std::marker::Model;
use store_types::Digest32;

/// The lengths of chunks by their digests, as contracts see it: one finite map, in which a length of an earlier map stays.
/// A map joins it as it is, so that no length is noted a second time.
#[derive(Drop)]
pub struct Pool {
    own: Known,
    joined: Vec<Known>,
}

impl Model for Pool {
    ghost use Rattle.known_chunks.specs.Lengths.{Lengths, joined_all};
    ghost use Rattle.std.specs.FinMap.{code};
    ghost use Rattle.std.specs.Coded.{coded_ℕ, coded_list};

    ghost Value = { Lengths };

    ghost coded = { code (coded_list coded_ℕ) coded_ℕ };

    ghost view = { λ p. joined_all p.own p.joined.items };
}

/// The length in the first of these maps that has the chunk.
fn find_in(maps: &[Known], digest: &Digest32) -> Option<u32>
    ensures { result ≡ found_in digest.now.0 maps.now }
{
    for known in maps {
        if let Some(length) = known.find(digest) {
            return Some(length);
        }
    }
    None
}

/// Takes a chunk out of each of these maps.
fn remove_in(maps: &mut [Known], digest: &Digest32)
    ensures { maps.new ≡ map (λ m. remove m digest.now.0) maps.old }
{
    for known in maps.iter_mut() {
        known.remove(digest);
    }
}

impl Pool {
    /// No chunk. It takes no memory.
    pub fn new(alloc: Global) -> Pool
        ensures { result ≡ empty }
    {
        Pool {
            own: Known::new(alloc),
            joined: Vec::new(alloc),
        }
    }

    /// Notes a chunk's length, in place of one noted before. At want of memory nothing has changed.
    pub fn add(&mut self, digest: &Digest32, length: u32) -> Result<(), AllocError>
        ensures ok { OnOk result (self.new ≡ insert self.old digest.now.0 length) }
        ensures err { OnErr result (self.new ≡ self.old) }
    {
        self.own.add(digest, length)
    }

    /// Each chunk of these is there from now on, with its length, unless one is noted. At want of memory nothing has changed.
    pub fn join(&mut self, known: Known) -> Result<(), AllocError>
        ensures ok { OnOk result (self.new ≡ joined_with self.old known) }
        ensures err { OnErr result (self.new ≡ self.old) }
    {
        self.joined.push(known)?;
        Ok(())
    }

    /// Takes a chunk out, where it is there. It takes no memory.
    pub fn remove(&mut self, digest: &Digest32)
        ensures { self.new ≡ remove self.old digest.now.0 }
    {
        self.own.remove(digest);
        remove_in(&mut self.joined, digest);
    }

    /// The chunk's length, or `None` exactly where the chunk is not there. It takes no memory.
    pub fn find(&self, digest: &Digest32) -> Option<u32>
        ensures { result ≡ get self.now digest.now.0 }
    {
        match self.own.find(digest) {
            Some(length) => Some(length),
            None => find_in(&self.joined, digest),
        }
    }
}
