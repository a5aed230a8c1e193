//! An archive that was downloaded.

ghost use Rattle.std.specs.Prelude.{◌≡◌, []};
ghost use Rattle.restore_reader.specs.Kept.{IsTable, noted_by};
ghost use Rattle.restore_reader.specs.Steps as steps;

use crate::digests::contains;
use paged_indexes::{IndexEntry, IndexPages, TakesEntries};
use std::alloc::{AllocError, Global};
use std::marker::Model;
use store_types::{Digest32, FileName};

/// The digests of an index's entries as its pages are read, and where the last piece so far ends.
#[derive(Drop)]
pub struct Table {
    digests: Vec<Digest32>,
    size: u64,
}

impl Table {
    /// Before the first entry. It takes no memory.
    pub fn new(alloc: Global) -> Table
        ensures { IsTable result 0 [] }
    {
        Table {
            digests: Vec::new(alloc),
            size: 0,
        }
    }
}

impl TakesEntries for Table {
    ghost taken = { IsTable };

    fn take(&mut self, _start: u64, entry: &IndexEntry) -> Result<(), AllocError> {
        self.digests.push(entry.digest)?;
        self.size = entry.end;
        Ok(())
    }
}

/// The digests of an archive's pieces in rising order, its size, and what is kept of its index for the pages to be read.
#[derive(Drop)]
pub struct Index {
    name: FileName,
    digests: Vec<Digest32>,
    size: u64,
    pages: IndexPages,
}

impl Model for Index {
    ghost use Rattle.std.specs.List.Sorted.{IsSorted};
    ghost use Rattle.restore_reader.specs.Session.{Noted, noted_of};
    ghost use Rattle.restore_reader.specs.Digests.{digest_cmp};

    ghost Value = { Noted };

    ghost view = { λ x. noted_of x.name x.digests.items x.size x.pages };

    ghost invariant = { λ x. IsSorted digest_cmp x.digests.items };
}

impl Index {
    /// It takes no memory.
    pub fn new(name: FileName, table: Table, pages: IndexPages) -> Index
        ensures { result ≡ noted_by name table pages }
    {
        let Table { mut digests, size } = table;
        digests.sort_unstable();
        Index {
            name,
            digests,
            size,
            pages,
        }
    }

    pub fn name(&self) -> &FileName
        ensures { result.now ≡ self.now.name }
    {
        &self.name
    }

    /// A piece has the digest. It takes no memory.
    pub fn has(&self, digest: &Digest32) -> bool
        ensures { result ≡ steps.has_digest digest.now.0 self.now }
    {
        contains(&self.digests, digest)
    }

    /// The content's size.
    pub fn size(&self) -> u64
        ensures { result ≡ self.now.size }
    {
        self.size
    }

    pub fn pages(&self) -> &IndexPages
        ensures { result.now ≡ self.now.pages }
    {
        &self.pages
    }
}
