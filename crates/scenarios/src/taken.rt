//! A disk on which another program takes files, and puts one.

ghost use Rattle.std.specs.Prelude.{◌≡◌};
ghost use Rattle.std.specs.FinMap.{empty};

use disk_trait::{Disk, DiskError, Failed};
use std::alloc::Global;

/// The file of a chunk that another program put there.
const MORE: &str = ".chunks/ffff/ffffffffffffffffffffffffffffffffffffffffffffffffffffffffffffffff";

/// A disk over another some calls of which find nothing where a file stood: another program took it; and some lists of which have
/// a name more. So it is no honest disk.
#[derive(Drop)]
pub struct TakenDisk<D: Disk + Drop> {
    disk: D,
    /// The calls that find nothing, from 0.
    taken: Vec<u64>,
    /// The lists that have a name more.
    shown: Vec<u64>,
    made: u64,
    /// How many of both came.
    pub came: usize,
}

impl<D: Disk + Drop> TakenDisk<D> {
    pub fn new(disk: D, taken: Vec<u64>, shown: Vec<u64>) -> TakenDisk<D> {
        TakenDisk {
            disk,
            taken,
            shown,
            made: 0,
            came: 0,
        }
    }

    pub fn into_inner(self) -> D {
        self.disk
    }

    /// The next call's number. Counts it.
    fn next_call(&mut self) -> u64
        ensures { self.new.disk ≡ self.old.disk }
    {
        let number = self.made;
        self.made = self.made.saturating_add(1);
        number
    }

    /// Whether the next read finds nothing.
    fn finds_none(&mut self) -> bool
        ensures { self.new.disk ≡ self.old.disk }
    {
        let number = self.next_call();
        let is_taken = self.taken.contains(&number);
        if is_taken {
            self.came = self.came.saturating_add(1);
        }
        is_taken
    }
}

impl<D: Disk + Drop> Disk for TakenDisk<D> {
    ghost honest = { λ _. ⊥ };

    ghost content = { λ _. empty };

    ghost images = { λ _ _ _. ⊥ };

    ghost calls = { λ d. D.calls d.disk };

    ghost faults = { λ d. D.faults d.disk };

    ghost told = { λ d t c i. absurd i };

    ghost as_read = { λ d h _. absurd h };

    ghost short_names = { λ d h. absurd h };

    ghost short_images = { λ d t c i. absurd i };

    fn calls(&self) -> u64 {
        self.disk.calls()
    }

    fn faults(&self) -> u64 {
        self.disk.faults()
    }

    fn read(&mut self, alloc: Global, name: &str) -> Result<Option<Vec<u8>>, DiskError> {
        if self.finds_none() {
            return Ok(None);
        }
        self.disk.read(alloc, name)
    }

    fn read_part(
        &mut self,
        name: &str,
        offset: u64,
        into: &mut [u8],
    ) -> Result<Option<usize>, Failed> {
        if self.finds_none() {
            return Ok(None);
        }
        self.disk.read_part(name, offset, into)
    }

    fn size(&mut self, name: &str) -> Result<Option<u64>, Failed> {
        if self.finds_none() {
            return Ok(None);
        }
        self.disk.size(name)
    }

    fn list(&mut self, alloc: Global, prefix: &str) -> Result<Vec<String>, DiskError> {
        let number = self.next_call();
        let is_shown = self.shown.contains(&number);
        let more = String::from_str(alloc, MORE)?;
        let mut names = self.disk.list(alloc, prefix)?;
        if is_shown {
            let _ = names.push(more);
            self.came = self.came.saturating_add(1);
        }
        Ok(names)
    }

    fn put(&mut self, alloc: Global, name: &str, bytes: &[u8]) -> Result<(), DiskError> {
        let _ = self.next_call();
        self.disk.put(alloc, name, bytes)
    }

    fn rename(&mut self, from: &str, to: &str) -> Result<bool, Failed> {
        let _ = self.next_call();
        self.disk.rename(from, to)
    }

    fn remove(&mut self, name: &str) -> Result<bool, Failed> {
        let _ = self.next_call();
        self.disk.remove(name)
    }

    fn sync(&mut self) -> Result<(), Failed> {
        let _ = self.next_call();
        self.disk.sync()
    }
}
