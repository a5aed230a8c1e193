//! A disk over a folder of files. Nothing is told of its content.

ghost use Rattle.std.specs.Prelude.{◌≡◌, ◌⊎◌, ◌≤◌, IfOk, IsErr, IsErrOf, string_bytes};
ghost use Rattle.std.specs.FinMap.{empty};
ghost use Rattle.disk_trait.specs.Disk.{one_up};

use crate::folder::Folder;
use crate::root::{Hold, LockFile};
use crate::syncs::SyncFolders;
use disk_trait::{Disk, DiskError, Failed};
use std::alloc::{AllocError, Global};
use std::rt::Files;

/// The files of a real folder, the root, which must be there: else each call fails. A name with slashes is a file in
/// sub-folders, which are made when needed. A name that no file below the root can have, as `../a`, is never there, and
/// putting it fails.
///
/// The first call locks the folder, until this is dropped or the program ends: each call fails where another has it.
///
/// A file is synced as it is put. A change of a name lasts from the next `sync` on, and so do, from the first `sync` on
/// and from that behind a call that failed, the names that stood there before.
///
/// No link is followed, but where the root is one. A call fails that meets what is neither file nor folder, or a folder in
/// the place of its file. Names that are no UTF-8 or have more than 255 bytes are left alone.
#[derive(Drop)]
pub struct FileDisk<R: Files + AllocGlobal + Clone + Drop, S: SyncFolders + Drop> {
    folder: Folder<R, S>,
    calls: u64,
    faults: u64,
}

impl<R: Files + AllocGlobal + Clone + Drop, S: SyncFolders + Drop> FileDisk<R, S>
where
    R::File: LockFile,
{
    /// The disk over a folder that no other disk may have beside it.
    pub fn alone(rt: R, syncs: S, alloc: Global, root: &str) -> Result<Self, AllocError>
        ensures root { IfOk result (λ d. string_bytes d.folder.root.path ≡ root.now) }
        ensures calls { IfOk result (λ d. ⟦<FileDisk<R, S> as Disk>⟧.calls d ≡ 0) }
        ensures faults { IfOk result (λ d. ⟦<FileDisk<R, S> as Disk>⟧.faults d ≡ 0) }
    {
        FileDisk::new(rt, syncs, alloc, root, Hold::Alone)
    }

    /// The disk over a folder that other shared disks may read too. It only reads: each change fails.
    pub fn shared(rt: R, syncs: S, alloc: Global, root: &str) -> Result<Self, AllocError>
        ensures root { IfOk result (λ d. string_bytes d.folder.root.path ≡ root.now) }
        ensures calls { IfOk result (λ d. ⟦<FileDisk<R, S> as Disk>⟧.calls d ≡ 0) }
        ensures faults { IfOk result (λ d. ⟦<FileDisk<R, S> as Disk>⟧.faults d ≡ 0) }
    {
        FileDisk::new(rt, syncs, alloc, root, Hold::Shared)
    }

    fn new(rt: R, syncs: S, alloc: Global, root: &str, hold: Hold) -> Result<Self, AllocError>
        ensures root { IfOk result (λ d. string_bytes d.folder.root.path ≡ root.now) }
        ensures calls { IfOk result (λ d. d.calls ≡ 0) }
        ensures faults { IfOk result (λ d. d.faults ≡ 0) }
    {
        Ok(FileDisk {
            folder: Folder::new(rt, syncs, alloc, root, hold)?,
            calls: 0,
            faults: 0,
        })
    }

    // A moment passes, and a failure counts.
    fn counted<T>(&mut self, outcome: Result<T, DiskError>) -> Result<T, DiskError>
        ensures same { result ≡ outcome }
        ensures calls { self.old.calls ≤ self.new.calls }
        ensures faults { self.old.faults ≤ self.new.faults }
        ensures rose { IsErrOf result DiskError.Failed → self.new.faults ≡ one_up self.old.faults }
        ensures stays { IsErrOf result DiskError.NoMemory → self.new.faults ≡ self.old.faults }
    {
        self.calls = self.calls.saturating_add(1);
        if let Err(DiskError::Failed) = outcome {
            self.faults = self.faults.saturating_add(1);
            self.folder.distrust();
        }
        outcome
    }

    fn counted_failure<T>(&mut self, outcome: Result<T, Failed>) -> Result<T, Failed>
        ensures same { result ≡ outcome }
        ensures calls { self.old.calls ≤ self.new.calls }
        ensures faults { self.old.faults ≤ self.new.faults }
        ensures rose { IsErr result → self.new.faults ≡ one_up self.old.faults }
        ensures stays { IsErr result ⊎ (self.new.faults ≡ self.old.faults) }
    {
        self.calls = self.calls.saturating_add(1);
        if outcome.is_err() {
            self.faults = self.faults.saturating_add(1);
            self.folder.distrust();
        }
        outcome
    }
}

impl<R: Files + AllocGlobal + Clone + Drop, S: SyncFolders + Drop> Disk for FileDisk<R, S>
where
    R::File: LockFile,
{
    ghost honest = { λ _. ⊥ };

    ghost content = { λ _. empty };

    ghost images = { λ _ _ _. ⊥ };

    ghost calls = { λ d. d.calls };

    ghost faults = { λ d. d.faults };

    ghost told = { λ d t c i. absurd i };

    ghost as_read = { λ d h _. absurd h };

    ghost short_names = { λ d h. absurd h };

    ghost short_images = { λ d t c i. absurd i };

    fn calls(&self) -> u64 {
        self.calls
    }

    fn faults(&self) -> u64 {
        self.faults
    }

    fn read(&mut self, alloc: Global, name: &str) -> Result<Option<Vec<u8>>, DiskError> {
        let outcome = self.folder.read(alloc, name);
        self.counted(outcome)
    }

    fn read_part(
        &mut self,
        name: &str,
        offset: u64,
        into: &mut [u8],
    ) -> Result<Option<usize>, Failed> {
        let outcome = self.folder.read_part(name, offset, into);
        self.counted_failure(outcome)
    }

    fn size(&mut self, name: &str) -> Result<Option<u64>, Failed> {
        let outcome = self.folder.look_up(name);
        self.counted_failure(outcome)
    }

    fn list(&mut self, alloc: Global, prefix: &str) -> Result<Vec<String>, DiskError> {
        let outcome = self.folder.list(alloc, prefix);
        self.counted(outcome)
    }

    fn put(&mut self, _alloc: Global, name: &str, bytes: &[u8]) -> Result<(), DiskError> {
        let outcome = self.folder.put(name, bytes);
        Ok(self.counted_failure(outcome)?)
    }

    fn rename(&mut self, from: &str, to: &str) -> Result<bool, Failed> {
        let outcome = self.folder.rename(from, to);
        self.counted_failure(outcome)
    }

    fn remove(&mut self, name: &str) -> Result<bool, Failed> {
        let outcome = self.folder.remove(name);
        self.counted_failure(outcome)
    }

    fn sync(&mut self) -> Result<(), Failed> {
        let outcome = self.folder.sync();
        self.counted_failure(outcome)
    }
}
