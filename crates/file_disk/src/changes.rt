//! Folders whose names a crash may still undo.

use crate::paths::{MAX_NAME, write_over};
use crate::syncs::SyncFolders;
use disk_trait::Failed;
use std::alloc::{AllocError, Global};
use std::fs::OpenFile;

// How many folders can wait for a sync.
const MOST: usize = 8;

/// The folders that wait for a sync, in room that was taken before.
#[derive(Drop)]
pub struct Changes {
    folders: Vec<String>,
    // The first so many wait. What the others have is room.
    count: usize,
}

impl Changes {
    /// None waits. There is room for the paths of names below the root.
    pub fn new(alloc: Global, root: &str) -> Result<Changes, AllocError> {
        let mut folders = Vec::with_capacity(alloc, MOST)?;
        for _ in 0..MOST {
            let room = root.len().saturating_add(1 + MAX_NAME);
            folders.push(String::with_capacity(alloc, room)?)?;
        }
        Ok(Changes { folders, count: 0 })
    }

    /// Lets a folder wait. Where there is no room for it, those that wait are synced first.
    pub fn add<S: SyncFolders>(&mut self, syncs: &S, path: &str) -> Result<(), Failed> {
        if self.waiting().iter().any(|folder| folder.as_str() == path) {
            return Ok(());
        }
        if self.count >= self.folders.len() {
            self.sync(syncs)?;
        }
        let Some(folder) = self.folders.get_mut(self.count) else {
            return Err(Failed);
        };
        write_over(folder, path)?;
        self.count += 1;
        Ok(())
    }

    /// Syncs those that wait.
    pub fn sync<S: SyncFolders>(&mut self, syncs: &S) -> Result<(), Failed> {
        syncs.sync_folders(self.waiting())?;
        self.clear();
        Ok(())
    }

    /// Syncs a file, and those that wait beside it.
    pub fn sync_with<F: OpenFile, S: SyncFolders>(
        &mut self,
        syncs: &S,
        file: &F,
    ) -> Result<(), Failed> {
        syncs.sync_with(file, self.waiting())?;
        self.clear();
        Ok(())
    }

    /// None waits any more.
    pub fn clear(&mut self) {
        self.count = 0;
    }

    fn waiting(&self) -> &[String] {
        &self.folders[..self.count.min(self.folders.len())]
    }
}
