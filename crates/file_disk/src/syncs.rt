//! How folders are synced: several at once where a sync takes long, since a disk takes about as long for one.

ghost use Rattle.std.specs.Prelude.{◌<◌};

use disk_trait::Failed;
use std::cell::Cell;
use std::fs::{self, OpenFile};
use std::io;
use std::rt::Files;
use std::thread::{Threads, join};
use std::time::Instant;

// How many threads sync folders at once, beside the caller's.
const BESIDE: usize = 15;

// A sync that takes more microseconds is slow: beside it a thread costs little.
const SLOW: u128 = 500;

/// Syncs each of the folders, one after another. Fails where one was not synced.
pub fn sync_each<R: Files>(rt: &R, folders: &[String]) -> Result<(), Failed> {
    for folder in folders {
        fs::open(rt, folder.as_str())?.sync_all()?;
    }
    Ok(())
}

/// What syncs folders.
pub trait SyncFolders {
    /// Syncs each of the folders at these paths, and takes no memory. Fails where one was not synced.
    fn sync_folders(&self, folders: &[String]) -> Result<(), Failed>;

    /// The same, and syncs an open file beside them.
    fn sync_with<F: OpenFile>(&self, file: &F, folders: &[String]) -> Result<(), Failed>;
}

/// Syncs the host's files and folders: in threads, several at once, where the last sync was slow, and before the first. Else,
/// and where no thread can be made, one after another.
#[derive(Drop)]
pub struct AtOnce<T> {
    rt: HostRuntime,
    threads: T,
    is_slow: Cell<bool>,
}

impl<T: Threads> AtOnce<T> {
    pub fn new(rt: HostRuntime, threads: T) -> AtOnce<T> {
        AtOnce {
            rt,
            threads,
            is_slow: Cell::new(true),
        }
    }

    // Syncs a file, and keeps whether that was slow.
    fn sync_timed<F: OpenFile>(&self, file: &F) -> Result<(), Failed> {
        let begun = Instant::now(&self.rt);
        file.sync_all()?;
        self.is_slow.set(is_slow(self.rt, begun));
        Ok(())
    }
}

// Whether it was begun long ago, also where that is not known.
fn is_slow(rt: HostRuntime, begun: io::Result<Instant>) -> bool {
    match begun {
        Ok(begun) => match begun.elapsed(&rt) {
            Ok(took) => took.as_micros() > SLOW,
            Err(_) => true,
        },
        Err(_) => true,
    }
}

impl<T: Threads> SyncFolders for AtOnce<T> {
    fn sync_folders(&self, folders: &[String]) -> Result<(), Failed> {
        let Some((last, others)) = folders.split_last() else {
            return Ok(());
        };
        let last = fs::open(&self.rt, last.as_str())?;
        self.sync_with(&last, others)
    }

    fn sync_with<F: OpenFile>(&self, file: &F, folders: &[String]) -> Result<(), Failed> {
        if self.is_slow.get() {
            let size = folders.len().div_ceil(BESIDE).max(1);
            return sync_parts(self, file, size, folders);
        }
        self.sync_timed(file)?;
        sync_each(&self.rt, folders)
    }
}

// Syncs so many folders in a thread of their own, the rest in the same way, and the file in this one.
#[cycle(parts)]
fn sync_parts<T: Threads, F: OpenFile>(
    syncs: &AtOnce<T>,
    file: &F,
    size: usize,
    folders: &[String],
) -> Result<(), Failed>
    requires { 0 < size }
{
    if folders.is_empty() {
        return syncs.sync_timed(file);
    }
    let (first, rest) = folders.split_at(size.min(folders.len()));
    let rt = syncs.rt;
    let (these, others) = join(
        &syncs.threads,
        || sync_each(&rt, first),
        || -> Result<(), Failed>
            requires { 0 < size }
        { sync_parts(syncs, file, size, rest) },
    );
    these.and(others)
}
