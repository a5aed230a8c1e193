//! The host's files, with a record of what is synced, on a disk that can be full, or fail to sync folders, or fail at one call,
//! or move one byte a call.

ghost use Rattle.std.specs.Prelude.{◌≤◌};

use crate::asserts::must;
use crate::sessions::play_at;
use disk_trait::Failed;
use file_disk::{FileDisk, LockFile, SyncFolders, sync_each};
use std::alloc::{Alloc, AllocError, Allocator, Global};
use std::cell::{Cell, RefCell};
use std::fs::{File, Metadata, OpenFile, OpenOptions, TryLockError};
use std::io::{self, ErrorKind, Read, Seek, SeekFrom, Write};
use std::process::Abort;
use std::rt::Files;

#[derive(Drop)]
pub struct Record {
    // The paths of the files and folders that were synced, one a line.
    synced: RefCell<String>,
    // How many folders were read.
    pub reads: Cell<usize>,
    pub full: Cell<bool>,
    pub fails: Cell<bool>,
    // Whether a read and a write of a file move one byte at most.
    pub by_bytes: Cell<bool>,
    // How many calls of the host were made, and which of them fails.
    pub calls: Cell<u64>,
    pub fails_at: Cell<Option<u64>>,
    // Which of the folders that are read fails to be, and behind how many reads of its names.
    pub unread: Cell<Option<(usize, usize)>>,
}

impl Record {
    pub fn new(alloc: Global) -> Record {
        Record {
            synced: RefCell::new(String::new(alloc)),
            reads: Cell::new(0),
            full: Cell::new(false),
            fails: Cell::new(false),
            by_bytes: Cell::new(false),
            calls: Cell::new(0),
            fails_at: Cell::new(None),
            unread: Cell::new(None),
        }
    }

    // One more call of the host.
    fn count(&self) -> io::Result<()> {
        let calls = self.calls.get().saturating_add(1);
        self.calls.set(calls);
        if self.fails_at.get() == Some(calls) {
            return Err(io::Error::from(ErrorKind::Other));
        }
        Ok(())
    }

    // How many of so many bytes a call moves.
    fn moved(&self, count: usize) -> usize
        ensures { result ≤ count }
    {
        if self.by_bytes.get() {
            count.min(1)
        } else {
            count
        }
    }

    /// What was synced since this was last called.
    pub fn taken(&self, alloc: Global) -> io::Result<String> {
        match self.synced.try_replace(String::new(alloc)) {
            Ok(synced) => Ok(synced),
            Err(_) => Err(io::Error::from(ErrorKind::Other)),
        }
    }
}

#[derive(Clone, Copy)]
pub struct Watched<'a> {
    pub rt: HostRuntime,
    pub record: &'a Record,
}

pub type WatchedDisk<'a> = FileDisk<Watched<'a>, Watched<'a>>;

/// A folder as a disk of its own.
pub fn alone_at<'a>(
    rt: HostRuntime,
    record: &'a Record,
    root: &str,
) -> Result<WatchedDisk<'a>, AllocError> {
    let watched = Watched { rt, record };
    FileDisk::alone(watched, watched, rt.alloc(), root)
}

/// A folder as a disk beside others that read it.
pub fn shared_at<'a>(
    rt: HostRuntime,
    record: &'a Record,
    root: &str,
) -> Result<WatchedDisk<'a>, AllocError> {
    let watched = Watched { rt, record };
    FileDisk::shared(watched, watched, rt.alloc(), root)
}

/// Plays sessions at a name, one after another, by a disk of its own, which then lets the folder go.
pub fn play_alone(
    rt: HostRuntime,
    abort: &impl Abort,
    record: &Record,
    root: &str,
    name: &str,
    sessions: &[&str],
) {
    let mut disk = must(abort, alone_at(rt, record, root));
    for session in sessions {
        play_at(abort, rt.alloc(), &mut disk, name, session);
    }
}

// A folder as it is read, and how many reads of its names are left where one is to fail.
#[derive(Drop)]
pub struct WatchedDir {
    dir: <HostRuntime as Files>::Dir,
    left: Option<usize>,
}

#[derive(Drop)]
pub struct WatchedFile<'a> {
    file: File,
    path: String,
    record: &'a Record,
}

impl SyncFolders for Watched<'_> {
    fn sync_folders(&self, folders: &[String]) -> Result<(), Failed> {
        sync_each(self, folders)
    }

    fn sync_with<F: OpenFile>(&self, file: &F, folders: &[String]) -> Result<(), Failed> {
        file.sync_all()?;
        sync_each(self, folders)
    }
}

impl LockFile for WatchedFile<'_> {
    fn try_lock(&self) -> Result<(), TryLockError> {
        LockFile::try_lock(&self.file)
    }

    fn try_lock_shared(&self) -> Result<(), TryLockError> {
        LockFile::try_lock_shared(&self.file)
    }
}

impl Alloc for Watched<'_> {
    type A = Global;

    fn alloc(&self) -> Global {
        self.rt.alloc()
    }
}

impl<'a> Files for Watched<'a> {
    type File = WatchedFile<'a>;

    type Dir = WatchedDir;

    fn open_file(&self, how: &OpenOptions, path: &str) -> io::Result<WatchedFile<'a>> {
        self.record.count()?;
        Ok(WatchedFile {
            file: self.rt.open_file(how, path)?,
            path: String::from_str(self.rt.alloc(), path)?,
            record: self.record,
        })
    }

    fn open_dir(&self, path: &str) -> io::Result<WatchedDir> {
        self.record.count()?;
        let folder = self.record.reads.get().saturating_add(1);
        self.record.reads.set(folder);
        let left = match self.record.unread.get() {
            Some((unread, left)) if unread == folder => Some(left),
            _ => None,
        };
        Ok(WatchedDir {
            dir: self.rt.open_dir(path)?,
            left,
        })
    }

    fn metadata(&self, path: &str) -> io::Result<Metadata> {
        self.record.count()?;
        self.rt.metadata(path)
    }

    fn symlink_metadata(&self, path: &str) -> io::Result<Metadata> {
        self.record.count()?;
        self.rt.symlink_metadata(path)
    }

    fn copy(&self, from: &str, to: &str) -> io::Result<u64> {
        self.rt.copy(from, to)
    }

    fn rename(&self, from: &str, to: &str) -> io::Result<()> {
        self.record.count()?;
        self.rt.rename(from, to)
    }

    fn remove_file(&self, path: &str) -> io::Result<()> {
        self.record.count()?;
        self.rt.remove_file(path)
    }

    fn create_dir(&self, path: &str) -> io::Result<()> {
        self.record.count()?;
        self.rt.create_dir(path)
    }

    fn remove_dir(&self, path: &str) -> io::Result<()> {
        self.rt.remove_dir(path)
    }

    fn remove_dir_all<B: Allocator>(&self, alloc: B, path: &str) -> io::Result<()> {
        self.rt.remove_dir_all(alloc, path)
    }
}

impl WatchedFile<'_> {
    fn note(&self) -> io::Result<()> {
        match self.record.synced.try_borrow_mut() {
            Ok(mut synced) => {
                synced.push_str(self.path.as_str())?;
                Ok(synced.push('\n')?)
            }
            Err(_) => Err(io::Error::from(ErrorKind::Other)),
        }
    }
}

impl OpenFile for WatchedFile<'_> {
    fn metadata(&self) -> io::Result<Metadata> {
        self.record.count()?;
        self.file.metadata()
    }

    fn set_len(&self, size: u64) -> io::Result<()> {
        self.file.set_len(size)
    }

    fn sync_all(&self) -> io::Result<()> {
        self.record.count()?;
        if self.record.fails.get() {
            return Err(io::Error::from(ErrorKind::Other));
        }
        self.note()?;
        self.file.sync_all()
    }

    fn sync_data(&self) -> io::Result<()> {
        self.file.sync_data()
    }
}

impl Read for WatchedFile<'_> {
    fn read(&mut self, buf: &mut [u8]) -> io::Result<usize> {
        self.record.count()?;
        let most = self.record.moved(buf.len());
        self.file.read(&mut buf[..most])
    }
}

impl Read for WatchedDir {
    fn read(&mut self, buf: &mut [u8]) -> io::Result<usize> {
        if self.left == Some(0) {
            return Err(io::Error::from(ErrorKind::Other));
        }
        self.left = self.left.map(|left| left.saturating_sub(1));
        self.dir.read(buf)
    }
}

impl Write for WatchedFile<'_> {
    fn write(&mut self, buf: &[u8]) -> io::Result<usize> {
        self.record.count()?;
        if self.record.full.get() {
            return Err(io::Error::from(ErrorKind::StorageFull));
        }
        let most = self.record.moved(buf.len());
        self.file.write(&buf[..most])
    }

    fn flush(&mut self) -> io::Result<()> {
        self.file.flush()
    }
}

impl Seek for WatchedFile<'_> {
    fn seek(&mut self, to: SeekFrom) -> io::Result<u64> {
        self.record.count()?;
        self.file.seek(to)
    }
}
