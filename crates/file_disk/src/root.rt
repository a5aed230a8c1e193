//! The root of a folder, and the lock by which one program has it at a time.

ghost use Rattle.std.specs.Prelude.{◌≡◌, IfOk, string_bytes};

use disk_trait::Failed;
use std::alloc::{AllocError, Global};
use std::fs::{self, File, Metadata, OpenFile, TryLockError};
use std::os::unix::fs::MetadataExt;
use std::rt::Files;

/// An open file that can be locked, until it is closed.
pub trait LockFile {
    /// Fails where another open of the file has a lock.
    fn try_lock(&self) -> Result<(), TryLockError>;

    /// Fails where another open of the file has a lock that is not shared.
    fn try_lock_shared(&self) -> Result<(), TryLockError>;
}

impl LockFile for File {
    fn try_lock(&self) -> Result<(), TryLockError> {
        File::try_lock(self)
    }

    fn try_lock_shared(&self) -> Result<(), TryLockError> {
        File::try_lock_shared(self)
    }
}

/// How a folder is held: by this alone, or to be read beside others that read it.
#[derive(Clone, Copy, PartialEq, Eq)]
pub enum Hold {
    Alone,
    Shared,
}

// The folder that is locked: it stays so as long as it is open.
#[derive(Drop)]
struct Locked<F: Drop> {
    _open: F,
    dev: u64,
    ino: u64,
}

impl<F: Drop> Locked<F> {
    fn is(&self, found: &Metadata) -> bool {
        self.dev == found.dev() && self.ino == found.ino()
    }
}

/// The folder at a path.
#[derive(Drop)]
pub struct Root<F: Drop> {
    pub path: String,
    hold: Hold,
    locked: Option<Locked<F>>,
}

impl<F: OpenFile + LockFile + Drop> Root<F> {
    /// It is not looked at yet.
    pub fn new(alloc: Global, path: &str, hold: Hold) -> Result<Self, AllocError>
        ensures { IfOk result (λ r. string_bytes r.path ≡ path.now) }
    {
        Ok(Root {
            path: String::from_str(alloc, path)?,
            hold,
            locked: None,
        })
    }

    /// Locks the folder where this was not done yet. Fails where the path names no folder, or another one than was
    /// locked, and where another has the folder.
    pub fn check<R: Files<File = F>>(&mut self, rt: &R) -> Result<(), Failed> {
        let found = fs::metadata(rt, self.path.as_str())?;
        if !found.is_dir() {
            return Err(Failed);
        }
        match &self.locked {
            Some(locked) if locked.is(&found) => Ok(()),
            Some(_) => Err(Failed),
            None => self.lock(rt),
        }
    }

    /// The same, and fails where the folder is held to be read.
    pub fn check_change<R: Files<File = F>>(&mut self, rt: &R) -> Result<(), Failed> {
        match self.hold {
            Hold::Alone => self.check(rt),
            Hold::Shared => Err(Failed),
        }
    }

    fn lock<R: Files<File = F>>(&mut self, rt: &R) -> Result<(), Failed> {
        let open = fs::open(rt, self.path.as_str())?;
        let outcome = match self.hold {
            Hold::Alone => open.try_lock(),
            Hold::Shared => open.try_lock_shared(),
        };
        if outcome.is_err() {
            return Err(Failed);
        }
        let found = open.metadata()?;
        self.locked = Some(Locked {
            _open: open,
            dev: found.dev(),
            ino: found.ino(),
        });
        Ok(())
    }
}
