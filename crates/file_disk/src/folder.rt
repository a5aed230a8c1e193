//! A real folder whose files are seen as a map from names to bytes. A name with slashes is a file in sub-folders.

ghost use Rattle.std.specs.Prelude.{◌≡◌, IfOk, string_bytes};

use crate::changes::Changes;
use crate::paths::{Kind, MAX_NAME, append_part, folder_of, is_plain, kind_at, write_over};
use crate::root::{Hold, LockFile, Root};
use crate::syncs::SyncFolders;
use crate::walk::walk_from;
use disk_trait::{DiskError, Failed};
use std::alloc::{AllocError, Global};
use std::fs::{self, OpenFile, OpenOptions};
use std::io::{Read, Seek, SeekFrom, Write};
use std::rt::Files;

/// The files below a root. No clause says what is read or written. No link below the root is followed.
#[derive(Drop)]
pub struct Folder<R: Files + AllocGlobal + Clone + Drop, S: SyncFolders + Drop> {
    rt: R,
    syncs: S,
    alloc: Global,
    pub root: Root<R::File>,
    // Room for the paths of two names, so that most calls take no memory.
    path: String,
    target: String,
    changes: Changes,
    // Whether a crash leaves all that is read, but for the changes.
    is_durable: bool,
    // All names, where the last call was a sync that came by them.
    walked: Option<Vec<String>>,
}

impl<R: Files + AllocGlobal + Clone + Drop, S: SyncFolders + Drop> Folder<R, S>
where
    R::File: LockFile,
{
    /// The folder at a root, which is not looked at yet.
    pub fn new(rt: R, syncs: S, alloc: Global, root: &str, hold: Hold) -> Result<Self, AllocError>
        ensures { IfOk result (λ f. string_bytes f.root.path ≡ root.now) }
    {
        let room = root.len().saturating_add(1 + MAX_NAME);
        Ok(Folder {
            rt,
            syncs,
            alloc,
            root: Root::new(alloc, root, hold)?,
            path: String::with_capacity(alloc, room)?,
            target: String::with_capacity(alloc, room)?,
            changes: Changes::new(alloc, root)?,
            is_durable: false,
            walked: None,
        })
    }

    // Each call begins so. Fails where the root is not there, or is not this disk's.
    fn begin(&mut self) -> Result<(), Failed> {
        self.walked = None;
        self.root.check(&self.rt)
    }

    // The same, and fails where the folder is held to be read.
    fn begin_change(&mut self) -> Result<(), Failed> {
        self.walked = None;
        self.root.check_change(&self.rt)
    }

    /// A call failed: what it left counts as nothing that lasts.
    pub fn distrust(&mut self) {
        self.is_durable = false;
    }

    /// The size of the file at a name, where there is one. Its path then stands in `path`. Fails where there is a folder.
    pub fn look_up(&mut self, name: &str) -> Result<Option<u64>, Failed> {
        self.begin()?;
        if !is_plain(name) || !self.has_folders(name)? {
            return Ok(None);
        }
        append_part(&mut self.path, last_part(name))?;
        match kind_at(&self.rt, self.path.as_str())? {
            Kind::File(size) => Ok(Some(size)),
            Kind::Nothing => Ok(None),
            Kind::Folder => Err(Failed),
        }
    }

    // Whether all folders of a name are there. Then the path of the last one stands in `path`.
    fn has_folders(&mut self, name: &str) -> Result<bool, Failed> {
        write_over(&mut self.path, self.root.path.as_str())?;
        let Some((folders, _)) = name.rsplit_once('/') else {
            return Ok(true);
        };
        for part in folders.split('/') {
            append_part(&mut self.path, part)?;
            if kind_at(&self.rt, self.path.as_str())? != Kind::Folder {
                return Ok(false);
            }
        }
        Ok(true)
    }

    /// All bytes of the file at a name, where there is one.
    pub fn read(&mut self, alloc: Global, name: &str) -> Result<Option<Vec<u8>>, DiskError> {
        let Some(size) = self.look_up(name)? else {
            return Ok(None);
        };
        // One byte more than the file has, so that its end is read without growing.
        let mut bytes = Vec::with_capacity(alloc, (size as usize).saturating_add(1))?;
        let file = fs::open(&self.rt, self.path.as_str())?;
        file.take(size).read_to_end(&mut bytes)?;
        Ok(Some(bytes))
    }

    /// The bytes of the file at a name from an offset on, as far as they go, left in `into`: how many they are.
    pub fn read_part(
        &mut self,
        name: &str,
        offset: u64,
        into: &mut [u8],
    ) -> Result<Option<usize>, Failed> {
        let Some(size) = self.look_up(name)? else {
            return Ok(None);
        };
        let count = size.saturating_sub(offset).min(into.len() as u64) as usize;
        if count > 0 {
            let mut file = fs::open(&self.rt, self.path.as_str())?;
            file.seek(SeekFrom::Start(offset))?;
            file.read_exact(&mut into[..count])?;
        }
        Ok(Some(count))
    }

    /// Writes the file at a name anew, and syncs it, and the folders that wait beside it. Folders of the name are made when
    /// needed.
    pub fn put(&mut self, name: &str, bytes: &[u8]) -> Result<(), Failed> {
        self.begin_change()?;
        if self.find_place(name)? {
            fs::remove_file(&self.rt, self.target.as_str())?;
        }
        let mut how = OpenOptions::new();
        how.write(true).create_new(true);
        let mut file = how.open(&self.rt, self.target.as_str())?;
        file.write_all(bytes)?;
        self.changes
            .add(&self.syncs, folder_of(self.target.as_str()))?;
        self.changes.sync_with(&self.syncs, &file)
    }

    // Makes the folders of a name that are missing, and leaves its path in `target`: whether a file stands there. Fails
    // where none can.
    fn find_place(&mut self, name: &str) -> Result<bool, Failed> {
        if !is_plain(name) {
            return Err(Failed);
        }
        write_over(&mut self.target, self.root.path.as_str())?;
        if let Some((folders, _)) = name.rsplit_once('/') {
            for part in folders.split('/') {
                append_part(&mut self.target, part)?;
                self.make_folder()?;
            }
        }
        append_part(&mut self.target, last_part(name))?;
        match kind_at(&self.rt, self.target.as_str())? {
            Kind::File(_) => Ok(true),
            Kind::Nothing => Ok(false),
            Kind::Folder => Err(Failed),
        }
    }

    // Makes the folder at `target` where it is missing.
    fn make_folder(&mut self) -> Result<(), Failed> {
        let path = self.target.as_str();
        match kind_at(&self.rt, path)? {
            Kind::Folder => Ok(()),
            Kind::File(_) => Err(Failed),
            Kind::Nothing => {
                fs::create_dir(&self.rt, path)?;
                self.changes.add(&self.syncs, folder_of(path))
            }
        }
    }

    /// Renames a file, over another where there is one; `false` where there is none at `from`.
    pub fn rename(&mut self, from: &str, to: &str) -> Result<bool, Failed> {
        self.begin_change()?;
        if self.look_up(from)?.is_none() {
            return Ok(false);
        }
        self.find_place(to)?;
        fs::rename(&self.rt, self.path.as_str(), self.target.as_str())?;
        self.changes
            .add(&self.syncs, folder_of(self.target.as_str()))?;
        self.changes
            .add(&self.syncs, folder_of(self.path.as_str()))?;
        Ok(true)
    }

    /// Removes the file at a name; `false` where there is none.
    pub fn remove(&mut self, name: &str) -> Result<bool, Failed> {
        self.begin_change()?;
        if self.look_up(name)?.is_none() {
            return Ok(false);
        }
        fs::remove_file(&self.rt, self.path.as_str())?;
        self.changes
            .add(&self.syncs, folder_of(self.path.as_str()))?;
        Ok(true)
    }

    /// The names of the files that begin with the prefix. All of them are those that the call before came by, where that was
    /// a sync that walked.
    pub fn list(&mut self, alloc: Global, prefix: &str) -> Result<Vec<String>, DiskError> {
        let walked = if prefix.is_empty() {
            self.walked.take()
        } else {
            None
        };
        self.begin()?;
        let mut names = match walked {
            Some(all) => all,
            None => self.names_below(alloc, prefix)?,
        };
        names.sort()?;
        Ok(names)
    }

    // The same, as the folders tell them, in any order.
    fn names_below(&mut self, alloc: Global, prefix: &str) -> Result<Vec<String>, DiskError> {
        let first = folder_of(prefix);
        let can_be = first.is_empty() || is_plain(first);
        if !can_be || !self.has_folders(prefix)? {
            return Ok(Vec::new(alloc));
        }
        let root = self.root.path.as_str();
        Ok(walk_from(&self.rt, alloc, root, first, prefix)?.names)
    }

    /// Makes each change of a name last. The first time, and once a call failed, what others left too.
    pub fn sync(&mut self) -> Result<(), Failed> {
        self.begin()?;
        if self.is_durable {
            return self.changes.sync(&self.syncs);
        }
        self.sync_below()?;
        self.changes.clear();
        self.is_durable = true;
        Ok(())
    }

    // Syncs the root, and each folder below it, and keeps the names that it came by.
    fn sync_below(&mut self) -> Result<(), Failed> {
        match walk_from(&self.rt, self.alloc, self.root.path.as_str(), "", "") {
            Ok(found) => {
                self.syncs.sync_folders(&found.folders)?;
                self.walked = Some(found.names);
                Ok(())
            }
            Err(_) => Err(Failed),
        }
    }
}

// The part of a name behind its last slash.
fn last_part(name: &str) -> &str {
    match name.rsplit_once('/') {
        Some((_, last)) => last,
        None => name,
    }
}
