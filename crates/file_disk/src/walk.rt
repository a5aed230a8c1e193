//! The files and folders below a folder.

use crate::paths::{MAX_NAME, MAX_PARTS, parts_of};
use disk_trait::DiskError;
use std::alloc::{AllocError, Global};
use std::fs::{self, DirEntry};
use std::io::ErrorKind;
use std::rt::Files;

/// What a walk has found.
#[derive(Drop)]
pub struct Found {
    /// The files.
    pub names: Vec<String>,
    /// The paths of the folders that were read.
    pub folders: Vec<String>,
    // The folders that are still to be read.
    left: Vec<String>,
}

impl Found {
    fn new(alloc: Global, first: &str) -> Result<Found, AllocError> {
        let mut left = Vec::new(alloc);
        left.push(String::from_str(alloc, first)?)?;
        Ok(Found {
            names: Vec::new(alloc),
            folders: Vec::new(alloc),
            left,
        })
    }

    fn read_folder<R: Files + AllocGlobal + Clone + Drop>(
        &mut self,
        rt: &R,
        alloc: Global,
        path: &str,
        folder: &str,
        prefix: &str,
    ) -> Result<(), DiskError> {
        for entry in fs::read_dir(rt, path)? {
            match entry {
                Ok(entry) => self.add(alloc, folder, prefix, &entry)?,
                // It is no text, so no name.
                Err(e) if e.kind() == ErrorKind::InvalidFilename => {}
                Err(e) => return Err(DiskError::from(e)),
            }
        }
        Ok(())
    }

    // Adds a file or a folder that begins with the prefix.
    fn add<R: Files>(
        &mut self,
        alloc: Global,
        folder: &str,
        prefix: &str,
        entry: &DirEntry<R, Global>,
    ) -> Result<(), DiskError> {
        let mut name = String::from_str(alloc, folder)?;
        if !name.is_empty() {
            name.push('/')?;
        }
        name.push_str(entry.file_name())?;
        if name.len() > MAX_NAME || !name.as_str().starts_with(prefix) {
            return Ok(());
        }
        let kind = entry.file_type()?;
        if kind.is_dir() && parts_of(name.as_str()) < MAX_PARTS {
            self.left.push(name)?;
        } else if kind.is_file() {
            self.names.push(name)?;
        } else {
            return Err(DiskError::Failed);
        }
        Ok(())
    }
}

/// The files below the root whose names begin with a prefix, and the folders that have them, from the folder `first` on.
/// Names that are no UTF-8 or have more than 255 bytes are passed over. Fails where another entry that begins with the
/// prefix is neither file nor folder, or a folder in three others, where only files lie.
pub fn walk_from<R: Files + AllocGlobal + Clone + Drop>(
    rt: &R,
    alloc: Global,
    root: &str,
    first: &str,
    prefix: &str,
) -> Result<Found, DiskError> {
    let mut found = Found::new(alloc, first)?;
    for _ in 0..u64::MAX {
        let Some(folder) = found.left.pop() else {
            break;
        };
        let path = format!(in alloc; "{root}/{folder}")?;
        found.read_folder(rt, alloc, path.as_str(), folder.as_str(), prefix)?;
        found.folders.push(path)?;
    }
    Ok(found)
}
