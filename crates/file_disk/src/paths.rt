//! Names, their paths, and what stands there.

use disk_trait::Failed;
use std::fs;
use std::io::ErrorKind;
use std::rt::Files;

/// The most bytes that a name has.
pub const MAX_NAME: usize = 255;

/// The most parts that a name has: a snapshot's file lies in three folders.
pub const MAX_PARTS: usize = 4;

/// Whether a file below the root can have the name: its parts are neither empty nor `.` or `..`, and no byte is zero.
pub fn is_plain(name: &str) -> bool {
    let is_part = |part: &str| !part.is_empty() && part != "." && part != "..";
    name.len() <= MAX_NAME
        && parts_of(name) <= MAX_PARTS
        && !name.contains('\0')
        && name.split('/').all(is_part)
}

/// How many parts a name has.
pub fn parts_of(name: &str) -> usize {
    name.split('/').count()
}

/// The folder of a path or a prefix: the part before its last slash.
pub fn folder_of(path: &str) -> &str {
    match path.rsplit_once('/') {
        Some((folder, _)) => folder,
        None => "",
    }
}

/// Adds a text where there is room for it.
pub fn append(path: &mut String, text: &str) -> Result<(), Failed> {
    if path.capacity().saturating_sub(path.len()) < text.len() {
        return Err(Failed);
    }
    match path.push_str(text) {
        Ok(()) => Ok(()),
        Err(_) => Err(Failed),
    }
}

/// Adds a part of a name.
pub fn append_part(path: &mut String, part: &str) -> Result<(), Failed> {
    append(path, "/")?;
    append(path, part)
}

/// Writes a text in place of another, where there is room for it.
pub fn write_over(path: &mut String, text: &str) -> Result<(), Failed> {
    path.clear();
    append(path, text)
}

/// What stands at a path.
#[derive(Clone, Copy, PartialEq, Eq)]
pub enum Kind {
    Nothing,
    File(u64),
    Folder,
}

/// Looks at a path and follows no link. Fails where something stands there that is neither file nor folder.
pub fn kind_at<R: Files>(rt: &R, path: &str) -> Result<Kind, Failed> {
    match fs::symlink_metadata(rt, path) {
        Ok(found) if found.is_file() => Ok(Kind::File(found.len())),
        Ok(found) if found.is_dir() => Ok(Kind::Folder),
        Err(e) if e.kind() == ErrorKind::NotFound => Ok(Kind::Nothing),
        _ => Err(Failed),
    }
}
