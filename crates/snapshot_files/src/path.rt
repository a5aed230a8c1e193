//! Where the files of snapshots stand.

ghost use Rattle.std.specs.Prelude.{◌≡◌, ℕ, List, Option, Some, map, option_map, IfOk};
ghost use Rattle.store_types.specs.FileNames.{manifest_name};
ghost use Rattle.store_types.specs.Names.{IsKey};
ghost use Rattle.store_files.specs.Folder.{file_path};

use std::alloc::{AllocError, Global};
use std::marker::Model;
use store_types::{Bytes, FileName, SnapshotKey};

/// The name of a snapshot's file in the datastore folder. There is room for a temporary name's ending within the 255
/// bytes that a name may have.
#[derive(Debug, Drop)]
pub struct FilePath {
    text: String,
}

impl Model for FilePath {
    ghost use Rattle.std.specs.Prelude.{ℕ, ◌≤◌, List, length, string_bytes};

    ghost Value = { List ℕ };

    ghost view = { λ p. string_bytes p.text };

    ghost invariant = { λ p. length (string_bytes p.text) ≤ 251 };
}

impl FilePath {
    ghost use Rattle.std.specs.Prelude.{◌≤◌, length, string_bytes};

    /// The path that the text is. `path_of` makes those of snapshots.
    pub fn from_string(text: String) -> FilePath
        requires { length (string_bytes text) ≤ 251 }
        ensures { result ≡ string_bytes text }
    {
        FilePath { text }
    }

    pub fn as_str(&self) -> &str
        ensures text { result.now ≡ self.now }
        ensures short { length result.now ≤ 251 }
    {
        self.text.as_str()
    }

    /// The name's bytes. It takes no memory.
    pub fn into_bytes(self) -> Bytes
        ensures text { result ≡ self }
        ensures short { length result ≤ 251 }
    {
        let FilePath { text } = self;
        Bytes::from_vec(text.into_bytes())
    }
}

/// What may have a file in the datastore folder.
pub trait Stored {
    /// The name of its file there, where it has one.
    ghost at: { Self → Option (List ℕ) };

    /// Where its file stands, if it has one.
    fn path(&self) -> Option<&FilePath>
        ensures { option_map (λ p. p.now) result ≡ at self.now };
}

impl Stored for FilePath {
    ghost at = { λ path. Some path };

    fn path(&self) -> Option<&FilePath> {
        Some(self)
    }
}

/// Where a snapshot's file stands: `<type>/<id>/<time>/<file name>`.
pub fn path_of(alloc: Global, key: &SnapshotKey, name: &FileName) -> Result<FilePath, AllocError>
    requires { IsKey key.now }
    ensures { IfOk result (λ path. path ≡ file_path key.now name.now) }
{
    let mut text = key.print(alloc)?;
    text.push_str("/")?;
    text.push_str(name.as_str())?;
    Ok(FilePath::from_string(text))
}

/// Where a snapshot's manifest stands.
pub fn manifest_path_of(alloc: Global, key: &SnapshotKey) -> Result<FilePath, AllocError>
    requires { IsKey key.now }
    ensures { IfOk result (λ path. path ≡ file_path key.now manifest_name) }
{
    let name = FileName::manifest(alloc)?;
    path_of(alloc, key, &name)
}

/// Where the snapshot's files of these names stand.
pub fn paths_of(
    alloc: Global,
    key: &SnapshotKey,
    names: &[FileName],
) -> Result<Vec<FilePath>, AllocError>
    requires { IsKey key.now }
    ensures { IfOk result (λ paths. paths.items ≡ map (file_path key.now) names.now) }
{
    let mut paths = Vec::new(alloc);
    for name in names {
        paths.push(path_of(alloc, key, name)?)?;
    }
    Ok(paths)
}
