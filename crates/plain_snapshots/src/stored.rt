//! The names of a disk and the bytes that stand there.

ghost use Rattle.std.specs.Prelude.{◌≡◌, option_map, IfOk, IsErrOf, IsTrue};
ghost use Rattle.std.specs.FinMap.{entries, is_sorted};
ghost use Rattle.blob_codec.specs.Blob.{data_of};
ghost use Rattle.disk_trait.specs.Disk.{Serves, Same};
ghost use Rattle.disk_trait.specs.Effects.{StepsOn};
ghost use Rattle.store_types.specs.Names.{name_lt, text_cmp};
ghost use Rattle.store_model.specs.Load.{bytes_at};
ghost use Rattle.plain_snapshots.specs.Loading.{AddsRead};

use crate::blob::BlobData;
use blob_codec::BadBlob;
use disk_trait::{Disk, DiskError};
use std::alloc::{AllocError, Global};
use std::cmp::Ordering;
use std::marker::Model;
use store_types::Bytes;

/// A name, the bytes that stand there, and the data of the blob that they are, or the first cause for which they are none.
#[derive(Drop)]
pub struct Stored {
    name: Bytes,
    bytes: Bytes,
    blob: Result<BlobData, BadBlob>,
}

impl Model for Stored {
    ghost use Rattle.std.specs.Prelude.{◌≡◌, ℕ, List};
    ghost use Rattle.blob_codec.specs.Blob.{data_of};

    ghost Value = { List ℕ × List ℕ };

    ghost view = { λ s. (s.name, s.bytes) };

    ghost invariant = { λ s. s.blob ≡ data_of s.bytes };
}

impl Stored {
    fn new(alloc: Global, name: &[u8], bytes: Vec<u8>) -> Result<Stored, AllocError>
        ensures { IfOk result (λ stored. stored ≡ (name.now, bytes.items)) }
    {
        let blob = BlobData::decoded(alloc, &bytes)?;
        Ok(Stored {
            name: Bytes::from_slice(alloc, name)?,
            bytes: Bytes::from_vec(bytes),
            blob,
        })
    }

    pub fn name(&self) -> &[u8]
        ensures { result.now ≡ self.now.0 }
    {
        self.name.as_slice()
    }

    /// How its name stands to another.
    fn compare(&self, name: &[u8]) -> Ordering
        ensures { result ≡ text_cmp self.now.0 name.now }
    {
        self.name.as_slice().cmp(name)
    }

    fn is_before(&self, next: &Stored) -> bool
        ensures { result ≡ name_lt self.now.0 next.now.0 }
    {
        self.compare(next.name()).is_lt()
    }

    pub fn bytes(&self) -> &[u8]
        ensures { result.now ≡ self.now.1 }
    {
        self.bytes.as_slice()
    }

    /// The data of the blob that stands there, or the first cause for which it is none.
    pub fn blob(&self) -> &Result<BlobData, BadBlob>
        ensures { result.now ≡ data_of self.now.1 }
    {
        &self.blob
    }
}

/// What a disk has, in byte order of the names, each once.
#[derive(Drop)]
pub struct Folder {
    files: Vec<Stored>,
}

impl Model for Folder {
    ghost use Rattle.std.specs.Prelude.{ℕ, List, IsTrue};
    ghost use Rattle.std.specs.FinMap.{is_sorted};
    ghost use Rattle.store_types.specs.Names.{text_cmp};

    ghost Value = { List (List ℕ × List ℕ) };

    ghost view = { λ f. f.files.items };

    ghost invariant = { λ f. IsTrue (is_sorted text_cmp f.files.items) };
}

impl Folder {
    /// These files. Where they are not in byte order of their names, no honest disk gave them, and there is none.
    fn of(alloc: Global, files: Vec<Stored>) -> Folder
        ensures { IsTrue (is_sorted text_cmp files.items) → result ≡ files.items }
    {
        if files.is_sorted_by(|one, next| one.is_before(next)) {
            Folder { files }
        } else {
            Folder {
                files: Vec::new(alloc),
            }
        }
    }

    /// All, as they stand.
    pub fn as_slice(&self) -> &[Stored]
        ensures { result.now ≡ self.now }
    {
        &self.files
    }

    /// What stands at a name.
    pub fn at(&self, name: &[u8]) -> Option<&Stored>
        ensures { option_map (λ found. found.now.1) result ≡ bytes_at self.now name.now }
    {
        match self.files.binary_search_by(|file| file.compare(name)) {
            Ok(place) => Some(&self.files[place]),
            Err(_) => None,
        }
    }
}

/// Reads what a disk has at a name, and keeps it with the name.
fn read_into<D: Disk>(
    alloc: Global,
    disk: &mut D,
    name: &str,
    files: &mut Vec<Stored>,
) -> Result<(), DiskError>
    ensures serves { Serves D.honest D.faults disk.old disk.new (IsErrOf result DiskError.Failed) }
    ensures same { D.honest disk.old → D.content disk.new ≡ D.content disk.old }
    ensures crash { StepsOn D.Disk disk.old disk.new Same }
    ensures files { AddsRead D.Disk disk.old name.now files.old.items files.new.items result }
{
    if let Some(bytes) = disk.read(alloc, name)? {
        files.push(Stored::new(alloc, name.as_bytes(), bytes)?)?;
    }
    Ok(())
}

/// All that a disk has. Each blob is decoded, once.
pub fn read_all<D: Disk>(alloc: Global, disk: &mut D) -> Result<Folder, DiskError>
    ensures serves { Serves D.honest D.faults disk.old disk.new (IsErrOf result DiskError.Failed) }
    ensures same { D.honest disk.old → D.content disk.new ≡ D.content disk.old }
    ensures crash { StepsOn D.Disk disk.old disk.new Same }
    ensures files { D.honest disk.old → IfOk result (λ f. f ≡ entries (D.content disk.old)) }
{
    let names = disk.list(alloc, "")?;
    let mut files = Vec::new(alloc);
    for name in &names {
        read_into(alloc, disk, name.as_str(), &mut files)?;
    }
    Ok(Folder::of(alloc, files))
}
