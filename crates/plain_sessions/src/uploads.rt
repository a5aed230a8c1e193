//! The files that a writer has.

ghost use Rattle.std.specs.Prelude.{◌≡◌, [], length, IsTrue, IfOk, OnOk, OnErr};
ghost use Rattle.std.specs.List.{list_any};
ghost use Rattle.std.specs.Str.{bytes_eq};
ghost use Rattle.store_model.specs.Store.{insert_file as with_file};
ghost use Rattle.plain_sessions.specs.Uploading.{names_stand};

use plain_snapshots::{File, insert_file};
use std::alloc::{AllocError, Global};
use std::marker::Model;
use store_types::FileName;

/// Files in byte order of their names.
#[derive(Drop)]
pub struct Uploads {
    items: Vec<File>,
}

impl Model for Uploads {
    ghost use Rattle.std.specs.Prelude.{List, IsTrue};
    ghost use Rattle.store_files.specs.Archive as model;
    ghost use Rattle.plain_sessions.specs.Uploading.{names_stand};

    ghost Value = { List model.File };

    ghost view = { λ u. u.items.items };

    ghost invariant = { λ u. IsTrue (names_stand u.items.items) };
}

impl Uploads {
    /// None. It takes no memory.
    pub fn new(alloc: Global) -> Uploads
        ensures { result ≡ [] }
    {
        Uploads {
            items: Vec::new(alloc),
        }
    }

    /// How many there are.
    pub fn len(&self) -> usize
        ensures { result ≡ length self.now }
    {
        self.items.len()
    }

    /// One has this name.
    pub fn has_name(&self, name: &FileName) -> bool
        ensures { result ≡ list_any (λ f. bytes_eq f.name name.now) self.now }
    {
        self.items.iter().any(|file| file.name == *name)
    }

    /// All, as they stand.
    pub fn as_slice(&self) -> &[File]
        ensures value { result.now ≡ self.now }
        ensures order { IsTrue (names_stand self.now) }
    {
        &self.items
    }

    /// Copies of all, as they stand.
    pub fn to_vec(&self) -> Result<Vec<File>, AllocError>
        ensures { IfOk result (λ files. files.items ≡ self.now) }
    {
        self.items.clone()
    }

    /// One more, before the first with a greater name. At want of memory nothing has changed.
    pub fn insert(&mut self, file: File) -> Result<(), AllocError>
        ensures ok { OnOk result (self.new ≡ with_file file self.old) }
        ensures err { OnErr result (self.new ≡ self.old) }
    {
        insert_file(&mut self.items, file)
    }
}
