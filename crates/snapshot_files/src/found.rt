//! A snapshot that stands on the disk, whole or damaged.

ghost use Rattle.std.specs.Prelude.{◌≡◌, option_map, IfOk};
ghost use Rattle.manifest.specs.Views.{manifest_view};
ghost use Rattle.store_types.specs.Names.{key_cmp};
ghost use Rattle.store_model.specs.Load.{read_manifest as manifest_of};
ghost use Rattle.snapshot_files.specs.Scanned.{IsInOrder};

use blob_codec::decode;
use manifest::Manifest;
use std::alloc::{AllocError, Global};
use std::cmp::Ordering;
use std::marker::Model;
use store_types::{Bytes, SnapshotKey};

/// A snapshot whose manifest's file is there.
#[derive(Debug, Drop)]
pub struct Found {
    pub key: SnapshotKey,
    /// What the manifest says, where its file is the blob of one.
    pub manifest: Option<Manifest>,
    /// The full name of the file that makes the snapshot damaged: of the manifest, where it cannot be read or lists more
    /// than 63 files, else of the first listed file, in byte order, that is missing.
    pub unreadable: Option<Bytes>,
}

impl Model for Found {
    ghost use Rattle.std.specs.Prelude.{option_map};
    ghost use Rattle.manifest.specs.Views.{manifest_view};
    ghost use Rattle.snapshot_files.specs.Scanned.{FoundSnapshot};

    ghost Value = { FoundSnapshot };

    ghost view = { λ f. record { key = f.key; manifest = option_map manifest_view f.manifest; unreadable = f.unreadable } };
}

impl Found {
    /// By their keys.
    fn order(&self, other: &Found) -> Ordering
        ensures { result ≡ key_cmp self.now.key other.now.key }
    {
        self.key.cmp(&other.key)
    }
}

/// The manifest whose blob these bytes are.
pub fn read_manifest(alloc: Global, bytes: &[u8]) -> Result<Option<Manifest>, AllocError>
    ensures { IfOk result (λ listed. option_map manifest_view listed ≡ manifest_of bytes.now) }
{
    let Ok(contents) = decode(bytes) else {
        return Ok(None);
    };
    match manifest::read(alloc, contents)? {
        Ok(listed) => Ok(Some(listed)),
        Err(_) => Ok(None),
    }
}

/// The snapshots in their order. It takes no memory.
pub fn in_order(mut all: Vec<Found>) -> Vec<Found>
    ensures { IsInOrder all.items result.items }
{
    all.sort_unstable_by(|a, b| a.order(b));
    all
}
