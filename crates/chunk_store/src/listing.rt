//! The digests of all chunks on a disk.

ghost use Rattle.std.specs.Prelude.{◌≡◌, IfOk, IsErrOf};
ghost use Rattle.disk_trait.specs.Disk.{Ticks};
ghost use Rattle.disk_trait.specs.Effects.{OnlyReads};
ghost use Rattle.chunk_store.specs.Listed.{ListsAmong, ListsChunks, digest_named, digests_in};

use crate::name::ChunkName;
use disk_trait::{Disk, DiskError};
use hex::FromHex;
use std::alloc::{AllocError, Global};
use store_types::Digest32;

/// The digest whose chunk has this name.
fn digest_of(name: &str) -> Option<Digest32>
    ensures { result ≡ digest_named name.now }
{
    let digits = name.as_bytes().get(13..)?;
    let digest = Digest32(<[u8; 32]>::from_hex(digits).ok()?);
    if name == ChunkName::of(&digest).as_str() {
        Some(digest)
    } else {
        None
    }
}

/// The digests whose chunks have these names, in the order of the names. Names of another form are passed over.
///
/// Where they are all names of a disk, these are the digests that `scan` gives.
pub fn digests_named(alloc: Global, names: &[String]) -> Result<Vec<Digest32>, AllocError>
    ensures value { IfOk result (λ digests. digests.items ≡ digests_in names.now) }
    ensures digests { IfOk result (λ digests. ListsAmong names.now digests.items) }
{
    let mut digests = Vec::new(alloc);
    for name in names {
        if let Some(digest) = digest_of(name.as_str()) {
            digests.push(digest)?;
        }
    }
    Ok(digests)
}

/// The digests under which a file stands, whatever it holds, in byte order. Names of another form are passed over.
pub fn scan<D: Disk>(disk: &mut D, alloc: Global) -> Result<Vec<Digest32>, DiskError>
    ensures reads { OnlyReads D.Disk disk.old disk.new (IsErrOf result DiskError.Failed) }
    ensures tick { Ticks D.honest D.calls disk.old disk.new }
    ensures digests { ListsChunks D.Disk disk.old result }
{
    let names = disk.list(alloc, ".chunks/")?;
    let digests = digests_named(alloc, &names)?;
    Ok(digests)
}
