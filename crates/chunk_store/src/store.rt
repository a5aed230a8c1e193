//! A map from digests to pieces, on a disk.

ghost use Rattle.std.specs.Prelude.{◌≡◌, ◌≤◌, ◌⊎◌, length, IfOk, IfErr, IsErr, IsErrOf};
ghost use Rattle.sha2.specs.Sha256.{sha256};
ghost use Rattle.disk_trait.specs.Disk.{Serves, Ticks, MayGo};
ghost use Rattle.disk_trait.specs.Effects.{OnlyReads, StepsOn, KeepsFiles, DiskTells, DiskDrops, DiskNoneKeeps};
ghost use Rattle.blob_codec.specs.Blob.{blob as blob_of, blob_limit};
ghost use Rattle.store_files.specs.Folder.{IsPiece, chunk_name};
ghost use Rattle.chunk_store.specs.declared.chunk.LoadFault.TheVariants.{Damaged};
ghost use Rattle.chunk_store.specs.Faults.{CallsBySize, IsDamageAsked, LoadsHeld, LoadsPiece, ReadsBytes, TellsDamage};
ghost use Rattle.chunk_store.specs.Pieces.{IsChunk, KeepsPresent, OkAdds, OkAddsBlob, OkKeepsWhole, OkStores, OkTakes, StepsStore};

use crate::chunk::{Chunk, LoadFault, check};
use crate::name::ChunkName;
use blob_codec::{DATA_LIMIT, HEADER_SIZE, encode};
use disk_trait::{Disk, DiskError, Failed};
use file_install::install;
use std::alloc::Global;
use store_types::{ChunkFault, Digest32};

/// The most bytes that the blob of a piece has.
const BLOB_LIMIT: u64 = (HEADER_SIZE + DATA_LIMIT) as u64;

/// Installs a piece's blob under its digest. Where a file is there, nothing is written, whatever it holds.
///
/// A crash leaves nothing or the whole blob under a name that was free, with all that the disk read before; any bytes or
/// nothing under its temporary name, and all else as it was. Until a sync, the blob may go again.
///
/// Tests count four calls of the disk: size, put, sync and rename.
pub fn insert_blob<D: Disk>(
    disk: &mut D,
    alloc: Global,
    digest: &Digest32,
    blob: &[u8],
) -> Result<(), DiskError>
    requires { IsChunk digest.now.0 blob.now }
    ensures serves { Serves D.honest D.faults disk.old disk.new (IsErrOf result DiskError.Failed) }
    ensures tick { Ticks D.honest D.calls disk.old disk.new }
    ensures crash { StepsStore D.Disk disk.old disk.new digest.now.0 blob.now }
    ensures stored { OkStores D.Disk disk.old disk.new digest.now.0 blob.now result }
    ensures present { KeepsPresent D.Disk disk.old disk.new digest.now.0 }
    // of the map
    ensures added { OkAddsBlob D.Disk disk.old disk.new digest.now.0 blob.now result }
    ensures whole { OkKeepsWhole D.Disk disk.old disk.new result }
    ensures unchanged { IsErrOf result DiskError.NoMemory → KeepsFiles D.Disk disk.old disk.new }
{
    let name = ChunkName::of(digest);
    if disk.size(name.as_str())?.is_some() {
        return Ok(());
    }
    install(disk, alloc, name.as_str(), blob)?;
    Ok(())
}

/// Puts a piece under its digest, as [`insert_blob`] does its blob, which takes memory here.
pub fn insert<D: Disk>(
    disk: &mut D,
    alloc: Global,
    digest: &Digest32,
    piece: &[u8],
) -> Result<(), DiskError>
    requires piece { IsPiece piece.now }
    requires digest { sha256 piece.now ≡ digest.now.0 }
    ensures serves { Serves D.honest D.faults disk.old disk.new (IsErrOf result DiskError.Failed) }
    ensures tick { IsErrOf result DiskError.NoMemory ⊎ Ticks D.honest D.calls disk.old disk.new }
    ensures crash { StepsStore D.Disk disk.old disk.new digest.now.0 (blob_of piece.now) }
    ensures stored { OkStores D.Disk disk.old disk.new digest.now.0 (blob_of piece.now) result }
    ensures present { KeepsPresent D.Disk disk.old disk.new digest.now.0 }
    // of the map
    ensures added { OkAdds D.Disk disk.old disk.new digest.now.0 piece.now result }
    ensures whole { OkKeepsWhole D.Disk disk.old disk.new result }
    ensures unchanged { IsErrOf result DiskError.NoMemory → KeepsFiles D.Disk disk.old disk.new }
{
    let Ok(blob) = encode(alloc, piece)? else {
        unreachable!();
    };
    insert_blob(disk, alloc, digest, &blob)?;
    Ok(())
}

/// The bytes of the chunk's file under a digest, whatever they are. It is damaged where nothing is there, and where the
/// file is longer than a blob: then nothing of it is read.
///
/// One call of the disk for the size, and one that reads.
pub fn read<D: Disk>(disk: &mut D, alloc: Global, digest: &Digest32) -> Result<Vec<u8>, LoadFault>
    ensures reads { OnlyReads D.Disk disk.old disk.new (IsErrOf result LoadFault.Failed) }
    ensures tick { Ticks D.honest D.calls disk.old disk.new }
    ensures calls { CallsBySize D.Disk disk.old disk.new digest.now result }
    ensures bytes { ReadsBytes D.Disk disk.old digest.now result }
    // on any disk
    ensures size { IfOk result (λ bytes. length bytes.items ≤ blob_limit) }
    ensures asked { IfErr result (IsDamageAsked digest.now) }
{
    let name = ChunkName::of(digest);
    let Some(size) = disk.size(name.as_str())? else {
        return Err(damaged(digest, ChunkFault::Nothing));
    };
    if size > BLOB_LIMIT {
        return Err(damaged(digest, ChunkFault::NotABlob));
    }
    match disk.read(alloc, name.as_str())? {
        Some(text) if text.len() as u64 <= BLOB_LIMIT => Ok(text),
        _ => Err(damaged(digest, ChunkFault::NotABlob)),
    }
}

/// The chunk under a digest. It is damaged where nothing is there, where the file is no blob, and where its data are not
/// a piece with this digest: the first of these is told, the last with the digest of the data.
pub fn load<D: Disk>(disk: &mut D, alloc: Global, digest: &Digest32) -> Result<Chunk, LoadFault>
    ensures reads { OnlyReads D.Disk disk.old disk.new (IsErrOf result LoadFault.Failed) }
    ensures tick { Ticks D.honest D.calls disk.old disk.new }
    ensures piece { LoadsPiece D.Disk disk.old digest.now.0 result }
    ensures damaged { TellsDamage D.Disk disk.old digest.now result }
    // a piece that stands there is loaded
    ensures held { LoadsHeld D.Disk disk.old digest.now.0 result }
    // on any disk
    ensures checked { IfOk result (λ chunk. IsPiece chunk × (sha256 chunk ≡ digest.now.0)) }
    ensures asked { IfErr result (IsDamageAsked digest.now) }
{
    let text = read(disk, alloc, digest)?;
    match check(digest, text) {
        Ok(chunk) => Ok(chunk),
        Err(found) => Err(damaged(digest, found)),
    }
}

fn damaged(digest: &Digest32, found: ChunkFault) -> LoadFault
    ensures { result ≡ Damaged digest.now found }
{
    LoadFault::Damaged {
        digest: *digest,
        found,
    }
}

/// Removes what stands under a digest, whatever it holds. `false` exactly where nothing is there. It takes no memory.
///
/// Until a sync, it may or may not have happened.
pub fn remove<D: Disk>(disk: &mut D, digest: &Digest32) -> Result<bool, Failed>
    ensures serves { Serves D.honest D.faults disk.old disk.new (IsErr result) }
    ensures tick { Ticks D.honest D.calls disk.old disk.new }
    ensures crash { StepsOn D.Disk disk.old disk.new (MayGo (chunk_name digest.now.0)) }
    ensures there { DiskTells D.Disk disk.old (chunk_name digest.now.0) result }
    ensures removed { DiskDrops D.Disk disk.old disk.new (chunk_name digest.now.0) result }
    // of the map
    ensures taken { OkTakes D.Disk disk.old disk.new digest.now.0 result }
    ensures whole { OkKeepsWhole D.Disk disk.old disk.new result }
    ensures unchanged { DiskNoneKeeps D.Disk disk.old disk.new result }
{
    let name = ChunkName::of(digest);
    let is_removed = disk.remove(name.as_str())?;
    Ok(is_removed)
}
