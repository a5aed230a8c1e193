//! Chunks that an answer needs.

ghost use Rattle.std.specs.Prelude.{◌≡◌, ◌+◌, ◌≤◌, OnOk, IfOk, IfErr, IsErrOf, length};
ghost use Rattle.disk_trait.specs.Effects.{OnlyReads};
ghost use Rattle.sha2.specs.Sha256.{sha256};
ghost use Rattle.blob_codec.specs.Blob.{blob_limit};
ghost use Rattle.store_files.specs.Folder.{IsPiece};
ghost use Rattle.restore_reader.specs.Cutting.{cut, total_of};
ghost use Rattle.store_stops.specs.declared.stop.Stop.TheVariants.{DiskFailed};
ghost use Rattle.snapshot_files.specs.Reads.{StopHasText};
ghost use Rattle.core_reader.specs.Chunks.{GivesBytes, GivesChunk, GivesHeld, GivesHeldPart, GivesPartChunk, HoldsParts, IsUnrefused, ReadsParts, StopsAmong, StopsAt, digests_of, stop_by_load};

use chunk_store::{Chunk, LoadFault, load, read};
use disk_trait::Disk;
use restore_reader::Part;
use std::alloc::Global;
use store_stops::Stop;
use store_types::{Bytes, ChunkFault, Digest32, Refusal};

/// Why the chunk isn't loaded, as a stop.
fn stopped(fault: LoadFault) -> Stop
    ensures value { result ≡ stop_by_load fault }
    ensures text { StopHasText result }
{
    match fault {
        LoadFault::Damaged { digest, found } => Stop::Refused(Refusal::Damaged {
            digest,
            fault: found,
        }),
        LoadFault::Failed => Stop::DiskFailed,
        LoadFault::NoMemory => Stop::NoMemory,
    }
}

/// The bytes of the chunk's file, as they stand on the disk: whether they are a blob with this digest is not tested. It
/// is refused as damaged where nothing is there, and where it is longer than a blob may be.
pub fn read_bytes<D: Disk>(disk: &mut D, alloc: Global, digest: &Digest32) -> Result<Bytes, Stop>
    ensures reads { OnlyReads D.Disk disk.old disk.new (IsErrOf result DiskFailed) }
    ensures value { D.honest disk.old → GivesBytes (D.content disk.old) digest.now result }
    // on any disk
    ensures size { IfOk result (λ bytes. length bytes ≤ blob_limit) }
    ensures damage { IfErr result (StopsAt digest.now) }
{
    match read(disk, alloc, digest) {
        Ok(bytes) => Ok(Bytes::from_vec(bytes)),
        Err(fault) => Err(stopped(fault)),
    }
}

/// The chunk with this digest. It is refused as damaged where nothing is there, where the file is no blob, and where its
/// data are not a piece with this digest.
pub fn read_chunk<D: Disk>(disk: &mut D, alloc: Global, digest: &Digest32) -> Result<Chunk, Stop>
    ensures reads { OnlyReads D.Disk disk.old disk.new (IsErrOf result DiskFailed) }
    ensures value { D.honest disk.old → GivesChunk (D.content disk.old) digest.now result }
    // a piece that stands there is given
    ensures held { D.honest disk.old → GivesHeld (D.content disk.old) digest.now result }
    // on any disk
    ensures checked { IfOk result (λ chunk. IsPiece chunk × (sha256 chunk ≡ digest.now.0)) }
    ensures size { IfOk result (λ chunk. length chunk ≤ 16_777_216) }
    ensures damage { IfErr result (StopsAt digest.now) }
{
    match load(disk, alloc, digest) {
        Ok(chunk) => Ok(chunk),
        Err(fault) => Err(stopped(fault)),
    }
}

/// The chunk of a part, which is damaged too where its piece is not as long as the index says: it is another piece with
/// this digest.
fn read_part_chunk<D: Disk>(disk: &mut D, alloc: Global, part: &Part) -> Result<Chunk, Stop>
    ensures reads { OnlyReads D.Disk disk.old disk.new (IsErrOf result DiskFailed) }
    ensures value { D.honest disk.old → GivesPartChunk (D.content disk.old) part.now result }
    // the piece of which it is a part is given, where that stands there
    ensures held { D.honest disk.old → GivesHeldPart (D.content disk.old) part.now result }
    ensures damage { IfErr result (StopsAt part.now.digest) }
{
    let digest = part.digest;
    let chunk = read_chunk(disk, alloc, &digest)?;
    if chunk.piece().len() != part.chunk_length as usize {
        let found = ChunkFault::Other(digest);
        return Err(stopped(LoadFault::Damaged { digest, found }));
    }
    Ok(chunk)
}

/// The part of a piece, as far as the piece has it.
fn cut_from<'a>(piece: &'a [u8], part: &Part) -> &'a [u8]
    ensures { result.now ≡ cut part.now piece.now }
{
    let from = piece.len().min(part.from as usize);
    let end = piece.len().min(part.from as usize + part.length as usize);
    &piece[from..end]
}

/// Reads the bytes of parts of chunks, one after another, behind those that were read before. Beside the bytes there is
/// one chunk at a time.
///
/// It is refused by the first chunk that is damaged, or not as long as the index says.
pub fn read_parts<D: Disk>(
    disk: &mut D,
    alloc: Global,
    parts: &[Part],
    bytes: &mut Vec<u8>,
) -> Result<(), Stop>
    ensures reads { OnlyReads D.Disk disk.old disk.new (IsErrOf result DiskFailed) }
    ensures value { D.honest disk.old → ReadsParts (D.content disk.old) parts.now
        bytes.old.items bytes.new.items result }
    // parts of pieces that stand there are read
    ensures held { D.honest disk.old → HoldsParts (D.content disk.old) parts.now
        → IsUnrefused result }
    // on any disk
    ensures size { OnOk result (length bytes.new.items
        ≤ length bytes.old.items + total_of parts.now) }
    ensures damage { IfErr result (StopsAmong (digests_of parts.now)) }
{
    for part in parts {
        let chunk = read_part_chunk(disk, alloc, part)?;
        bytes.extend_from_slice(cut_from(chunk.piece(), part))?;
    }
    Ok(())
}
