//! Chunks as they are read.

ghost use Rattle.std.specs.Prelude.{◌≡◌, IfOk, OnOk};
ghost use Rattle.sha2.specs.Sha256.{sha256};
ghost use Rattle.blob_codec.specs.Blob.{blob as blob_of};
ghost use Rattle.store_files.specs.Folder.{IsPiece};
ghost use Rattle.chunk_store.specs.Pieces.{IsChunk, TellsChecked, TellsPiece, TestsPiece, TakesBlob};
ghost use Rattle.chunk_store.specs.declared.chunk.LoadFault.TheVariants.{Failed as LoadFailed, NoMemory};
ghost use Rattle.chunk_store.specs.Faults.{load_fault};

use blob_codec::{HEADER_SIZE, decode};
use disk_trait::{DiskError, Failed};
use sha2::{Digest, Sha256};
use std::marker::Model;
use store_types::{ChunkFault, Digest32};
use thiserror::Error;

/// Why a chunk isn't loaded.
#[derive(Clone, Copy, Debug, PartialEq, Eq, Error)]
pub enum LoadFault {
    /// The digest that was asked for, and what stands there.
    #[error("the chunk is damaged")]
    Damaged { digest: Digest32, found: ChunkFault },
    #[error("the disk failed")]
    Failed,
    #[error("out of memory")]
    NoMemory,
}

impl From<DiskError> for LoadFault {
    ghost from_gives = { λ e fault. fault ≡ load_fault e };

    fn from(error: DiskError) -> Self {
        match error {
            DiskError::Failed => LoadFault::Failed,
            DiskError::NoMemory => LoadFault::NoMemory,
        }
    }
}

impl From<Failed> for LoadFault {
    ghost from_gives = { λ _ fault. fault ≡ LoadFailed };

    fn from(_: Failed) -> Self {
        LoadFault::Failed
    }
}

/// A chunk's blob, as contracts see it: its piece.
#[derive(Debug, Drop)]
pub struct Chunk {
    text: Vec<u8>,
}

impl Model for Chunk {
    ghost use Rattle.std.specs.Prelude.{◌≡◌, ℕ, List, drop};
    ghost use Rattle.blob_codec.specs.Blob.{blob};

    ghost Value = { List ℕ };

    ghost view = { λ c. drop 12 c.text.items };

    ghost invariant = { λ c. c.text.items ≡ blob (drop 12 c.text.items) };
}

impl Chunk {
    /// The piece, lent from the blob.
    pub fn piece(&self) -> &[u8]
        ensures { result.now ≡ self.now }
    {
        &self.text[HEADER_SIZE..]
    }

    /// The blob, which is sent on as it was read.
    pub fn blob(&self) -> &[u8]
        ensures { result.now ≡ blob_of self.now }
    {
        &self.text
    }

    /// The blob, in the memory into which it was read.
    pub fn into_blob(self) -> Vec<u8>
        ensures { result.items ≡ blob_of self }
    {
        let Chunk { text } = self;
        text
    }
}

/// Whether these data of a blob are a piece with this digest.
fn check_piece(digest: &Digest32, piece: &[u8]) -> Result<(), ChunkFault>
    ensures { TellsChecked digest.now.0 piece.now result }
{
    let found = Sha256::digest(piece);
    if piece.is_empty() || found != digest.0 {
        return Err(ChunkFault::Other(Digest32(found)));
    }
    Ok(())
}

/// Whether the bytes of a chunk's file are the blob of a piece with this digest, or why they are none. It takes no
/// memory.
pub fn test(digest: &Digest32, text: &[u8]) -> Result<(), ChunkFault>
    ensures tests { TestsPiece digest.now.0 text.now result }
    ensures chunk { OnOk result (IsChunk digest.now.0 text.now) }
{
    let Ok(piece) = decode(text) else {
        return Err(ChunkFault::NotABlob);
    };
    check_piece(digest, piece)
}

/// The chunk whose file has these bytes, or why there is none with this digest.
pub fn check(digest: &Digest32, text: Vec<u8>) -> Result<Chunk, ChunkFault>
    ensures value { TellsPiece digest.now.0 text.items result }
    ensures piece { IfOk result (λ chunk. IsPiece chunk × (sha256 chunk ≡ digest.now.0)) }
    // the blob of a piece with the digest
    ensures blob { TakesBlob digest.now.0 text.items result }
{
    test(digest, &text)?;
    Ok(Chunk { text })
}
