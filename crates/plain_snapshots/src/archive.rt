//! Archives with all their bytes, and the texts of their index files.

ghost use Rattle.std.specs.Prelude.{◌≡◌, IfOk, length, map};
ghost use Rattle.std.specs.List.{concat, flat_map};
ghost use Rattle.sha2.specs.Sha256.{sha256};
ghost use Rattle.store_files.specs.Archive.{archive_text, content_of, csum_by, size_by, text_by, fixed, dynamic_of_archive, ends_from};
ghost use Rattle.store_files.specs.DynamicIndex.{dynamic_text as text_of_dynamic, entry_text};

use crate::blob::BlobData;
use sha2::{Digest, Sha256};
use std::alloc::{AllocError, Global};
use std::marker::Model;
use store_types::{Bytes, Digest32};

const FIXED_MAGIC: [u8; 8] = [47, 127, 65, 237, 145, 253, 15, 205];

const DYNAMIC_MAGIC: [u8; 8] = [28, 145, 78, 165, 25, 186, 179, 205];

/// How an archive is cut into pieces.
#[derive(Clone, Copy)]
pub enum Layout {
    /// Anywhere.
    Dynamic,
    /// At each multiple of the chunk size, up to the size, both in bytes.
    Fixed { size: u64, chunk_size: u64 },
}

/// An archive: all its pieces, and what its index file says besides.
#[derive(Drop)]
pub struct Archive {
    pub layout: Layout,
    pub uuid: Bytes,
    /// Seconds since 1970.
    pub ctime: i64,
    pub reserved: Bytes,
    pub pieces: Vec<BlobData>,
}

impl Model for Archive {
    ghost use Rattle.store_files.specs.Archive as model;

    ghost Value = { model.Archive };

    ghost use Rattle.plain_snapshots.specs.Shown.{shown_layout};

    ghost view = { λ a. record {
      layout = shown_layout a.layout;
      uuid = a.uuid;
      ctime = a.ctime;
      reserved = a.reserved;
      pieces = a.pieces.items;
    } };
}

/// The digests of the pieces, one after another.
fn digests_of(alloc: Global, pieces: &[BlobData]) -> Result<Vec<u8>, AllocError>
    ensures { IfOk result (λ text. text.items ≡ concat (map sha256 pieces.now)) }
{
    let mut text = Vec::new(alloc);
    for piece in pieces {
        text.extend_from_slice(&piece.digest().0)?;
    }
    Ok(text)
}

/// The entries of the pieces, one after another: where each ends, and its digest.
fn entries_of(alloc: Global, pieces: &[BlobData]) -> Result<Vec<u8>, AllocError>
    ensures { IfOk result (λ text. text.items ≡ flat_map entry_text (ends_from 0 pieces.now)) }
{
    let mut text = Vec::new(alloc);
    let mut end = 0u64;
    for piece in pieces {
        end = end.wrapping_add(piece.as_slice().len() as u64);
        text.extend_from_slice(&end.to_le_bytes())?;
        text.extend_from_slice(&piece.digest().0)?;
    }
    Ok(text)
}

/// Where the pieces end, in bytes, one behind another. More than a `u64` counts no memory holds.
pub fn end_of(pieces: &[BlobData]) -> Result<u64, AllocError>
    ensures { IfOk result (λ end. end ≡ length (concat pieces.now)) }
{
    let mut end = 0u64;
    for piece in pieces {
        let size = piece.as_slice().len() as u64;
        end = end.checked_add(size).ok_or(AllocError)?;
    }
    Ok(end)
}

impl Archive {
    /// The archive's size in bytes: of a fixed one, the size that it was declared with.
    pub fn size(&self) -> Result<u64, AllocError>
        ensures { IfOk result (λ size. size ≡ size_by self.now.layout self.now) }
    {
        match self.layout {
            Layout::Dynamic => end_of(&self.pieces),
            Layout::Fixed { size, .. } => Ok(size),
        }
    }

    /// The text of the archive's index file.
    #[tactic(auto, unfolding(store_files::specs::Archive::archive_text))]
    pub fn text(&self, alloc: Global) -> Result<Vec<u8>, AllocError>
        ensures { IfOk result (λ text. text.items ≡ archive_text self.now) }
    {
        match self.layout {
            Layout::Dynamic => self.dynamic_text(alloc),
            Layout::Fixed { size, chunk_size } => self.fixed_text(alloc, size, chunk_size),
        }
    }

    /// The checksum of the archive's index file: the SHA-256 of what names its pieces.
    pub fn csum(&self, alloc: Global) -> Result<Digest32, AllocError>
        ensures { IfOk result (λ csum. csum ≡ csum_by self.now.layout self.now) }
    {
        match self.layout {
            Layout::Dynamic => {
                let entries = entries_of(alloc, &self.pieces)?;
                Ok(Digest32(Sha256::digest(&entries)))
            }
            Layout::Fixed { .. } => {
                let digests = digests_of(alloc, &self.pieces)?;
                Ok(Digest32(Sha256::digest(&digests)))
            }
        }
    }

    #[tactic(auto, unfolding(store_files::specs::FixedIndex::fixed_text))]
    fn fixed_text(&self, alloc: Global, size: u64, chunk_size: u64) -> Result<Vec<u8>, AllocError>
        ensures { IfOk result (λ text. text.items ≡ text_by (fixed size chunk_size) self.now) }
    {
        let digests = digests_of(alloc, &self.pieces)?;
        let mut text = Vec::from_slice(alloc, &FIXED_MAGIC)?;
        text.extend_from_slice(self.uuid.as_slice())?;
        text.extend_from_slice(&self.ctime.to_le_bytes())?;
        text.extend_from_slice(&Sha256::digest(&digests))?;
        text.extend_from_slice(&size.to_le_bytes())?;
        text.extend_from_slice(&chunk_size.to_le_bytes())?;
        text.extend_from_slice(self.reserved.as_slice())?;
        text.extend_from_slice(&digests)?;
        Ok(text)
    }

    #[tactic(auto, unfolding(store_files::specs::DynamicIndex::dynamic_text))]
    fn dynamic_text(&self, alloc: Global) -> Result<Vec<u8>, AllocError>
        ensures { IfOk result (λ text. text.items ≡ text_of_dynamic (dynamic_of_archive self.now)) }
    {
        let entries = entries_of(alloc, &self.pieces)?;
        let mut text = Vec::from_slice(alloc, &DYNAMIC_MAGIC)?;
        text.extend_from_slice(self.uuid.as_slice())?;
        text.extend_from_slice(&self.ctime.to_le_bytes())?;
        text.extend_from_slice(&Sha256::digest(&entries))?;
        text.extend_from_slice(self.reserved.as_slice())?;
        text.extend_from_slice(&entries)?;
        Ok(text)
    }
}

impl Clone for Archive {
    ghost is_clone = { λ archive copy. copy ≡ archive };

    fn clone(&self) -> Result<Archive, AllocError> {
        Ok(Archive {
            layout: self.layout,
            uuid: self.uuid.clone()?,
            ctime: self.ctime,
            reserved: self.reserved.clone()?,
            pieces: self.pieces.clone()?,
        })
    }
}
