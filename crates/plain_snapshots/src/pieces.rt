//! The pieces of archives as a disk has them.

ghost use Rattle.std.specs.Prelude.{◌≡◌, IfOk, option_map};
ghost use Rattle.store_files.specs.Folder.{chunk_name as name_of_chunk};
ghost use Rattle.store_model.specs.Load.{piece_in as piece_of};
ghost use Rattle.plain_snapshots.specs.Loading.{data_of_digest};

use crate::blob::BlobData;
use crate::stored::{Folder, Stored};
use std::alloc::{AllocError, Global};

/// Where the chunk with this digest stands: `.chunks/<first four digits>/<all digits>`, in lower case.
fn chunk_name(alloc: Global, digest: &[u8]) -> Result<Vec<u8>, AllocError>
    ensures { IfOk result (λ name. name.items ≡ name_of_chunk digest.now) }
{
    let digits = hex::encode(alloc, digest)?;
    let digits = digits.as_bytes();
    let mut name = Vec::from_slice(alloc, b".chunks/")?;
    name.extend_from_slice(&digits[..digits.len().min(4)])?;
    name.extend_from_slice(b"/")?;
    name.extend_from_slice(digits)?;
    Ok(name)
}

/// The data of a blob, where they have this digest.
fn data_with<'a>(stored: &'a Stored, digest: &[u8]) -> Option<&'a BlobData>
    ensures { option_map (λ piece. piece.now) result ≡ data_of_digest stored.now.1 digest.now }
{
    let Ok(piece) = stored.blob() else {
        return None;
    };
    if piece.digest().0.as_slice() == digest {
        Some(piece)
    } else {
        None
    }
}

/// The piece with this digest. One that is not there, or is another, counts as empty.
#[tactic(auto, unfolding(store_model::specs::Load::piece_in))]
pub fn piece_in(alloc: Global, files: &Folder, digest: &[u8]) -> Result<BlobData, AllocError>
    ensures { IfOk result (λ piece. piece ≡ piece_of files.now digest.now) }
{
    let name = chunk_name(alloc, digest)?;
    let Some(stored) = files.at(&name) else {
        return BlobData::empty(alloc);
    };
    match data_with(stored, digest) {
        Some(piece) => piece.clone(),
        None => BlobData::empty(alloc),
    }
}
