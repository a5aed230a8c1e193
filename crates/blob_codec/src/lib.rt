//! Blobs, the form in which pieces and small files are sent and kept: a magic number of eight
//! bytes, the CRC-32 of the data in four bytes, lowest first, and the data themselves, of at most
//! 16,777,216 bytes. These are the uncompressed and unencrypted blobs of Proxmox Backup; the other
//! three kinds are told apart and refused.
//!
//! Data have one blob, so a blob that decodes can be kept and sent on as it came.
#![tactic(auto)]

ghost use Rattle.std.specs.Prelude.{◌≡◌, ◌↔◌, ℕ, List, take, drop, Ok, Err, IsOk, IfOk, IfErr, MatchResult};
ghost use Rattle.std.specs.Int.{w32, from_le_bytes};
ghost use Rattle.blob_codec.specs.Blob.{blob, data_under, data_behind, FitsBlob, Decodes};

pub mod laws;

use crc_core::crc32;
use std::alloc::{AllocError, Global};
pub use store_types::BadBlob;

/// The bytes of a blob before its data.
pub const HEADER_SIZE: usize = 12;

/// The most bytes of data that a blob holds.
pub const DATA_LIMIT: usize = 16_777_216;

const MAGIC: [u8; 8] = [66, 171, 56, 7, 190, 131, 112, 161];

const COMPRESSED_MAGIC: [u8; 8] = [49, 185, 88, 66, 111, 182, 163, 127];

const ENCRYPTED_MAGIC: [u8; 8] = [123, 103, 133, 190, 34, 45, 76, 240];

const ENCRYPTED_COMPRESSED_MAGIC: [u8; 8] = [230, 89, 27, 191, 11, 191, 216, 11];

/// The blob of `data`. The outer error is want of memory; the inner one is `TooLong` alone, and comes exactly where the
/// data are over `DATA_LIMIT`.
#[tactic(auto, unfolding(crate::specs::Blob::blob))]
pub fn encode(alloc: Global, data: &[u8]) -> Result<Result<Vec<u8>, BadBlob>, AllocError>
    ensures text { IfOk result (λ r. IfOk r (λ text. text.items ≡ blob «data».now)) }
    ensures fits { IfOk result (λ r. IsOk r ↔ FitsBlob «data».now) }
    ensures too_long { IfOk result (λ r. IfErr r (λ e. e ≡ BadBlob.TooLong)) }
{
    if data.len() > DATA_LIMIT {
        return Ok(Err(BadBlob::TooLong));
    }
    let mut text = Vec::with_capacity(alloc, HEADER_SIZE + data.len())?;
    text.extend_from_slice(&MAGIC)?;
    text.extend_from_slice(&crc32(data).to_le_bytes())?;
    text.extend_from_slice(data)?;
    Ok(Ok(text))
}

/// The data of the blob, lent from its bytes, or the first cause for which they are none, in the
/// order of `BadBlob`. It takes no memory and copies nothing.
pub fn decode(bytes: &[u8]) -> Result<&[u8], BadBlob>
    ensures { Decodes bytes.now result }
{
    if bytes.len() < HEADER_SIZE {
        return Err(BadBlob::Short);
    }
    let (magic, rest) = bytes.split_at(8);
    check_magic(magic)?;
    let (kept, data) = rest.split_at(4);
    check_data(
        u32::from_le_bytes([kept[0], kept[1], kept[2], kept[3]]),
        data,
    )?;
    Ok(data)
}

// `Ok` where these are the magic bytes of a blob with plain data.
fn check_magic(magic: &[u8]) -> Result<(), BadBlob>
    ensures { (rest : List ℕ) → MatchResult result
        (λ _. data_under magic.now rest ≡ data_behind (from_le_bytes w32 (take 4 rest)) (drop 4 rest))
        (λ e. data_under magic.now rest ≡ Err e) }
{
    if magic == COMPRESSED_MAGIC.as_slice() {
        Err(BadBlob::Compressed)
    } else if magic == ENCRYPTED_MAGIC.as_slice() {
        Err(BadBlob::Encrypted)
    } else if magic == ENCRYPTED_COMPRESSED_MAGIC.as_slice() {
        Err(BadBlob::EncryptedCompressed)
    } else if magic == MAGIC.as_slice() {
        Ok(())
    } else {
        Err(BadBlob::UnknownMagic)
    }
}

// `Ok` where the data are within the limit and have the CRC that is kept beside them.
fn check_data(kept: u32, data: &[u8]) -> Result<(), BadBlob>
    ensures { MatchResult result
        (λ _. data_behind kept «data».now ≡ Ok «data».now)
        (λ e. data_behind kept «data».now ≡ Err e) }
{
    if data.len() > DATA_LIMIT {
        return Err(BadBlob::TooLong);
    }
    let found = crc32(data);
    if kept != found {
        return Err(BadBlob::WrongCrc { kept, found });
    }
    Ok(())
}
