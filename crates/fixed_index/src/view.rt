//! An index as it is read from its file's bytes.

ghost use Rattle.std.specs.Prelude.{◌≡◌, ◌+◌, ◌-◌, ◌%◌, ◌≤◌, ◌<◌, [], length, take, IfOk, slice_index_or, slice_range};
ghost use Rattle.std.specs.Str.{bytes_eq};
ghost use Rattle.std.specs.Int.{w64, from_le_bytes};
ghost use Rattle.store_files.specs.Cells.{header_len};
ghost use Rattle.store_files.specs.FixedIndex.{fixed_text, magic, fields_of, csum_of, has_sizes as sizes_agree};
ghost use Rattle.fixed_index.specs.Viewing.{fault_of as fault_in, TellsIndex};

use crate::sizes::{is_chunk_size, piece_count};
use crate::{HEADER_SIZE, MAGIC};
use sha2::{Digest, Sha256};
use std::marker::Model;
use store_files::IndexFault;
use store_types::{Digest32, ENTRY_LIMIT};
use thiserror::Error;

/// Bytes are no fixed index, for this cause, the first in the order of `IndexFault`.
#[derive(Clone, Copy, Debug, PartialEq, Eq, Drop, Error)]
#[error("the bytes are no fixed index")]
pub struct BadIndex {
    pub cause: IndexFault,
}

/// What an index says, as contracts see it, read from bytes that are lent.
#[derive(Drop)]
pub struct FixedView<'a> {
    bytes: &'a [u8],
}

impl<'a> Model for FixedView<'a> {
    ghost use Rattle.store_files.specs.FixedIndex.{FixedIndex, fields_of};
    ghost use Rattle.fixed_index.specs.Viewing.{IsIndex};

    ghost Value = { FixedIndex };

    ghost view = { λ v. fields_of v.bytes.now };

    ghost invariant = { λ v. IsIndex v.bytes.now };
}

impl<'a> FixedView<'a> {
    ghost use Rattle.fixed_index.specs.Viewing.{start_of, stop_of};

    /// The index that the bytes are, or the first cause for which they are none. It takes no memory.
    pub fn open_on(bytes: &'a [u8]) -> Result<FixedView<'a>, BadIndex>
        ensures exact { TellsIndex bytes.now result }
        ensures text { IfOk result (λ view. bytes.now ≡ fixed_text view) }
    {
        match fault_of(bytes) {
            Some(cause) => Err(BadIndex { cause }),
            None => Ok(FixedView { bytes }),
        }
    }

    /// How many digests there are.
    pub fn len(&self) -> u32
        ensures { result ≡ length self.now.digests }
    {
        ((self.bytes.len() - HEADER_SIZE) / 32) as u32
    }

    /// The digest at a place.
    pub fn digest(&self, i: u32) -> Digest32
        requires { i < length self.now.digests }
        ensures { result.0 ≡ slice_index_or self.now.digests i [] }
    {
        Digest32(digest_at(self.bytes, HEADER_SIZE + 32 * i as usize))
    }

    /// Where the piece at a place begins and ends in the archive.
    pub fn span(&self, i: u32) -> (u64, u64)
        requires { i < length self.now.digests }
        ensures start { result.0 ≡ start_of self.now i }
        ensures end { result.1 ≡ stop_of self.now i }
    {
        let chunk_size = u64_at(self.bytes, 72);
        let start = i as u64 * chunk_size;
        (start, (start + chunk_size).min(self.size()))
    }

    /// The archive's size in bytes.
    pub fn size(&self) -> u64
        ensures { result ≡ self.now.size }
    {
        u64_at(self.bytes, 64)
    }

    /// The bytes of each piece but the last.
    pub fn chunk_size(&self) -> u64
        ensures { result ≡ self.now.chunk_size }
    {
        u64_at(self.bytes, 72)
    }

    /// The SHA-256 of the digests one after another.
    pub fn csum(&self) -> Digest32
        ensures { result.0 ≡ csum_of self.now }
    {
        Digest32(digest_at(self.bytes, 32))
    }
}

// The first fault of bytes that are no index.
fn fault_of(bytes: &[u8]) -> Option<IndexFault>
    ensures { result ≡ fault_in bytes.now }
{
    if bytes.len() < HEADER_SIZE {
        return Some(IndexFault::Short);
    }
    if !has_magic(bytes) {
        return Some(IndexFault::Magic);
    }
    let rest = bytes.len() - HEADER_SIZE;
    if rest % 32 != 0 {
        return Some(IndexFault::Length);
    }
    if rest / 32 > ENTRY_LIMIT {
        return Some(IndexFault::Count);
    }
    if !has_sizes(bytes) {
        return Some(IndexFault::Sizes);
    }
    if !has_csum(bytes) {
        return Some(IndexFault::Csum);
    }
    None
}

fn has_magic(bytes: &[u8]) -> bool
    requires { 8 ≤ length bytes.now }
    ensures { result ≡ bytes_eq (take 8 bytes.now) magic }
{
    &bytes[..8] == MAGIC.as_slice()
}

// Whether the chunk size is allowed, and the size makes as many pieces as there are digests.
fn has_sizes(bytes: &[u8]) -> bool
    requires { header_len ≤ length bytes.now }
    ensures { result ≡ sizes_agree (fields_of bytes.now) }
{
    let chunk_size = u64_at(bytes, 72);
    if !is_chunk_size(chunk_size) {
        return false;
    }
    let count = (bytes.len() - HEADER_SIZE) / 32;
    count as u64 == piece_count(u64_at(bytes, 64), chunk_size)
}

fn has_csum(bytes: &[u8]) -> bool
    requires long { header_len ≤ length bytes.now }
    requires whole { (length bytes.now - header_len) % 32 ≡ 0 }
    ensures { result ≡ bytes_eq (slice_range bytes.now 32 64) (csum_of (fields_of bytes.now)) }
{
    let csum = Sha256::digest(&bytes[HEADER_SIZE..]);
    &bytes[32..64] == csum.as_slice()
}

fn digest_at(bytes: &[u8], at: usize) -> [u8; 32]
    requires { at + 32 ≤ length bytes.now }
    ensures { result ≡ slice_range bytes.now at (at + 32) }
{
    let mut digest = [0; 32];
    digest.copy_from_slice(&bytes[at..at + 32]);
    digest
}

fn u64_at(bytes: &[u8], at: usize) -> u64
    requires { at + 8 ≤ length bytes.now }
    ensures { result ≡ from_le_bytes w64 (slice_range bytes.now at (at + 8)) }
{
    let mut word = [0; 8];
    word.copy_from_slice(&bytes[at..at + 8]);
    u64::from_le_bytes(word)
}
