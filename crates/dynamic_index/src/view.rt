//! An index as it is read from its file's bytes.

ghost use Rattle.std.specs.Prelude.{◌≡◌, ◌+◌, ◌-◌, ◌%◌, ◌/◌, ◌≤◌, ◌<◌, ◌&&◌, ◌↔◌, nat_lt, nat_le, length, take, IfOk, IfSome, IsNone, slice_range};
ghost use Rattle.std.specs.Str.{bytes_eq};
ghost use Rattle.store_files.specs.Cells.{header_len};
ghost use Rattle.store_files.specs.DynamicIndex.{dynamic_text, magic, fields_of, csum_of, steps_fit};
ghost use Rattle.dynamic_index.specs.Pieces.{size_of, entry_at, start_of, stop_of, HoldsOffset};
ghost use Rattle.dynamic_index.specs.Viewing.{fault_of as fault_in, TellsIndex};

use crate::{ENTRY_SIZE, HEADER_SIZE, MAGIC};
use sha2::{Digest, Sha256};
use std::marker::Model;
use store_files::IndexFault;
use store_types::{Digest32, ENTRY_LIMIT, PIECE_LIMIT};
use thiserror::Error;

/// Bytes are no dynamic index, for this cause, the first in the order of `IndexFault`.
#[derive(Clone, Copy, Debug, PartialEq, Eq, Drop, Error)]
#[error("the bytes are no dynamic index")]
pub struct BadIndex {
    pub cause: IndexFault,
}

/// What an index says, as contracts see it, read from bytes that are lent.
#[derive(Drop)]
pub struct DynamicView<'a> {
    bytes: &'a [u8],
}

impl<'a> Model for DynamicView<'a> {
    ghost use Rattle.store_files.specs.DynamicIndex.{DynamicIndex, fields_of};
    ghost use Rattle.dynamic_index.specs.Viewing.{IsIndex};

    ghost Value = { DynamicIndex };

    ghost view = { λ v. fields_of v.bytes.now };

    ghost invariant = { λ v. IsIndex v.bytes.now };
}

impl<'a> DynamicView<'a> {
    /// The index that the bytes are, or the first cause for which they are none. It takes no memory.
    pub fn open_on(bytes: &'a [u8]) -> Result<DynamicView<'a>, BadIndex>
        ensures exact { TellsIndex bytes.now result }
        ensures text { IfOk result (λ view. bytes.now ≡ dynamic_text view) }
    {
        match fault_of(bytes) {
            Some(cause) => Err(BadIndex { cause }),
            None => Ok(DynamicView { bytes }),
        }
    }

    /// How many pieces there are.
    pub fn len(&self) -> u32
        ensures { result ≡ length self.now.entries }
    {
        ((self.bytes.len() - HEADER_SIZE) / ENTRY_SIZE) as u32
    }

    /// The digest of the piece at a place.
    pub fn digest(&self, i: u32) -> Digest32
        requires { i < length self.now.entries }
        ensures { result.0 ≡ (entry_at self.now i).digest }
    {
        let start = HEADER_SIZE + ENTRY_SIZE * i as usize + 8;
        Digest32(digest_at(self.bytes, start))
    }

    /// Where the piece at a place begins and ends in the archive.
    pub fn span(&self, i: u32) -> (u64, u64)
        requires { i < length self.now.entries }
        ensures start { result.0 ≡ start_of self.now i }
        ensures end { result.1 ≡ stop_of self.now i }
        ensures not_empty { result.0 < result.1 }
        ensures limit { result.1 ≤ result.0 + 16_777_216 }
    {
        (self.end_before(i), end_at(self.bytes, i as usize))
    }

    /// The archive's size in bytes.
    pub fn size(&self) -> u64
        ensures { result ≡ size_of self.now }
    {
        self.end_before(self.len())
    }

    /// The SHA-256 of the entries.
    pub fn csum(&self) -> Digest32
        ensures { result.0 ≡ csum_of self.now }
    {
        Digest32(digest_at(self.bytes, 32))
    }

    /// The piece that has the byte at an offset, or `None` where the archive ends at the offset or before it.
    pub fn chunk_at(&self, offset: u64) -> Option<u32>
        ensures exact { IsNone result ↔ (size_of self.now ≤ offset) }
        ensures held { IfSome result (HoldsOffset self.now offset) }
    {
        if self.size() <= offset {
            return None;
        }
        let mut low = 0;
        let mut high = self.len();
        while high - low > 1 {
            let middle = low + (high - low) / 2;
            if self.end_before(middle) <= offset {
                low = middle;
            } else {
                high = middle;
            }
        }
        Some(low)
    }

    // Where the first so many pieces end.
    fn end_before(&self, count: u32) -> u64
        requires { count ≤ length self.now.entries }
        ensures { result ≡ start_of self.now count }
    {
        if count == 0 {
            return 0;
        }
        end_at(self.bytes, count as usize - 1)
    }
}

// The first fault of bytes that are no index.
fn fault_of(bytes: &[u8]) -> Option<IndexFault>
    ensures { result ≡ fault_in bytes.now }
{
    if bytes.len() < HEADER_SIZE {
        return Some(IndexFault::Short);
    }
    if !has_magic(bytes) {
        return Some(IndexFault::Magic);
    }
    let rest = bytes.len() - HEADER_SIZE;
    if rest % ENTRY_SIZE != 0 {
        return Some(IndexFault::Length);
    }
    if rest / ENTRY_SIZE > ENTRY_LIMIT {
        return Some(IndexFault::Count);
    }
    if !has_steps(bytes) {
        return Some(IndexFault::Sizes);
    }
    if !has_csum(bytes) {
        return Some(IndexFault::Csum);
    }
    None
}

fn has_magic(bytes: &[u8]) -> bool
    requires { 8 ≤ length bytes.now }
    ensures { result ≡ bytes_eq (take 8 bytes.now) magic }
{
    &bytes[..8] == MAGIC.as_slice()
}

// Whether each piece is as long as a piece may be.
fn has_steps(bytes: &[u8]) -> bool
    requires { header_len ≤ length bytes.now }
    ensures { result ≡ steps_fit 0 (fields_of bytes.now).entries }
{
    let count = (bytes.len() - HEADER_SIZE) / ENTRY_SIZE;
    let mut start = 0;
    for i in 0..count {
        let end = end_at(bytes, i);
        if !is_step(start, end) {
            return false;
        }
        start = end;
    }
    true
}

fn is_step(start: u64, end: u64) -> bool
    ensures { result ≡ (nat_lt start end && nat_le end (start + 16_777_216)) }
{
    start < end && end - start <= PIECE_LIMIT
}

fn has_csum(bytes: &[u8]) -> bool
    requires long { header_len ≤ length bytes.now }
    requires whole { (length bytes.now - header_len) % 40 ≡ 0 }
    ensures { result ≡ bytes_eq (slice_range bytes.now 32 64) (csum_of (fields_of bytes.now)) }
{
    let csum = Sha256::digest(&bytes[HEADER_SIZE..]);
    &bytes[32..64] == csum.as_slice()
}

// Where the piece at a place ends.
fn end_at(bytes: &[u8], i: usize) -> u64
    requires { i < (length bytes.now - header_len) / 40 }
    ensures { result ≡ stop_of (fields_of bytes.now) i }
{
    let start = HEADER_SIZE + ENTRY_SIZE * i;
    let mut word = [0; 8];
    word.copy_from_slice(&bytes[start..start + 8]);
    u64::from_le_bytes(word)
}

fn digest_at(bytes: &[u8], at: usize) -> [u8; 32]
    requires { at + 32 ≤ length bytes.now }
    ensures { result ≡ slice_range bytes.now at (at + 32) }
{
    let mut digest = [0; 32];
    digest.copy_from_slice(&bytes[at..at + 32]);
    digest
}
