//! An index as it is written.

ghost use Rattle.std.specs.Prelude.{◌≡◌, ◌*◌, ◌++◌, ◌≤◌, All, length, IfOk, OnOk, OnErr, Ok};
ghost use Rattle.std.specs.List.{concat};
ghost use Rattle.sha2.specs.Sha256.{sha256};
ghost use Rattle.store_files.specs.FixedIndex.{FixedIndex, fixed_text, fixed_of, csum_of};
ghost use Rattle.fixed_index.specs.Writing.{reserved, begun, header_text, bytes_of, end_of, with_digest, FitsSizes, FitsPiece, piece_digests, with_pieces, FitsPieces};

use crate::{HEADER_SIZE, MAGIC};
use sha2::{Digest, Sha256};
use std::alloc::{AllocError, Global};
use std::marker::Model;
use store_types::{Digest32, Piece};

/// What the index says so far, as contracts see it. Its reserved bytes are zeros.
#[derive(Drop)]
pub struct FixedWriter {
    uuid: [u8; 16],
    ctime: i64,
    size: u64,
    chunk_size: u64,
    digests: Vec<Digest32>,
}

impl Model for FixedWriter {
    ghost use Rattle.store_files.specs.FixedIndex.{FixedIndex};
    ghost use Rattle.fixed_index.specs.Writing.{reserved, bytes_of, IsBegun};

    ghost Value = { FixedIndex };

    ghost view = { λ w. record { uuid = w.uuid; ctime = w.ctime; reserved = reserved; size = w.size; chunk_size = w.chunk_size; digests = bytes_of w.digests.items } };

    ghost invariant = { λ w. IsBegun w.uuid w.ctime w.size w.chunk_size (bytes_of w.digests.items) };
}

impl FixedWriter {
    /// An index without digests, of an archive of `size` bytes in pieces of `chunk_size`: a power of two from 4,096 to
    /// 16,777,216 that makes at most 1,048,576 pieces. `ctime` is seconds since 1970. It takes no memory.
    pub fn new(alloc: Global, uuid: [u8; 16], ctime: i64, size: u64, chunk_size: u64) -> FixedWriter
        requires { FitsSizes size chunk_size }
        ensures { result ≡ begun uuid ctime size chunk_size }
    {
        FixedWriter {
            uuid,
            ctime,
            size,
            chunk_size,
            digests: Vec::new(alloc),
        }
    }

    /// How many digests there are so far.
    pub fn len(&self) -> u32
        ensures { result ≡ length self.now.digests }
    {
        self.digests.len() as u32
    }

    /// The archive's size, which the pieces are to reach, in bytes.
    pub fn size(&self) -> u64
        ensures { result ≡ self.now.size }
    {
        self.size
    }

    /// The length of each piece but the last, in bytes.
    pub fn chunk_size(&self) -> u64
        ensures { result ≡ self.now.chunk_size }
    {
        self.chunk_size
    }

    /// Where the pieces so far end.
    pub fn end(&self) -> u64
        ensures value { result ≡ end_of self.now }
        ensures limit { result ≤ 1_048_576 * 16_777_216 }
    {
        (self.digests.len() as u64 * self.chunk_size).min(self.size)
    }

    /// The digest of the next piece, and the piece's length. At want of memory nothing has changed.
    pub fn append(&mut self, digest: &Digest32, length: u32) -> Result<(), AllocError>
        requires { FitsPiece self.old length }
        ensures ok { OnOk result (self.new ≡ with_digest self.old digest.now.0) }
        ensures err { OnErr result (self.new ≡ self.old) }
    {
        let _ = length;
        let digest = digest.0;
        self.digests.push(Digest32(digest))?;
        Ok(())
    }

    /// The next pieces, each as long as is asked where it begins. At want of memory nothing has changed.
    pub fn append_all(&mut self, alloc: Global, pieces: &[Piece]) -> Result<(), AllocError>
        requires { FitsPieces self.old pieces.now }
        ensures ok { OnOk result (self.new ≡ with_pieces self.old pieces.now) }
        ensures err { OnErr result (self.new ≡ self.old) }
    {
        let mut more = digests_of(alloc, pieces)?;
        self.digests.append(&mut more)?;
        Ok(())
    }

    /// The number of digests, where their pieces end, and the SHA-256 of the digests. It takes no memory.
    pub fn facts(&self) -> (u32, u64, Digest32)
        ensures entries { result.0 ≡ length self.now.digests }
        ensures end { result.1 ≡ end_of self.now }
        ensures csum { result.2.0 ≡ csum_of self.now }
    {
        let csum = digest_of_all(&self.digests);
        (self.len(), self.end(), csum)
    }

    /// The file's text, once the pieces reach the size. `FixedView::open_on` reads the same index from it.
    pub fn close(&self, alloc: Global) -> Result<Vec<u8>, AllocError>
        requires { end_of self.now ≡ self.now.size }
        ensures text { IfOk result (λ text. text.items ≡ fixed_text self.now) }
        ensures read_again { IfOk result (λ text. fixed_of text.items ≡ Ok self.now) }
    {
        let mut text = self.header(alloc)?;
        push_all(&mut text, &self.digests)?;
        Ok(text)
    }

    // All before the digests.
    fn header(&self, alloc: Global) -> Result<Vec<u8>, AllocError>
        ensures { IfOk result (λ text. text.items ≡ header_text self.now) }
    {
        let mut text = Vec::with_capacity(alloc, HEADER_SIZE + 32 * self.digests.len())?;
        text.extend_from_slice(&MAGIC)?;
        text.extend_from_slice(&self.uuid)?;
        text.extend_from_slice(&self.ctime.to_le_bytes())?;
        text.extend_from_slice(&digest_of_all(&self.digests).0)?;
        text.extend_from_slice(&self.size.to_le_bytes())?;
        text.extend_from_slice(&self.chunk_size.to_le_bytes())?;
        text.extend_from_slice(&zeros())?;
        Ok(text)
    }
}

fn copy_of(digest: &Digest32) -> Digest32
    ensures value { result.0 ≡ digest.now.0 }
    ensures length { length result.0 ≡ 32 }
{
    let digest = digest.0;
    Digest32(digest)
}

fn digests_of(alloc: Global, pieces: &[Piece]) -> Result<Vec<Digest32>, AllocError>
    ensures values { IfOk result (λ digests. bytes_of digests.items ≡ piece_digests pieces.now) }
    ensures lengths { IfOk result (λ digests. All (λ d. length d ≡ 32) (bytes_of digests.items)) }
{
    let mut digests = Vec::with_capacity(alloc, pieces.len())?;
    for piece in pieces {
        digests.push(copy_of(&piece.digest))?;
    }
    Ok(digests)
}

// The rest of the header.
#[tactic(auto, unfolding(crate::specs::Writing::reserved))]
fn zeros() -> [u8; 4016]
    ensures { result ≡ reserved }
{
    [0; 4016]
}

// The SHA-256 of the digests one after another.
fn digest_of_all(digests: &[Digest32]) -> Digest32
    ensures { result.0 ≡ sha256 (concat (bytes_of digests.now)) }
{
    let mut hasher = Sha256::new();
    for digest in digests {
        hasher.update(digest.0.as_slice());
    }
    Digest32(hasher.finalize())
}

fn push_all(text: &mut Vec<u8>, digests: &[Digest32]) -> Result<(), AllocError>
    ensures { OnOk result (text.new.items ≡ text.old.items ++ concat (bytes_of digests.now)) }
{
    for digest in digests {
        text.extend_from_slice(&digest.0)?;
    }
    Ok(())
}
