//! An index as it is written.

ghost use Rattle.std.specs.Prelude.{◌≡◌, ◌≤◌, ◌*◌, ◌++◌, length, IfOk, OnOk, OnErr, Ok};
ghost use Rattle.sha2.specs.Sha256.{sha256};
ghost use Rattle.store_files.specs.DynamicIndex.{DynamicIndex, dynamic_text, dynamic_of, csum_of};
ghost use Rattle.dynamic_index.specs.Pieces.{size_of};
ghost use Rattle.dynamic_index.specs.Entries.{ended_of, ends_of, spelled};
ghost use Rattle.dynamic_index.specs.Writing.{reserved, begun, header_text, with_piece, FitsPiece, ends_behind, HaveDigests, with_pieces, FitsPieces};

use crate::{ENTRY_SIZE, HEADER_SIZE, MAGIC};
use sha2::{Digest, Sha256};
use std::alloc::{AllocError, Global};
use std::marker::Model;
use store_types::{Digest32, Piece};

// Where a piece ends, and which it is.
#[derive(Drop)]
struct Entry {
    end: u64,
    digest: Digest32,
}

/// What the index says so far, as contracts see it. Its reserved bytes are zeros.
#[derive(Drop)]
pub struct DynamicWriter {
    uuid: [u8; 16],
    ctime: i64,
    entries: Vec<Entry>,
}

impl Model for DynamicWriter {
    ghost use Rattle.store_files.specs.DynamicIndex.{DynamicIndex};
    ghost use Rattle.dynamic_index.specs.Entries.{ends_of};
    ghost use Rattle.dynamic_index.specs.Writing.{reserved, IsBegun};

    ghost Value = { DynamicIndex };

    ghost view = { λ w. record { uuid = w.uuid; ctime = w.ctime; reserved = reserved; entries = ends_of w.entries.items } };

    ghost invariant = { λ w. IsBegun w.uuid w.ctime (ends_of w.entries.items) };
}

impl DynamicWriter {
    /// An index without pieces. `ctime` is seconds since 1970. It takes no memory.
    pub fn new(alloc: Global, uuid: [u8; 16], ctime: i64) -> DynamicWriter
        ensures { result ≡ begun uuid ctime }
    {
        DynamicWriter {
            uuid,
            ctime,
            entries: Vec::new(alloc),
        }
    }

    /// How many pieces there are so far.
    pub fn len(&self) -> u32
        ensures { result ≡ length self.now.entries }
    {
        self.entries.len() as u32
    }

    /// Where the pieces so far end.
    pub fn end(&self) -> u64
        ensures value { result ≡ size_of self.now }
        ensures limit { result ≤ 1_048_576 * 16_777_216 }
    {
        match self.entries.last() {
            Some(entry) => entry.end,
            None => 0,
        }
    }

    /// The digest of the next piece, and the piece's length: 1 to 16,777,216 bytes, and fewer than 1,048,576 pieces are
    /// there. At want of memory nothing has changed.
    pub fn append(&mut self, digest: &Digest32, length: u32) -> Result<(), AllocError>
        requires { FitsPiece self.old length }
        ensures ok { OnOk result (self.new ≡ with_piece self.old digest.now.0 length) }
        ensures err { OnErr result (self.new ≡ self.old) }
    {
        let end = self.end() + length as u64;
        let digest = Digest32(digest.0);
        self.entries.push(Entry { end, digest })?;
        Ok(())
    }

    /// The next pieces, each of 1 to 16,777,216 bytes. With those that are there they are at most 1,048,576. At want of
    /// memory nothing has changed.
    pub fn append_all(&mut self, alloc: Global, pieces: &[Piece]) -> Result<(), AllocError>
        requires { FitsPieces self.old pieces.now }
        ensures ok { OnOk result (self.new ≡ with_pieces self.old pieces.now) }
        ensures err { OnErr result (self.new ≡ self.old) }
    {
        let mut more = entries_behind(alloc, self.end(), pieces)?;
        self.entries.append(&mut more)?;
        Ok(())
    }

    /// The number of pieces, where they end, and the SHA-256 of the entries. It takes no memory.
    pub fn facts(&self) -> (u32, u64, Digest32)
        ensures entries { result.0 ≡ length self.now.entries }
        ensures end { result.1 ≡ size_of self.now }
        ensures csum { result.2.0 ≡ csum_of self.now }
    {
        let csum = digest_of_all(&self.entries);
        (self.len(), self.end(), csum)
    }

    /// The file's text. `DynamicView::open_on` reads the same index from it.
    pub fn close(&self, alloc: Global) -> Result<Vec<u8>, AllocError>
        ensures text { IfOk result (λ text. text.items ≡ dynamic_text self.now) }
        ensures read_again { IfOk result (λ text. dynamic_of text.items ≡ Ok self.now) }
    {
        let mut text = self.header(alloc)?;
        push_all(&mut text, &self.entries)?;
        Ok(text)
    }

    // All before the entries.
    fn header(&self, alloc: Global) -> Result<Vec<u8>, AllocError>
        ensures { IfOk result (λ text. text.items ≡ header_text self.now) }
    {
        let mut text = Vec::with_capacity(alloc, HEADER_SIZE + ENTRY_SIZE * self.entries.len())?;
        text.extend_from_slice(&MAGIC)?;
        text.extend_from_slice(&self.uuid)?;
        text.extend_from_slice(&self.ctime.to_le_bytes())?;
        text.extend_from_slice(&digest_of_all(&self.entries).0)?;
        text.extend_from_slice(&zeros())?;
        Ok(text)
    }
}

fn entry_at(end: u64, digest: &Digest32) -> Entry
    ensures value { ended_of result ≡ record { end = end; digest = digest.now.0 } }
    ensures digest { length (ended_of result).digest ≡ 32 }
{
    let digest = Digest32(digest.0);
    Entry { end, digest }
}

// The entries of these pieces, which begin at a start.
fn entries_behind(alloc: Global, start: u64, pieces: &[Piece]) -> Result<Vec<Entry>, AllocError>
    requires count { length pieces.now ≤ 1_048_576 }
    requires start { start ≤ 1_048_576 * 16_777_216 }
    ensures ends { IfOk result (λ entries. ends_of entries.items ≡ ends_behind start pieces.now) }
    ensures digests { IfOk result (λ entries. HaveDigests (ends_of entries.items)) }
{
    let mut entries = Vec::with_capacity(alloc, pieces.len())?;
    let mut end = start;
    for piece in pieces {
        end += piece.length as u64;
        entries.push(entry_at(end, &piece.digest))?;
    }
    Ok(entries)
}

// The rest of the header.
#[tactic(auto, unfolding(crate::specs::Writing::reserved))]
fn zeros() -> [u8; 4032]
    ensures { result ≡ reserved }
{
    [0; 4032]
}

// The SHA-256 of the entries one after another.
fn digest_of_all(entries: &[Entry]) -> Digest32
    ensures { result.0 ≡ sha256 (spelled entries.now) }
{
    let mut hasher = Sha256::new();
    for entry in entries {
        hasher.update(&entry.end.to_le_bytes());
        hasher.update(entry.digest.0.as_slice());
    }
    Digest32(hasher.finalize())
}

fn push_all(text: &mut Vec<u8>, entries: &[Entry]) -> Result<(), AllocError>
    ensures { OnOk result (text.new.items ≡ text.old.items ++ spelled entries.now) }
{
    for entry in entries {
        text.extend_from_slice(&entry.end.to_le_bytes())?;
        text.extend_from_slice(&entry.digest.0)?;
    }
    Ok(())
}
