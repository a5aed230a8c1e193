//! Readers.

ghost use Rattle.std.specs.Prelude.{◌≡◌, ◌≤◌, [], length, take, drop, option_map, IfOk, IfErr};
ghost use Rattle.std.specs.List.{concat};
ghost use Rattle.blob_codec.specs.Blob.{blob, blob_limit};
ghost use Rattle.wire_commands.specs.HasText.{FitsRefusal};
ghost use Rattle.store_model.specs.ReaderSteps.{is_noted as has_noted, note as noted, pieces_at as pieces_named, want_range as range_fits, range_of};
ghost use Rattle.plain_snapshots.specs.Contents.{shown_content};
ghost use Rattle.plain_sessions.specs.Outcomes.{GivesSame, IsFitRefusal};
ghost use Rattle.plain_sessions.specs.Reading.{chunk_of, entry_blob, noted_piece};

use crate::entries::piece_with;
use crate::stop::Stop;
use plain_snapshots::{BlobData, Content, File, PlainKey, end_of, file_named};
use std::alloc::{AllocError, Global};
use std::marker::Model;
use store_types::{Bytes, Digest32, FileName, RANGE_LIMIT, Refusal};

/// The pieces of the archive of this name.
fn pieces_at<'a>(files: &'a [File], name: &FileName) -> &'a [BlobData]
    ensures { result.now ≡ pieces_named files.now name.now }
{
    match file_named(name.as_slice(), files) {
        Some(file) => file.content.pieces(),
        None => &[],
    }
}

/// So many bytes of a piece, where there are, behind those before.
fn part_of(piece: &BlobData, before: usize, count: usize) -> &[u8]
    ensures { result.now ≡ take count (drop before piece.now) }
{
    let bytes = piece.as_slice();
    let rest = &bytes[before.min(bytes.len())..];
    &rest[..count.min(rest.len())]
}

/// So many bytes, where there are, from an offset on of the pieces, one behind another.
fn bytes_from(
    alloc: Global,
    pieces: &[BlobData],
    offset: u64,
    count: u32,
) -> Result<Bytes, AllocError>
    ensures bytes { IfOk result (λ b. b ≡ take count (drop offset (concat pieces.now))) }
    ensures short { IfOk result (λ b. length b ≤ count) }
{
    let mut bytes = Vec::new(alloc);
    let mut before = offset as usize;
    let mut left = count as usize;
    for piece in pieces {
        let part = part_of(piece, before, left);
        bytes.extend_from_slice(part)?;
        before = before.saturating_sub(piece.as_slice().len());
        left = left.saturating_sub(part.len());
    }
    Ok(Bytes::from_vec(bytes))
}

/// The blob of a piece. A reply holds it.
fn blob_of(alloc: Global, piece: &BlobData) -> Result<Bytes, AllocError>
    ensures blob { IfOk result (λ b. b ≡ blob piece.now) }
    ensures short { IfOk result (λ b. length b ≤ blob_limit) }
{
    let _ = piece.as_slice();
    let text = piece.text(alloc)?;
    Ok(Bytes::from_vec(text))
}

/// The blob of the piece at an entry of an index.
pub fn blob_at(alloc: Global, pieces: &[BlobData], entry: u32) -> Result<Bytes, Stop>
    ensures fits { IsFitRefusal result }
    ensures gives { GivesSame result (entry_blob pieces.now entry) }
    ensures short { IfOk result (λ b. length b ≤ blob_limit) }
{
    let place = entry as usize;
    if place >= pieces.len() {
        return Err(Stop::Refused(Refusal::BadRange {
            size: pieces.len() as u64,
        }));
    }
    Ok(blob_of(alloc, &pieces[place])?)
}

/// A range that content of this size has, and that a reply holds.
fn want_range(size: u64, offset: u64, length: u32) -> Result<(), Refusal>
    ensures fits { IfErr result FitsRefusal }
    ensures test { result ≡ range_fits size offset length }
{
    if length > RANGE_LIMIT {
        return Err(Refusal::TooMany { limit: RANGE_LIMIT });
    }
    if offset > size || length as u64 > size - offset {
        return Err(Refusal::BadRange { size });
    }
    Ok(())
}

/// A reader of a finished snapshot.
#[derive(Drop)]
pub struct Reader {
    key: PlainKey,
    /// The names of the archives that it downloaded.
    noted: Vec<FileName>,
}

impl Model for Reader {
    ghost use Rattle.store_model.specs.Store as model;

    ghost Value = { model.Reader };

    ghost view = { λ r. record { key = r.key; noted = r.noted.items } };
}

impl Reader {
    /// A reader of a snapshot, which has downloaded nothing. It takes no memory.
    pub fn new(alloc: Global, key: PlainKey) -> Reader
        ensures { result ≡ record { key = key; noted = [] } }
    {
        Reader {
            key,
            noted: Vec::new(alloc),
        }
    }

    /// The key of its snapshot.
    pub fn key(&self) -> &PlainKey
        ensures { result.now ≡ self.now.key }
    {
        &self.key
    }

    fn is_noted(&self, name: &FileName) -> bool
        ensures { result ≡ has_noted self.now name.now }
    {
        self.noted.iter().any(|other| *name == *other)
    }

    /// The reader after a download: an archive's name is noted, once.
    pub fn note(&self, name: FileName, content: &Content) -> Result<Reader, AllocError>
        ensures { IfOk result (λ after. after ≡ noted name (shown_content content.now) self.now) }
    {
        let mut names = self.noted.clone()?;
        if content.is_archive() && !self.is_noted(&name) {
            names.push(name)?;
        }
        Ok(Reader {
            key: self.key.clone()?,
            noted: names,
        })
    }

    /// The first piece with this digest of the archives that it downloaded.
    fn noted_piece<'a>(&self, files: &'a [File], digest: &Digest32) -> Option<&'a BlobData>
        ensures { option_map (λ p. p.now) result ≡ noted_piece files.now self.now digest.now }
    {
        for name in &self.noted {
            if let Some(piece) = piece_with(digest, pieces_at(files, name)) {
                return Some(piece);
            }
        }
        None
    }

    /// The blob that a GET_CHUNK gives, where these are the files of its snapshot.
    pub fn chunk(&self, alloc: Global, files: &[File], digest: &Digest32) -> Result<Bytes, Stop>
        ensures fits { IsFitRefusal result }
        ensures gives { GivesSame result (chunk_of files.now self.now digest.now) }
        ensures short { IfOk result (λ b. length b ≤ blob_limit) }
    {
        let Some(piece) = self.noted_piece(files, digest) else {
            return Err(Stop::Refused(Refusal::NotAllowed));
        };
        Ok(blob_of(alloc, piece)?)
    }

    /// The bytes that a RANGE gives, where these are the files of its snapshot.
    pub fn range(
        &self,
        alloc: Global,
        files: &[File],
        name: &FileName,
        offset: u64,
        count: u32,
    ) -> Result<Bytes, Stop>
        ensures fits { IsFitRefusal result }
        ensures gives { GivesSame result (range_of files.now self.now name.now offset count) }
        ensures short { IfOk result (λ b. length b ≤ 4_194_304) }
    {
        if !self.is_noted(name) {
            return Err(Stop::Refused(Refusal::NotAllowed));
        }
        let pieces = pieces_at(files, name);
        want_range(end_of(pieces)?, offset, count)?;
        let bytes = bytes_from(alloc, pieces, offset, count)?;
        Ok(bytes)
    }
}
