//! The archives that a writer has begun.

ghost use Rattle.std.specs.Prelude.{◌≡◌, ◌<◌, ◌≤◌, ◌∷◌, ◌++◌, [], length, map, option_map, position, IfOk, IfErr, OnOk, OnErr};
ghost use Rattle.std.specs.List.{find, list_any};
ghost use Rattle.std.specs.Str.{bytes_eq};
ghost use Rattle.store_types.specs.Times.{last_moment};
ghost use Rattle.wire_commands.specs.HasText.{FitsRefusal};
ghost use Rattle.store_model.specs.Archives.{uuid_of as uuid_by, want_sizes as sizes_fit, want_number as number_left, free_number as least_free, without_first};
ghost use Rattle.store_model.specs.WriterCalls.{has_number, with_pieces};
ghost use Rattle.plain_snapshots.specs.Shown.{shown_layout};
ghost use Rattle.plain_sessions.specs.Archiving.{BeginsArchive};
ghost use Rattle.plain_sessions.specs.Changes.{with_grown};

use fixed_index::{is_chunk_size, piece_count};
use plain_snapshots::{Archive, BlobData, Layout, PlainKey};
use std::alloc::{AllocError, Global};
use std::marker::Model;
use store_types::{Bytes, FileName, Refusal};
use uuid::Uuid;

/// An archive that was begun, and the number by which commands name it.
#[derive(Drop)]
pub struct Begun {
    pub number: u8,
    pub(crate) name: FileName,
    pub(crate) archive: Archive,
}

impl Model for Begun {
    ghost use Rattle.store_model.specs.Store as model;

    ghost Value = { model.Begun };

    ghost view = { λ b. record { number = b.number; name = b.name; archive = b.archive } };
}

impl Begun {
    /// These pieces come behind its own. At want of memory nothing has changed.
    fn grow(&mut self, pieces: Vec<BlobData>) -> Result<(), AllocError>
        ensures ok { OnOk result (self.new ≡ with_pieces pieces.items self.old) }
        ensures err { OnErr result (self.new ≡ self.old) }
    {
        let mut pieces = pieces;
        self.archive.pieces.append(&mut pieces)?;
        Ok(())
    }
}

/// The open archives, 16 at most, as they were begun.
#[derive(Drop)]
pub struct Open {
    items: Vec<Begun>,
}

impl Model for Open {
    ghost use Rattle.std.specs.Prelude.{List, ◌≤◌, vec_len};
    ghost use Rattle.store_model.specs.Store as model;

    ghost Value = { List model.Begun };

    ghost view = { λ o. o.items.items };

    ghost invariant = { λ o. vec_len o.items ≤ 16 };
}

/// The version 5 identifier of a file's path in the datastore, under the namespace of 16 zero bytes.
fn uuid_of(alloc: Global, key: &PlainKey, name: &FileName) -> Result<[u8; 16], AllocError>
    ensures { IfOk result (λ uuid. uuid ≡ uuid_by key.now name.now) }
{
    let mut path = key.text(alloc)?.into_vec();
    path.extend_from_slice(b"/")?;
    path.extend_from_slice(name.as_slice())?;
    Ok(Uuid::new_v5(&Uuid::nil(), &path).into_bytes())
}

/// An archive without pieces, begun at this moment, with so many reserved bytes, all zero.
pub fn new_archive(
    alloc: Global,
    layout: Layout,
    reserved: usize,
    key: &PlainKey,
    name: &FileName,
    moment: u64,
) -> Result<Archive, AllocError>
    requires { moment ≤ last_moment }
    ensures { BeginsArchive (shown_layout layout) reserved key.now name.now moment result }
{
    let uuid = uuid_of(alloc, key, name)?;
    let zeros = vec![in alloc; 0u8; reserved]?;
    Ok(Archive {
        layout,
        uuid: Bytes::from_slice(alloc, &uuid)?,
        ctime: moment as i64,
        reserved: Bytes::from_vec(zeros),
        pieces: Vec::new(alloc),
    })
}

/// Sizes that a fixed archive may have: pieces of a power of two from 4,096 to 16,777,216 bytes, and 1,048,576 pieces at
/// most.
pub fn want_sizes(size: u64, chunk_size: u64) -> Result<(), Refusal>
    ensures fits { IfErr result FitsRefusal }
    ensures test { result ≡ sizes_fit size chunk_size }
{
    if !is_chunk_size(chunk_size) {
        return Err(Refusal::WrongSize {
            place: 0,
            size: chunk_size,
        });
    }
    if piece_count(size, chunk_size) > 1_048_576 {
        return Err(Refusal::TooMany { limit: 1_048_576 });
    }
    Ok(())
}

/// Beside so many open archives there is room for one more.
pub fn want_number(begun: u8) -> Result<(), Refusal>
    ensures fits { IfErr result FitsRefusal }
    ensures test { result ≡ number_left begun }
    ensures room { OnOk result (begun < 16) }
{
    if begun < 16 {
        Ok(())
    } else {
        Err(Refusal::TooMany { limit: 16 })
    }
}

impl Open {
    /// None. It takes no memory.
    pub fn new(alloc: Global) -> Open
        ensures { result ≡ [] }
    {
        Open {
            items: Vec::new(alloc),
        }
    }

    /// How many there are.
    pub fn len(&self) -> u8
        ensures { result ≡ length self.now }
    {
        self.items.len() as u8
    }

    /// One is to become the file of this name.
    pub fn has_name(&self, name: &FileName) -> bool
        ensures { result ≡ list_any (λ b. bytes_eq b.name name.now) self.now }
    {
        self.items.iter().any(|b| b.name == *name)
    }

    fn has_number(&self, number: u8) -> bool
        ensures { result ≡ list_any (has_number number) self.now }
    {
        self.items.iter().any(|b| b.number == number)
    }

    /// The least number from 0 to 15 that none has.
    pub fn free_number(&self) -> u8
        ensures { result ≡ least_free (map (λ b. b.number) self.now) }
    {
        for number in 0..16 {
            if !self.has_number(number) {
                return number;
            }
        }
        16
    }

    /// The first of this number.
    pub fn at(&self, number: u8) -> Option<&Begun>
        ensures { option_map (λ b. b.now) result ≡ find (has_number number) self.now }
    {
        self.items.iter().find(|b| b.number == number)
    }

    fn place_of(&self, number: u8) -> Option<usize>
        ensures { result ≡ position (has_number number) self.now }
    {
        self.items.iter().position(|b| b.number == number)
    }

    /// One more. At want of memory nothing has changed.
    pub fn push(&mut self, begun: Begun) -> Result<(), AllocError>
        requires { length self.old < 16 }
        ensures ok { OnOk result (self.new ≡ self.old ++ begun ∷ []) }
        ensures err { OnErr result (self.new ≡ self.old) }
    {
        self.items.push(begun)?;
        Ok(())
    }

    /// These pieces come behind those of the first of this number. At want of memory nothing has changed.
    pub fn grow(&mut self, number: u8, pieces: Vec<BlobData>) -> Result<(), AllocError>
        ensures ok { OnOk result (self.new ≡ with_grown number pieces.items self.old) }
        ensures err { OnErr result (self.new ≡ self.old) }
    {
        match self.place_of(number) {
            Some(place) => self.items[place].grow(pieces),
            None => Ok(()),
        }
    }

    /// The first of this number is not open any more. It takes no memory.
    pub fn close(&mut self, number: u8)
        ensures { self.new ≡ without_first (has_number number) self.old }
    {
        if let Some(place) = self.place_of(number) {
            let _ = self.items.remove(place);
        }
    }
}
