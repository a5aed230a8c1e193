//! What a writer keeps.

ghost use Rattle.std.specs.Prelude.{◌≡◌, ◌<◌, ◌≤◌, length, is_some, option_map, OnOk, OnErr, IfOk, IfErr, IsOk};
ghost use Rattle.std.specs.FinMap.{entries as pairs};
ghost use Rattle.std.specs.List.{remove};
ghost use Rattle.store_types.specs.Names.{IsKey};
ghost use Rattle.store_types.specs.Times.{last_moment};
ghost use Rattle.store_model.specs.Archives.{free_number as least_free};
ghost use Rattle.blob_codec.specs.Blob.{data_of};
ghost use Rattle.fixed_index.specs.Writing.{FitsSizes};
ghost use Rattle.wire_commands.specs.HasText.{FitsRefusal};
ghost use Rattle.backup_session.specs.Answers.{GivesManifest};
ghost use Rattle.backup_session.specs.Calls.{StateDoes, StateBeginsFixed, StateCloses, StateTakesBlob};
ghost use Rattle.backup_session.specs.Finish.{finish_check as steps_finish};
ghost use Rattle.backup_session.specs.Kept.{after, HasLengths, IsClosing, HoldsBlob};
ghost use Rattle.backup_session.specs.Steps as steps;
ghost use Rattle.backup_session.specs.Session.{IsPool, length_at};

use crate::entries::pieces_for;
use crate::files::{blob_fact, insert, keep_text, kept_text, want_room};
use crate::finishing::checked_manifest;
use crate::index::OpenIndex;
use crate::indexes::{closed, free_number, leave, place_of, uuid_of, want_number, want_sizes};
use blob_codec::decode;
use dynamic_index::DynamicWriter;
use fixed_index::FixedWriter;
use known_chunks::{Known, Pool};
use manifest::{FileFact, Manifest};
use std::alloc::{AllocError, Global};
use std::marker::Model;
use store_types::{Bytes, Digest32, FileName, Refusal, SnapshotKey};

/// An index that was begun.
#[derive(Drop)]
pub struct Begun {
    pub number: u8,
    pub name: FileName,
    pub index: OpenIndex,
}

/// A file that is among the writer's files already, and not yet the writer's.
#[derive(Drop)]
pub struct Pending {
    /// Where it stands among the files.
    pub place: usize,
    /// Where the index that became it stands among the open ones.
    pub closes: Option<usize>,
    /// The text, where it is the manifest's.
    pub manifest: Option<Bytes>,
}

/// What contracts see as a writer.
#[derive(Drop)]
pub struct State {
    key: SnapshotKey,
    start: u64,
    base: Option<SnapshotKey>,
    pool: Pool,
    begun: Vec<Begun>,
    files: Vec<FileFact>,
    manifest: Option<Bytes>,
}

impl Model for State {
    ghost use Rattle.std.specs.FinMap.{entries};
    ghost use Rattle.backup_session.specs.Session.{Writing};
    ghost use Rattle.backup_session.specs.Kept.{opens_of, IsWriting};

    ghost Value = { Writing };

    ghost view = { λ s. record { key = s.key; start = s.start; base = s.base; pool = entries s.pool; begun = opens_of s.begun.items; files = s.files.items; manifest = s.manifest } };

    ghost invariant = { λ s. IsWriting (record { key = s.key; start = s.start; base = s.base; pool = entries s.pool; begun = opens_of s.begun.items; files = s.files.items; manifest = s.manifest }) };
}

impl State {
    /// Nothing was sent yet. It takes no memory.
    pub fn new(alloc: Global, key: SnapshotKey, start: u64, base: Option<SnapshotKey>) -> State
        requires { IsKey key }
        ensures { result ≡ steps.opened key start base }
    {
        State {
            key,
            start,
            base,
            pool: Pool::new(alloc),
            begun: Vec::new(alloc),
            files: Vec::new(alloc),
            manifest: None,
        }
    }

    pub fn key(&self) -> &SnapshotKey
        ensures key { result.now ≡ self.now.key }
        ensures grammar { IsKey result.now }
    {
        &self.key
    }

    pub fn start(&self) -> u64
        ensures { result ≡ self.now.start }
    {
        self.start
    }

    pub fn base(&self) -> Option<&SnapshotKey>
        ensures { option_map (λ k. k.now) result ≡ self.now.base }
    {
        self.base.as_ref()
    }

    /// The key, and nothing else of the writer.
    pub fn into_key(self) -> SnapshotKey
        ensures { result ≡ self.key }
    {
        let State { key, .. } = self;
        key
    }

    /// A length is noted for the digest.
    pub fn knows(&self, digest: &Digest32) -> bool
        ensures value { result ≡ is_some (length_at self.now.pool digest.now.0) }
        ensures pool { IsPool self.now.pool }
    {
        self.pool.find(digest).is_some()
    }

    /// The name of the first open index of the number.
    pub fn index_name(&self, number: u8) -> Option<&FileName>
        ensures { option_map (λ name. name.now) result ≡ steps.name_at number self.now }
    {
        let Some(place) = place_of(&self.begun, number) else {
            return None;
        };
        Some(&self.begun[place].name)
    }

    /// The manifest's text.
    pub fn manifest(&self) -> Option<&[u8]>
        ensures { option_map (λ text. text.now) result ≡ self.now.manifest }
    {
        let text = self.manifest.as_ref()?;
        Some(text.as_slice())
    }

    fn want_fixed(&self, name: &FileName, size: u64, chunk_size: u64) -> Result<(), Refusal>
        ensures { result ≡ steps.want_fixed name.now size chunk_size self.now }
    {
        if !name.is_fixed() {
            return Err(Refusal::BadName);
        }
        want_room(&self.files, &self.begun, name)?;
        want_number(self.begun.len())?;
        want_sizes(size, chunk_size)
    }

    fn want_dynamic(&self, name: &FileName) -> Result<(), Refusal>
        ensures { result ≡ steps.want_dynamic name.now self.now }
    {
        if !name.is_dynamic() {
            return Err(Refusal::BadName);
        }
        want_room(&self.files, &self.begun, name)?;
        want_number(self.begun.len())
    }

    // The index of a fixed archive, without pieces.
    fn fixed_at(
        &self,
        alloc: Global,
        name: &FileName,
        size: u64,
        chunk_size: u64,
        time: u64,
    ) -> Result<OpenIndex, AllocError>
        requires sizes { FitsSizes size chunk_size }
        requires ctime { time ≤ last_moment }
        ensures { IfOk result (λ i. i ≡ steps.fixed_at self.now.key name.now size chunk_size time) }
    {
        let uuid = uuid_of(alloc, &self.key, name)?;
        let index = FixedWriter::new(alloc, uuid, time as i64, size, chunk_size);
        Ok(OpenIndex::Fixed(index))
    }

    // The index of a dynamic archive, without pieces.
    fn dynamic_at(
        &self,
        alloc: Global,
        name: &FileName,
        ctime: u64,
    ) -> Result<OpenIndex, AllocError>
        requires { ctime ≤ last_moment }
        ensures { IfOk result (λ index. index ≡ steps.dynamic_at self.now.key name.now ctime) }
    {
        let uuid = uuid_of(alloc, &self.key, name)?;
        let index = DynamicWriter::new(alloc, uuid, ctime as i64);
        Ok(OpenIndex::Dynamic(index))
    }

    // Begins an index at the least free number.
    fn begin(&mut self, name: FileName, index: OpenIndex) -> Result<u8, AllocError>
        requires { length self.old.begun < 16 }
        ensures ok { OnOk result (self.new ≡ steps.begin self.old name index) }
        ensures number { IfOk result (λ n. n ≡ least_free (steps.numbers self.old.begun)) }
        ensures err { OnErr result (self.new ≡ self.old) }
    {
        let number = free_number(&self.begun);
        self.begun.push(Begun {
            number,
            name,
            index,
        })?;
        Ok(number)
    }

    pub fn new_fixed(
        &mut self,
        alloc: Global,
        name: FileName,
        ctime: u64,
        size: u64,
        chunk_size: u64,
    ) -> Result<u8, Refusal>
        requires { ctime ≤ last_moment }
        ensures { StateBeginsFixed self.old self.new name size chunk_size ctime result }
    {
        self.want_fixed(&name, size, chunk_size)?;
        let index = self.fixed_at(alloc, &name, size, chunk_size, ctime)?;
        let number = self.begin(name, index)?;
        Ok(number)
    }

    pub fn new_dynamic(&mut self, alloc: Global, name: FileName, ctime: u64) -> Result<u8, Refusal>
        requires { ctime ≤ last_moment }
        ensures { StateDoes self.old self.new result (λ w. steps.new_dynamic w name ctime) }
    {
        self.want_dynamic(&name)?;
        let index = self.dynamic_at(alloc, &name, ctime)?;
        let number = self.begin(name, index)?;
        Ok(number)
    }

    /// Notes the lengths of these pieces, each unless one is noted. At want of memory nothing has changed.
    pub fn previous(&mut self, pieces: Known) -> Result<(), AllocError>
        requires { HasLengths (pairs pieces) }
        ensures ok { OnOk result (self.new ≡ steps.previous self.old pieces) }
        ensures err { OnErr result (self.new ≡ self.old) }
    {
        self.pool.join(pieces)
    }

    /// Notes a piece's length, unless one is noted.
    pub fn chunk(&mut self, digest: &Digest32, length: u32) -> Result<(), AllocError>
        requires { (1 ≤ length) × (length ≤ 16_777_216) }
        ensures ok { OnOk result (self.new ≡ steps.chunk self.old digest.now.0 length) }
        ensures err { OnErr result (self.new ≡ self.old) }
    {
        match self.pool.find(digest) {
            Some(_) => Ok(()),
            None => self.pool.add(digest, length),
        }
    }

    /// Takes the length of a digest out.
    pub fn forget(&mut self, digest: &Digest32)
        ensures { self.new ≡ steps.without_chunk self.old digest.now.0 }
    {
        self.pool.remove(digest);
    }

    pub fn append(
        &mut self,
        alloc: Global,
        number: u8,
        entries: &[(Digest32, u64)],
    ) -> Result<(), Refusal>
        ensures does { StateDoes self.old self.new result (λ w. steps.append w number entries.now) }
        ensures text { IfErr result FitsRefusal }
    {
        let Some(place) = place_of(&self.begun, number) else {
            return Err(Refusal::NoFile);
        };
        let pieces = pieces_for(alloc, &self.pool, &self.begun[place].index, entries)?;
        self.begun[place].index.append_all(alloc, &pieces)?;
        Ok(())
    }

    /// The index's text. Its file is among the files then, and pending.
    pub fn close_index(
        &mut self,
        alloc: Global,
        number: u8,
        count: u64,
        size: u64,
        csum: &Digest32,
    ) -> Result<(Vec<u8>, Pending), Refusal>
        ensures does { StateCloses self.old self.new number count size csum.now result }
        ensures text { IfErr result FitsRefusal }
    {
        let Some(place) = place_of(&self.begun, number) else {
            return Err(Refusal::NoFile);
        };
        let file = closed(alloc, &self.begun[place], count, size, csum)?;
        let (text, fact) = file;
        let pending = Pending {
            place: insert(&mut self.files, fact)?,
            closes: Some(place),
            manifest: None,
        };
        Ok((text, pending))
    }

    pub fn want_blob(&self, name: &FileName) -> Result<(), Refusal>
        ensures { result ≡ steps.want_blob name.now self.now }
    {
        if !name.is_blob() {
            return Err(Refusal::BadName);
        }
        want_room(&self.files, &self.begun, name)
    }

    /// The file is among the files then, and pending.
    pub fn blob(&mut self, alloc: Global, name: FileName, text: &[u8]) -> Result<Pending, Refusal>
        requires { IsOk (data_of text.now) }
        ensures { StateTakesBlob self.old self.new name text.now result }
    {
        self.want_blob(&name)?;
        let manifest = kept_text(alloc, &name, text)?;
        let pending = Pending {
            place: insert(&mut self.files, blob_fact(name, text))?,
            closes: None,
            manifest,
        };
        Ok(pending)
    }

    /// The pending file becomes the writer's. It takes no memory.
    pub fn keep(&mut self, pending: Pending)
        requires closes { IsClosing pending.closes self.old.begun }
        requires manifest { HoldsBlob pending.manifest }
        ensures { self.new ≡ after pending self.old }
    {
        let Pending {
            closes,
            manifest,
            ..
        } = pending;
        leave(&mut self.begun, closes);
        keep_text(&mut self.manifest, manifest);
    }

    /// The file at a place goes. It takes no memory.
    pub fn back(&mut self, place: usize)
        requires { place < length self.old.files }
        ensures { self.new ≡ record self.old { files = remove self.old.files place } }
    {
        let _ = self.files.remove(place);
    }

    /// The manifest among the files, where no index is open and it lists the others.
    pub fn finish_check(&self, alloc: Global) -> Result<Manifest, Refusal>
        ensures does { GivesManifest (steps_finish self.now) result }
        ensures fits { IfErr result FitsRefusal }
        ensures blob { HoldsBlob self.now.manifest }
    {
        let count = self.begun.len() as u8;
        if count > 0 {
            return Err(Refusal::OpenIndexes { count });
        }
        let Some(text) = self.manifest() else {
            return Err(Refusal::NoFile);
        };
        let Ok(bytes) = decode(text) else {
            unreachable!()
        };
        checked_manifest(alloc, &self.key, &self.files, bytes)
    }
}
