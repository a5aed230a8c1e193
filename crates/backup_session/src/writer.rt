//! A writer's calls.

ghost use Rattle.std.specs.Prelude.{◌≡◌, ◌≤◌, is_some, option_map, None, IsSome, IsOk, IfErr, OnOk, OnErr};
ghost use Rattle.std.specs.FinMap.{entries as pairs};
ghost use Rattle.store_types.specs.Names.{IsKey};
ghost use Rattle.store_types.specs.Times.{last_moment};
ghost use Rattle.blob_codec.specs.Blob.{data_of};
ghost use Rattle.store_model.specs.Manifests.{finish_check as plain_finish};
ghost use Rattle.store_model.specs.WriterSteps.{new_writer};
ghost use Rattle.store_model.specs.WriterCalls as plain;
ghost use Rattle.wire_commands.specs.HasText.{FitsRefusal};
ghost use Rattle.backup_session.specs.Answers.{IsPendingAt, GivesManifest, NotesPiece, NotesPieces, ForgetsAgain, takes_blob, ShowsPiece, ShowsPieces};
ghost use Rattle.backup_session.specs.Calls.{Settles, Mirrors, BeginsFixed, BeginsFixedPlainly, Closes, ClosesPlainly, TakesBlob, TakesBlobPlainly};
ghost use Rattle.backup_session.specs.Finish.{finish_check as steps_finish};
ghost use Rattle.backup_session.specs.Session.{IsPool, length_at, settled, kept};
ghost use Rattle.backup_session.specs.Kept.{HasLengths};
ghost use Rattle.backup_session.specs.Shown.{Shows, ForShown};
ghost use Rattle.backup_session.specs.Steps as steps;

use crate::state::{Pending, State};
use known_chunks::Known;
use manifest::Manifest;
use std::alloc::{AllocError, Global};
use std::marker::Model;
use store_types::{Digest32, FileName, Refusal, SnapshotKey};

/// A backup that is being written, as contracts see it: the chunks that may be named, the indexes that are open, the
/// files, and what these become where the pending file is kept.
///
/// Where memory is wanting, and at a refusal, a call has changed nothing.
#[derive(Drop)]
pub struct Writer {
    state: State,
    pending: Option<Pending>,
}

impl Model for Writer {
    ghost use Rattle.backup_session.specs.Session.{Session};
    ghost use Rattle.backup_session.specs.Kept.{session_of, IsPlaced};

    ghost Value = { Session };

    ghost view = { λ w. session_of w.pending w.state };

    ghost invariant = { λ w. IsPlaced w.pending w.state };
}

/// A writer of a snapshot, opened at a moment in seconds since 1970, with the group's latest snapshot as its base. It
/// takes no memory.
pub fn open_writer(alloc: Global, key: SnapshotKey, start: u64, base: Option<SnapshotKey>) -> Writer
    requires key { IsKey key }
    requires start { start ≤ last_moment }
    ensures opened { result ≡ settled (steps.opened key start base) }
    ensures plain { Shows result.writer (new_writer key start base) }
{
    let state = State::new(alloc, key, start, base);
    Writer {
        state,
        pending: None,
    }
}

impl Writer {
    /// The snapshot's key.
    #[tactic(auto, using(crate::proofs::Asked::key_is))]
    pub fn key(&self) -> &SnapshotKey
        ensures key { result.now ≡ self.now.writer.key }
        ensures grammar { IsKey result.now }
    {
        self.state.key()
    }

    /// The moment at which it was opened, in seconds since 1970.
    #[tactic(auto, using(crate::proofs::Asked::start_is))]
    pub fn start(&self) -> u64
        ensures { result ≡ self.now.writer.start }
    {
        self.state.start()
    }

    /// The snapshot that is its base, where it has one.
    #[tactic(auto, using(crate::proofs::Asked::base_is))]
    pub fn base(&self) -> Option<&SnapshotKey>
        ensures { option_map (λ k. k.now) result ≡ self.now.writer.base }
    {
        self.state.base()
    }

    /// The key, and nothing else of the writer. It takes no memory.
    #[tactic(auto, using(crate::proofs::Asked::key_is))]
    pub fn into_key(self) -> SnapshotKey
        ensures { result ≡ self.writer.key }
    {
        let Writer { state, pending: _ } = self;
        state.into_key()
    }

    /// A chunk of this digest may be named.
    #[tactic(auto, using(crate::proofs::Asked::pool_is))]
    pub fn knows(&self, digest: &Digest32) -> bool
        ensures value { result ≡ is_some (length_at self.now.writer.pool digest.now.0) }
        ensures pool { IsPool self.now.writer.pool }
    {
        self.state.knows(digest)
    }

    /// The name of the open index of a number.
    #[tactic(auto, using(crate::proofs::Asked::index_is))]
    pub fn index_name(&self, number: u8) -> Option<&FileName>
        ensures { option_map (λ name. name.now) result ≡ steps.name_at number self.now.writer }
    {
        self.state.index_name(number)
    }

    /// A blob of this name may be taken. The refusals are those of `blob`.
    pub fn want_blob(&self, name: &FileName) -> Result<(), Refusal>
        requires { self.now.pending ≡ None }
        ensures value { result ≡ steps.want_blob name.now self.now.writer }
        ensures plain { ForShown self.now.writer (λ w. result ≡ takes_blob name.now w) }
    {
        self.state.want_blob(name)
    }

    /// The manifest's file text, where the writer has it.
    #[tactic(auto, using(crate::proofs::Asked::manifest_is))]
    pub fn manifest(&self) -> Option<&[u8]>
        ensures { option_map (λ text. text.now) result ≡ self.now.writer.manifest }
    {
        self.state.manifest()
    }

    /// Begins a fixed index, of an archive of `size` bytes in pieces of `chunk_size`, at the least number from 0 to 15
    /// that is free, and gives it. `ctime` is seconds since 1970.
    ///
    /// The refusals, in the order in which they are tested: the name is no fixed index's; there is such a file or open
    /// index; there are 64 files and open indexes; 16 indexes are open; the chunk size is no power of two from 4,096 to
    /// 16,777,216; it makes more than 1,048,576 pieces.
    pub fn new_fixed(
        &mut self,
        alloc: Global,
        name: FileName,
        ctime: u64,
        size: u64,
        chunk_size: u64,
    ) -> Result<u8, Refusal>
        requires settled { self.old.pending ≡ None }
        requires ctime { ctime ≤ last_moment }
        ensures does { BeginsFixed self.old self.new name size chunk_size ctime result }
        ensures settled { self.new.pending ≡ None }
        ensures plain { BeginsFixedPlainly self.old self.new name size chunk_size ctime result }
    {
        self.state.new_fixed(alloc, name, ctime, size, chunk_size)
    }

    /// Begins a dynamic index at the least number from 0 to 15 that is free, and gives it. `ctime` is seconds since 1970.
    ///
    /// The refusals, in the order in which they are tested: the name is no dynamic index's; there is such a file or open
    /// index; there are 64 files and open indexes; 16 indexes are open.
    pub fn new_dynamic(&mut self, alloc: Global, name: FileName, ctime: u64) -> Result<u8, Refusal>
        requires settled { self.old.pending ≡ None }
        requires ctime { ctime ≤ last_moment }
        ensures does { Settles self.old self.new result (λ w. steps.new_dynamic w name ctime) }
        ensures settled { self.new.pending ≡ None }
        ensures plain { Mirrors self.old self.new result (λ w. plain.new_dynamic w name ctime) }
    {
        self.state.new_dynamic(alloc, name, ctime)
    }

    /// The chunks of a file of the base may be named from now on, each by its digest and its length. A length that is
    /// noted already stays. All are noted, or none.
    pub fn previous(&mut self, pieces: Known) -> Result<(), AllocError>
        requires settled { self.old.pending ≡ None }
        requires lengths { HasLengths (pairs pieces) }
        ensures ok { OnOk result (NotesPieces self.old self.new pieces) }
        ensures err { OnErr result (self.new ≡ self.old) }
        ensures settled { self.new.pending ≡ None }
        ensures plain { OnOk result (ShowsPieces self.old self.new pieces) }
    {
        self.state.previous(pieces)
    }

    /// A chunk may be named from now on. A length that is noted already stays.
    pub fn chunk(&mut self, digest: &Digest32, length: u32) -> Result<(), AllocError>
        requires settled { self.old.pending ≡ None }
        requires length { (1 ≤ length) × (length ≤ 16_777_216) }
        ensures ok { OnOk result (NotesPiece self.old self.new digest.now.0 length) }
        ensures err { OnErr result (self.new ≡ self.old) }
        ensures settled { self.new.pending ≡ None }
        ensures plain { OnOk result (ShowsPiece self.old self.new digest.now.0 length) }
    {
        self.state.chunk(digest, length)
    }

    /// The chunk may not be named any more. It takes no memory.
    pub fn forget(&mut self, digest: &Digest32)
        requires { self.old.pending ≡ None }
        ensures value { self.new ≡ settled (steps.without_chunk self.old.writer digest.now.0) }
        // where it might not be named before it was noted, the writer is as before
        ensures back { ForgetsAgain self.old self.new digest.now.0 }
    {
        self.state.forget(digest)
    }

    /// Appends the chunks with these digests to an open index. Each entry has the offset in the archive at which its
    /// chunk begins. All are taken, or none.
    ///
    /// The refusals, in the order in which they are tested: no index of the number is open; there are more than 4,096
    /// entries; the index would have more than 1,048,576; then entry by entry, with its place, the chunk may not be
    /// named, its offset isn't the end reached so far, and its length isn't what a fixed archive asks there.
    pub fn append(
        &mut self,
        alloc: Global,
        number: u8,
        entries: &[(Digest32, u64)],
    ) -> Result<(), Refusal>
        requires { self.old.pending ≡ None }
        ensures does { Settles self.old self.new result (λ w. steps.append w number entries.now) }
        ensures settled { self.new.pending ≡ None }
        ensures plain { Mirrors self.old self.new result (λ w. plain.append w number entries.now) }
        // a refusal has a spelling
        ensures text { IfErr result FitsRefusal }
    {
        self.state.append(alloc, number, entries)
    }

    /// Closes an index and gives its file's text. The file is pending then.
    ///
    /// The refusals, in the order in which they are tested: no index of the number is open; the number of its entries,
    /// where they end or its checksum is another; a fixed archive's size is not reached.
    pub fn close_index(
        &mut self,
        alloc: Global,
        number: u8,
        count: u64,
        size: u64,
        csum: &Digest32,
    ) -> Result<Vec<u8>, Refusal>
        requires { self.old.pending ≡ None }
        ensures does { Closes self.old self.new number count size csum.now result }
        ensures pending { IsPendingAt self.new result }
        ensures plain { ClosesPlainly self.old self.new number count size csum.now result }
        // a refusal has a spelling
        ensures text { IfErr result FitsRefusal }
    {
        let closed = self.state.close_index(alloc, number, count, size, csum)?;
        let (text, pending) = closed;
        self.pending = Some(pending);
        Ok(text)
    }

    /// Takes a blob's file, whose text is that of some data. The file is pending then.
    ///
    /// The refusals, in the order in which they are tested: the name is no blob's; there is such a file or open index;
    /// there are 64 files and open indexes.
    pub fn blob(&mut self, alloc: Global, name: FileName, text: &[u8]) -> Result<(), Refusal>
        requires settled { self.old.pending ≡ None }
        requires blob { IsOk (data_of text.now) }
        ensures does { TakesBlob self.old self.new name text.now result }
        ensures pending { IsPendingAt self.new result }
        ensures plain { TakesBlobPlainly self.old self.new name text.now result }
    {
        let pending = self.state.blob(alloc, name, text)?;
        self.pending = Some(pending);
        Ok(())
    }

    /// The manifest among the files, where the backup may be finished. Nothing changes.
    ///
    /// The refusals, in the order in which they are tested: an index is open; there is no manifest; it is none, by its
    /// cause; the first mismatch of the manifest with the snapshot's key and the files beside it.
    pub fn finish_check(&self, alloc: Global) -> Result<Manifest, Refusal>
        requires { self.now.pending ≡ None }
        ensures does { GivesManifest (steps_finish self.now.writer) result }
        // a refusal has a spelling
        ensures fits { IfErr result FitsRefusal }
        ensures plain { ForShown self.now.writer (λ w. GivesManifest (plain_finish w) result) }
    {
        self.state.finish_check(alloc)
    }

    /// The pending file becomes the writer's. It takes no memory.
    pub fn keep(&mut self)
        requires { IsSome self.old.pending }
        ensures { self.new ≡ kept self.old }
    {
        if let Some(pending) = self.pending.take() {
            self.state.keep(pending);
        }
    }

    /// The writer is as before the call that made the file pending. It takes no memory.
    pub fn back(&mut self)
        requires { IsSome self.old.pending }
        ensures { self.new ≡ settled self.old.writer }
    {
        if let Some(pending) = self.pending.take() {
            self.state.back(pending.place);
        }
    }
}
