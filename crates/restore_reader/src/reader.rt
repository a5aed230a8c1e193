//! A reader's calls.

ghost use Rattle.std.specs.Prelude.{◌≡◌, ◌+◌, ◌<◌, ◌≤◌, ◌^◌, List, [], option_map, OnOk, OnErr, IfErr};
ghost use Rattle.std.specs.List.{list_any, find};
ghost use Rattle.std.specs.Str.{bytes_eq};
ghost use Rattle.store_files.specs.Archive.{File};
ghost use Rattle.restore_reader.specs.Answers.{Lends, PlanPlainly, RefusesRange};
ghost use Rattle.restore_reader.specs.Shown.{Shows, ForShown, ShowsNoted};
ghost use Rattle.restore_reader.specs.Shown as plain;
ghost use Rattle.restore_reader.specs.Steps as steps;

use crate::index::{Index, Table};
use crate::ranges::want_range;
use paged_indexes::IndexPages;
use std::alloc::{AllocError, Global};
use std::marker::Model;
use store_types::{Digest32, FileName, Refusal, SnapshotKey};

/// A snapshot that is being read, as contracts see it: its key, and the archives that were downloaded, each by its pieces'
/// digests, its size and what is kept of its index for the pages to be read.
#[derive(Drop)]
pub struct Reader {
    key: SnapshotKey,
    indexes: Vec<Index>,
}

impl Model for Reader {
    ghost use Rattle.restore_reader.specs.Session.{Reading};

    ghost Value = { Reading };

    ghost view = { λ r. record { key = r.key; noted = r.indexes.items } };
}

/// A reader of a snapshot, with nothing downloaded. It takes no memory.
pub fn open_reader(alloc: Global, key: SnapshotKey) -> Reader
    ensures opened { result ≡ steps.opened key }
    ensures plain { (files : List File) → Shows result files (record { key = key; noted = [] }) }
{
    Reader {
        key,
        indexes: Vec::new(alloc),
    }
}

/// The archive of this name.
fn index_named<'a>(indexes: &'a [Index], name: &FileName) -> Option<&'a Index>
    ensures { option_map (λ x. x.now) result ≡ find (λ x. bytes_eq name.now x.name) indexes.now }
{
    indexes.iter().find(|index| *name == *index.name())
}

/// An archive among these has a piece with the digest.
fn names_digest(indexes: &[Index], digest: &Digest32) -> bool
    ensures { result ≡ list_any (steps.has_digest digest.now.0) indexes.now }
{
    indexes.iter().any(|index| index.has(digest))
}

impl Reader {
    /// The snapshot's key.
    pub fn key(&self) -> &SnapshotKey
        ensures { result.now ≡ self.now.key }
    {
        &self.key
    }

    /// The archive of this name was downloaded. It takes no memory.
    pub fn is_downloaded(&self, name: &FileName) -> bool
        ensures { result ≡ steps.is_downloaded self.now name.now }
    {
        self.indexes.iter().any(|index| *name == *index.name())
    }

    /// An archive was downloaded: the table has all entries of its index, and the pages are what is kept of it. Of an
    /// archive that was downloaded before nothing is taken. At want of memory nothing has changed.
    pub fn downloaded(
        &mut self,
        name: FileName,
        table: Table,
        pages: IndexPages,
    ) -> Result<(), AllocError>
        ensures ok { OnOk result (self.new ≡ steps.downloaded self.old name table pages) }
        ensures err { OnErr result (self.new ≡ self.old) }
        ensures plain { OnOk result (ShowsNoted self.old self.new name table pages) }
    {
        self.note(name, table, pages)
    }

    // Notes an archive, unless one of the name is noted.
    fn note(&mut self, name: FileName, table: Table, pages: IndexPages) -> Result<(), AllocError>
        ensures ok { OnOk result (self.new ≡ steps.downloaded self.old name table pages) }
        ensures err { OnErr result (self.new ≡ self.old) }
    {
        if self.is_downloaded(&name) {
            return Ok(());
        }
        self.indexes.push(Index::new(name, table, pages))?;
        Ok(())
    }

    /// An archive that was downloaded has a piece with the digest. It takes no memory.
    pub fn allowed(&self, digest: &Digest32) -> bool
        ensures value { result ≡ steps.is_allowed self.now digest.now.0 }
        ensures plain { ForShown self.now (λ fs r. result ≡ plain.is_allowed fs r digest.now) }
    {
        names_digest(&self.indexes, digest)
    }

    /// The index of which the pages are read for a range of an archive's content: so many bytes from an offset on. It
    /// takes no memory.
    ///
    /// The refusals, in the order in which they are tested: the archive was not downloaded; the range has more than
    /// 4,194,304 bytes; it goes beyond the content, whose size the refusal has.
    pub fn range_plan(
        &self,
        name: &FileName,
        offset: u64,
        length: u32,
    ) -> Result<&IndexPages, Refusal>
        ensures does { Lends (steps.range_plan self.now name.now offset length) result }
        ensures limit { OnOk result (length ≤ 4_194_304) }
        ensures within { OnOk result (offset + length < 2 ^ 64) }
        ensures plain { PlanPlainly self.now name.now offset length result }
        ensures refusal { IfErr result RefusesRange }
    {
        self.plan(name, offset, length)
    }

    // The index of a range, or the first refusal.
    fn plan(&self, name: &FileName, offset: u64, length: u32) -> Result<&IndexPages, Refusal>
        ensures does { Lends (steps.range_plan self.now name.now offset length) result }
        ensures limit { OnOk result (length ≤ 4_194_304) }
        ensures within { OnOk result (offset + length < 2 ^ 64) }
        ensures refusal { IfErr result RefusesRange }
    {
        let Some(index) = index_named(&self.indexes, name) else {
            return Err(Refusal::NotAllowed);
        };
        want_range(index.size(), offset, length)?;
        Ok(index.pages())
    }
}
