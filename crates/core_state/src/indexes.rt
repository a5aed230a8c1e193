//! What a lane keeps of indexes beside its session.

ghost use Rattle.std.specs.Prelude.{◌≡◌, IfOk, option_map};
ghost use Rattle.std.specs.List.{list_any};
ghost use Rattle.std.specs.Str.{bytes_eq};
ghost use Rattle.core_state.specs.Indexed.{is_pooled, pooling, ranged_of, ranged_to};
ghost use Rattle.core_state.specs.declared.indexes.Indexes.TheVariants.{Pooled as PooledNames};

use crate::pages::ReadPage;
use paged_indexes::{IndexEntry, IndexPages};
use std::alloc::{AllocError, Global};
use store_types::{FileName, Rows};

/// An index as it was opened.
#[derive(Drop)]
pub struct OpenIndex {
    pub name: FileName,
    pub pages: IndexPages,
}

/// The entries of a page of an index, as they were read.
#[derive(Drop)]
pub struct OpenPage {
    /// The index's name.
    pub name: FileName,
    /// The page's number.
    pub number: u32,
    pub entries: Vec<IndexEntry>,
}

/// The indexes that a reader has opened, and the page of them that it read last.
#[derive(Drop)]
pub struct OpenIndexes {
    pub opened: Rows<OpenIndex>,
    pub page: OpenPage,
}

/// The page that a range read last.
#[derive(Drop)]
pub struct RangedPage {
    /// The index's name.
    pub name: FileName,
    pub page: ReadPage,
}

/// What a lane keeps of indexes beside its session, so that they are not read again.
#[derive(Drop)]
pub enum Indexes {
    /// Nothing.
    Unread,
    /// A writer's: the names of the indexes of its base all of whose pieces it may name.
    Pooled(Rows<FileName>),
    /// A reader's: the indexes of which a VERIFY read entries.
    Opened(OpenIndexes),
    /// A reader's: the page that a range of an archive read last, as the download of its index opened it.
    LastPage(RangedPage),
}

/// The name is one of these.
fn is_among(names: &[FileName], name: &FileName) -> bool
    ensures { result ≡ list_any (λ n. bytes_eq name.now n) names.now }
{
    names.iter().any(|other| *name == *other)
}

/// A copy of the names.
fn copy_of(alloc: Global, names: &[FileName]) -> Result<Rows<FileName>, AllocError>
    ensures { IfOk result (λ copy. copy ≡ names.now) }
{
    let mut copy = Vec::new(alloc);
    for name in names {
        copy.push(name.clone()?)?;
    }
    Ok(Rows::from_vec(copy))
}

impl Indexes {
    /// The writer may name all pieces of its base's index of this name.
    pub fn is_pooled(&self, name: &FileName) -> bool
        ensures { result ≡ is_pooled name.now self.now }
    {
        match self {
            Indexes::Pooled(names) => is_among(names.as_slice(), name),
            _ => false,
        }
    }

    /// What is kept once the writer may name all pieces of an index more.
    pub fn pooling(&self, alloc: Global, name: FileName) -> Result<Indexes, AllocError>
        ensures { IfOk result (λ row. row ≡ PooledNames (pooling name self.now)) }
    {
        let mut names = match self {
            Indexes::Pooled(names) => copy_of(alloc, names.as_slice())?,
            _ => Rows::new(alloc),
        };
        names.insert(0, name)?;
        Ok(Indexes::Pooled(names))
    }

    /// The page of the index of this name that a range read last.
    pub fn ranged(&self, name: &FileName) -> Option<&ReadPage>
        ensures { option_map (λ p. p.now) result ≡ ranged_of name.now self.now }
    {
        let Indexes::LastPage(ranged) = self else {
            return None;
        };
        if ranged.name != *name {
            return None;
        }
        Some(&ranged.page)
    }

    /// A range of this index was read, and this page of it last, where one was. Beside indexes of which a VERIFY read
    /// entries no page of a range is kept.
    pub fn note_ranged(&mut self, name: FileName, last: Option<ReadPage>)
        ensures { self.new ≡ ranged_to name last self.old }
    {
        let Some(page) = last else {
            return;
        };
        if let Indexes::Opened(_) = self {
            return;
        }
        *self = Indexes::LastPage(RangedPage { name, page });
    }
}
