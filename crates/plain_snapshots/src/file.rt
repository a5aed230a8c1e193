//! Files of snapshots.

ghost use Rattle.std.specs.Prelude.{◌≡◌, IfOk, OnOk, OnErr, position, option_map};
ghost use Rattle.store_types.specs.Names.{name_lt};
ghost use Rattle.store_files.specs.Archive.{file_text, pieces_of, size_of, csum_of, file_named as find_file};
ghost use Rattle.manifest.specs.Views.{fact_view};
ghost use Rattle.store_model.specs.Store.{insert_file as with_file};
ghost use Rattle.store_model.specs.Manifests.{fact_of, manifest_data as data_listed};
ghost use Rattle.plain_snapshots.specs.Contents.{shown_content, is_archive};

use crate::archive::Archive;
use crate::blob::BlobData;
use manifest::FileFact;
use sha2::{Digest, Sha256};
use std::alloc::{AllocError, Global};
use std::marker::Model;
use store_types::{Digest32, FileName};

/// What a file holds: an archive, or the data of a blob.
#[derive(Drop)]
pub enum Content {
    /// An index file, with the pieces that it names.
    Archive(Archive),
    /// The data of a blob file.
    Blob(BlobData),
}

/// A file of a snapshot.
#[derive(Drop)]
pub struct File {
    pub name: FileName,
    pub content: Content,
}

impl Model for File {
    ghost use Rattle.store_files.specs.Archive as model;

    ghost Value = { model.File };

    ghost use Rattle.plain_snapshots.specs.Contents.{shown_content};

    ghost view = { λ f. record { name = f.name; content = shown_content f.content } };
}

impl Content {
    /// The text of the file.
    #[tactic(auto, unfolding(store_files::specs::Archive::file_text))]
    pub fn text(&self, alloc: Global) -> Result<Vec<u8>, AllocError>
        ensures { IfOk result (λ text. text.items ≡ file_text (shown_content self.now)) }
    {
        match self {
            Content::Archive(archive) => archive.text(alloc),
            Content::Blob(bytes) => bytes.text(alloc),
        }
    }

    /// The pieces of an archive. A blob has none.
    pub fn pieces(&self) -> &[BlobData]
        ensures { result.now ≡ pieces_of (shown_content self.now) }
    {
        match self {
            Content::Archive(archive) => &archive.pieces,
            Content::Blob(_) => &[],
        }
    }

    /// What a manifest lists as the file's size: an archive's, or the length of a blob's file.
    pub fn size(&self, alloc: Global) -> Result<u64, AllocError>
        ensures { IfOk result (λ size. size ≡ size_of (shown_content self.now)) }
    {
        match self {
            Content::Archive(archive) => archive.size(),
            Content::Blob(bytes) => Ok(bytes.text(alloc)?.len() as u64),
        }
    }

    /// What a manifest lists as the file's checksum: an index's own, or the SHA-256 of a blob's file.
    pub fn csum(&self, alloc: Global) -> Result<Digest32, AllocError>
        ensures { IfOk result (λ csum. csum ≡ csum_of (shown_content self.now)) }
    {
        match self {
            Content::Archive(archive) => archive.csum(alloc),
            Content::Blob(bytes) => {
                let text = bytes.text(alloc)?;
                Ok(Digest32(Sha256::digest(&text)))
            }
        }
    }

    /// Whether this is an archive.
    pub fn is_archive(&self) -> bool
        ensures { result ≡ is_archive (shown_content self.now) }
    {
        matches!(self, Content::Archive(_))
    }
}

impl File {
    /// What a manifest lists of it.
    pub fn fact(&self, alloc: Global) -> Result<FileFact, AllocError>
        ensures { IfOk result (λ fact. fact_view fact ≡ fact_of self.now) }
    {
        Ok(FileFact {
            name: self.name.clone()?,
            size: self.content.size(alloc)?,
            csum: self.content.csum(alloc)?,
        })
    }
}

impl Clone for Content {
    ghost is_clone = { λ content copy. copy ≡ content };

    fn clone(&self) -> Result<Content, AllocError> {
        match self {
            Content::Archive(archive) => Ok(Content::Archive(archive.clone()?)),
            Content::Blob(bytes) => Ok(Content::Blob(bytes.clone()?)),
        }
    }
}

impl Clone for File {
    ghost is_clone = { λ file copy. copy ≡ file };

    fn clone(&self) -> Result<File, AllocError> {
        Ok(File {
            name: self.name.clone()?,
            content: self.content.clone()?,
        })
    }
}

/// The file of this name.
pub fn file_named<'a>(name: &[u8], files: &'a [File]) -> Option<&'a File>
    ensures { option_map (λ f. f.now) result ≡ find_file name.now files.now }
{
    files.iter().find(|file| file.name.as_slice() == name)
}

/// The data of the manifest among the files.
pub fn manifest_data(files: &[File]) -> Option<&BlobData>
    ensures { option_map (λ bytes. bytes.now) result ≡ data_listed files.now }
{
    let file = file_named(b"index.json.blob", files)?;
    match &file.content {
        Content::Blob(contents) => Some(contents),
        Content::Archive(_) => None,
    }
}

/// The place of the first file with a greater name.
fn first_after(files: &[File], file: &File) -> Option<usize>
    ensures { result ≡ position (λ f. name_lt file.now.name f.name) files.now }
{
    files.iter().position(|other| file.name < other.name)
}

/// Places a file before the first with a greater name. At want of memory nothing has changed.
pub fn insert_file(files: &mut Vec<File>, file: File) -> Result<(), AllocError>
    ensures ok { OnOk result (files.new.items ≡ with_file file files.old.items) }
    ensures err { OnErr result (files.new.items ≡ files.old.items) }
{
    let after = first_after(files, &file);
    let place = after.unwrap_or(files.len());
    files.insert(place, file)?;
    Ok(())
}
