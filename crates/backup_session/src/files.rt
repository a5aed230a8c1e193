//! The uploaded files.

ghost use Rattle.std.specs.Prelude.{◌≡◌, ◌||◌, position, None, IfOk, OnOk, OnErr};
ghost use Rattle.store_types.specs.Names.{name_lt};
ghost use Rattle.backup_session.specs.Kept.{opens_of, among_begun, text_of, IsInsertedAt};
ghost use Rattle.backup_session.specs.Steps as steps;

use crate::state::Begun;
use manifest::FileFact;
use sha2::{Digest, Sha256};
use std::alloc::{AllocError, Global};
use store_types::{Bytes, Digest32, FileName, Refusal};

fn is_uploaded(files: &[FileFact], name: &FileName) -> bool
    ensures { result ≡ steps.among_files name.now files.now }
{
    files.iter().any(|file| file.name == *name)
}

fn is_open(begun: &[Begun], name: &FileName) -> bool
    ensures { result ≡ among_begun name.now begun.now }
{
    begun.iter().any(|b| b.name == *name)
}

fn has_file(files: &[FileFact], begun: &[Begun], name: &FileName) -> bool
    ensures { result ≡ (steps.among_files name.now files.now || among_begun name.now begun.now) }
{
    is_uploaded(files, name) || is_open(begun, name)
}

/// The name is free, and there is room for one more file.
pub fn want_room(files: &[FileFact], begun: &[Begun], name: &FileName) -> Result<(), Refusal>
    ensures { result ≡ steps.want_room name.now files.now (opens_of begun.now) }
{
    if has_file(files, begun, name) {
        return Err(Refusal::Exists);
    }
    if files.len() + begun.len() < 64 {
        Ok(())
    } else {
        Err(Refusal::TooMany { limit: 64 })
    }
}

/// The place of the first file with a greater name.
fn first_after(files: &[FileFact], name: &FileName) -> Option<usize>
    ensures { result ≡ position (λ f. name_lt name.now f.name) files.now }
{
    files.iter().position(|file| *name < file.name)
}

/// Places a file before the first with a greater name, and gives its place. At want of memory nothing has changed.
pub fn insert(files: &mut Vec<FileFact>, file: FileFact) -> Result<usize, AllocError>
    ensures ok { OnOk result (files.new.items ≡ steps.insert_fact file files.old.items) }
    ensures place { IfOk result (IsInsertedAt files.old.items files.new.items) }
    ensures err { OnErr result (files.new.items ≡ files.old.items) }
{
    let after = first_after(files, &file.name);
    let place = after.unwrap_or(files.len());
    files.insert(place, file)?;
    Ok(place)
}

/// What a manifest lists of a blob.
pub fn blob_fact(name: FileName, text: &[u8]) -> FileFact
    ensures { result ≡ steps.blob_fact name text.now }
{
    FileFact {
        name,
        size: text.len() as u64,
        csum: Digest32(Sha256::digest(text)),
    }
}

/// The text of a manifest, which stays in memory.
pub fn kept_text(alloc: Global, name: &FileName, text: &[u8]) -> Result<Option<Bytes>, AllocError>
    ensures { IfOk result (λ kept. kept ≡ steps.manifest_with name.now text.now None) }
{
    if name.is_manifest() {
        Ok(Some(Bytes::from_slice(alloc, text)?))
    } else {
        Ok(None)
    }
}

/// The manifest's text is the new one, where there is one. It takes no memory.
pub fn keep_text(manifest: &mut Option<Bytes>, text: Option<Bytes>)
    ensures { manifest.new ≡ text_of text manifest.old }
{
    if text.is_some() {
        *manifest = text;
    }
}
