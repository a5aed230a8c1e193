//! Manifests are compared with a session.

ghost use Rattle.std.specs.Prelude.{◌≡◌, ◌≤◌, [], None, Some, option_map, IfOk, IfErr, IfSome, MatchResult};
ghost use Rattle.std.specs.List.{find};
ghost use Rattle.std.specs.Option.{option_copied};
ghost use Rattle.std.specs.Str.{bytes_eq};
ghost use Rattle.store_files.specs.Manifest.Mismatch.{key_mismatch};
ghost use Rattle.manifest.specs.Views.{fact_view, mismatch_view};
ghost use Rattle.manifest.specs.Checking.{first_mismatch, upload_of, file_mismatch, files_mismatch, uploads_mismatch, is_listed as listed_in, is_unlisted as unlisted_in, of_file, in_file, told_of, FitsField};
ghost use Rattle.manifest.specs.Least.{lesser as lesser_of};

use crate::facts::{FileFact, Manifest, Mismatch};
use std::alloc::AllocError;
use store_types::{FileName, SnapshotKey};

/// Which of type, id and time differs first.
fn key_field(listed: &SnapshotKey, key: &SnapshotKey) -> Option<u8>
    ensures value { option_map (of_file []) result ≡ key_mismatch listed.now key.now }
    ensures field { IfSome result (λ field. (1 ≤ field) × (field ≤ 3)) }
{
    if listed.kind != key.kind {
        Some(1)
    } else if listed.id != key.id {
        Some(2)
    } else if listed.time != key.time {
        Some(3)
    } else {
        None
    }
}

fn is_listed(listed: &[FileFact], name: &FileName) -> bool
    ensures { result ≡ listed_in listed.now name.now }
{
    listed.iter().any(|file| file.name == *name)
}

fn file_named<'f>(files: &'f [FileFact], name: &FileName) -> Option<&'f FileFact>
    ensures { option_copied result ≡ find (λ f. bytes_eq f.name name.now) files.now }
{
    files.iter().find(|file| file.name == *name)
}

/// The upload with a listed file's name. The manifest is none.
fn upload_named<'u>(uploads: &'u [FileFact], name: &FileName) -> Option<&'u FileFact>
    ensures { option_map (λ u. fact_view u.now) result ≡ upload_of uploads.now name.now }
{
    if name.is_manifest() {
        return None;
    }
    file_named(uploads, name)
}

/// What differs between a listed file and its upload.
fn file_field(listed: &FileFact, uploads: &[FileFact]) -> Option<u8>
    ensures value { option_map (in_file listed.now) result ≡ file_mismatch listed.now uploads.now }
    ensures field { IfSome result (λ field. (4 ≤ field) × (field ≤ 7)) }
{
    let Some(upload) = upload_named(uploads, &listed.name) else {
        return Some(4);
    };
    if listed.size != upload.size {
        Some(6)
    } else if listed.csum != upload.csum {
        Some(7)
    } else {
        None
    }
}

/// The first listed file that was not uploaded so, and what differs.
fn first_listed<'l>(listed: &'l [FileFact], uploads: &[FileFact]) -> Option<(&'l FileName, u8)>
    ensures value { option_map told_of result ≡ files_mismatch listed.now uploads.now }
    ensures field { IfSome result (λ r. (4 ≤ r.1) × (r.1 ≤ 7)) }
{
    for file in listed {
        if let Some(field) = file_field(file, uploads) {
            return Some((&file.name, field));
        }
    }
    None
}

fn lesser<'n>(first: Option<&'n FileName>, name: &'n FileName) -> Option<&'n FileName>
    ensures { option_copied result ≡ lesser_of (option_copied first.entry) (Some name.now) }
{
    let Some(first) = first else {
        return Some(name);
    };
    if *name < *first {
        Some(name)
    } else {
        Some(first)
    }
}

fn is_unlisted(listed: &[FileFact], name: &FileName) -> bool
    ensures { result ≡ unlisted_in listed.now name.now }
{
    !name.is_manifest() && !is_listed(listed, name)
}

/// The first in byte order of the uploads that are not listed. The manifest is none.
fn first_unlisted<'u>(listed: &[FileFact], uploads: &'u [FileFact]) -> Option<&'u FileName>
    ensures { option_map (λ n. of_file n.now 5) result ≡ uploads_mismatch listed.now uploads.now }
{
    let mut first = None;
    for upload in uploads {
        if is_unlisted(listed, &upload.name) {
            first = lesser(first, &upload.name);
        }
    }
    first
}

/// Compares a manifest with a session's snapshot and with what the session uploaded, in any order, the manifest itself
/// among it or not. Tells what differs first: type, id and time; then each listed file in turn; then the uploads that
/// are not listed, in byte order of their names. The outer error is want of memory, for the name of the file.
pub fn check(
    manifest: &Manifest,
    key: &SnapshotKey,
    uploads: &[FileFact],
) -> Result<Result<(), Mismatch>, AllocError>
    ensures first { IfOk result (λ checked. MatchResult checked
        (λ _. first_mismatch manifest.now key.now uploads.now ≡ None)
        (λ e. first_mismatch manifest.now key.now uploads.now ≡ Some (mismatch_view e))) }
    // a file is told of just where it is none of type, id and time that differs
    ensures field { IfOk result (λ checked. IfErr checked (λ e. FitsField e.file e.field)) }
{
    if let Some(field) = key_field(&manifest.key, key) {
        return Ok(Err(Mismatch { file: None, field }));
    }
    let listed = manifest.files.as_slice();
    if let Some((name, field)) = first_listed(listed, uploads) {
        let file = Some(name.clone()?);
        return Ok(Err(Mismatch { file, field }));
    }
    let Some(name) = first_unlisted(listed, uploads) else {
        return Ok(Ok(()));
    };
    let file = Some(name.clone()?);
    Ok(Err(Mismatch { file, field: 5 }))
}
