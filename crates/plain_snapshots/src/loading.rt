//! The snapshots of a datastore. Damaged ones are left out.

ghost use Rattle.std.specs.Prelude.{◌≡◌, ◌+◌, ◌≤◌, length, option_map, IfOk, IfSome, IsErrOf};
ghost use Rattle.manifest.specs.Views.{manifest_view};
ghost use Rattle.disk_trait.specs.Disk.{Serves, Same};
ghost use Rattle.disk_trait.specs.Effects.{StepsOn};
ghost use Rattle.store_files.specs.Folder.{file_path as path_of};
ghost use Rattle.store_model.specs.Load.{content_in as content_of, files_in as files_of, read_manifest as manifest_of, snapshot_in as snapshot_of, key_of_manifest as key_named, entry_snapshot as snapshot_of_entry, in_order as ordered, load};
ghost use Rattle.std.specs.List.{filter_map, list_any};
ghost use Rattle.plain_snapshots.specs.Contents.{shown_content};
ghost use Rattle.plain_snapshots.specs.Loading.{HasItems, all_names, data_or_nothing, is_damaged, has_damaged};

use crate::blob::BlobData;
use crate::file::{Content, File, insert_file};
use crate::indexes::{dynamic_in, fixed_in};
use crate::key::PlainKey;
use crate::snapshot::{Snapshot, insert_snapshot};
use crate::stored::{Folder, Stored, read_all};
use disk_trait::{Disk, DiskError};
use manifest::Manifest;
use std::alloc::{AllocError, Global};
use store_types::{FileName, LISTED_LIMIT};

/// The data of a blob. Bytes that are none count as empty.
fn blob_in(alloc: Global, stored: &Stored) -> Result<BlobData, AllocError>
    ensures { IfOk result (λ contents. contents ≡ data_or_nothing stored.now.1) }
{
    match stored.blob() {
        Ok(contents) => contents.clone(),
        Err(_) => BlobData::empty(alloc),
    }
}

/// What a file of this name holds.
#[tactic(auto, unfolding(store_model::specs::Load::content_in))]
fn content_in(
    alloc: Global,
    files: &Folder,
    name: &FileName,
    stored: &Stored,
) -> Result<Content, AllocError>
    ensures { IfOk result (λ c. shown_content c ≡ content_of files.now name.now stored.now.1) }
{
    if name.is_fixed() {
        return Ok(Content::Archive(fixed_in(alloc, files, stored.bytes())?));
    }
    if name.is_dynamic() {
        return Ok(Content::Archive(dynamic_in(alloc, files, stored.bytes())?));
    }
    Ok(Content::Blob(blob_in(alloc, stored)?))
}

/// Where a snapshot's file stands: `<snapshot>/<name>`.
fn file_path(alloc: Global, key: &PlainKey, name: &FileName) -> Result<Vec<u8>, AllocError>
    ensures { IfOk result (λ path. path.items ≡ path_of key.now name.now) }
{
    let key = key.text(alloc)?;
    let mut path = Vec::from_slice(alloc, key.as_slice())?;
    path.extend_from_slice(b"/")?;
    path.extend_from_slice(name.as_slice())?;
    Ok(path)
}

/// The files of these names, in byte order, where all are there.
#[tactic(auto, unfolding(store_model::specs::Load::files_in))]
fn files_in(
    alloc: Global,
    folder: &Folder,
    key: &PlainKey,
    names: &[FileName],
) -> Result<Option<Vec<File>>, AllocError>
    ensures files { IfOk result (λ f. HasItems f (files_of folder.now key.now names.now)) }
    ensures count { IfOk result (λ f. IfSome f (λ v. length v.items ≡ length names.now)) }
{
    let Some((name, others)) = names.split_first() else {
        return Ok(Some(Vec::new(alloc)));
    };
    let path = file_path(alloc, key, name)?;
    let Some(stored) = folder.at(&path) else {
        return Ok(None);
    };
    let Some(mut files) = files_in(alloc, folder, key, others)? else {
        return Ok(None);
    };
    let content = content_in(alloc, folder, name, stored)?;
    let name = name.clone()?;
    insert_file(&mut files, File { name, content })?;
    Ok(Some(files))
}

/// The manifest whose blob these bytes are.
fn read_manifest(alloc: Global, stored: &Stored) -> Result<Option<Manifest>, AllocError>
    ensures { IfOk result (λ listed. option_map manifest_view listed ≡ manifest_of stored.now.1) }
{
    let Ok(contents) = stored.blob() else {
        return Ok(None);
    };
    match manifest::read(alloc, contents.as_slice())? {
        Ok(listed) => Ok(Some(listed)),
        Err(_) => Ok(None),
    }
}

/// The manifest's name, and those of the other files that it lists.
fn names_in(alloc: Global, listed: &Manifest) -> Result<Vec<FileName>, AllocError>
    ensures names { IfOk result (λ names. names.items ≡ all_names (manifest_view listed.now)) }
    ensures count { IfOk result (λ names. length names.items ≤ length listed.now.files + 1) }
{
    let mut names = Vec::new(alloc);
    names.push(FileName::manifest(alloc)?)?;
    for fact in listed.files.as_slice() {
        if !fact.name.is_manifest() {
            names.push(fact.name.clone()?)?;
        }
    }
    Ok(names)
}

/// The snapshot with this manifest, unless it is damaged.
#[tactic(auto, unfolding(store_model::specs::Load::snapshot_in))]
fn snapshot_in(
    alloc: Global,
    folder: &Folder,
    key: PlainKey,
    stored: &Stored,
) -> Result<Option<Snapshot>, AllocError>
    ensures { IfOk result (λ snapshot. snapshot ≡ snapshot_of folder.now key stored.now.1) }
{
    let Some(listed) = read_manifest(alloc, stored)? else {
        return Ok(None);
    };
    if listed.files.as_slice().len() > LISTED_LIMIT {
        return Ok(None);
    }
    let names = names_in(alloc, &listed)?;
    let Some(files) = files_in(alloc, folder, &key, &names)? else {
        return Ok(None);
    };
    Ok(Some(Snapshot { key, files }))
}

/// The snapshot whose manifest has this name.
fn key_of_manifest(alloc: Global, path: &[u8]) -> Result<Option<PlainKey>, AllocError>
    ensures { IfOk result (λ key. key ≡ key_named path.now) }
{
    let front = path.len().saturating_sub(b"/index.json.blob".len());
    let Ok(key) = PlainKey::parse(alloc, &path[..front])? else {
        return Ok(None);
    };
    let name = FileName::manifest(alloc)?;
    let manifest = file_path(alloc, &key, &name)?;
    if path == manifest.as_slice() {
        Ok(Some(key))
    } else {
        Ok(None)
    }
}

/// The snapshot whose manifest this is, unless it is damaged, and whether it is.
#[tactic(auto, unfolding(store_model::specs::Load::entry_snapshot))]
fn entry_snapshot(
    alloc: Global,
    folder: &Folder,
    stored: &Stored,
) -> Result<(Option<Snapshot>, bool), AllocError>
    ensures snapshot { IfOk result (λ x. x.0 ≡ snapshot_of_entry folder.now stored.now) }
    ensures damaged { IfOk result (λ x. x.1 ≡ is_damaged folder.now stored.now) }
{
    let Some(key) = key_of_manifest(alloc, stored.name())? else {
        return Ok((None, false));
    };
    let snapshot = snapshot_in(alloc, folder, key, stored)?;
    let damaged = snapshot.is_none();
    Ok((snapshot, damaged))
}

/// The snapshots whose manifests are there, as these stand, and whether one was damaged.
fn whole_in(alloc: Global, folder: &Folder) -> Result<(Vec<Snapshot>, bool), AllocError>
    ensures snapshots { IfOk result
        (λ x. x.0.items ≡ filter_map (snapshot_of_entry folder.now) folder.now) }
    ensures damaged { IfOk result (λ x. x.1 ≡ list_any (is_damaged folder.now) folder.now) }
{
    let mut snapshots = Vec::new(alloc);
    let mut damaged = false;
    for stored in folder.as_slice() {
        let (found, is_damaged) = entry_snapshot(alloc, folder, stored)?;
        damaged |= is_damaged;
        if let Some(snapshot) = found {
            snapshots.push(snapshot)?;
        }
    }
    Ok((snapshots, damaged))
}

/// The snapshots in their order.
fn in_order(alloc: Global, mut snapshots: Vec<Snapshot>) -> Result<Vec<Snapshot>, AllocError>
    ensures { IfOk result (λ sorted. sorted.items ≡ ordered snapshots.items) }
{
    let mut sorted = Vec::new(alloc);
    while let Some(snapshot) = snapshots.pop() {
        insert_snapshot(&mut sorted, snapshot)?;
    }
    Ok(sorted)
}

/// The snapshots that a datastore's disk has, in their order, and whether it has a damaged one. Those are left out: of
/// which the manifest is no blob, or its data no manifest, or lists more than 63 files, or one that is not there. An
/// index that does not decode counts as without pieces, a piece that is not found as empty, and so does a blob that does
/// not decode.
pub fn read_snapshots<D: Disk>(
    alloc: Global,
    disk: &mut D,
) -> Result<(Vec<Snapshot>, bool), DiskError>
    ensures serves { Serves D.honest D.faults disk.old disk.new (IsErrOf result DiskError.Failed) }
    ensures same { D.honest disk.old → D.content disk.new ≡ D.content disk.old }
    ensures crash { StepsOn D.Disk disk.old disk.new Same }
    ensures snapshots { D.honest disk.old
        → IfOk result (λ x. x.0.items ≡ load (D.content disk.old)) }
    ensures damaged { D.honest disk.old
        → IfOk result (λ x. x.1 ≡ has_damaged (D.content disk.old)) }
{
    let folder = read_all(alloc, disk)?;
    let (snapshots, damaged) = whole_in(alloc, &folder)?;
    Ok((in_order(alloc, snapshots)?, damaged))
}
