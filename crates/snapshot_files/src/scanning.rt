//! All snapshots on a disk.

ghost use Rattle.std.specs.Prelude.{◌≡◌, ◌≤◌, ◌<◌, Some, length, IfSome, IfOk, OnOk, IsErrOf};
ghost use Rattle.std.specs.List.{All};
ghost use Rattle.disk_trait.specs.Disk.{Ticks};
ghost use Rattle.disk_trait.specs.Effects.{OnlyReads};
ghost use Rattle.manifest.specs.Least.{lesser as lesser_of};
ghost use Rattle.store_types.specs.Names.{IsKey};
ghost use Rattle.blob_codec.specs.Blob.{blob_limit};
ghost use Rattle.store_model.specs.Load.{key_of_manifest as key_named};
ghost use Rattle.store_files.specs.Folder.{manifest_path};
ghost use Rattle.snapshot_files.specs.Reads.{NoneWantedWhere, OneCallWhere, ReadsItems, ReadsTexts, ReadsThere};
ghost use Rattle.snapshot_files.specs.Scanned.{FindsInto, Lists, ListsNamed, HasNames, ReadsListed, lacks_file, with_missing, first_missing_file, unreadable_in, found_named as found_of, found_by, folder_names};

use crate::found::{Found, in_order, read_manifest};
use crate::path::{manifest_path_of, path_of};
use blob_codec::{DATA_LIMIT, HEADER_SIZE};
use disk_trait::{Disk, DiskError};
use manifest::{FileFact, Manifest};
use std::alloc::{AllocError, Global};
use store_types::{Bytes, FileName, LISTED_LIMIT, SnapshotKey};

/// The most bytes that a blob has.
const BLOB_LIMIT: u64 = (HEADER_SIZE + DATA_LIMIT) as u64;

/// The snapshot whose manifest has this name.
pub fn key_of_manifest(alloc: Global, path: &str) -> Result<Option<SnapshotKey>, AllocError>
    ensures value { IfOk result (λ key. key ≡ key_named path.now) }
    ensures grammar { IfOk result (λ key. IfSome key IsKey) }
{
    let text = path.as_bytes();
    let front = text.len().saturating_sub(b"/index.json.blob".len());
    let Ok(key) = SnapshotKey::parse(alloc, &text[..front])? else {
        return Ok(None);
    };
    let manifest = manifest_path_of(alloc, &key)?;
    if path == manifest.as_str() {
        Ok(Some(key))
    } else {
        Ok(None)
    }
}

/// Whether the snapshot has no such file.
fn is_missing<D: Disk>(
    disk: &mut D,
    alloc: Global,
    key: &SnapshotKey,
    name: &FileName,
) -> Result<bool, DiskError>
    requires { IsKey key.now }
    ensures reads { OnlyReads D.Disk disk.old disk.new (IsErrOf result DiskError.Failed) }
    ensures missing { ReadsThere D.Disk disk.old result (λ m. lacks_file m key.now name.now) }
{
    let path = path_of(alloc, key, name)?;
    let size = disk.size(path.as_str())?;
    Ok(size.is_none())
}

/// The lesser of two names.
fn lesser(first: Option<FileName>, name: FileName) -> Option<FileName>
    ensures { result ≡ lesser_of first (Some name) }
{
    let Some(first) = first else {
        return Some(name);
    };
    if name < first {
        Some(name)
    } else {
        Some(first)
    }
}

/// The first of the missing names so far, and of this one, where the snapshot has no such file.
fn first_with<D: Disk>(
    disk: &mut D,
    alloc: Global,
    key: &SnapshotKey,
    name: &FileName,
    first: Option<FileName>,
) -> Result<Option<FileName>, DiskError>
    requires { IsKey key.now }
    ensures reads { OnlyReads D.Disk disk.old disk.new (IsErrOf result DiskError.Failed) }
    ensures first { ReadsThere D.Disk disk.old result (λ m. with_missing m key.now first name.now) }
{
    if !is_missing(disk, alloc, key, name)? {
        return Ok(first);
    }
    let name = name.clone()?;
    Ok(lesser(first, name))
}

/// The first listed file, in byte order, that the snapshot lacks.
fn first_missing<D: Disk>(
    disk: &mut D,
    alloc: Global,
    key: &SnapshotKey,
    listed: &[FileFact],
) -> Result<Option<FileName>, DiskError>
    requires { IsKey key.now }
    ensures reads { OnlyReads D.Disk disk.old disk.new (IsErrOf result DiskError.Failed) }
    ensures first { ReadsThere D.Disk disk.old result (first_missing_file key.now listed.now) }
{
    let mut first = None;
    for file in listed {
        first = first_with(disk, alloc, key, &file.name, first)?;
    }
    Ok(first)
}

/// The full name of the snapshot's manifest.
fn manifest_name_of(alloc: Global, key: &SnapshotKey) -> Result<Bytes, AllocError>
    requires { IsKey key.now }
    ensures name { IfOk result (λ name. name ≡ manifest_path key.now) }
    ensures short { IfOk result (λ name. length name ≤ 251) }
{
    let path = manifest_path_of(alloc, key)?;
    Ok(path.into_bytes())
}

/// The full name of the file that makes the snapshot with this manifest damaged.
fn unreadable_of<D: Disk>(
    disk: &mut D,
    alloc: Global,
    key: &SnapshotKey,
    manifest: &Option<Manifest>,
) -> Result<Option<Bytes>, DiskError>
    requires { IsKey key.now }
    ensures reads { OnlyReads D.Disk disk.old disk.new (IsErrOf result DiskError.Failed) }
    ensures unreadable { ReadsThere D.Disk disk.old result (unreadable_in key.now manifest.now) }
    ensures short { IfOk result (λ name. IfSome name (λ path. length path ≤ 251)) }
{
    let Some(listed) = manifest else {
        return Ok(Some(manifest_name_of(alloc, key)?));
    };
    let files = listed.files.as_slice();
    if files.len() > LISTED_LIMIT {
        return Ok(Some(manifest_name_of(alloc, key)?));
    }
    let Some(name) = first_missing(disk, alloc, key, files)? else {
        return Ok(None);
    };
    let path = path_of(alloc, key, &name)?;
    Ok(Some(path.into_bytes()))
}

/// What the manifest's file of this name says, where it is there: nothing where it is the blob of none. A file that is
/// longer than a blob is not read.
fn listed_at<D: Disk>(
    disk: &mut D,
    alloc: Global,
    name: &str,
) -> Result<Option<Option<Manifest>>, DiskError>
    ensures reads { OnlyReads D.Disk disk.old disk.new (IsErrOf result DiskError.Failed) }
    ensures listed { ReadsListed D.Disk disk.old name.now result }
    ensures calls { OneCallWhere D.Disk disk.old disk.new name.now (λ size. blob_limit < size) }
    ensures wanting { NoneWantedWhere D.Disk disk.old name.now (λ size. blob_limit < size) result }
{
    let Some(size) = disk.size(name)? else {
        return Ok(None);
    };
    if size > BLOB_LIMIT {
        return Ok(Some(None));
    }
    let Some(bytes) = disk.read(alloc, name)? else {
        return Ok(None);
    };
    Ok(Some(read_manifest(alloc, &bytes)?))
}

/// The snapshot whose manifest's file has this name.
#[tactic(auto, unfolding(crate::specs::Scanned::found_named))]
fn found_named<D: Disk>(disk: &mut D, alloc: Global, name: &str) -> Result<Option<Found>, DiskError>
    ensures reads { OnlyReads D.Disk disk.old disk.new (IsErrOf result DiskError.Failed) }
    ensures found { ReadsThere D.Disk disk.old result (λ m. found_of m name.now) }
    ensures names { IfOk result (λ found. IfSome found HasNames) }
{
    let Some(key) = key_of_manifest(alloc, name)? else {
        return Ok(None);
    };
    let Some(manifest) = listed_at(disk, alloc, name)? else {
        return Ok(None);
    };
    let unreadable = unreadable_of(disk, alloc, &key, &manifest)?;
    Ok(Some(Found {
        key,
        manifest,
        unreadable,
    }))
}

/// The snapshot whose manifest's file has this name, behind those before.
fn find_into<D: Disk>(
    disk: &mut D,
    alloc: Global,
    name: &str,
    all: &mut Vec<Found>,
) -> Result<(), DiskError>
    ensures reads { OnlyReads D.Disk disk.old disk.new (IsErrOf result DiskError.Failed) }
    ensures found { FindsInto D.Disk disk.old all.old.items all.new.items name.now result }
    ensures names { All HasNames all.old.items → OnOk result (All HasNames all.new.items) }
{
    let Some(found) = found_named(disk, alloc, name)? else {
        return Ok(());
    };
    all.push(found)?;
    Ok(())
}

/// The snapshots whose manifests have one of these names.
fn all_named<D: Disk>(
    disk: &mut D,
    alloc: Global,
    names: &[String],
) -> Result<Vec<Found>, DiskError>
    ensures reads { OnlyReads D.Disk disk.old disk.new (IsErrOf result DiskError.Failed) }
    ensures found { ReadsItems D.Disk disk.old result (λ m. found_by m names.now) }
    ensures names { IfOk result (λ all. All HasNames all.items) }
{
    let mut all = Vec::new(alloc);
    for name in names {
        find_into(disk, alloc, name.as_str(), &mut all)?;
    }
    Ok(all)
}

/// All names in the folders of snapshots.
fn names_in_folders<D: Disk>(disk: &mut D, alloc: Global) -> Result<Vec<String>, DiskError>
    ensures reads { OnlyReads D.Disk disk.old disk.new (IsErrOf result DiskError.Failed) }
    ensures tick { Ticks D.honest D.calls disk.old disk.new }
    ensures names { ReadsTexts D.Disk disk.old result folder_names }
{
    let mut names = disk.list(alloc, "ct/")?;
    let mut hosts = disk.list(alloc, "host/")?;
    let mut machines = disk.list(alloc, "vm/")?;
    names.append(&mut hosts)?;
    names.append(&mut machines)?;
    Ok(names)
}

/// The snapshots whose manifest's file has one of these names, in the order of snapshots. Where each name stands once and
/// none of a manifest is missing, these are those of `scan`.
///
/// Other names are passed over. The calls of the disk, all of which only read, are for each snapshot a `size` and a read
/// of its manifest, which is not read where it is longer than a blob, and a `size` of each listed file.
pub fn scan_named<D: Disk>(
    disk: &mut D,
    alloc: Global,
    names: &[String],
) -> Result<Vec<Found>, DiskError>
    ensures reads { OnlyReads D.Disk disk.old disk.new (IsErrOf result DiskError.Failed) }
    ensures found { ListsNamed D.Disk disk.old names.now result }
    ensures names { IfOk result (λ found. All HasNames found.items) }
{
    let all = all_named(disk, alloc, names)?;
    Ok(in_order(all))
}

/// All snapshots whose manifest's file is there, each once, in the order of snapshots: by type, by the bytes of the id,
/// by time. A snapshot is damaged where that file is no blob of a manifest, or lists more than 63 files, or one that is
/// not there. A manifest that names another snapshot than its folder makes none damaged.
///
/// Other names in the folders are passed over, and chunks are not looked at. The calls of the disk, all of which only
/// read, are a list for each type, and for each snapshot those of [`scan_named`]. At an error nothing is told, whatever was read before it.
pub fn scan<D: Disk>(disk: &mut D, alloc: Global) -> Result<Vec<Found>, DiskError>
    ensures reads { OnlyReads D.Disk disk.old disk.new (IsErrOf result DiskError.Failed) }
    ensures tick { Ticks D.honest D.calls disk.old disk.new }
    ensures found { D.honest disk.old → IfOk result (λ all. Lists (D.content disk.old) all.items) }
    ensures names { IfOk result (λ found. All HasNames found.items) }
{
    let names = names_in_folders(disk, alloc)?;
    scan_named(disk, alloc, &names)
}
