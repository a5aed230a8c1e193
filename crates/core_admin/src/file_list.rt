//! FILES.

ghost use Rattle.std.specs.Prelude.{◌≡◌, ◌≤◌, option_map, length, IfOk, IfErr, IfSome, IsErrOf};
ghost use Rattle.std.specs.List.{All, find};
ghost use Rattle.std.specs.Str.{bytes_eq};
ghost use Rattle.disk_trait.specs.Effects.{OnlyReads};
ghost use Rattle.blob_codec.specs.Laws.{AreBytes};
ghost use Rattle.store_types.specs.Names.{IsKey};
ghost use Rattle.store_types.specs.declared.refusal.Refusal.TheVariants.{Unreadable};
ghost use Rattle.store_files.specs.Folder.{manifest_path};
ghost use Rattle.manifest.specs.Views.{manifest_view};
ghost use Rattle.wire_commands.specs.declared.command.Command.TheVariants.{Files};
ghost use Rattle.store_history.specs.declared.act.Act.TheVariants.{Plain};
ghost use Rattle.core_state.specs.Commands.{PlainDoes, PlainLeaves};
ghost use Rattle.core_state.specs.Listing.{listing_in};
ghost use Rattle.snapshot_files.specs.Reads.{StopHasText};
ghost use Rattle.store_stops.specs.Stops.{IfRefused};
ghost use Rattle.core_state.specs.Unreadables.{ActUnreadable};
ghost use Rattle.store_stops.specs.declared.stop.Stop.TheVariants.{DiskFailed};
ghost use Rattle.core_admin.specs.AnsweredBy.{ActAnswersBy};
ghost use Rattle.core_admin.specs.FileRows.{row_shown, rows_shown, sized_row};
ghost use Rattle.core_admin.specs.FilesTold.{Finds, GivesRows, HasBytes, IsFileRow, ListsThere, TellsOfBytes, asked_files, whole_of};

use core_state::{Catalogue, Kept, Parts, Place, StoredFile};
use disk_trait::{Disk, DiskError};
use manifest::{FileFact, Manifest};
use sha2::{Digest, Sha256};
use snapshot_files::{manifest_path_of, read_manifest};
use std::alloc::{AllocError, Global};
use store_stops::Stop;
use store_types::{
    Bytes, Digest32, FILE_LIMIT, FileName, LISTED_LIMIT, Refusal, Rows, SnapshotKey,
};
use wire_commands::{FileRow, Reply};

/// A manifest's file, and what it lists.
#[derive(Drop)]
struct ManifestFile {
    bytes: Vec<u8>,
    listed: Manifest,
}

/// The manifest whose blob these bytes are, where it lists 63 files at most.
fn listing_of(alloc: Global, bytes: &[u8]) -> Result<Option<Manifest>, AllocError>
    ensures value { IfOk result (λ listed. option_map manifest_view listed ≡ listing_in bytes.now) }
    ensures bytes { AreBytes bytes.now }
{
    let Some(listed) = read_manifest(alloc, bytes)? else {
        return Ok(None);
    };
    if listed.files.as_slice().len() > LISTED_LIMIT {
        return Ok(None);
    }
    Ok(Some(listed))
}

/// The manifest that stands at the path, where it reads and lists 63 files at most.
fn read_listing<D: Disk>(
    disk: &mut D,
    alloc: Global,
    path: &str,
) -> Result<Option<ManifestFile>, DiskError>
    ensures reads { OnlyReads D.Disk disk.old disk.new (IsErrOf result DiskError.Failed) }
    ensures value { D.honest disk.old → IfOk result (ListsThere (D.content disk.old) path.now) }
    // what stands there is bytes
    ensures bytes { D.honest disk.old → IfOk result (λ _. HasBytes (D.content disk.old) path.now) }
{
    let Some(bytes) = disk.read(alloc, path)? else {
        return Ok(None);
    };
    match listing_of(alloc, &bytes)? {
        Some(listed) => Ok(Some(ManifestFile { bytes, listed })),
        None => Ok(None),
    }
}

/// What is listed of the file of this name.
fn fact_named<'a>(listed: &'a [FileFact], name: &FileName) -> Option<&'a FileFact>
    ensures { option_map (λ f. f.now) result ≡ find (λ f. bytes_eq f.name name.now) listed.now }
{
    listed.iter().find(|fact| fact.name == *name)
}

/// The row of a file of this name, size in bytes and checksum.
fn row_with(
    alloc: Global,
    name: &FileName,
    size: u64,
    csum: Digest32,
) -> Result<FileRow, AllocError>
    ensures value { IfOk result (λ row. row ≡ sized_row name.now size csum) }
    ensures fits { IfOk result IsFileRow }
{
    let file = Bytes::from_slice(alloc, name.as_slice())?;
    Ok(FileRow { file, size, csum })
}

/// What is told of a file: of the manifest its own size and checksum, of another file what is listed.
fn row_of(
    alloc: Global,
    name: &FileName,
    bytes: &[u8],
    listed: &[FileFact],
) -> Result<Option<FileRow>, AllocError>
    ensures value { IfOk result (λ row. row ≡ row_shown bytes.now listed.now name.now) }
    ensures fits { IfOk result (λ row. IfSome row IsFileRow) }
{
    if name.is_manifest() {
        let csum = Digest32(Sha256::digest(bytes));
        return Ok(Some(row_with(alloc, name, bytes.len() as u64, csum)?));
    }
    match fact_named(listed, name) {
        Some(fact) => Ok(Some(row_with(alloc, &fact.name, fact.size, fact.csum)?)),
        None => Ok(None),
    }
}

/// What is told of each of the files of which something is known.
fn rows_of(
    alloc: Global,
    files: &[StoredFile],
    bytes: &[u8],
    listed: &[FileFact],
) -> Result<Rows<FileRow>, AllocError>
    requires { length files.now ≤ 64 }
    ensures value { IfOk result (λ rows. rows ≡ rows_shown bytes.now listed.now files.now) }
    ensures few { IfOk result (λ rows. length rows ≤ 64) }
    ensures fit { IfOk result (λ rows. All IsFileRow rows) }
{
    let mut rows = Vec::new(alloc);
    for file in files {
        if let Some(row) = row_of(alloc, &file.name, bytes, listed)? {
            rows.push(row)?;
        }
    }
    Ok(Rows::from_vec(rows))
}

/// What is told of the snapshot's files, as its manifest lists them. It is refused where the manifest is unreadable.
fn rows_read<D: Disk>(disk: &mut D, alloc: Global, kept: &Kept) -> Result<Rows<FileRow>, Stop>
    requires { IsKey kept.now.key }
    ensures reads { OnlyReads D.Disk disk.old disk.new (IsErrOf result DiskFailed) }
    ensures value { D.honest disk.old → GivesRows (D.content disk.old) kept.now result }
    ensures bytes { D.honest disk.old → TellsOfBytes (D.content disk.old) kept.now result }
    // on any disk
    ensures named { IfErr result (IfRefused (λ r. r ≡ Unreadable (manifest_path kept.now.key))) }
    ensures text { IfErr result StopHasText }
    ensures few { IfOk result (λ rows. length rows ≤ 64) }
    ensures fit { IfOk result (λ rows. All IsFileRow rows) }
{
    let path = manifest_path_of(alloc, &kept.key)?;
    let Some(read) = read_listing(disk, alloc, path.as_str())? else {
        return Err(Stop::Refused(Refusal::Unreadable {
            name: path.into_bytes(),
        }));
    };
    let files = kept.files.as_slice();
    let files = &files[..files.len().min(FILE_LIMIT)];
    let rows = rows_of(alloc, files, &read.bytes, read.listed.files.as_slice())?;
    Ok(rows)
}

/// What FILES tests behind its text: the snapshot is there; no file is known to make it damaged, else that file is told.
fn whole_of<'a>(catalogue: &'a Catalogue, key: &SnapshotKey) -> Result<&'a Kept, Stop>
    ensures finds { Finds (whole_of key.now catalogue.now.listed) result }
    ensures key { IfOk result (λ k. k.now.key ≡ key.now) }
{
    let Some(kept) = catalogue.named(key) else {
        return Err(Stop::Refused(Refusal::NoSnapshot));
    };
    if let Some(name) = &kept.unreadable {
        let name = name.clone()?;
        return Err(Stop::Refused(Refusal::Unreadable { name }));
    }
    Ok(kept)
}

/// The files of a snapshot, in byte order, as its manifest lists them; of the manifest itself its own size and checksum. It
/// reads the manifest's file, and changes nothing.
///
/// The refusals, in the order in which they are tested: the text names no snapshot; there is no such snapshot; it is
/// damaged, with the file that makes it so; nothing stands where its manifest was put, or no manifest, or one that lists
/// more than 63 files.
pub fn files<D: Disk>(
    parts: &mut Parts<D>,
    alloc: Global,
    at: Place,
    snapshot: &[u8],
) -> Result<Reply, Stop>
    ensures does { PlainDoes D.Disk parts.old parts.new at (Files snapshot.now) result }
    ensures leaves { PlainLeaves D.Disk parts.old parts.new at (Files snapshot.now) result }
    // on any disk, where there is such a snapshot: the file that makes it damaged, exactly where one does; else rows, or
    // that the manifest is unreadable. On an honest disk, whatever it holds, just what the manifest there lists, or that
    ensures from_state { ActAnswersBy D.Disk parts.old at (Plain (Files snapshot.now)) result }
    // it is unreadable exactly where it is, as far as the disk tells
    ensures unreadable { ActUnreadable D.Disk (asked_files snapshot.now) parts.old at result }
{
    let key = parts.key_in(alloc, at.lane, snapshot)?;
    let kept = whole_of(&parts.catalogue, &key)?;
    let rows = rows_read(&mut parts.disk, alloc, kept)?;
    Ok(Reply::Files(rows))
}
