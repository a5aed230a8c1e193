//! The files of a writer.

ghost use Rattle.std.specs.Prelude.{◌≡◌, ◌<◌, length, position, IfOk, OnOk, OnErr, IsSome};
ghost use Rattle.store_types.specs.Names.{IsKey, name_lt};
ghost use Rattle.store_files.specs.Folder.{file_path};
ghost use Rattle.backup_session.specs.Session.{settled, kept};
ghost use Rattle.core_writer.specs.Pending.{HasPending, with_pending, without_pending};
ghost use Rattle.core_writer.specs.Uploaded.{IsInserted, IsPathAt, PutsFile, insert_stored};

use backup_session::Writer;
use core_state::{Session, StoredFile};
use disk_trait::{Disk, DiskError};
use snapshot_files::{FilePath, path_of, put_file};
use std::alloc::{AllocError, Global};
use store_types::{Bytes, FileName, Rows, SnapshotKey};

/// A file that is to be put, with its text.
#[derive(Drop)]
pub struct NewFile {
    pub file: StoredFile,
    pub text: Bytes,
}

/// A file of the snapshot, with its name in the datastore folder.
pub fn stored_file(
    alloc: Global,
    key: &SnapshotKey,
    name: &FileName,
) -> Result<StoredFile, AllocError>
    requires { IsKey key.now }
    ensures name { IfOk result (λ file. file.name ≡ name.now) }
    ensures path { IfOk result (λ file. file.path ≡ file_path key.now name.now) }
{
    let path = path_of(alloc, key, name)?;
    let name = name.clone()?;
    Ok(StoredFile { name, path })
}

/// The place of the first file with a greater name.
fn first_after(files: &[StoredFile], name: &FileName) -> Option<usize>
    ensures { result ≡ position (λ f. name_lt name.now f.name) files.now }
{
    files.iter().position(|file| *name < file.name)
}

/// Places a file before the first with a greater name, and gives its place. At want of memory nothing has changed.
fn insert(files: &mut Rows<StoredFile>, file: StoredFile) -> Result<usize, AllocError>
    ensures ok { OnOk result (files.new ≡ insert_stored file files.old) }
    ensures place { IfOk result (λ place. IsInserted file files.old files.new place) }
    ensures err { OnErr result (files.new ≡ files.old) }
{
    let after = first_after(files.as_slice(), &file.name);
    let place = after.unwrap_or(files.as_slice().len());
    files.insert(place, file)?;
    Ok(place)
}

/// Where the file at a place stands.
fn path_at(files: &[StoredFile], place: usize) -> &FilePath
    requires { place < length files.now }
    ensures { IsPathAt files.now place result.now }
{
    &files[place].path
}

/// Puts a file, unless it is the manifest, and keeps its name. After an error its name is not kept.
fn put_new<D: Disk>(
    disk: &mut D,
    alloc: Global,
    files: &mut Rows<StoredFile>,
    file: StoredFile,
    text: &[u8],
) -> Result<(), DiskError>
    ensures ok { OnOk result (files.new ≡ insert_stored file files.old) }
    ensures err { OnErr result (files.new ≡ files.old) }
    ensures puts { PutsFile D.Disk disk.old disk.new file text.now result }
{
    let is_manifest = file.name.is_manifest();
    let place = insert(files, file)?;
    if is_manifest {
        return Ok(());
    }
    let path = path_at(files.as_slice(), place);
    match put_file(disk, alloc, path, text) {
        Ok(()) => Ok(()),
        Err(cause) => {
            let _ = files.remove(place);
            Err(cause)
        }
    }
}

/// Puts the pending file, whose text this is, and keeps it in session and list. After an error it is in neither.
fn keep_file<D: Disk>(
    disk: &mut D,
    alloc: Global,
    session: &mut Writer,
    files: &mut Rows<StoredFile>,
    file: StoredFile,
    text: &[u8],
) -> Result<(), DiskError>
    requires { IsSome session.old.pending }
    ensures kept { OnOk result (session.new ≡ kept session.old) }
    ensures back { OnErr result (session.new ≡ settled session.old.writer) }
    ensures ok { OnOk result (files.new ≡ insert_stored file files.old) }
    ensures err { OnErr result (files.new ≡ files.old) }
    ensures puts { PutsFile D.Disk disk.old disk.new file text.now result }
{
    if let Err(cause) = put_new(disk, alloc, files, file, text) {
        session.back();
        return Err(cause);
    }
    session.keep();
    Ok(())
}

/// The session's writer gets its pending file, which is put unless it is the manifest. After an error the writer is as
/// before it.
pub fn keep_pending<D: Disk>(
    disk: &mut D,
    alloc: Global,
    session: &mut Session,
    new: NewFile,
) -> Result<(), DiskError>
    requires { HasPending session.old }
    ensures ok { OnOk result (session.new ≡ with_pending new.file session.old) }
    ensures err { OnErr result (session.new ≡ without_pending session.old) }
    ensures puts { PutsFile D.Disk disk.old disk.new new.file new.text result }
{
    let NewFile { file, text } = new;
    match session {
        Session::Writer(w) => {
            keep_file(
                disk,
                alloc,
                &mut w.session,
                &mut w.files,
                file,
                text.as_slice(),
            )
        }
        _ => unreachable!(),
    }
}
