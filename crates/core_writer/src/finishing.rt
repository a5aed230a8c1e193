//! FINISH.

ghost use Rattle.std.specs.Prelude.{◌≡◌, ◌<◌, None, Ok, Err, option_map, IfErr, IsTrue};
ghost use Rattle.std.specs.Result.{result_ok};
ghost use Rattle.store_types.specs.declared.refusal.Refusal.TheVariants as refusals;
ghost use Rattle.wire_commands.specs.declared.command.Command.TheVariants.{Finish};
ghost use Rattle.core_state.specs.declared.kept.Session.TheVariants.{Idle};
ghost use Rattle.core_state.specs.Catalogue.{closed};
ghost use Rattle.core_state.specs.Changes.{kept_manifest};
ghost use Rattle.core_state.specs.Commands.{PlainDoes, PlainLeaves};
ghost use Rattle.core_state.specs.Named.{is_named};
ghost use Rattle.store_history.specs.Replies.{refuses_finish};
ghost use Rattle.core_writer.specs.Finished.{ChecksPlainly, lent_file, manifest_among, manifest_in};
ghost use Rattle.core_writer.specs.Stopping.{StopsBy};

use core_state::{Catalogue, Indexes, Kept, Listed, Parts, Place, Session, StoredFile, Writing};
use disk_trait::Disk;
use snapshot_files::FilePath;
use std::alloc::Global;
use std::mem;
use store_stops::{Stop, answered};
use store_types::Refusal;
use wire_commands::Reply;

/// The writer has no open index, and its manifest is the snapshot's and lists its other files.
fn check(w: &Writing, alloc: Global) -> Result<(), Stop>
    requires { w.now.session.pending ≡ None }
    ensures stop { IfErr result (StopsBy refuses_finish) }
    ensures plain { ChecksPlainly w.now.session.writer result }
{
    answered(w.session.finish_check(alloc))?;
    Ok(())
}

fn manifest_file(files: &[StoredFile]) -> Option<&StoredFile>
    ensures { option_map (λ f. f.now) result ≡ manifest_among files.now }
{
    files.iter().find(|file| file.name.is_manifest())
}

/// The manifest's name in the datastore folder, and its text.
fn manifest_of(w: &Writing) -> Option<(&FilePath, &[u8])>
    ensures { lent_file result ≡ kept_manifest w.now }
{
    let text = w.session.manifest()?;
    let file = manifest_file(w.files.as_slice())?;
    Some((&file.path, text))
}

/// The name in the datastore folder of the manifest of the session's writer, and its text.
fn manifest_at(session: &Session) -> Result<(&FilePath, &[u8]), Refusal>
    ensures value { lent_file (result_ok result) ≡ manifest_in session.now }
    ensures refusal { IfErr result (λ refusal. refusal ≡ refusals.NoFile) }
{
    match session {
        Session::Writer(w) => manifest_of(w).ok_or(Refusal::NoFile),
        _ => Err(Refusal::NoFile),
    }
}

/// The session ends, and its writer's snapshot is in the catalogue. It takes no memory.
fn close(catalogue: &mut Catalogue, session: &mut Session, number: u64)
    requires room { 0 < catalogue.old.room }
    requires named { IsTrue (is_named session.old) }
    ensures catalogue { catalogue.new.listed ≡ closed number session.old catalogue.old.listed }
    ensures session { session.new ≡ Idle }
{
    if let Session::Writer(w) = mem::replace(session, Session::Idle) {
        let Writing { session, files } = w;
        let kept = Kept {
            key: session.into_key(),
            files,
            unreadable: None,
        };
        catalogue.insert_reserved(Listed { number, kept });
    }
}

/// The files of the lane's writer become a finished snapshot, and the lane holds nothing any more.
///
/// The manifest is put under a temporary name, synced and renamed, and synced again: a crash meanwhile leaves it whole or
/// leaves none, and after Ok it and the files put before it outlast a crash.
///
/// The refusals, in the order in which they are tested: the lane has no writer; it has open indexes; it has no manifest;
/// the manifest is none, by its cause; the first mismatch between the manifest and the snapshot's key and other files. A
/// refusal changes nothing. All memory is taken before the first disk call.
pub fn finish<D: Disk>(parts: &mut Parts<D>, alloc: Global, at: Place) -> Result<Reply, Stop>
    requires { at.lane < 64 }
    ensures does { PlainDoes D.Disk parts.old parts.new at Finish result }
    ensures leaves { PlainLeaves D.Disk parts.old parts.new at Finish result }
{
    check(parts.writer(at.lane)?, alloc)?;
    let (path, text) = manifest_at(&parts.sessions[at.lane as usize])?;
    parts.catalogue.reserve()?;
    snapshot_files::finish(&mut parts.disk, alloc, path, text)?;
    let session = &mut parts.sessions[at.lane as usize];
    close(&mut parts.catalogue, session, at.number);
    parts.indexes[at.lane as usize] = Indexes::Unread;
    parts.locks.release(at.lane);
    Ok(Reply::Done)
}
