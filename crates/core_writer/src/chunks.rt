//! CHUNK.

ghost use Rattle.std.specs.Prelude.{◌≡◌, ◌<◌, None, Ok, Err, OnOk, OnErr, IsTrue};
ghost use Rattle.store_types.specs.declared.refusal.Refusal.TheVariants.{WrongDigest};
ghost use Rattle.wire_commands.specs.HasText.{ReplyHasText};
ghost use Rattle.wire_commands.specs.declared.reply.Reply.TheVariants.{Refused};
ghost use Rattle.blob_codec.specs.Laws.{AreBytes};
ghost use Rattle.chunk_store.specs.Pieces.{IsChunk};
ghost use Rattle.store_history.specs.Acts.{IsCheckedChunk};
ghost use Rattle.store_history.specs.declared.act.Act.TheVariants.{Chunk};
ghost use Rattle.core_state.specs.Commands.{ActDoes, ActLeaves};
ghost use Rattle.store_history.specs.Replies.{refuses_chunk};
ghost use Rattle.core_writer.specs.NotedChunks.{ForgetsNoted, MayNote, PutsChunk, with_blob_noted};

use crate::uploads::bad_blob;
use backup_session::Writer;
use blob_codec::HEADER_SIZE;
use chunk_store::insert_blob;
use core_state::{Parts, Place, Session};
use disk_trait::{Disk, DiskError};
use std::alloc::Global;
use store_stops::Stop;
use store_types::{Bytes, Digest32, Refusal};
use wire_commands::Reply;

/// The refusal of an upload whose data have another digest.
#[tactic(auto, using(core_state::proofs::Texts::wrong_digest_has_text))]
fn wrong_digest(found: Digest32) -> Refusal
    ensures value { result ≡ WrongDigest found }
    ensures text { ReplyHasText (Refused result) }
{
    Refusal::WrongDigest { found }
}

/// The refusal that the check of an upload gave, unchanged. It is put together anew from its fields: that each number can be
/// encoded (`text`) is told by its type there.
fn refused(digest: &Digest32, refusal: Refusal) -> Refusal
    requires { IsCheckedChunk digest.now (Err refusal) }
    ensures value { result ≡ refusal }
    ensures kind { IsTrue (refuses_chunk result) }
    ensures text { ReplyHasText (Refused result) }
{
    match refusal {
        Refusal::BadBlob(cause) => bad_blob(cause),
        Refusal::WrongDigest { found } => wrong_digest(found),
        refusal => refusal,
    }
}

/// Puts a chunk that is noted in the session, where its file isn't there. After an error it is not noted there.
fn put_chunk<D: Disk>(
    disk: &mut D,
    alloc: Global,
    session: &mut Writer,
    digest: &Digest32,
    bytes: &[u8],
) -> Result<(), DiskError>
    requires settled { session.old.pending ≡ None }
    requires chunk { IsChunk digest.now.0 bytes.now }
    ensures ok { OnOk result (session.new ≡ session.old) }
    ensures err { OnErr result (ForgetsNoted digest.now.0 session.old session.new) }
    ensures puts { PutsChunk D.Disk disk.old disk.new digest.now.0 bytes.now result }
{
    if let Err(cause) = insert_blob(disk, alloc, digest, bytes) {
        session.forget(digest);
        return Err(cause);
    }
    Ok(())
}

/// The session's writer notes a chunk that it does not know, and puts it. After an error the session is as before.
fn take_chunk<D: Disk>(
    disk: &mut D,
    alloc: Global,
    session: &mut Session,
    digest: &Digest32,
    bytes: &[u8],
) -> Result<(), DiskError>
    requires unknown { MayNote digest.now.0 session.old }
    requires checked { IsCheckedChunk digest.now (Ok bytes.now) }
    ensures bytes { AreBytes bytes.now }
    ensures ok { OnOk result (session.new ≡ with_blob_noted digest.now bytes.now session.old) }
    ensures err { OnErr result (session.new ≡ session.old) }
    ensures puts { PutsChunk D.Disk disk.old disk.new digest.now.0 bytes.now result }
{
    let Session::Writer(w) = session else {
        unreachable!();
    };
    let length = bytes.len() - HEADER_SIZE;
    w.session.chunk(digest, length as u32)?;
    put_chunk(disk, alloc, &mut w.session, digest, bytes)?;
    Ok(())
}

/// The lane's writer sends a chunk under its digest, or is refused as the check of the upload was. It is put where its
/// file isn't there, whether the session knows the digest or not: once it is Done, the file is there. A chunk whose file
/// is there is not put again, whatever the file holds.
///
/// Tests count one call of the disk where the file is there, and else four: size, put, sync and rename.
///
/// The refusals, in the order in which they are tested: the lane has no writer; the bytes are no blob; the piece is empty;
/// its digest is another. After a fault of the disk, and at want of memory, the writer may name what it might name before.
pub fn chunk<D: Disk>(
    parts: &mut Parts<D>,
    alloc: Global,
    at: Place,
    digest: &Digest32,
    checked: Result<Bytes, Refusal>,
) -> Result<Reply, Stop>
    requires lane { at.lane < 64 }
    requires checked { IsCheckedChunk digest.now checked }
    ensures does { ActDoes D.Disk parts.old parts.new at (Chunk digest.now checked) result }
    ensures leaves { ActLeaves D.Disk parts.old parts.new at (Chunk digest.now checked) result }
{
    let w = parts.writer(at.lane)?;
    let bytes = match checked {
        Ok(bytes) => bytes,
        Err(refusal) => return Err(Stop::Refused(refused(digest, refusal))),
    };
    let blob = bytes.as_slice();
    if w.session.knows(digest) {
        insert_blob(&mut parts.disk, alloc, digest, blob)?;
        return Ok(Reply::Done);
    }
    let session = &mut parts.sessions[at.lane as usize];
    take_chunk(&mut parts.disk, alloc, session, digest, blob)?;
    Ok(Reply::Done)
}
