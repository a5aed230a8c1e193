//! BLOB.

ghost use Rattle.std.specs.Prelude.{◌≡◌, ◌<◌, true, None, Err, IsErrOf, IsOk, IsTrue};
ghost use Rattle.blob_codec.specs.Blob.{data_of};
ghost use Rattle.blob_codec.specs.Laws.{AreBytes};
ghost use Rattle.store_types.specs.declared.refusal.Refusal.TheVariants.{BadBlob as BadBlobOf};
ghost use Rattle.store_types.specs.declared.refusal.BadBlob.TheVariants as causes;
ghost use Rattle.wire_commands.specs.HasText.{ReplyHasText};
ghost use Rattle.wire_commands.specs.declared.reply.Reply.TheVariants.{Refused};
ghost use Rattle.store_history.specs.Acts.{IsChecked};
ghost use Rattle.store_history.specs.declared.act.Act.TheVariants.{Blob};
ghost use Rattle.backup_session.specs.Answers.{IsPendingAt};
ghost use Rattle.core_state.specs.Closing.{is_writer};
ghost use Rattle.core_state.specs.Commands.{ActDoes, ActLeaves};
ghost use Rattle.core_state.specs.Named.{is_named};
ghost use Rattle.store_history.specs.Replies.{refuses_blob};
ghost use Rattle.store_stops.specs.declared.stop.Stop.TheVariants.{DiskFailed};
ghost use Rattle.core_writer.specs.Calls.{TakesBlob, TakesPending, TakesPlainly};

use crate::files::{NewFile, keep_pending, stored_file};
use crate::names::file_name;
use backup_session::Writer;
use core_state::{Parts, Place, Session};
use disk_trait::Disk;
use std::alloc::Global;
use store_stops::{Stop, answered};
use store_types::{BadBlob, Bytes, FileName, Refusal};
use wire_commands::Reply;

/// The refusal of an upload whose CRC-32 isn't the one that it keeps.
fn wrong_crc(kept: u32, found: u32) -> Refusal
    ensures value { result ≡ BadBlobOf (causes.WrongCrc kept found) }
    ensures text { ReplyHasText (Refused result) }
{
    Refusal::BadBlob(BadBlob::WrongCrc { kept, found })
}

/// The refusal of an upload that is no blob.
pub fn bad_blob(cause: BadBlob) -> Refusal
    ensures value { result ≡ BadBlobOf cause }
    ensures text { ReplyHasText (Refused result) }
{
    match cause {
        BadBlob::WrongCrc { kept, found } => wrong_crc(kept, found),
        cause => Refusal::BadBlob(cause),
    }
}

/// The refusal that the check of an upload gave, unchanged. It is put together anew from its fields: that each number can be
/// encoded (`text`) is told by its type there.
fn refused(refusal: Refusal) -> Refusal
    requires { IsChecked (Err refusal) }
    ensures value { result ≡ refusal }
    ensures kind { IsTrue (refuses_blob result) }
    ensures text { ReplyHasText (Refused result) }
{
    match refusal {
        Refusal::BadBlob(cause) => bad_blob(cause),
        _ => unreachable!(),
    }
}

/// The backup takes a blob's file, which is pending then. Where it is refused, and where memory is wanting, it is as before.
fn take(session: &mut Writer, alloc: Global, name: FileName, text: &Bytes) -> Result<(), Stop>
    requires settled { session.old.pending ≡ None }
    requires blob { IsOk (data_of text.now) }
    ensures bytes { AreBytes text.now }
    ensures does { TakesBlob session.old session.new name text.now result }
    ensures pending { IsPendingAt session.new result }
    ensures plain { TakesPlainly session.old session.new name text.now result }
    ensures uncalled { IsErrOf result DiskFailed → ⊥ }
{
    let bytes = text.as_slice();
    answered(session.blob(alloc, name, bytes))
}

/// The session's writer takes a blob's file, which is pending then. Where it is refused, and where memory is wanting, the
/// session is as before.
fn take_blob(
    session: &mut Session,
    alloc: Global,
    name: &[u8],
    checked: Result<Bytes, Refusal>,
) -> Result<NewFile, Stop>
    requires named { IsTrue (is_named session.old) }
    requires writer { is_writer session.old ≡ true }
    requires checked { IsChecked checked }
    ensures { TakesPending session.old session.new name.now checked result }
{
    match session {
        Session::Writer(w) => {
            let name = file_name(alloc, name)?;
            w.session.want_blob(&name)?;
            let text = match checked {
                Ok(text) => text,
                Err(refusal) => return Err(Stop::Refused(refused(refusal))),
            };
            let file = stored_file(alloc, w.session.key(), &name)?;
            take(&mut w.session, alloc, name, &text)?;
            Ok(NewFile { file, text })
        }
        _ => unreachable!(),
    }
}

/// The lane's writer gets a file of these bytes, or is refused as the check of the upload was.
///
/// The refusals, in the order in which they are tested: the lane has no writer; the name is no blob's; the writer has
/// such a file or open index; it has 64 of them; the bytes are no blob. The manifest is not put: its text stays in memory
/// until the snapshot is finished. After a fault of the disk the writer has no such file.
pub fn blob<D: Disk>(
    parts: &mut Parts<D>,
    alloc: Global,
    at: Place,
    name: &[u8],
    checked: Result<Bytes, Refusal>,
) -> Result<Reply, Stop>
    requires lane { at.lane < 64 }
    requires checked { IsChecked checked }
    ensures does { ActDoes D.Disk parts.old parts.new at (Blob name.now checked) result }
    ensures leaves { ActLeaves D.Disk parts.old parts.new at (Blob name.now checked) result }
{
    parts.writer(at.lane)?;
    let session = &mut parts.sessions[at.lane as usize];
    let new = take_blob(session, alloc, name, checked)?;
    keep_pending(&mut parts.disk, alloc, session, new)?;
    Ok(Reply::Done)
}
