//! The end of a lane, and ABORT.

ghost use Rattle.std.specs.Prelude.{◌≡◌, ◌<◌, IsOk};
ghost use Rattle.wire_commands.specs.declared.command.Command.TheVariants.{Abort};
ghost use Rattle.store_history.specs.declared.act.Act.TheVariants.{End};
ghost use Rattle.core_state.specs.declared.kept.Session.TheVariants.{Idle};
ghost use Rattle.core_state.specs.Commands.{ActDoes, ActLeaves, PlainDoes, PlainLeaves};
ghost use Rattle.core_state.specs.Stops.{ended_as};
ghost use Rattle.core_state.specs.Wanted.{session_at};
ghost use Rattle.core_writer.specs.Ended.{files_in};

use core_state::{Parts, Place, Session, StoredFile, end_session};
use disk_trait::{Disk, Failed};
use snapshot_files::remove_files;
use store_stops::Stop;
use wire_commands::Reply;

/// The files of the session's writer, the manifest among them.
fn files_of(session: &Session) -> &[StoredFile]
    ensures { result.now ≡ files_in session.now }
{
    match session {
        Session::Writer(w) => w.files.as_slice(),
        _ => &[],
    }
}

/// The lane's session ends, the files of its writer are removed, and the lane holds nothing. It takes no memory. After a
/// fault of the disk the session is as before.
pub fn end<D: Disk>(parts: &mut Parts<D>, at: Place) -> Result<(), Failed>
    requires { at.lane < 64 }
    ensures does { ActDoes D.Disk parts.old parts.new at End (ended_as result) }
    ensures leaves { ActLeaves D.Disk parts.old parts.new at End (ended_as result) }
    // without a session it makes no call of the disk
    ensures idle { session_at parts.old at.lane ≡ Idle → IsOk result }
{
    remove_files(&mut parts.disk, files_of(&parts.sessions[at.lane as usize]))?;
    end_session(parts, at.lane);
    Ok(())
}

/// The lane's writer ends, and its files are removed. It takes no memory.
///
/// It is refused where the lane has no writer. After a fault of the disk the session is as before.
pub fn abort<D: Disk>(parts: &mut Parts<D>, at: Place) -> Result<Reply, Stop>
    requires { at.lane < 64 }
    ensures does { PlainDoes D.Disk parts.old parts.new at Abort result }
    ensures leaves { PlainLeaves D.Disk parts.old parts.new at Abort result }
{
    parts.writer(at.lane)?;
    end(parts, at)?;
    Ok(Reply::Done)
}
