//! CLOSE_READER.

ghost use Rattle.std.specs.Prelude.{◌<◌};
ghost use Rattle.wire_commands.specs.declared.command.Command.TheVariants.{CloseReader};
ghost use Rattle.core_state.specs.Commands.{PlainDoes, PlainLeaves};

use core_state::{Parts, Place, end_session};
use disk_trait::Disk;
use store_stops::Stop;
use wire_commands::Reply;

/// The lane's reader ends, and the lane holds nothing. It makes no disk call, and takes no memory.
///
/// It is refused where the lane has no reader.
pub fn close_reader<D: Disk>(parts: &mut Parts<D>, at: Place) -> Result<Reply, Stop>
    requires { at.lane < 64 }
    ensures does { PlainDoes D.Disk parts.old parts.new at CloseReader result }
    ensures leaves { PlainLeaves D.Disk parts.old parts.new at CloseReader result }
{
    parts.reader(at.lane)?;
    end_session(parts, at.lane);
    Ok(Reply::Done)
}
