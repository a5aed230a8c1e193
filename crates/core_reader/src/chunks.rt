//! GET_CHUNK.

ghost use Rattle.std.specs.Prelude.{◌<◌, IfOk};
ghost use Rattle.wire_commands.specs.declared.command.Command.TheVariants.{GetChunk};
ghost use Rattle.store_history.specs.declared.act.Act.TheVariants.{Plain};
ghost use Rattle.core_state.specs.Commands.{PlainDoes, PlainLeaves};
ghost use Rattle.core_reader.specs.Damages.{ActDamaged};
ghost use Rattle.core_reader.specs.ReaderWords.{IsGiven};

use crate::loading::read_chunk;
use core_state::{Parts, Place};
use disk_trait::Disk;
use std::alloc::Global;
use store_stops::Stop;
use store_types::{Bytes, Digest32, Refusal};
use wire_commands::Reply;

/// The blob of a piece, as it stands on the disk.
///
/// The refusals, in the order in which they are tested: the lane has no reader; no archive that the reader downloaded
/// has a piece with the digest; the chunk is damaged.
pub fn get_chunk<D: Disk>(
    parts: &mut Parts<D>,
    alloc: Global,
    at: Place,
    digest: &Digest32,
) -> Result<Reply, Stop>
    requires { at.lane < 64 }
    ensures does { PlainDoes D.Disk parts.old parts.new at (GetChunk digest.now) result }
    ensures leaves { PlainLeaves D.Disk parts.old parts.new at (GetChunk digest.now) result }
    // on any disk, what is given is the blob of a piece with the digest
    ensures given { IfOk result (IsGiven digest.now) }
    // it is damaged exactly where there is no piece with the digest, as far as the disk tells
    ensures damaged { ActDamaged D.Disk parts.old at (Plain (GetChunk digest.now)) result }
{
    let reader = parts.reader(at.lane)?;
    if !reader.allowed(digest) {
        return Err(Stop::Refused(Refusal::NotAllowed));
    }
    let chunk = read_chunk(&mut parts.disk, alloc, digest)?;
    Ok(Reply::Data(Bytes::from_vec(chunk.into_blob())))
}
