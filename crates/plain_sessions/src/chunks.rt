//! What a CHUNK tests.

ghost use Rattle.store_model.specs.ArchiveSteps.{check_chunk};
ghost use Rattle.plain_sessions.specs.Outcomes.{GivesSame, IsFitRefusal};

use crate::stop::Stop;
use plain_snapshots::BlobData;
use std::alloc::Global;
use store_types::{Digest32, Refusal};

/// The piece of a CHUNK, unless it is no blob, is empty, or has another digest.
#[tactic(auto, unfolding(store_model::specs::ArchiveSteps::check_chunk))]
pub fn checked_piece(alloc: Global, digest: &Digest32, blob: &[u8]) -> Result<BlobData, Stop>
    ensures fits { IsFitRefusal result }
    ensures gives { GivesSame result (check_chunk digest.now blob.now) }
{
    let piece = match BlobData::decoded(alloc, blob)? {
        Ok(contents) => contents,
        Err(cause) => return Err(Stop::Refused(Refusal::BadBlob(cause))),
    };
    if piece.as_slice().is_empty() {
        return Err(Stop::Refused(Refusal::WrongSize { place: 0, size: 0 }));
    }
    let found = piece.digest();
    if found == *digest {
        Ok(piece)
    } else {
        Err(Stop::Refused(Refusal::WrongDigest { found }))
    }
}
