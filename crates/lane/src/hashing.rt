//! Hashing that lets other lanes run.

ghost use Rattle.std.specs.Prelude.{◌≡◌};
ghost use Rattle.sha2.specs.Sha256.{sha256};

use sha2::{Digest, Sha256};
use store_types::Digest32;
use turn_lock::{Replays, Turn};

/// So many bytes are hashed at a time.
const PART: usize = 65_536;

/// The SHA-256 of a piece. Behind each part of it, where a thread has the turn or waits for it, a thread that waits for this
/// processor runs: the next one that has the turn shall not wait for a whole piece.
pub fn hash_of<T: Replays>(turn: &Turn<T>, piece: &[u8]) -> Digest32
    ensures { result.0 ≡ sha256 piece.now }
{
    let mut hasher = Sha256::new();
    for part in piece.chunks(PART) {
        hasher.update(part);
        turn.give_way();
    }
    Digest32(hasher.finalize())
}
