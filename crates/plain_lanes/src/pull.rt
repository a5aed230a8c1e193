//! What a SYNC has pulled so far.

ghost use Rattle.std.specs.Prelude.{◌<◌, length, All};
ghost use Rattle.wire_commands.specs.HasText.{IsText};

use plain_snapshots::Snapshot;
use std::collections::VecDeque;
use store_types::Bytes;

/// The snapshot that a SYNC is at, those to come, and those that are pulled.
#[derive(Drop)]
pub struct Pull {
    pub snapshot: Snapshot,
    pub later: VecDeque<Snapshot>,
    pub pulled: Vec<Bytes>,
    ghost few: { length pulled.items < 65536 },
    ghost spelled: { All IsText pulled.items },
}
