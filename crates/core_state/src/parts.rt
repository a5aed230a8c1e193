//! What the core has of the plain store: the disk, the catalogue, the sessions, and who holds what.

ghost use Rattle.std.specs.Prelude.{◌≡◌, IsTrue, vec_len};
ghost use Rattle.std.specs.List.{list_all};
ghost use Rattle.core_state.specs.Named.{is_named};

use crate::catalogue::Catalogue;
use crate::indexes::Indexes;
use crate::kept::Session;
use lock_book::LockBook;

/// The disk, the finished snapshots in their order, the session of each of the 64 lanes, which lanes hold which groups and
/// snapshots, and what each lane keeps of indexes.
#[derive(Drop)]
pub struct Parts<D> {
    pub disk: D,
    pub catalogue: Catalogue,
    pub sessions: Vec<Session>,
    pub locks: LockBook,
    pub indexes: Vec<Indexes>,
    ghost lanes: { vec_len sessions ≡ 64 },
    ghost named: { IsTrue (list_all is_named sessions.items) },
    ghost rows: { vec_len indexes ≡ 64 },
}
