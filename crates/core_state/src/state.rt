//! The core.

ghost use Rattle.std.specs.Prelude.{◌≡◌, ◌≤◌};
ghost use Rattle.store_types.specs.Times.{last_moment};

use crate::collector::Collector;
use crate::journal::Journal;
use crate::parts::Parts;
use crate::upkeep::Upkeep;
use store_types::Entry;

/// The store behind the turn: what it has of the plain store, the remote, the clock, the order of its acts, and what it keeps of
/// chunks and of their collector.
#[derive(Drop)]
pub struct Core<D, E, C> {
    pub parts: Parts<D>,
    pub remote: Option<E>,
    pub clock: C,
    pub journal: Journal,
    pub upkeep: Upkeep,
    /// The collector that is open, on whatever lane.
    pub collector: Option<Collector>,
    /// The moment of the last act. Before the first one it is the last moment of the saved book, or 0.
    pub last: u64,
    /// The number of the entry that was answered DiskFault.
    pub fault: Option<u64>,
    ghost in_time: { last ≤ last_moment },
}

/// What a core is taken apart into.
#[derive(Drop)]
pub struct CoreParts<D, E, C> {
    pub disk: D,
    pub remote: Option<E>,
    pub clock: C,
    pub order: Vec<Entry>,
    pub calls: Vec<u64>,
}

impl<D, E, C> Core<D, E, C> {
    /// All that the core was made of, with its order.
    pub fn parts(self) -> CoreParts<D, E, C>
        ensures disk { result.disk ≡ self.parts.disk }
        ensures remote { result.remote ≡ self.remote }
        ensures clock { result.clock ≡ self.clock }
        ensures order { result.order ≡ self.journal.entries }
        ensures calls { result.calls ≡ self.journal.calls }
    {
        let Core {
            parts,
            remote,
            clock,
            journal,
            upkeep: _,
            collector: _,
            last: _,
            fault: _,
        } = self;
        let Parts {
            disk,
            catalogue: _,
            sessions: _,
            locks: _,
            indexes: _,
        } = parts;
        let Journal { entries, calls, .. } = journal;
        CoreParts {
            disk,
            remote,
            clock,
            order: entries,
            calls,
        }
    }
}
