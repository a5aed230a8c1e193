//! What holds of the sweeps of every history.

ghost use Rattle.store_upkeep.specs.Laws.{CountsAreOne, EndsAreReported, HistoriesAreSafe, LastTouchesStay, ListsChunks, NeededIsThere, OnlyVisitsTake, ReportsAreRight, SentIsThere, SentStays, TakenIsNotNeeded, ThereOrSent, VisitsComeLast, WholeSweepsLeaveRight};

/// In a legal history, at each place: no running writer began before the cutoff of an open sweep; what it appended is not
/// there, or was touched since it began; what finished snapshots have is not there, or was touched at the cutoff or later, or
/// is still to be marked; and each base, and each reader's snapshot, is finished.
pub fn histories_are_safe()
    ensures { HistoriesAreSafe }
{}

/// A chunk that a visit takes out is of no finished snapshot, and no running writer may append it.
pub fn taken_chunks_are_not_needed()
    ensures { TakenIsNotNeeded }
{}

/// The chunks of finished snapshots, and those that running writers may append, are there, where those of the snapshots
/// at opening were.
pub fn needed_chunks_are_there()
    ensures { NeededIsThere }
{}

/// A chunk that a CHUNK sent was last touched at its moment or later, whenever it is there; and it is there while the writer
/// that sent it runs, which may append it.
pub fn sent_chunks_stay()
    ensures touched { SentStays }
    ensures there { SentIsThere }
{}

/// No chunk is visited before all is marked.
pub fn visits_come_last()
    ensures { VisitsComeLast }
{}

/// Only a visit takes a chunk out.
pub fn only_visits_take()
    ensures { OnlyVisitsTake }
{}

/// When a whole sweep ends, the chunks that are there are exactly those, of the ones that were there at its start or were
/// sent since, whose last touch is not before its cutoff; and it has counted those that it took out.
pub fn whole_sweeps_leave_right()
    ensures { WholeSweepsLeaveRight }
{}

/// Had none been taken out, a chunk would be there that was there at first or was sent since, and no other.
pub fn there_or_sent()
    ensures { ThereOrSent }
{}

/// The last touch of a chunk that is there is as though none had ever been taken out.
pub fn last_touches_stay()
    ensures { LastTouchesStay }
{}

/// A collector that ends without want of memory or a fault has swept the whole, and replies its start, its cutoff, how many
/// chunks that are there are used and how many pending, and how many it took out.
pub fn ends_are_reported()
    ensures { EndsAreReported }
{}

/// Such a collector started on its lane, and has swept the whole since: start, cutoff and the chunks that it took out are
/// those of this sweep.
pub fn reports_are_right()
    ensures { ReportsAreRight }
{}

/// The chunks that a collector lists, and counts for its report, are those that are there, each once.
pub fn chunks_are_listed()
    ensures { ListsChunks }
{}

/// However they are listed, as many are used and as many pending.
pub fn counts_are_one()
    ensures { CountsAreOne }
{}
