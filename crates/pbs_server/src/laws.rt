//! What opening a crashed disk gives of the snapshots that were there, and what a check of a run finds.

ghost use Rattle.pbs_server.specs.Acknowledged.{AcknowledgedStay, FoundStay};
ghost use Rattle.pbs_server.specs.RunChecks.{MadeRunsCheckEqual, RunsCheckEqual};

use disk_trait::Disk;
use port_traits::{Sink, Source};

/// A snapshot whose FINISH was answered Done by a moment, and of which no FORGET was entered since, is whole in what a
/// crash of that moment leaves: with each file as its writer had uploaded it.
pub fn acknowledged_snapshots_stay()
    ensures { AcknowledgedStay }
{}

/// So is a snapshot that was there at opening, and of which no FORGET was entered.
pub fn found_snapshots_stay()
    ensures { FoundStay }
{}

/// The replay of a run that answered [`Ok`](crate::Status::Ok) differs nowhere from the replies that its sinks took: over the same
/// datastore and remote as they were at first, by the returned order, with all that the sources had. The disk is honest and stands
/// for a list of snapshots, so does the remote, where there is one, and no two unequal pieces have one digest.
pub fn clean_runs_check_equal<D: Disk, E: Disk, S: Source, K: Sink>()
    ensures { RunsCheckEqual D.Disk E.Disk S.Source K.Sink }
{}

/// The same of sessions that the program made.
pub fn made_runs_check_equal<D: Disk, E: Disk, J: Sink>()
    ensures { MadeRunsCheckEqual D.Disk E.Disk J.Sink }
{}
