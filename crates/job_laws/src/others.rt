//! What holds of a VERIFY beside other lanes.

ghost use Rattle.job_laws.specs.Others.{OthersLeaveReaders, VerifiesAreTold, VerifiesBesideOthers};

/// While a lane has a reader, in a store whose keys rise, whatever commands and steps the other lanes ask leave its
/// session, and its snapshot under its key.
pub fn others_leave_readers()
    ensures { OthersLeaveReaders }
{}

/// So in a legal history of any lanes a VERIFY of a sound snapshot, begun on a lane without a session and with each step
/// done, reports what the snapshot is.
pub fn verifies_beside_others()
    ensures { VerifiesBesideOthers }
{}

/// And what a lane that runs its program tells first, where its acts from the VERIFY on are done until then, is this
/// report.
pub fn verifies_are_told()
    ensures { VerifiesAreTold }
{}
