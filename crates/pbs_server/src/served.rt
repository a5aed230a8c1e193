//! What a run leaves.

use crate::status::Status;
use core_opening::OpenFault;
use disk_trait::DiskError;
use replay::Unequal;
use store_history::LaneReport;
use store_types::Entry;

/// How each lane was served, and for each entry of the order the disk's count of calls as it was answered. Empty where no
/// lane was served.
#[derive(Debug, Drop)]
pub struct RunReport {
    pub lanes: Vec<LaneReport>,
    pub calls: Vec<u64>,
    /// Why the datastore was not opened. None where it was, or where the run did not come to it.
    pub not_opened: Option<OpenFault>,
    /// Why the book of touches was not saved. None where it was, and where that was not tried, because no lane was served or
    /// the disk had failed.
    pub not_saved: Option<DiskError>,
    /// The journal failed as the order was written into it.
    pub journal_failed: bool,
    /// The first byte at which replayed and kept replies differ: a check of a run tells one, where its status is
    /// [`Unequal`](Status::Unequal).
    pub unequal: Option<Unequal>,
}

/// The status, the order of all acts, the report, and the disks that were handed in.
#[derive(Drop)]
pub struct Served<D, E> {
    pub status: Status,
    pub order: Vec<Entry>,
    pub report: RunReport,
    pub disk: D,
    pub remote: Option<E>,
}
