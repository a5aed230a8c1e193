//! What a run is answered.

ghost use Rattle.std.specs.Prelude.{◌≡◌, false};
ghost use Rattle.lane.specs.Entries.{has_kind};
ghost use Rattle.pbs_server.specs.Statuses.{endings_facts, endings_of, first_of, has_disk_fault, is_failed, is_short, is_wanting, run_facts, some_tells, status_of_ending, status_of_opening};

use core_opening::OpenFault;
use disk_trait::DiskError;
use lane::Ending;
use store_history::LaneReport;
use store_types::Entry;

/// How a run ended. The program's exit status is its number.
#[derive(Clone, Copy, Debug, PartialEq, Eq)]
pub enum Status {
    /// 0. Every lane was served to its end. Refused commands are replies, and leave it so.
    Ok,
    /// 1. On a lane something stands that isn't a command.
    BadFrame,
    /// 2. The words have no reading, or ask for another number of sessions than were handed in.
    Usage,
    /// 3. The disk failed.
    DiskFault,
    /// 4. A session's source failed.
    SourceFault,
    /// 5. A session's sink, or the journal, failed.
    SinkFault,
    /// 6. There was no memory.
    NoMemory,
    /// 7. There are more than 64 sessions.
    TooManyLanes,
    /// 8. The replies that were kept are others than those of the plain store.
    Unequal,
    /// 9. A session has 2^40 bytes or more.
    SourceTooLong,
    /// 10. The remote failed.
    RemoteFault,
    /// 11. The order file is none, or doesn't belong to the datastore.
    BadOrder,
}

impl Status {
    ghost use Rattle.std.specs.Prelude.{◌≡◌};
    ghost use Rattle.pbs_server.specs.Statuses.{name_of, number_of};

    /// The exit status.
    pub fn number(self) -> u8
        ensures { result ≡ number_of self }
    {
        match self {
            Status::Ok => 0,
            Status::BadFrame => 1,
            Status::Usage => 2,
            Status::DiskFault => 3,
            Status::SourceFault => 4,
            Status::SinkFault => 5,
            Status::NoMemory => 6,
            Status::TooManyLanes => 7,
            Status::Unequal => 8,
            Status::SourceTooLong => 9,
            Status::RemoteFault => 10,
            Status::BadOrder => 11,
        }
    }

    /// The name that the program prints.
    pub fn name(self) -> &'static str
        ensures { result.now ≡ name_of self }
    {
        match self {
            Status::Ok => "Ok",
            Status::BadFrame => "BadFrame",
            Status::Usage => "Usage",
            Status::DiskFault => "DiskFault",
            Status::SourceFault => "SourceFault",
            Status::SinkFault => "SinkFault",
            Status::NoMemory => "NoMemory",
            Status::TooManyLanes => "TooManyLanes",
            Status::Unequal => "Unequal",
            Status::SourceTooLong => "SourceTooLong",
            Status::RemoteFault => "RemoteFault",
            Status::BadOrder => "BadOrder",
        }
    }
}

/// An entry of the order is of this kind.
fn has_entry(order: &[Entry], kind: u8) -> bool
    ensures { result ≡ has_kind kind order.now }
{
    order.iter().any(|entry| entry.kind == kind)
}

/// Of a run of one lane, by its ending alone.
fn by_ending(ending: Ending) -> Status
    ensures { result ≡ status_of_ending ending }
{
    match ending {
        Ending::Clean => Status::Ok,
        Ending::Broken { .. } => Status::BadFrame,
        Ending::SourceFault => Status::SourceFault,
        Ending::SinkFault => Status::SinkFault,
        Ending::SourceTooLong => Status::SourceTooLong,
        Ending::NoMemory => Status::NoMemory,
    }
}

/// A lane's ending is of this status.
fn some_tell(lanes: &[LaneReport], status: Status) -> bool
    ensures { result ≡ some_tells status (endings_of lanes.now) }
{
    let number = status.number();
    lanes
        .iter()
        .any(|lane| by_ending(lane.ending).number() == number)
}

/// By the lanes' endings alone: the first of these of which one tells.
fn by_endings(lanes: &[LaneReport]) -> Status
    ensures { result ≡ first_of (endings_facts (endings_of lanes.now)) }
{
    if some_tell(lanes, Status::SourceFault) {
        return Status::SourceFault;
    }
    if some_tell(lanes, Status::SinkFault) {
        return Status::SinkFault;
    }
    if some_tell(lanes, Status::SourceTooLong) {
        return Status::SourceTooLong;
    }
    if some_tell(lanes, Status::BadFrame) {
        return Status::BadFrame;
    }
    Status::Ok
}

/// By why the datastore was not opened.
pub fn by_opening(cause: OpenFault) -> Status
    ensures { result ≡ status_of_opening cause }
{
    match cause {
        OpenFault::NotSynced => Status::DiskFault,
        OpenFault::DiskFault => Status::DiskFault,
        OpenFault::NoMemory => Status::NoMemory,
    }
}

/// Memory was wanting as the book was saved.
fn wants_memory(not_saved: Option<DiskError>) -> bool
    ensures { result ≡ is_wanting not_saved }
{
    matches!(not_saved, Some(DiskError::NoMemory))
}

/// The disk failed as the book was saved.
fn has_failed(not_saved: Option<DiskError>) -> bool
    ensures { result ≡ is_failed not_saved }
{
    matches!(not_saved, Some(DiskError::Failed))
}

/// Memory was wanting: an entry of the order, a lane's ending, or the saving of the book tells it.
fn lacks_memory(order: &[Entry], lanes: &[LaneReport], not_saved: Option<DiskError>) -> bool
    ensures { result ≡ is_short order.now (endings_of lanes.now) not_saved }
{
    has_entry(order, 2) || some_tell(lanes, Status::NoMemory) || wants_memory(not_saved)
}

/// The disk failed: an entry of the order or the saving of the book tells it.
fn lacks_disk(order: &[Entry], not_saved: Option<DiskError>) -> bool
    ensures { result ≡ has_disk_fault order.now not_saved }
{
    has_entry(order, 5) || has_failed(not_saved)
}

/// The status of a run: want of memory comes first, then a fault of the disk, then one of the remote, then how the lanes
/// ended. What the saving of the book came to counts as what an act came to.
pub fn status_of(order: &[Entry], lanes: &[LaneReport], not_saved: Option<DiskError>) -> Status
    ensures { result ≡ first_of (run_facts order.now (endings_of lanes.now) not_saved false) }
{
    if lacks_memory(order, lanes, not_saved) {
        return Status::NoMemory;
    }
    if lacks_disk(order, not_saved) {
        return Status::DiskFault;
    }
    if has_entry(order, 7) {
        return Status::RemoteFault;
    }
    by_endings(lanes)
}
