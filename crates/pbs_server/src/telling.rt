//! A run's order is written into the journal.

ghost use Rattle.std.specs.Prelude.{◌≡◌, false, true};
ghost use Rattle.store_files.specs.Order.{order_text};
ghost use Rattle.pbs_server.specs.Journal.{TakesText, told_with};
ghost use Rattle.pbs_server.specs.Statuses.{beside_sink};

use crate::served::Served;
use crate::status::Status;
use order_file::put_order;
use port_traits::Sink;

/// What comes before a sink's fault stays, and else that is told.
fn with_sink_fault(status: Status) -> Status
    ensures { result ≡ beside_sink status }
{
    match status {
        Status::SinkFault
        | Status::SourceTooLong
        | Status::BadOrder
        | Status::BadFrame
        | Status::Unequal
        | Status::Ok => Status::SinkFault,
        told => told,
    }
}

/// The journal failed: that is told unless what comes before it is.
pub fn with_failed_journal<D, E>(mut served: Served<D, E>) -> Served<D, E>
    ensures { result ≡ told_with true served }
{
    served.status = with_sink_fault(served.status);
    served.report.journal_failed = true;
    served
}

/// Writes the order's text, from the journal's end on. It takes no memory.
pub fn tell_order<D, E, J: Sink>(served: Served<D, E>, journal: &mut J) -> Served<D, E>
    requires { served.report.journal_failed ≡ false }
    ensures journal { TakesText J.Sink journal.old journal.new
        (order_text result.order.items) result.report.journal_failed }
    ensures told { result ≡ told_with result.report.journal_failed served }
{
    match put_order(journal, served.order.as_slice()) {
        Ok(()) => served,
        Err(_) => with_failed_journal(served),
    }
}
