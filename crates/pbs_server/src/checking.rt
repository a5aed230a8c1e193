//! A run that is checked.

ghost use Rattle.std.specs.Prelude.{◌≡◌, ◌≤◌, ◌%◌, Err, IfOk, false, length, string_bytes};
ghost use Rattle.replay.specs.Compare.{line};
ghost use Rattle.pbs_server.specs.Checking.{HasChecked, TellsLine, check_facts, told_unequal};
ghost use Rattle.pbs_server.specs.Statuses.{first_of};

use crate::run::not_served;
use crate::served::Served;
use crate::status::Status;
use disk_trait::Disk;
use port_traits::{Sink, Source, write_all_of};
use replay::Unequal;
use run_check::{CheckFault, Compared, check_run};
use std::alloc::Global;
use store_history::Port;

fn by_fault(fault: CheckFault) -> Status
    ensures { result ≡ first_of (check_facts (Err fault) false) }
{
    match fault {
        CheckFault::NoMemory => Status::NoMemory,
        CheckFault::DiskFault => Status::DiskFault,
        CheckFault::RemoteFault => Status::RemoteFault,
        CheckFault::SourceFault => Status::SourceFault,
        CheckFault::SourceTooLong => Status::SourceTooLong,
        CheckFault::BadOrder => Status::BadOrder,
    }
}

/// The status of a check.
fn status_of(what: &Result<Compared, CheckFault>, failed: bool) -> Status
    ensures { result ≡ first_of (check_facts what.now failed) }
{
    match what {
        Err(fault) => by_fault(*fault),
        Ok(_) if failed => Status::SinkFault,
        Ok(compared) if compared.unequal.is_some() => Status::Unequal,
        Ok(_) => Status::Ok,
    }
}

/// The first byte that differs, unless the journal's fault is told.
fn unequal_of(what: &Result<Compared, CheckFault>, failed: bool) -> Option<Unequal>
    ensures { result ≡ told_unequal what.now failed }
{
    match what {
        Ok(compared) if !failed => compared.unequal,
        _ => None,
    }
}

/// Writes the line of a check into the journal, and says whether this failed.
fn tell_line<J: Sink>(what: &Result<Compared, CheckFault>, journal: &mut J) -> bool
    requires { IfOk what.now (λ c. string_bytes c.line ≡ line c.unequal) }
    ensures { TellsLine J.Sink journal.old journal.new what.now result }
{
    match what {
        Ok(compared) => write_all_of(journal, compared.line.as_bytes()).is_err(),
        Err(_) => false,
    }
}

/// Checks the run that the ports have, on the disks as they were before it.
pub fn serve_checked<D: Disk, E: Disk, S: Source, K, J: Sink>(
    alloc: Global,
    ports: &mut [Port<S, K>],
    mut disk: D,
    mut remote: Option<E>,
    journal: &mut J,
) -> Served<D, E>
    requires odd { length ports.old % 2 ≡ 1 }
    requires few { length ports.old ≤ 129 }
    ensures { HasChecked D.Disk E.Disk S.Source J.Sink disk remote
        ports.old ports.new journal.old journal.new result }
{
    let what = check_run(alloc, ports, &mut disk, &mut remote);
    let failed = tell_line(&what, journal);
    let mut served = not_served(alloc, status_of(&what, failed), None, disk, remote);
    served.report.journal_failed = failed;
    served.report.unequal = unequal_of(&what, failed);
    served
}
