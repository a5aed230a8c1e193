//! A run of the sessions that were handed in.

ghost use Rattle.std.specs.Prelude.{◌≡◌, ◌≤◌, ◌+◌, ◌++◌, [], None, Some, false, length, vec_capacity, vec_len, IfOk, IfErr};
ghost use Rattle.pbs_server.specs.Ended.{HasEnded, NoneServed};
ghost use Rattle.pbs_server.specs.Headline.{AsksNone, Leaves};

use crate::ended::Ended;
use crate::saving::save;
use crate::served::{RunReport, Served};
use crate::status::{Status, by_opening};
use core_opening::{NotOpened, OpenFault, open_on};
use core_state::{Core, CoreParts};
use disk_trait::Disk;
use lane::serve_all;
use port_traits::{Clock, Gate, Sink, Source};
use std::alloc::Global;
use std::marker::Brand;
use std::sync::Wait;
use std::thread::Threads;
use store_history::{LaneReport, Port};

/// No lane was served.
pub fn not_served<D, E>(
    alloc: Global,
    status: Status,
    not_opened: Option<OpenFault>,
    disk: D,
    remote: Option<E>,
) -> Served<D, E>
    ensures status { result.status ≡ status }
    ensures not_opened { result.report.not_opened ≡ not_opened }
    ensures not_saved { result.report.not_saved ≡ None }
    ensures order { result.order.items ≡ [] }
    ensures lanes { result.report.lanes.items ≡ [] }
    ensures calls { result.report.calls.items ≡ [] }
    ensures journal { result.report.journal_failed ≡ false }
    ensures unequal { result.report.unequal ≡ None }
    ensures disk { result.disk ≡ disk }
    ensures remote { result.remote ≡ remote }
{
    Served {
        status,
        order: Vec::new(alloc),
        report: RunReport {
            lanes: Vec::new(alloc),
            calls: Vec::new(alloc),
            not_opened,
            not_saved: None,
            journal_failed: false,
            unequal: None,
        },
        disk,
        remote,
    }
}

/// No lane was served, since there was no memory for a turn.
fn not_turned<D, E, C: Drop>(alloc: Global, core: Core<D, E, C>) -> Served<D, E>
    ensures status { result.status ≡ Status.NoMemory }
    ensures not_opened { result.report.not_opened ≡ Some OpenFault.NoMemory }
    ensures not_saved { result.report.not_saved ≡ None }
    ensures order { result.order.items ≡ [] }
    ensures lanes { result.report.lanes.items ≡ [] }
    ensures calls { result.report.calls.items ≡ [] }
    ensures journal { result.report.journal_failed ≡ false }
    ensures unequal { result.report.unequal ≡ None }
    ensures disk { result.disk ≡ core.parts.disk }
    ensures remote { result.remote ≡ core.remote }
{
    let CoreParts { disk, remote, .. } = core.parts();
    let cause = OpenFault::NoMemory;
    not_served(alloc, by_opening(cause), Some(cause), disk, remote)
}

/// Puts reports behind others, where there is room for them.
fn push_all(lanes: &mut Vec<LaneReport>, reports: &[LaneReport])
    requires { vec_len lanes.old + length reports.now ≤ vec_capacity lanes.old }
    ensures { lanes.new.items ≡ lanes.old.items ++ reports.now }
{
    let Ok(()) = lanes.extend_from_slice(reports) else {
        unreachable!()
    };
}

/// Opens the datastore, serves the sessions of the ports on it, all at once, and saves the book of touches. Else no session was
/// served.
pub fn run_ports<
    R: Threads + Wait + Sync,
    D: Disk + Send,
    E: Disk + Send,
    C: Clock + Drop + Send,
    S: Source + Send,
    K: Sink + Send,
    G: Gate + Sync,
>(
    rt: &R,
    alloc: Global,
    ports: &mut [Port<S, K>],
    disk: D,
    remote: Option<E>,
    clock: C,
    gate: &G,
) -> Result<Ended<D, E, C>, Served<D, E>>
    requires some { 1 ≤ length ports.old }
    requires few { length ports.old ≤ 64 }
    ensures ended { IfOk result
        (HasEnded D.Disk E.Disk S.Source K.Sink (C.readings clock) disk remote ports.old ports.new) }
    ensures none { IfErr result (NoneServed D.Disk disk remote ports.old ports.new) }
{
    let Ok(mut lanes) = Vec::with_capacity(alloc, ports.len()) else {
        return Err(not_served(alloc, Status::NoMemory, None, disk, remote));
    };
    match open_on(alloc, disk, remote, clock) {
        Ok(core) => match serve_all::<R, D, E, C, S, K, G, Brand>(rt, alloc, core, ports, gate) {
            Ok((mut core, reports)) => {
                push_all(&mut lanes, reports.as_slice());
                let not_saved = save(&mut core, alloc);
                Ok(Ended {
                    core,
                    lanes,
                    not_saved,
                })
            }
            Err(core) => Err(not_turned(alloc, core)),
        },
        Err(not_opened) => {
            let NotOpened {
                cause,
                disk,
                remote,
                ..
            } = not_opened;
            Err(not_served(alloc, by_opening(cause), Some(cause), disk, remote))
        }
    }
}

/// Serves the sessions of the ports, and hands back what was handed in.
pub fn serve_ports<
    R: Threads + Wait + Sync,
    D: Disk + Send,
    E: Disk + Send,
    C: Clock + Drop + Send,
    S: Source + Send,
    K: Sink + Send,
    G: Gate + Sync,
>(
    rt: &R,
    alloc: Global,
    ports: &mut [Port<S, K>],
    disk: D,
    remote: Option<E>,
    clock: C,
    gate: &G,
) -> Served<D, E>
    requires some { 1 ≤ length ports.old }
    requires few { length ports.old ≤ 64 }
    ensures leaves { Leaves D.Disk E.Disk S.Source K.Sink (C.readings clock)
        disk remote result ports.old ports.new result.report.lanes.items }
    ensures status { AsksNone result.status → ⊥ }
    ensures journal { result.report.journal_failed ≡ false }
    ensures unequal { result.report.unequal ≡ None }
{
    match run_ports(rt, alloc, ports, disk, remote, clock, gate) {
        Ok(ended) => ended.handed_back(),
        Err(served) => served,
    }
}
