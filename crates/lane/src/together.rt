//! The sessions of a run, all at once on one core.

ghost use Rattle.std.specs.Prelude.{◌≡◌, ◌≤◌, length, IfErr, IfOk};
ghost use Rattle.shared_store.specs.Comes.{IsFresh};
ghost use Rattle.lane.specs.Together.{RanTogether};

use crate::lanes::{Reports, serve_lanes};
use crate::serves::Service;
use core_state::Core;
use disk_trait::Disk;
use port_traits::{Clock, Gate, Sink, Source};
use shared_store::{Origin, Shared};
use std::alloc::Global;
use std::sync::Wait;
use std::thread::Threads;
use store_history::Port;

/// Serves the session of each port at once, on the lanes from 0 on, and gives the core back with a report of each lane, in
/// the order of the ports. The core comes back as it was, and no session is read, where there is no memory for a turn round it.
#[tactic(auto, using(crate::proofs::Whole::may_begin))]
pub fn serve_all<
    R: Threads + Wait + Sync,
    D: Disk + Send,
    E: Disk + Send,
    C: Clock + Send,
    S: Source + Send,
    K: Sink + Send,
    G: Gate + Sync,
    N: Origin<Core<D, E, C>> + Send + Sync,
>(
    rt: &R,
    alloc: Global,
    core: Core<D, E, C>,
    ports: &mut [Port<S, K>],
    gate: &G,
) -> Result<(Core<D, E, C>, Reports), Core<D, E, C>>
    requires origin { N.is core }
    requires fresh { IsFresh C.Clock core }
    requires some { 1 ≤ length ports.old }
    requires few { length ports.old ≤ 64 }
    ensures ok { IfOk result (λ r. RanTogether D.Disk E.Disk C.Clock S.Source K.Sink N.is
        ports.old ports.new r.0 r.1.items) }
    ensures err { IfErr result (λ c. (c ≡ core) × (ports.new ≡ ports.old)) }
{
    match Shared::<D, E, C, N>::make(rt, alloc, core) {
        Ok((shared, seat)) => {
            let mut seat = seat;
            let on = Service {
                alloc,
                shared: &shared,
                gate,
            };
            let reports = serve_lanes(rt, &on, &mut seat, 0, ports);
            Ok((shared.close(rt, seat), reports))
        }
        Err(core) => Err(core),
    }
}
