//! Sessions that the program makes itself.

ghost use Rattle.std.specs.Prelude.{◌≡◌, ◌≤◌, None, IfOk};
ghost use Rattle.pbs_server.specs.Generating as spec;
ghost use Rattle.pbs_server.specs.Generating.{LeavesGenerated};
ghost use Rattle.command_line.specs.Reading.{IsCount};

use crate::input::MadeInput;
use crate::run::{not_served, run_ports};
use crate::served::Served;
use crate::status::Status;
use crate::summing::tell_ended;
use disk_trait::Disk;
use generator::generate;
use port_traits::{Gate, MemSink, SetClock, Sink};
use std::alloc::{AllocError, Global};
use std::sync::Wait;
use std::thread::Threads;
use store_history::Port;

/// The reading of the clock that stands.
const STILL: u64 = 1_600_000_000;

/// The port of lane `k`, one of the lanes 0 to `n`.
fn port_of(alloc: Global, n: u32, k: u32) -> Result<Port<MadeInput, MemSink>, AllocError>
    requires count { IsCount n }
    requires lane { k ≤ n }
    ensures { IfOk result (λ port. port ≡ spec.port_of k) }
{
    let input = generate(alloc, n, k)?;
    Ok(Port {
        source: MadeInput::new(alloc, input),
        sink: MemSink::new(alloc, Vec::new(alloc)),
    })
}

/// The ports of lanes 0 to `n`.
fn ports_of(alloc: Global, n: u32) -> Result<Vec<Port<MadeInput, MemSink>>, AllocError>
    requires { IsCount n }
    ensures { IfOk result (λ ports. ports.items ≡ spec.ports_of n) }
{
    let mut ports = Vec::new(alloc);
    for k in 0..n + 1 {
        ports.push(port_of(alloc, n, k)?)?;
    }
    Ok(ports)
}

/// Serves these sessions, those of lanes 0 to the last, with a clock that stands, and tells the journal their summary.
fn serve_made<R: Threads + Wait + Sync, D: Disk + Send, E: Disk + Send, J: Sink, G: Gate + Sync>(
    rt: &R,
    alloc: Global,
    _last: u32,
    ports: &mut [Port<MadeInput, MemSink>],
    disk: D,
    remote: Option<E>,
    journal: &mut J,
    gate: &G,
) -> Served<D, E>
    requires count { IsCount _last }
    requires made { ports.old ≡ spec.ports_of _last }
    ensures leaves { LeavesGenerated D.Disk E.Disk J.Sink _last
        disk remote journal.old journal.new result }
    ensures unequal { result.report.unequal ≡ None }
{
    let clock = SetClock::new(Vec::new(alloc), STILL);
    match run_ports(rt, alloc, ports, disk, remote, clock, gate) {
        Ok(ended) => tell_ended(alloc, ended, ports, journal),
        Err(served) => served,
    }
}

/// Serves the sessions of lanes 0 to `n`, all at once and with a clock that stands, and then tells the journal their summary.
pub fn serve_generated<
    R: Threads + Wait + Sync,
    D: Disk + Send,
    E: Disk + Send,
    J: Sink,
    G: Gate + Sync,
>(
    rt: &R,
    alloc: Global,
    n: u32,
    disk: D,
    remote: Option<E>,
    journal: &mut J,
    gate: &G,
) -> Served<D, E>
    requires { IsCount n }
    ensures leaves { LeavesGenerated D.Disk E.Disk J.Sink n
        disk remote journal.old journal.new result }
    ensures unequal { result.report.unequal ≡ None }
{
    let Ok(mut ports) = ports_of(alloc, n) else {
        return not_served(alloc, Status::NoMemory, None, disk, remote);
    };
    serve_made(rt, alloc, n, &mut ports, disk, remote, journal, gate)
}
