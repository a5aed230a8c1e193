//! The program's call.

ghost use Rattle.std.specs.Prelude.{◌≡◌, ◌↔◌, IsSome, length};
ghost use Rattle.pbs_server.specs.Asking.{LeavesBy};
ghost use Rattle.pbs_server.specs.Completeness.{IsComplete};
ghost use Rattle.pbs_server.specs.Words.{AsksTooMany, IsMisused, TellsJust};

use crate::asking::{Asked, read_words};
use crate::checking::serve_checked;
use crate::generating::serve_generated;
use crate::run::{not_served, serve_ports};
use crate::served::Served;
use crate::status::Status;
use crate::telling::tell_order;
use disk_trait::Disk;
use port_traits::{Clock, Gate, Sink, Source};
use std::alloc::Global;
use std::sync::Wait;
use std::thread::Threads;
use store_history::Port;

/// Does what the words ask for: `run ROOT [--remote ROOT2] [--order FILE] SESSION..` serves the sessions on the disk, all at once,
/// each on a lane and a thread of its own, beside the remote, if one is handed in: the words do not say whether there is one. A
/// port is a session's source, and the sink of its replies; there is one for each session, in the words' order. As the sessions
/// that were served have ended, the book of touches is saved, unless the disk failed. With `--order` the order's text is then
/// written to the journal; without it nothing is.
///
/// `gen ROOT N` takes no ports: the program makes the sessions of lanes 0 to N, and serves them so with a clock that stands at
/// 1,600,000,000. Where all is well the journal takes their summary. A sink of its own that cannot grow is want of memory.
///
/// `check ROOT ORDER [--remote ROOT2] SESSION..` replays a run over the disk and the remote as they were before it, and only reads
/// them. The first port has the run's order; for each session come its input and the replies that were kept of it. The journal
/// takes one line: `equal`, or the first byte that differs.
///
/// Where no count of faults rose, sessions whose sources tell whole commands are answered [`Ok`](Status::Ok), each ended cleanly, or
/// [`NoMemory`](Status::NoMemory). On honest disks a check of a run whose replay is equal is answered one of these two.
///
/// The disk and the remote are handed back in every case. Words without a reading, or for another number of ports, are
/// [`Usage`](Status::Usage). `rt` has the threads of the lanes, and of those that hash a VERIFY's
/// chunks, and the leave to wait for the turn.
pub fn serve<
    R: Threads + Wait + Sync,
    D: Disk + Send,
    E: Disk + Send,
    C: Clock + Drop + Send,
    S: Source + Send,
    K: Sink + Send,
    J: Sink,
    G: Gate + Sync,
>(
    rt: &R,
    alloc: Global,
    words: &[String],
    lanes: &mut [Port<S, K>],
    disk: D,
    remote: Option<E>,
    clock: C,
    journal: &mut J,
    gate: &G,
) -> Served<D, E>
    ensures leaves { LeavesBy D.Disk E.Disk S.Source K.Sink J.Sink (C.readings clock)
        words.now disk remote lanes.old lanes.new journal.old journal.new result }
    ensures usage { TellsJust result Status.Usage (IsMisused words.now (length lanes.old)) }
    ensures many { TellsJust result Status.TooManyLanes (AsksTooMany words.now (length lanes.old)) }
    ensures unequal { IsSome result.report.unequal ↔ result.status ≡ Status.Unequal }
    ensures complete { IsComplete D.Disk E.Disk S.Source K.Sink J.Sink
        words.now disk remote lanes.old lanes.new journal.old journal.new result }
{
    let asked = match read_words(alloc, words, lanes.len()) {
        Ok(asked) => asked,
        Err(status) => return not_served(alloc, status, None, disk, remote),
    };
    let with_order = match asked {
        Asked::Run { with_order } => with_order,
        Asked::Gen { n } => return serve_generated(rt, alloc, n, disk, remote, journal, gate),
        Asked::Check => return serve_checked(alloc, lanes, disk, remote, journal),
    };
    let served = serve_ports(rt, alloc, lanes, disk, remote, clock, gate);
    if with_order {
        tell_order(served, journal)
    } else {
        served
    }
}
