//! Lanes that run at once, by halves of their list.

ghost use Rattle.std.specs.Prelude.{◌≡◌, ◌≤◌, ◌+◌, ◌++◌, ◌∷◌, [], length};
ghost use Rattle.std.specs.Thread.{IsSync};
ghost use Rattle.lane.specs.Served.{AreServed, CanServe};

use crate::serves::Serves;
use arrayvec::ArrayVec;
use std::sync::Wait;
use std::thread::{Threads, join_mut};
use store_history::LaneReport;

/// How lanes were served, in their order. There are at most 64, and it takes no memory.
pub type Reports = ArrayVec<LaneReport, 64>;

/// Serves the lanes from `first` on, one for each port, all at once: each in a thread of its own, with a seat split from this
/// one. As all have ended, this seat has all that theirs had.
pub fn serve_lanes<R: Threads + Wait + Sync, C: Serves<T, U> + Sync, T: Send, U: Send>(
    rt: &R,
    on: &C,
    seat: &mut T,
    first: u32,
    ports: &mut [U],
) -> Reports
    requires can { CanServe (C.turn on.now) (C.state seat.old) first (length ports.old) }
    ensures served { AreServed C.runs first ports.old ports.new result.items
        (C.state seat.old) (C.state seat.new) }
{
    if ports.len() == 1 {
        return serve_one(rt, on, seat, first, &mut ports[0]);
    }
    let half = ports.len() - ports.len() / 2;
    let middle = first + half as u32;
    let mut other = on.split_off(seat);
    let (front, back) = ports.split_at_mut(half);
    let (reports, more) = join_mut(
        rt,
        &mut || -> Reports
            requires can { IsSync R.row × IsSync C.row
                × CanServe (C.turn on.now) (C.state seat.now) first (length front.now) }
            ensures served { AreServed C.runs first front.entry.now front.exit.now result.items
                (C.state seat.entry.now) (C.state seat.exit.now) }
        { serve_lanes(rt, on, seat, first, front) },
        &mut || -> Reports
            requires can { IsSync R.row × IsSync C.row
                × CanServe (C.turn on.now) (C.state other) middle (length back.now) }
            ensures served { AreServed C.runs middle back.entry.now back.exit.now result.items
                (C.state other.entry) (C.state other.exit) }
        { serve_lanes(rt, on, &mut other, middle, back) },
    );
    on.absorb(seat, other);
    joined(reports, &more)
}

/// Serves one lane.
fn serve_one<R: Threads + Wait + Sync, C: Serves<T, U>, T, U>(
    rt: &R,
    on: &C,
    seat: &mut T,
    lane: u32,
    port: &mut U,
) -> Reports
    requires can { CanServe (C.turn on.now) (C.state seat.old) lane 1 }
    ensures served { AreServed C.runs lane (port.old ∷ []) (port.new ∷ []) result.items
        (C.state seat.old) (C.state seat.new) }
{
    let report = on.serve(rt, seat, lane, port);
    let mut reports = ArrayVec::new();
    reports.push(report);
    reports
}

/// The reports of one half, and behind them those of the other.
fn joined(reports: Reports, more: &Reports) -> Reports
    requires { length reports.items + length more.now.items ≤ 64 }
    ensures { result.items ≡ reports.items ++ more.now.items }
{
    let mut reports = reports;
    let Ok(()) = reports.try_extend_from_slice(more.as_slice()) else {
        unreachable!()
    };
    reports
}
