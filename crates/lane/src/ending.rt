//! How a lane ends.

ghost use Rattle.std.specs.Prelude.{◌<◌, IfSome};
ghost use Rattle.wire_commands.specs.HasText.{ReplyHasText};
ghost use Rattle.shared_store.specs.Comes.{CanAct, HasCome};
ghost use Rattle.lane.specs.Causes.{EndHasCauses};
ghost use Rattle.lane.specs.Closing.{SeatCloses, SeatEnds};

use core_state::{Act, Core};
use disk_trait::Disk;
use port_traits::{Clock, Sink};
use shared_store::{Origin, Seat, Shared};
use std::alloc::Global;
use std::sync::Wait;
use store_model::Ending;
use store_types::FAULT_KIND;
use wire_commands::Reply;

/// How a lane's commands came to an end, and the reply that comes behind the lane's end.
#[derive(Drop)]
pub struct Last {
    pub ending: Ending,
    pub words: Option<Reply>,
}

/// Ends the lane's session. An end that met a fault of the disk comes again.
fn end<R: Wait, D: Disk, E: Disk, C: Clock, N: Origin<Core<D, E, C>>>(
    rt: &R,
    alloc: Global,
    shared: &Shared<D, E, C, N>,
    seat: &mut Seat<D, E, C, N>,
    lane: u32,
)
    requires lane { lane < 64 }
    requires can { CanAct shared.now.turn.id seat.old }
    ensures ends { SeatEnds seat.old seat.new lane }
    ensures comes { HasCome D.Disk E.Disk C.Clock N.is seat.new.seen }
    ensures can { CanAct shared.now.turn.id seat.new }
{
    let answer = shared.act(rt, alloc, seat, lane, Act::End);
    if answer.entry.kind == FAULT_KIND {
        let _ = shared.act(rt, alloc, seat, lane, Act::End);
    }
}

/// Ends the lane, and then gives the sink the last reply, where there is one.
pub fn close<R: Wait, D: Disk, E: Disk, C: Clock, N: Origin<Core<D, E, C>>, K: Sink>(
    rt: &R,
    alloc: Global,
    shared: &Shared<D, E, C, N>,
    seat: &mut Seat<D, E, C, N>,
    lane: u32,
    sink: &mut K,
    given: &mut u64,
    last: Last,
) -> Ending
    requires lane { lane < 64 }
    requires can { CanAct shared.now.turn.id seat.old }
    requires text { IfSome last.words ReplyHasText }
    ensures closes { SeatCloses K.Sink seat.old seat.new lane
        sink.old sink.new given.old given.new last result }
    ensures comes { HasCome D.Disk E.Disk C.Clock N.is seat.new.seen }
    ensures can { CanAct shared.now.turn.id seat.new }
    ensures causes { EndHasCauses K.Sink sink.old sink.new last.ending result }
{
    end(rt, alloc, shared, seat, lane);
    let Last { ending, words } = last;
    let Some(words) = words else {
        return ending;
    };
    match words.put_counted(sink, given) {
        Ok(()) => ending,
        Err(_) => Ending::SinkFault,
    }
}
