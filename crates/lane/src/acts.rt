//! What a lane asks of the core, and what it tells its sink.

ghost use Rattle.std.specs.Prelude.{◌<◌};
ghost use Rattle.wire_commands.specs.HasText.{ReplyHasText};
ghost use Rattle.shared_store.specs.Comes.{CanAct};
ghost use Rattle.store_history.specs.Acts.{IsWellFormed};
ghost use Rattle.lane.specs.Acting.{SeatDid, GivesTo, HasReply, MayTell};
ghost use Rattle.lane.specs.Causes.{SinkHasCauses};

use core_state::{Act, Answer, Core};
use disk_trait::Disk;
use port_traits::{Clock, Sink};
use shared_store::{Origin, Seat, Shared};
use std::alloc::Global;
use std::sync::Wait;
use store_model::Ending;
use wire_commands::Reply;

/// What an act, or the acts of a whole job, came to.
#[derive(Drop)]
pub struct Told {
    pub reply: Reply,
    /// Memory was wanting, and the lane ends after it.
    pub last: bool,
}

/// Does an act that has a reply in any case: neither a collector's nor a lane's end.
pub fn ask<R: Wait, D: Disk, E: Disk, C: Clock, N: Origin<Core<D, E, C>>>(
    rt: &R,
    alloc: Global,
    shared: &Shared<D, E, C, N>,
    seat: &mut Seat<D, E, C, N>,
    lane: u32,
    act: Act,
) -> Told
    requires lane { lane < 64 }
    requires can { CanAct shared.now.turn.id seat.old }
    requires formed { IsWellFormed act }
    requires replied { HasReply act }
    ensures did { SeatDid seat.old seat.new lane act result }
    ensures tells { MayTell act result }
    ensures text { ReplyHasText result.reply }
    ensures can { CanAct shared.now.turn.id seat.new }
{
    let Answer { reply, last, .. } = shared.act(rt, alloc, seat, lane, act);
    let Some(reply) = reply else {
        unreachable!();
    };
    Told { reply, last }
}

impl Told {
    /// Gives the reply to the sink. Some is how the commands come to an end.
    pub fn give<K: Sink>(&self, sink: &mut K, given: &mut u64) -> Option<Ending>
        requires { ReplyHasText self.now.reply }
        ensures gives { GivesTo K.Sink self.now sink.old sink.new given.old given.new result }
        ensures causes { SinkHasCauses K.Sink sink.old sink.new result }
    {
        match self.reply.put_counted(sink, given) {
            Err(_) => Some(Ending::SinkFault),
            Ok(()) if self.last => Some(Ending::NoMemory),
            Ok(()) => None,
        }
    }
}
