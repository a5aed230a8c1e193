//! What a lane does by more than one act: all of it, from its command to its report.

ghost use denote.Param.Send.{IsSync};
ghost use Rattle.std.specs.Prelude.{◌≡◌, ◌<◌, true, IfOk, OnErr, OnOk};
ghost use Rattle.wire_commands.specs.HasText.{ReplyHasText};
ghost use Rattle.shared_store.specs.Comes.{CanAct};
ghost use Rattle.lane.specs.Doing.{SeatDoes};
ghost use Rattle.lane.specs.Tasks.{Stage, done, first_stage, taken, IsActOf, IsAnswerTo, IsDroppable, IsNextAct, IsOver, IsSound, IsTask, MayGoOn, MayWant, SeatStepsOn};

use crate::acts::{Told, ask};
use core_state::{Act, Answer, Core};
use disk_trait::Disk;
use port_traits::Clock;
use shared_store::{Origin, Seat, Shared};
use std::alloc::{AllocError, Global};
use std::sync::Wait;
use std::thread::Threads;
use turn_lock::{Replays, Turn};
use wire_commands::{Command, Reply};

/// A PRUNE, a VERIFY, a SYNC or a collection.
pub trait Task {
    /// How far it has come.
    ghost stage: { Self → Stage };

    /// The act for what it asks next, or want of memory for it. None is where it is over.
    fn next_act<T: Replays>(&self, alloc: Global, turn: &Turn<T>) -> Option<Act>
        requires { IsSound (stage self.now) }
        ensures { IsNextAct (stage self.now) result };

    /// Takes the answer to what it asked. Where there is no memory to keep it, the task is as before, and the answer is dropped.
    fn take<R: Threads + Sync>(
        &mut self,
        rt: &R,
        alloc: Global,
        answer: Answer,
    ) -> Result<(), AllocError>
        requires sync { IsSync R.row }
        requires answer { IsAnswerTo (stage self.old) answer }
        ensures ok { OnOk result (stage self.new ≡ taken (stage self.old) answer) }
        ensures err { OnErr result
            ((stage self.new ≡ stage self.old) × IsDroppable (stage self.old) answer) };

    /// What it reports. It takes no memory.
    fn report(self) -> Reply
        requires { IsOver (stage self) }
        ensures report { stage self ≡ done result }
        ensures text { ReplyHasText result };
}

/// Does the act for what is asked next, and gives the task the answer. Where memory is wanting for this, it is entered as an act
/// of its own, whose answer the task takes.
///
/// `is_last` becomes true where want of memory was entered at a place of the lane's reserve, there being no memory for another.
/// The lane then ends after the task's report.
fn step<R: Threads + Wait + Sync, D: Disk, E: Disk, C: Clock, N: Origin<Core<D, E, C>>, J: Task>(
    rt: &R,
    alloc: Global,
    shared: &Shared<D, E, C, N>,
    seat: &mut Seat<D, E, C, N>,
    lane: u32,
    task: &mut J,
    is_last: &mut bool,
    act: Act,
)
    requires lane { lane < 64 }
    requires next { IsActOf (J.stage task.old) act }
    requires on { MayGoOn (J.stage task.old) is_last.old }
    requires can { CanAct shared.now.turn.id seat.old }
    ensures stepped { SeatStepsOn seat.old seat.new lane
        (J.stage task.old) (J.stage task.new) is_last.old is_last.new }
    ensures goes { MayGoOn (J.stage task.new) is_last.new }
    ensures can { CanAct shared.now.turn.id seat.new }
{
    let answer = shared.act(rt, alloc, seat, lane, act);
    *is_last = answer.last | *is_last;
    let Err(_) = task.take(rt, alloc, answer) else {
        return;
    };
    let short = shared.act(rt, alloc, seat, lane, Act::Short);
    *is_last = short.last | *is_last;
    // a refusal is taken without memory
    let _ = task.take(rt, alloc, short);
}

/// Does the task of a command, to its report. Its steps are not told. Want of memory for one of them is entered,
/// and the task takes it for that step's answer; for its beginning, that is the report. Where the lane's reserve held it, the
/// task's session or collector is closed still, and the lane ends after the report.
pub fn do_task<
    R: Threads + Wait + Sync,
    D: Disk,
    E: Disk,
    C: Clock,
    N: Origin<Core<D, E, C>>,
    J: Task,
>(
    rt: &R,
    alloc: Global,
    shared: &Shared<D, E, C, N>,
    seat: &mut Seat<D, E, C, N>,
    lane: u32,
    command: &Command,
    begun: Result<J, AllocError>,
) -> Told
    requires lane { lane < 64 }
    requires can { CanAct shared.now.turn.id seat.old }
    requires task { IsTask command.now }
    requires first { IfOk begun (λ task. J.stage task ≡ first_stage command.now) }
    requires wants { OnErr begun (MayWant (first_stage command.now)) }
    ensures does { SeatDoes seat.old seat.new lane command.now result }
    ensures text { ReplyHasText result.reply }
    ensures can { CanAct shared.now.turn.id seat.new }
{
    let Ok(mut task) = begun else {
        return ask(rt, alloc, shared, seat, lane, Act::Short);
    };
    let mut last = false;
    for _ in rt.forever() {
        let Some(act) = task.next_act(alloc, &shared.turn) else {
            return Told {
                reply: task.report(),
                last,
            };
        };
        step(rt, alloc, shared, seat, lane, &mut task, &mut last, act);
    }
    unreachable!()
}
