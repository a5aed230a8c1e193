//! The loop of a lane.

ghost use Rattle.std.specs.Prelude.{◌≡◌, ◌≢◌, ◌≤◌, ◌<◌, ◌^◌, IfSome, IfNone};
ghost use Rattle.seat_history.specs.Entered.{OwnRises};
ghost use Rattle.wire_commands.specs.HasText.{ReplyHasText};
ghost use Rattle.shared_store.specs.Comes.{CanAct, HasCome};
ghost use Rattle.lane.specs.Acting.{SeatAnswersShort};
ghost use Rattle.lane.specs.Causes.{LaneHasCauses, SinkHasCauses};
ghost use Rattle.lane.specs.Doing.{SeatDoes};
ghost use Rattle.lane.specs.Fronts.{IsCommandAhead};
ghost use Rattle.lane.specs.RanAlone.{SeatRan};
ghost use Rattle.lane.specs.Turns.{HasEnded, IsFurther, SeatGoesOn, TurnHasCauses, broken_at};
ghost use Rattle.wire_frames.specs.Frames.{short, cut};

use crate::acts::{Told, ask};
use crate::collecting::Collection;
use crate::commands::{Ahead, act_of, is_gc, is_job, read_front};
use crate::ending::{Last, close};
use crate::input::{Input, Taken};
use crate::task::do_task;
use core_state::{Act, Core};
use disk_trait::Disk;
use job_steps::Job;
use port_traits::{Clock, Gate, Sink, Source};
use pull_steps::Pull;
use shared_store::{Origin, Seat, Shared};
use std::alloc::Global;
use std::sync::Wait;
use std::thread::Threads;
use store_history::{LaneReport, Port};
use store_model::Ending;
use store_types::Refusal;
use wire_commands::{Command, Reply};

/// What a lane has done so far.
#[derive(Drop)]
struct Progress {
    input: Input,
    /// How many bytes its sink was given.
    given: u64,
    /// How many commands it has done.
    number: u64,
}

/// Serves one command session, from its first byte to its end, while others act on the store too.
pub fn run_lane<
    R: Threads + Wait + Sync,
    D: Disk,
    E: Disk,
    C: Clock,
    N: Origin<Core<D, E, C>>,
    S: Source,
    K: Sink,
    G: Gate,
>(
    rt: &R,
    alloc: Global,
    shared: &Shared<D, E, C, N>,
    seat: Seat<D, E, C, N>,
    lane: u32,
    port: &mut Port<S, K>,
    gate: &G,
) -> (Seat<D, E, C, N>, LaneReport)
    requires lane { lane < 64 }
    requires can { CanAct shared.now.turn.id seat }
    requires rises { OwnRises seat }
    // it has seen and entered more, and is else as it was
    ensures seat { result.0 ≡ record seat { seen = result.0.seen; mine = result.0.mine } }
    ensures rises { OwnRises result.0 }
    ensures ran { SeatRan S.Source K.Sink seat result.0 lane port.old port.new result.1 }
    // the core behind the turn came to all that the seat has seen
    ensures comes { HasCome D.Disk E.Disk C.Clock N.is result.0.seen }
    ensures causes { LaneHasCauses S.Source K.Sink port.old port.new result.1 }
    ensures budget { result.1.taken ≤ 2 ^ 40 }
{
    let mut seat = seat;
    let report = run_with(rt, alloc, shared, &mut seat, lane, port, gate);
    (seat, report)
}

/// The same, with a seat that is lent.
pub fn run_with<
    R: Threads + Wait + Sync,
    D: Disk,
    E: Disk,
    C: Clock,
    N: Origin<Core<D, E, C>>,
    S: Source,
    K: Sink,
    G: Gate,
>(
    rt: &R,
    alloc: Global,
    shared: &Shared<D, E, C, N>,
    seat: &mut Seat<D, E, C, N>,
    lane: u32,
    port: &mut Port<S, K>,
    gate: &G,
) -> LaneReport
    requires lane { lane < 64 }
    requires can { CanAct shared.now.turn.id seat.old }
    requires rises { OwnRises seat.old }
    ensures seat { seat.new ≡ record seat.old { seen = seat.new.seen; mine = seat.new.mine } }
    ensures rises { OwnRises seat.new }
    ensures ran { SeatRan S.Source K.Sink seat.old seat.new lane port.old port.new result }
    ensures comes { HasCome D.Disk E.Disk C.Clock N.is seat.new.seen }
    ensures causes { LaneHasCauses S.Source K.Sink port.old port.new result }
    ensures budget { result.taken ≤ 2 ^ 40 }
{
    let mut progress = Progress {
        input: Input::new(alloc),
        given: 0,
        number: 0,
    };
    loop {
        if let Some(last) = turn(rt, alloc, shared, seat, lane, port, gate, &mut progress) {
            let given = &mut progress.given;
            let ending = close(rt, alloc, shared, seat, lane, &mut port.sink, given, last);
            return LaneReport {
                taken: progress.input.taken,
                given: progress.given,
                ending,
            };
        }
    }
}

/// Answers what stands next, or takes more of the input. Some is how the commands came to an end.
fn turn<
    R: Threads + Wait + Sync,
    D: Disk,
    E: Disk,
    C: Clock,
    N: Origin<Core<D, E, C>>,
    S: Source,
    K: Sink,
    G: Gate,
>(
    rt: &R,
    alloc: Global,
    shared: &Shared<D, E, C, N>,
    seat: &mut Seat<D, E, C, N>,
    lane: u32,
    port: &mut Port<S, K>,
    gate: &G,
    progress: &mut Progress,
) -> Option<Last>
    requires lane { lane < 64 }
    requires can { CanAct shared.now.turn.id seat.old }
    ensures goes { SeatGoesOn S.Source K.Sink seat.old seat.new lane
        port.old port.new progress.old progress.new result }
    ensures text { IfSome result (λ last. IfSome last.words ReplyHasText) }
    ensures causes { TurnHasCauses S.Source K.Sink port.old port.new progress.new result }
    ensures further { IfNone result (IsFurther progress.old.input progress.new.input) }
    ensures can { CanAct shared.now.turn.id seat.new }
{
    match read_front(alloc, &progress.input.cutter) {
        Ahead::Part => more(rt, alloc, shared, seat, lane, port, progress),
        Ahead::Command(command) => serve(
            rt, alloc, shared, seat, lane, port, gate, progress, command,
        ),
        Ahead::Bye => Some(Last {
            ending: Ending::Clean,
            words: Some(Reply::Done),
        }),
        Ahead::Broken(refusal) => Some(broken(progress.input.front, refusal)),
        Ahead::NoMemory => {
            let ending = short(
                rt,
                alloc,
                shared,
                seat,
                lane,
                &mut port.sink,
                &mut progress.given,
            );
            Some(untold(ending))
        }
    }
}

fn untold(ending: Ending) -> Last
    ensures { result ≡ record { ending = ending; words = None } }
{
    Last {
        ending,
        words: None,
    }
}

fn broken(place: u64, refusal: Refusal) -> Last
    ensures { result ≡ broken_at place refusal }
{
    Last {
        ending: Ending::Broken { place },
        words: Some(Reply::Refused(refusal)),
    }
}

/// What ends a lane whose input has ended.
fn ended(input: &Input) -> Last
    ensures ending { HasEnded input.now result }
    ensures text { IfSome result.words ReplyHasText }
{
    if input.front == input.taken {
        untold(Ending::Clean)
    } else {
        let offset = input.front;
        broken(offset, Refusal::BadFrame { offset })
    }
}

/// Takes more of the input.
fn more<R: Wait, D: Disk, E: Disk, C: Clock, N: Origin<Core<D, E, C>>, S: Source, K: Sink>(
    rt: &R,
    alloc: Global,
    shared: &Shared<D, E, C, N>,
    seat: &mut Seat<D, E, C, N>,
    lane: u32,
    port: &mut Port<S, K>,
    progress: &mut Progress,
) -> Option<Last>
    requires lane { lane < 64 }
    requires can { CanAct shared.now.turn.id seat.old }
    requires part { cut progress.old.input.cutter.bytes ≡ short }
    ensures goes { SeatGoesOn S.Source K.Sink seat.old seat.new lane
        port.old port.new progress.old progress.new result }
    ensures text { IfSome result (λ last. IfSome last.words ReplyHasText) }
    ensures causes { TurnHasCauses S.Source K.Sink port.old port.new progress.new result }
    ensures further { IfNone result (IsFurther progress.old.input progress.new.input) }
    ensures can { CanAct shared.now.turn.id seat.new }
{
    match progress.input.take(&mut port.source) {
        Taken::More => None,
        Taken::End => Some(ended(&progress.input)),
        Taken::Fault => Some(untold(Ending::SourceFault)),
        Taken::TooLong => Some(untold(Ending::SourceTooLong)),
        Taken::NoMemory => {
            let ending = short(
                rt,
                alloc,
                shared,
                seat,
                lane,
                &mut port.sink,
                &mut progress.given,
            );
            Some(untold(ending))
        }
    }
}

/// Does a command, gives its reply to the sink, and moves past it. Some is how the commands come to an end.
fn serve<
    R: Threads + Wait + Sync,
    D: Disk,
    E: Disk,
    C: Clock,
    N: Origin<Core<D, E, C>>,
    S: Source,
    K: Sink,
    G: Gate,
>(
    rt: &R,
    alloc: Global,
    shared: &Shared<D, E, C, N>,
    seat: &mut Seat<D, E, C, N>,
    lane: u32,
    port: &mut Port<S, K>,
    gate: &G,
    progress: &mut Progress,
    command: Command,
) -> Option<Last>
    requires lane { lane < 64 }
    requires can { CanAct shared.now.turn.id seat.old }
    requires ahead { IsCommandAhead progress.old.input.cutter command }
    ensures goes { SeatGoesOn S.Source K.Sink seat.old seat.new lane
        port.old port.new progress.old progress.new result }
    ensures text { IfSome result (λ last. IfSome last.words ReplyHasText) }
    ensures causes { TurnHasCauses S.Source K.Sink port.old port.new progress.new result }
    ensures further { IfNone result (IsFurther progress.old.input progress.new.input) }
    ensures can { CanAct shared.now.turn.id seat.new }
{
    gate.before(lane, progress.number);
    let told = do_command(rt, alloc, shared, seat, lane, command);
    let ending = told.give(&mut port.sink, &mut progress.given);
    drop(told);
    gate.after(lane, progress.number);
    progress.number = progress.number.saturating_add(1);
    progress.input.advance();
    Some(untold(ending?))
}

/// Does a command, or the whole job or collection of one.
fn do_command<R: Threads + Wait + Sync, D: Disk, E: Disk, C: Clock, N: Origin<Core<D, E, C>>>(
    rt: &R,
    alloc: Global,
    shared: &Shared<D, E, C, N>,
    seat: &mut Seat<D, E, C, N>,
    lane: u32,
    command: Command,
) -> Told
    requires lane { lane < 64 }
    requires can { CanAct shared.now.turn.id seat.old }
    requires other { command ≢ Command.Bye }
    ensures does { SeatDoes seat.old seat.new lane command result }
    ensures text { ReplyHasText result.reply }
    ensures can { CanAct shared.now.turn.id seat.new }
{
    if is_job(&command) {
        let job = Job::start(alloc, &command);
        let told = do_task(rt, alloc, shared, seat, lane, &command, job);
        drop(command);
        return told;
    }
    if is_gc(&command) {
        let gc = Ok(Collection::new());
        let told = do_task(rt, alloc, shared, seat, lane, &command, gc);
        drop(command);
        return told;
    }
    if let Command::Sync { group } = &command {
        let pull = Pull::start(alloc, group.as_slice());
        let told = do_task(rt, alloc, shared, seat, lane, &command, pull);
        drop(command);
        return told;
    }
    ask(rt, alloc, shared, seat, lane, act_of(&shared.turn, command))
}

/// Answers want of memory, which ends the commands.
fn short<R: Wait, D: Disk, E: Disk, C: Clock, N: Origin<Core<D, E, C>>, K: Sink>(
    rt: &R,
    alloc: Global,
    shared: &Shared<D, E, C, N>,
    seat: &mut Seat<D, E, C, N>,
    lane: u32,
    sink: &mut K,
    given: &mut u64,
) -> Ending
    requires lane { lane < 64 }
    requires can { CanAct shared.now.turn.id seat.old }
    ensures answers { SeatAnswersShort K.Sink seat.old seat.new lane
        sink.old sink.new given.old given.new result }
    ensures causes { SinkHasCauses K.Sink sink.old sink.new (Some result) }
    ensures can { CanAct shared.now.turn.id seat.new }
{
    let told = ask(rt, alloc, shared, seat, lane, Act::Short);
    told.give(sink, given).unwrap_or(Ending::NoMemory)
}
