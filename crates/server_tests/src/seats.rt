//! Two seats of one store, in two threads.

ghost use Rattle.std.specs.Prelude.{◌≤◌, ◌<◌};
ghost use denote.Param.Send.{IsSync};
ghost use Rattle.store_history.specs.Acts.{IsWellFormed};
ghost use Rattle.shared_store.specs.Comes.{CanAct};
ghost use Rattle.server_tests.specs.Seats.{ComesBackIdle};

use crate::asserts::{must, same_numbers};
use crate::stores::{Place, Store, opened, order_of};
use crate::watch::{LOOKS, Watch, WatchHandle};
use core_state::Act;
use std::alloc::Global;
use std::process::Abort;
use std::sync::{Arc, Wait};
use std::thread::{Threads, join_mut, yield_now};
use store_types::{Bytes, Entry};
use wire_commands::Command;

/// When a thread acts.
#[derive(Clone, Copy)]
enum When {
    /// Once there are so many entries.
    Behind(u64),
    /// While the other thread has the turn, whose act is not entered yet.
    Within,
}

/// LIST of the first snapshots. Where there is no memory for it, the act that tells so, which takes none.
pub(crate) fn list_act(alloc: Global) -> Act
    ensures { IsWellFormed result }
{
    match Bytes::from_slice(alloc, b"") {
        Ok(after) => Act::Plain(Command::List { after }),
        Err(_) => Act::Short,
    }
}

/// Looks until there are so many entries.
fn look(store: &Store, seat: &mut Place, count: u64) -> u64
    requires { CanAct store.now.turn.id seat.old }
    ensures { ComesBackIdle seat.old seat.new }
{
    let mut front = store.front(seat);
    for _ in 0..LOOKS {
        if front >= count {
            break;
        }
        yield_now();
        front = store.front(seat);
    }
    front
}

/// The front as it is time to act.
fn wait(store: &Store, seat: &mut Place, when: When, watch: &WatchHandle) -> u64
    requires { CanAct store.now.turn.id seat.old }
    ensures { ComesBackIdle seat.old seat.new }
{
    match when {
        When::Behind(count) => look(store, seat, count),
        When::Within => {
            watch.wait_for_act();
            let front = look(store, seat, 0);
            watch.let_go();
            front
        }
    }
}

/// The fronts before an act, right behind it, and in the end: the act has its entry, and in the end both have.
fn assert_fronts(rt: &impl Abort, when: When, before: u64, own: u64, last: u64) {
    let is_so = match when {
        When::Behind(count) => before >= count && own > before,
        When::Within => before == 0 && own == 2,
    };
    same_numbers(rt, &[u64::from(is_so), last], &[1, 2]);
}

/// Acts once, and then looks until both have acted.
fn act_and_look<R: Wait + Abort>(
    rt: &R,
    alloc: Global,
    store: &Store,
    seat: &mut Place,
    lane: u32,
    when: When,
    watch: &WatchHandle,
)
    requires lane { lane < 64 }
    requires can { CanAct store.now.turn.id seat.old }
    ensures { ComesBackIdle seat.old seat.new }
{
    let before = wait(store, seat, when, watch);
    drop(store.act(rt, alloc, seat, lane, list_act(alloc)));
    let own = store.front(seat);
    let last = look(store, seat, 2);
    assert_fronts(rt, when, before, own, last);
}

/// Two threads do so at once, on lanes 0 and 1.
fn act_in_two<R: Threads + Wait + Abort + Sync>(
    rt: &R,
    alloc: Global,
    store: &Store,
    seat: &mut Place,
    times: &(When, When),
    watch: &WatchHandle,
)
    requires can { CanAct store.now.turn.id seat.old }
    requires reach { 2 ≤ seat.old.reach }
    ensures { ComesBackIdle seat.old seat.new }
{
    let (one, other) = *times;
    let mut right = store.split_off(seat);
    let ((), ()) = join_mut(
        rt,
        &mut || -> ()
            requires { CanAct store.now.turn.id seat.now × IsSync R.row }
            ensures { ComesBackIdle seat.entry.now seat.exit.now }
        { act_and_look(rt, alloc, store, seat, 0, one, watch) },
        &mut || -> ()
            requires { CanAct store.now.turn.id right × IsSync R.row }
            ensures { ComesBackIdle right.entry right.exit }
        { act_and_look(rt, alloc, store, &mut right, 1, other, watch) },
    );
    store.absorb(seat, right);
}

/// One of them waits for a look of the other.
fn is_held(times: &(When, When)) -> bool {
    match times {
        (When::Within, _) | (_, When::Within) => true,
        (When::Behind(_), When::Behind(_)) => false,
    }
}

/// The lanes and kinds of an order's two entries.
fn pair_of(order: &[Entry]) -> Option<[u64; 4]> {
    let [one, other] = order else {
        return None;
    };
    Some([
        u64::from(one.lane),
        u64::from(one.kind),
        u64::from(other.lane),
        u64::from(other.kind),
    ])
}

/// The lanes and kinds of two entries, of which each thread sees its own at once and both in the end. A front waits for nobody, an act waits for
/// the turn, and no two acts have it at once.
fn try_two(
    rt: &(impl Threads + Wait + Abort + Sync),
    alloc: Global,
    times: &(When, When),
) -> [u64; 4] {
    let watch = must(rt, Watch::of(alloc, is_held(times)));
    let (store, mut seat) = must(rt, opened(rt, alloc, must(rt, Arc::try_clone(&watch))));
    act_in_two(rt, alloc, &store, &mut seat, times, &watch);
    let order = order_of(rt, store, seat);
    same_numbers(rt, &[watch.overlaps()], &[0]);
    must(rt, pair_of(&order).ok_or("not two entries"))
}

/// When each thread acts, and whose lane is then first; none where either may be.
static ORDERS: [((When, When), Option<u64>); 5] = [
    ((When::Behind(0), When::Behind(0)), None),
    ((When::Behind(0), When::Behind(1)), Some(0)),
    ((When::Behind(1), When::Behind(0)), Some(1)),
    ((When::Behind(0), When::Within), Some(0)),
    ((When::Within, When::Behind(0)), Some(1)),
];

#[test]
fn two_seats_see_each_other(rt: HostRuntime) {
    for (times, first) in &ORDERS {
        let [one, kind, other, its_kind] = try_two(&rt, rt.alloc(), times);
        let first = first.unwrap_or(one);
        same_numbers(&rt, &[one, kind, its_kind, one ^ other], &[first, 0, 0, 1]);
    }
}

/// Where a growth is refused, both threads act all the same, and the act that lacked memory is entered with kind 2; neither the turn nor a front
/// takes any. The kinds are printed. It fails where the datastore is not opened, or there is no turn.
#[test]
fn two_seats_lack_memory(rt: HostRuntime) {
    let times = (When::Behind(0), When::Behind(1));
    let pair = try_two(&rt, rt.alloc(), &times);
    let (kind, other) = (pair[1], pair[3]);
    must(&rt, println!(rt; "kinds {kind} and {other}"));
}
