//! Views of the listing, which never wait.

ghost use Rattle.std.specs.Prelude.{◌≡◌, ◌≤◌, ◌<◌};
ghost use denote.Param.Send.{IsSync};
ghost use Rattle.seat_history.specs.Entered.{OwnRises};
ghost use Rattle.shared_store.specs.Comes.{CanAct};
ghost use Rattle.server_tests.specs.Seats.{ComesBackIdle};

use crate::asserts::{must, same_numbers};
use crate::rounds::{backup_of, forget_act, time_of};
use crate::seats::list_act;
use crate::stores::{Place as Seat, Store, StoreView, opened_with, order_of};
use crate::talks::{Talk, session};
use crate::watch::Watch;
use core_state::Act;
use listing_views::Listed;
use port_traits::FreeGate;
use std::alloc::Global;
use std::process::Abort;
use std::sync::Wait;
use std::thread::{Threads, join_mut};
use wire_commands::Command;

/// How many snapshots each of two seats finishes, one after another, and forgets.
const ROUNDS: u32 = 2_500;

/// How many snapshots of a host are told, and when the last was taken.
fn of_host(rows: &[Listed], host: u8) -> (u64, u64) {
    let mut count: u64 = 0;
    let mut last = 0;
    for row in rows {
        if row.key.id.as_slice() == [host].as_slice() {
            count = count.saturating_add(1);
            last = row.key.time;
        }
    }
    (count, last)
}

/// What a view tells of both hosts.
fn told(rt: &impl Abort, alloc: Global, view: &mut StoreView<'_>) -> [(u64, u64); 2]
    ensures { view.new.store.now ≡ view.old.store.now }
{
    let rows = must(rt, view.list(alloc, None));
    [
        of_host(rows.as_slice(), b'a'),
        of_host(rows.as_slice(), b'b'),
    ]
}

/// How many snapshots a view tells of.
fn count_of(rt: &impl Abort, alloc: Global, view: &mut StoreView<'_>) -> u64
    ensures { view.new.store.now ≡ view.old.store.now }
{
    must(rt, view.list(alloc, None)).as_slice().len() as u64
}

/// Backs up a snapshot of a host, on the lane of its number.
fn back_up(
    rt: &(impl Threads + Wait + Abort + Sync),
    alloc: Global,
    store: &Store,
    seat: &mut Seat,
    host: usize,
    number: u32,
)
    requires can { CanAct store.now.turn.id seat.old }
    requires rises { OwnRises seat.old }
    requires host { host < 2 }
    ensures back { ComesBackIdle seat.old seat.new }
    ensures rises { OwnRises seat.new }
{
    let sent = must(rt, backup_of(alloc, host, number));
    let mut talk = must(rt, Talk::of(alloc, &sent, b""));
    session(rt, alloc, store, seat, host as u32, &mut talk, &FreeGate);
}

/// A view learns of a seat that is split off this one.
fn learn_of_half(store: &Store, seat: &mut Seat, view: &mut StoreView<'_>)
    requires can { CanAct store.now.turn.id seat.old }
    requires reach { 2 ≤ seat.old.reach }
    requires own { seat.old.turn ≡ view.old.store.now.turn.id }
    ensures { ComesBackIdle seat.old seat.new }
{
    let half = store.split_off(seat);
    view.learn(&half);
    store.absorb(seat, half);
}

/// A view shows what it learnt of: a snapshot that was finished, and that it was forgotten. What a lane without a writer is refused changes
/// nothing, nor what the view is to show. One that learnt nothing may lack the snapshot, but does not lose it while it stands; of a seat that was
/// split off it learns what the other learnt.
#[test]
fn a_view_shows_what_it_learnt(rt: HostRuntime) {
    let alloc = rt.alloc();
    let watch = must(&rt, Watch::of(alloc, false));
    let (store, mut seat, mut places) = must(&rt, opened_with(&rt, alloc, watch, 2));
    let mut view = must(&rt, places.pop().ok_or("no place")).view(&store);
    let mut other = must(&rt, places.pop().ok_or("no place")).view(&store);
    let none = count_of(&rt, alloc, &mut view);
    back_up(&rt, alloc, &store, &mut seat, 0, 1);
    let first = count_of(&rt, alloc, &mut other);
    view.learn(&seat);
    let one = [count_of(&rt, alloc, &mut view), view.learnt];
    drop(store.act(&rt, alloc, &mut seat, 1, Act::Plain(Command::Finish)));
    drop(store.act(&rt, alloc, &mut seat, 1, list_act(alloc)));
    view.learn(&seat);
    let still = [count_of(&rt, alloc, &mut view), view.learnt];
    let later = count_of(&rt, alloc, &mut other);
    drop(store.act(&rt, alloc, &mut seat, 1, forget_act(alloc, 0, 1)));
    view.learn(&seat);
    let gone = count_of(&rt, alloc, &mut view);
    same_numbers(&rt, &[none, gone], &[0, 0]);
    same_numbers(&rt, &one, &[1, 3]);
    same_numbers(&rt, &still, &[1, 3]);
    let has_kept = first <= later && later <= 1;
    learn_of_half(&store, &mut seat, &mut other);
    let has_learnt = other.learnt == view.learnt;
    same_numbers(&rt, &[u64::from(has_kept), u64::from(has_learnt)], &[1, 1]);
    drop((view, other));
    let _ = order_of(&rt, store, seat);
}

/// A seat finishes snapshots of a host, one after another, and forgets each once the next is there. A view that learns from it shows so at once;
/// of the other host, whose last snapshot is never forgotten, it never shows an earlier one than before.
fn finish_and_forget<R: Threads + Wait + Abort + Sync>(
    rt: &R,
    alloc: Global,
    store: &Store,
    seat: &mut Seat,
    host: usize,
    view: &mut StoreView<'_>,
)
    requires sync { IsSync R.row }
    requires can { CanAct store.now.turn.id seat.old }
    requires rises { OwnRises seat.old }
    requires host { host < 2 }
    requires own { seat.old.turn ≡ view.old.store.now.turn.id }
    ensures { ComesBackIdle seat.old seat.new }
{
    let mut last = 0;
    let mut is_so = true;
    for number in 1..=ROUNDS {
        back_up(rt, alloc, store, seat, host, number);
        view.learn(seat);
        let found = told(rt, alloc, view);
        let forget = forget_act(alloc, host, number.saturating_sub(1));
        drop(store.act(rt, alloc, seat, host as u32, forget));
        view.learn(seat);
        let then = told(rt, alloc, view);
        is_so &= found[host].1 == time_of(number) && then[host] == (1, time_of(number));
        is_so &= last <= found[1 - host].1 && found[1 - host].1 <= then[1 - host].1;
        last = then[1 - host].1;
    }
    same_numbers(rt, &[u64::from(is_so)], &[1]);
}

/// Two seats do so at once, each in a thread of its own and with a view of its own.
fn two_finish_and_forget<R: Threads + Wait + Abort + Sync>(
    rt: &R,
    alloc: Global,
    store: &Store,
    seat: &mut Seat,
    one: &mut StoreView<'_>,
    other: &mut StoreView<'_>,
)
    requires can { CanAct store.now.turn.id seat.old }
    requires rises { OwnRises seat.old }
    requires reach { 2 ≤ seat.old.reach }
    requires own { (seat.old.turn ≡ one.old.store.now.turn.id)
        × (seat.old.turn ≡ other.old.store.now.turn.id) }
    ensures { ComesBackIdle seat.old seat.new }
{
    let mut right = store.split_off(seat);
    let ((), ()) = join_mut(
        rt,
        &mut || -> ()
            requires { CanAct store.now.turn.id seat.now × OwnRises seat.now × IsSync R.row
                × (seat.now.turn ≡ one.now.store.now.turn.id) }
            ensures { ComesBackIdle seat.entry.now seat.exit.now }
        { finish_and_forget(rt, alloc, store, seat, 0, one) },
        &mut || -> ()
            requires { CanAct store.now.turn.id right × OwnRises right × IsSync R.row
                × (right.turn ≡ other.now.store.now.turn.id) }
            ensures { ComesBackIdle right.entry right.exit }
        { finish_and_forget(rt, alloc, store, &mut right, 1, other) },
    );
    store.absorb(seat, right);
}

/// No view goes back, whatever the other seat does meanwhile; and after all, 64 views show the last of each host once they have learnt.
#[test]
fn views_follow_two_seats(rt: HostRuntime) {
    let alloc = rt.alloc();
    let watch = must(&rt, Watch::of(alloc, false));
    let (store, mut seat, mut places) = must(&rt, opened_with(&rt, alloc, watch, 64));
    let mut one = must(&rt, places.pop().ok_or("no place")).view(&store);
    let mut other = must(&rt, places.pop().ok_or("no place")).view(&store);
    two_finish_and_forget(&rt, alloc, &store, &mut seat, &mut one, &mut other);
    for place in places {
        let mut view = place.view(&store);
        view.learn(&seat);
        same_numbers(&rt, &[count_of(&rt, alloc, &mut view)], &[2]);
    }
    drop((one, other));
    let _ = order_of(&rt, store, seat);
}
