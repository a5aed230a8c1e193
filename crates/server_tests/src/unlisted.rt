//! A FINISH and a FORGET where a growth is refused, as `rt try --test --fail-alloc N` does: that of the listing behind them too, which is made before
//! them.

ghost use Rattle.std.specs.Prelude.{◌≡◌};
ghost use Rattle.store_history.specs.Acts.{IsWellFormed, check_blob};
ghost use Rattle.shared_store.specs.Comes.{CanAct};
ghost use Rattle.server_tests.specs.Seats.{ComesBackIdle};

use crate::asserts::{must, same_numbers};
use crate::rounds::forget_act;
use crate::stores::{Place as Seat, Store, StoreView, opened_with};
use crate::watch::Watch;
use blob_codec::decode;
use core_state::{Act, CoreParts};
use std::alloc::Global;
use std::process::Abort;
use std::sync::Wait;
use store_types::{Bytes, Entry, FAULT_KIND, MEMORY_KIND, Refusal};
use wire_commands::Command;

const SNAPSHOT: &[u8] = b"host/a/2020-01-15T06:00:01Z";

/// The blob of its manifest, without files.
const MANIFEST: &[u8] =
    b"B\xab8\x07\xbe\x83p\xa1\xef\x90\\\xfc{\"backup-id\":\"a\",\"backup-time\":1579068001,\"backup-type\":\"host\",\"files\":[]}";

/// Where there is no memory for an act, the act that tells so.
fn open_act(alloc: Global) -> Act
    ensures { IsWellFormed result }
{
    match Bytes::from_slice(alloc, SNAPSHOT) {
        Ok(snapshot) => Act::Plain(Command::OpenWriter { snapshot }),
        Err(_) => Act::Short,
    }
}

fn check(blob: Bytes) -> Result<Bytes, Refusal>
    ensures { result ≡ check_blob blob }
{
    match decode(blob.as_slice()) {
        Ok(_) => Ok(blob),
        Err(cause) => Err(Refusal::BadBlob(cause)),
    }
}

fn blob_act(name: Bytes, blob: Bytes) -> Act
    ensures { IsWellFormed result }
{
    let checked = check(blob);
    Act::Blob { name, checked }
}

fn manifest_act(alloc: Global) -> Act
    ensures { IsWellFormed result }
{
    match (
        Bytes::from_slice(alloc, b"index.json.blob"),
        Bytes::from_slice(alloc, MANIFEST),
    ) {
        (Ok(name), Ok(blob)) => blob_act(name, blob),
        _ => Act::Short,
    }
}

/// How many snapshots a view shows. One list may lack memory, the next then does not.
fn shown(rt: &impl Abort, alloc: Global, view: &mut StoreView<'_>) -> u64
    ensures { view.new.store.now ≡ view.old.store.now }
{
    if let Ok(rows) = view.list(alloc, None) {
        return rows.as_slice().len() as u64;
    }
    must(rt, view.list(alloc, None)).as_slice().len() as u64
}

/// Acts, and tells how many snapshots a view shows that then learns of the seat.
fn act_and_look<R: Wait + Abort>(
    rt: &R,
    alloc: Global,
    store: &Store,
    seat: &mut Seat,
    view: &mut StoreView<'_>,
    act: Act,
) -> u64
    requires can { CanAct store.now.turn.id seat.old }
    requires own { seat.old.turn ≡ view.old.store.now.turn.id }
    requires formed { IsWellFormed act }
    ensures back { ComesBackIdle seat.old seat.new }
    ensures store { view.new.store.now ≡ view.old.store.now }
{
    let _ = store.act(rt, alloc, seat, 0, act);
    view.learn(seat);
    shown(rt, alloc, view)
}

/// OPEN_WRITER, BLOB of the manifest, FINISH twice and FORGET twice. How many snapshots are shown behind each of the four.
fn finish_and_forget<R: Wait + Abort>(
    rt: &R,
    alloc: Global,
    store: &Store,
    seat: &mut Seat,
    view: &mut StoreView<'_>,
) -> [u64; 4]
    requires can { CanAct store.now.turn.id seat.old }
    requires own { seat.old.turn ≡ view.old.store.now.turn.id }
    ensures { ComesBackIdle seat.old seat.new }
{
    let _ = store.act(rt, alloc, seat, 0, open_act(alloc));
    let _ = store.act(rt, alloc, seat, 0, manifest_act(alloc));
    let finish = Act::Plain(Command::Finish);
    let one = act_and_look(rt, alloc, store, seat, view, finish);
    let finish = Act::Plain(Command::Finish);
    let two = act_and_look(rt, alloc, store, seat, view, finish);
    let forget = forget_act(alloc, 0, 1);
    let three = act_and_look(rt, alloc, store, seat, view, forget);
    let forget = forget_act(alloc, 0, 1);
    [
        one,
        two,
        three,
        act_and_look(rt, alloc, store, seat, view, forget),
    ]
}

/// The six acts' kinds. None where OPEN_WRITER or BLOB lacked memory, or where the disk could not record a call: then each later act fails too.
fn kinds_of(order: &[Entry]) -> Option<[u8; 6]> {
    let [open, blob, one, two, three, four] = order else {
        return None;
    };
    if open.kind == MEMORY_KIND || blob.kind == MEMORY_KIND || four.kind == FAULT_KIND {
        return None;
    }
    Some([
        open.kind, blob.kind, one.kind, two.kind, three.kind, four.kind,
    ])
}

/// What is to be shown, where the acts with these kinds lacked memory. One at most does, and the same act behind it does not.
fn wanted(kinds: &[u8; 6]) -> [u64; 4] {
    let is_finished = kinds[2] != MEMORY_KIND;
    let is_there = kinds[4] == MEMORY_KIND;
    [u64::from(is_finished), 1, u64::from(is_there), 0]
}

/// Whether an act that lacked memory did more on the disk than read once.
fn is_more(kind: u8, before: u64, behind: u64) -> bool {
    kind == MEMORY_KIND && behind > before.saturating_add(1)
}

/// Whether one of the four did.
fn did_more(kinds: &[u8; 6], calls: &[u64]) -> bool {
    let [_, blob, one, two, three, four] = calls else {
        return true;
    };
    is_more(kinds[2], *blob, *one)
        || is_more(kinds[3], *one, *two)
        || is_more(kinds[4], *two, *three)
        || is_more(kinds[5], *three, *four)
}

/// An act that memory is wanting for changes nothing: neither what is shown nor what the same act behind it does. The kinds are printed. Where there
/// is no memory to open the datastore or to begin the snapshot, nothing is looked for.
#[test]
fn a_listing_lacks_memory(rt: HostRuntime) {
    let alloc = rt.alloc();
    let Ok(watch) = Watch::of(alloc, false) else {
        return;
    };
    let (store, mut seat, mut places) = match opened_with(&rt, alloc, watch, 1) {
        Ok(made) => made,
        Err(_not_opened) => return,
    };
    let mut view = must(&rt, places.pop().ok_or("no place")).view(&store);
    let found = finish_and_forget(&rt, alloc, &store, &mut seat, &mut view);
    drop(view);
    let CoreParts { order, calls, .. } = store.close(&rt, seat).parts();
    same_numbers(&rt, &[order.len() as u64], &[6]);
    if let Some(kinds) = kinds_of(&order) {
        same_numbers(&rt, &found, &wanted(&kinds));
        same_numbers(&rt, &[u64::from(did_more(&kinds, &calls))], &[0]);
        must(&rt, println!(rt; "kinds {kinds:?}"));
    }
}
