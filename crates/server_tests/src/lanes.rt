//! Sessions on lanes of one store, one after another.

use crate::asserts::must;
use crate::stores::{opened, order_of};
use crate::talks::{Talk, session};
use crate::watch::Watch;
use core_state::Act;
use port_traits::FreeGate;
use store_types::Bytes;
use wire_commands::Command;

/// Two snapshots, the second over the first; PRUNE to the last one, and GROUP.
const TWO_SENT: &[u8] =
    b"\x1d\0\0\0\x0a\x1bhost/a/2020-01-15T06:30:03Zg\0\0\0\x11\x0findex.json.blobB\xab8\x07\xbe\x83p\xa1\xb2\x94\x08E{\"backup-id\":\"a\",\"backup-time\":1579069803,\"backup-type\":\"host\",\"files\":[]}\x01\0\0\0\x12\x1d\0\0\0\x0a\x1bhost/a/2020-01-15T06:30:04Zg\0\0\0\x11\x0findex.json.blobB\xab8\x07\xbe\x83p\xa10#\x87\xba{\"backup-id\":\"a\",\"backup-time\":1579069804,\"backup-type\":\"host\",\"files\":[]}\x01\0\0\0\x12";

const TWO_TOLD: &[u8] =
    b"\x02\0\0\0\0\0\x01\0\0\0\0\x01\0\0\0\0\x1d\0\0\0\0\x1bhost/a/2020-01-15T06:30:03Z\x01\0\0\0\0\x01\0\0\0\0";

const PRUNED: &[u8] = b"\x15\0\0\0!\x06host/a\x01\0\0\0\0\0\0\0\0\0\0\0\0\x08\0\0\0(\x06host/a";

/// The older is held, and both are there; it is removed, and the newer is there alone.
const HELD: &[u8] =
    b"=\0\0\0\0\x02\0\x1bhost/a/2020-01-15T06:30:04Z\x01\x1bhost/a/2020-01-15T06:30:03Z\x02;\0\0\0\0\x02\0\x1bhost/a/2020-01-15T06:30:03Z\x1bhost/a/2020-01-15T06:30:04Z";

const REMOVED: &[u8] =
    b"=\0\0\0\0\x02\0\x1bhost/a/2020-01-15T06:30:04Z\x01\x1bhost/a/2020-01-15T06:30:03Z\0\x1f\0\0\0\0\x01\0\x1bhost/a/2020-01-15T06:30:04Z";

/// A PRUNE of which another lane reads what is to go, and again as it has been closed.
#[test]
fn held_snapshots_stay(rt: HostRuntime) {
    let alloc = rt.alloc();
    let mut backups = must(&rt, Talk::of(alloc, TWO_SENT, TWO_TOLD));
    let mut held = must(&rt, Talk::of(alloc, PRUNED, HELD));
    let mut removed = must(&rt, Talk::of(alloc, PRUNED, REMOVED));
    let snapshot = must(
        &rt,
        Bytes::from_slice(alloc, b"host/a/2020-01-15T06:30:03Z"),
    );
    let (store, mut seat) = must(&rt, opened(&rt, alloc, must(&rt, Watch::of(alloc, false))));
    session(&rt, alloc, &store, &mut seat, 3, &mut backups, &FreeGate);
    let open = Act::Plain(Command::OpenReader { snapshot });
    drop(store.act(&rt, alloc, &mut seat, 5, open));
    session(&rt, alloc, &store, &mut seat, 4, &mut held, &FreeGate);
    let close = Act::Plain(Command::CloseReader);
    drop(store.act(&rt, alloc, &mut seat, 5, close));
    session(&rt, alloc, &store, &mut seat, 2, &mut removed, &FreeGate);
    let _ = order_of(&rt, store, seat);
    for talk in [&backups, &held, &removed] {
        talk.assert_told(&rt);
    }
}
