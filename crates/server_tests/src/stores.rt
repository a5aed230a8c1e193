//! An opened datastore behind a turn.

ghost use Rattle.std.specs.Prelude.{◌≡◌, ◌≤◌, ◌^◌, false, [], IfOk};
ghost use Rattle.turn_lock.specs.State.{IsNewTurn};

use crate::watch::{WatchHandle, WatchedClock};
use core_opening::open_on;
use core_state::CoreParts;
use disk_trait::MemoryDisk;
use shared_store::{Seat, Shared, View, WithViews};
use std::alloc::Global;
use std::marker::Brand;
use std::sync::Wait;
use store_types::Entry;

/// A datastore without a remote, on which seats act.
pub(crate) type Store = Shared<MemoryDisk, MemoryDisk, WatchedClock, Brand>;

pub(crate) type Place = Seat<MemoryDisk, MemoryDisk, WatchedClock, Brand>;

pub(crate) type StoreView<'a> = View<'a, MemoryDisk, MemoryDisk, WatchedClock, Brand>;

/// An empty datastore, and its first seat. The error owns something, so it is moved where it is handed on: what is not would be dropped there as
/// a whole, and a store is not dropped.
pub(crate) fn opened(
    rt: &impl Wait,
    alloc: Global,
    watch: WatchHandle,
) -> Result<(Store, Place), String>
    ensures { IfOk result (λ r. IsNewTurn [] (r.0.turn, r.1)) }
{
    let (store, seat, _) = opened_with(rt, alloc, watch, 0)?;
    Ok((store, seat))
}

/// An empty datastore, its first seat, and places for so many views.
pub(crate) fn opened_with(
    rt: &impl Wait,
    alloc: Global,
    watch: WatchHandle,
    views: usize,
) -> Result<WithViews<MemoryDisk, MemoryDisk, WatchedClock, Brand>, String>
    requires views { views ≤ 64 }
    ensures { IfOk result (λ r. IsNewTurn [] (r.0.turn, r.1)) }
{
    let clock = WatchedClock::over(watch);
    let disk = MemoryDisk::new(alloc);
    match open_on(alloc, disk, None::<MemoryDisk>, clock) {
        Ok(core) => match Shared::make_with_views(rt, alloc, core, views) {
            Ok(made) => Ok(made),
            Err(_core) => Err(String::new(alloc)),
        },
        Err(_) => Err(String::new(alloc)),
    }
}

/// The order of all acts, once the seats are one again.
pub(crate) fn order_of(rt: &impl Wait, store: Store, seat: Place) -> Vec<Entry>
    requires own { seat.turn ≡ store.turn.id }
    requires idle { seat.holding ≡ false }
    requires whole { seat.reach ≡ 2 ^ 32 }
{
    let CoreParts { order, .. } = store.close(rt, seat).parts();
    order
}
