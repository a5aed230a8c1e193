//! What a thread acts with.

use crate::known::{Known, Origin};
use core_state::Core;
use disk_trait::Disk;
use port_traits::Clock;
use std::marker::Model;

/// A seat of the turn, with a note of how much of the history is shown to whom it acts for. Contracts see the turn's seat.
#[derive(Drop)]
pub struct Seat<D: Disk, E: Disk, C: Clock, N: Origin<Core<D, E, C>>> {
    pub(crate) inner: turn_lock::Seat<Known<D, E, C, N>>,
    /// The count of events up to the listing that was shown as its last act ended.
    pub(crate) note: u64,
}

impl<D: Disk, E: Disk, C: Clock, N: Origin<Core<D, E, C>>> Model for Seat<D, E, C, N> {
    ghost use Rattle.turn_lock.specs.State.{SeatState};
    ghost use Rattle.store_history.specs.declared.act.Event.{Event};
    ghost use Rattle.shared_store.specs.Views.{IsNoted};

    ghost Value = { SeatState Event };

    ghost view = { λ s. s.inner };

    ghost invariant = { λ s. IsNoted s.note s.inner };
}
