//! A clock that is read within each act, so that a test sees who has the turn.

ghost use Rattle.std.specs.Prelude.{None};

use port_traits::Clock;
use std::alloc::{AllocError, Global};
use std::sync::Arc;
use std::sync::atomic::Ordering::SeqCst;
use std::sync::atomic::{AtomicBool, AtomicU64};
use std::thread::yield_now;

/// How often a thread looks for what another does, before it gives up.
pub(crate) const LOOKS: u32 = 100_000_000;

/// How long an act that was let go keeps the turn: another thread asks for it meanwhile.
const YIELDS: u32 = 10_000;

/// A watch that a clock has too.
pub(crate) type WatchHandle = Arc<Watch, Global>;

/// What a thread that has the turn and one that has not tell each other.
#[derive(Drop)]
pub(crate) struct Watch {
    /// How many acts have read the clock.
    begun: AtomicU64,
    /// How many read it now.
    inside: AtomicU64,
    /// How often it was read while it was read.
    overlaps: AtomicU64,
    /// The first act may go on.
    is_free: AtomicBool,
}

impl Watch {
    /// Where it holds, the first act keeps the turn until it is let go.
    pub(crate) fn of(alloc: Global, holds: bool) -> Result<WatchHandle, AllocError> {
        let watch = Watch {
            begun: AtomicU64::new(0),
            inside: AtomicU64::new(0),
            overlaps: AtomicU64::new(0),
            is_free: AtomicBool::new(!holds),
        };
        Ok(Arc::new(alloc, watch)?)
    }

    /// Waits until an act has the turn.
    pub(crate) fn wait_for_act(&self) {
        for _ in 0..LOOKS {
            if self.begun.load(SeqCst) > 0 {
                return;
            }
            yield_now();
        }
    }

    pub(crate) fn let_go(&self) {
        self.is_free.store(true, SeqCst);
    }

    /// How often two acts were in the turn at once.
    pub(crate) fn overlaps(&self) -> u64 {
        self.overlaps.load(SeqCst)
    }

    /// An act reads the clock.
    fn read(&self) {
        if self.inside.fetch_add(1, SeqCst) > 0 {
            self.overlaps.fetch_add(1, SeqCst);
        }
        if self.begun.fetch_add(1, SeqCst) == 0 && !self.is_free.load(SeqCst) {
            self.keep_turn();
        }
        self.inside.fetch_sub(1, SeqCst);
    }

    fn keep_turn(&self) {
        for _ in 0..LOOKS {
            if self.is_free.load(SeqCst) {
                break;
            }
            yield_now();
        }
        for _ in 0..YIELDS {
            yield_now();
        }
    }
}

/// It stands.
#[derive(Drop)]
pub(crate) struct WatchedClock {
    watch: WatchHandle,
}

impl WatchedClock {
    pub(crate) fn over(watch: WatchHandle) -> WatchedClock {
        WatchedClock { watch }
    }
}

impl Clock for WatchedClock {
    ghost readings = { λ _. None };

    fn now(&mut self) -> u64 {
        self.watch.read();
        0
    }
}
