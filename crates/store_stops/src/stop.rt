//! Why a call stops before its end.

ghost use Rattle.std.specs.Prelude.{◌≡◌};
ghost use Rattle.store_stops.specs.Stops.{stop_of};
ghost use Rattle.store_stops.specs.declared.stop.Stop.TheVariants.{DiskFailed, NoMemory, Refused};

use disk_trait::{DiskError, Failed};
use std::alloc::{AllocError, AllocFailed};
use store_types::Refusal;

/// The call is refused, memory is wanting, or the disk failed.
#[derive(Debug, PartialEq, Eq, Drop)]
pub enum Stop {
    /// Never with [`Refusal::NoMemory`]: [`answered`](crate::answered) hands that up.
    Refused(Refusal),
    NoMemory,
    DiskFailed,
}

impl From<Refusal> for Stop {
    ghost from_gives = { λ refusal stop. stop ≡ Refused refusal };

    fn from(refusal: Refusal) -> Self {
        Stop::Refused(refusal)
    }
}

impl From<AllocError> for Stop {
    ghost from_gives = { λ _ stop. stop ≡ NoMemory };

    fn from(_: AllocError) -> Self {
        Stop::NoMemory
    }
}

impl<T: Drop> From<AllocFailed<T>> for Stop {
    ghost from_gives = { λ _ stop. stop ≡ NoMemory };

    fn from(_: AllocFailed<T>) -> Self {
        Stop::NoMemory
    }
}

impl From<DiskError> for Stop {
    ghost from_gives = { λ e stop. stop ≡ stop_of e };

    fn from(e: DiskError) -> Self {
        match e {
            DiskError::NoMemory => Stop::NoMemory,
            DiskError::Failed => Stop::DiskFailed,
        }
    }
}

impl From<Failed> for Stop {
    ghost from_gives = { λ _ stop. stop ≡ DiskFailed };

    fn from(_: Failed) -> Self {
        Stop::DiskFailed
    }
}
