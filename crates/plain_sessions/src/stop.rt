//! Why a step stops before its end.

ghost use Rattle.std.specs.Prelude.{◌≡◌};
ghost use Rattle.plain_sessions.specs.declared.stop.Stop.TheVariants.{NoMemory, Refused};

use std::alloc::{AllocError, AllocFailed};
use store_types::Refusal;

/// The command is refused, or memory is wanting.
#[derive(Drop)]
pub enum Stop {
    Refused(Refusal),
    NoMemory,
}

impl From<Refusal> for Stop {
    ghost from_gives = { λ refusal stop. stop ≡ Refused refusal };

    fn from(refusal: Refusal) -> Self {
        Stop::Refused(refusal)
    }
}

impl From<AllocError> for Stop {
    ghost from_gives = { λ _ stop. stop ≡ NoMemory };

    fn from(_: AllocError) -> Self {
        Stop::NoMemory
    }
}

impl<T: Drop> From<AllocFailed<T>> for Stop {
    ghost from_gives = { λ _ stop. stop ≡ NoMemory };

    fn from(_: AllocFailed<T>) -> Self {
        Stop::NoMemory
    }
}
