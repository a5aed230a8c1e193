//! Why a run was not compared.

use replay::Unread;
use std::alloc::AllocError;
use thiserror::Error;

/// Why a run was not compared with its replay.
#[derive(Clone, Copy, Debug, PartialEq, Eq, Drop, Error)]
pub enum CheckFault {
    #[error("memory ran out")]
    NoMemory,
    #[error("the disk failed")]
    DiskFault,
    #[error("the remote failed")]
    RemoteFault,
    /// The source of a port failed.
    #[error("a source failed")]
    SourceFault,
    /// A port has 2^40 bytes or more.
    #[error("a source has too many bytes")]
    SourceTooLong,
    /// The order's file is none, an act of the order was answered that the disk failed, or the datastore has a damaged snapshot.
    #[error("no order that can be replayed on the datastore")]
    BadOrder,
}

impl From<AllocError> for CheckFault {
    ghost use Rattle.std.specs.Prelude.{◌≡◌};
    ghost use Rattle.run_check.specs.declared.fault.CheckFault.TheVariants.{NoMemory};

    ghost from_gives = { λ _ fault. fault ≡ NoMemory };

    fn from(_: AllocError) -> CheckFault {
        CheckFault::NoMemory
    }
}

impl From<Unread> for CheckFault {
    ghost use Rattle.std.specs.Prelude.{◌≡◌};
    ghost use Rattle.run_check.specs.Faults.{fault_of};

    ghost from_gives = { λ unread fault. fault ≡ fault_of unread };

    fn from(unread: Unread) -> CheckFault {
        match unread {
            Unread::Failed => CheckFault::SourceFault,
            Unread::TooLong => CheckFault::SourceTooLong,
            Unread::NoMemory => CheckFault::NoMemory,
        }
    }
}
