//! Why a line does not hold.

use disk_trait::{DiskError, Failed};
use std::alloc::{AllocError, AllocFailed};
use std::fmt::{self, Display, Formatter, Write};

/// Why a line does not hold.
#[derive(Drop)]
pub enum Differs {
    /// There is no memory, or a call of a disk in memory failed.
    NoMemory,
    /// The line has no reading, or none where it stands.
    Unread,
    /// This was found, and not what the line says.
    Found(String),
    /// This was told in the place of the reply that this line wants.
    Told(usize, String),
    /// What this line says does not come about.
    Unmet(usize),
    /// This lane told this, which is not what the plain copy tells in the same order.
    Otherwise(usize, String),
    /// The plain copy cannot do the entry of the order with this number.
    Misfit(u64),
    /// This differs where the session fails or stops at this call.
    At(u64, String),
}

impl From<AllocError> for Differs {
    fn from(_: AllocError) -> Differs {
        Differs::NoMemory
    }
}

impl<T: Drop> From<AllocFailed<T>> for Differs {
    fn from(_: AllocFailed<T>) -> Differs {
        Differs::NoMemory
    }
}

impl From<Failed> for Differs {
    fn from(_: Failed) -> Differs {
        Differs::NoMemory
    }
}

impl From<DiskError> for Differs {
    fn from(_: DiskError) -> Differs {
        Differs::NoMemory
    }
}

impl Display for Differs {
    fn fmt<W: Write>(&self, f: &mut Formatter<W>) -> fmt::Result {
        match self {
            Differs::NoMemory => f.write_str("there is no memory"),
            Differs::Unread => f.write_str("it has no reading here"),
            Differs::Found(text) => write!(f, "found {text}"),
            Differs::Told(line, text) => write!(f, "line {line}, told {text}"),
            Differs::Unmet(line) => write!(f, "line {line} does not come about"),
            Differs::Otherwise(lane, text) => write!(f, "lane {lane}, told {text}"),
            Differs::Misfit(entry) => write!(f, "entry {entry} has no place in the order"),
            Differs::At(call, text) => write!(f, "call {call}: {text}"),
        }
    }
}
