//! What the words ask for.

ghost use Rattle.std.specs.Prelude.{◌≡◌};
ghost use Rattle.command_line.specs.declared.plan.WordFault.TheVariants.{NoMemory};

use std::alloc::AllocError;
use thiserror::Error;

/// What the words ask for. Folders and files are paths, as they were given.
#[derive(Debug, Drop)]
pub enum Plan {
    /// The sessions are served at once on the datastore in the folder `root`, beside that in the folder `remote`, if any. The
    /// replies to each go to a file of its name with `.out` behind it, and the order of all acts to the file `order`, if any.
    Run {
        root: String,
        remote: Option<String>,
        order: Option<String>,
        sessions: Vec<String>,
    },
    /// `n` + 1 made sessions are served on the datastore in the folder `root`. `n` is from 1 to 63.
    Gen {
        root: String,
        n: u32,
    },
    /// The sessions, with their replies, are compared with what the plain store answers in the order of the file `order`, from
    /// `root` as it was before they were served.
    Check {
        root: String,
        order: String,
        remote: Option<String>,
        sessions: Vec<String>,
    },
}

/// Why the words give no plan.
#[derive(Clone, Copy, Debug, PartialEq, Eq, Drop, Error)]
pub enum WordFault {
    #[error("the words have no reading")]
    NoReading,
    #[error("out of memory")]
    NoMemory,
}

impl From<AllocError> for WordFault {
    ghost from_gives = { λ _ fault. fault ≡ NoMemory };

    fn from(_: AllocError) -> Self {
        WordFault::NoMemory
    }
}

impl Plan {
    ghost use Rattle.std.specs.Prelude.{◌≡◌};
    ghost use Rattle.command_line.specs.Plans.{ports_of, said_by};

    /// How many ports it takes: one for each session of a run, none to make sessions, and for a check one of the order's file and
    /// two for each session, its input and its replies.
    pub fn ports(&self) -> usize
        ensures { result ≡ ports_of (said_by self.now) }
    {
        match self {
            Plan::Run { sessions, .. } => sessions.len(),
            Plan::Gen { .. } => 0,
            Plan::Check { sessions, .. } => 1 + 2 * sessions.len(),
        }
    }
}
