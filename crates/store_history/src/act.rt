//! What a lane asks of the core, and what it is answered.

ghost use Rattle.std.specs.Prelude.{◌≡◌};
ghost use Rattle.store_history.specs.Acts.{command_family, family_of};

use store_types::{Bytes, Digest32, Entry, FileName, Refusal};
use wire_commands::{Command, Reply};

/// One act of a lane.
#[derive(Debug, Drop)]
pub enum Act {
    /// A command that is no upload, no job's and no BYE.
    Plain(Command),
    /// The first step of a PRUNE, which carries the job's command.
    JobGroup(Command),
    /// An upload of a blob: its bytes, whose check found data in them, or the refusal of that check.
    Blob {
        name: Bytes,
        checked: Result<Bytes, Refusal>,
    },
    /// An upload of a chunk under its digest: its blob's bytes, in which the check found a piece with that digest, or the
    /// refusal of that check.
    Chunk {
        digest: Digest32,
        checked: Result<Bytes, Refusal>,
    },
    /// A part of a file of the lane's reader, from an offset in bytes, for a VERIFY.
    ReadFile {
        name: FileName,
        offset: u64,
    },
    /// The chunk at this entry of an index of the lane's reader, for a VERIFY, which checks it.
    ReadChunk {
        name: FileName,
        entry: u32,
    },
    /// The first step of a SYNC, which carries the job's command: what the remote has of its group.
    RemoteList(Command),
    /// A part of a file of one of the remote's snapshots, from an offset in bytes.
    RemoteFile {
        /// The snapshot, as its text.
        snapshot: Bytes,
        name: FileName,
        offset: u64,
    },
    /// The remote's chunk with this digest, which is checked.
    RemoteChunk {
        digest: Digest32,
    },
    /// The lane's collector opens.
    Start,
    /// The next act of the lane's collector: a mark, a visit, or its end.
    Step,
    /// Want of memory outside the turn.
    Short,
    /// The lane's end.
    End,
}

/// Which part of the core does an act.
#[derive(Clone, Copy, Debug)]
pub enum Family {
    /// A reader's command, or a read of a VERIFY.
    Reads,
    /// A writer's command.
    Writes,
    /// A command on the store as a whole, or the first step of a PRUNE.
    Manages,
    /// An act of a collector.
    Collects,
    /// A read of the remote.
    Reaches,
    /// Want of memory outside the turn.
    Wants,
    /// The lane's end.
    Ends,
}

/// The family of a command, as an act of its own.
fn command_family(command: &Command) -> Family
    ensures { result ≡ command_family command.now }
{
    match command {
        Command::OpenReader { .. }
        | Command::Download { .. }
        | Command::GetChunk { .. }
        | Command::Range { .. }
        | Command::CloseReader => Family::Reads,
        Command::List { .. }
        | Command::Files { .. }
        | Command::Forget { .. }
        | Command::Group { .. } => Family::Manages,
        _ => Family::Writes,
    }
}

impl Act {
    /// Which part of the core does it.
    pub fn family(&self) -> Family
        ensures { result ≡ family_of self.now }
    {
        match self {
            Act::Plain(command) => command_family(command),
            Act::Blob { .. } | Act::Chunk { .. } => Family::Writes,
            Act::ReadFile { .. } | Act::ReadChunk { .. } => Family::Reads,
            Act::JobGroup(_) => Family::Manages,
            Act::Start | Act::Step => Family::Collects,
            Act::RemoteList(_) | Act::RemoteFile { .. } | Act::RemoteChunk { .. } => {
                Family::Reaches
            }
            Act::Short => Family::Wants,
            Act::End => Family::Ends,
        }
    }
}

/// What an act is answered.
#[derive(Debug, Drop)]
pub struct Answer {
    /// None for the start of a collector, a mark, a visit and a lane's end, where they met no fault.
    pub reply: Option<Reply>,
    pub entry: Entry,
    /// The entry's number in the order, from 0.
    pub place: u64,
    /// This is want of memory, and its entry was the reserve's. The lane ends after it.
    pub last: bool,
}

/// One act of a history. No value of it is made.
#[derive(Debug, Drop)]
pub struct Event {
    pub act: Act,
    pub answer: Answer,
    /// The disk's count of calls as it was answered.
    pub calls: u64,
}
