//! What stands next on a lane.

ghost use Rattle.std.specs.Prelude.{◌≡◌, IfOk};
ghost use Rattle.wire_frames.specs.Frames.{cut as cut_of};
ghost use Rattle.wire_commands.specs.Inputs.{front};
ghost use Rattle.store_model.specs.Lanes.{front_next, command_next as next_by};
ghost use Rattle.plain_lanes.specs.Nexts.{shown_front, shown_left, shown_next, is_sync_next, left_of_collect, IsFitNext};

use crate::job::Asking;
use std::alloc::{AllocError, Global};
use store_types::{Bytes, Refusal};
use wire_commands::Command;
use wire_frames::BODY_LIMIT;

/// What stands at the front of some bytes.
#[derive(Drop)]
enum Front<'a> {
    /// Neither a length above the limit nor a whole frame.
    Short,
    TooLong(u32),
    /// A frame with this body, and what is left behind it.
    Whole(&'a [u8], &'a [u8]),
}

/// A command that asks for no step of a job.
#[derive(Drop)]
pub enum Ahead {
    /// A command that is no job's.
    Plain(Command),
    /// A SYNC of this group that has not begun.
    Sync(Bytes),
    /// GC.
    Collect,
}

/// What stands next on a lane: a job's step or a command, with what is left of the input behind it, or the end.
#[derive(Drop)]
pub enum Next<'a> {
    /// A job, with nothing done or as it stood open.
    Job(Asking, &'a [u8]),
    Command(Ahead, &'a [u8]),
    Bye,
    /// Something that is no command, and how it is refused.
    Broken(Refusal),
    /// Nothing is left.
    End,
}

impl<'a> Next<'a> {
    /// A SYNC, begun or not.
    pub(crate) fn is_sync(&self) -> bool
        ensures { result ≡ is_sync_next (shown_next self.now) }
    {
        match self {
            Next::Job(asking, _) => asking.is_sync(),
            Next::Command(ahead, _) => matches!(ahead, Ahead::Sync(_)),
            _ => false,
        }
    }

    /// What is left of the input behind a GC, where this is one.
    pub fn behind_collect(&self) -> Option<&'a [u8]>
        ensures { shown_left result ≡ left_of_collect (shown_next self.now) }
    {
        match self {
            Next::Command(Ahead::Collect, left) => Some(*left),
            _ => None,
        }
    }
}

#[tactic(auto, unfolding(wire_frames::specs::Frames::cut))]
fn cut(bytes: &[u8]) -> Front<'_>
    ensures { shown_front result ≡ cut_of bytes.now }
{
    let Some((header, rest)) = bytes.split_first_chunk::<4>() else {
        return Front::Short;
    };
    let length = u32::from_le_bytes(*header);
    if length > BODY_LIMIT {
        return Front::TooLong(length);
    }
    let length = length as usize;
    if rest.len() < length {
        return Front::Short;
    }
    let (body, rest) = rest.split_at(length);
    Front::Whole(body, rest)
}

fn command_next(command: Command, left: &[u8]) -> Next<'_>
    ensures next { shown_next result ≡ next_by command left.now }
    ensures fits { IsFitNext result }
{
    match command {
        Command::Bye => Next::Bye,
        Command::Gc => Next::Command(Ahead::Collect, left),
        Command::Sync { group } => Next::Command(Ahead::Sync(group), left),
        other => match Asking::start(other) {
            Ok(asking) => Next::Job(asking, left),
            Err(command) => Next::Command(Ahead::Plain(command), left),
        },
    }
}

/// What stands at the front of the rest of an input, at this offset. A frame with no command is
/// refused with the offset.
#[tactic(auto, unfolding(store_model::specs::Lanes::front_next, wire_commands::specs::Inputs::front))]
pub fn next_at(alloc: Global, offset: u64, left: &[u8]) -> Result<Next<'_>, AllocError>
    ensures next { IfOk result (λ n. shown_next n ≡ front_next offset (front left.now)) }
    ensures fits { IfOk result IsFitNext }
{
    if left.is_empty() {
        return Ok(Next::End);
    }
    let (body, rest) = match cut(left) {
        Front::Short => return Ok(Next::Broken(Refusal::BadFrame { offset })),
        Front::TooLong(length) => return Ok(Next::Broken(Refusal::TooLong { length })),
        Front::Whole(body, rest) => (body, rest),
    };
    match Command::read(alloc, body)? {
        Ok(command) => Ok(command_next(command, rest)),
        Err(_) => Ok(Next::Broken(Refusal::BadFrame { offset })),
    }
}
