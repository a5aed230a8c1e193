//! What stands next in a lane's input, and the act that it asks for.

ghost use Rattle.std.specs.Prelude.{◌≡◌, Err};
ghost use Rattle.wire_frames.specs.Frames.{Tail, cut, too_long};
ghost use Rattle.store_model.specs.ArchiveSteps.{check_chunk as piece_of};
ghost use Rattle.store_history.specs.Acts.{check_blob, checked_by, act_of_command};
ghost use Rattle.lane.specs.Fronts.{IsAhead, IsAheadAs, TestsChunk, ahead_of, is_gc, is_job};

use crate::hashing::hash_of;
use blob_codec::decode;
use core_state::Act;
use std::alloc::Global;
use store_types::{Bytes, Digest32, Refusal};
use turn_lock::{Replays, Turn};
use wire_commands::Command;
use wire_frames::Cutter;

/// What stands at the front of what was taken of an input.
#[derive(Drop)]
pub enum Ahead {
    /// A part of a frame, or nothing.
    Part,
    /// A command other than BYE.
    Command(Command),
    Bye,
    /// Something that isn't a command, with its refusal.
    Broken(Refusal),
    /// There is no memory for what it is.
    NoMemory,
}

/// What stands at the front.
pub fn read_front(alloc: Global, cutter: &Cutter) -> Ahead
    ensures { IsAhead cutter.now result }
{
    match cutter.next() {
        Err(long) => too_long(long.length),
        Ok(None) => Ahead::Part,
        Ok(Some(frame)) => read_body(alloc, frame.offset, frame.body),
    }
}

/// A frame whose length is over the limit.
fn too_long(length: u32) -> Ahead
    ensures { (t : Tail) → cut t.bytes ≡ too_long length → IsAhead t result }
{
    Ahead::Broken(Refusal::TooLong { length })
}

/// What the body of a frame at this offset is.
fn read_body(alloc: Global, offset: u64, body: &[u8]) -> Ahead
    ensures { IsAheadAs offset body.now result }
{
    match Command::read(alloc, body) {
        Err(_) => Ahead::NoMemory,
        Ok(Err(_)) => Ahead::Broken(Refusal::BadFrame { offset }),
        Ok(Ok(command)) => apart(command),
    }
}

/// A command, with BYE told apart.
fn apart(command: Command) -> Ahead
    ensures { result ≡ ahead_of command }
{
    match command {
        Command::Bye => Ahead::Bye,
        command => Ahead::Command(command),
    }
}

/// The bytes of an upload, where they are a blob, or the refusal of their check.
fn check(blob: Bytes) -> Result<Bytes, Refusal>
    ensures { result ≡ check_blob blob }
{
    match decode(blob.as_slice()) {
        Ok(_) => Ok(blob),
        Err(cause) => Err(Refusal::BadBlob(cause)),
    }
}

/// The first refusal of a chunk's upload: the bytes are no blob, the piece in them is empty, or it has another digest.
fn test_chunk<T: Replays>(turn: &Turn<T>, digest: Digest32, blob: &[u8]) -> Result<(), Refusal>
    ensures { TestsChunk digest blob.now result }
{
    let piece = match decode(blob) {
        Ok(piece) => piece,
        Err(cause) => return Err(Refusal::BadBlob(cause)),
    };
    if piece.is_empty() {
        return Err(Refusal::WrongSize { place: 0, size: 0 });
    }
    let found = hash_of(turn, piece);
    if found != digest {
        return Err(Refusal::WrongDigest { found });
    }
    Ok(())
}

/// The bytes of a chunk's upload, where they are the blob of a piece with this digest, or the refusal of their check.
fn check_chunk<T: Replays>(turn: &Turn<T>, digest: Digest32, blob: Bytes) -> Result<Bytes, Refusal>
    ensures { result ≡ checked_by blob (piece_of digest blob) }
{
    match test_chunk(turn, digest, blob.as_slice()) {
        Ok(()) => Ok(blob),
        Err(refusal) => Err(refusal),
    }
}

/// The command is a PRUNE or a VERIFY, whose job has steps.
pub fn is_job(command: &Command) -> bool
    ensures { result ≡ is_job command.now }
{
    matches!(command, Command::Prune { .. } | Command::Verify { .. })
}

/// The command is a GC.
pub fn is_gc(command: &Command) -> bool
    ensures { result ≡ is_gc command.now }
{
    matches!(command, Command::Gc)
}

/// The act for a command, or for the first step of a job's. An upload is checked here, and not in the act. Its bytes are
/// moved, not copied. While it is hashed, other lanes run.
pub fn act_of<T: Replays>(turn: &Turn<T>, command: Command) -> Act
    ensures { result ≡ act_of_command command }
{
    match command {
        Command::Blob { file, blob } => Act::Blob {
            name: file,
            checked: check(blob),
        },
        Command::Chunk { digest, blob } => Act::Chunk {
            digest,
            checked: check_chunk(turn, digest, blob),
        },
        Command::Prune { group, keep, dry } => Act::JobGroup(Command::Prune { group, keep, dry }),
        command => Act::Plain(command),
    }
}
