//! Acts on a core, as tables have them.

ghost use Rattle.std.specs.Prelude.{◌≡◌, true, IfOk, IfSome, IsOk};
ghost use Rattle.wire_commands.specs.HasText.{ReplyHasText};
ghost use Rattle.store_model.specs.ArchiveSteps.{check_chunk};
ghost use Rattle.store_history.specs.Acts.{IsChecked, IsWellFormed};
ghost use Rattle.core_laws.specs.Playing.{ArePlayable, IsPlayable};

use crate::asserts::must;
use crate::fixtures::TestCore;
use blob_codec::decode;
use core_state::{Act, Answer};
use port_traits::MemSink;
use sha2::{Digest, Sha256};
use shared_store::apply;
use std::alloc::{AllocError, Global};
use std::process::Abort;
use store_types::{Bytes, Digest32, FileName, Refusal};
use wire_commands::{Command, Reply};

/// An act of a lane, or what is done or found on the disk beside it.
#[derive(Clone, Copy)]
pub(crate) enum Step {
    /// A command, as it is sent. Of a PRUNE it is the first step.
    Send(&'static [u8]),
    /// A VERIFY's read of a part of a file, and of the chunk at an entry of an index.
    ReadFile(&'static [u8], u64),
    ReadChunk(&'static [u8], u32),
    /// A collector opens.
    Start,
    /// The next act of the lane's collector.
    Pass,
    Short,
    End,
    /// These bytes stand at the path, which is told as done.
    Put(&'static str, &'static [u8]),
    /// What stands at the path is removed: done, or no file.
    Remove(&'static str),
    /// A file of so many bytes stands at the path: done, or no file.
    Holds(&'static str, u64),
    /// So many names on the disk have this front: done, or no file.
    Names(&'static str, usize),
    /// The last act made so many calls of the disk: done, or no file.
    Calls(u64),
}

/// An act of a lane, with the frame of its reply, and the kind of its entry.
pub(crate) type Row = (u32, Step, &'static [u8], u8);

pub(crate) type Rows = &'static [Row];

/// The check of an upload.
fn checked(text: Bytes) -> Result<Bytes, Refusal>
    ensures { IsChecked result }
{
    match decode(text.as_slice()) {
        Ok(_) => Ok(text),
        Err(fault) => Err(Refusal::BadBlob(fault)),
    }
}

/// Whether the bytes are the blob of a piece with this digest.
fn is_blob_of(digest: Digest32, blob: &[u8]) -> bool
    ensures { result ≡ true → IsOk (check_chunk digest blob.now) }
{
    let piece = match decode(blob) {
        Ok(piece) => piece,
        Err(_) => return false,
    };
    if piece.is_empty() {
        return false;
    }
    let found = Digest32(Sha256::digest(piece));
    if found != digest {
        return false;
    }
    true
}

/// The upload of a chunk that has its digest.
fn act_of_chunk(rt: &impl Abort, digest: Digest32, blob: Bytes) -> Act
    ensures { IsWellFormed result }
{
    assert!(rt; is_blob_of(digest, blob.as_slice()));
    let checked = Ok(blob);
    Act::Chunk { digest, checked }
}

/// The act of a command, where it is one of its own or begins a PRUNE.
fn act_of_command(rt: &impl Abort, command: Command) -> Act
    ensures { IsWellFormed result }
{
    match command {
        Command::Chunk { digest, blob } => act_of_chunk(rt, digest, blob),
        Command::Blob { file, blob } => Act::Blob {
            name: file,
            checked: checked(blob),
        },
        Command::Prune { group, keep, dry } => Act::JobGroup(Command::Prune { group, keep, dry }),
        Command::Verify { .. } | Command::Sync { .. } | Command::Gc | Command::Bye => {
            panic!(rt; "no act")
        }
        command => Act::Plain(command),
    }
}

fn act_sent(rt: &impl Abort, alloc: Global, body: &[u8]) -> Act
    ensures { IsWellFormed result }
{
    act_of_command(rt, must(rt, must(rt, Command::read(alloc, body))))
}

fn named(rt: &impl Abort, alloc: Global, name: &[u8]) -> FileName {
    must(
        rt,
        must(rt, FileName::check(alloc, name)).ok().ok_or("no name"),
    )
}

fn act_of(rt: &impl Abort, alloc: Global, step: Step) -> Act
    ensures { IsWellFormed result }
{
    match step {
        Step::Send(body) => act_sent(rt, alloc, body),
        Step::ReadFile(name, offset) => {
            let name = named(rt, alloc, name);
            Act::ReadFile { name, offset }
        }
        Step::ReadChunk(name, entry) => {
            let name = named(rt, alloc, name);
            Act::ReadChunk { name, entry }
        }
        Step::Start => Act::Start,
        Step::Pass => Act::Step,
        Step::Short => Act::Short,
        Step::End => Act::End,
        _ => panic!(rt; "no act"),
    }
}

/// The act of a row, and its lane.
fn asked(rt: &impl Abort, alloc: Global, row: &Row) -> (u32, Act)
    ensures { IsPlayable result }
{
    let (lane, step, _, _) = *row;
    assert!(rt; lane < 64);
    (lane, act_of(rt, alloc, step))
}

pub(crate) fn acts_of(
    rt: &impl Abort,
    alloc: Global,
    rows: &[Row],
) -> Result<Vec<(u32, Act)>, AllocError>
    ensures { IfOk result (λ acts. ArePlayable acts.items) }
{
    let mut acts = Vec::new(alloc);
    for row in rows {
        acts.push(asked(rt, alloc, row))?;
    }
    Ok(acts)
}

/// What an act was answered: its entry's lane and kind, the entry's number, whether it was the last, the frame of its reply, and the
/// answer as it is shown.
#[derive(Drop)]
pub(crate) struct Told {
    pub(crate) lane: u32,
    pub(crate) kind: u8,
    pub(crate) place: u64,
    pub(crate) last: bool,
    pub(crate) frame: MemSink,
    pub(crate) shown: String,
}

/// The frame of a reply, if any.
fn frame(rt: &impl Abort, alloc: Global, reply: &Option<Reply>) -> MemSink
    requires { IfSome reply.now ReplyHasText }
{
    let mut sink = MemSink::new(alloc, Vec::new(alloc));
    if let Some(reply) = reply {
        must(rt, reply.put(&mut sink));
    }
    sink
}

/// An answer as it is shown.
pub(crate) fn text_of(rt: &impl Abort, alloc: Global, answer: &Answer) -> String {
    must(rt, format!(in alloc; "{answer:?}"))
}

fn told_by(rt: &impl Abort, alloc: Global, answer: &Answer) -> Told
    requires { IfSome answer.now.reply ReplyHasText }
{
    let sink = frame(rt, alloc, &answer.reply);
    let shown = text_of(rt, alloc, answer);
    Told {
        lane: answer.entry.lane,
        kind: answer.entry.kind,
        place: answer.place,
        last: answer.last,
        frame: sink,
        shown,
    }
}

/// Does an act, where there is room.
pub(crate) fn do_act(
    rt: &impl Abort,
    core: &mut TestCore,
    alloc: Global,
    lane: u32,
    step: Step,
) -> Told {
    let act = act_of(rt, alloc, step);
    assert!(rt; lane < 64 && core.room(lane, &act));
    let answer = apply(core, alloc, lane, act);
    told_by(rt, alloc, &answer)
}
