//! The commands.

ghost use Rattle.std.specs.Prelude.{◌≡◌, ◌≤◌, ◌++◌, length, IfOk};
ghost use Rattle.std.specs.Result.{result_ok};
ghost use Rattle.wire_commands.specs.HasText.{HasText, FitsCommand, SpellsCommand};
ghost use Rattle.std.specs.Option.{option_map};
ghost use Rattle.wire_commands.specs.Fields.{WantsMemory};
ghost use Rattle.wire_commands.specs.CommandText.{entries_of, with_entries, command_text, command_of, fields_of, nothing_more, one_text, text_and_offset, new_fixed, chunk, append, close_index, blob, get_chunk, range, prune, keep_at, keep_text};

use crate::entries::{ENTRY_SIZE, entries_in, push_entries};
use crate::fields::{
    byte_at, copied, digest_at, flag_at, only_text, text_at, u16_at, u32_at, u64_at, whole,
};
use crate::head::{Head, Spelling};
use std::alloc::{AllocError, Global};
use store_types::{AppendEntry, Bytes, Digest32, Keep, Rows};
use thiserror::Error;
use wire_frames::BODY_LIMIT;

/// A command. Its texts are as they were sent, in their grammar or not.
#[derive(Debug, Drop)]
pub enum Command {
    /// 10: a writer of the snapshot.
    OpenWriter {
        snapshot: Bytes,
    },
    /// 11: a part of a file of the writer's base, from an offset in bytes. The pieces of an index may be
    /// named from then on.
    Previous {
        file: Bytes,
        offset: u64,
    },
    /// 12: a fixed index is begun, as the file of this name, for an archive of so many bytes, in pieces
    /// of so many bytes.
    NewFixed {
        file: Bytes,
        size: u64,
        chunk_size: u64,
    },
    /// 13: a dynamic index is begun, as the file of this name.
    NewDynamic {
        file: Bytes,
    },
    /// 14: an upload of a piece, as a blob, under its digest.
    Chunk {
        digest: Digest32,
        blob: Bytes,
    },
    /// 15: pieces behind those of the index of this number.
    Append {
        number: u8,
        entries: Rows<AppendEntry>,
    },
    /// 16: the index of this number is complete: how many pieces it has, the size of the archive in
    /// bytes, and the index's checksum.
    CloseIndex {
        number: u8,
        count: u64,
        size: u64,
        csum: Digest32,
    },
    /// 17: an upload of a blob, as the file of this name.
    Blob {
        file: Bytes,
        blob: Bytes,
    },
    /// 18: the writer's files become a finished snapshot.
    Finish,
    /// 19: the writer ends, and its files are removed.
    Abort,
    /// 20: a reader of the snapshot.
    OpenReader {
        snapshot: Bytes,
    },
    /// 21: a part of a file of the reader's snapshot, from an offset in bytes.
    Download {
        file: Bytes,
        offset: u64,
    },
    /// 22: the blob of a piece that the reader's indexes name.
    GetChunk {
        digest: Digest32,
    },
    /// 23: so many bytes of an archive of the reader's snapshot, from an offset in bytes.
    Range {
        file: Bytes,
        offset: u64,
        length: u32,
    },
    /// 24: the reader ends.
    CloseReader,
    /// 30: the snapshots after one, or from the first on where the text is empty.
    List {
        after: Bytes,
    },
    /// 31: the files of the snapshot, with their sizes and checksums.
    Files {
        snapshot: Bytes,
    },
    /// 32: the snapshot is removed.
    Forget {
        snapshot: Bytes,
    },
    /// 33: a job that removes the group's snapshots that no option keeps, or in a dry run only tells them.
    Prune {
        group: Bytes,
        keep: Keep,
        dry: bool,
    },
    /// 34: a job that compares the snapshot's files and chunks with its manifest and indexes.
    Verify {
        snapshot: Bytes,
    },
    /// 35: a job that takes the group's newer snapshots over from the remote datastore.
    Sync {
        group: Bytes,
    },
    /// 36: a job that removes the chunks that no snapshot and no running backup needs.
    Gc,
    /// 40: the group's snapshots, the oldest first.
    Group {
        group: Bytes,
    },
    /// 63: the lane's end.
    Bye,
}

/// A body is no command: its code is unknown, its fields are too short or too long, or it has more
/// than 16,778,240 bytes.
#[derive(Clone, Copy, Debug, PartialEq, Eq, Drop, Error)]
#[error("the body is no command")]
pub struct BadFrame;

impl Command {
    /// The command that a body spells. Only a body of 2 bytes or more that is a command takes memory, so what is no
    /// command is always told.
    pub fn read(alloc: Global, body: &[u8]) -> Result<Result<Command, BadFrame>, AllocError>
        ensures command { IfOk result (λ read. result_ok read ≡ command_of body.now) }
        ensures spelled { IfOk result (λ read. IfOk read (SpellsCommand body.now)) }
        ensures memory { WantsMemory 2 body.now (command_of body.now) result }
    {
        Ok(command_in(alloc, body)?.ok_or(BadFrame))
    }

    /// The body of the command, which `read` reads as it.
    pub fn text(&self, alloc: Global) -> Result<Vec<u8>, AllocError>
        requires { HasText self.now }
        ensures { IfOk result (λ text. text.items ≡ command_text self.now) }
    {
        let Spelling { head, rest } = self.spelling();
        let (head, entries) = (head.as_slice(), self.entries());
        let size = head.len() + ENTRY_SIZE * entries.len() + rest.len();
        let mut text = Vec::with_capacity(alloc, size)?;
        text.extend_from_slice(head)?;
        push_entries(&mut text, entries)?;
        text.extend_from_slice(rest)?;
        Ok(text)
    }

    /// What stands between the head and the rest: the entries of an APPEND.
    fn entries(&self) -> &[AppendEntry]
        ensures { result.now ≡ entries_of self.now }
    {
        match self {
            Command::Append { entries, .. } => entries.as_slice(),
            _ => &[],
        }
    }

    #[tactic(auto, unfolding(crate::specs::CommandText::command_text))]
    fn spelling(&self) -> Spelling<'_>
        requires { FitsCommand self.now }
        ensures { with_entries result.head self.now result.rest.now ≡ command_text self.now }
    {
        match self {
            Command::OpenWriter { snapshot } => Spelling::of(Head::new(10).text(snapshot)),
            Command::Previous { file, offset } => {
                Spelling::of(Head::new(11).text(file).u64(*offset))
            }
            Command::NewFixed {
                file,
                size,
                chunk_size,
            } => {
                let head = Head::new(12).text(file).u64(*size);
                Spelling::of(head.u64(*chunk_size))
            }
            Command::NewDynamic { file } => Spelling::of(Head::new(13).text(file)),
            Command::Chunk { digest, blob } => Spelling {
                head: Head::new(14).bytes(&digest.0),
                rest: blob.as_slice(),
            },
            Command::Append { number, entries } => {
                let count = entries.as_slice().len() as u16;
                Spelling::of(Head::new(15).byte(*number).u16(count))
            }
            Command::CloseIndex {
                number,
                count,
                size,
                csum,
            } => {
                let head = Head::new(16).byte(*number).u64(*count).u64(*size);
                Spelling::of(head.bytes(&csum.0))
            }
            Command::Blob { file, blob } => Spelling {
                head: Head::new(17).text(file),
                rest: blob.as_slice(),
            },
            Command::Finish => Spelling::of(Head::new(18)),
            Command::Abort => Spelling::of(Head::new(19)),
            Command::OpenReader { snapshot } => Spelling::of(Head::new(20).text(snapshot)),
            Command::Download { file, offset } => {
                Spelling::of(Head::new(21).text(file).u64(*offset))
            }
            Command::GetChunk { digest } => Spelling::of(Head::new(22).bytes(&digest.0)),
            Command::Range {
                file,
                offset,
                length,
            } => {
                let head = Head::new(23).text(file).u64(*offset);
                Spelling::of(head.u32(*length))
            }
            Command::CloseReader => Spelling::of(Head::new(24)),
            Command::List { after } => Spelling::of(Head::new(30).text(after)),
            Command::Files { snapshot } => Spelling::of(Head::new(31).text(snapshot)),
            Command::Forget { snapshot } => Spelling::of(Head::new(32).text(snapshot)),
            Command::Prune { group, keep, dry } => {
                Spelling::of(with_keep(Head::new(33).text(group), keep).flag(*dry))
            }
            Command::Verify { snapshot } => Spelling::of(Head::new(34).text(snapshot)),
            Command::Sync { group } => Spelling::of(Head::new(35).text(group)),
            Command::Gc => Spelling::of(Head::new(36)),
            Command::Group { group } => Spelling::of(Head::new(40).text(group)),
            Command::Bye => Spelling::of(Head::new(63)),
        }
    }
}

#[tactic(auto, unfolding(crate::specs::CommandText::command_of))]
fn command_in(alloc: Global, body: &[u8]) -> Result<Option<Command>, AllocError>
    ensures command { IfOk result (λ c. c ≡ command_of body.now) }
    ensures memory { WantsMemory 2 body.now (command_of body.now) result }
{
    if body.len() > BODY_LIMIT as usize {
        return Ok(None);
    }
    match byte_at(body) {
        None => Ok(None),
        Some((code, fields)) => with_code(alloc, code, fields),
    }
}

/// The command of the code that has these fields.
#[tactic(auto, unfolding(crate::specs::CommandText::fields_of))]
fn with_code(alloc: Global, code: u8, fields: &[u8]) -> Result<Option<Command>, AllocError>
    ensures command { IfOk result (λ c. c ≡ fields_of code fields.now) }
    ensures memory { WantsMemory 1 fields.now (fields_of code fields.now) result }
{
    match code {
        10 => open_writer(alloc, fields),
        11 => previous(alloc, fields),
        12 => new_fixed(alloc, fields),
        13 => new_dynamic(alloc, fields),
        14 => chunk(alloc, fields),
        15 => append(alloc, fields),
        16 => Ok(close_index(fields)),
        17 => blob(alloc, fields),
        18 => Ok(nothing_more(Command::Finish, fields)),
        19 => Ok(nothing_more(Command::Abort, fields)),
        20 => open_reader(alloc, fields),
        21 => download(alloc, fields),
        22 => Ok(get_chunk(fields)),
        23 => range(alloc, fields),
        24 => Ok(nothing_more(Command::CloseReader, fields)),
        30 => list(alloc, fields),
        31 => files(alloc, fields),
        32 => forget(alloc, fields),
        33 => prune(alloc, fields),
        34 => verify(alloc, fields),
        35 => sync(alloc, fields),
        36 => Ok(nothing_more(Command::Gc, fields)),
        40 => group(alloc, fields),
        63 => Ok(nothing_more(Command::Bye, fields)),
        _ => Ok(None),
    }
}

#[tactic(auto, unfolding(crate::specs::CommandText::nothing_more))]
fn nothing_more(command: Command, fields: &[u8]) -> Option<Command>
    ensures { result ≡ nothing_more command fields.now }
{
    if fields.is_empty() {
        Some(command)
    } else {
        None
    }
}

#[tactic(auto, unfolding(crate::specs::CommandText::one_text))]
fn open_writer(alloc: Global, fields: &[u8]) -> Result<Option<Command>, AllocError>
    ensures command { IfOk result (λ c. c ≡ one_text Command.OpenWriter fields.now) }
    ensures memory { WantsMemory 1 fields.now (one_text Command.OpenWriter fields.now) result }
{
    let snapshot = only_text(alloc, fields)?;
    Ok(snapshot.map(|snapshot| Command::OpenWriter { snapshot }))
}

#[tactic(auto, unfolding(crate::specs::CommandText::one_text))]
fn open_reader(alloc: Global, fields: &[u8]) -> Result<Option<Command>, AllocError>
    ensures command { IfOk result (λ c. c ≡ one_text Command.OpenReader fields.now) }
    ensures memory { WantsMemory 1 fields.now (one_text Command.OpenReader fields.now) result }
{
    let snapshot = only_text(alloc, fields)?;
    Ok(snapshot.map(|snapshot| Command::OpenReader { snapshot }))
}

#[tactic(auto, unfolding(crate::specs::CommandText::one_text))]
fn new_dynamic(alloc: Global, fields: &[u8]) -> Result<Option<Command>, AllocError>
    ensures command { IfOk result (λ c. c ≡ one_text Command.NewDynamic fields.now) }
    ensures memory { WantsMemory 1 fields.now (one_text Command.NewDynamic fields.now) result }
{
    let file = only_text(alloc, fields)?;
    Ok(file.map(|file| Command::NewDynamic { file }))
}

#[tactic(auto, unfolding(crate::specs::CommandText::text_and_offset))]
fn previous(alloc: Global, fields: &[u8]) -> Result<Option<Command>, AllocError>
    ensures command { IfOk result (λ c. c ≡ text_and_offset Command.Previous fields.now) }
    ensures memory { WantsMemory 1 fields.now (text_and_offset Command.Previous fields.now) result }
{
    let Some((file, rest)) = text_at(fields) else {
        return Ok(None);
    };
    let Some(offset) = whole(u64_at(rest)) else {
        return Ok(None);
    };
    let file = copied(alloc, file)?;
    Ok(Some(Command::Previous { file, offset }))
}

#[tactic(auto, unfolding(crate::specs::CommandText::new_fixed))]
fn new_fixed(alloc: Global, fields: &[u8]) -> Result<Option<Command>, AllocError>
    ensures command { IfOk result (λ c. c ≡ new_fixed fields.now) }
    ensures memory { WantsMemory 1 fields.now (new_fixed fields.now) result }
{
    let Some((file, rest)) = text_at(fields) else {
        return Ok(None);
    };
    let Some((size, rest)) = u64_at(rest) else {
        return Ok(None);
    };
    let Some(chunk_size) = whole(u64_at(rest)) else {
        return Ok(None);
    };
    let file = copied(alloc, file)?;
    Ok(Some(Command::NewFixed {
        file,
        size,
        chunk_size,
    }))
}

#[tactic(auto, unfolding(crate::specs::CommandText::chunk))]
fn chunk(alloc: Global, fields: &[u8]) -> Result<Option<Command>, AllocError>
    ensures command { IfOk result (λ c. c ≡ chunk fields.now) }
    ensures memory { WantsMemory 1 fields.now (chunk fields.now) result }
{
    let Some((digest, blob)) = digest_at(fields) else {
        return Ok(None);
    };
    let blob = copied(alloc, blob)?;
    Ok(Some(Command::Chunk { digest, blob }))
}

#[tactic(auto, unfolding(crate::specs::CommandText::append))]
fn append(alloc: Global, fields: &[u8]) -> Result<Option<Command>, AllocError>
    ensures command { IfOk result (λ c. c ≡ append fields.now) }
    ensures memory { WantsMemory 1 fields.now (append fields.now) result }
{
    let Some((number, rest)) = byte_at(fields) else {
        return Ok(None);
    };
    let entries = entries_in(alloc, rest)?;
    Ok(entries.map(|entries| Command::Append { number, entries }))
}

#[tactic(auto, unfolding(crate::specs::CommandText::close_index))]
fn close_index(fields: &[u8]) -> Option<Command>
    ensures { result ≡ close_index fields.now }
{
    let (number, rest) = byte_at(fields)?;
    let (count, rest) = u64_at(rest)?;
    let (size, rest) = u64_at(rest)?;
    let csum = whole(digest_at(rest))?;
    Some(Command::CloseIndex {
        number,
        count,
        size,
        csum,
    })
}

#[tactic(auto, unfolding(crate::specs::CommandText::blob))]
fn blob(alloc: Global, fields: &[u8]) -> Result<Option<Command>, AllocError>
    ensures command { IfOk result (λ c. c ≡ blob fields.now) }
    ensures memory { WantsMemory 1 fields.now (blob fields.now) result }
{
    let Some((file, blob)) = text_at(fields) else {
        return Ok(None);
    };
    let file = copied(alloc, file)?;
    let blob = copied(alloc, blob)?;
    Ok(Some(Command::Blob { file, blob }))
}

#[tactic(auto, unfolding(crate::specs::CommandText::text_and_offset))]
fn download(alloc: Global, fields: &[u8]) -> Result<Option<Command>, AllocError>
    ensures command { IfOk result (λ c. c ≡ text_and_offset Command.Download fields.now) }
    ensures memory { WantsMemory 1 fields.now (text_and_offset Command.Download fields.now) result }
{
    let Some((file, rest)) = text_at(fields) else {
        return Ok(None);
    };
    let Some(offset) = whole(u64_at(rest)) else {
        return Ok(None);
    };
    let file = copied(alloc, file)?;
    Ok(Some(Command::Download { file, offset }))
}

#[tactic(auto, unfolding(crate::specs::CommandText::get_chunk))]
fn get_chunk(fields: &[u8]) -> Option<Command>
    ensures { result ≡ get_chunk fields.now }
{
    let digest = whole(digest_at(fields))?;
    Some(Command::GetChunk { digest })
}

#[tactic(auto, unfolding(crate::specs::CommandText::range))]
fn range(alloc: Global, fields: &[u8]) -> Result<Option<Command>, AllocError>
    ensures command { IfOk result (λ c. c ≡ range fields.now) }
    ensures memory { WantsMemory 1 fields.now (range fields.now) result }
{
    let Some((file, rest)) = text_at(fields) else {
        return Ok(None);
    };
    let Some((offset, rest)) = u64_at(rest) else {
        return Ok(None);
    };
    let Some(length) = whole(u32_at(rest)) else {
        return Ok(None);
    };
    let file = copied(alloc, file)?;
    Ok(Some(Command::Range {
        file,
        offset,
        length,
    }))
}

#[tactic(auto, unfolding(crate::specs::CommandText::one_text))]
fn list(alloc: Global, fields: &[u8]) -> Result<Option<Command>, AllocError>
    ensures command { IfOk result (λ c. c ≡ one_text Command.List fields.now) }
    ensures memory { WantsMemory 1 fields.now (one_text Command.List fields.now) result }
{
    let after = only_text(alloc, fields)?;
    Ok(after.map(|after| Command::List { after }))
}

#[tactic(auto, unfolding(crate::specs::CommandText::one_text))]
fn files(alloc: Global, fields: &[u8]) -> Result<Option<Command>, AllocError>
    ensures command { IfOk result (λ c. c ≡ one_text Command.Files fields.now) }
    ensures memory { WantsMemory 1 fields.now (one_text Command.Files fields.now) result }
{
    let snapshot = only_text(alloc, fields)?;
    Ok(snapshot.map(|snapshot| Command::Files { snapshot }))
}

#[tactic(auto, unfolding(crate::specs::CommandText::one_text))]
fn forget(alloc: Global, fields: &[u8]) -> Result<Option<Command>, AllocError>
    ensures command { IfOk result (λ c. c ≡ one_text Command.Forget fields.now) }
    ensures memory { WantsMemory 1 fields.now (one_text Command.Forget fields.now) result }
{
    let snapshot = only_text(alloc, fields)?;
    Ok(snapshot.map(|snapshot| Command::Forget { snapshot }))
}

#[tactic(auto, unfolding(crate::specs::CommandText::one_text))]
fn verify(alloc: Global, fields: &[u8]) -> Result<Option<Command>, AllocError>
    ensures command { IfOk result (λ c. c ≡ one_text Command.Verify fields.now) }
    ensures memory { WantsMemory 1 fields.now (one_text Command.Verify fields.now) result }
{
    let snapshot = only_text(alloc, fields)?;
    Ok(snapshot.map(|snapshot| Command::Verify { snapshot }))
}

#[tactic(auto, unfolding(crate::specs::CommandText::one_text))]
fn sync(alloc: Global, fields: &[u8]) -> Result<Option<Command>, AllocError>
    ensures command { IfOk result (λ c. c ≡ one_text Command.Sync fields.now) }
    ensures memory { WantsMemory 1 fields.now (one_text Command.Sync fields.now) result }
{
    let group = only_text(alloc, fields)?;
    Ok(group.map(|group| Command::Sync { group }))
}

#[tactic(auto, unfolding(crate::specs::CommandText::one_text))]
fn group(alloc: Global, fields: &[u8]) -> Result<Option<Command>, AllocError>
    ensures command { IfOk result (λ c. c ≡ one_text Command.Group fields.now) }
    ensures memory { WantsMemory 1 fields.now (one_text Command.Group fields.now) result }
{
    let group = only_text(alloc, fields)?;
    Ok(group.map(|group| Command::Group { group }))
}

#[tactic(auto, unfolding(crate::specs::CommandText::prune))]
fn prune(alloc: Global, fields: &[u8]) -> Result<Option<Command>, AllocError>
    ensures command { IfOk result (λ c. c ≡ prune fields.now) }
    ensures memory { WantsMemory 1 fields.now (prune fields.now) result }
{
    let Some((group, rest)) = text_at(fields) else {
        return Ok(None);
    };
    let Some((keep, rest)) = keep_at(rest) else {
        return Ok(None);
    };
    let Some(dry) = whole(flag_at(rest)) else {
        return Ok(None);
    };
    let group = copied(alloc, group)?;
    Ok(Some(Command::Prune { group, keep, dry }))
}

/// The six counts of a prune.
fn keep_at(bytes: &[u8]) -> Option<(Keep, &[u8])>
    ensures { option_map (λ x. (x.0, x.1.now)) result ≡ keep_at bytes.now }
{
    let (last, rest) = u16_at(bytes)?;
    let (hourly, rest) = u16_at(rest)?;
    let (daily, rest) = u16_at(rest)?;
    let (weekly, rest) = u16_at(rest)?;
    let (monthly, rest) = u16_at(rest)?;
    let (yearly, rest) = u16_at(rest)?;
    let keep = Keep {
        last,
        hourly,
        daily,
        weekly,
        monthly,
        yearly,
    };
    Some((keep, rest))
}

fn with_keep(head: Head, keep: &Keep) -> Head
    requires { length head ≤ 257 }
    ensures { result ≡ head ++ keep_text keep.now }
{
    let head = head.u16(keep.last).u16(keep.hourly).u16(keep.daily);
    head.u16(keep.weekly).u16(keep.monthly).u16(keep.yearly)
}
