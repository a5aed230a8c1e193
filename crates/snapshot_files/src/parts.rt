//! Parts of files.

ghost use Rattle.std.specs.Prelude.{◌≡◌, ◌≤◌, IfErr, IfOk, MatchResult, IsErrOf, length};
ghost use Rattle.disk_trait.specs.Effects.{OnlyReads};
ghost use Rattle.index_pages.specs.Calls.{CallsAtMost};
ghost use Rattle.store_types.specs.declared.refusal.Refusal.TheVariants.{Unreadable as UnreadableAt};
ghost use Rattle.wire_commands.specs.HasText.{ReplyHasText};
ghost use Rattle.wire_commands.specs.declared.reply.Reply.TheVariants.{Refused};
ghost use Rattle.snapshot_files.specs.Parts.{FillsPart, PartHasText, ReadsPart, RefusesPart};
ghost use Rattle.snapshot_files.specs.Reads.{StopHasText};
ghost use Rattle.store_stops.specs.Stops.{IfRefused};

use disk_trait::Disk;
use std::alloc::{AllocError, Global};
use store_stops::Stop;
use store_types::{Bytes, PART_LIMIT, Refusal};

/// A part of a file.
#[derive(Debug, Drop)]
pub struct FilePart {
    /// The file's size in bytes.
    pub total: u64,
    /// 4,194,304 bytes at most.
    pub bytes: Bytes,
}

/// What was put at the path isn't there as it was.
pub fn unreadable(alloc: Global, path: &str) -> Result<Refusal, AllocError>
    requires { length path.now ≤ 255 }
    ensures value { IfOk result (λ refusal. refusal ≡ UnreadableAt path.now) }
    ensures text { IfOk result (λ refusal. ReplyHasText (Refused refusal)) }
{
    let name = Bytes::from_slice(alloc, path.as_bytes())?;
    Ok(Refusal::Unreadable { name })
}

/// So many zero bytes.
fn zeros(alloc: Global, count: usize) -> Result<Vec<u8>, AllocError>
    ensures { IfOk result (λ bytes. length bytes.items ≡ count) }
{
    let mut bytes = Vec::with_capacity(alloc, count)?;
    bytes.resize(count, 0)?;
    Ok(bytes)
}

/// What is left of a file from an offset in bytes, and no more than 4,194,304 bytes.
///
/// The refusals, in the order in which they are tested: nothing is there; the offset is beyond the file's size, which
/// the refusal has; the file gives fewer bytes than its size says.
pub fn read_part<D: Disk>(
    disk: &mut D,
    alloc: Global,
    path: &str,
    offset: u64,
) -> Result<FilePart, Stop>
    requires { length path.now ≤ 255 }
    ensures reads { OnlyReads D.Disk disk.old disk.new (IsErrOf result Stop.DiskFailed) }
    ensures calls { CallsAtMost D.Disk disk.old disk.new 2 }
    ensures exact { ReadsPart D.Disk disk.old path.now offset result }
    ensures kind { IfErr result (IfRefused (RefusesPart path.now)) }
    ensures filled { IfOk result (FillsPart offset) }
    ensures text { MatchResult result PartHasText StopHasText }
{
    let Some(total) = disk.size(path)? else {
        return Err(Stop::Refused(unreadable(alloc, path)?));
    };
    if offset > total {
        return Err(Stop::Refused(Refusal::BadRange { size: total }));
    }
    let wanted = PART_LIMIT.min(total - offset) as usize;
    let mut bytes = zeros(alloc, wanted)?;
    match disk.read_part(path, offset, &mut bytes)? {
        Some(count) if count == wanted => Ok(FilePart {
            total,
            bytes: Bytes::from_vec(bytes),
        }),
        _ => Err(Stop::Refused(unreadable(alloc, path)?)),
    }
}
