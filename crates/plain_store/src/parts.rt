//! Parts of files.

ghost use Rattle.std.specs.Prelude.{◌≡◌, IfOk};
ghost use Rattle.wire_commands.specs.HasText.{ReplyHasText};
ghost use Rattle.plain_sessions.specs.Outcomes.{Gives, IsFitRefusal};
ghost use Rattle.plain_store.specs.Outcomes.{IsSpelled};
ghost use Rattle.plain_store.specs.Parts.{part_from, file_part};

use plain_sessions::Stop;
use plain_snapshots::{File, file_named};
use std::alloc::Global;
use store_types::{Bytes, FileName, PART_LIMIT, Refusal};
use wire_commands::Reply;

/// What is left of a text from an offset, and no more than one reply holds.
fn part_of(alloc: Global, text: Vec<u8>, offset: u64) -> Result<Reply, Stop>
    ensures gives { Gives (λ reply. reply) result (part_from text.items offset) }
    ensures spelled { IsSpelled result }
{
    let total = text.len() as u64;
    if offset > total {
        return Err(Stop::Refused(Refusal::BadRange { size: total }));
    }
    let rest = &text[offset as usize..];
    let bytes = Bytes::from_slice(alloc, &rest[..rest.len().min(PART_LIMIT as usize)])?;
    Ok(Reply::Part { total, bytes })
}

/// The first file of this name, and what is left of its text from an offset.
pub fn part_in<'a>(
    alloc: Global,
    files: &'a [File],
    name: &FileName,
    offset: u64,
) -> Result<(&'a File, Reply), Stop>
    ensures fits { IsFitRefusal result }
    ensures gives { Gives (λ x. (x.0.now, x.1)) result (file_part files.now name.now offset) }
    ensures spelled { IfOk result (λ x. ReplyHasText x.1) }
{
    let Some(file) = file_named(name.as_slice(), files) else {
        return Err(Stop::Refused(Refusal::NoFile));
    };
    let text = file.content.text(alloc)?;
    let part = part_of(alloc, text, offset)?;
    Ok((file, part))
}
