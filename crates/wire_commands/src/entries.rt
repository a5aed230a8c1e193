//! The entries of an APPEND.

ghost use Rattle.std.specs.Prelude.{◌≡◌, ◌%◌, ◌++◌, All, length, IsSome, IfOk, OnOk, OnErr};
ghost use Rattle.std.specs.List.{flat_map};
ghost use Rattle.std.specs.Option.{option_map};
ghost use Rattle.wire_commands.specs.CommandText.{entry_text};
ghost use Rattle.wire_commands.specs.CommandText as spec;
ghost use Rattle.wire_commands.specs.Fields.{whole, rows_at};
ghost use Rattle.wire_commands.specs.HasText.{FitsEntry};

use crate::fields::{digest_at, u16_at, u64_at};
use std::alloc::{AllocError, Global};
use store_types::{AppendEntry, Rows};

/// The bytes of an entry: a digest, and an offset.
pub const ENTRY_SIZE: usize = 40;

/// The entries that are all that follows their count.
pub fn entries_in(alloc: Global, bytes: &[u8]) -> Result<Option<Rows<AppendEntry>>, AllocError>
    ensures entries { IfOk result (λ es. es ≡ whole (rows_at spec.entry_at bytes.now)) }
    ensures memory { OnErr result (IsSome (whole (rows_at spec.entry_at bytes.now))) }
{
    let Some((count, rest)) = u16_at(bytes) else {
        return Ok(None);
    };
    if rest.len() != ENTRY_SIZE * count as usize {
        return Ok(None);
    }
    let entries = whole_entries(alloc, rest)?;
    Ok(Some(Rows::from_vec(entries)))
}

/// The entries that the bytes are.
fn whole_entries(alloc: Global, bytes: &[u8]) -> Result<Vec<AppendEntry>, AllocError>
    requires { length bytes.now % ENTRY_SIZE ≡ 0 }
    ensures spelled { IfOk result (λ es. flat_map entry_text es.items ≡ bytes.now) }
    ensures fit { IfOk result (λ es. All FitsEntry es.items) }
{
    let mut entries = Vec::with_capacity(alloc, bytes.len() / ENTRY_SIZE)?;
    let mut rest = bytes;
    while let Some((entry, behind)) = entry_at(rest) {
        entries.push(entry)?;
        rest = behind;
    }
    Ok(entries)
}

fn entry_at(bytes: &[u8]) -> Option<(AppendEntry, &[u8])>
    ensures { option_map (λ x. (x.0, x.1.now)) result ≡ spec.entry_at bytes.now }
{
    let (digest, rest) = digest_at(bytes)?;
    let (offset, rest) = u64_at(rest)?;
    Some((AppendEntry { digest, offset }, rest))
}

/// Writes the entries behind a text.
pub fn push_entries(text: &mut Vec<u8>, entries: &[AppendEntry]) -> Result<(), AllocError>
    ensures { OnOk result (text.new.items ≡ text.old.items ++ flat_map entry_text entries.now) }
{
    for entry in entries {
        text.extend_from_slice(&entry.digest.0)?;
        text.extend_from_slice(&entry.offset.to_le_bytes())?;
    }
    Ok(())
}
