//! The pieces that an APPEND names.

ghost use Rattle.std.specs.Prelude.{◌≡◌, ◌≤◌, length, map, option_map, IfErr};
ghost use Rattle.store_files.specs.Archive.{piece_with as first_with};
ghost use Rattle.wire_commands.specs.HasText.{FitsRefusal};
ghost use Rattle.store_model.specs.Archives.{want_entries as entries_fit, fits_layout as fits};
ghost use Rattle.store_model.specs.ArchiveSteps.{named};
ghost use Rattle.plain_snapshots.specs.Shown.{shown_layout};
ghost use Rattle.plain_sessions.specs.Outcomes.{GivesItems, IsFitRefusal};
ghost use Rattle.plain_sessions.specs.Archiving.{NamesPiece, piece_for, first_pieces, appended};

use crate::stop::Stop;
use crate::writer::Writer;
use plain_snapshots::{BlobData, Layout, end_of};
use std::alloc::{AllocError, Global};
use store_types::{AppendEntry, Digest32, Refusal};

/// So many entries fit a command, and an archive that has so many pieces.
fn want_entries(pieces: usize, entries: usize) -> Result<(), Refusal>
    ensures fits { IfErr result FitsRefusal }
    ensures test { result ≡ entries_fit pieces entries }
{
    if entries > 4096 {
        return Err(Refusal::TooMany { limit: 4096 });
    }
    if pieces > 1_048_576 - entries {
        return Err(Refusal::TooMany { limit: 1_048_576 });
    }
    Ok(())
}

/// The first piece with this digest.
pub fn piece_with<'a>(digest: &Digest32, pieces: &'a [BlobData]) -> Option<&'a BlobData>
    ensures { option_map (λ p. p.now) result ≡ first_with digest.now pieces.now }
{
    pieces.iter().find(|piece| piece.digest() == *digest)
}

/// A piece of this size fits at the end reached so far, both in bytes.
fn fits_layout(layout: Layout, end: u64, size: u64) -> bool
    ensures { result ≡ fits (shown_layout layout) end size }
{
    match layout {
        Layout::Dynamic => true,
        Layout::Fixed {
            size: whole,
            chunk_size,
        } => size == chunk_size.min(whole.saturating_sub(end)),
    }
}

/// The piece that the entry at a place names, where it begins at the end reached so far.
#[tactic(auto, unfolding(store_model::specs::Archives::piece_named))]
fn piece_named<'a>(
    pool: &'a [BlobData],
    layout: Layout,
    place: u32,
    end: u64,
    entry: &AppendEntry,
) -> Result<&'a BlobData, Refusal>
    ensures fits { IfErr result FitsRefusal }
    ensures test { NamesPiece result (piece_for pool.now layout place end entry.now) }
{
    let Some(piece) = piece_with(&entry.digest, pool) else {
        return Err(Refusal::UnknownChunk { place });
    };
    if entry.offset != end {
        return Err(Refusal::BadOffset {
            place,
            expected: end,
        });
    }
    let size = piece.as_slice().len() as u64;
    if fits_layout(layout, end, size) {
        Ok(piece)
    } else {
        Err(Refusal::WrongSize { place, size })
    }
}

/// The pieces that the entries name, where the first begins at a start.
fn pieces_named(
    alloc: Global,
    pool: &[BlobData],
    layout: Layout,
    start: u64,
    entries: &[AppendEntry],
) -> Result<Vec<BlobData>, Stop>
    requires { length entries.now ≤ 4096 }
    ensures fits { IsFitRefusal result }
    ensures gives { GivesItems result (first_pieces pool.now layout start entries.now) }
{
    let mut pieces = Vec::new(alloc);
    let mut end = start;
    for entry in entries {
        let place = pieces.len() as u32;
        let piece = piece_named(pool, layout, place, end, entry)?;
        let size = piece.as_slice().len() as u64;
        end = end.checked_add(size).ok_or(AllocError)?;
        pieces.push(piece.clone()?)?;
    }
    Ok(pieces)
}

impl Writer {
    /// The pieces that an APPEND to the archive of a number names.
    pub fn pieces_for(
        &self,
        alloc: Global,
        number: u8,
        entries: &[AppendEntry],
    ) -> Result<Vec<BlobData>, Stop>
        ensures fits { IsFitRefusal result }
        ensures gives { GivesItems result (appended self.now number (map named entries.now)) }
    {
        let Some(begun) = self.begun.at(number) else {
            return Err(Stop::Refused(Refusal::NoFile));
        };
        let archive = &begun.archive;
        want_entries(archive.pieces.len(), entries.len())?;
        let end = end_of(&archive.pieces)?;
        pieces_named(alloc, &self.pool, archive.layout, end, entries)
    }
}
