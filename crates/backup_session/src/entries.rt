//! The entries of an APPEND.

ghost use Rattle.std.specs.Prelude.{◌≡◌, ◌≤◌, ◌*◌, length, IfErr, IfOk};
ghost use Rattle.std.specs.FinMap.{entries as pairs};
ghost use Rattle.store_stops.specs.Outcomes.{IfAnswered};
ghost use Rattle.store_model.specs.Archives.{want_entries as entries_fit};
ghost use Rattle.wire_commands.specs.HasText.{FitsRefusal};
ghost use Rattle.backup_session.specs.Answers.{NamesPieces, TellsPieces};
ghost use Rattle.backup_session.specs.Indexes.{FitsPieces};
ghost use Rattle.backup_session.specs.Steps.{piece_in, pieces_in};
ghost use Rattle.backup_session.specs.Kept.{HasLengths};

use crate::index::{Layout, OpenIndex};
use known_chunks::Pool;
use std::alloc::Global;
use store_types::{Digest32, Piece, Refusal};

/// So many entries fit a command, and an index that has so many pieces.
fn want_entries(pieces: u32, entries: usize) -> Result<(), Refusal>
    ensures value { result ≡ entries_fit pieces entries }
    ensures text { IfErr result FitsRefusal }
{
    if entries > 4096 {
        return Err(Refusal::TooMany { limit: 4096 });
    }
    if pieces as usize + entries > 1_048_576 {
        return Err(Refusal::TooMany { limit: 1_048_576 });
    }
    Ok(())
}

/// The piece that the entry at a place names, where it begins at the end reached so far and has a length that the layout
/// takes there.
fn piece_named(
    pool: &Pool,
    layout: Layout,
    place: u32,
    end: u64,
    entry: &(Digest32, u64),
) -> Result<Piece, Refusal>
    requires { HasLengths (pairs pool.now) }
    ensures exact { result ≡ piece_in pool.now layout place end entry.now }
    ensures short { IfOk result (λ piece. piece.length ≤ 16_777_216) }
    ensures text { IfErr result FitsRefusal }
{
    let Some(length) = pool.find(&entry.0) else {
        return Err(Refusal::UnknownChunk { place });
    };
    if entry.1 != end {
        return Err(Refusal::BadOffset {
            place,
            expected: end,
        });
    }
    if !layout.fits(end, length) {
        return Err(Refusal::WrongSize {
            place,
            size: length as u64,
        });
    }
    Ok(Piece {
        digest: entry.0,
        length,
    })
}

/// The pieces that the entries name, where the first begins at a start.
fn pieces_named(
    alloc: Global,
    pool: &Pool,
    layout: Layout,
    start: u64,
    entries: &[(Digest32, u64)],
) -> Result<Vec<Piece>, Refusal>
    requires count { length entries.now ≤ 4096 }
    requires start { start ≤ 1_048_576 * 16_777_216 }
    requires lengths { HasLengths (pairs pool.now) }
    ensures exact { IfAnswered result (TellsPieces (pieces_in pool.now layout start entries.now)) }
    ensures text { IfErr result FitsRefusal }
{
    let mut pieces = Vec::new(alloc);
    let mut end = start;
    for entry in entries {
        let place = pieces.len() as u32;
        let piece = piece_named(pool, layout, place, end, entry)?;
        pieces.push(piece)?;
        end += piece.length as u64;
    }
    Ok(pieces)
}

/// The pieces that an APPEND to an index names, or its first refusal: more than 4,096 entries, more than 1,048,576 pieces
/// in the index, then entry by entry a digest that the pool lacks, an offset other than the end reached so far, and a
/// length other than a fixed archive asks there.
pub fn pieces_for(
    alloc: Global,
    pool: &Pool,
    index: &OpenIndex,
    entries: &[(Digest32, u64)],
) -> Result<Vec<Piece>, Refusal>
    requires { HasLengths (pairs pool.now) }
    ensures exact { NamesPieces (pairs pool.now) index.now entries.now result }
    ensures fits { IfOk result (λ pieces. FitsPieces index.now pieces.items) }
    ensures text { IfErr result FitsRefusal }
{
    want_entries(index.len(), entries.len())?;
    pieces_named(alloc, pool, index.layout(), index.end(), entries)
}
