//! Ports that are read to their end.

ghost use Rattle.std.specs.Prelude.{◌≡◌, ◌<◌, ◌≤◌, ◌^◌, ◌-◌, length, nat_lt, slice_get, if◌then◌else◌};
ghost use Rattle.replay.specs.Reading.{ReadsOut, ReadsPiece, HasReadCause, IsAll, IsByteAt};

use port_traits::Source;
use std::alloc::{AllocError, Global};
use thiserror::Error;

/// A port may have fewer bytes than these.
const LIMIT: u64 = 1 << 40;

/// A read asks for so many bytes.
pub const PIECE: usize = 65_536;

/// Why a port was not read to its end.
#[derive(Clone, Copy, Debug, PartialEq, Eq, Drop, Error)]
pub enum Unread {
    /// Its source failed.
    #[error("a source failed")]
    Failed,
    /// It has 2^40 bytes or more.
    #[error("a source has too many bytes")]
    TooLong,
    #[error("memory ran out")]
    NoMemory,
}

impl From<AllocError> for Unread {
    ghost use Rattle.std.specs.Prelude.{◌≡◌};
    ghost use Rattle.replay.specs.declared.reading.Unread.TheVariants.{NoMemory};

    ghost from_gives = { λ _ unread. unread ≡ NoMemory };

    fn from(_: AllocError) -> Unread {
        Unread::NoMemory
    }
}

/// All that a source has.
pub fn read_out<S: Source>(alloc: Global, source: &mut S) -> Result<Vec<u8>, Unread>
    ensures bytes { ReadsOut (S.left source.old) (S.left source.new) IsAll result }
    ensures cause { HasReadCause (S.faults source.old) (S.faults source.new) result }
{
    let mut bytes = Vec::new(alloc);
    let mut piece = [0; PIECE];
    loop {
        let count = read_piece(source, bytes.len() as u64, &mut piece[..])?;
        if count == 0 {
            return Ok(bytes);
        }
        bytes.extend_from_slice(&piece[..count])?;
    }
}

/// The byte at a place of all that a source has. The source is read to its end.
pub fn byte_at<S: Source>(source: &mut S, place: u64) -> Result<Option<u8>, Unread>
    ensures byte { ReadsOut (S.left source.old) (S.left source.new) (IsByteAt place) result }
    ensures cause { HasReadCause (S.faults source.old) (S.faults source.new) result }
{
    let mut found = None;
    let mut taken = 0;
    let mut piece = [0; PIECE];
    loop {
        let count = read_piece(source, taken, &mut piece[..])?;
        if count == 0 {
            return Ok(found);
        }
        found = with_byte(found, place, taken, &piece[..count]);
        taken += count as u64;
    }
}

// The byte at a place, where this is what was found in so many bytes, and these come behind them.
fn with_byte(found: Option<u8>, place: u64, taken: u64, more: &[u8]) -> Option<u8>
    ensures { result
        ≡ (if nat_lt place taken then found else slice_get more.now (place - taken)) }
{
    if place < taken {
        return found;
    }
    more.get((place - taken) as usize).copied()
}

/// Reads some more of a source of which so many bytes were read, and says how many these are: 0 at its end.
pub fn read_piece<S: Source>(source: &mut S, taken: u64, piece: &mut [u8]) -> Result<usize, Unread>
    requires some { 0 < length piece.old }
    requires within { taken ≤ 2 ^ 40 }
    ensures bytes { ReadsPiece (S.left source.old) (S.left source.new) taken piece.new result }
    ensures cause { HasReadCause (S.faults source.old) (S.faults source.new) result }
{
    if taken >= LIMIT {
        return Err(Unread::TooLong);
    }
    let most = (LIMIT - taken).min(piece.len() as u64) as usize;
    match source.read(&mut piece[..most]) {
        Ok(count) => Ok(count),
        Err(_) => Err(Unread::Failed),
    }
}
