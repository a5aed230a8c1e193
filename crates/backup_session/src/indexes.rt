//! The open indexes.

ghost use Rattle.std.specs.Prelude.{◌≡◌, ◌==◌, position, IfErr, IfOk};
ghost use Rattle.std.specs.List.{list_any};
ghost use Rattle.store_types.specs.Names.{IsKey};
ghost use Rattle.store_stops.specs.Outcomes.{IfAnswered};
ghost use Rattle.store_model.specs.Archives.{uuid_of as uuid_by, want_sizes as sizes_fit, want_size as size_reached, want_number as number_left, free_number as least_free};
ghost use Rattle.wire_commands.specs.HasText.{FitsRefusal};
ghost use Rattle.backup_session.specs.Calls.{TellsClosed};
ghost use Rattle.backup_session.specs.Indexes.{layout_view};
ghost use Rattle.backup_session.specs.Kept.{opens_of, left_of, IsClosing};
ghost use Rattle.backup_session.specs.Steps.{numbers, want_close as close_test};

use crate::index::{Layout, OpenIndex};
use crate::state::Begun;
use fixed_index::{is_chunk_size, piece_count};
use manifest::FileFact;
use std::alloc::{AllocError, Global};
use store_types::{CloseFault, Digest32, FileName, Refusal, SnapshotKey};
use uuid::Uuid;

/// The version 5 identifier of a file's path in the datastore, under the namespace of 16 zero bytes.
#[tactic(auto, unfolding(store_model::specs::Archives::uuid_of))]
pub fn uuid_of(alloc: Global, key: &SnapshotKey, name: &FileName) -> Result<[u8; 16], AllocError>
    requires { IsKey key.now }
    ensures { IfOk result (λ uuid. uuid ≡ uuid_by key.now name.now) }
{
    let mut path = key.print(alloc)?;
    path.push_str("/")?;
    path.push_str(name.as_str())?;
    Ok(Uuid::new_v5(&Uuid::nil(), path.as_bytes()).into_bytes())
}

/// Beside so many open indexes there is room for one more.
pub fn want_number(begun: usize) -> Result<(), Refusal>
    ensures { result ≡ number_left begun }
{
    if begun < 16 {
        Ok(())
    } else {
        Err(Refusal::TooMany { limit: 16 })
    }
}

/// A fixed archive may have these sizes.
pub fn want_sizes(size: u64, chunk_size: u64) -> Result<(), Refusal>
    ensures { result ≡ sizes_fit size chunk_size }
{
    if !is_chunk_size(chunk_size) {
        return Err(Refusal::WrongSize {
            place: 0,
            size: chunk_size,
        });
    }
    if piece_count(size, chunk_size) > 1_048_576 {
        return Err(Refusal::TooMany { limit: 1_048_576 });
    }
    Ok(())
}

fn has_number(begun: &[Begun], number: u8) -> bool
    ensures { result ≡ list_any (λ b. b.number == number) begun.now }
{
    begun.iter().any(|b| b.number == number)
}

/// The least number from 0 to 15 that none of them has.
pub fn free_number(begun: &[Begun]) -> u8
    ensures { result ≡ least_free (numbers (opens_of begun.now)) }
{
    for number in 0..16 {
        if !has_number(begun, number) {
            return number;
        }
    }
    16
}

/// Where the first stands that has the number.
pub fn place_of(begun: &[Begun], number: u8) -> Option<usize>
    ensures { result ≡ position (λ b. b.number == number) begun.now }
{
    begun.iter().position(|b| b.number == number)
}

/// The pieces of a fixed archive reach its size.
fn want_size(layout: Layout, end: u64) -> Result<(), Refusal>
    ensures value { result ≡ size_reached (layout_view layout) end }
    ensures text { IfErr result FitsRefusal }
{
    match layout {
        Layout::Fixed { size, .. } if end < size => Err(Refusal::BadClose(CloseFault::Rest(size))),
        _ => Ok(()),
    }
}

/// An index has so many pieces, they end there, this is its checksum, and the size is reached.
fn want_close(index: &OpenIndex, count: u64, size: u64, csum: &Digest32) -> Result<(), Refusal>
    ensures value { result ≡ close_test index.now count size csum.now }
    ensures text { IfErr result FitsRefusal }
{
    let (pieces, end, found) = index.facts();
    if count != pieces as u64 {
        return Err(Refusal::BadClose(CloseFault::Count(pieces as u64)));
    }
    if size != end {
        return Err(Refusal::BadClose(CloseFault::Size(end)));
    }
    if *csum != found {
        return Err(Refusal::BadClose(CloseFault::Csum(found)));
    }
    want_size(index.layout(), end)
}

/// The file's text and what a manifest lists of it, where the index is as it is said to be.
pub fn closed(
    alloc: Global,
    begun: &Begun,
    count: u64,
    size: u64,
    csum: &Digest32,
) -> Result<(Vec<u8>, FileFact), Refusal>
    ensures exact { IfAnswered result (TellsClosed begun.now count size csum.now) }
    ensures text { IfErr result FitsRefusal }
{
    want_close(&begun.index, count, size, csum)?;
    let text = begun.index.close(alloc)?;
    let name = begun.name.clone()?;
    let file = FileFact {
        name,
        size,
        csum: *csum,
    };
    Ok((text, file))
}

/// The index at a place, where there is one, is not open any more. It takes no memory.
pub fn leave(begun: &mut Vec<Begun>, closes: Option<usize>)
    requires { IsClosing closes (opens_of begun.old.items) }
    ensures { opens_of begun.new.items ≡ left_of closes (opens_of begun.old.items) }
{
    if let Some(place) = closes {
        let _ = begun.remove(place);
    }
}
