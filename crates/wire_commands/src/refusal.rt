//! Refusals as bodies: a number, and its fields.

ghost use Rattle.std.specs.Prelude.{◌≡◌, ◌==◌, ◌≢◌, ◌≤◌, ◌++◌, length, IfOk};
ghost use Rattle.std.specs.List.{list_all};
ghost use Rattle.std.specs.Option.{option_map};
ghost use Rattle.wire_commands.specs.HasText.{FitsRefusal};
ghost use Rattle.wire_commands.specs.RefusalText.{state_number, blob_fault_text, close_fault_text, chunk_fault_text, refusal_text};
ghost use Rattle.std.specs.Int.{w32, w64};
ghost use Rattle.wire_commands.specs.Fields.{number_at, digest_at, WantsMemory};
ghost use Rattle.wire_commands.specs.RefusalReading.{alone, two, zeros_at, wide_at, small_at, refusal_from, mismatch_in};
ghost use Rattle.wire_commands.specs.RefusalReading as spec;

use crate::fields::{byte_at, copied, digest_at, only_text, text_at, u32_at, u64_at, whole};
use crate::head::Head;
use std::alloc::{AllocError, Global};
use store_types::{BadBlob, ChunkFault, CloseFault, Refusal, SessionState};

/// The text of a refusal.
#[tactic(auto, unfolding(crate::specs::RefusalText::refusal_text))]
pub fn head(refusal: &Refusal) -> Head
    requires { FitsRefusal refusal.now }
    ensures { result ≡ refusal_text refusal.now }
{
    match refusal {
        Refusal::BadFrame { offset } => Head::new(1).u64(*offset),
        Refusal::TooLong { length } => Head::new(2).u32(*length),
        Refusal::WrongState(state) => Head::new(3).byte(state_number(*state)),
        Refusal::BadName => Head::new(4),
        Refusal::GroupBusy { lane } => Head::new(5).u32(*lane),
        Refusal::SnapshotBusy { lane } => Head::new(6).u32(*lane),
        Refusal::NotNewer { latest } => Head::new(7).u64(*latest),
        Refusal::NoSnapshot => Head::new(8),
        Refusal::NoFile => Head::new(9),
        Refusal::Exists => Head::new(10),
        Refusal::BadBlob(fault) => with_blob_fault(Head::new(11), fault),
        Refusal::WrongDigest { found } => Head::new(12).bytes(&found.0),
        Refusal::WrongSize { place, size } => Head::new(13).u32(*place).u64(*size),
        Refusal::UnknownChunk { place } => Head::new(14).u32(*place),
        Refusal::BadOffset { place, expected } => Head::new(15).u32(*place).u64(*expected),
        Refusal::BadClose(fault) => with_close_fault(Head::new(16), fault),
        Refusal::OpenIndexes { count } => Head::new(17).byte(*count),
        Refusal::BadManifest { cause } => Head::new(18).byte(*cause),
        Refusal::ManifestMismatch { file, field } => Head::new(19).text(file).byte(*field),
        Refusal::NotAllowed => Head::new(20),
        Refusal::TooMany { limit } => Head::new(21).u32(*limit),
        Refusal::BadRange { size } => Head::new(22).u64(*size),
        Refusal::Damaged { digest, fault } => {
            with_chunk_fault(Head::new(23).bytes(&digest.0), fault)
        }
        Refusal::Unreadable { name } => Head::new(24).text(name),
        Refusal::CollectorBusy { lane } => Head::new(25).u32(*lane),
        Refusal::DiskFault => Head::new(26),
        Refusal::Halted { place } => Head::new(27).u64(*place),
        Refusal::NoMemory => Head::new(28),
        Refusal::NoRemote => Head::new(29),
        Refusal::RemoteFault => Head::new(30),
    }
}

fn state_number(state: SessionState) -> u8
    ensures { result ≡ state_number state }
{
    match state {
        SessionState::Idle => 0,
        SessionState::Writer => 1,
        SessionState::Reader => 2,
    }
}

fn with_blob_fault(head: Head, fault: &BadBlob) -> Head
    requires { length head ≤ 1 }
    ensures { result ≡ head ++ blob_fault_text fault.now }
{
    match fault {
        BadBlob::Short => head.byte(1),
        BadBlob::Compressed => head.byte(2),
        BadBlob::Encrypted => head.byte(3),
        BadBlob::EncryptedCompressed => head.byte(4),
        BadBlob::UnknownMagic => head.byte(5),
        BadBlob::TooLong => head.byte(6),
        BadBlob::WrongCrc { kept, found } => head.byte(7).u32(*kept).u32(*found),
    }
}

fn with_close_fault(head: Head, fault: &CloseFault) -> Head
    requires { length head ≤ 1 }
    ensures { result ≡ head ++ close_fault_text fault.now }
{
    match fault {
        CloseFault::Count(count) => head.byte(1).u64(*count).bytes(&[0; 24]),
        CloseFault::Size(size) => head.byte(2).u64(*size).bytes(&[0; 24]),
        CloseFault::Csum(csum) => head.byte(3).bytes(&csum.0),
        CloseFault::Rest(size) => head.byte(4).u64(*size).bytes(&[0; 24]),
    }
}

fn with_chunk_fault(head: Head, fault: &ChunkFault) -> Head
    requires { length head ≤ 33 }
    ensures { result ≡ head ++ chunk_fault_text fault.now }
{
    match fault {
        ChunkFault::Nothing => head.byte(0).bytes(&[0; 32]),
        ChunkFault::NotABlob => head.byte(1).bytes(&[0; 32]),
        ChunkFault::Other(found) => head.byte(2).bytes(&found.0),
    }
}

/// The refusal of the number that has these fields. Memory is only taken for one with a text.
#[tactic(auto, unfolding(crate::specs::RefusalReading::refusal_from, crate::specs::RefusalReading::one))]
pub fn read(alloc: Global, number: u8, fields: &[u8]) -> Result<Option<Refusal>, AllocError>
    ensures refusal { IfOk result (λ r. r ≡ refusal_from number fields.now) }
    ensures memory { WantsMemory 1 fields.now (refusal_from number fields.now) result }
{
    match number {
        19 => mismatch(alloc, fields),
        24 => {
            let name = only_text(alloc, fields)?;
            Ok(name.map(|name| Refusal::Unreadable { name }))
        }
        _ => Ok(without_text(number, fields)),
    }
}

#[tactic(auto, unfolding(crate::specs::RefusalReading::refusal_from, crate::specs::RefusalReading::one, crate::specs::RefusalReading::two))]
fn without_text(number: u8, fields: &[u8]) -> Option<Refusal>
    requires mismatch { number ≢ 19 }
    requires unreadable { number ≢ 24 }
    ensures { result ≡ refusal_from number fields.now }
{
    match number {
        1 => whole(u64_at(fields)).map(|offset| Refusal::BadFrame { offset }),
        2 => whole(u32_at(fields)).map(|length| Refusal::TooLong { length }),
        3 => whole(state_at(fields)).map(Refusal::WrongState),
        4 => alone(Refusal::BadName, fields),
        5 => whole(u32_at(fields)).map(|lane| Refusal::GroupBusy { lane }),
        6 => whole(u32_at(fields)).map(|lane| Refusal::SnapshotBusy { lane }),
        7 => whole(u64_at(fields)).map(|latest| Refusal::NotNewer { latest }),
        8 => alone(Refusal::NoSnapshot, fields),
        9 => alone(Refusal::NoFile, fields),
        10 => alone(Refusal::Exists, fields),
        11 => whole(blob_fault_at(fields)).map(Refusal::BadBlob),
        12 => whole(digest_at(fields)).map(|found| Refusal::WrongDigest { found }),
        13 => wrong_size(fields),
        14 => whole(u32_at(fields)).map(|place| Refusal::UnknownChunk { place }),
        15 => bad_offset(fields),
        16 => whole(close_fault_at(fields)).map(Refusal::BadClose),
        17 => whole(byte_at(fields)).map(|count| Refusal::OpenIndexes { count }),
        18 => whole(small_at(5, fields)).map(|cause| Refusal::BadManifest { cause }),
        20 => alone(Refusal::NotAllowed, fields),
        21 => whole(u32_at(fields)).map(|limit| Refusal::TooMany { limit }),
        22 => whole(u64_at(fields)).map(|size| Refusal::BadRange { size }),
        23 => damaged(fields),
        25 => whole(u32_at(fields)).map(|lane| Refusal::CollectorBusy { lane }),
        26 => alone(Refusal::DiskFault, fields),
        27 => whole(u64_at(fields)).map(|place| Refusal::Halted { place }),
        28 => alone(Refusal::NoMemory, fields),
        29 => alone(Refusal::NoRemote, fields),
        30 => alone(Refusal::RemoteFault, fields),
        _ => None,
    }
}

#[tactic(auto, unfolding(crate::specs::RefusalReading::two))]
fn wrong_size(fields: &[u8]) -> Option<Refusal>
    ensures { result ≡ two (number_at w32) (number_at w64) Refusal.WrongSize fields.now }
{
    let (place, rest) = u32_at(fields)?;
    let size = whole(u64_at(rest))?;
    Some(Refusal::WrongSize { place, size })
}

#[tactic(auto, unfolding(crate::specs::RefusalReading::two))]
fn bad_offset(fields: &[u8]) -> Option<Refusal>
    ensures { result ≡ two (number_at w32) (number_at w64) Refusal.BadOffset fields.now }
{
    let (place, rest) = u32_at(fields)?;
    let expected = whole(u64_at(rest))?;
    Some(Refusal::BadOffset { place, expected })
}

#[tactic(auto, unfolding(crate::specs::RefusalReading::two))]
fn damaged(fields: &[u8]) -> Option<Refusal>
    ensures { result ≡ two digest_at spec.chunk_fault_at Refusal.Damaged fields.now }
{
    let (digest, rest) = digest_at(fields)?;
    let fault = whole(chunk_fault_at(rest))?;
    Some(Refusal::Damaged { digest, fault })
}

#[tactic(auto, unfolding(crate::specs::RefusalReading::alone))]
fn alone(refusal: Refusal, fields: &[u8]) -> Option<Refusal>
    ensures { result ≡ alone refusal fields.now }
{
    if fields.is_empty() {
        Some(refusal)
    } else {
        None
    }
}

#[tactic(auto, unfolding(crate::specs::RefusalReading::mismatch_in))]
fn mismatch(alloc: Global, fields: &[u8]) -> Result<Option<Refusal>, AllocError>
    ensures refusal { IfOk result (λ r. r ≡ mismatch_in fields.now) }
    ensures memory { WantsMemory 1 fields.now (mismatch_in fields.now) result }
{
    let Some((file, rest)) = text_at(fields) else {
        return Ok(None);
    };
    let Some(field) = whole(small_at(7, rest)) else {
        return Ok(None);
    };
    // Just the fields 1 to 3 name no file.
    if (field <= 3) != file.is_empty() {
        return Ok(None);
    }
    let file = copied(alloc, file)?;
    Ok(Some(Refusal::ManifestMismatch { file, field }))
}

fn state_at(bytes: &[u8]) -> Option<(SessionState, &[u8])>
    ensures { option_map (λ x. (x.0, x.1.now)) result ≡ spec.state_at bytes.now }
{
    let (number, rest) = byte_at(bytes)?;
    match number {
        0 => Some((SessionState::Idle, rest)),
        1 => Some((SessionState::Writer, rest)),
        2 => Some((SessionState::Reader, rest)),
        _ => None,
    }
}

fn blob_fault_at(bytes: &[u8]) -> Option<(BadBlob, &[u8])>
    ensures { option_map (λ x. (x.0, x.1.now)) result ≡ spec.blob_fault_at bytes.now }
{
    let (number, rest) = byte_at(bytes)?;
    match number {
        1 => Some((BadBlob::Short, rest)),
        2 => Some((BadBlob::Compressed, rest)),
        3 => Some((BadBlob::Encrypted, rest)),
        4 => Some((BadBlob::EncryptedCompressed, rest)),
        5 => Some((BadBlob::UnknownMagic, rest)),
        6 => Some((BadBlob::TooLong, rest)),
        7 => crcs_at(rest),
        _ => None,
    }
}

fn crcs_at(bytes: &[u8]) -> Option<(BadBlob, &[u8])>
    ensures { option_map (λ x. (x.0, x.1.now)) result ≡ spec.crcs_at bytes.now }
{
    let (kept, rest) = u32_at(bytes)?;
    let (found, rest) = u32_at(rest)?;
    Some((BadBlob::WrongCrc { kept, found }, rest))
}

fn close_fault_at(bytes: &[u8]) -> Option<(CloseFault, &[u8])>
    ensures { option_map (λ x. (x.0, x.1.now)) result ≡ spec.close_fault_at bytes.now }
{
    let (field, rest) = byte_at(bytes)?;
    match field {
        1 => {
            let (count, rest) = wide_at(rest)?;
            Some((CloseFault::Count(count), rest))
        }
        2 => {
            let (size, rest) = wide_at(rest)?;
            Some((CloseFault::Size(size), rest))
        }
        3 => {
            let (csum, rest) = digest_at(rest)?;
            Some((CloseFault::Csum(csum), rest))
        }
        4 => {
            let (size, rest) = wide_at(rest)?;
            Some((CloseFault::Rest(size), rest))
        }
        _ => None,
    }
}

fn chunk_fault_at(bytes: &[u8]) -> Option<(ChunkFault, &[u8])>
    ensures { option_map (λ x. (x.0, x.1.now)) result ≡ spec.chunk_fault_at bytes.now }
{
    let (number, rest) = byte_at(bytes)?;
    match number {
        0 => Some((ChunkFault::Nothing, zeros_at(32, rest)?)),
        1 => Some((ChunkFault::NotABlob, zeros_at(32, rest)?)),
        2 => {
            let (found, rest) = digest_at(rest)?;
            Some((ChunkFault::Other(found), rest))
        }
        _ => None,
    }
}

/// A number in eight bytes, and 24 zero bytes.
fn wide_at(bytes: &[u8]) -> Option<(u64, &[u8])>
    ensures { option_map (λ x. (x.0, x.1.now)) result ≡ wide_at bytes.now }
{
    let (number, rest) = u64_at(bytes)?;
    Some((number, zeros_at(24, rest)?))
}

/// What follows so many zero bytes.
pub fn zeros_at(count: usize, bytes: &[u8]) -> Option<&[u8]>
    ensures { option_map (λ rest. (tt, rest.now)) result ≡ zeros_at count bytes.now }
{
    if bytes.len() < count {
        return None;
    }
    let (zeros, rest) = bytes.split_at(count);
    if are_zeros(zeros) { Some(rest) } else { None }
}

fn are_zeros(bytes: &[u8]) -> bool
    ensures { result ≡ list_all (λ b. b == 0) bytes.now }
{
    bytes.iter().all(|byte| *byte == 0)
}

/// A number from 1 to the greatest.
fn small_at(greatest: u8, bytes: &[u8]) -> Option<(u8, &[u8])>
    ensures { option_map (λ x. (x.0, x.1.now)) result ≡ small_at greatest bytes.now }
{
    let (number, rest) = byte_at(bytes)?;
    if number < 1 || number > greatest {
        return None;
    }
    Some((number, rest))
}
