//! The fields of a body, read from its front: a value, and the bytes that follow it.

ghost use Rattle.std.specs.Prelude.{◌≡◌, IfOk};
ghost use Rattle.std.specs.Int.{w16, w32, w64};
ghost use Rattle.std.specs.Option.{option_map};
ghost use Rattle.wire_commands.specs.Fields as spec;

use std::alloc::{AllocError, Global};
use store_types::{Bytes, Digest32};

pub fn byte_at(bytes: &[u8]) -> Option<(u8, &[u8])>
    ensures { option_map (λ x. (x.0, x.1.now)) result ≡ spec.byte_at bytes.now }
{
    match bytes {
        [] => None,
        [byte, rest @ ..] => Some((*byte, rest)),
    }
}

pub fn u16_at(bytes: &[u8]) -> Option<(u16, &[u8])>
    ensures { option_map (λ x. (x.0, x.1.now)) result ≡ spec.number_at w16 bytes.now }
{
    let (number, rest) = bytes.split_first_chunk::<2>()?;
    Some((u16::from_le_bytes(*number), rest))
}

pub fn u32_at(bytes: &[u8]) -> Option<(u32, &[u8])>
    ensures { option_map (λ x. (x.0, x.1.now)) result ≡ spec.number_at w32 bytes.now }
{
    let (number, rest) = bytes.split_first_chunk::<4>()?;
    Some((u32::from_le_bytes(*number), rest))
}

pub fn u64_at(bytes: &[u8]) -> Option<(u64, &[u8])>
    ensures { option_map (λ x. (x.0, x.1.now)) result ≡ spec.number_at w64 bytes.now }
{
    let (number, rest) = bytes.split_first_chunk::<8>()?;
    Some((u64::from_le_bytes(*number), rest))
}

pub fn digest_at(bytes: &[u8]) -> Option<(Digest32, &[u8])>
    ensures { option_map (λ x. (x.0, x.1.now)) result ≡ spec.digest_at bytes.now }
{
    let (digest, rest) = bytes.split_first_chunk::<32>()?;
    Some((Digest32(*digest), rest))
}

/// A byte that is 0 or 1.
pub fn flag_at(bytes: &[u8]) -> Option<(bool, &[u8])>
    ensures { option_map (λ x. (x.0, x.1.now)) result ≡ spec.flag_at bytes.now }
{
    let (number, rest) = byte_at(bytes)?;
    match number {
        0 => Some((false, rest)),
        1 => Some((true, rest)),
        _ => None,
    }
}

/// A text of at most 255 bytes behind its length.
pub fn text_at(bytes: &[u8]) -> Option<(&[u8], &[u8])>
    ensures { option_map (λ x. (x.0.now, x.1.now)) result ≡ spec.text_at bytes.now }
{
    let (length, rest) = byte_at(bytes)?;
    let length = length as usize;
    if rest.len() < length {
        return None;
    }
    Some(rest.split_at(length))
}

/// The value, where nothing follows it.
pub fn whole<T: Drop>(found: Option<(T, &[u8])>) -> Option<T>
    ensures { result ≡ spec.whole (option_map (λ x. (x.0, x.1.now)) found.entry) }
{
    match found {
        Some((value, [])) => Some(value),
        _ => None,
    }
}

/// Bytes of its own.
pub fn copied(alloc: Global, bytes: &[u8]) -> Result<Bytes, AllocError>
    ensures { IfOk result (λ own. own ≡ bytes.now) }
{
    Ok(Bytes::from_vec(Vec::from_slice(alloc, bytes)?))
}

/// The text that is all that there is.
pub fn only_text(alloc: Global, bytes: &[u8]) -> Result<Option<Bytes>, AllocError>
    ensures text { IfOk result (λ t. t ≡ spec.whole (spec.text_at bytes.now)) }
    ensures memory { spec.WantsMemory 1 bytes.now (spec.whole (spec.text_at bytes.now)) result }
{
    match text_at(bytes) {
        Some((text, [])) => Ok(Some(copied(alloc, text)?)),
        _ => Ok(None),
    }
}
