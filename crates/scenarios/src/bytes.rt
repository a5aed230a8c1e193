//! Bytes as text: letters and signs as they are, any byte as a backslash and its two hexadecimal digits, and what is repeated as
//! `\{COUNT DIGITS}`.

use crate::differs::Differs;
use crate::words::{number_of, split};
use std::alloc::{AllocError, Global};

/// The most bytes that a line may have: those of two of the longest frames.
const LIMIT: usize = 33_554_432;

/// Adds some bytes so many times.
fn repeat(bytes: &mut Vec<u8>, count: usize, group: &[u8]) -> Result<(), AllocError> {
    if let [byte] = group {
        let len = bytes.len().saturating_add(count);
        return bytes.resize(len, *byte);
    }
    for _ in 0..count {
        bytes.extend_from_slice(group)?;
    }
    Ok(())
}

/// Adds bytes, which are told by digits, so many times.
fn add_run(bytes: &mut Vec<u8>, alloc: Global, count: &str, digits: &str) -> Result<(), Differs> {
    let count = number_of(count)? as usize;
    let Ok(group) = hex::decode(alloc, digits) else {
        return Err(Differs::Unread);
    };
    if count.saturating_mul(group.len()) > LIMIT {
        return Err(Differs::Unread);
    }
    repeat(bytes, count, &group)?;
    Ok(())
}

/// Adds what stands behind a backslash, up to the next.
fn add_escaped(bytes: &mut Vec<u8>, alloc: Global, text: &str) -> Result<(), Differs> {
    let rest = if let Some(run) = text.strip_prefix('{') {
        let (run, rest) = run.split_once('}').ok_or(Differs::Unread)?;
        let (count, digits) = split(run);
        add_run(bytes, alloc, count, digits)?;
        rest
    } else {
        let (digits, rest) = text.split_at_checked(2).ok_or(Differs::Unread)?;
        add_run(bytes, alloc, "1", digits)?;
        rest
    };
    bytes.extend_from_slice(rest.as_bytes())?;
    Ok(())
}

/// The bytes of a text.
pub fn bytes_of(alloc: Global, text: &str) -> Result<Vec<u8>, Differs> {
    let Some((front, escaped)) = text.split_once('\\') else {
        return Ok(text.as_bytes().to_vec(alloc)?);
    };
    let mut bytes = front.as_bytes().to_vec(alloc)?;
    for part in escaped.split('\\') {
        add_escaped(&mut bytes, alloc, part)?;
    }
    Ok(bytes)
}

/// So many bytes are shown.
const SHOWN: usize = 24;

/// The first bytes as text.
pub fn shown(alloc: Global, bytes: &[u8]) -> Result<String, AllocError> {
    let mut text = String::new(alloc);
    for byte in bytes.iter().take(SHOWN) {
        if byte.is_ascii_graphic() && *byte != b'\\' {
            text.push(char::from(*byte))?;
        } else {
            write!(text, "\\{byte:02x}")?;
        }
    }
    Ok(text)
}
