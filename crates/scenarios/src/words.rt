//! Words and numbers of lines.

use crate::differs::Differs;
use std::alloc::{AllocError, Global};

/// The first word of a text, and what stands behind it.
pub fn split(text: &str) -> (&str, &str) {
    match text.split_once(' ') {
        Some((word, rest)) => (word, rest),
        None => (text, ""),
    }
}

/// The number of a text.
pub fn number_of(text: &str) -> Result<u64, Differs> {
    match text.parse::<u64>() {
        Ok(number) => Ok(number),
        Err(_) => Err(Differs::Unread),
    }
}

/// The numbers of a text, with spaces between them.
pub fn numbers_of(alloc: Global, text: &str) -> Result<Vec<u64>, Differs> {
    let mut numbers = Vec::new(alloc);
    for word in text.split_whitespace() {
        numbers.push(number_of(word)?)?;
    }
    Ok(numbers)
}

/// Adds a number to a text, behind a space where it is not the first.
pub fn push_number(text: &mut String, number: u64) -> Result<(), AllocError> {
    if !text.is_empty() {
        text.push(' ')?;
    }
    write!(text, "{number}")
}

/// Numbers as a text.
pub fn text_of(alloc: Global, numbers: &[u64]) -> Result<String, AllocError> {
    let mut text = String::new(alloc);
    for number in numbers {
        push_number(&mut text, *number)?;
    }
    Ok(text)
}

/// What was found is what a line says.
pub fn same(found: String, wanted: &str) -> Result<(), Differs> {
    if found.as_str() == wanted {
        Ok(())
    } else {
        Err(Differs::Found(found))
    }
}
