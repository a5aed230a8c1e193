//! Sessions with a disk, as texts. A line is a call and what is told: `done` for a change, `none` where nothing stands at a
//! name, `failed`, or what is read. In it `''` stands for no bytes, and `NAME` for a name that the session is played at, also as
//! what is told.

use crate::asserts::{must, same_at};
use disk_trait::{Disk, DiskError};
use std::alloc::Global;
use std::process::Abort;

/// A text up to its first space, and what stands behind.
pub fn parted(text: &str) -> (&str, &str) {
    match text.split_once(" ") {
        Some(parts) => parts,
        None => (text, ""),
    }
}

fn meant<'t>(word: &'t str, name: &'t str) -> &'t str {
    match word {
        "''" => "",
        "NAME" => name,
        _ => word,
    }
}

fn number(digits: &str) -> u64 {
    let mut number = 0u64;
    for digit in digits.as_bytes() {
        let value = u64::from(digit.wrapping_sub(b'0'));
        number = number.wrapping_mul(10).wrapping_add(value);
    }
    number
}

fn text_of(rt: &impl Abort, alloc: Global, bytes: &[u8]) -> String {
    must(
        rt,
        String::from_str(alloc, str::from_utf8(bytes).unwrap_or("no text")),
    )
}

fn number_or_none(rt: &impl Abort, alloc: Global, found: Option<u64>) -> String {
    match found {
        Some(number) => must(rt, format!(in alloc; "{number}")),
        None => must(rt, String::from_str(alloc, "none")),
    }
}

fn bytes_or_none(rt: &impl Abort, alloc: Global, found: Option<Vec<u8>>) -> String {
    match found {
        Some(bytes) => text_of(rt, alloc, &bytes),
        None => must(rt, String::from_str(alloc, "none")),
    }
}

// The names with spaces between them.
fn listed(rt: &impl Abort, alloc: Global, names: &[String]) -> String {
    let mut text = String::new(alloc);
    for name in names {
        if !text.is_empty() {
            must(rt, text.push(' '));
        }
        must(rt, text.push_str(name.as_str()));
    }
    if text.is_empty() {
        must(rt, text.push_str("no names"));
    }
    text
}

// How many bytes of a file are read from an offset on, and what then stands where they were to go.
fn part<D: Disk>(
    rt: &impl Abort,
    alloc: Global,
    disk: &mut D,
    name: &str,
    numbers: &str,
) -> Result<String, DiskError> {
    let (offset, length) = parted(numbers);
    let length = number(length).min(4) as usize;
    let mut into = [b'-'; 4];
    let count = disk.read_part(name, number(offset), &mut into[..length])?;
    let count = match count {
        Some(count) => Some(count as u64),
        None => None,
    };
    let mut text = number_or_none(rt, alloc, count);
    must(rt, text.push(' '));
    must(
        rt,
        text.push_str(str::from_utf8(&into).unwrap_or("no text")),
    );
    Ok(text)
}

// Makes a change: whether something stood at the name. No disk takes a longer name.
fn change<D: Disk>(
    alloc: Global,
    disk: &mut D,
    verb: &str,
    name: &str,
    rest: &str,
) -> Result<bool, DiskError> {
    if name.len() > 255 || rest.len() > 255 {
        return Err(DiskError::Failed);
    }
    match verb {
        "put" => disk.put(alloc, name, rest.as_bytes())?,
        "rename" => return Ok(disk.rename(name, rest)?),
        "remove" => return Ok(disk.remove(name)?),
        _ => disk.sync()?,
    }
    Ok(true)
}

// Makes a call: what it tells.
fn call<D: Disk>(
    rt: &impl Abort,
    alloc: Global,
    disk: &mut D,
    verb: &str,
    name: &str,
    rest: &str,
) -> Result<String, DiskError> {
    match verb {
        "size" => Ok(number_or_none(rt, alloc, disk.size(name)?)),
        "read" => Ok(bytes_or_none(rt, alloc, disk.read(alloc, name)?)),
        "part" => part(rt, alloc, disk, name, rest),
        "list" => Ok(listed(rt, alloc, &disk.list(alloc, name)?)),
        "calls" => Ok(number_or_none(rt, alloc, Some(disk.calls()))),
        "faults" => Ok(number_or_none(rt, alloc, Some(disk.faults()))),
        _ => {
            let is_there = change(alloc, disk, verb, name, rest)?;
            let word = if is_there { "done" } else { "none" };
            Ok(must(rt, String::from_str(alloc, word)))
        }
    }
}

/// Makes the call of a line, at a name: what it tells.
pub fn told<D: Disk>(
    rt: &impl Abort,
    alloc: Global,
    disk: &mut D,
    name: &str,
    line: &str,
) -> String {
    let (verb, words) = parted(line);
    let (first, rest) = parted(words);
    match call(rt, alloc, disk, verb, meant(first, name), meant(rest, name)) {
        Ok(text) => text,
        Err(DiskError::Failed) => must(rt, String::from_str(alloc, "failed")),
        Err(DiskError::NoMemory) => panic!(rt; "no memory"),
    }
}

/// Plays a session at a name.
pub fn play_at<D: Disk>(rt: &impl Abort, alloc: Global, disk: &mut D, name: &str, session: &str) {
    for line in session.lines() {
        let (line, want) = must(rt, line.split_once(" = ").ok_or("no line of a session"));
        let found = told(rt, alloc, disk, name, line);
        same_at(rt, line, found.as_str(), meant(want, name));
    }
}

/// Plays a session without such a name.
pub fn play<D: Disk>(rt: &impl Abort, alloc: Global, disk: &mut D, session: &str) {
    play_at(rt, alloc, disk, "", session)
}
