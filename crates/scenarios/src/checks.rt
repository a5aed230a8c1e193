//! What a line says of what a session left.

use crate::bytes::{bytes_of, shown};
use crate::differs::Differs;
use crate::session::{Counts, Left};
use crate::stage::{Stage, name_of};
use crate::words::{numbers_of, push_number, same, split, text_of};
use disk_trait::{Disk, DiskError, LoggedStep, MemoryDisk, Step};
use lane::Ending;
use std::alloc::{AllocError, Global};
use store_types::Entry;

/// The book of touches, which counts as none of the files.
const BOOK: &str = ".chunks/book";

/// A line holds of the last session, or of the disk that lines speak of.
pub fn holds(stage: &mut Stage, left: &Left, word: &str, rest: &str) -> Result<(), Differs> {
    let alloc = stage.alloc;
    match word.as_bytes() {
        b"file" => has_file(&mut stage.disk, alloc, rest),
        b"bytes" => has_bytes(&mut stage.disk, alloc, rest),
        b"files" => same(count_files(&mut stage.disk, alloc, "")?, rest),
        b"chunks" => same(count_files(&mut stage.disk, alloc, ".chunks/")?, rest),
        b"same" => same_files(stage),
        b"lanes" => same(
            lanes(alloc, &left.order, numbers_of(alloc, rest)?.len())?,
            rest,
        ),
        _ => same(said(alloc, left, &stage.disk, word)?, rest),
    }
}

/// What stands behind a word that speaks of the last session.
fn said(alloc: Global, left: &Left, disk: &MemoryDisk, word: &str) -> Result<String, Differs> {
    let text: Result<String, AllocError> = match word.as_bytes() {
        b"kinds" => kinds(alloc, &left.order),
        b"moments" => moments(alloc, &left.order),
        b"entries" => text_of(alloc, &[left.order.len() as u64]),
        b"calls" => text_of(alloc, &left.report.calls),
        b"writes" => writes(alloc, left, disk.steps()),
        b"made" => text_of(alloc, &[made(left.disk)]),
        b"remote-made" => text_of(alloc, &[made(left.remote)]),
        b"faults" => text_of(alloc, &[left.disk.faults]),
        b"remote-faults" => text_of(alloc, &[left.remote.faults]),
        b"place" => place(alloc, left),
        b"saved" => String::from_str(alloc, is_saved(left)),
        _ => return Err(Differs::Unread),
    };
    Ok(text?)
}

fn kinds(alloc: Global, order: &[Entry]) -> Result<String, AllocError> {
    let mut text = String::new(alloc);
    for entry in order {
        push_number(&mut text, u64::from(entry.kind))?;
    }
    Ok(text)
}

fn moments(alloc: Global, order: &[Entry]) -> Result<String, AllocError> {
    let mut text = String::new(alloc);
    for entry in order {
        push_number(&mut text, entry.moment)?;
    }
    Ok(text)
}

/// The lanes of so many first entries.
fn lanes(alloc: Global, order: &[Entry], count: usize) -> Result<String, AllocError> {
    let mut text = String::new(alloc);
    for entry in order.iter().take(count) {
        push_number(&mut text, u64::from(entry.lane))?;
    }
    Ok(text)
}

/// How many calls a disk has had.
fn made(counts: Counts) -> u64 {
    counts.after.saturating_sub(counts.before)
}

/// Where no command stands, of each session that is broken.
fn place(alloc: Global, left: &Left) -> Result<String, AllocError> {
    let mut text = String::new(alloc);
    for report in &left.report.lanes {
        if let Ending::Broken { place } = report.ending {
            push_number(&mut text, place)?;
        }
    }
    Ok(text)
}

fn is_saved(left: &Left) -> &'static str {
    match left.report.not_saved {
        None => "yes",
        Some(DiskError::Failed) => "no",
        Some(DiskError::NoMemory) => "no memory",
    }
}

fn has_file(disk: &mut MemoryDisk, alloc: Global, text: &str) -> Result<(), Differs> {
    let (name, size) = split(text);
    let name = name_of(alloc, name)?;
    match disk.size(name.as_str())? {
        Some(found) => same(text_of(alloc, &[found])?, size),
        None => same(String::from_str(alloc, "no file")?, size),
    }
}

/// How many files stand on a disk whose names begin so, the book apart.
fn count_files(disk: &mut MemoryDisk, alloc: Global, front: &str) -> Result<String, Differs> {
    let mut count = 0u64;
    for name in disk.list(alloc, front)? {
        if name.as_str() != BOOK {
            count = count.saturating_add(1);
        }
    }
    Ok(text_of(alloc, &[count])?)
}

fn has_bytes(disk: &mut MemoryDisk, alloc: Global, text: &str) -> Result<(), Differs> {
    let (name, bytes) = split(text);
    let name = name_of(alloc, name)?;
    let wanted = bytes_of(alloc, bytes)?;
    let Some(found) = disk.read(alloc, name.as_str())? else {
        return same(String::from_str(alloc, "no file")?, "");
    };
    if found == wanted {
        return Ok(());
    }
    Err(Differs::Found(shown(alloc, &found)?))
}

/// The datastore and the remote have the same files, the books apart.
fn same_files(stage: &mut Stage) -> Result<(), Differs> {
    match &mut stage.other {
        Some(other) => same(first_other(stage.alloc, &mut stage.disk, other)?, ""),
        None => Err(Differs::Unread),
    }
}

/// Two disks have the same under a name, or it is a book's.
fn is_same(
    alloc: Global,
    disk: &mut MemoryDisk,
    other: &mut MemoryDisk,
    name: &str,
) -> Result<bool, Differs> {
    let found = disk.read(alloc, name)?;
    let wanted = other.read(alloc, name)?;
    Ok(name == BOOK || found == wanted)
}

/// The first name under which two disks have other files, the books apart. None has no letters.
pub fn first_other(
    alloc: Global,
    disk: &mut MemoryDisk,
    other: &mut MemoryDisk,
) -> Result<String, Differs> {
    let mut names = disk.list(alloc, "")?;
    names.append(&mut other.list(alloc, "")?)?;
    for name in names {
        if !is_same(alloc, disk, other, name.as_str())? {
            return Ok(name);
        }
    }
    Ok(String::new(alloc))
}

fn letter_of(step: &Step) -> char {
    match step {
        Step::Put { .. } => 'p',
        Step::Sync => 's',
        Step::Rename { .. } => 'r',
        Step::Remove { .. } => 'd',
    }
}

/// Adds the writing calls behind one count of calls, up to another, each by a letter, or a dash.
fn push_letters(
    text: &mut String,
    steps: &[LoggedStep],
    before: u64,
    now: u64,
) -> Result<(), AllocError> {
    let mut is_none = true;
    for step in steps {
        if before < step.at && step.at <= now {
            text.push(letter_of(&step.step))?;
            is_none = false;
        }
    }
    text.push_str(if is_none { "-" } else { "" })
}

/// The writing calls up to the first entry, opening's among them, up to each entry behind it, and behind the last.
fn writes(alloc: Global, left: &Left, steps: &[LoggedStep]) -> Result<String, AllocError> {
    let mut text = String::new(alloc);
    let mut before = left.disk.before;
    for now in &left.report.calls {
        push_letters(&mut text, steps, before, *now)?;
        text.push(' ')?;
        before = *now;
    }
    push_letters(&mut text, steps, before, left.disk.after)?;
    Ok(text)
}
