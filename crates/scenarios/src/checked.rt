//! Runs that are checked, as they were and with other bytes in their files: each time what is told is what the plain copy comes to.

use crate::compared::file_at;
use crate::differs::Differs;
use crate::plan::Plan;
use crate::session::{Asked, Disks, serve_check, words};
use crate::words::{same, text_of};
use crate::woven::Plains;
use port_traits::{MemSink, MemSource};
use std::alloc::{AllocError, Global};
use std::mem;
use std::sync::Wait;
use std::thread::Threads;
use store_history::Port;

/// A run that was checked.
#[derive(Drop)]
pub struct Checked {
    /// The disks as they were before it.
    disks: Disks,
    plains: Plains,
    /// The order's file, and of each session its input and the replies that were kept of it.
    files: Vec<Vec<u8>>,
    /// The status, and the line.
    pub told: String,
}

fn ports_of(alloc: Global, files: &[Vec<u8>]) -> Result<Vec<Port<MemSource, MemSink>>, AllocError> {
    let mut ports = Vec::new(alloc);
    for file in files {
        ports.push(Port {
            source: MemSource::new(file.clone()?, Vec::new(alloc)),
            sink: MemSink::new(alloc, Vec::new(alloc)),
        })?;
    }
    Ok(ports)
}

/// The check of these files.
fn asked_of(alloc: Global, files: &[Vec<u8>]) -> Result<Asked, AllocError> {
    let ports = ports_of(alloc, files)?;
    let words = words(alloc, &["check", "root", "order"], files.len() / 2)?;
    Ok(Asked { words, ports })
}

/// A status, and the line behind it, if there is one. It is ended.
fn told_with(alloc: Global, status: &str, line: Vec<u8>) -> Result<String, Differs> {
    let mut told = String::from_str(alloc, status)?;
    if line.is_empty() {
        return Ok(told);
    }
    let Ok(line) = String::from_utf8(line) else {
        return Err(Differs::Unread);
    };
    let line = line.as_str();
    told.push(' ')?;
    told.push_str(line.strip_suffix('\n').unwrap_or("without its end"))?;
    Ok(told)
}

/// Other bytes in place of those from one place up to another.
fn spliced(
    alloc: Global,
    bytes: &[u8],
    from: usize,
    until: usize,
    others: &[u8],
) -> Result<Vec<u8>, AllocError> {
    let mut spliced = Vec::new(alloc);
    spliced.extend_from_slice(bytes.get(..from).unwrap_or(&[]))?;
    spliced.extend_from_slice(others)?;
    spliced.extend_from_slice(bytes.get(until..).unwrap_or(&[]))?;
    Ok(spliced)
}

/// How often each of these was told.
#[derive(Clone, Copy, Default)]
struct Counts {
    equal: u64,
    unequal: u64,
    bad_order: u64,
}

impl Counts {
    fn count(&mut self, told: String) -> Result<(), Differs> {
        let count = match told.as_str() {
            "Ok equal" => &mut self.equal,
            "BadOrder" => &mut self.bad_order,
            text if text.starts_with("Unequal ") => &mut self.unequal,
            _ => return Err(Differs::Found(told)),
        };
        *count = count.saturating_add(1);
        Ok(())
    }

    fn text(&self, alloc: Global) -> Result<String, AllocError> {
        text_of(alloc, &[self.equal, self.unequal, self.bad_order])
    }
}

/// The order's file begins with so many bytes, and each entry has so many.
const ORDER_FRONT: usize = 8;

const ENTRY_SIZE: usize = 13;

impl Checked {
    /// Checks a run, beside the plain copies of these disks.
    pub fn of<R: Threads + Wait + Sync>(
        rt: &R,
        alloc: Global,
        disks: Disks,
        plains: Plains,
        files: Vec<Vec<u8>>,
    ) -> Result<Checked, Differs> {
        let told = String::new(alloc);
        let mut checked = Checked {
            disks,
            plains,
            files,
            told,
        };
        checked.told = checked.check(rt, alloc)?;
        Ok(checked)
    }

    /// Checks a run that had this plan's order, and left what it wants.
    pub fn planned<R: Threads + Wait + Sync>(
        rt: &R,
        alloc: Global,
        disks: Disks,
        plan: &Plan,
    ) -> Result<Checked, Differs> {
        let files = plan.wanted_files()?;
        let plains = Plains::load(alloc, &disks)?;
        Checked::of(rt, alloc, disks, plains, files)
    }

    /// What is told of the files, which is what the plain copy comes to.
    fn check<R: Threads + Wait + Sync>(&self, rt: &R, alloc: Global) -> Result<String, Differs> {
        let asked = asked_of(alloc, &self.files)?;
        let (status, line) = serve_check(rt, alloc, asked, self.disks.copies(alloc)?)?;
        let told = told_with(alloc, status.name(), line)?;
        let wanted = self.plains.told_of(alloc, &self.files)?;
        same(told.clone()?, wanted.as_str())?;
        Ok(told)
    }

    fn byte_at(&self, file: usize, place: usize) -> Option<u8> {
        file_at(&self.files, file).get(place).copied()
    }

    /// A file with other bytes in place of those from one place up to another.
    fn spliced(
        &self,
        alloc: Global,
        file: usize,
        from: usize,
        until: usize,
        others: &[u8],
    ) -> Result<Vec<u8>, AllocError> {
        spliced(alloc, file_at(&self.files, file), from, until, others)
    }

    /// The order's file with the entry at a place twice.
    fn twice(&self, alloc: Global, place: usize, next: usize) -> Result<Vec<u8>, AllocError> {
        let bytes = file_at(&self.files, 0);
        let entry = bytes.get(place..next).unwrap_or(&[]);
        spliced(alloc, bytes, place, place, entry)
    }

    /// The order's file with the entry at a place behind the next.
    fn turned(&self, alloc: Global, place: usize, next: usize) -> Result<Vec<u8>, AllocError> {
        let bytes = file_at(&self.files, 0);
        let last = next.saturating_add(ENTRY_SIZE);
        let mut turned = bytes.get(next..last).unwrap_or(&[]).to_vec(alloc)?;
        turned.extend_from_slice(bytes.get(place..next).unwrap_or(&[]))?;
        spliced(alloc, bytes, place, last, &turned)
    }

    /// Puts these bytes in place of a file's, which it gives.
    fn put(&mut self, file: usize, bytes: Vec<u8>) -> Result<Vec<u8>, Differs> {
        match self.files.get_mut(file) {
            Some(kept) => Ok(mem::replace(kept, bytes)),
            None => Err(Differs::Unread),
        }
    }

    /// The same, with these bytes in a file.
    fn check_with<R: Threads + Wait + Sync>(
        &mut self,
        rt: &R,
        alloc: Global,
        file: usize,
        bytes: Vec<u8>,
        counts: &mut Counts,
    ) -> Result<(), Differs> {
        let kept = self.put(file, bytes)?;
        let told = self.check(rt, alloc)?;
        let _ = self.put(file, kept)?;
        counts.count(told)
    }

    /// A byte of a file is another, is gone, and has one before it.
    fn check_byte<R: Threads + Wait + Sync>(
        &mut self,
        rt: &R,
        alloc: Global,
        file: usize,
        place: usize,
        counts: &mut Counts,
    ) -> Result<(), Differs> {
        let next = place.saturating_add(1);
        if let Some(byte) = self.byte_at(file, place) {
            let other = self.spliced(alloc, file, place, next, &[byte ^ 1])?;
            self.check_with(rt, alloc, file, other, counts)?;
            let gone = self.spliced(alloc, file, place, next, &[])?;
            self.check_with(rt, alloc, file, gone, counts)?;
        }
        let more = self.spliced(alloc, file, place, place, &[42])?;
        self.check_with(rt, alloc, file, more, counts)
    }

    /// Each byte of a file so, and one behind the last.
    fn check_file<R: Threads + Wait + Sync>(
        &mut self,
        rt: &R,
        alloc: Global,
        file: usize,
        counts: &mut Counts,
    ) -> Result<(), Differs> {
        for place in 0..=file_at(&self.files, file).len() {
            self.check_byte(rt, alloc, file, place, counts)?;
        }
        Ok(())
    }

    /// Each file so: how often the replies are equal, are not, and how often there is no order.
    pub fn check_bytes<R: Threads + Wait + Sync>(
        &mut self,
        rt: &R,
        alloc: Global,
    ) -> Result<String, Differs> {
        let mut counts = Counts::default();
        for file in 0..self.files.len() {
            self.check_file(rt, alloc, file, &mut counts)?;
        }
        Ok(counts.text(alloc)?)
    }

    /// An entry of the order is gone, comes twice, and stands behind the next.
    fn check_entry<R: Threads + Wait + Sync>(
        &mut self,
        rt: &R,
        alloc: Global,
        place: usize,
        counts: &mut Counts,
    ) -> Result<(), Differs> {
        let next = place.saturating_add(ENTRY_SIZE);
        let gone = self.spliced(alloc, 0, place, next, &[])?;
        self.check_with(rt, alloc, 0, gone, counts)?;
        let twice = self.twice(alloc, place, next)?;
        self.check_with(rt, alloc, 0, twice, counts)?;
        let later = self.turned(alloc, place, next)?;
        self.check_with(rt, alloc, 0, later, counts)
    }

    /// Each entry of the order so: how often the replies are equal, are not, and how often there is no order.
    pub fn check_entries<R: Threads + Wait + Sync>(
        &mut self,
        rt: &R,
        alloc: Global,
    ) -> Result<String, Differs> {
        let mut counts = Counts::default();
        for number in 0..file_at(&self.files, 0).len() / ENTRY_SIZE {
            let place = number
                .saturating_mul(ENTRY_SIZE)
                .saturating_add(ORDER_FRONT);
            self.check_entry(rt, alloc, place, &mut counts)?;
        }
        Ok(counts.text(alloc)?)
    }
}
