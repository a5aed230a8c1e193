//! Files of indexes, and bytes that several tests change.

use crate::asserts::must;
use disk_trait::{Disk, FailingDisk, MemoryDisk};
use paged_indexes::{IndexEntry, TakesEntries};
use sha2::{Digest, Sha256};
use std::alloc::{AllocError, Global};
use std::process::Abort;

/// Where the index stands.
pub(crate) const NAME: &str = "host/a/2020-01-15T06:30:03Z/root.didx";

/// A header without its csum, where the bytes at these places are not zeros.
pub(crate) fn header(rt: &impl Abort, alloc: Global, parts: &[(usize, &[u8])]) -> Vec<u8> {
    let mut text = zeros(rt, alloc, 4096);
    for (at, bytes) in parts {
        put(&mut text, *at, bytes);
    }
    text
}

/// The header has the csum of what stands behind it.
pub(crate) fn summed(text: &mut Vec<u8>) {
    let csum = Sha256::digest(text.get(4096..).unwrap_or(&[]));
    put(text, 32, &csum);
}

pub(crate) fn zeros(rt: &impl Abort, alloc: Global, count: usize) -> Vec<u8> {
    must(rt, vec![in alloc; 0; count])
}

/// The first bytes, where there are so many.
pub(crate) fn front(bytes: &[u8], count: usize) -> &[u8] {
    bytes.get(..count).unwrap_or(bytes)
}

/// Puts bytes at a place, where it has room for them.
pub(crate) fn put(text: &mut [u8], at: usize, bytes: &[u8]) {
    if let Some(behind) = text.get_mut(at..) {
        for (place, byte) in behind.iter_mut().zip(bytes) {
            *place = *byte;
        }
    }
}

pub(crate) fn changed(rt: &impl Abort, text: &Vec<u8>, at: usize, byte: u8) -> Vec<u8> {
    let mut changed = must(rt, text.clone());
    put(&mut changed, at, &[byte]);
    changed
}

pub(crate) fn disk_with(rt: &impl Abort, alloc: Global, text: &[u8]) -> MemoryDisk {
    let mut disk = MemoryDisk::new(alloc);
    must(rt, disk.put(alloc, NAME, text));
    disk
}

/// A disk that fails at its call of this number, and then no more.
pub(crate) fn failing_at(
    rt: &impl Abort,
    alloc: Global,
    text: &[u8],
    number: u64,
) -> FailingDisk<MemoryDisk> {
    let plan = must(rt, Vec::from_slice(alloc, &[number]));
    FailingDisk::at_calls(disk_with(rt, alloc, text), plan)
}

/// What takes an index's entries and counts them: how many there were, where the last one's piece begins, and it.
#[derive(Drop)]
pub(crate) struct Counted {
    pub(crate) count: u32,
    pub(crate) last: Option<(u64, IndexEntry)>,
}

impl TakesEntries for Counted {
    ghost taken = { λ _ _ _. Unit {0} };

    fn take(&mut self, start: u64, entry: &IndexEntry) -> Result<(), AllocError> {
        self.count = self.count.saturating_add(1);
        self.last = Some((start, *entry));
        Ok(())
    }
}
