//! Datastores in memory.

use crate::asserts::must;
use disk_trait::{Disk, MemoryDisk};
use plain_store::Plain;
use std::alloc::Global;
use std::process::Abort;

/// A file: its name, and its bytes in two parts. Where the first is not empty, zeros fill it up to 4,096 bytes.
pub(crate) type File = (&'static str, &'static [u8], &'static [u8]);

/// Puts these bytes in place of what stands at a name, or removes that.
pub(crate) fn change(
    rt: &impl Abort,
    disk: &mut MemoryDisk,
    alloc: Global,
    name: &str,
    bytes: Option<&[u8]>,
) {
    assert!(rt; name.len() <= 255);
    match bytes {
        Some(bytes) => must(rt, disk.put(alloc, name, bytes)),
        None => {
            must(rt, disk.remove(name));
        }
    }
}

fn put_file(rt: &impl Abort, disk: &mut MemoryDisk, alloc: Global, file: &File) {
    let (name, front, rest) = file;
    let mut bytes = must(rt, front.to_vec(alloc));
    if !bytes.is_empty() {
        must(rt, bytes.resize(4096, 0));
    }
    must(rt, bytes.extend_from_slice(rest));
    change(rt, disk, alloc, name, Some(&bytes))
}

pub(crate) fn disk_of(rt: &impl Abort, alloc: Global, files: &[File]) -> MemoryDisk {
    let mut disk = MemoryDisk::new(alloc);
    for file in files {
        put_file(rt, &mut disk, alloc, file);
    }
    disk
}

pub(crate) fn numbered(
    rt: &impl Abort,
    alloc: Global,
    front: &str,
    number: usize,
    end: &str,
) -> String {
    let mut text = must(rt, String::from_str(alloc, front));
    must(rt, write!(text, "{number}"));
    must(rt, text.push_str(end));
    text
}

/// The store of a datastore with these files.
pub(crate) fn store_of(rt: &impl Abort, alloc: Global, files: &[File]) -> Plain {
    let mut disk = disk_of(rt, alloc, files);
    must(rt, Plain::load(alloc, &mut disk))
}
