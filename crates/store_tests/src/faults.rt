//! Refusals as tables have them.

use crate::asserts::must;
use std::alloc::Global;
use std::process::Abort;
use store_types::{Bytes, CloseFault, Refusal};

/// A refusal, with its values in order.
#[derive(Clone, Copy)]
pub(crate) enum Fault {
    BadName,
    NoFile,
    Exists,
    WrongSize(u32, u64),
    UnknownChunk(u32),
    BadOffset(u32, u64),
    BadClose(CloseFault),
    OpenIndexes(u8),
    BadManifest(u8),
    ManifestMismatch(&'static str, u8),
    TooMany(u32),
    BadRange(u64),
    Unreadable(&'static str),
}

pub(crate) fn refusal(rt: &impl Abort, alloc: Global, fault: Fault) -> Refusal {
    let refusal = match fault {
        Fault::BadName => Refusal::BadName,
        Fault::NoFile => Refusal::NoFile,
        Fault::Exists => Refusal::Exists,
        Fault::WrongSize(place, size) => Refusal::WrongSize { place, size },
        Fault::UnknownChunk(place) => Refusal::UnknownChunk { place },
        Fault::BadOffset(place, expected) => Refusal::BadOffset { place, expected },
        Fault::BadClose(close) => Refusal::BadClose(close),
        Fault::OpenIndexes(count) => Refusal::OpenIndexes { count },
        Fault::BadManifest(cause) => Refusal::BadManifest { cause },
        Fault::ManifestMismatch(name, field) => Refusal::ManifestMismatch {
            file: must(rt, Bytes::from_slice(alloc, name.as_bytes())),
            field,
        },
        Fault::TooMany(limit) => Refusal::TooMany { limit },
        Fault::BadRange(size) => Refusal::BadRange { size },
        Fault::Unreadable(path) => Refusal::Unreadable {
            name: must(rt, Bytes::from_slice(alloc, path.as_bytes())),
        },
    };
    refusal
}
