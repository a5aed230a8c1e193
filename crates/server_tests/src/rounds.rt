//! Backups without files, of two hosts: one snapshot for each second of an hour.

ghost use Rattle.std.specs.Prelude.{◌<◌};
ghost use Rattle.store_history.specs.Acts.{IsWellFormed};

use core_state::Act;
use crc_core::crc32;
use std::alloc::{AllocError, Global};
use store_types::Bytes;
use wire_commands::Command;

const HOSTS: [&str; 2] = ["a", "b"];

/// The hour's first second, since 1970.
const HOUR: u64 = 1_579_068_000;

/// What stands before the snapshot in OPEN_WRITER, before the manifest's checksum in BLOB; and FINISH.
const FRAMES: [&[u8]; 3] = [
    b"\x1d\0\0\0\x0a\x1b",
    b"g\0\0\0\x11\x0findex.json.blobB\xab8\x07\xbe\x83p\xa1",
    b"\x01\0\0\0\x12",
];

/// When the snapshot of this number is taken.
pub(crate) fn time_of(number: u32) -> u64 {
    HOUR + u64::from(number)
}

fn snapshot_of(alloc: Global, host: usize, number: u32) -> Result<Vec<u8>, AllocError>
    requires { host < 2 }
{
    let host = HOSTS[host];
    let (minute, second) = (number / 60, number % 60);
    let text = format!(in alloc; "host/{host}/2020-01-15T06:{minute:02}:{second:02}Z")?;
    Ok(text.into_bytes())
}

fn manifest_of(alloc: Global, host: usize, number: u32) -> Result<Vec<u8>, AllocError>
    requires { host < 2 }
{
    let host = HOSTS[host];
    let time = time_of(number);
    let text = format!(in alloc;
        "{{\"backup-id\":\"{host}\",\"backup-time\":{time},\"backup-type\":\"host\",\"files\":[]}}"
    )?;
    Ok(text.into_bytes())
}

/// OPEN_WRITER, BLOB of a manifest without files, FINISH.
pub(crate) fn backup_of(alloc: Global, host: usize, number: u32) -> Result<Vec<u8>, AllocError>
    requires { host < 2 }
{
    let snapshot = snapshot_of(alloc, host, number)?;
    let manifest = manifest_of(alloc, host, number)?;
    let checksum = crc32(&manifest).to_le_bytes();
    let mut sent = Vec::new(alloc);
    let [open, upload, finish] = FRAMES;
    let parts: [&[u8]; 6] = [open, &snapshot, upload, &checksum, &manifest, finish];
    for part in parts {
        sent.extend_from_slice(part)?;
    }
    Ok(sent)
}

/// FORGET of it. Where there is no memory for it, the act that tells so.
pub(crate) fn forget_act(alloc: Global, host: usize, number: u32) -> Act
    requires { host < 2 }
    ensures { IsWellFormed result }
{
    match snapshot_of(alloc, host, number) {
        Ok(text) => Act::Plain(Command::Forget {
            snapshot: Bytes::from_vec(text),
        }),
        Err(_) => Act::Short,
    }
}
