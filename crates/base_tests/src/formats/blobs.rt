use crate::asserts::{must, same};
use crate::formats::fixtures::zeros;
use blob_codec::{BadBlob, DATA_LIMIT, decode, encode};
use std::alloc::Global;
use std::process::Abort;

/// Data, and its blob.
static KNOWN: [(&[u8], &[u8]); 3] = [
    (b"", b"\x42\xab\x38\x07\xbe\x83\x70\xa1\0\0\0\0"),
    (
        b"abc",
        b"\x42\xab\x38\x07\xbe\x83\x70\xa1\xc2\x41\x24\x35abc",
    ),
    (
        b"123456789",
        b"\x42\xab\x38\x07\xbe\x83\x70\xa1\x26\x39\xf4\xcb123456789",
    ),
];

fn try_blob(rt: &impl Abort, alloc: Global, data: &[u8], text: &[u8]) {
    let blob = must(rt, must(rt, encode(alloc, data)));
    same(rt, blob.as_slice(), text);
    same(rt, decode(text), Ok(data));
}

#[test]
fn known_blobs(rt: HostRuntime) {
    for (data, text) in &KNOWN {
        try_blob(&rt, rt.alloc(), data, text);
    }
}

static CAUSES: [(&[u8], BadBlob); 7] = [
    (b"\x42\xab\x38\x07\xbe\x83\x70\xa1\0\0\0", BadBlob::Short),
    (b"\x31\xb9\x58\x42\x6f\xb6\xa3\x7f\0\0\0", BadBlob::Short),
    (
        b"\x31\xb9\x58\x42\x6f\xb6\xa3\x7f\x26\x39\xf4\xcb123456789",
        BadBlob::Compressed,
    ),
    (
        b"\x7b\x67\x85\xbe\x22\x2d\x4c\xf0\0\0\0\0",
        BadBlob::Encrypted,
    ),
    (
        b"\xe6\x59\x1b\xbf\x0b\xbf\xd8\x0b\0\0\0\0",
        BadBlob::EncryptedCompressed,
    ),
    (
        b"\x42\xab\x38\x07\xbe\x83\x70\xa2\0\0\0\0",
        BadBlob::UnknownMagic,
    ),
    (
        b"\x42\xab\x38\x07\xbe\x83\x70\xa1\x27\x39\xf4\xcb123456789",
        BadBlob::WrongCrc {
            kept: 0xcbf43927,
            found: 0xcbf43926,
        },
    ),
];

#[test]
fn first_cause(rt: HostRuntime) {
    for (text, cause) in &CAUSES {
        same(&rt, decode(text), Err(*cause));
    }
}

#[test]
fn at_the_limit(rt: HostRuntime) {
    let most = zeros(&rt, rt.alloc(), DATA_LIMIT);
    let blob = must(&rt, must(&rt, encode(rt.alloc(), &most)));
    same(&rt, blob.len(), 16_777_228);
    same(&rt, must(&rt, decode(&blob)).len(), DATA_LIMIT);
}

/// A blob of nothing, with more behind it.
fn longer(rt: &impl Abort, alloc: Global, more: &[u8]) -> Vec<u8> {
    let mut long = must(
        rt,
        Vec::from_slice(alloc, b"\x42\xab\x38\x07\xbe\x83\x70\xa1\0\0\0\0"),
    );
    must(rt, long.extend_from_slice(more));
    long
}

#[test]
fn above_the_limit(rt: HostRuntime) {
    let more = zeros(&rt, rt.alloc(), DATA_LIMIT + 1);
    let cause = must(&rt, encode(rt.alloc(), &more)).err();
    same(&rt, cause, Some(BadBlob::TooLong));
    let long = longer(&rt, rt.alloc(), &more);
    same(&rt, long.len(), 16_777_229);
    same(&rt, decode(&long), Err(BadBlob::TooLong));
}
