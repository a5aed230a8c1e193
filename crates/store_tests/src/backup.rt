//! Sessions against sizes and checksums that were made elsewhere.

ghost use Rattle.std.specs.Prelude.{◌≡◌, None};
ghost use Rattle.std.specs.FinMap.{entries as pairs};
ghost use Rattle.backup_session.specs.Kept.{HasLengths};

use crate::asserts::{must, same_at};
use crate::faults::{Fault, refusal};
use crate::fixtures::{ABC, DE, NINES, NOTHING, SEVENS, key, named};
use backup_session::{Writer, open_writer};
use blob_codec::{decode, encode};
use known_chunks::Known;
use std::alloc::Global;
use std::process::Abort;
use store_types::{CloseFault, Digest32, FileName, Refusal};

/// The checksum of the index of both.
const CSUM: Digest32 = Digest32([
    0xda, 0x46, 0x4a, 0xae, 0x3d, 0x9f, 0x63, 0xd0, 0x6f, 0x30, 0x87, 0x10, 0x06, 0x2b, 0x5d, 0xb4,
    0x19, 0x96, 0xb1, 0xe3, 0x69, 0x90, 0xb9, 0x2e, 0xcc, 0x69, 0x34, 0x40, 0xe6, 0x66, 0x01, 0x51,
]);

/// SHA-256 of 32 bytes 07.
const FIRST: Digest32 = Digest32([
    0x4b, 0xb0, 0x6f, 0x8e, 0x4e, 0x3a, 0x77, 0x15, 0xd2, 0x01, 0xd5, 0x73, 0xd0, 0xaa, 0x42, 0x37,
    0x62, 0xe5, 0x5d, 0xab, 0xd6, 0x1a, 0x2c, 0x02, 0x27, 0x8f, 0xa5, 0x6c, 0xc6, 0xd2, 0x94, 0xe0,
]);

/// SHA-256 of 32 bytes 07 and 32 bytes 09.
const BOTH: Digest32 = Digest32([
    0x49, 0x44, 0x0f, 0xa4, 0x64, 0xb1, 0x71, 0xc0, 0x74, 0x62, 0xbb, 0x22, 0x42, 0x2a, 0xac, 0x0a,
    0xd0, 0x08, 0x6d, 0x5f, 0x23, 0x1a, 0xd3, 0xe0, 0x50, 0x71, 0xff, 0x5e, 0x88, 0x26, 0xd7, 0x54,
]);

/// A call of a writer. The index that it appends to or closes is the first.
#[derive(Clone, Copy)]
enum Call {
    Dynamic(&'static str),
    /// A fixed index, of an archive of so many bytes in pieces of so many.
    Fixed(&'static str, u64, u64),
    Chunk(Digest32, u32),
    /// The pieces of an archive of the base, the last of one byte.
    PreviousShort,
    /// The same, of two whole ones.
    PreviousWhole,
    Append(&'static [(Digest32, u64)]),
    /// `abc` as often as it is taken, 4,096 times a call.
    AppendOn,
    /// By the number of pieces, their size and the checksum. The file is kept.
    Close(u64, u64, Digest32),
    /// The same, but the file goes back.
    CloseBack(u64, u64, Digest32),
    /// The blob of nothing, which is kept.
    Blob(&'static str),
    /// The same, but it goes back.
    BlobBack(&'static str),
    /// The blob of a manifest of these bytes, which is kept.
    Manifest(&'static [u8]),
    Finish,
}

/// What a call tells: an index's number, the length of a closed index's text, how many files a manifest lists, and 0
/// where it tells nothing.
type Told = Result<u64, Refusal>;

/// The refusal, unless memory was wanting.
fn refused(rt: &impl Abort, refusal: Refusal) -> Told {
    match refusal {
        Refusal::NoMemory => panic!(rt; "no memory"),
        refusal => Err(refusal),
    }
}

type Calls = &'static [(Call, Result<u64, Fault>)];

fn expected_of(rt: &impl Abort, alloc: Global, expected: Result<u64, Fault>) -> Told {
    match expected {
        Ok(value) => Ok(value),
        Err(fault) => Err(refusal(rt, alloc, fault)),
    }
}

fn begin(rt: &impl Abort, w: &mut Writer, alloc: Global, name: &str) -> Told
    requires { w.old.pending ≡ None }
    ensures { w.new.pending ≡ None }
{
    let name = named(rt, alloc, name);
    match w.new_dynamic(alloc, name, 1_579_069_803) {
        Ok(number) => Ok(number as u64),
        Err(refusal) => refused(rt, refusal),
    }
}

fn begin_fixed(
    rt: &impl Abort,
    w: &mut Writer,
    alloc: Global,
    name: &str,
    size: u64,
    chunk_size: u64,
) -> Told
    requires { w.old.pending ≡ None }
    ensures { w.new.pending ≡ None }
{
    let name = named(rt, alloc, name);
    match w.new_fixed(alloc, name, 1_579_069_803, size, chunk_size) {
        Ok(number) => Ok(number as u64),
        Err(refusal) => refused(rt, refusal),
    }
}

fn note_chunk(rt: &impl Abort, w: &mut Writer, digest: &Digest32, length: u32) -> Told
    requires { w.old.pending ≡ None }
    ensures { w.new.pending ≡ None }
{
    assert!(rt; length > 0 && length <= 16_777_216);
    must(rt, w.chunk(digest, length));
    Ok(0)
}

/// The lengths of pieces by their digests.
fn lengths_of(rt: &impl Abort, alloc: Global, pieces: &[(Digest32, u32)]) -> Known
    ensures { HasLengths (pairs result) }
{
    let mut known = Known::new(alloc);
    for piece in pieces {
        let length = piece.1;
        assert!(rt; length > 0 && length <= 16_777_216);
        must(rt, known.add_new(&piece.0, length));
    }
    known
}

/// Pieces of the base may be appended, the second of one byte.
fn note_short(rt: &impl Abort, w: &mut Writer, alloc: Global) -> Told
    requires { w.old.pending ≡ None }
    ensures { w.new.pending ≡ None }
{
    let pieces = lengths_of(rt, alloc, &[(SEVENS, 4096), (NINES, 1), (DE, 2)]);
    must(rt, w.previous(pieces));
    Ok(0)
}

/// Two whole pieces of the base may be appended.
fn note_whole(rt: &impl Abort, w: &mut Writer, alloc: Global) -> Told
    requires { w.old.pending ≡ None }
    ensures { w.new.pending ≡ None }
{
    let pieces = lengths_of(rt, alloc, &[(SEVENS, 4096), (NINES, 4096)]);
    must(rt, w.previous(pieces));
    Ok(0)
}

fn append(rt: &impl Abort, w: &mut Writer, alloc: Global, entries: &[(Digest32, u64)]) -> Told
    requires { w.old.pending ≡ None }
    ensures { w.new.pending ≡ None }
{
    match w.append(alloc, 0, entries) {
        Ok(()) => Ok(0),
        Err(refusal) => refused(rt, refusal),
    }
}

/// As many entries as a call has, of `abc`, from an offset on.
fn entries_from(rt: &impl Abort, alloc: Global, start: u64) -> Vec<(Digest32, u64)> {
    let mut entries = must(rt, Vec::with_capacity(alloc, 4096));
    for place in 0..4096u64 {
        must(
            rt,
            entries.push((ABC, start.saturating_add(place.saturating_mul(3)))),
        );
    }
    entries
}

fn append_on(rt: &impl Abort, w: &mut Writer, alloc: Global) -> Told
    requires { w.old.pending ≡ None }
    ensures { w.new.pending ≡ None }
{
    for call in 0..257u64 {
        let entries = entries_from(rt, alloc, call.saturating_mul(12_288));
        let told = append(rt, w, alloc, &entries);
        if told.is_err() {
            return told;
        }
    }
    Ok(0)
}

fn close(
    rt: &impl Abort,
    w: &mut Writer,
    alloc: Global,
    count: u64,
    size: u64,
    csum: &Digest32,
    kept: bool,
) -> Told
    requires { w.old.pending ≡ None }
    ensures { w.new.pending ≡ None }
{
    match w.close_index(alloc, 0, count, size, csum) {
        Ok(text) => {
            if kept {
                w.keep()
            } else {
                w.back()
            }
            Ok(text.len() as u64)
        }
        Err(refusal) => refused(rt, refusal),
    }
}

fn take(
    rt: &impl Abort,
    w: &mut Writer,
    alloc: Global,
    name: FileName,
    data: &[u8],
    kept: bool,
) -> Told
    requires { w.old.pending ≡ None }
    ensures { w.new.pending ≡ None }
{
    let text = must(rt, must(rt, encode(alloc, data)));
    must(rt, decode(&text));
    match w.blob(alloc, name, &text) {
        Ok(()) => {
            if kept {
                w.keep()
            } else {
                w.back()
            }
            Ok(0)
        }
        Err(refusal) => refused(rt, refusal),
    }
}

fn finish(rt: &impl Abort, w: &Writer, alloc: Global) -> Told
    requires { w.now.pending ≡ None }
{
    match w.finish_check(alloc) {
        Ok(manifest) => Ok(manifest.files.as_slice().len() as u64),
        Err(refusal) => refused(rt, refusal),
    }
}

fn make(rt: &impl Abort, w: &mut Writer, alloc: Global, call: Call) -> Told
    requires { w.old.pending ≡ None }
    ensures { w.new.pending ≡ None }
{
    match call {
        Call::Dynamic(name) => begin(rt, w, alloc, name),
        Call::Fixed(name, size, chunk_size) => begin_fixed(rt, w, alloc, name, size, chunk_size),
        Call::Chunk(digest, length) => note_chunk(rt, w, &digest, length),
        Call::PreviousShort => note_short(rt, w, alloc),
        Call::PreviousWhole => note_whole(rt, w, alloc),
        Call::Append(entries) => append(rt, w, alloc, entries),
        Call::AppendOn => append_on(rt, w, alloc),
        Call::Close(count, size, csum) => close(rt, w, alloc, count, size, &csum, true),
        Call::CloseBack(count, size, csum) => close(rt, w, alloc, count, size, &csum, false),
        Call::Blob(name) => take(rt, w, alloc, named(rt, alloc, name), b"", true),
        Call::BlobBack(name) => take(rt, w, alloc, named(rt, alloc, name), b"", false),
        Call::Manifest(data) => take(
            rt,
            w,
            alloc,
            must(rt, FileName::manifest(alloc)),
            data,
            true,
        ),
        Call::Finish => finish(rt, w, alloc),
    }
}

fn try_call(
    rt: &impl Abort,
    w: &mut Writer,
    alloc: Global,
    number: usize,
    row: &(Call, Result<u64, Fault>),
)
    requires { w.old.pending ≡ None }
    ensures { w.new.pending ≡ None }
{
    let (call, expected) = row;
    let told = make(rt, w, alloc, *call);
    same_at(rt, number, told, expected_of(rt, alloc, *expected));
}

/// Makes the calls one after another, and compares what each tells.
fn try_calls(rt: &impl Abort, w: &mut Writer, alloc: Global, calls: &[(Call, Result<u64, Fault>)])
    requires { w.old.pending ≡ None }
    ensures { w.new.pending ≡ None }
{
    for (number, row) in calls.iter().enumerate() {
        try_call(rt, w, alloc, number, row);
    }
}

/// A new writer after these calls.
fn after(rt: &impl Abort, alloc: Global, calls: &[(Call, Result<u64, Fault>)]) -> Writer
    ensures { result.pending ≡ None }
{
    let mut w = open_writer(alloc, key(rt, alloc), 1_579_069_803, None);
    try_calls(rt, &mut w, alloc, calls);
    w
}

/// Makes calls of a new writer, and then the calls that are tried.
fn try_after(rt: &impl Abort, alloc: Global, before: Calls, calls: Calls) {
    let mut w = after(rt, alloc, before);
    try_calls(rt, &mut w, alloc, calls)
}

/// `root.didx` is open, and `abc` may be appended.
const BEGUN: Calls = &[
    (Call::Dynamic("root.didx"), Ok(0)),
    (Call::Chunk(ABC, 3), Ok(0)),
];

const ABC_AND_DE: Call = Call::Append(&[(ABC, 0), (DE, 3)]);

/// The same with `abc` and `de` appended.
const GROWN: Calls = &[
    (Call::Dynamic("root.didx"), Ok(0)),
    (Call::Chunk(ABC, 3), Ok(0)),
    (Call::Chunk(DE, 2), Ok(0)),
    (ABC_AND_DE, Ok(0)),
];

const MISPLACED: Call = Call::Append(&[(ABC, 0), (DE, 2)]);

const ALL_OR_NOTHING: Calls = &[
    (MISPLACED, Err(Fault::UnknownChunk(1))),
    (Call::Chunk(DE, 2), Ok(0)),
    (MISPLACED, Err(Fault::BadOffset(1, 3))),
    (Call::Close(0, 0, NOTHING), Ok(4096)),
];

const WRONG_FACTS: Calls = &[
    (
        Call::Close(1, 6, ABC),
        Err(Fault::BadClose(CloseFault::Count(2))),
    ),
    (
        Call::Close(2, 6, ABC),
        Err(Fault::BadClose(CloseFault::Size(5))),
    ),
    (
        Call::Close(2, 5, ABC),
        Err(Fault::BadClose(CloseFault::Csum(CSUM))),
    ),
];

/// An index has as many entries as it may have.
const FULL: Calls = &[
    (Call::AppendOn, Err(Fault::TooMany(1_048_576))),
    (
        Call::Close(0, 0, NOTHING),
        Err(Fault::BadClose(CloseFault::Count(1_048_576))),
    ),
];

const CLOSINGS: Calls = &[
    (Call::CloseBack(2, 5, CSUM), Ok(4176)),
    (Call::Close(2, 5, CSUM), Ok(4176)),
    (Call::Close(2, 5, CSUM), Err(Fault::NoFile)),
];

const NAMES: Calls = &[
    (Call::Dynamic("b.blob"), Err(Fault::BadName)),
    (Call::Dynamic("root.didx"), Err(Fault::Exists)),
    (Call::Dynamic("home.didx"), Ok(1)),
];

const MANIFESTS: Calls = &[
    (Call::BlobBack("index.json.blob"), Ok(0)),
    (Call::Blob("index.json.blob"), Ok(0)),
    (Call::Blob("index.json.blob"), Err(Fault::Exists)),
];

const SIZES: Calls = &[
    (Call::Fixed("root.didx", 8192, 4096), Err(Fault::BadName)),
    (
        Call::Fixed("root.fidx", 8192, 5000),
        Err(Fault::WrongSize(0, 5000)),
    ),
    (
        Call::Fixed("root.fidx", 4_294_967_297, 4096),
        Err(Fault::TooMany(1_048_576)),
    ),
    (Call::Fixed("root.fidx", 4_294_967_296, 4096), Ok(0)),
];

/// A fixed archive whose last piece has one byte.
const SHORT: Calls = &[
    (Call::Fixed("root.fidx", 4097, 4096), Ok(0)),
    (Call::PreviousShort, Ok(0)),
    (
        Call::Append(&[(SEVENS, 0), (DE, 4096)]),
        Err(Fault::WrongSize(1, 2)),
    ),
    (Call::Append(&[(SEVENS, 0)]), Ok(0)),
    (
        Call::Close(1, 4096, FIRST),
        Err(Fault::BadClose(CloseFault::Rest(4097))),
    ),
    (Call::Append(&[(NINES, 4096)]), Ok(0)),
    (Call::Append(&[(NINES, 4097)]), Err(Fault::WrongSize(0, 1))),
    (Call::Close(2, 4097, BOTH), Ok(4160)),
];

/// A fixed archive of two whole pieces.
const WHOLE: Calls = &[
    (Call::Fixed("root.fidx", 8192, 4096), Ok(0)),
    (Call::PreviousWhole, Ok(0)),
    (Call::Append(&[(SEVENS, 0), (NINES, 4096)]), Ok(0)),
    (Call::Close(2, 8192, BOTH), Ok(4160)),
];

/// The file `root.didx`, of 5 bytes in two pieces.
const UPLOADED: Calls = &[
    (Call::Dynamic("root.didx"), Ok(0)),
    (Call::Chunk(ABC, 3), Ok(0)),
    (Call::Chunk(DE, 2), Ok(0)),
    (ABC_AND_DE, Ok(0)),
    (Call::Finish, Err(Fault::OpenIndexes(1))),
    (Call::Close(2, 5, CSUM), Ok(4176)),
];

const NO_MANIFEST: Calls = &[
    (Call::Finish, Err(Fault::NoFile)),
    (Call::Manifest(b"[]"), Ok(0)),
    (Call::Finish, Err(Fault::BadManifest(2))),
];

/// A manifest that lists `root.didx` with its 5 bytes, and one that lists it with 6.
const OF_FIVE: &[u8] =
    b"{\"backup-type\":\"host\",\"backup-id\":\"a\",\"backup-time\":1579069803,\"files\":[{\"filename\":\"root.didx\",\"size\":5,\"csum\":\"da464aae3d9f63d06f308710062b5db41996b1e36990b92ecc693440e6660151\"}]}";

const OF_SIX: &[u8] =
    b"{\"backup-type\":\"host\",\"backup-id\":\"a\",\"backup-time\":1579069803,\"files\":[{\"filename\":\"root.didx\",\"size\":6,\"csum\":\"da464aae3d9f63d06f308710062b5db41996b1e36990b92ecc693440e6660151\"}]}";

const LISTED: Calls = &[(Call::Manifest(OF_FIVE), Ok(0)), (Call::Finish, Ok(1))];

const MISLISTED: Calls = &[
    (Call::Manifest(OF_SIX), Ok(0)),
    (Call::Finish, Err(Fault::ManifestMismatch("root.didx", 6))),
];

/// What is called of a new writer, and then tried: on dynamic archives.
static DYNAMIC: [(Calls, Calls); 5] = [
    (BEGUN, ALL_OR_NOTHING),
    (GROWN, WRONG_FACTS),
    (GROWN, CLOSINGS),
    (BEGUN, NAMES),
    (BEGUN, FULL),
];

/// On fixed archives, and on the manifest's file.
static FIXED: [(Calls, Calls); 4] = [(&[], MANIFESTS), (&[], SIZES), (&[], SHORT), (&[], WHOLE)];

/// At the end.
static FINISHES: [(Calls, Calls); 3] = [
    (UPLOADED, NO_MANIFEST),
    (UPLOADED, LISTED),
    (UPLOADED, MISLISTED),
];

fn try_sessions(rt: &impl Abort, alloc: Global, sessions: &[(Calls, Calls)]) {
    for (before, calls) in sessions {
        try_after(rt, alloc, *before, *calls);
    }
}

#[test]
fn dynamic_archives_are_written(rt: HostRuntime) {
    try_sessions(&rt, rt.alloc(), &DYNAMIC)
}

#[test]
fn fixed_archives_and_blobs_are_written(rt: HostRuntime) {
    try_sessions(&rt, rt.alloc(), &FIXED)
}

#[test]
fn sessions_are_finished(rt: HostRuntime) {
    try_sessions(&rt, rt.alloc(), &FINISHES)
}
