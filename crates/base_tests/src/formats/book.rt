//! Books whose bytes and checksums were made elsewhere.

use crate::asserts::{must, same, same_at};
use crate::formats::fixtures::front;
use atime_book::{Book, cutoff};
use std::alloc::Global;
use std::process::Abort;
use store_types::Digest32;

fn add_head(rt: &impl Abort, text: &mut Vec<u8>, magic: &[u8], numbers: (u64, u64)) {
    must(rt, text.extend_from_slice(magic));
    must(rt, text.extend_from_slice(&numbers.0.to_le_bytes()));
    must(rt, text.extend_from_slice(&numbers.1.to_le_bytes()));
}

fn add_touches(rt: &impl Abort, text: &mut Vec<u8>, touches: &[(u8, u64)]) {
    for (byte, touched) in touches {
        must(rt, text.extend_from_slice(&[*byte; 32]));
        must(rt, text.extend_from_slice(&touched.to_le_bytes()));
    }
}

/// A chunk whose digest is one byte and then 31 times another, and its last touch.
type Row = (u8, u8, u64);

fn mixed(first: u8, others: u8) -> Digest32 {
    let mut bytes = [others; 32];
    bytes[0] = first;
    Digest32(bytes)
}

fn add_rows(rt: &impl Abort, text: &mut Vec<u8>, rows: &[Row]) {
    for (first, others, touched) in rows {
        must(rt, text.extend_from_slice(&mixed(*first, *others).0));
        must(rt, text.extend_from_slice(&touched.to_le_bytes()));
    }
}

fn add_csum(rt: &impl Abort, text: &mut Vec<u8>, csum: &str) {
    let mut sum = [0; 32];
    must(rt, hex::decode_to_slice(csum, &mut sum));
    must(rt, text.extend_from_slice(&sum));
}

/// A book's file: the magic, the last moment, the count, chunks whose digests have one byte 32 times, and a checksum.
fn file(
    rt: &impl Abort,
    alloc: Global,
    magic: &[u8],
    numbers: (u64, u64),
    touches: &[(u8, u64)],
    csum: &str,
) -> Vec<u8> {
    let mut text = Vec::new(alloc);
    add_head(rt, &mut text, magic, numbers);
    add_touches(rt, &mut text, touches);
    add_csum(rt, &mut text, csum);
    text
}

/// When a run starts, the oldest running session's start, and the cutoff.
static CUTOFFS: [(u64, Option<u64>, u64); 5] = [
    (1_000_000, None, 913_300),
    (1_000_000, Some(900_000), 899_700),
    (1_000_000, Some(950_000), 913_300),
    (100, None, 0),
    (1_000_000, Some(100), 0),
];

#[test]
fn cutoffs(rt: HostRuntime) {
    for (start, oldest, expected) in &CUTOFFS {
        same_at(&rt, *start, cutoff(*start, *oldest), *expected);
    }
}

fn digest(byte: u8) -> Digest32 {
    Digest32([byte; 32])
}

/// When the chunks of the bytes 1, 2 and 3 were touched last.
fn touched(book: &Book) -> (Option<u64>, Option<u64>, Option<u64>) {
    (
        book.last(&digest(1)),
        book.last(&digest(2)),
        book.last(&digest(3)),
    )
}

/// A book of two touches, as it is written.
fn written(rt: &impl Abort, alloc: Global) -> Vec<u8> {
    let mut book = Book::new(alloc);
    must(rt, book.touch(&Digest32([2; 32]), 1_000_000));
    must(rt, book.touch(&Digest32([1; 32]), 5));
    must(rt, book.text(alloc, 1_000_000))
}

fn book_in(rt: &impl Abort, alloc: Global, text: &[u8]) -> Book {
    must(rt, must(rt, Book::read(alloc, text)).ok_or("a book"))
}

fn saved(rt: &impl Abort, alloc: Global) -> Book {
    book_in(rt, alloc, &written(rt, alloc))
}

fn try_present(rt: &impl Abort, book: &mut Book) {
    same(rt, touched(book), (Some(5), None, Some(1_000_000)));
    same(rt, book.moment(), 1_000_000);
    book.touch_known(&digest(3), 1_000_007);
    same(rt, touched(book), (Some(5), None, Some(1_000_007)));
}

#[test]
fn of_chunks_that_are_there(rt: HostRuntime) {
    let saved = saved(&rt, rt.alloc());
    let mut present = must(&rt, saved.of_present(rt.alloc(), &[digest(1), digest(3)]));
    same(&rt, present.undated.as_slice(), [digest(3)].as_slice());
    try_present(&rt, &mut present.book);
}

fn try_read(rt: &impl Abort, alloc: Global, text: &[u8]) {
    let book = book_in(rt, alloc, text);
    same(rt, book.moment(), 1_000_000);
    same(rt, touched(&book), (Some(5), Some(1_000_000), None));
}

#[test]
fn written_and_read(rt: HostRuntime) {
    let csum = "69341ebf56d98403b7610d7aea05ae6bb5d9d12a4e348d5a91590af28717e01c";
    let touches = [(1, 5), (2, 1_000_000)];
    let text = file(&rt, rt.alloc(), b"PBSBOOK1", (1_000_000, 2), &touches, csum);
    same(&rt, written(&rt, rt.alloc()).as_slice(), text.as_slice());
    try_read(&rt, rt.alloc(), &text)
}

const LATE: u64 = 253_402_300_800;

/// The checksum of a book of one chunk.
const GOOD: &str = "c78a25d6788eec345ece50f44255e751b91ac1fefc1f7839a9637a6e1130ef4f";

/// What a file is made of, as `file` takes it, and whether it is a book.
type Made = (
    &'static [u8; 8],
    (u64, u64),
    &'static [(u8, u64)],
    &'static str,
    bool,
);

static FILES: [Made; 8] = [
    (b"PBSBOOK1", (10, 1), &[(1, 5)], GOOD, true),
    (b"PBSBOOK1", (10, 1), &[(1, 6)], GOOD, false),
    (
        b"PBSBOOK2",
        (10, 1),
        &[(1, 5)],
        "af5ea89ab63c3bbd9866937807295ae563bd0038933a33f0d1d32f61815b2969",
        false,
    ),
    (
        b"PBSBOOK1",
        (LATE, 1),
        &[(1, 5)],
        "9614bc00b336f95da240603e62e4d9e1c2662042b578c792da0fec7c23fc8391",
        false,
    ),
    (
        b"PBSBOOK1",
        (10, 2),
        &[(1, 5)],
        "ca4af624721ea46db2214380441df6b1fb76d09fd9a9dea538a8c390389ab998",
        false,
    ),
    (
        b"PBSBOOK1",
        (10, 2),
        &[(1, 5), (1, 5)],
        "db89e6f5d100a905dfb5d3a67e225d29232b8734aa8c692ddb6169afb1dfc9a0",
        false,
    ),
    (
        b"PBSBOOK1",
        (10, 2),
        &[(2, 5), (1, 5)],
        "b07c684e82bdb66e6c24cc67181e2a8cae89ccab8f413bc1994be16a4241d85f",
        false,
    ),
    (
        b"PBSBOOK1",
        (10, 1),
        &[(1, 11)],
        "acf63a9db4d0121768121c4bd952fce2835f27df1a4774eac8b7e63b4876a44b",
        false,
    ),
];

fn is_book(rt: &impl Abort, alloc: Global, text: &[u8]) -> bool {
    must(rt, Book::read(alloc, text)).is_some()
}

fn try_file(rt: &impl Abort, alloc: Global, row: &Made) {
    let (magic, numbers, touches, csum, expected) = row;
    let text = file(rt, alloc, magic.as_slice(), *numbers, touches, csum);
    same_at(rt, *csum, is_book(rt, alloc, &text), *expected);
}

#[test]
fn no_books(rt: HostRuntime) {
    for row in &FILES {
        try_file(&rt, rt.alloc(), row);
    }
}

#[test]
fn short_files(rt: HostRuntime) {
    let text = file(&rt, rt.alloc(), b"PBSBOOK1", (10, 1), &[(1, 5)], GOOD);
    same(&rt, is_book(&rt, rt.alloc(), front(&text, 95)), false);
    same(&rt, is_book(&rt, rt.alloc(), b""), false);
}

/// In the order of their touches; the first and the last byte have two chunks each, and one has three.
static TOUCHED: [Row; 8] = [
    (127, 7, 6),
    (255, 255, 8),
    (0, 255, 2),
    (127, 5, 4),
    (1, 0, 3),
    (255, 0, 7),
    (0, 0, 1),
    (127, 6, 5),
];

/// In rising order, as a book's file has them.
static RISING: [Row; 8] = [
    (0, 0, 1),
    (0, 255, 2),
    (1, 0, 3),
    (127, 5, 4),
    (127, 6, 5),
    (127, 7, 6),
    (255, 0, 7),
    (255, 255, 8),
];

const RISING_CSUM: &str = "e2473308815e3cffc51c849238b53e60bd848d9d22d95836f9dc697f6ef3056f";

/// Where those are taken out: the first of all, the last, one between two others, and one that is not there.
static TAKEN: [(u8, u8); 4] = [(0, 0), (255, 255), (127, 6), (127, 8)];

static LEFT: [Row; 5] = [
    (0, 255, 2),
    (1, 0, 3),
    (127, 5, 4),
    (127, 7, 6),
    (255, 0, 7),
];

const LEFT_CSUM: &str = "68123267ce03615b7db1e689033c22af8359ec56d4ab3b0065dfd34c6fabe103";

fn file_of(rt: &impl Abort, alloc: Global, rows: &[Row], csum: &str) -> Vec<u8> {
    let mut text = Vec::new(alloc);
    add_head(rt, &mut text, b"PBSBOOK1", (100, rows.len() as u64));
    add_rows(rt, &mut text, rows);
    add_csum(rt, &mut text, csum);
    text
}

fn try_text(rt: &impl Abort, alloc: Global, book: &Book, text: &[u8]) {
    same(rt, must(rt, book.text(alloc, 100)).as_slice(), text);
}

fn touch_all(rt: &impl Abort, book: &mut Book) {
    for (first, others, touched) in &TOUCHED {
        same(rt, book.last(&mixed(*first, *others)), None);
        must(rt, book.touch(&mixed(*first, *others), *touched));
    }
}

fn try_rows(rt: &impl Abort, book: &Book, rows: &[Row]) {
    for (first, others, touched) in rows {
        same_at(
            rt,
            *touched,
            book.last(&mixed(*first, *others)),
            Some(*touched),
        );
    }
}

fn take_out(rt: &impl Abort, book: &mut Book) {
    for (first, others) in &TAKEN {
        book.forget(&mixed(*first, *others));
        same(rt, book.last(&mixed(*first, *others)), None);
    }
}

#[test]
fn of_no_chunks(rt: HostRuntime) {
    let mut book = Book::new(rt.alloc());
    book.touch_known(&digest(1), 5);
    book.forget(&digest(1));
    same(&rt, touched(&book), (None, None, None));
    same(&rt, book.counts(0).used, 0);
}

#[test]
fn parts_in_turn(rt: HostRuntime) {
    let mut book = Book::new(rt.alloc());
    touch_all(&rt, &mut book);
    try_rows(&rt, &book, &RISING);
    let text = file_of(&rt, rt.alloc(), &RISING, RISING_CSUM);
    try_text(&rt, rt.alloc(), &book, &text);
    take_out(&rt, &mut book);
    try_rows(&rt, &book, &LEFT);
    let left = file_of(&rt, rt.alloc(), &LEFT, LEFT_CSUM);
    try_text(&rt, rt.alloc(), &book, &left);
    let mut read = book_in(&rt, rt.alloc(), &text);
    try_rows(&rt, &read, &RISING);
    take_out(&rt, &mut read);
    try_text(&rt, rt.alloc(), &read, &left);
}
