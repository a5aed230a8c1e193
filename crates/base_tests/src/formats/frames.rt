use crate::asserts::{must, same, same_at};
use port_traits::{Failed, MemSink};
use std::alloc::Global;
use std::process::Abort;
use wire_frames::{Cutter, TooLong, put_frame, put_frame_counted};

/// Frames and their offsets.
type Found = Vec<(u64, Vec<u8>)>;

/// Feeds some bytes in pieces of one size, and takes the frames that are whole.
fn take_frames(
    rt: &impl Abort,
    alloc: Global,
    cutter: &mut Cutter,
    bytes: &[u8],
    size: usize,
    found: &mut Found,
) {
    let mut rest = bytes;
    for _ in 0..100 {
        let (piece, behind) = rest.split_at(size.min(rest.len()));
        assert!(rt; cutter.fed() < 1000 && piece.len() < 1000);
        must(rt, cutter.feed(piece));
        take_whole(rt, alloc, cutter, found);
        rest = behind;
    }
}

fn take_whole(rt: &impl Abort, alloc: Global, cutter: &mut Cutter, found: &mut Found) {
    for _ in 0..8 {
        let Ok(Some(frame)) = cutter.next() else {
            break;
        };
        must(
            rt,
            found.push((frame.offset, must(rt, frame.body.to_vec(alloc)))),
        );
        cutter.advance();
    }
}

// Three frames, one that is cut, and its end with a length that is one above the limit.
const STREAM: &[u8] = b"\x01\0\0\0\x3f\0\0\0\0\x05\0\0\0hello\x02\0\0\0o";

const END: &[u8] = b"k\x01\x04\0\x01";

/// The frames of the stream, and their offsets.
static EXPECTED: [(u64, &[u8]); 4] = [(0, b"\x3f"), (5, b""), (9, b"hello"), (18, b"ok")];

/// The stream, which ends within a frame.
fn try_stream(rt: &impl Abort, alloc: Global, cutter: &mut Cutter, size: usize, found: &mut Found) {
    take_frames(rt, alloc, cutter, STREAM, size, found);
    same_at(rt, size, found.len(), 3);
    same_at(rt, size, matches!(cutter.next(), Ok(None)), true);
}

/// What comes behind it.
fn try_end(rt: &impl Abort, alloc: Global, cutter: &mut Cutter, size: usize, found: &mut Found) {
    take_frames(rt, alloc, cutter, END, size, found);
    same_at(rt, size, cutter.fed(), 28);
    same_at(rt, size, found.len(), 4);
    for _ in 0..2 {
        let end = cutter.next().err();
        same_at(rt, size, end, Some(TooLong { length: 16_778_241 }));
    }
}

fn try_pieces(rt: &impl Abort, alloc: Global, size: usize) {
    let mut cutter = Cutter::new(alloc);
    let mut found = Vec::new(alloc);
    try_stream(rt, alloc, &mut cutter, size, &mut found);
    try_end(rt, alloc, &mut cutter, size, &mut found);
    for (got, want) in found.iter().zip(&EXPECTED) {
        same_at(rt, size, (got.0, got.1.as_slice()), *want);
    }
}

#[test]
fn pieces_of_any_size_give_the_same_frames(rt: HostRuntime) {
    for size in [1, 3, 100] {
        try_pieces(&rt, rt.alloc(), size);
    }
}

#[test]
fn frames_are_written(rt: HostRuntime) {
    let mut sink = MemSink::new(rt.alloc(), must(&rt, [4].to_vec(rt.alloc())));
    let mut given = 0;
    same(&rt, put_frame(&mut sink, b"\x3f", b""), Ok(()));
    let outcome = put_frame_counted(&mut sink, b"\0", b"ab", &mut given);
    same(&rt, (outcome, given), (Err(Failed), 5));
    same(&rt, sink.as_bytes(), b"\x01\0\0\0\x3f\x03\0\0\0\0");
}
