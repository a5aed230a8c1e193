//! Cuts a stream into frames.

ghost use Rattle.std.specs.Prelude.{◌≡◌, ◌+◌, ◌^◌, ◌<◌, ◌≤◌, [], length, drop, OnOk, OnErr, IsOk, IfSome};
ghost use Rattle.smallvec.specs.SmallVec.{small_vec_len};
ghost use Rattle.wire_frames.specs.Cutting.{IsFrontBody, IsNext};
ghost use Rattle.wire_frames.specs.Frames.{fed, advanced, body_limit};

use crate::frame::{BODY_LIMIT, Frame, TooLong};
use smallvec::SmallVec;
use std::alloc::{AllocError, Global};
use std::marker::Model;

/// So many bytes are held without memory: the length of a frame, and a body of one byte.
const INLINE: usize = 5;

/// Bytes of a stream that wait to be cut into frames.
#[derive(Drop)]
pub struct Cutter {
    // The offset of the first byte that isn't cut off yet.
    offset: u64,
    // That byte stands at `start`, and those behind it follow.
    bytes: SmallVec<u8, INLINE>,
    start: usize,
}

impl Model for Cutter {
    ghost use Rattle.std.specs.Prelude.{drop};
    ghost use Rattle.wire_frames.specs.Frames.{Tail};
    ghost use Rattle.wire_frames.specs.Cutting.{IsSound};

    ghost Value = { Tail };

    ghost view = { λ c. record { offset = c.offset; bytes = drop c.start c.bytes.items } };

    ghost invariant = { λ c. IsSound c.offset c.start c.bytes };
}

impl Cutter {
    /// A cutter at the start of a stream. It takes no memory yet.
    pub fn new(alloc: Global) -> Cutter
        ensures { result ≡ record { offset = 0; bytes = [] } }
    {
        Cutter {
            offset: 0,
            bytes: SmallVec::new(alloc),
            start: 0,
        }
    }

    /// Takes the next piece of the stream. Five bytes are held without memory.
    pub fn feed(&mut self, piece: &[u8]) -> Result<(), AllocError>
        requires { self.old.offset + (length self.old.bytes + length piece.now) < 2 ^ 64 }
        ensures ok { OnOk result (self.new ≡ fed self.old piece.now) }
        ensures err { OnErr result (self.new ≡ self.old) }
        ensures few { length self.old.bytes + length piece.now ≤ 5 → IsOk result }
    {
        drop_front(&mut self.bytes, self.start);
        self.start = 0;
        let held = self.bytes.len();
        if held > INLINE || piece.len() > INLINE - held {
            let missing = frame_size(&self.bytes, piece).map_or(
                0,
                |size| size.saturating_sub(held),
            );
            self.bytes
                .reserve_exact(piece.len().saturating_add(missing))?;
        }
        self.bytes.extend_from_slice(piece)
    }

    /// The frame at the front, or None where it isn't whole yet. A length above the limit is an error
    /// as soon as it is held, and stays one.
    pub fn next(&self) -> Result<Option<Frame<'_>>, TooLong>
        ensures { IsNext self.now result }
    {
        let offset = self.offset;
        let body = front_body(self.held())?;
        Ok(body.map(|body| Frame { offset, body }))
    }

    /// Moves past the frame at the front, where there is a whole one.
    pub fn advance(&mut self)
        ensures { self.new ≡ advanced self.old }
    {
        if let Ok(Some(body)) = front_body(self.held()) {
            let size = 4 + body.len();
            self.start += size;
            self.offset += size as u64;
        }
    }

    /// How many bytes of the stream were fed.
    pub fn fed(&self) -> u64
        ensures { result ≡ self.now.offset + length self.now.bytes }
    {
        self.offset + (self.bytes.len() - self.start) as u64
    }

    fn held(&self) -> &[u8]
        ensures { result.now ≡ self.now.bytes }
    {
        &self.bytes.as_slice()[self.start..]
    }
}

// The body of the frame at the front.
fn front_body(bytes: &[u8]) -> Result<Option<&[u8]>, TooLong>
    ensures { IsFrontBody bytes.now result }
{
    let Some((header, rest)) = bytes.split_first_chunk::<4>() else {
        return Ok(None);
    };
    let length = u32::from_le_bytes(*header);
    if length > BODY_LIMIT {
        return Err(TooLong { length });
    }
    if rest.len() < length as usize {
        return Ok(None);
    }
    Ok(Some(&rest[..length as usize]))
}

// The size of the frame that these bytes begin, where its length is held and within the limit.
fn frame_size(held: &[u8], piece: &[u8]) -> Option<usize> {
    let mut bytes = held.iter().chain(piece).copied();
    let header = [bytes.next()?, bytes.next()?, bytes.next()?, bytes.next()?];
    let length = u32::from_le_bytes(header);
    (length <= BODY_LIMIT).then_some(4 + length as usize)
}

// Drops so many bytes at the front.
fn drop_front(bytes: &mut SmallVec<u8, INLINE>, count: usize)
    requires { count ≤ small_vec_len bytes.old }
    ensures items { bytes.new.items ≡ drop count bytes.old.items }
    ensures capacity { bytes.new.capacity ≡ bytes.old.capacity }
{
    if count > 0 {
        let left = bytes.len() - count;
        bytes.as_mut_slice().copy_within(count.., 0);
        bytes.truncate(left);
    }
}
