//! Frames and how they are written.

ghost use Rattle.std.specs.Prelude.{◌+◌, ◌<◌, ◌≤◌, length};
ghost use Rattle.port_traits.specs.Faults.{HasCause};
ghost use Rattle.wire_frames.specs.Frames.{body_limit};
ghost use Rattle.wire_frames.specs.Puts.{PutsBody, PutsBodyCounted};

use port_traits::{Failed, Sink, write_counted};
use thiserror::Error;

/// The greatest length of a body.
pub const BODY_LIMIT: u32 = 16_778_240;

/// A frame of a stream: the offset of its first byte, and its body.
#[derive(Clone, Copy, Debug)]
pub struct Frame<'a> {
    pub offset: u64,
    pub body: &'a [u8],
}

/// A length above the limit.
#[derive(Clone, Copy, Debug, PartialEq, Eq, Drop, Error)]
#[error("a frame of {length} bytes is too long")]
pub struct TooLong {
    pub length: u32,
}

/// Writes the frame whose body is the head and then the rest, or fails with a front of it written. It
/// takes no memory.
pub fn put_frame<K: Sink>(sink: &mut K, head: &[u8], rest: &[u8]) -> Result<(), Failed>
    requires some { 0 < length head.now + length rest.now }
    requires within { length head.now + length rest.now ≤ body_limit }
    ensures bytes { PutsBody K.taken sink.old sink.new head.now rest.now result }
    ensures cause { HasCause (K.faults sink.old) (K.faults sink.new) result }
{
    put_frame_counted(sink, head, rest, &mut 0)
}

/// Writes as `put_frame` does, and adds how many bytes were written to a count, also where it fails.
pub fn put_frame_counted<K: Sink>(
    sink: &mut K,
    head: &[u8],
    rest: &[u8],
    given: &mut u64,
) -> Result<(), Failed>
    requires some { 0 < length head.now + length rest.now }
    requires within { length head.now + length rest.now ≤ body_limit }
    ensures bytes { PutsBodyCounted K.taken sink.old sink.new given.old given.new
        head.now rest.now result }
    ensures cause { HasCause (K.faults sink.old) (K.faults sink.new) result }
{
    let length = (head.len() + rest.len()) as u32;
    write_counted(sink, &length.to_le_bytes(), given)?;
    write_counted(sink, head, given)?;
    write_counted(sink, rest, given)
}
