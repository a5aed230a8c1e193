//! How a lane takes its input.

ghost use Rattle.std.specs.Prelude.{◌≡◌, ◌≤◌, ◌<◌, ◌+◌, ◌^◌, [], length};
ghost use Rattle.wire_frames.specs.Frames.{advanced};
ghost use Rattle.lane.specs.Fronts.{IsFrontSize};

use port_traits::Source;
use std::alloc::Global;
use wire_frames::Cutter;

/// A lane takes so many bytes at most.
const BUDGET: u64 = 1 << 40;

/// The first bytes of a frame that are held without memory: its length, and one byte.
const FEW: u64 = 5;

/// A read asks for so many bytes at most.
const PIECE: usize = 65_536;

/// What was taken of a source, cut into frames.
#[derive(Drop)]
pub struct Input {
    pub cutter: Cutter,
    /// The offset of the first byte that isn't in an answered frame.
    pub front: u64,
    /// How many bytes were taken. The cutter holds those from the front on, but for a piece for which memory was wanting.
    pub taken: u64,
    ghost within: { taken ≤ 2 ^ 40 },
    ghost held: { cutter.offset + length cutter.bytes ≤ taken },
    ghost begins: { cutter.offset ≡ front },
}

/// What a read gave.
#[derive(Clone, Copy)]
pub enum Taken {
    More,
    /// The end of the input.
    End,
    Fault,
    /// As many bytes were taken as a lane may take.
    TooLong,
    /// Bytes for which there is no memory.
    NoMemory,
}

impl Input {
    ghost use Rattle.lane.specs.Taking.{AsksFew, IsFed, IsFault, IsWhole, Takes};

    pub fn new(alloc: Global) -> Input
        ensures cutter { result.cutter ≡ record { offset = 0; bytes = [] } }
        ensures taken { result.taken ≡ 0 }
    {
        Input {
            cutter: Cutter::new(alloc),
            front: 0,
            taken: 0,
        }
    }

    /// How many bytes the next read may ask for. As long as fewer than five bytes of a frame are held, it asks for no more
    /// than these, for which no memory is needed.
    fn most(&self) -> usize
        requires { self.now.taken < 2 ^ 40 }
        ensures some { 0 < result }
        ensures piece { result ≤ 65_536 }
        ensures within { self.now.taken + result ≤ 2 ^ 40 }
        ensures few { AsksFew self.now result }
    {
        let held = self.taken - self.front;
        let wanted = if held < FEW { FEW - held } else { PIECE as u64 };
        wanted.min(BUDGET - self.taken) as usize
    }

    /// Takes some more bytes of the source, where the lane may.
    pub fn take<S: Source>(&mut self, source: &mut S) -> Taken
        ensures takes { Takes (S.left source.old) (S.left source.new) self.old self.new result }
        ensures cause { IsFault (S.faults source.old) (S.faults source.new) result }
    {
        if self.taken >= BUDGET {
            return Taken::TooLong;
        }
        let most = self.most();
        let mut piece = [0; PIECE];
        self.take_into(source, &mut piece[..most])
    }

    fn take_into<S: Source>(&mut self, source: &mut S, piece: &mut [u8]) -> Taken
        requires some { 0 < length piece.old }
        requires within { self.old.taken + length piece.old ≤ 2 ^ 40 }
        requires few { AsksFew self.old (length piece.old) }
        ensures takes { Takes (S.left source.old) (S.left source.new) self.old self.new result }
        ensures cause { IsFault (S.faults source.old) (S.faults source.new) result }
    {
        match source.read(piece) {
            Err(_) => Taken::Fault,
            Ok(0) => Taken::End,
            Ok(count) => self.feed(&piece[..count]),
        }
    }

    fn feed(&mut self, piece: &[u8]) -> Taken
        requires { self.old.taken + length piece.now ≤ 2 ^ 40 }
        ensures { IsFed self.old self.new piece.now result }
    {
        let fed = self.cutter.feed(piece);
        self.taken += piece.len() as u64;
        match fed {
            Ok(()) => Taken::More,
            Err(_) => Taken::NoMemory,
        }
    }

    /// Moves past the frame at the front, where there is a whole one.
    pub fn advance(&mut self)
        ensures cutter { self.new.cutter ≡ advanced self.old.cutter }
        ensures taken { self.new.taken ≡ self.old.taken }
    {
        self.front += front_size(&self.cutter);
        self.cutter.advance();
    }
}

/// The size of the frame at the front, or 0 where there is no whole one.
fn front_size(cutter: &Cutter) -> u64
    ensures { IsFrontSize cutter.now result }
{
    match cutter.next() {
        Ok(Some(frame)) => 4 + frame.body.len() as u64,
        _ => 0,
    }
}
