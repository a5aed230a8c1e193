//! The chunks of an index that a VERIFY reads, which are tested in batches, and of a batch in parts, by threads of their own.

ghost use Rattle.std.specs.Prelude.{◌≡◌, ◌<◌, ◌≤◌, [], vec_len, IfOk, IsTrue, MatchBool};
ghost use Rattle.std.specs.Bool.{OnFalse};
ghost use Rattle.std.specs.Option.{option_or};
ghost use Rattle.job_steps.specs.FaultRows.{IsFitFault};
ghost use Rattle.store_model.specs.VerifyJob.{chunk_fault};
ghost use Rattle.job_steps.specs.Batches.{BatchHas, BeginsBatch, GoesOn, IsBatch, PutsOne, SettlesBatch};
ghost use Rattle.job_steps.specs.Visits.{EndsTested, FindsFault, HasNext, HoldsOne, IsRead, IsUnread, KeepsFault, ReadsOne, SameFault, StaysAt, TestsAll, WaitsFor, fault_in, is_as_long as as_long, next_piece, place_in};

use crate::chunks::Chunks;
use crate::handed::Handed;
use crate::part::{Part, Waiting};
use crate::testing::{PART_LIMIT, first_of};
use blob_codec::HEADER_SIZE;
use std::alloc::{AllocError, Global};
use std::thread::Threads;
use store_types::{Bytes, Piece};
use wire_commands::FileFault;

/// How many chunks a batch has at most.
const BATCH_LIMIT: usize = 4096;

/// A batch ends where its chunks have so many bytes or more, by their index.
const BATCH_BYTES: u64 = 64 * 1024 * 1024;

/// And so does a part of it.
const PART_BYTES: u64 = 2 * 1024 * 1024;

impl Chunks {
    /// The chunks of an index with these entries, of which none was read, with room for a batch.
    pub fn new(alloc: Global, entries: Vec<Piece>) -> Result<Chunks, AllocError>
        requires { vec_len entries ≤ 1_048_576 }
        ensures entries { IfOk result (λ c. c.entries.items ≡ entries.items) }
        ensures unread { IfOk result IsUnread }
        ensures batch { IfOk result BeginsBatch }
    {
        let handed = Handed::new(alloc, entries.len())?;
        let waiting = Part::new(alloc)?;
        Ok(Chunks {
            entries,
            tested: 0,
            handed,
            batch_chunks: 0,
            batch_bytes: 0,
            waiting,
            bytes: 0,
        })
    }

    /// How many were read.
    pub fn place(&self) -> usize
        ensures { result ≡ place_in self.now }
    {
        self.tested + self.waiting.chunks.len()
    }

    /// All were read.
    pub fn is_read(&self) -> bool
        ensures { MatchBool result (IsRead self.now) (HasNext self.now) }
    {
        self.place() >= self.entries.len()
    }

    /// The piece whose chunk is read next.
    pub fn next(&self) -> Piece
        requires { HasNext self.now }
        ensures { result ≡ next_piece self.now }
    {
        self.entries[self.place()]
    }

    /// The next chunk is as long as its index says.
    pub fn is_as_long(&self, blob: &Bytes) -> bool
        requires { HasNext self.now }
        ensures { result ≡ as_long (next_piece self.now) blob.now }
    {
        blob.as_slice().len() == self.next().length as usize + HEADER_SIZE
    }

    /// The next chunk was read, and is not to be tested. None waits before it.
    pub fn skip(&mut self)
        requires none { self.old.waiting.chunks.items ≡ [] }
        requires next { HasNext self.old }
        ensures reads { ReadsOne self.old self.new }
        ensures handed { self.new.handed.parts.items ≡ self.old.handed.parts.items }
        ensures none { self.new.waiting.chunks.items ≡ [] }
        ensures fault { SameFault self.old self.new }
        ensures batch { BatchHas self.old self.new 0 0 }
    {
        self.tested += 1;
    }

    /// The next chunk was read, and waits. It takes no memory.
    fn hold(&mut self, blob: Bytes)
        requires few { vec_len self.old.waiting.chunks < 128 }
        requires next { HasNext self.old }
        requires sized { IsTrue (as_long (next_piece self.old) blob) }
        ensures reads { ReadsOne self.old self.new }
        ensures fault { HoldsOne self.old self.new blob }
        ensures batch { BatchHas self.old self.new 1 (next_piece self.old).length }
    {
        let piece = self.next();
        self.bytes += u64::from(piece.length);
        self.waiting.chunks.push_reserved(Waiting {
            piece,
            blob,
            is_whole: false,
        });
    }

    /// The next chunk was read, and these are its bytes, as many as its index says. It waits for its part: where the file has
    /// a fault already it is not tested. It takes no memory.
    pub fn put(&mut self, fault: &Option<FileFault>, blob: Bytes)
        requires waits { WaitsFor fault.now self.old }
        requires few { vec_len self.old.waiting.chunks < 128 }
        requires next { HasNext self.old }
        requires sized { IsTrue (as_long (next_piece self.old) blob) }
        ensures reads { ReadsOne self.old self.new }
        ensures fault { fault_in fault.now self.new
            ≡ option_or (fault_in fault.now self.old) (chunk_fault (next_piece self.old) blob) }
        ensures waits { WaitsFor fault.now self.new }
        ensures batch { PutsOne fault.now self.old self.new }
    {
        if fault.is_some() {
            self.skip();
            return;
        }
        self.hold(blob);
    }

    /// The batch has ended: it is as long as one may be, or of as many bytes, or its index has no more.
    fn has_ended(&self) -> bool
        ensures { MatchBool result (IsBatch self.now) (GoesOn self.now) }
    {
        self.batch_chunks + self.waiting.chunks.len() >= BATCH_LIMIT
            || self.batch_bytes + self.bytes >= BATCH_BYTES
            || self.is_read()
    }

    /// Those that wait are as many as one thread tests, or of as many bytes.
    fn is_part(&self) -> bool
        ensures { OnFalse result (vec_len self.now.waiting.chunks < 128) }
    {
        self.waiting.chunks.len() >= PART_LIMIT || self.bytes >= PART_BYTES
    }

    /// Tests those that wait, and gives the first fault of the batch. None waits then, and none is at a thread. It takes no memory.
    pub fn test<R: Threads + Sync>(&mut self, rt: &R) -> Option<FileFault>
        ensures fault { FindsFault self.old result }
        ensures fits { IsFitFault result }
        ensures tests { TestsAll self.old self.new }
        ensures batch { BeginsBatch self.new }
    {
        self.tested += self.waiting.chunks.len();
        self.bytes = 0;
        self.batch_chunks = 0;
        self.batch_bytes = 0;
        self.handed.finish(rt, &mut self.waiting)
    }

    /// Hands those that wait to a thread. Where there is none, the first fault of the batch so far is given.
    fn hand<R: Threads + Sync>(&mut self, rt: &R) -> Option<FileFault>
        ensures fault { KeepsFault self.old self.new result }
        ensures fits { IsFitFault result }
        ensures stays { StaysAt self.old self.new }
        ensures none { self.new.waiting.chunks.items ≡ [] }
        ensures batch { BatchHas self.old self.new 0 0 }
    {
        let count = self.waiting.chunks.len();
        self.tested += count;
        self.batch_chunks += count;
        self.batch_bytes += self.bytes;
        self.bytes = 0;
        self.handed.hand(rt, &mut self.waiting)
    }

    /// Where a part is whole a thread begins to test it. Where the batch has ended all of it is tested, and the file's fault is
    /// told with its own. It takes no memory.
    pub fn settle<R: Threads + Sync>(
        &mut self,
        rt: &R,
        fault: Option<FileFault>,
    ) -> Option<FileFault>
        requires fits { IsFitFault fault }
        requires waits { WaitsFor fault self.old }
        ensures fault { fault_in result self.new ≡ fault_in fault self.old }
        ensures fits { IsFitFault result }
        ensures stays { StaysAt self.old self.new }
        ensures waits { WaitsFor result self.new }
        ensures few { vec_len self.new.waiting.chunks < 128 }
        ensures ends { EndsTested self.new }
        ensures batch { SettlesBatch self.old self.new }
    {
        if self.has_ended() {
            return first_of(fault, self.test(rt));
        }
        if self.is_part() {
            return first_of(fault, self.hand(rt));
        }
        fault
    }
}
