//! The parts of a batch that threads test while the next chunks are read.

ghost use Rattle.std.specs.Prelude.{◌≡◌, ◌+◌, ◌<◌, ◌≤◌, [], vec_capacity, vec_len, IfOk, None};
ghost use Rattle.std.specs.Option.{option_or};
ghost use Rattle.job_steps.specs.FaultRows.{IsFitFault};
ghost use Rattle.job_steps.specs.Waits.{fault_with};
ghost use Rattle.job_steps.specs.Parts.{parts_fault};

use crate::part::Part;
use crate::tested::{TestOf, Tested};
use crate::testing::first_of;
use std::alloc::{AllocError, Global};
use std::mem;
use std::snapshot::Snapshot;
use std::thread::{PromisedHandle, Threads, spawn_with};
use wire_commands::FileFault;

/// How many threads test at once, at most.
const PARTS: usize = 32;

/// The threads of the parts, the first part's first, and the rooms of parts to come.
#[derive(Drop)]
pub struct Handed {
    pub parts: Vec<PromisedHandle<Tested, TestOf>>,
    rooms: Vec<Part>,
    ghost few: { vec_len parts + vec_len rooms ≤ 32 },
    ghost room: { 32 ≤ vec_capacity parts },
    ghost rooms_room: { 32 ≤ vec_capacity rooms },
}

impl Handed {
    /// None is handed over. There is room for as many parts as so many chunks have at most.
    pub fn new(alloc: Global, chunks: usize) -> Result<Handed, AllocError>
        ensures { IfOk result (λ handed. handed.parts.items ≡ []) }
    {
        let parts = Vec::with_capacity(alloc, PARTS)?;
        let mut rooms = Vec::with_capacity(alloc, PARTS)?;
        for _ in 0..chunks.min(PARTS) {
            rooms.push_reserved(Part::new(alloc)?);
        }
        Ok(Handed { parts, rooms })
    }

    /// Waits for all the threads, and gives the fault of the first part that has one. It takes no memory.
    pub fn join<R: Threads>(&mut self, rt: &R) -> Option<FileFault>
        ensures first { result ≡ parts_fault self.old.parts.items }
        ensures fits { IsFitFault result }
        ensures none { self.new.parts.items ≡ [] }
    {
        let mut fault = None;
        while let Some(part) = self.parts.pop() {
            let tested = part.join(rt);
            fault = first_of(tested.fault, fault);
            self.rooms.push_reserved(tested.room);
        }
        fault
    }

    /// Tests the part by all processors, waits for all the threads, and gives the first fault. It takes no memory.
    pub fn finish<R: Threads + Sync>(&mut self, rt: &R, part: &mut Part) -> Option<FileFault>
        ensures first { result
            ≡ option_or (parts_fault self.old.parts.items) (fault_with None part.old.chunks.items) }
        ensures fits { IsFitFault result }
        ensures done { self.new.parts.items ≡ [] }
        ensures none { part.new.chunks.items ≡ [] }
    {
        let fault = part.test_by_all(rt);
        first_of(self.join(rt), fault)
    }

    /// A thread of its own tests the part. Where none can be made the part is tested here, and all the others are waited for.
    fn start<R: Threads>(&mut self, rt: &R, part: Part) -> Option<FileFault>
        requires { vec_len self.old.parts + vec_len self.old.rooms < 32 }
        ensures fault { option_or result (parts_fault self.new.parts.items)
            ≡ option_or (parts_fault self.old.parts.items) (fault_with None part.chunks.items) }
        ensures fits { IsFitFault result }
    {
        match spawn_with(rt, TestOf(Snapshot::of(&part)), move || part.tested()) {
            Ok(thread) => {
                self.parts.push_reserved(thread);
                None
            }
            Err(refused) => {
                let Tested { room, fault } = (refused.value)();
                self.rooms.push_reserved(room);
                first_of(self.join(rt), fault)
            }
        }
    }

    /// Hands the part to a thread of its own, and leaves an empty one. Where there is no room or no thread for it, it is
    /// tested with all that were handed over, and their first fault is given. It takes no memory.
    pub fn hand<R: Threads + Sync>(&mut self, rt: &R, part: &mut Part) -> Option<FileFault>
        ensures fault { option_or result (parts_fault self.new.parts.items)
            ≡ option_or (parts_fault self.old.parts.items) (fault_with None part.old.chunks.items) }
        ensures fits { IsFitFault result }
        ensures none { part.new.chunks.items ≡ [] }
    {
        let Some(mut room) = self.rooms.pop() else {
            return self.finish(rt, part);
        };
        room.chunks.clear();
        let full = mem::replace(part, room);
        self.start(rt, full)
    }
}
