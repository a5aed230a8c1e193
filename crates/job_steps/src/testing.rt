//! The test of chunks that were read.

ghost use Rattle.std.specs.Prelude.{◌≡◌, [], length, IfOk, None, Option};
ghost use Rattle.std.specs.List.{All};
ghost use Rattle.std.specs.Option.{option_or};
ghost use Rattle.job_steps.specs.FaultRows.{IsFitFault};
ghost use Rattle.job_steps.specs.Waits.{IsTested, SameFaults, fault_with};

use crate::part::{Part, Waiting};
use crate::tested::Tested;
use chunk_store::test;
use rayon::prelude::par_for_each_mut;
use std::alloc::{AllocError, Global};
use std::thread::Threads;
use wire_commands::FileFault;

/// How many chunks a part has at most.
pub const PART_LIMIT: usize = 128;

/// The chunk is the blob of its piece, or it is not.
fn test_one(waiting: &mut Waiting)
    ensures piece { waiting.new.piece ≡ waiting.old.piece }
    ensures blob { waiting.new.blob ≡ waiting.old.blob }
    ensures tested { IsTested waiting.new }
{
    waiting.is_whole = test(&waiting.piece.digest, waiting.blob.as_slice()).is_ok();
}

/// Tests each, by as many threads as there are processors, up to 32. It takes no memory, and the answer is that of one thread.
fn test_all<R: Threads + Sync>(rt: &R, waiting: &mut [Waiting])
    ensures same { SameFaults waiting.old waiting.new }
    ensures count { length waiting.new ≡ length waiting.old }
    ensures tested { All IsTested waiting.new }
{
    par_for_each_mut(
        rt,
        waiting,
        |_, one: &mut Waiting|
            ensures piece { one.new.piece ≡ one.old.piece }
            ensures blob { one.new.blob ≡ one.old.blob }
            ensures tested { IsTested one.new }
        { test_one(one) },
    );
}

/// The fault of the first that is not whole.
fn first_fault(waiting: &[Waiting]) -> Option<FileFault>
    requires { All IsTested waiting.now }
    ensures first { result ≡ fault_with None waiting.now }
    ensures fits { IsFitFault result }
{
    for one in waiting {
        if !one.is_whole {
            return Some(FileFault::Damaged(one.piece.digest));
        }
    }
    None
}

/// Tests one behind another, up to the first that is damaged, and gives its fault.
fn first_damaged(waiting: &[Waiting]) -> Option<FileFault>
    ensures first { result ≡ fault_with None waiting.now }
    ensures fits { IsFitFault result }
{
    for one in waiting {
        if test(&one.piece.digest, one.blob.as_slice()).is_err() {
            return Some(FileFault::Damaged(one.piece.digest));
        }
    }
    None
}

/// The first of two faults.
pub fn first_of(fault: Option<FileFault>, other: Option<FileFault>) -> Option<FileFault>
    requires fault { IsFitFault fault }
    requires other { IsFitFault other }
    ensures first { result ≡ option_or fault other }
    ensures fits { IsFitFault result }
{
    match fault {
        Some(fault) => Some(fault),
        None => other,
    }
}

impl Part {
    pub fn new(alloc: Global) -> Result<Part, AllocError>
        ensures { IfOk result (λ part. part.chunks.items ≡ []) }
    {
        Ok(Part {
            chunks: Vec::with_capacity(alloc, PART_LIMIT)?,
        })
    }

    /// Tests its chunks by all processors, gives the fault of the first that is damaged, and lets them go. It takes no memory.
    pub fn test_by_all<R: Threads + Sync>(&mut self, rt: &R) -> Option<FileFault>
        ensures first { result ≡ fault_with None self.old.chunks.items }
        ensures fits { IsFitFault result }
        ensures none { self.new.chunks.items ≡ [] }
    {
        test_all(rt, &mut self.chunks);
        let fault = first_fault(&self.chunks);
        self.chunks.clear();
        fault
    }

    /// Tests its chunks in this thread, and lets them go. It takes no memory.
    pub fn tested(mut self) -> Tested
        ensures { result.fault ≡ fault_with None self.chunks.items }
    {
        let fault = first_damaged(&self.chunks);
        self.chunks.clear();
        Tested { room: self, fault }
    }
}
