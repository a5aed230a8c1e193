//! The plan of a collection of unused chunks: what is to be marked and visited next, and what was removed.
//!
//! A collection begins with the list of the indexes of all finished snapshots, which are marked one after another. The
//! caller marks at most [`MARK_LIMIT`] entries of one index at a time ([`mark_size`]), and passes over those that were
//! forgotten with 0 and 0. Then it lists the chunks that are there, and visits one after another: a chunk whose last touch
//! is before the cutoff is removed. A plan knows no disk: what was read, marked and removed is told to it. No call on it
//! takes memory.
#![tactic(auto)]

ghost use Rattle.std.specs.Prelude.{◌≡◌, ◌⊎◌, ◌<◌, false, min, option_map, IfSome};
ghost use Rattle.gc_plan.specs.Plan.{mark_limit, begun, next_mark, next_index, with_mark, FitsMark, with_names, has_names, next_visit, visited, with_removal, left_of, is_over, report_of};

use std::marker::Model;
use std::vec;
use store_types::{Digest32, FileName};

/// At most so many entries of one index are marked at a time.
pub const MARK_LIMIT: u32 = 1_000;

/// An index of a finished snapshot.
#[derive(Debug, Drop)]
pub struct IndexAt {
    /// The snapshot's number in the catalogue. One that was forgotten and made again has another.
    pub snapshot: u64,
    pub name: FileName,
}

/// What a collection did. Moments are seconds since 1970.
#[derive(Clone, Copy, Debug, PartialEq, Eq)]
pub struct GcReport {
    pub start: u64,
    pub cutoff: u64,
    /// The chunks left that were touched at the start or later.
    pub used: u64,
    /// The other chunks left.
    pub pending: u64,
    pub removed: u64,
}

// The index at this place of the list is to be marked next, from this entry on, or the chunks that are left are to be
// visited.
#[derive(Drop)]
enum Stage {
    Marking { place: usize, first: u32 },
    Sweeping { left: vec::IntoIter<Digest32> },
}

/// The plan of a collection, as contracts see it: its start, its cutoff, the indexes, what comes next, and what was
/// removed.
#[derive(Drop)]
pub struct Gc {
    start: u64,
    cutoff: u64,
    indexes: Vec<IndexAt>,
    stage: Stage,
    removed: u64,
}

impl Model for Gc {
    ghost use Rattle.gc_plan.specs.Plan.{Plan};
    ghost use Rattle.gc_plan.specs.Stages.{stage_of};

    ghost Value = { Plan };

    ghost view = { λ g. record { start = g.start; cutoff = g.cutoff; indexes = g.indexes.items; stage = stage_of g.stage; removed = g.removed } };
}

/// How many of the entries that are left of an index are marked next.
pub fn mark_size(left: u32) -> u32
    ensures { result ≡ min left mark_limit }
{
    left.min(MARK_LIMIT)
}

/// Begins a collection at a moment, where the oldest writer that runs began at another. The indexes are those of all
/// finished snapshots, in the order of the snapshots and of the files' names.
pub fn start(moment: u64, oldest: Option<u64>, indexes: Vec<IndexAt>) -> Gc
    ensures { result ≡ begun moment oldest indexes.items }
{
    Gc {
        start: moment,
        cutoff: atime_book::cutoff(moment, oldest),
        indexes,
        stage: Stage::Marking { place: 0, first: 0 },
        removed: 0,
    }
}

impl Gc {
    /// The moment at which the collection began.
    pub fn start(&self) -> u64
        ensures { result ≡ self.now.start }
    {
        self.start
    }

    /// Chunks whose last touch is before this moment are removed as they are visited.
    pub fn cutoff(&self) -> u64
        ensures { result ≡ self.now.cutoff }
    {
        self.cutoff
    }

    /// The place in the list of the index that is to be marked next, and its first unmarked entry; `None` exactly where
    /// nothing is left to be marked, or the chunks were listed.
    pub fn mark_next(&self) -> Option<(u64, u32)>
        ensures { result ≡ next_mark self.now }
    {
        match &self.stage {
            Stage::Marking { place, first } if *place < self.indexes.len() => {
                Some((*place as u64, *first))
            }
            _ => None,
        }
    }

    /// The index that is to be marked next.
    pub fn index_next(&self) -> Option<&IndexAt>
        ensures { option_map (λ i. i.now) result ≡ next_index self.now }
    {
        match &self.stage {
            Stage::Marking { place, .. } => self.indexes.get(*place),
            Stage::Sweeping { .. } => None,
        }
    }

    /// So many entries of that index were marked, and so many are left of it: an index is next, and with those before
    /// they are at most 1,048,576. With 0 and 0 it is passed over.
    pub fn marked(&mut self, count: u32, left: u32)
        requires { FitsMark self.old count left }
        ensures value { self.new ≡ with_mark self.old count left }
        ensures less { (0 < count) ⊎ (left ≡ 0) → left_of self.new < left_of self.old }
    {
        if let Stage::Marking { place, first } = &mut self.stage {
            if left == 0 {
                *place += 1;
                *first = 0;
            } else {
                *first += count;
            }
        }
    }

    /// These are the chunks that are there, in the order in which they are to be visited.
    pub fn listed(&mut self, names: Vec<Digest32>)
        ensures value { self.new ≡ with_names self.old names.items }
        ensures less { has_names self.old ≡ false → left_of self.new < left_of self.old }
    {
        self.stage = Stage::Sweeping {
            left: names.into_iter(),
        };
    }

    /// The chunks that are there were listed.
    pub fn is_listed(&self) -> bool
        ensures { result ≡ has_names self.now }
    {
        matches!(self.stage, Stage::Sweeping { .. })
    }

    /// The chunk that is visited next; `None` exactly where none is left to be visited, or none was listed.
    pub fn sweep_next(&mut self) -> Option<Digest32>
        ensures next { result ≡ next_visit self.old }
        ensures left { self.new ≡ visited self.old }
        ensures less { IfSome result (λ d. left_of self.new < left_of self.old) }
    {
        match &mut self.stage {
            Stage::Marking { .. } => None,
            Stage::Sweeping { left } => left.next(),
        }
    }

    /// The chunk that was visited last was removed. The count ends at 2^64 - 1.
    pub fn removed(&mut self)
        ensures { self.new ≡ with_removal self.old }
    {
        self.removed = self.removed.saturating_add(1);
    }

    /// All chunks that were listed were visited.
    pub fn is_over(&self) -> bool
        ensures { result ≡ is_over self.now }
    {
        match &self.stage {
            Stage::Marking { .. } => false,
            Stage::Sweeping { left } => left.len() == 0,
        }
    }

    /// The report of a whole collection, with the counts of the chunks that are left.
    pub fn report(&self, used: u64, pending: u64) -> GcReport
        ensures { result ≡ report_of self.now used pending }
    {
        GcReport {
            start: self.start,
            cutoff: self.cutoff,
            used,
            pending,
            removed: self.removed,
        }
    }
}
