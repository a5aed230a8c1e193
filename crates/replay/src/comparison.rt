//! A replay, compared with the replies that were kept.

ghost use Rattle.std.specs.Prelude.{◌≡◌, ◌<◌, ◌≤◌, false, [], length, option_map, slice_index_or, take, IfOk, IsTrue};
ghost use Rattle.store_files.specs.Order.{keeps_rules};
ghost use Rattle.replay.specs.Compare.{misfit_at};
ghost use Rattle.replay.specs.Comparison.{found_with, outcome, Begins, FindsBy, Takes};
ghost use Rattle.replay.specs.Orders.{has_faults};
ghost use Rattle.replay.specs.Reading.{ReadsOut, HasReadCause};

use crate::comparing::compare_out;
use crate::difference::Unequal;
use crate::reading::{Unread, byte_at};
use plain_store::{Misfit, Plain, Replayed};
use port_traits::Source;
use std::alloc::{AllocError, Global};
use store_model::Ending;
use store_types::{Bytes, Entry};

/// A replay whose replies are compared with those that were kept, lane by lane.
#[derive(Drop)]
pub struct Comparison {
    replayed: Result<Replayed, Misfit>,
    /// The lane that comes.
    lane: u32,
    /// The first byte that differs in the lanes before, where one does.
    found: Option<Unequal>,
}

/// Replays an order over the snapshots of a store, with these inputs of its lanes. How a lane ended is told by its input: on a
/// lane that leaves commands unread, memory was wanting.
pub fn replay(
    alloc: Global,
    store: &Plain,
    remote: Option<&Plain>,
    order: &[Entry],
    inputs: &[Bytes],
) -> Result<Comparison, AllocError>
    requires lanes { length inputs.now ≤ 64 }
    requires rules { IsTrue (keeps_rules (length inputs.now) order.now) }
    requires faultless { has_faults order.now ≡ false }
    ensures { IfOk result (λ c. Begins c store.now.snapshots
        (option_map (λ p. p.now.snapshots) remote.entry) order.now inputs.now) }
{
    let endings = [Ending::SinkFault; 64];
    let endings = first_of(&endings, inputs.len());
    let replayed = store.replay(alloc, remote, order, inputs, endings)?;
    Ok(Comparison {
        replayed,
        lane: 0,
        found: None,
    })
}

impl Comparison {
    /// Compares the next lane's replies with all that a source has, which is read to its end. It takes no memory. There are at
    /// most 64 lanes.
    pub fn take_out<S: Source>(&mut self, source: &mut S) -> Result<(), Unread>
        requires { self.old.lane < 64 }
        ensures out { ReadsOut (S.left source.old) (S.left source.new)
            (λ kept told. Takes self.old self.new kept) result }
        ensures cause { HasReadCause (S.faults source.old) (S.faults source.new) result }
    {
        self.found = self.found_by(source)?;
        self.lane += 1;
        Ok(())
    }

    // What is found in the lanes up to the next, with its kept replies.
    fn found_by<S: Source>(&self, source: &mut S) -> Result<Option<Unequal>, Unread>
        ensures out { ReadsOut (S.left source.old) (S.left source.new) (FindsBy self.now) result }
        ensures cause { HasReadCause (S.faults source.old) (S.faults source.new) result }
    {
        match &self.replayed {
            Ok(replayed) => {
                let replies = replies_of(replayed, self.lane);
                let unequal = compare_out(source, self.lane, replies, replayed.frees.as_slice())?;
                Ok(self.found.or(unequal))
            }
            Err(misfit) => {
                let kept = byte_at(source, misfit.replayed)?;
                Ok(self.found_at(misfit, kept))
            }
        }
    }

    // The same where an entry does not fit, and this was kept at its place in the next lane.
    fn found_at(&self, misfit: &Misfit, kept: Option<u8>) -> Option<Unequal>
        ensures { result ≡ found_with misfit.now self.now.found self.now.lane kept }
    {
        if misfit.lane == self.lane {
            return Some(unequal_at(misfit, kept));
        }
        self.found
    }

    /// The first byte that differs, where one does, behind the last lane.
    pub fn end(&self) -> Option<Unequal>
        ensures { result ≡ outcome self.now [] }
    {
        match &self.replayed {
            Ok(_) => self.found,
            Err(misfit) if misfit.lane < self.lane => self.found,
            Err(misfit) => Some(unequal_at(misfit, None)),
        }
    }
}

fn first_of(endings: &[Ending], lanes: usize) -> &[Ending]
    requires { lanes ≤ length endings.now }
    ensures { result.now ≡ take lanes endings.now }
{
    &endings[..lanes]
}

fn replies_of(replayed: &Replayed, lane: u32) -> &[u8]
    ensures { result.now ≡ slice_index_or replayed.now.woven.replies lane [] }
{
    match replayed.woven.replies.as_slice().get(lane as usize) {
        Some(replies) => replies.as_slice(),
        None => &[],
    }
}

fn unequal_at(misfit: &Misfit, kept: Option<u8>) -> Unequal
    ensures { result ≡ misfit_at misfit.now kept }
{
    Unequal {
        lane: misfit.lane,
        place: misfit.replayed,
        replayed: None,
        kept,
    }
}
