//! Which lane's collector is open, and what the entries of the order make of it.

ghost use Rattle.std.specs.Prelude.{◌≡◌, ◌==◌, ◌||◌, option_map};
ghost use Rattle.store_types.specs.declared.order.TheConstants.{END_KIND as ending, STOP_KIND as stopping};
ghost use Rattle.core_state.specs.Collectors.{collector_by, is_cut, is_on, with_cut};

use crate::collector::Collector;
use crate::state::Core;
use store_types::{END_KIND, MEMORY_KIND, STOP_KIND};

/// The open collector is this lane's.
pub fn is_on(collector: &Option<Collector>, lane: u32) -> bool
    ensures { result ≡ is_on lane collector.now }
{
    match collector {
        Some(open) => open.lane == lane,
        None => false,
    }
}

/// An entry of this kind is the end of a collector, or of a lane.
fn ends(kind: u8) -> bool
    ensures { result ≡ ((kind == stopping) || (kind == ending)) }
{
    kind == STOP_KIND || kind == END_KIND
}

/// Want of memory ends the open collector early.
fn cut_open(collector: &mut Option<Collector>)
    ensures { collector.new ≡ option_map with_cut collector.old }
{
    match collector {
        Some(open) => open.cut(),
        None => {}
    }
}

/// What an entry of this kind makes of the lane's collector: want of memory ends it early, and its end and the lane's end
/// close it. Another lane's stays as it is.
pub fn note_entry(collector: &mut Option<Collector>, lane: u32, kind: u8)
    ensures { collector.new ≡ collector_by kind lane collector.old }
{
    if !is_on(collector, lane) {
        return;
    }
    if kind == MEMORY_KIND {
        cut_open(collector);
        return;
    }
    if !ends(kind) {
        return;
    }
    *collector = None;
}

impl<D, E, C> Core<D, E, C> {
    /// The lane's collector is open, and was ended early: its next act is its end, which takes no memory.
    pub fn is_cut(&self, lane: u32) -> bool
        ensures { result ≡ is_cut lane self.now.collector }
    {
        match &self.collector {
            Some(open) => open.lane == lane && open.ended.is_some(),
            None => false,
        }
    }
}
