//! Which snapshots of a group a prune keeps.
//!
//! The options are taken in the order last, hourly, daily, weekly, monthly, yearly. For one with count N the candidates
//! are the finished snapshots that no earlier option covered, in a period that holds none kept by an earlier option. Of
//! the N newest periods among the candidates the newest snapshot of each is kept, and all candidates of these periods
//! are covered. What no option kept is removed. With no option all is kept. An unfinished snapshot is removed, unless
//! nothing is newer.
//!
//! The period of a snapshot is its own second, its hour, day, week from Monday to Sunday, month or year, all in UTC. Of
//! two items of one time the earlier in the list counts as the newer.
#![tactic(auto)]

ghost use Rattle.std.specs.Prelude.{◌≡◌, ◌<◌, ◌≤◌, All, IfOk, length};
ghost use Rattle.prune_rules.specs.Prune.{marks as marks_of, has_no_option as is_without};
ghost use Rattle.prune_rules.specs.Slots.{Orders, TakesOptions};
ghost use Rattle.store_types.specs.Times.{last_moment};

mod marking;
mod order;
mod periods;

use marking::{keep_others, take_periods};
use order::number_places;
use periods::Period;
use std::alloc::{AllocError, Global};
pub use store_types::Keep;

/// A snapshot of the group.
#[derive(Clone, Copy, Debug, PartialEq, Eq)]
pub struct Item {
    /// Seconds since 1970, up to the end of the year 9999.
    pub time: u64,
    pub finished: bool,
}

#[derive(Clone, Copy, Debug, PartialEq, Eq)]
pub enum Mark {
    Kept,
    Removed,
}

/// So many items are sorted by a table of their places that takes no memory.
const TABLE_LEN: usize = 4096;

/// A mark for each item, in the items' order.
pub fn marks(alloc: Global, items: &[Item], keep: &Keep) -> Result<Vec<Mark>, AllocError>
    requires { All (λ item. item.time ≤ last_moment) items.now }
    ensures { IfOk result (λ marks. marks.items ≡ marks_of items.now keep.now) }
{
    let mut order = vec![in alloc; 0; items.len()]?;
    let mut covered = vec![in alloc; false; items.len()]?;
    let mut marks = vec![in alloc; Mark::Removed; items.len()]?;
    mark_in_order(items, keep, &mut order, &mut covered, &mut marks);
    Ok(marks)
}

/// The same marks, left in `into`. What both slices held doesn't matter; `covered` is work space. It takes no memory.
///
/// No clause speaks of the cost. More than 4,096 items are taken without the table of their places, which is slower.
pub fn marks_into(items: &[Item], keep: &Keep, covered: &mut [bool], into: &mut [Mark])
    requires times { All (λ item. item.time ≤ last_moment) items.now }
    requires covered { length covered.old ≡ length items.now }
    requires into { length into.old ≡ length items.now }
    ensures { into.new ≡ marks_of items.now keep.now }
{
    let mut table = [0; TABLE_LEN];
    let used = table_part(items.len());
    mark_in_order(items, keep, &mut table[..used], covered, into);
}

// How much of the table is used: a place for each item, or nothing.
fn table_part(count: usize) -> usize
    ensures within { result ≤ 4096 }
    ensures all { 0 < result → result ≡ count }
{
    if count <= TABLE_LEN { count } else { 0 }
}

// `order` is work space for the places of the items. It may be empty.
fn mark_in_order(
    items: &[Item],
    keep: &Keep,
    order: &mut [usize],
    covered: &mut [bool],
    into: &mut [Mark],
)
    requires times { All (λ item. item.time ≤ last_moment) items.now }
    requires order { 0 < length order.old → length order.old ≡ length items.now }
    requires covered { length covered.old ≡ length items.now }
    requires into { length into.old ≡ length items.now }
    ensures { into.new ≡ marks_of items.now keep.now }
{
    covered.fill(false);
    into.fill(Mark::Removed);
    number_places(order);
    take_options(items, keep, order, covered, into);
    keep_others(items, has_no_option(keep), into);
}

// Takes the options in their order.
fn take_options(
    items: &[Item],
    keep: &Keep,
    order: &mut [usize],
    covered: &mut [bool],
    into: &mut [Mark],
)
    requires times { All (λ item. item.time ≤ last_moment) items.now }
    requires order { Orders (length items.now) order.old }
    requires covered { length covered.old ≡ length items.now }
    requires into { length into.old ≡ length items.now }
    ensures { TakesOptions keep.now items.now covered.old into.old covered.new into.new }
{
    take_periods(items, Period::Second, keep.last, order, covered, into);
    take_periods(items, Period::Hour, keep.hourly, order, covered, into);
    take_periods(items, Period::Day, keep.daily, order, covered, into);
    take_periods(items, Period::Week, keep.weekly, order, covered, into);
    take_periods(items, Period::Month, keep.monthly, order, covered, into);
    take_periods(items, Period::Year, keep.yearly, order, covered, into);
}

fn has_no_option(keep: &Keep) -> bool
    ensures { result ≡ is_without keep.now }
{
    keep.last == 0
        && keep.hourly == 0
        && keep.daily == 0
        && keep.weekly == 0
        && keep.monthly == 0
        && keep.yearly == 0
}
