//! One option at a time, over the items and the two flags of each.

ghost use Rattle.std.specs.Prelude.{◌≡◌, ℕ, ◌<◌, ◌≤◌, ◌||◌, All, IfSome, length, slice_index_or, false};
ghost use Rattle.store_types.specs.Times.{last_moment};
ghost use Rattle.prune_rules.specs.Slots.{TakesPeriods, is_kept, is_below as below_of, is_open as open_of, is_newer as newer_of, Orders, Rises, StartsRun, SpansNumber, time_at, number_at as number_of_item, number_in, FirstOpen, goes_before as before_of, holds_kept as kept_in, keeps_at, is_finished_in as ends_in, runs_at, stands_at, NewestOf};

use crate::order::{number_at, place_at, sort_by_period};
use crate::periods::Period;
use crate::{Item, Mark};

/// Keeps the newest candidate of each of the `count` newest periods that have one, and covers all candidates there.
///
/// With an order the work grows as that of sorting; without one it may grow with the square of the items' number.
pub fn take_periods(
    items: &[Item],
    period: Period,
    count: u16,
    order: &mut [usize],
    covered: &mut [bool],
    into: &mut [Mark],
)
    requires times { All (λ item. item.time ≤ last_moment) items.now }
    requires order { Orders (length items.now) order.old }
    requires covered { length covered.old ≡ length items.now }
    requires into { length into.old ≡ length items.now }
    ensures order { Orders (length items.now) order.new }
    ensures slots { TakesPeriods period count items.now covered.old into.old covered.new into.new }
{
    if count == 0 {
        return;
    }
    if order.is_empty() {
        take_any(items, period, count, covered, into);
    } else {
        sort_by_period(items, period, order);
        take_sorted(items, order, period, count, covered, into);
    }
}

// Goes from the newest period to the oldest, over the places of each, which stand together.
fn take_sorted(
    items: &[Item],
    order: &[usize],
    period: Period,
    count: u16,
    covered: &mut [bool],
    into: &mut [Mark],
)
    requires times { All (λ item. item.time ≤ last_moment) items.now }
    requires order { Orders (length items.now) order.now }
    requires rises { Rises (number_in period items.now order.now) (length items.now) }
    requires covered { length covered.old ≡ length items.now }
    requires into { length into.old ≡ length items.now }
    ensures { TakesPeriods period count items.now covered.old into.old covered.new into.new }
{
    let mut left = count;
    let mut end = items.len();
    while end > 0 {
        if left == 0 {
            return;
        }
        let start = run_start(items, order, period, end);
        if let Some(newest) = newest_open(items, order, period, None, covered, start, end) {
            let number = number_at(items, period, newest);
            if !holds_kept(items, order, period, number, into, start, end) {
                into[newest] = Mark::Kept;
                cover(items, order, period, number, covered, start, end);
                left -= 1;
            }
        }
        end = start;
    }
}

// Looks for the next period among all items.
fn take_any(items: &[Item], period: Period, count: u16, covered: &mut [bool], into: &mut [Mark])
    requires times { All (λ item. item.time ≤ last_moment) items.now }
    requires covered { length covered.old ≡ length items.now }
    requires into { length into.old ≡ length items.now }
    ensures { TakesPeriods period count items.now covered.old into.old covered.new into.new }
{
    let mut bound = None;
    let mut left = count;
    while left > 0 {
        let Some(newest) = newest_open(items, &[], period, bound, covered, 0, items.len()) else {
            return;
        };
        let number = number_at(items, period, newest);
        if !holds_kept(items, &[], period, number, into, 0, items.len()) {
            into[newest] = Mark::Kept;
            cover(items, &[], period, number, covered, 0, items.len());
            left -= 1;
        }
        bound = Some(number);
    }
}

// Where those of one period begin that go up to an end.
fn run_start(items: &[Item], order: &[usize], period: Period, end: usize) -> usize
    requires times { All (λ item. item.time ≤ last_moment) items.now }
    requires order { Orders (length items.now) order.now }
    requires rises { Rises (number_in period items.now order.now) (length items.now) }
    requires some { 0 < end }
    requires within { end ≤ length items.now }
    ensures { StartsRun (number_in period items.now order.now) result end }
{
    let mut start = end - 1;
    let number = number_at(items, period, place_at(items, order, start));
    while start > 0 {
        if number_at(items, period, place_at(items, order, start - 1)) != number {
            return start;
        }
        start -= 1;
    }
    start
}

fn is_below(bound: Option<u64>, number: u64) -> bool
    ensures { result ≡ below_of bound number }
{
    match bound {
        Some(bound) => number < bound,
        None => true,
    }
}

// Whether an item is finished, not covered, and in a period below the bound.
fn is_open(items: &[Item], period: Period, bound: Option<u64>, covered: &[bool], i: usize) -> bool
    requires times { All (λ item. item.time ≤ last_moment) items.now }
    requires covered { length covered.now ≡ length items.now }
    requires within { i < length items.now }
    ensures { result ≡ open_of period items.now covered.now bound i }
{
    items[i].finished && !covered[i] && is_below(bound, number_at(items, period, i))
}

// Whether an item is later than another one. Of two of one time the earlier in the list counts as the newer.
fn is_newer(items: &[Item], i: usize, k: usize) -> bool
    requires within { i < length items.now }
    requires other { k < length items.now }
    ensures { result ≡ newer_of (time_at items.now) i k }
{
    let (time, other) = (items[i].time, items[k].time);
    other < time || time == other && i < k
}

// Whether an item is in a greater period than another one, or in the same and newer.
fn goes_before(items: &[Item], period: Period, i: usize, other: Option<usize>) -> bool
    requires times { All (λ item. item.time ≤ last_moment) items.now }
    requires within { i < length items.now }
    requires other { IfSome other (λ k. k < length items.now) }
    ensures { result ≡ before_of (number_of_item period items.now) (time_at items.now) i other }
{
    let Some(k) = other else {
        return true;
    };
    let (number, least) = (number_at(items, period, i), number_at(items, period, k));
    least < number || number == least && is_newer(items, i, k)
}

// The newest item in the greatest period among those that are open and come from `from` up to `to`.
fn newest_open(
    items: &[Item],
    order: &[usize],
    period: Period,
    bound: Option<u64>,
    covered: &[bool],
    from: usize,
    to: usize,
) -> Option<usize>
    requires times { All (λ item. item.time ≤ last_moment) items.now }
    requires order { Orders (length items.now) order.now }
    requires covered { length covered.now ≡ length items.now }
    requires range { from ≤ to }
    requires within { to ≤ length items.now }
    ensures first { FirstOpen period items.now covered.now bound order.now from to result }
    ensures within { IfSome result (λ i. i < length items.now) }
{
    let mut newest = None;
    for k in from..to {
        let i = place_at(items, order, k);
        if is_open(items, period, bound, covered, i) && goes_before(items, period, i, newest) {
            newest = Some(i);
        }
    }
    newest
}

// Whether something of the period is kept, where its items come from `from` up to `to`.
fn holds_kept(
    items: &[Item],
    order: &[usize],
    period: Period,
    number: u64,
    into: &[Mark],
    from: usize,
    to: usize,
) -> bool
    requires times { All (λ item. item.time ≤ last_moment) items.now }
    requires order { Orders (length items.now) order.now }
    requires into { length into.now ≡ length items.now }
    requires range { from ≤ to }
    requires within { to ≤ length items.now }
    requires all { SpansNumber period items.now number order.now from to }
    ensures { result ≡ kept_in period items.now into.now number }
{
    for k in from..to {
        if keeps(items, period, number, into, place_at(items, order, k)) {
            return true;
        }
    }
    false
}

// Whether an item is of the period and kept.
fn keeps(items: &[Item], period: Period, number: u64, into: &[Mark], i: usize) -> bool
    requires times { All (λ item. item.time ≤ last_moment) items.now }
    requires into { length into.now ≡ length items.now }
    requires within { i < length items.now }
    ensures { result ≡ keeps_at period items.now into.now number i }
{
    into[i] == Mark::Kept && number_at(items, period, i) == number
}

// Covers the finished items of the period, which come from `from` up to `to`.
fn cover(
    items: &[Item],
    order: &[usize],
    period: Period,
    number: u64,
    covered: &mut [bool],
    from: usize,
    to: usize,
)
    requires times { All (λ item. item.time ≤ last_moment) items.now }
    requires order { Orders (length items.now) order.now }
    requires covered { length covered.old ≡ length items.now }
    requires range { from ≤ to }
    requires within { to ≤ length items.now }
    requires all { SpansNumber period items.now number order.now from to }
    ensures { (i : ℕ) → i < length items.now → slice_index_or covered.new i false
        ≡ (slice_index_or covered.old i false || ends_in period items.now number i) }
{
    for k in from..to {
        let i = place_at(items, order, k);
        if is_finished_in(items, period, number, i) {
            covered[i] = true;
        }
    }
}

fn is_finished_in(items: &[Item], period: Period, number: u64, i: usize) -> bool
    requires times { All (λ item. item.time ≤ last_moment) items.now }
    requires within { i < length items.now }
    ensures { result ≡ ends_in period items.now number i }
{
    items[i].finished && number_at(items, period, i) == number
}

/// Keeps what no option speaks of: everything where there is none, and an unfinished item that none is newer than.
pub fn keep_others(items: &[Item], all: bool, into: &mut [Mark])
    requires { length into.old ≡ length items.now }
    ensures { (k : ℕ) → k < length items.now → is_kept (slice_index_or into.new k Mark.Removed)
        ≡ (is_kept (slice_index_or into.old k Mark.Removed) || (all || runs_at items.now k)) }
{
    let newest = newest_of(items);
    for i in 0..items.len() {
        if all || runs(items, newest, i) {
            into[i] = Mark::Kept;
        }
    }
}

// Whether an item is unfinished and the newest.
fn runs(items: &[Item], newest: Option<usize>, i: usize) -> bool
    requires within { i < length items.now }
    requires newest { NewestOf items.now (length items.now) newest }
    ensures { result ≡ runs_at items.now i }
{
    !items[i].finished && is_at(newest, i)
}

fn is_at(place: Option<usize>, i: usize) -> bool
    ensures { result ≡ stands_at place i }
{
    match place {
        Some(place) => place == i,
        None => false,
    }
}

// The newest item.
fn newest_of(items: &[Item]) -> Option<usize>
    ensures { NewestOf items.now (length items.now) result }
{
    let mut newest = None;
    for i in 0..items.len() {
        if is_later(items, i, newest) {
            newest = Some(i);
        }
    }
    newest
}

fn is_later(items: &[Item], i: usize, other: Option<usize>) -> bool
    requires within { i < length items.now }
    requires other { IfSome other (λ k. k < length items.now) }
    ensures { result ≡ before_of (λ k. 0) (time_at items.now) i other }
{
    match other {
        Some(k) => is_newer(items, i, k),
        None => true,
    }
}
