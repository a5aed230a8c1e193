//! The order in which an option goes over the items.

ghost use Rattle.std.specs.Prelude.{◌≡◌, ◌<◌, ◌≤◌, All, length};
ghost use Rattle.std.specs.List.{range_with_len};
ghost use Rattle.store_types.specs.Times.{last_moment};
ghost use Rattle.prune_rules.specs.Slots.{Orders, Rises, place_of, number_at as number_of_item, number_in};

use crate::Item;
use crate::periods::Period;

/// The place of the item that comes after `k` others. An empty order is the list's own.
pub fn place_at(items: &[Item], order: &[usize], k: usize) -> usize
    requires order { Orders (length items.now) order.now }
    requires within { k < length items.now }
    ensures place { result ≡ place_of order.now k }
    ensures within { result < length items.now }
{
    match order.get(k) {
        Some(place) => *place,
        None => k,
    }
}

/// The number of the period of the item at a place; where there is none, of that in which 1970 began.
pub fn number_at(items: &[Item], period: Period, place: usize) -> u64
    requires { All (λ item. item.time ≤ last_moment) items.now }
    ensures { result ≡ number_of_item period items.now place }
{
    match items.get(place) {
        Some(item) => period.of(item.time),
        None => period.of(0),
    }
}

/// Numbers the places as they come in the list.
pub fn number_places(order: &mut [usize])
    ensures { order.new ≡ range_with_len 0 (length order.old) }
{
    for place in 0..order.len() {
        order[place] = place;
    }
}

/// Sorts the places by the periods of their items, the oldest first. It takes no memory.
pub fn sort_by_period(items: &[Item], period: Period, order: &mut [usize])
    requires times { All (λ item. item.time ≤ last_moment) items.now }
    requires order { Orders (length items.now) order.old }
    requires some { 0 < length order.old }
    ensures order { Orders (length items.now) order.new }
    ensures rises { Rises (number_in period items.now order.new) (length items.now) }
{
    order.sort_unstable_by_key(|place| number_at(items, period, *place));
}
