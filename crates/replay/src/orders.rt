//! The order that is replayed.

ghost use Rattle.std.specs.Prelude.{◌≡◌, option_map, IfOk, IfSome};
ghost use Rattle.replay.specs.Orders.{faultless_order, has_faults as has_a_fault, IsFaultless};

use order_file::read_order;
use std::alloc::{AllocError, Global};
use store_types::{Entry, FAULT_KIND};

/// The order that [`read_order`] gives of a file's bytes, or `None` where it gives none, or an act of the order was answered
/// that the disk failed.
pub fn read_faultless(
    alloc: Global,
    lanes: u32,
    bytes: &[u8],
) -> Result<Option<Vec<Entry>>, AllocError>
    ensures order { IfOk result (λ order. option_map (λ v. v.items) order
        ≡ faultless_order lanes bytes.now) }
    ensures faultless { IfOk result (λ order. IfSome order (λ v. IsFaultless lanes v.items)) }
{
    match read_order(alloc, lanes, bytes)? {
        Some(order) if !has_faults(order.as_slice()) => Ok(Some(order)),
        _ => Ok(None),
    }
}

fn has_faults(order: &[Entry]) -> bool
    ensures { result ≡ has_a_fault order.now }
{
    order.iter().any(|entry| entry.kind == FAULT_KIND)
}
