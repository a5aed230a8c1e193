//! The rules that an order keeps.

ghost use Rattle.std.specs.Prelude.{IsTrue, IfOk, IfSome};
ghost use Rattle.store_files.specs.Order.{keeps_rules};

use order_file::{read_order, what_is_read_has_one_spelling};
use std::alloc::{AllocError, Global};
use store_types::Entry;

/// The order of a file, where it keeps the rules for so many lanes.
pub fn read(alloc: Global, lanes: u32, file: &[u8]) -> Result<Option<Vec<Entry>>, AllocError>
    ensures { IfOk result (λ order. IfSome order (λ read. IsTrue (keeps_rules lanes read.items))) }
{
    what_is_read_has_one_spelling();
    read_order(alloc, lanes, file)
}
