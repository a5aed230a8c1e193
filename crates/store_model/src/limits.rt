//! How many bytes a file of a snapshot has at most.

ghost use Rattle.std.specs.Prelude.{◌≡◌};
ghost use Rattle.store_model.specs.SizeLimits.{size_limit as most_of};

use store_types::{ENTRY_LIMIT, FileName, PIECE_LIMIT};

/// The bytes before the entries of an index.
const HEADER_SIZE: u64 = 4096;

/// The most bytes of a blob's file: 12 before the data, which are no more than a piece may have.
pub const BLOB_LIMIT: u64 = 12 + PIECE_LIMIT;

/// The most bytes of a file of this name: of an index its header and as many entries as one may have, else those of a blob.
pub fn size_limit(name: &FileName) -> u64
    ensures { result ≡ most_of name.now }
{
    if name.is_fixed() {
        return HEADER_SIZE + ENTRY_LIMIT as u64 * 32;
    }
    if name.is_dynamic() {
        return HEADER_SIZE + ENTRY_LIMIT as u64 * 40;
    }
    BLOB_LIMIT
}
