//! Sizes that a fixed index may have.

ghost use Rattle.std.specs.Prelude.{◌≡◌, ◌≤◌};
ghost use Rattle.store_files.specs.FixedIndex.{is_chunk_size as is_allowed, piece_count as count_of};

/// Whether pieces may have this length: a power of two from 4,096 to 16,777,216.
pub fn is_chunk_size(n: u64) -> bool
    ensures { result ≡ is_allowed n }
{
    4096 <= n && n <= 16_777_216 && n & (n - 1) == 0
}

/// How many pieces of this length an archive of `size` bytes makes, of which the last may be shorter.
pub fn piece_count(size: u64, chunk_size: u64) -> u64
    requires { 1 ≤ chunk_size }
    ensures { result ≡ count_of size chunk_size }
{
    size.div_ceil(chunk_size)
}
