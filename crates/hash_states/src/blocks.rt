//! Whole blocks of one message, or of four at once.

ghost use Rattle.std.specs.Prelude.{◌≡◌, ℕ, ◌<◌, ◌≤◌, ◌+◌, ◌*◌, ◌/◌, [], drop, length, slice_index, slice_index_or};
ghost use Rattle.sha2.specs.Sha256.{hash_after, word_at};
ghost use Rattle.hash_states.specs.Lanes.{AreWords, lane_of};

use crate::BLOCK_LEN;
use crate::rounds::compress;
use std::simd::u32x4;

fn word_at(bytes: &[u8], i: usize) -> u32
    requires { i + 4 ≤ length bytes.now }
    ensures { result ≡ word_at bytes.now i }
{
    u32::from_be_bytes([bytes[i], bytes[i + 1], bytes[i + 2], bytes[i + 3]])
}

// The words of the block at a place.
fn words_at(bytes: &[u8], at: usize) -> [u32; 16]
    requires { at + 64 ≤ length bytes.now }
    ensures { AreWords result (drop at bytes.now) }
{
    let mut words = [0; 16];
    'words: for i in 0..16 {
        words[i] = word_at(bytes, at + 4 * i);
    }
    words
}

/// The hash value of a message after more whole blocks of it. What stands behind the last one is left out.
pub(crate) fn after_blocks(value: [u32; 8], bytes: &[u8]) -> [u32; 8]
    ensures { result ≡ hash_after value bytes.now (length bytes.now / 64) }
{
    let mut value = value;
    'blocks: for i in 0..bytes.len() / BLOCK_LEN {
        let next = compress(value, words_at(bytes, BLOCK_LEN * i));
        value = next;
    }
    value
}

// The words of a block of each quarter of the bytes, so many bytes each, at the same place of each.
fn words_of_quarters(bytes: &[u8], len: usize, at: usize) -> [u32x4; 16]
    requires len { 4 * len ≤ length bytes.now }
    requires at { at + 64 ≤ len }
    ensures { (j : ℕ) → j < 4
        → AreWords (lane_of slice_index j result) (drop (j * len + at) bytes.now) }
{
    let mut words = [u32x4::splat(0); 16];
    'words: for i in 0..16 {
        let k = at + 4 * i;
        words[i] = u32x4::from_array([
            word_at(bytes, k),
            word_at(bytes, len + k),
            word_at(bytes, 2 * len + k),
            word_at(bytes, 3 * len + k),
        ]);
    }
    words
}

// Four hash values side by side.
fn lanes_of(a: &[u32; 8], b: &[u32; 8], c: &[u32; 8], d: &[u32; 8]) -> [u32x4; 8]
    ensures a { lane_of slice_index 0 result ≡ a.now }
    ensures b { lane_of slice_index 1 result ≡ b.now }
    ensures c { lane_of slice_index 2 result ≡ c.now }
    ensures d { lane_of slice_index 3 result ≡ d.now }
{
    let mut lanes = [u32x4::splat(0); 8];
    'lanes: for i in 0..8 {
        lanes[i] = u32x4::from_array([a[i], b[i], c[i], d[i]]);
    }
    lanes
}

// And one by one.
fn values_of(lanes: &[u32x4; 8]) -> [[u32; 8]; 4]
    ensures { (j : ℕ) → j < 4 → slice_index_or result j [] ≡ lane_of slice_index j lanes.now }
{
    let mut values = [[0; 8]; 4];
    'lanes: for i in 0..8 {
        let [a, b, c, d] = lanes[i].to_array();
        values[0][i] = a;
        values[1][i] = b;
        values[2][i] = c;
        values[3][i] = d;
    }
    values
}

/// The hash values of four messages, each after a quarter of the bytes, so many bytes each, in whole blocks.
pub(crate) fn after_quarters(values: &[[u32; 8]; 4], bytes: &[u8], len: usize) -> [[u32; 8]; 4]
    requires { 4 * len ≤ length bytes.now }
    ensures { (j : ℕ) → j < 4 → slice_index_or result j []
        ≡ hash_after (slice_index_or values.now j []) (drop (j * len) bytes.now) (len / 64) }
{
    let mut lanes = lanes_of(&values[0], &values[1], &values[2], &values[3]);
    'blocks: for i in 0..len / BLOCK_LEN {
        let next = compress(lanes, words_of_quarters(bytes, len, BLOCK_LEN * i));
        lanes = next;
    }
    values_of(&lanes)
}
