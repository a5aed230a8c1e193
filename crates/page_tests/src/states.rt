//! A SHA-256 that goes on, beside the kit's.

use crate::asserts::same_at;
use crate::fixtures::{changed, front, zeros};
use hash_states::{HashState, Quarters};
use sha2::{Digest, Sha256};
use std::alloc::Global;
use std::process::Abort;

/// Bytes below 251, of which no two quarters are the same.
fn mixed(rt: &impl Abort, alloc: Global, count: usize) -> Vec<u8> {
    let mut bytes = zeros(rt, alloc, count);
    for (i, byte) in bytes.iter_mut().enumerate() {
        *byte = (i.wrapping_mul(i) % 251) as u8;
    }
    bytes
}

/// The kit's digest of bytes in two parts.
fn digest_of(before: &[u8], bytes: &[u8]) -> [u8; 32] {
    let mut hasher = Sha256::new();
    hasher.update(before);
    hasher.update(bytes);
    hasher.finalize()
}

/// The digest after bytes that are hashed by these quarters.
fn digest_by(state: &HashState, bytes: &[u8], quarters: &Quarters) -> [u8; 32] {
    let mut state = state.copy();
    state.update_by(bytes, quarters);
    state.digest()
}

#[test]
fn pieces_of_any_length(rt: HostRuntime) {
    let all = mixed(&rt, rt.alloc(), 4096);
    let mut state = HashState::new();
    let mut end = 0_usize;
    for len in [
        0, 1, 63, 64, 65, 255, 256, 1000, 0, 64, 1, 256, 63, 1000, 255, 65,
    ] {
        let start = end;
        end = end.saturating_add(len);
        state.update(all.get(start..end).unwrap_or(&[]));
        let want = digest_of(&[], front(&all, end));
        same_at(&rt, end, state.digest(), want);
    }
}

#[test]
fn hashed_again_by_quarters(rt: HostRuntime) {
    let alloc = rt.alloc();
    let all = mixed(&rt, alloc, 64);
    // how many bytes come before: a block or none, or a part of one
    for before in [0, 64, 8] {
        let mut state = HashState::new();
        let first = front(&all, before);
        state.update(first);
        for len in [0, 255, 256, 257, 4096, 40_960] {
            let mut bytes = mixed(&rt, alloc, len);
            let mut noting = state.copy();
            let noted = noting.update_noting(&bytes);
            let want = digest_of(first, &bytes);
            same_at(&rt, (before, len), noting.digest(), want);
            same_at(&rt, (before, len), digest_by(&state, &bytes, &noted), want);
            // one byte of each quarter, and the last one, which is behind them where any is
            for place in [
                len / 8,
                len / 8 * 3,
                len / 8 * 5,
                len / 8 * 7,
                len.saturating_sub(1),
            ] {
                let other = changed(&rt, &bytes, place, 255);
                let want = digest_of(first, &other);
                same_at(&rt, (len, place), digest_by(&state, &other, &noted), want);
            }
            // the quarters of other bytes
            bytes.reverse();
            let want = digest_of(first, &bytes);
            same_at(&rt, (before, len), digest_by(&state, &bytes, &noted), want);
        }
    }
}
