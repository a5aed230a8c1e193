//! The pieces of the archives.

ghost use Rattle.std.specs.Prelude.{◌≡◌, ◌<◌, ◌≤◌, ◌^◌, IfOk};
ghost use Rattle.generator.specs.Pieces as spec;

use std::alloc::{AllocError, Global};

/// The number of the sequence that follows.
#[tactic(auto, unfolding(crate::specs::Pieces::after))]
fn after(x: u64) -> u64
    ensures { result ≡ spec.after x }
{
    x.wrapping_mul(6_364_136_223_846_793_005)
        .wrapping_add(1_442_695_040_888_963_407)
}

/// The piece of a seed, from 1,024 to 5,119 bytes.
pub fn piece(alloc: Global, seed: u64) -> Result<Vec<u8>, AllocError>
    ensures { IfOk result (λ bytes. bytes.items ≡ spec.piece seed) }
{
    let mut x = after(seed);
    let size = 1024 + (x >> 52) as usize;
    let mut bytes = Vec::with_capacity(alloc, size)?;
    while bytes.len() < size {
        x = after(x);
        bytes.push((x >> 56) as u8)?;
    }
    Ok(bytes)
}

/// The seed of piece `i` of snapshot `j` of lane `k`. That of an even one is the same in all.
pub fn seed_of(k: u32, j: u32, i: u32) -> u64
    requires lane { k ≤ 63 }
    requires snapshot { j < 4 }
    requires piece { i < 64 }
    ensures { result ≡ spec.seed_of k j i }
{
    if i % 2 == 0 {
        i as u64
    } else {
        k as u64 * 4_294_967_296 + j as u64 * 65_536 + i as u64
    }
}

/// Whether piece `i` is sent with snapshot `j`.
pub fn is_sent(j: u32, i: u32) -> bool
    ensures { result ≡ spec.is_sent j i }
{
    j == 0 || i % 2 == 1
}
