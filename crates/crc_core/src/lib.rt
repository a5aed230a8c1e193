//! The CRC-32 of ISO 3309 and ITU-T V.42, which Ethernet, gzip and zip use: reflected, with the
//! polynomial 0xEDB88320, and all ones taken in at both ends. Nothing here takes memory.
//!
//! ```rust
//! assert_eq!(rt; crc_core::crc32(b"123456789"), 0xcbf43926);
//! ```
#![tactic(auto)]

ghost use Rattle.std.specs.Prelude.{◌≡◌, ◌≤◌, ◌<◌, ◌+◌, ◌*◌, List, [], ◌++◌, ℕ, take, drop};
ghost use Rattle.crc_core.specs.Crc.{crc, register_after as register_of, take_byte as register_with, shift_bits, Holds};
ghost use Rattle.std.specs.Int.{w32, from_le_bytes};
ghost use Rattle.std.specs.List.{fold};

mod tables;

use std::marker::Model;
use tables::TABLES;

const ALL_ONES: u32 = 0xffffffff;

/// The CRC-32 of `bytes`.
#[tactic(auto, unfolding(crate::specs::Crc::crc))]
pub fn crc32(bytes: &[u8]) -> u32
    ensures { result ≡ crc bytes.now }
{
    register_after(ALL_ONES, bytes) ^ ALL_ONES
}

/// A CRC-32 of bytes that come piece by piece.
///
/// Contracts see the register, and say by `Holds` which bytes it has taken in.
#[derive(Debug, Drop)]
pub struct Crc {
    register: u32,
}

impl Model for Crc {
    ghost Value = { ℕ };

    ghost view = { λ c. c.register };
}

impl Crc {
    /// One that holds no bytes yet.
    pub fn new() -> Self
        ensures { Holds result [] }
    {
        Crc { register: ALL_ONES }
    }

    /// Takes in `bytes`, behind those that came before.
    pub fn update(&mut self, bytes: &[u8])
        ensures { (taken : List ℕ) → Holds self.old taken → Holds self.new (taken ++ bytes.now) }
    {
        self.register = register_after(self.register, bytes);
    }

    /// The CRC-32 of all bytes that were taken in, in their order.
    #[tactic(auto, unfolding(crate::specs::Crc::crc))]
    pub fn finish(self) -> u32
        ensures { (taken : List ℕ) → Holds self taken → result ≡ crc taken }
    {
        self.register ^ ALL_ONES
    }
}

// The register after `bytes`: sixteen at a step, and then what is left.
fn register_after(register: u32, bytes: &[u8]) -> u32
    ensures { result ≡ register_of register bytes.now }
{
    let (blocks, rest) = bytes.as_chunks::<16>();
    after_each(after_blocks(register, blocks), rest)
}

fn after_blocks(register: u32, blocks: &[[u8; 16]]) -> u32
    ensures { result ≡ fold register_of register blocks.now }
{
    let mut register = register;
    for block in blocks {
        register = after_block(register, block);
    }
    register
}

fn after_each(register: u32, bytes: &[u8]) -> u32
    ensures { result ≡ register_of register bytes.now }
{
    let mut register = register;
    for b in bytes {
        register = after_byte(register, *b);
    }
    register
}

// Each word goes to the block's end by itself, and only the first has to wait for the register.
#[inline(always)]
fn after_block(register: u32, block: &[u8; 16]) -> u32
    ensures { result ≡ register_of register block.now }
{
    word_register(word(block, 12), 0)
        ^ word_register(word(block, 8), 4)
        ^ word_register(word(block, 4), 8)
        ^ word_register(word(block, 0) ^ register, 12)
}

#[inline(always)]
fn word(block: &[u8; 16], at: usize) -> u32
    requires { at + 4 ≤ 16 }
    ensures { result ≡ from_le_bytes w32 (take 4 (drop at block.now)) }
{
    u32::from_le_bytes([block[at], block[at + 1], block[at + 2], block[at + 3]])
}

// The register that the four bytes of a word leave of 0, after themselves and bytes of 0.
#[inline(always)]
fn word_register(word: u32, zeros: usize) -> u32
    requires { zeros ≤ 12 }
    ensures { result ≡ shift_bits (8 * (4 + zeros)) word }
{
    let [first, second, third, fourth] = word.to_le_bytes();
    byte_register(first, zeros + 3)
        ^ byte_register(second, zeros + 2)
        ^ byte_register(third, zeros + 1)
        ^ byte_register(fourth, zeros)
}

#[inline(always)]
fn after_byte(register: u32, byte: u8) -> u32
    ensures { result ≡ register_with register byte }
{
    let low = (register % 256) as u8;
    (register / 256) ^ byte_register(low ^ byte, 0)
}

// The register that a byte leaves of 0, after itself and bytes of 0.
#[inline(always)]
fn byte_register(byte: u8, zeros: usize) -> u32
    requires { zeros < 16 }
    ensures { result ≡ shift_bits (8 * (1 + zeros)) byte }
{
    TABLES[zeros][byte as usize]
}
