//! Words of 32 bits, of one message or of several side by side.

ghost use Rattle.std.specs.Prelude.{◌≡◌, ℕ, ◌<◌, ◌≤◌, ◌-◌, ◌*◌, ◌/◌, ◌%◌, ◌^◌, bit_and, bit_or, bit_xor, slice_index};
ghost use Rattle.std.specs.Int.{w32, rotate_right};
ghost use Rattle.sha2.specs.Sha256.{add32};

use std::simd::u32x4;

/// A word of each message: in a contract lane j is that of message j.
pub(crate) trait Word: Copy {
    // how many messages
    ghost lanes: { ℕ };

    ghost lane: { Self → ℕ → ℕ };

    /// The same number in each.
    fn of(number: u32) -> Self
        ensures { (j : ℕ) → j < lanes → lane result j ≡ number };

    fn add(self, other: Self) -> Self
        ensures { (j : ℕ) → j < lanes → lane result j ≡ add32 (lane self j) (lane other j) };

    // `small` says that the lanes are words. A law could not: in a law a u32 is any number.
    fn and(self, other: Self) -> Self
        ensures value { (j : ℕ) → j < lanes → lane result j ≡ bit_and (lane self j) (lane other j) }
        ensures small { (j : ℕ) → j < lanes → lane self j < 2 ^ 32 };

    fn xor(self, other: Self) -> Self
        ensures value { (j : ℕ) → j < lanes → lane result j ≡ bit_xor (lane self j) (lane other j) }
        ensures small { (j : ℕ) → j < lanes → lane self j < 2 ^ 32 };

    fn rotate(self, count: u32) -> Self
        requires low { 0 < count }
        requires high { count < 32 }
        ensures value { (j : ℕ) → j < lanes → lane result j ≡ rotate_right w32 (lane self j) count }
        ensures small { (j : ℕ) → j < lanes → lane self j < 2 ^ 32 };

    fn shift(self, count: u32) -> Self
        requires { count < 32 }
        ensures { (j : ℕ) → j < lanes → lane result j ≡ lane self j / 2 ^ count };
}

impl Word for u32 {
    ghost lanes = { 1 };

    ghost lane = { λ x j. x };

    fn of(number: u32) -> u32 {
        number
    }

    fn add(self, other: u32) -> u32 {
        self.wrapping_add(other)
    }

    fn and(self, other: u32) -> u32 {
        self & other
    }

    fn xor(self, other: u32) -> u32 {
        self ^ other
    }

    fn rotate(self, count: u32) -> u32 {
        self.rotate_right(count)
    }

    fn shift(self, count: u32) -> u32 {
        self >> count
    }
}

impl Word for u32x4 {
    ghost lanes = { 4 };

    ghost lane = { λ x j. slice_index x j };

    fn of(number: u32) -> u32x4 {
        u32x4::splat(number)
    }

    fn add(self, other: u32x4) -> u32x4 {
        self + other
    }

    fn and(self, other: u32x4) -> u32x4 {
        self & other
    }

    fn xor(self, other: u32x4) -> u32x4 {
        self ^ other
    }

    fn rotate(self, count: u32) -> u32x4 {
        (self >> u32x4::splat(count)) | (self << u32x4::splat(32 - count))
    }

    fn shift(self, count: u32) -> u32x4 {
        self >> u32x4::splat(count)
    }
}
