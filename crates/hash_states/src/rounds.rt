//! The rounds over a block, of each message (FIPS 180-4, 6.2.2).

ghost use Rattle.std.specs.Prelude.{◌≡◌, ℕ, ◌<◌, ◌≤◌, ◌+◌, ◌*◌, List, slice_set};
ghost use Rattle.sha2.specs.Sha256.{IsWindow, add_state, big_sigma0, big_sigma1, ch, compress, maj, round, rounds, schedule, small_sigma0, small_sigma1, window_word};
ghost use Rattle.hash_states.specs.Lanes.{AreWords, lane_of};

use crate::constants::ROUND_CONSTANTS;
use crate::word::Word;

// The bits of y where x has a one, and of z where it has none.
fn choose<W: Word>(x: W, y: W, z: W) -> W
    ensures { (j : ℕ) → j < W.lanes → W.lane result j ≡ ch (W.lane x j) (W.lane y j) (W.lane z j) }
{
    z.xor(x.and(y.xor(z)))
}

// Each bit as two of the three have it at the least.
fn majority<W: Word>(x: W, y: W, z: W) -> W
    ensures { (j : ℕ) → j < W.lanes → W.lane result j ≡ maj (W.lane x j) (W.lane y j) (W.lane z j) }
{
    y.xor(x.xor(y).and(y.xor(z)))
}

// Of the sums below, what is rotated by several counts is rotated by their differences, one within another.
fn big_sigma0<W: Word>(x: W) -> W
    ensures { (j : ℕ) → j < W.lanes → W.lane result j ≡ big_sigma0 (W.lane x j) }
{
    x.xor(x.xor(x.rotate(9)).rotate(11)).rotate(2)
}

fn big_sigma1<W: Word>(x: W) -> W
    ensures { (j : ℕ) → j < W.lanes → W.lane result j ≡ big_sigma1 (W.lane x j) }
{
    x.xor(x.xor(x.rotate(14)).rotate(5)).rotate(6)
}

fn small_sigma0<W: Word>(x: W) -> W
    ensures { (j : ℕ) → j < W.lanes → W.lane result j ≡ small_sigma0 (W.lane x j) }
{
    x.xor(x.rotate(11)).rotate(7).xor(x.shift(3))
}

fn small_sigma1<W: Word>(x: W) -> W
    ensures { (j : ℕ) → j < W.lanes → W.lane result j ≡ small_sigma1 (W.lane x j) }
{
    x.xor(x.rotate(2)).rotate(17).xor(x.shift(10))
}

// ---- the message schedule, sixteen words at a time

// Puts word t of the schedule where word t - 16 stood, at t % 16.
#[inline(always)]
fn extend<W: Word>(words: &mut [W; 16], i: usize)
    requires { i < 16 }
    ensures { (j : ℕ) → j < W.lanes → lane_of W.lane j words.new
        ≡ slice_set (lane_of W.lane j words.old) i (window_word (lane_of W.lane j words.old) i) }
{
    words[i] = small_sigma1(words[(i + 14) % 16])
        .add(words[(i + 9) % 16])
        .add(small_sigma0(words[(i + 1) % 16]))
        .add(words[i]);
}

// The same with four words.
#[inline(always)]
fn extend_by_four<W: Word>(words: &mut [W; 16], i: usize)
    requires { i + 4 ≤ 16 }
    ensures { (j : ℕ) → j < W.lanes → (block : List ℕ) (n : ℕ) → 0 < n → n < 4
        → IsWindow (lane_of W.lane j words.old) (schedule block 48) (16 * n + i)
        → IsWindow (lane_of W.lane j words.new) (schedule block 48) (16 * n + (i + 4)) }
{
    extend(words, i);
    extend(words, i + 1);
    extend(words, i + 2);
    extend(words, i + 3);
}

// The sixteen words of the schedule behind these.
#[inline(always)]
fn next_words<W: Word>(words: [W; 16]) -> [W; 16]
    ensures { (j : ℕ) → j < W.lanes → (block : List ℕ) (n : ℕ) → 0 < n → n < 4
        → IsWindow (lane_of W.lane j words) (schedule block 48) (16 * n)
        → IsWindow (lane_of W.lane j result) (schedule block 48) (16 * (n + 1)) }
{
    let mut next = words;
    extend_by_four(&mut next, 0);
    extend_by_four(&mut next, 4);
    extend_by_four(&mut next, 8);
    extend_by_four(&mut next, 12);
    next
}

// ---- the rounds, by sixteen words of the schedule

// One round on the eight working variables, by its constant and its word.
#[inline(always)]
fn round<W: Word>(v: [W; 8], constant: u32, word: W) -> [W; 8]
    ensures { (j : ℕ) → j < W.lanes
        → lane_of W.lane j result ≡ round (lane_of W.lane j v) constant (W.lane word j) }
{
    let [a, b, c, d, e, f, g, h] = v;
    let t1 = h
        .add(big_sigma1(e))
        .add(choose(e, f, g))
        .add(W::of(constant))
        .add(word);
    let t2 = big_sigma0(a).add(majority(a, b, c));
    [t1.add(t2), a, b, c, d.add(t1), e, f, g]
}

// Rounds 16 * n + i and the three behind it, by the words of the schedule from 16 * n on.
#[inline(always)]
fn four_rounds<W: Word>(v: [W; 8], words: &[W; 16], n: usize, i: usize) -> [W; 8]
    requires n { n < 4 }
    requires i { i + 4 ≤ 16 }
    ensures { (j : ℕ) → j < W.lanes → (block h : List ℕ)
        → IsWindow (lane_of W.lane j words.now) (schedule block 48) (16 * (n + 1))
        → lane_of W.lane j v ≡ rounds h (schedule block 48) (16 * n + i)
        → lane_of W.lane j result ≡ rounds h (schedule block 48) (16 * n + (i + 4)) }
{
    let t = 16 * n + i;
    let v = round(v, ROUND_CONSTANTS[t], words[i]);
    let v = round(v, ROUND_CONSTANTS[t + 1], words[i + 1]);
    let v = round(v, ROUND_CONSTANTS[t + 2], words[i + 2]);
    round(v, ROUND_CONSTANTS[t + 3], words[i + 3])
}

// Sixteen rounds, from round 16 * n on.
#[inline(always)]
fn sixteen_rounds<W: Word>(v: [W; 8], words: &[W; 16], n: usize) -> [W; 8]
    requires { n < 4 }
    ensures { (j : ℕ) → j < W.lanes → (block h : List ℕ)
        → IsWindow (lane_of W.lane j words.now) (schedule block 48) (16 * (n + 1))
        → lane_of W.lane j v ≡ rounds h (schedule block 48) (16 * n)
        → lane_of W.lane j result ≡ rounds h (schedule block 48) (16 * (n + 1)) }
{
    let v = four_rounds(v, words, n, 0);
    let v = four_rounds(v, words, n, 4);
    let v = four_rounds(v, words, n, 8);
    four_rounds(v, words, n, 12)
}

// Adds each variable to its word of the hash value.
fn added<W: Word>(value: [W; 8], v: [W; 8]) -> [W; 8]
    ensures { (j : ℕ) → j < W.lanes
        → lane_of W.lane j result ≡ add_state (lane_of W.lane j value) (lane_of W.lane j v) }
{
    let [a, b, c, d, e, f, g, h] = value;
    [
        a.add(v[0]),
        b.add(v[1]),
        c.add(v[2]),
        d.add(v[3]),
        e.add(v[4]),
        f.add(v[5]),
        g.add(v[6]),
        h.add(v[7]),
    ]
}

/// The hash value of each message after one more block of it, by the block's words.
#[inline(always)]
pub(crate) fn compress<W: Word>(value: [W; 8], words: [W; 16]) -> [W; 8]
    ensures { (j : ℕ) → j < W.lanes → (block : List ℕ)
        → AreWords (lane_of W.lane j words) block
        → lane_of W.lane j result ≡ compress (lane_of W.lane j value) block }
{
    let v = sixteen_rounds(value, &words, 0);
    let words = next_words(words);
    let v = sixteen_rounds(v, &words, 1);
    let words = next_words(words);
    let v = sixteen_rounds(v, &words, 2);
    let words = next_words(words);
    let v = sixteen_rounds(v, &words, 3);
    added(value, v)
}
