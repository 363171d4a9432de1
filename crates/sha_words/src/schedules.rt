// The words of a block (FIPS 180-4, 6.2.2, step 1), four at a time.
ghost use Rattle.std.specs.Prelude.{◌≡◌, ℕ, ◌+◌, ◌*◌, ◌<◌, ◌≤◌, List, length, slice_index};
ghost use Rattle.sha2.specs.Sha256.{schedule, small_sigma0, small_sigma1, word_at};
ghost use Rattle.sha_words.specs.Words.{IsFourFrom, AreSixteenFrom, IsKeyedBelow};

use crate::constants::ROUND_CONSTANTS;
use crate::vectors::{add, first_two_last, last_two_first, one_later, rotate, shift, xor};
use std::simd::u32x4;

#[inline(always)]
fn small_sigma0(x: u32x4) -> u32x4
    ensures { (j : ℕ) → j < 4 → slice_index result j ≡ small_sigma0 (slice_index x j) }
{
    let r7 = rotate(x, 7);
    let r18 = rotate(x, 18);
    let s3 = shift(x, 3);
    xor(xor(r7, r18), s3)
}

#[inline(always)]
fn small_sigma1(x: u32x4) -> u32x4
    ensures { (j : ℕ) → j < 4 → slice_index result j ≡ small_sigma1 (slice_index x j) }
{
    let r17 = rotate(x, 17);
    let r19 = rotate(x, 19);
    let s10 = shift(x, 10);
    xor(xor(r17, r19), s10)
}

#[inline(always)]
fn load_word(block: &[u8], at: usize) -> u32
    requires { at + 4 ≤ length block.now }
    ensures { result ≡ word_at block.now at }
{
    u32::from_be_bytes([block[at], block[at + 1], block[at + 2], block[at + 3]])
}

// Four words as they stand in the block.
#[inline(always)]
pub(crate) fn load_four(block: &[u8], t: usize) -> u32x4
    requires size { length block.now ≡ 64 }
    requires place { t + 4 ≤ 16 }
    ensures { IsFourFrom result (schedule block.now 48) t }
{
    let a = load_word(block, 4 * t);
    let b = load_word(block, 4 * t + 4);
    let c = load_word(block, 4 * t + 8);
    let d = load_word(block, 4 * t + 12);
    u32x4::from_array([a, b, c, d])
}

// The four words behind sixteen. The last two of them need the first two, and so are made last.
#[inline(always)]
pub(crate) fn next_four(w0: u32x4, w1: u32x4, w2: u32x4, w3: u32x4) -> u32x4
    ensures { (b : List ℕ) (t : ℕ) → t + 20 ≤ 64 → AreSixteenFrom w0 w1 w2 w3 (schedule b 48) t
        → IsFourFrom result (schedule b 48) (t + 16) }
{
    let from_1 = one_later(w0, w1);
    let from_9 = one_later(w2, w3);
    let s0 = small_sigma0(from_1);
    let both = add(w0, from_9);
    let sum = add(both, s0);
    let before = last_two_first(w3);
    let s1 = small_sigma1(before);
    let first_two = add(sum, s1);
    let made = first_two_last(first_two);
    let s1_of_made = small_sigma1(made);
    add(first_two, s1_of_made)
}

// Puts four words with the constants of their rounds added.
#[inline(always)]
pub(crate) fn put_keyed(keyed: &mut [u32; 64], at: usize, words: u32x4)
    requires { at + 4 ≤ 64 }
    ensures { (ws : List ℕ) → IsFourFrom words ws at → IsKeyedBelow at keyed.old ws
        → IsKeyedBelow (at + 4) keyed.new ws }
{
    let constants = u32x4::from_array([
        ROUND_CONSTANTS[at],
        ROUND_CONSTANTS[at + 1],
        ROUND_CONSTANTS[at + 2],
        ROUND_CONSTANTS[at + 3],
    ]);
    let sums = add(words, constants);
    let [a, b, c, d] = sums.to_array();
    keyed[at] = a;
    keyed[at + 1] = b;
    keyed[at + 2] = c;
    keyed[at + 3] = d;
}

/// The words of a block, each with the constant of its round added.
pub fn keyed_words(block: &[u8]) -> [u32; 64]
    requires { length block.now ≡ 64 }
    ensures { IsKeyedBelow 64 result (schedule block.now 48) }
{
    let mut keyed = [0u32; 64];
    let mut w0 = load_four(block, 0);
    let mut w1 = load_four(block, 4);
    let mut w2 = load_four(block, 8);
    let mut w3 = load_four(block, 12);
    put_keyed(&mut keyed, 0, w0);
    put_keyed(&mut keyed, 4, w1);
    put_keyed(&mut keyed, 8, w2);
    put_keyed(&mut keyed, 12, w3);
    'turns: for turn in 0..3 {
        let t = 16 * turn;
        w0 = next_four(w0, w1, w2, w3);
        put_keyed(&mut keyed, t + 16, w0);
        w1 = next_four(w1, w2, w3, w0);
        put_keyed(&mut keyed, t + 20, w1);
        w2 = next_four(w2, w3, w0, w1);
        put_keyed(&mut keyed, t + 24, w2);
        w3 = next_four(w3, w0, w1, w2);
        put_keyed(&mut keyed, t + 28, w3);
    }
    keyed
}
