// What is done with a word in each of two lanes. A clause speaks of each lane.
ghost use Rattle.std.specs.Prelude.{◌≡◌, ℕ, ◌+◌, ◌*◌, ◌%◌, ◌^◌, ◌<◌, List, slice_index, bit_and, bit_xor};
ghost use Rattle.std.specs.Int.{w32, rotate_right};
ghost use Rattle.sha2.specs.Sha256.{add32};
ghost use Rattle.sha_twin.specs.Lanes.{word_in};

use std::simd::u64x2;

#[inline(always)]
pub(crate) fn add(a: u64x2, b: u64x2) -> u64x2
    ensures { (j : ℕ) → j < 2 → word_in result j ≡ add32 (word_in a j) (word_in b j) }
{
    a + b
}

#[inline(always)]
pub(crate) fn xor(a: u64x2, b: u64x2) -> u64x2
    ensures { (j : ℕ) → j < 2 → word_in result j ≡ bit_xor (word_in a j) (word_in b j) }
{
    a ^ b
}

#[inline(always)]
pub(crate) fn and(a: u64x2, b: u64x2) -> u64x2
    ensures { (j : ℕ) → j < 2 → word_in result j ≡ bit_and (word_in a j) (word_in b j) }
{
    a & b
}

// One word in both lanes.
#[inline(always)]
pub(crate) fn both(word: u32) -> u64x2
    ensures { (j : ℕ) → j < 2 → word_in result j ≡ word }
{
    u64x2::splat(word as u64)
}

// The word of each lane twice over, so that one shift rotates it: the processors that this is for
// have no rotation of vectors.
#[inline(always)]
pub(crate) fn doubled(x: u64x2) -> u64x2
    ensures { (j : ℕ) → j < 2 → slice_index result j ≡ word_in x j * (2 ^ 32 + 1) }
{
    (x << u64x2::splat(32)) | (x & u64x2::splat(0xffff_ffff))
}

// The rotation of a word that stands twice over.
#[inline(always)]
pub(crate) fn turned(doubled: u64x2, by: u64) -> u64x2
    requires above { 0 < by }
    requires below { by < 32 }
    ensures { (j n : ℕ) → j < 2 → n < 2 ^ 32 → slice_index doubled j ≡ n * (2 ^ 32 + 1)
        → word_in result j ≡ rotate_right w32 n by }
{
    doubled >> u64x2::splat(by)
}
