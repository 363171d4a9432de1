// What is done with four words at a time. A clause speaks of each lane, or names all four.
ghost use Rattle.std.specs.Prelude.{◌≡◌, ℕ, ◌+◌, ◌-◌, ◌*◌, ◌/◌, ◌%◌, ◌^◌, ◌<◌, List, [], ◌∷◌, slice_index, bit_xor};
ghost use Rattle.std.specs.Int.{w32, rotate_right};
ghost use Rattle.sha2.specs.Sha256.{add32};
ghost use Rattle.sha_words.specs.Words.{IsFourFrom};

use std::simd::u32x4;

#[inline(always)]
pub(crate) fn add(a: u32x4, b: u32x4) -> u32x4
    ensures { (j : ℕ) → j < 4 → slice_index result j ≡ add32 (slice_index a j) (slice_index b j) }
{
    a + b
}

#[inline(always)]
pub(crate) fn xor(a: u32x4, b: u32x4) -> u32x4
    ensures { (j : ℕ) → j < 4 → slice_index result j ≡ bit_xor (slice_index a j) (slice_index b j) }
{
    a ^ b
}

#[inline(always)]
pub(crate) fn rotate(x: u32x4, by: u32) -> u32x4
    requires above { 0 < by }
    requires below { by < 32 }
    ensures { (j : ℕ) → j < 4 → slice_index result j ≡ rotate_right w32 (slice_index x j) by }
{
    (x >> u32x4::splat(by)) | (x << u32x4::splat(32 - by))
}

#[inline(always)]
pub(crate) fn shift(x: u32x4, by: u32) -> u32x4
    requires { by < 32 }
    ensures { (j : ℕ) → j < 4 → slice_index result j ≡ slice_index x j / 2 ^ by }
{
    x >> u32x4::splat(by)
}

// The four words that begin one behind those of `a`, where `b` has the next four.
#[inline(always)]
pub(crate) fn one_later(a: u32x4, b: u32x4) -> u32x4
    ensures { (ws : List ℕ) (t : ℕ) → IsFourFrom a ws t → IsFourFrom b ws (t + 4)
        → IsFourFrom result ws (t + 1) }
{
    a.shuffle(b, [1, 2, 3, 4])
}

// The last two lanes in front of two zeros.
#[inline(always)]
pub(crate) fn last_two_first(x: u32x4) -> u32x4
    ensures { result ≡ slice_index x 2 ∷ slice_index x 3 ∷ 0 ∷ 0 ∷ [] }
{
    x.shuffle(u32x4::splat(0), [2, 3, 4, 4])
}

// The first two lanes behind two zeros.
#[inline(always)]
pub(crate) fn first_two_last(x: u32x4) -> u32x4
    ensures { result ≡ 0 ∷ 0 ∷ slice_index x 0 ∷ slice_index x 1 ∷ [] }
{
    x.shuffle(u32x4::splat(0), [4, 4, 0, 1])
}
