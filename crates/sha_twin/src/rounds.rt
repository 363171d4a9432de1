// The 64 rounds over a block (FIPS 180-4, 6.2.2), on two states. The words are made once for both.
ghost use Rattle.std.specs.Prelude.{◌≡◌, ℕ, ◌+◌, ◌*◌, ◌<◌, ◌≤◌, List, length};
ghost use Rattle.sha2.specs.Sha256.{add32, big_sigma0, big_sigma1, ch, compress, maj, round, rounds, schedule};
ghost use Rattle.sha_twin.specs.Lanes.{state_of_lane, word_in};
ghost use Rattle.sha_words.specs.Words.{IsKeyedBelow};

use crate::vectors::{add, and, both, doubled, turned, xor};
use sha_words::keyed_words;
use std::simd::u64x2;

#[inline(always)]
fn ch(x: u64x2, y: u64x2, z: u64x2) -> u64x2
    ensures { (j : ℕ) → j < 2 → word_in result j ≡ ch (word_in x j) (word_in y j) (word_in z j) }
{
    xor(z, and(x, xor(y, z)))
}

#[inline(always)]
fn maj(x: u64x2, y: u64x2, z: u64x2) -> u64x2
    ensures { (j : ℕ) → j < 2 → word_in result j ≡ maj (word_in x j) (word_in y j) (word_in z j) }
{
    xor(y, and(xor(x, y), xor(y, z)))
}

#[inline(always)]
fn big_sigma0(x: u64x2) -> u64x2
    ensures { (j : ℕ) → j < 2 → word_in result j ≡ big_sigma0 (word_in x j) }
{
    let twice = doubled(x);
    let r2 = turned(twice, 2);
    let r13 = turned(twice, 13);
    let r22 = turned(twice, 22);
    xor(xor(r2, r13), r22)
}

#[inline(always)]
fn big_sigma1(x: u64x2) -> u64x2
    ensures { (j : ℕ) → j < 2 → word_in result j ≡ big_sigma1 (word_in x j) }
{
    let twice = doubled(x);
    let r6 = turned(twice, 6);
    let r11 = turned(twice, 11);
    let r25 = turned(twice, 25);
    xor(xor(r6, r11), r25)
}

// A round whose word comes with the constant added.
#[inline(always)]
fn round(v: [u64x2; 8], keyed: u32) -> [u64x2; 8]
    ensures { (j k w : ℕ) → j < 2 → keyed ≡ add32 w k
        → state_of_lane j result ≡ round (state_of_lane j v) k w }
{
    let [a, b, c, d, e, f, g, h] = v;
    let s1 = big_sigma1(e);
    let chosen = ch(e, f, g);
    let word = both(keyed);
    let with_s1 = add(h, s1);
    let with_chosen = add(with_s1, chosen);
    let temp1 = add(with_chosen, word);
    let s0 = big_sigma0(a);
    let most = maj(a, b, c);
    let temp2 = add(s0, most);
    let new_a = add(temp1, temp2);
    let new_e = add(d, temp1);
    [new_a, a, b, c, new_e, e, f, g]
}

#[inline(always)]
fn step(keyed: &[u32; 64], v: [u64x2; 8], t: usize) -> [u64x2; 8]
    requires { t < 64 }
    ensures { (j : ℕ) (b h : List ℕ) → j < 2 → IsKeyedBelow 64 keyed.now (schedule b 48)
        → state_of_lane j v ≡ rounds h (schedule b 48) t
        → state_of_lane j result ≡ rounds h (schedule b 48) (t + 1) }
{
    round(v, keyed[t])
}

#[inline(always)]
fn four_steps(keyed: &[u32; 64], v: [u64x2; 8], t: usize) -> [u64x2; 8]
    requires { t + 4 ≤ 64 }
    ensures { (j : ℕ) (b h : List ℕ) → j < 2 → IsKeyedBelow 64 keyed.now (schedule b 48)
        → state_of_lane j v ≡ rounds h (schedule b 48) t
        → state_of_lane j result ≡ rounds h (schedule b 48) (t + 4) }
{
    let v = step(keyed, v, t);
    let v = step(keyed, v, t + 1);
    let v = step(keyed, v, t + 2);
    step(keyed, v, t + 3)
}

// Takes one block into both states.
pub(crate) fn compress_both(states: &mut [u64x2; 8], block: &[u8])
    requires { length block.now ≡ 64 }
    ensures { (j : ℕ) → j < 2
        → state_of_lane j states.new ≡ compress (state_of_lane j states.old) block.now }
{
    let keyed = keyed_words(block);
    let mut v = *states;
    'turns: for turn in 0..16 {
        v = four_steps(&keyed, v, 4 * turn);
    }
    let s0 = add(states[0], v[0]);
    let s1 = add(states[1], v[1]);
    let s2 = add(states[2], v[2]);
    let s3 = add(states[3], v[3]);
    let s4 = add(states[4], v[4]);
    let s5 = add(states[5], v[5]);
    let s6 = add(states[6], v[6]);
    let s7 = add(states[7], v[7]);
    *states = [s0, s1, s2, s3, s4, s5, s6, s7];
}
