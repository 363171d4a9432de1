// The digests of a document and of its payload, whose blocks are blocks of the document.
ghost use Rattle.std.specs.Prelude.{◌≡◌, ◌<◌, ◌≤◌, length, drop};
ghost use Rattle.sha2.specs.Sha256.{sha256};
ghost use Rattle.sha_twin.specs.Lanes.{state_of_lane, word_in};

use crate::rounds::compress_both;
use sha_words::{BLOCK, INITIAL_STATE, block_at, compress, digest_from};
use std::simd::u64x2;

// Two states in two lanes.
fn side_by_side(first: &[u32; 8], second: &[u32; 8]) -> [u64x2; 8]
    ensures first { state_of_lane 0 result ≡ first.now }
    ensures second { state_of_lane 1 result ≡ second.now }
{
    [
        u64x2::from_array([first[0] as u64, second[0] as u64]),
        u64x2::from_array([first[1] as u64, second[1] as u64]),
        u64x2::from_array([first[2] as u64, second[2] as u64]),
        u64x2::from_array([first[3] as u64, second[3] as u64]),
        u64x2::from_array([first[4] as u64, second[4] as u64]),
        u64x2::from_array([first[5] as u64, second[5] as u64]),
        u64x2::from_array([first[6] as u64, second[6] as u64]),
        u64x2::from_array([first[7] as u64, second[7] as u64]),
    ]
}

fn word_in(x: u64x2, j: usize) -> u32
    requires { j < 2 }
    ensures { result ≡ word_in x j }
{
    (x.to_array()[j] & 0xffff_ffff) as u32
}

fn state_of_lane(states: &[u64x2; 8], j: usize) -> [u32; 8]
    requires { j < 2 }
    ensures { result ≡ state_of_lane j states.now }
{
    [
        word_in(states[0], j),
        word_in(states[1], j),
        word_in(states[2], j),
        word_in(states[3], j),
        word_in(states[4], j),
        word_in(states[5], j),
        word_in(states[6], j),
        word_in(states[7], j),
    ]
}

// What stands behind the first two blocks.
fn behind_two(bytes: &[u8]) -> &[u8]
    requires { 128 ≤ length bytes.now }
    ensures { result.now ≡ drop 128 bytes.now }
{
    &bytes[2 * BLOCK..]
}

/// The SHA-256 of the payload, which stands behind a header of 128 bytes, and that of both.
pub fn digest_document(bytes: &[u8]) -> ([u8; 32], [u8; 32])
    requires { 128 ≤ length bytes.now }
    ensures payload { result.0 ≡ sha256 (drop 128 bytes.now) }
    ensures document { result.1 ≡ sha256 bytes.now }
{
    let mut begun = INITIAL_STATE;
    compress(&mut begun, block_at(bytes, 0));
    compress(&mut begun, block_at(bytes, 1));
    let payload = behind_two(bytes);
    let count = payload.len() / BLOCK;
    let mut states = side_by_side(&INITIAL_STATE, &begun);
    'both: for i in 0..count {
        compress_both(&mut states, block_at(payload, i));
    }
    let of_payload = digest_from(&state_of_lane(&states, 0), payload, count);
    let of_all = digest_from(&state_of_lane(&states, 1), bytes, count + 2);
    (of_payload, of_all)
}
