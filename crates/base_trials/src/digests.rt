// Digests beside those of the kit's `sha2`, at lengths around each edge of the padding.
use sha2::{Digest as _, Sha256};
use std::test::Fail;
use tape_base::Digest;

const LENGTHS: [usize; 15] = [
    0, 1, 55, 56, 57, 63, 64, 65, 119, 120, 127, 128, 129, 1_000, 16_512,
];

// The high bytes of a linear congruence.
fn mixed(rt: &HostRuntime, length: usize) -> Result<Vec<u8>, Fail> {
    let mut bytes = Vec::new(rt.alloc());
    let mut state = 1u32;
    for _ in 0..length {
        state = state.wrapping_mul(1_664_525).wrapping_add(1_013_904_223);
        bytes.push((state >> 24) as u8)?;
    }
    Ok(bytes)
}

#[test]
fn digests_are_those_of_the_kit(rt: HostRuntime) -> Result<(), Fail> {
    for length in LENGTHS {
        let message = mixed(&rt, length)?;
        assert_eq!(rt;
            Digest::of(&message).0,
            Sha256::digest(message.as_slice()),
            "{length}"
        );
    }
    Ok(())
}
