// The blocks of a message and of its padding (FIPS 180-4, 5.1.1 and 5.2.1).
ghost use Rattle.std.specs.Prelude.{◌≡◌, ◌+◌, ◌-◌, ◌*◌, ◌/◌, ◌%◌, ◌≤◌, ◌++◌, length, take, drop, replicate};
ghost use Rattle.sha2.specs.Sha256.{padded_message};

/// How many bytes a block has.
pub const BLOCK: usize = 64;

/// A block of the bytes.
pub fn block_at(bytes: &[u8], i: usize) -> &[u8]
    requires { i * 64 + 64 ≤ length bytes.now }
    ensures block { result.now ≡ take 64 (drop (i * 64) bytes.now) }
    ensures size { length result.now ≡ 64 }
{
    &bytes[i * BLOCK..i * BLOCK + BLOCK]
}

// How many blocks the bytes behind the last whole block take with their padding: a byte and the
// eight of the length are added, and what is left of a block.
pub(crate) fn last_count(length: usize) -> usize
    ensures { result ≡ (length % 64 + 72) / 64 }
{
    (length % BLOCK + 72) / BLOCK
}

fn zeros() -> [u8; 128]
    ensures { result ≡ replicate 128 0 }
{
    [0; 128]
}

// The bytes, and zeros behind them.
fn with_zeros(bytes: &[u8]) -> [u8; 128]
    requires { length bytes.now ≤ 128 }
    ensures { result ≡ bytes.now ++ replicate (128 - length bytes.now) 0 }
{
    let mut out = zeros();
    out[0..bytes.len()].copy_from_slice(bytes);
    out
}

// The bytes behind the last whole block.
fn rest_of(message: &[u8]) -> &[u8]
    ensures rest { result.now ≡ drop (length message.now / 64 * 64) message.now }
    ensures size { length result.now ≡ length message.now % 64 }
{
    &message[message.len() / BLOCK * BLOCK..]
}

// The bytes behind the last whole block, with the padding. What is left of the two blocks is zeros.
pub(crate) fn last_blocks(message: &[u8]) -> [u8; 128]
    ensures { take (64 * ((length message.now % 64 + 72) / 64)) result
        ≡ drop (length message.now / 64 * 64) (padded_message message.now) }
{
    let rest = rest_of(message);
    let end = BLOCK * last_count(message.len());
    let mut out = with_zeros(rest);
    out[rest.len()] = 0x80;
    let bits = (message.len() as u64).wrapping_mul(8);
    out[end - 8..end].copy_from_slice(&bits.to_be_bytes());
    out
}
