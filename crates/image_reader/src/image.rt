// The text of an image as its bytes.
ghost use Rattle.std.specs.Prelude.{◌≤◌, IfSome};

use std::alloc::{AllocError, Global};

const BLOCK: usize = 512;

// The most blocks of an image that is taken.
const MOST: u64 = 1 << 20;

// The number of blocks in the first line.
fn blocks_in(line: &str) -> Option<u64>
    ensures { IfSome result (λ blocks. blocks ≤ MOST) }
{
    let rest = line.strip_prefix("blocks ")?;
    let blocks = rest.parse::<u64>().ok()?;
    if blocks > MOST { None } else { Some(blocks) }
}

fn zeros(alloc: Global, count: usize) -> Result<Vec<u8>, AllocError> {
    let mut bytes = Vec::new(alloc);
    bytes.resize(count, 0)?;
    Ok(bytes)
}

// Puts the block of a line, and says whether it was one.
fn put_block(bytes: &mut [u8], line: &str) -> bool {
    let Some((number, digits)) = line.split_once(' ') else {
        return false;
    };
    let Ok(number) = number.parse::<u64>() else {
        return false;
    };
    if number > MOST {
        return false;
    }
    let start = BLOCK * number as usize;
    let Some(block) = bytes.get_mut(start..start + BLOCK) else {
        return false;
    };
    match block.get_mut(..digits.len() / 2) {
        Some(front) => hex::decode_to_slice(digits.as_bytes(), front).is_ok(),
        None => false,
    }
}

/// The bytes that a text spells; none where it spells none.
pub fn image_of(alloc: Global, text: &str) -> Result<Option<Vec<u8>>, AllocError> {
    let mut lines = text.lines();
    let Some(first) = lines.next() else {
        return Ok(None);
    };
    let Some(blocks) = blocks_in(first) else {
        return Ok(None);
    };
    let mut bytes = zeros(alloc, BLOCK * blocks as usize)?;
    for line in lines {
        if !put_block(&mut bytes, line) {
            return Ok(None);
        }
    }
    Ok(Some(bytes))
}
