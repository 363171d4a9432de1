//! Words that threads share. Each is read and written by itself, so a read of several may be torn.
use std::alloc::{AllocError, Global};
use std::sync::Arc;
use std::sync::atomic::{AtomicU64, Ordering};

/// How many bytes a word has.
const WORD: usize = 8;

/// How many words a block has.
const BLOCK_WORDS: usize = 64;

/// Words with several owners.
pub(crate) type Words = Arc<Vec<AtomicU64>, Global>;

/// So many blocks of zeros.
pub(crate) fn zeros(alloc: Global, blocks: u64) -> Result<Words, AllocError> {
    let mut words = Vec::new(alloc);
    for _ in 0..blocks.saturating_mul(BLOCK_WORDS as u64) {
        words.push(AtomicU64::new(0))?;
    }
    match Arc::new(alloc, words) {
        Ok(words) => Ok(words),
        Err(_) => Err(AllocError),
    }
}

/// How many whole blocks there are.
pub(crate) fn blocks_in(words: &Words) -> u64 {
    (words.len() / BLOCK_WORDS) as u64
}

/// Copies the words from a block on. Behind the end nothing is copied.
pub(crate) fn read_words(words: &Words, block: u64, into: &mut [u8]) {
    let first = (block as usize).wrapping_mul(BLOCK_WORDS);
    for k in 0..into.len() / WORD {
        if let Some(word) = words.as_slice().get(first.wrapping_add(k)) {
            let word = word.load(Ordering::SeqCst);
            into[k * WORD..k * WORD + WORD].copy_from_slice(&word.to_le_bytes());
        }
    }
}

/// Writes words from a block on. Behind the end nothing is written.
pub(crate) fn write_words(words: &Words, block: u64, bytes: &[u8]) {
    let first = (block as usize).wrapping_mul(BLOCK_WORDS);
    for k in 0..bytes.len() / WORD {
        if let Some(at) = words.as_slice().get(first.wrapping_add(k)) {
            let mut word = [0; WORD];
            word.copy_from_slice(&bytes[k * WORD..k * WORD + WORD]);
            at.store(u64::from_le_bytes(word), Ordering::SeqCst);
        }
    }
}
