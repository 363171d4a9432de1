//! An eye on shared words.
ghost use Rattle.std.specs.Prelude.{◌≡◌, IfOk};
ghost use Rattle.word_disk.specs.WordEye.{word_eye_missed};

use crate::words::{Words, blocks_in, read_words};
use edge_io::Failed;
use logged_disk::BLOCK_BYTES;
use racing_read::{Peek, RaceLog};
use std::alloc::AllocError;
use std::sync::Arc;

/// Reads the words of a device that another holds. A read that goes beyond the end fails.
#[derive(Drop)]
pub struct WordEye {
    words: Words,
    faults: u64,
}

impl WordEye {
    pub(crate) fn on(words: &Words) -> Result<WordEye, AllocError>
        ensures { IfOk result (λ eye. eye.faults ≡ 0) }
    {
        Ok(WordEye {
            words: Arc::try_clone(words)?,
            faults: 0,
        })
    }

    /// Another eye on the same words, none of whose reads has failed yet.
    pub fn another(&self) -> Result<WordEye, AllocError>
        ensures { IfOk result (λ eye. word_eye_missed eye ≡ 0) }
    {
        WordEye::on(&self.words)
    }

    fn reaches(&self, block: u64, blocks: u64) -> bool {
        let size = blocks_in(&self.words);
        blocks <= size && block <= size - blocks
    }
}

impl Peek for WordEye {
    ghost missed = { word_eye_missed };

    fn read_at(&mut self, log: &mut RaceLog, block: u64, into: &mut [u8]) -> Result<(), Failed> {
        if !self.reaches(block, (into.len() / BLOCK_BYTES) as u64) {
            self.faults = self.faults.saturating_add(1);
            log.missed(block, into.len() as u64, self.faults);
            return Err(Failed);
        }
        read_words(&self.words, block, into);
        log.gave(block, into);
        Ok(())
    }

    fn faults(&self) -> u64 {
        self.faults
    }
}
