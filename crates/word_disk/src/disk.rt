//! A device in shared words.
ghost use Rattle.std.specs.Prelude.{◌≡◌, ◌+◌, ◌-◌, ◌≤◌, ◌/◌, true, IfOk};
ghost use Rattle.device_log.specs.DeviceLog.{calls_of};
ghost use Rattle.device_log.specs.Faults.{faults_of};

use crate::eye::WordEye;
use crate::words::{Words, read_words, write_words, zeros};
use device_log::DeviceLog;
use edge_io::Failed;
use logged_disk::{BLOCK_BYTES, Disk};
use std::alloc::{AllocError, Global};

/// Shared words as a device, which its holder alone writes. It holds zeros at first, no call of it
/// fails, and it is trusted as long as each read gives what the log says.
#[derive(Drop)]
pub struct WordDisk {
    words: Words,
    size: u64,
    number: u64,
    calls: u64,
    blocks: u64,
    log: DeviceLog,
    ghost counted: { faults_of (calls_of log) ≡ 0 },
}

#[tactic(auto, using(logged_disk::proofs::FileLemmas::trusted_at_first), unfolding(device_log::specs::Faults::faults_of))]
impl WordDisk {
    ghost use Rattle.device_log.specs.Image.{blank};
    ghost use Rattle.logged_disk.specs.FileDisk.{IsAttached};
    ghost use Rattle.word_disk.specs.WordDisk.{word_state};
    ghost use Rattle.word_disk.specs.WordEye.{word_eye_missed};

    /// A device of so many blocks. Nothing of it is pending.
    pub fn new(alloc: Global, number: u64, blocks: u64) -> Result<WordDisk, AllocError>
        ensures attached { IfOk result (λ disk. IsAttached number true (word_state disk)) }
        ensures size { IfOk result (λ disk. (word_state disk).size ≡ blocks) }
        ensures first { IfOk result (λ disk. (word_state disk).first ≡ blank) }
    {
        let words = zeros(alloc, blocks)?;
        Ok(WordDisk {
            words,
            size: blocks,
            number,
            calls: 0,
            blocks: 0,
            log: DeviceLog::new(),
        })
    }

    /// An eye on the words, by which another thread reads them.
    pub fn eye(&self) -> Result<WordEye, AllocError>
        ensures { IfOk result (λ eye. word_eye_missed eye ≡ 0) }
    {
        WordEye::on(&self.words)
    }
}

#[tactic(auto, using(logged_disk::proofs::FileLemmas::file_trust_falls), unfolding(device_log::specs::Faults::faults_of))]
impl Disk for WordDisk {
    ghost use Rattle.word_disk.specs.WordDisk.{word_state, word_is_log, word_was_image, word_counted, word_obeys, word_reads, word_tells, word_switched, word_honest, word_unturned};

    ghost state = { word_state };

    fn blocks(&self) -> u64 {
        self.size
    }

    fn faults(&self) -> u64 {
        0
    }

    fn make_room(&mut self, calls: u32, blocks: u64) -> Result<(), AllocError> {
        self.calls = self.calls.max(u64::from(calls));
        self.blocks = self.blocks.max(blocks);
        Ok(())
    }

    fn read(&mut self, block: u64, into: &mut [u8]) -> Result<(), Failed> {
        read_words(&self.words, block, into);
        self.log.read(block, into);
        Ok(())
    }

    fn write(&mut self, block: u64, bytes: &[u8]) -> Result<(), Failed> {
        self.calls -= 1;
        self.blocks -= (bytes.len() / BLOCK_BYTES) as u64;
        write_words(&self.words, block, bytes);
        self.log.wrote(block, bytes);
        Ok(())
    }

    fn sync(&mut self) -> Result<(), Failed> {
        self.calls -= 1;
        self.log.synced();
        Ok(())
    }

    ghost is_log = { word_is_log };

    ghost was_image = { word_was_image };

    ghost counted = { word_counted };

    ghost obeys = { word_obeys };

    ghost reads = { word_reads };

    ghost tells = { word_tells };

    ghost switched = { word_switched };

    ghost honest = { word_honest };

    ghost unturned = { word_unturned };
}
