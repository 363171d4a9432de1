//! A second handle of a file.
ghost use Rattle.std.specs.Prelude.{◌≡◌};
ghost use Rattle.file_eye.specs.FileEye.{file_eye_missed};

use edge_io::Failed;
use racing_read::{Peek, RaceLog};
use std::fs::File;
use std::os::unix::fs::FileExt;

/// Reads a file by a handle of its own, while another may write the file. A read that the system
/// refuses, or that goes beyond the end of the file, fails.
#[derive(Drop)]
pub struct FileEye {
    file: File,
    faults: u64,
}

impl FileEye {
    /// The file has to be open for reading.
    pub fn on(file: File) -> FileEye
        ensures { file_eye_missed result ≡ 0 }
    {
        FileEye { file, faults: 0 }
    }
}

impl Peek for FileEye {
    ghost missed = { file_eye_missed };

    fn read_at(&mut self, log: &mut RaceLog, block: u64, into: &mut [u8]) -> Result<(), Failed> {
        let read = match block.checked_mul(512) {
            Some(at) => self.file.read_exact_at(into, at).is_ok(),
            None => false,
        };
        if read {
            log.gave(block, into);
            return Ok(());
        }
        self.faults = self.faults.saturating_add(1);
        log.missed(block, into.len() as u64, self.faults);
        Err(Failed)
    }

    fn faults(&self) -> u64 {
        self.faults
    }
}
