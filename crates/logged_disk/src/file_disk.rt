// A device in a file.
ghost use Rattle.std.specs.Prelude.{◌≡◌, ◌+◌, ◌-◌, ◌*◌, ◌≤◌, ◌<◌, ◌^◌, ◌/◌, if◌then◌else◌, is_err, length, IfOk, OnErr};
ghost use Rattle.device_log.specs.Calls.{Wrote};
ghost use Rattle.device_log.specs.DeviceLog.{calls_of};
ghost use Rattle.device_log.specs.Faults.{faults_of, next_count};
ghost use Rattle.logged_disk.specs.Device.{IsWhole, Keeps, Logs};

use crate::{BLOCK_BYTES, Disk};
use device_log::DeviceLog;
use edge_io::Failed;
use std::alloc::AllocError;
use std::fs::File;
use std::io;
use std::io::{Error, ErrorKind, Seek, SeekFrom};
use std::marker::PhantomData;
use std::os::unix::fs::{FileExt, FileTypeExt};

/// What files are taken to hold when they are attached, by the numbers of their devices.
pub trait FileStart {
    ghost use Rattle.std.specs.Prelude.{ℕ};
    ghost use Rattle.device_log.specs.Image.{Image, IsImage};

    ghost first: { ℕ → Image };

    ghost is_image: { (number : ℕ) → IsImage (first number) };
}

/// A regular file or a block device of the system: its whole blocks, and what stands behind them
/// stays. It is trusted as long as each read gives what the log says. Of a write that failed the
/// log says that the whole blocks in front which the system took were written, and nothing else;
/// if more changed, the first read that shows it ends the trust.
#[derive(Drop)]
pub struct FileDisk<S> {
    file: File,
    size: u64,
    number: u64,
    settled: bool,
    calls: u64,
    blocks: u64,
    faults: u64,
    log: DeviceLog,
    start: PhantomData<S>,
    ghost short: { size * 512 < 2 ^ 64 },
    ghost counted: { faults ≡ faults_of (calls_of log) },
}

impl<S: FileStart> FileDisk<S> {
    ghost use Rattle.logged_disk.specs.FileDisk.{file_state, IsAttached};

    /// The file has to be open for reading, and for writing if the device is to be written. Its
    /// bytes over 512, rounded down, are the size. `settled` says that nothing of it is pending.
    #[tactic(auto, using(crate::proofs::FileLemmas::trusted_at_first), unfolding(device_log::specs::Faults::faults_of))]
    pub fn attach(file: File, number: u64, settled: bool) -> io::Result<FileDisk<S>>
        ensures attached { IfOk result (λ disk.
            IsAttached number settled (file_state S.first disk)) }
    {
        let size = device_bytes(&file)? / 512;
        Ok(FileDisk {
            file,
            size,
            number,
            settled,
            calls: 0,
            blocks: 0,
            faults: 0,
            log: DeviceLog::new(),
            start: PhantomData,
        })
    }
}

/// How many bytes a device has: a regular file by its length, and a block device by where it ends.
/// Of no other file that can be told.
pub fn device_bytes(mut file: &File) -> io::Result<u64> {
    let told = file.metadata()?;
    if told.is_file() {
        return Ok(told.len());
    }
    if told.file_type().is_block_device() {
        return file.seek(SeekFrom::End(0));
    }
    Err(Error::from(ErrorKind::Unsupported))
}

/// How many bytes the file took from the front: all, or those before the call that took none.
fn write_front(file: &File, bytes: &[u8], offset: u64) -> usize
    requires { offset + length bytes.now < 2 ^ 64 }
    ensures { result ≤ length bytes.now }
{
    let mut taken = 0;
    for _ in 0..bytes.len() {
        match file.write_at(&bytes[taken..], offset + taken as u64) {
            Ok(count) if count > 0 => taken += count,
            Err(error) if error.kind() == ErrorKind::Interrupted => {}
            _ => break,
        }
    }
    taken
}

/// Counts a call that failed.
fn counted(answer: io::Result<()>, faults: &mut u64) -> Result<(), Failed>
    ensures { faults.new ≡ (if is_err result then next_count faults.old else faults.old) }
{
    match answer {
        Ok(()) => Ok(()),
        Err(_) => {
            *faults = faults.saturating_add(1);
            Err(Failed)
        }
    }
}

#[tactic(auto, using(crate::proofs::FileLemmas::file_trust_falls), unfolding(device_log::specs::Faults::faults_of))]
impl<S: FileStart> Disk for FileDisk<S> {
    ghost use Rattle.logged_disk.specs.FileDisk.{file_state, LeavesFront, file_is_log, file_counted, file_obeys, file_reads, file_tells, file_switched, file_honest, file_unturned};

    ghost state = { λ disk. file_state S.first disk };

    fn blocks(&self) -> u64 {
        self.size
    }

    fn faults(&self) -> u64 {
        self.faults
    }

    fn make_room(&mut self, calls: u32, blocks: u64) -> Result<(), AllocError> {
        self.calls = self.calls.max(u64::from(calls));
        self.blocks = self.blocks.max(blocks);
        Ok(())
    }

    fn read(&mut self, block: u64, into: &mut [u8]) -> Result<(), Failed> {
        let _size = self.size;
        let answer = self.file.read_exact_at(into, block * 512);
        match counted(answer, &mut self.faults) {
            Ok(()) => {
                self.log.read(block, into);
                Ok(())
            }
            Err(failed) => {
                let blocks = (into.len() / BLOCK_BYTES) as u64;
                self.log.refused_read(block, blocks, self.faults);
                Err(failed)
            }
        }
    }

    fn write(&mut self, block: u64, bytes: &[u8]) -> Result<(), Failed>
        requires whole { IsWhole (length bytes.now) }
        requires within { block + length bytes.now / 512 ≤ (file_state S.first self.old).size }
        requires calls { 1 ≤ (file_state S.first self.old).calls }
        requires blocks { length bytes.now / 512 ≤ (file_state S.first self.old).blocks }
        ensures keeps { Keeps 1 (length bytes.now / 512) (file_state S.first self.old)
            (file_state S.first self.new) }
        ensures logs { Logs (Wrote block bytes.now) result (file_state S.first self.old)
            (file_state S.first self.new) }
        ensures short { OnErr result (LeavesFront block bytes.now (file_state S.first self.old)
            (file_state S.first self.new)) }
    {
        let _size = self.size;
        let blocks = (bytes.len() / BLOCK_BYTES) as u64;
        self.calls -= 1;
        self.blocks -= blocks;
        let taken = write_front(&self.file, bytes, block * 512);
        if taken == bytes.len() {
            self.log.wrote(block, bytes);
            return Ok(());
        }
        self.faults = self.faults.saturating_add(1);
        let whole = taken / BLOCK_BYTES * BLOCK_BYTES;
        self.log
            .refused_write(block, blocks, &bytes[..whole], self.faults);
        Err(Failed)
    }

    fn sync(&mut self) -> Result<(), Failed> {
        self.calls -= 1;
        let answer = self.file.sync_data();
        match counted(answer, &mut self.faults) {
            Ok(()) => {
                self.log.synced();
                Ok(())
            }
            Err(failed) => {
                self.log.refused_sync(self.faults);
                Err(failed)
            }
        }
    }

    ghost is_log = { λ disk. file_is_log S.first disk };

    ghost was_image = { λ disk. S.is_image disk.number };

    ghost counted = { λ disk. file_counted S.first disk };

    ghost obeys = { λ disk. file_obeys S.first disk };

    ghost reads = { λ disk. file_reads S.first disk };

    ghost tells = { λ disk. file_tells S.first disk };

    ghost switched = { λ disk. file_switched S.first disk };

    ghost honest = { λ disk. file_honest S.first disk };

    ghost unturned = { λ disk. file_unturned S.first disk };
}
