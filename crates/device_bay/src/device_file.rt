// Files of the system as devices: how one is opened, and why another is none.
ghost use Rattle.std.specs.Prelude.{◌≡◌, ◌<ℤ◌, pos, IfOk, OnOk};
ghost use Rattle.std.specs.Fd.{file_raw_fd};

use logged_disk::{BLOCK_BYTES, device_bytes};
use std::fmt::{Display, Formatter};
use std::fs::{File, Files, Metadata, OpenOptions, TryLockError};
use std::io::ErrorKind;
use std::os::fd::AsRawFd;
use std::os::unix::fs::{FileExt, FileTypeExt, MetadataExt, OpenOptionsExt};
use std::{fmt, io};
use stripe_header::{SpanFault, read_span};
use thiserror::Error;

/// Why there is no device at a path.
#[derive(Debug, Drop, Error)]
pub enum NoDevice {
    #[error("a name with a colon before any slash is that of no file; a file of that name is ./NAME")]
    Name,
    #[error("neither a regular file nor a block device")]
    Kind,
    #[error("in use: another attach holds its lock")]
    InUse,
    /// A format would overwrite what stands in this block. So many blocks in front have to be zeros.
    #[error("block {block} holds {start}, and a format would overwrite it; if it may go, clear it: dd if=/dev/zero of=FILE bs=512 count={front} conv=notrunc")]
    Used {
        block: u64,
        start: Start,
        front: u64,
    },
    #[error("it has {bytes} bytes, which are too few, and a block device is not made longer")]
    Short {
        bytes: u64,
    },
    #[error("a standard stream is closed, and nothing could be opened in its place")]
    Stream,
    #[error("a standard stream goes there, and would be mixed with the device")]
    Mixed,
    #[error("{0}")]
    System(#[from] io::Error),
}

/// The first bytes of a block.
#[derive(Clone, Copy, Debug)]
pub struct Start(pub [u8; 8]);

impl Display for Start {
    fn fmt<W: fmt::Write>(&self, f: &mut Formatter<W>) -> fmt::Result {
        if self.0 == *b"TSCDOCM1" {
            return write!(f, "documents of an earlier run");
        }
        write!(f, "data (")?;
        for byte in self.0 {
            write!(f, "{byte:02x}")?;
        }
        write!(f, " ..)")
    }
}

// The greatest number of a standard stream.
const LAST_STREAM: i32 = 2;

// Of a block device this many blocks in front have to be zeros: file systems and volume managers
// leave the first one free, and begin up to 64 KiB behind it.
const FRONT_BLOCKS: u64 = 136;

/// Opens that stand in the place of standard streams which are closed, so that the system gives
/// their numbers to no device. They can be neither read nor written, as a closed stream cannot.
#[derive(Drop)]
pub struct ClosedStreams {
    held: [Option<File>; 3],
}

impl ClosedStreams {
    pub fn hold<R: Files<File = File>>(files: &R) -> ClosedStreams {
        ClosedStreams {
            held: [hold_stream(files), hold_stream(files), hold_stream(files)],
        }
    }
}

// The system gives the least number that is free. A folder can be opened and not be read.
fn hold_stream<R: Files<File = File>>(files: &R) -> Option<File> {
    match File::open(files, "/") {
        Ok(folder) if folder.as_raw_fd() <= LAST_STREAM => Some(folder),
        _ => None,
    }
}

// A file that is open.
#[derive(Drop)]
struct Opened {
    file: File,
    // This open made it.
    is_new: bool,
    // It may be read alone.
    is_fixed: bool,
}

// Makes a file that its owner alone may read and write.
fn make<R: Files<File = File>>(files: &R, path: &str) -> io::Result<Opened> {
    let file = OpenOptions::new()
        .read(true)
        .write(true)
        .create_new(true)
        .mode(0o600)
        .open(files, path)?;
    Ok(Opened {
        file,
        is_new: true,
        is_fixed: false,
    })
}

// Whether the system lets a file be read and not be written.
fn is_kept_from_writing(error: &io::Error) -> bool {
    matches!(
        error.kind(),
        ErrorKind::PermissionDenied | ErrorKind::ReadOnlyFilesystem
    )
}

fn is_device(told: &Metadata) -> bool {
    told.is_file() || told.file_type().is_block_device()
}

// Opens a file that is there, for reading alone where it may not be written and no format is asked.
fn open_there<R: Files<File = File>>(files: &R, path: &str, formats: bool) -> io::Result<Opened> {
    match OpenOptions::new().read(true).write(true).open(files, path) {
        Ok(file) => Ok(Opened {
            file,
            is_new: false,
            is_fixed: false,
        }),
        Err(error) if !formats && is_kept_from_writing(&error) => {
            let file = File::open(files, path)?;
            Ok(Opened {
                file,
                is_new: false,
                is_fixed: true,
            })
        }
        Err(error) => Err(error),
    }
}

// Opens the file of a path, and makes it where it is missing and a format is asked. The kind is
// looked at before, since some files act when they are opened.
fn open<R: Files<File = File>>(files: &R, path: &str, formats: bool) -> Result<Opened, NoDevice> {
    match files.metadata(path) {
        Ok(told) if is_device(&told) => Ok(open_there(files, path, formats)?),
        Ok(_) => Err(NoDevice::Kind),
        Err(error) if formats && error.kind() == ErrorKind::NotFound => Ok(make(files, path)?),
        Err(error) => Err(NoDevice::System(error)),
    }
}

// Whether two names are of one file, or of one block device.
fn is_same(one: &Metadata, other: &Metadata) -> bool {
    if one.file_type().is_block_device() && other.file_type().is_block_device() {
        return one.rdev() == other.rdev();
    }
    one.dev() == other.dev() && one.ino() == other.ino()
}

// Whether the path is still that of this file.
fn is_at<R: Files<File = File>>(files: &R, path: &str, told: &Metadata) -> bool {
    match files.metadata(path) {
        Ok(there) => is_same(&there, told),
        Err(_) => false,
    }
}

// Whether a standard stream reads or writes this file.
fn is_stream<R: Files<File = File>>(files: &R, told: &Metadata) -> bool {
    is_at(files, "/dev/fd/0", told)
        || is_at(files, "/dev/fd/1", told)
        || is_at(files, "/dev/fd/2", told)
}

// Takes the lock, which ends with the open: the only one, or of a file that is read alone one that
// others may have too.
fn lock(opened: &Opened) -> Result<(), NoDevice> {
    let answer = if opened.is_fixed {
        opened.file.try_lock_shared()
    } else {
        opened.file.try_lock()
    };
    match answer {
        Ok(()) => {}
        Err(TryLockError::WouldBlock) => return Err(NoDevice::InUse),
        Err(TryLockError::Error(error)) => return Err(NoDevice::System(error)),
    }
    // (another that made the file, and failed, has removed it meanwhile)
    if opened.file.metadata()?.nlink() == 0 {
        return Err(NoDevice::InUse);
    }
    Ok(())
}

// A block of a file, with zeros for what is behind the file's end.
fn read_block(file: &File, number: u64) -> io::Result<[u8; 512]> {
    let mut block = [0; BLOCK_BYTES];
    let at = number.saturating_mul(BLOCK_BYTES as u64);
    match file.read_exact_at(&mut block, at) {
        Ok(()) => Ok(block),
        Err(error) if error.kind() == ErrorKind::UnexpectedEof => Ok(block),
        Err(error) => Err(error),
    }
}

fn is_header(block: &[u8; 512]) -> bool {
    !matches!(read_span(block), Err(SpanFault::Magic))
}

// Whether a format would overwrite what somebody may want: the first blocks are not zeros, and they
// are not those of a stripe.
fn refuse_used(file: &File, front: u64) -> Result<(), NoDevice> {
    for number in 0..front {
        let block = read_block(file, number)?;
        if number == 0 && is_header(&block) {
            return Ok(());
        }
        if block != [0; BLOCK_BYTES] {
            let [a, b, c, d, e, f, g, h, ..] = block;
            return Err(NoDevice::Used {
                block: number,
                start: Start([a, b, c, d, e, f, g, h]),
                front,
            });
        }
    }
    Ok(())
}

// Makes a file so long, if it is shorter. A block device has its own length.
fn make_long(file: &File, bytes: u64) -> Result<(), NoDevice> {
    let has = device_bytes(file)?;
    if bytes <= has {
        return Ok(());
    }
    if file.metadata()?.is_file() {
        Ok(file.set_len(bytes)?)
    } else {
        Err(NoDevice::Short { bytes: has })
    }
}

// Has nothing of the file pending. One that is read alone may stand where nothing can be synced.
fn settle(opened: &Opened) -> io::Result<()> {
    match opened.file.sync_all() {
        Err(_) if opened.is_fixed => Ok(()),
        answer => answer,
    }
}

// Takes the lock, looks at what stands in the file, and makes it long enough.
fn claim<R: Files<File = File>>(files: &R, opened: &Opened, bytes: u64) -> Result<(), NoDevice>
    ensures apart { OnOk result (pos 2 <ℤ file_raw_fd opened.now.file) }
{
    lock(opened)?;
    let file = &opened.file;
    if file.as_raw_fd() <= LAST_STREAM {
        return Err(NoDevice::Stream);
    }
    let told = file.metadata()?;
    if is_stream(files, &told) {
        return Err(NoDevice::Mixed);
    }
    if bytes > 0 {
        let front = if told.is_file() { 1 } else { FRONT_BLOCKS };
        refuse_used(file, front)?;
        make_long(file, bytes)?;
    }
    Ok(settle(opened)?)
}

// Removes a file, if the path is still its own.
fn remove<R: Files<File = File>>(files: &R, path: &str, file: &File) {
    if let Ok(told) = file.metadata() {
        if is_at(files, path, &told) {
            let _ = files.remove_file(path);
        }
    }
}

/// Opens the file of a path as a device of at least so many bytes, with nothing of it pending. It is
/// locked as long as it is open. For no bytes it has to be there, and may be one that can be read
/// alone. For some it is made where it is missing, and made longer where it is too short. What this
/// makes it removes again if it fails.
pub fn open_file<R: Files<File = File>>(files: &R, path: &str, bytes: u64) -> Result<File, NoDevice>
    ensures apart { IfOk result (λ file. pos 2 <ℤ file_raw_fd file) }
{
    let opened = open(files, path, bytes > 0)?;
    match claim(files, &opened, bytes) {
        Ok(()) => Ok(opened.file),
        Err(why) => {
            // (a file that another has locked is theirs by now)
            if opened.is_new && !matches!(why, NoDevice::InUse) {
                remove(files, path, &opened.file);
            }
            Err(why)
        }
    }
}
