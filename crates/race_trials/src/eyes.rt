// What eyes see of devices that others hold.
use file_eye::FileEye;
use logged_disk::{Disk, FileDisk, FileStart};
use racing_read::{Peek, RaceLog};
use std::alloc::AllocError;
use std::fs::{self, OpenOptions, remove_file};
use std::test::Fail;
use word_disk::WordDisk;

/// Files that are taken to hold zeros.
#[derive(Drop)]
struct Blank;

impl FileStart for Blank {
    ghost use Rattle.device_log.specs.Image.{blank};
    ghost use Rattle.device_log.proofs.Puts.{blank_is_image};

    ghost first = { λ number. blank };

    ghost is_image = { λ number. blank_is_image };
}

/// Whether two blocks of that byte were written, from the second one of four on.
fn is_put<D: Disk>(disk: &mut D, byte: u8) -> Result<bool, AllocError> {
    disk.make_room(1, 2)?;
    Ok(disk.blocks() == 4 && disk.write(1, &[byte; 1024]).is_ok())
}

/// Whether an eye sees these two blocks between zeros, and then fails once beyond the end.
fn sees<P: Peek>(eye: &mut P, byte: u8) -> bool {
    let mut log = RaceLog::new();
    let mut blocks = [1; 2048];
    let mut two = [1; 1024];
    if eye.read_at(&mut log, 0, &mut blocks).is_err() || eye.faults() != 0 {
        return false;
    }
    if eye.read_at(&mut log, 3, &mut two).is_ok() || eye.faults() != 1 {
        return false;
    }
    let edges = [blocks[511], blocks[512], blocks[1535], blocks[1536]];
    edges == [0, byte, byte, 0]
}

#[test]
fn an_eye_sees_what_the_holder_of_words_wrote(rt: HostRuntime) -> Result<(), Fail> {
    let mut disk = WordDisk::new(rt.alloc(), 0, 4)?;
    let mut eye = disk.eye()?;
    for byte in [7, 8] {
        assert!(rt; is_put(&mut disk, byte)?);
        assert!(rt; sees(&mut eye, byte));
        eye = eye.another()?;
    }
    Ok(())
}

#[test]
fn an_eye_sees_what_the_holder_of_a_file_wrote(rt: HostRuntime) -> Result<(), Fail> {
    let path = "race_trials_eye.img";
    fs::write(&rt, path, &[0; 2048])?;
    let file = OpenOptions::new().read(true).write(true).open(&rt, path)?;
    let mut disk: FileDisk<Blank> = FileDisk::attach(file, 1, false)?;
    for byte in [7, 8] {
        let mut eye = FileEye::on(OpenOptions::new().read(true).open(&rt, path)?);
        assert!(rt; is_put(&mut disk, byte)?);
        assert!(rt; sees(&mut eye, byte));
    }
    remove_file(&rt, path)?;
    Ok(())
}

#[test]
fn what_races_note_has_no_bytes(rt: HostRuntime) {
    assert_eq!(rt; size_of::<RaceLog>(), 0);
}
