// What no clause of `logged_disk` and `device_bay` says: which files a bay makes and keeps, and what stands in them.
use device_bay::{Bay, HostBay};
use logged_disk::{Disk, FileDisk, FileStart};
use std::alloc::AllocError;
use std::fs::{self, OpenOptions, remove_file};
use std::test::Fail;

/// Files that are taken to hold zeros.
#[derive(Drop)]
struct Blank;

impl FileStart for Blank {
    ghost use Rattle.device_log.specs.Image.{blank};
    ghost use Rattle.device_log.proofs.Puts.{blank_is_image};

    ghost first = { λ number. blank };

    ghost is_image = { λ number. blank_is_image };
}

#[test]
fn a_path_names_a_file_and_a_missing_one_is_made_for_some_blocks_alone(
    rt: HostRuntime,
) -> Result<(), Fail> {
    let mut bay: HostBay<&HostRuntime, Blank> = HostBay::new(&rt);
    let (path, missing) = ("base_trials_names.img", "base_trials_missing.img");
    fs::write(&rt, path, &[0; 2660])?;
    let rows: [(&[u8], u64, Option<u64>, u64); 8] = [
        // the name, the blocks that are asked, those that are given, and how long the first file is then
        (path.as_bytes(), 2, Some(5), 2660),
        (path.as_bytes(), 0, Some(5), 2660),
        (path.as_bytes(), 6, Some(6), 3072),
        (missing.as_bytes(), 0, None, 3072),
        (missing.as_bytes(), 0, None, 3072),
        (missing.as_bytes(), 3, Some(3), 3072),
        (b"word:a", 1, None, 3072),
        (&[0xFF], 1, None, 3072),
    ];
    for (name, blocks, want, length) in rows {
        let given = match bay.attach(rt.alloc(), name, blocks) {
            Ok(device) => Some(device.blocks()),
            Err(_) => None,
        };
        assert_eq!(rt; given, want, "{blocks} blocks of {name:?}");
        assert_eq!(rt; fs::metadata(&rt, path)?.len(), length);
    }
    remove_file(&rt, path)?;
    remove_file(&rt, missing)?;
    Ok(())
}

/// Why the last attach was refused.
fn reason(rt: &HostRuntime, bay: &HostBay<&HostRuntime, Blank>) -> Result<String, Fail> {
    match bay.refusal() {
        Some(refusal) => Ok(format!(in rt.alloc(); "{refusal}")?),
        None => Ok(String::new(rt.alloc())),
    }
}

#[test]
fn what_stands_in_a_file_is_kept_from_a_format_and_given_without_one(
    rt: HostRuntime,
) -> Result<(), Fail> {
    let path = "base_trials_used.img";
    fs::write(&rt, path, &[3; 2660])?;
    let mut bay: HostBay<&HostRuntime, Blank> = HostBay::new(&rt);
    assert!(rt; bay.attach(rt.alloc(), path.as_bytes(), 9).is_err());
    let used = reason(&rt, &bay)?;
    assert!(rt; used.starts_with("base_trials_used.img: block 0 holds data (0303030303030303 ..)"));
    assert_eq!(rt; fs::metadata(&rt, path)?.len(), 2660);

    // It is locked as long as it is attached.
    let mut device = bay.attach(rt.alloc(), path.as_bytes(), 0)?;
    let mut blocks = [0; 2560];
    assert!(rt; are_read(&mut device, &mut blocks) && blocks == [3; 2560]);
    assert!(rt; bay.attach(rt.alloc(), path.as_bytes(), 0).is_err());
    let locked = reason(&rt, &bay)?;
    assert!(rt; locked.starts_with("base_trials_used.img: in use"));
    drop(device);
    assert!(rt; bay.attach(rt.alloc(), path.as_bytes(), 0).is_ok());
    remove_file(&rt, path)?;
    Ok(())
}

#[test]
fn a_file_that_may_be_read_alone_is_given_for_no_blocks(rt: HostRuntime) -> Result<(), Fail> {
    // Nobody may write it, and several may read it at once. (not every system has it)
    let path = "/sys/devices/system/cpu/possible";
    let Ok(told) = fs::metadata(&rt, path) else {
        return Ok(());
    };
    let mut bay: HostBay<&HostRuntime, Blank> = HostBay::new(&rt);
    let first = bay.attach(rt.alloc(), path.as_bytes(), 0)?;
    let second = bay.attach(rt.alloc(), path.as_bytes(), 0)?;
    assert_eq!(rt; first.blocks(), told.len() / 512);
    assert_eq!(rt; second.blocks(), first.blocks());
    assert!(rt; bay.attach(rt.alloc(), path.as_bytes(), 1).is_err());
    Ok(())
}

/// Writes two blocks of that byte and syncs; says whether both went well.
fn is_put<D: Disk>(disk: &mut D, block: u64, byte: u8) -> Result<bool, AllocError> {
    disk.make_room(2, 2)?;
    if block > 3 || disk.blocks() < 5 {
        return Ok(false);
    }
    Ok(disk.write(block, &[byte; 1024]).is_ok() && disk.sync().is_ok())
}

/// Writes some blocks, and some of them again.
fn are_put<D: Disk>(disk: &mut D) -> Result<bool, AllocError> {
    let mut all = true;
    for (block, byte) in [(0, 7), (3, 8), (2, 9), (1, 10)] {
        all &= is_put(disk, block, byte)?;
    }
    Ok(all)
}

/// Reads the first five blocks.
fn are_read<D: Disk>(disk: &mut D, into: &mut [u8; 2560]) -> bool {
    disk.blocks() >= 5 && disk.read(0, into).is_ok()
}

/// Whether this is what stands in the first five blocks behind these writes.
fn are_those(blocks: &[u8; 2560]) -> bool {
    let mut all = true;
    for i in 0..2560 {
        all &= blocks[i] == [7, 10, 10, 9, 8][i / 512];
    }
    all
}

#[test]
fn the_same_calls_leave_the_same_blocks_in_memory_and_in_a_file(
    rt: HostRuntime,
) -> Result<(), Fail> {
    let path = "base_trials_same.img";
    fs::write(&rt, path, &[0; 2660])?;
    let mut bay: HostBay<&HostRuntime, Blank> = HostBay::new(&rt);
    let mut blocks = [0; 2560];
    for name in ["mem:a", path] {
        let mut device = bay.attach(rt.alloc(), name.as_bytes(), 5)?;
        assert!(rt; are_put(&mut device)?, "{name}");
        assert!(rt;
            are_read(&mut device, &mut blocks) && are_those(&blocks),
            "{name}"
        );
    }
    let bytes = fs::read(&rt, path)?;
    assert_eq!(rt; bytes.len(), 2660);
    assert!(rt; bytes.starts_with(&blocks));
    remove_file(&rt, path)?;
    Ok(())
}

#[test]
fn a_file_that_is_open_for_reading_alone_refuses_writes(rt: HostRuntime) -> Result<(), Fail> {
    let path = "base_trials_read.img";
    fs::write(&rt, path, &[3; 2660])?;
    let file = OpenOptions::new().read(true).open(&rt, path)?;
    let mut disk: FileDisk<Blank> = FileDisk::attach(file, 1, false)?;
    let mut blocks = [0; 2560];
    assert!(rt; !is_put(&mut disk, 0, 8)?);
    assert!(rt; are_read(&mut disk, &mut blocks) && blocks == [3; 2560]);
    assert_eq!(rt; (disk.blocks(), disk.faults()), (5, 1));
    remove_file(&rt, path)?;
    Ok(())
}
