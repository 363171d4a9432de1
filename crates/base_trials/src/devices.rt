// What no clause of `device_log`, `logged_disk` and `device_bay` says: that logs take no memory, and that the memory of a
// device does not grow.
use device_bay::Register;
use device_log::{DeviceLog, SinkLog, SourceLog};
use logged_disk::{Disk, MemDisk};
use std::alloc::AllocError;
use std::test::Fail;

#[test]
fn logs_have_no_bytes(rt: HostRuntime) {
    let sizes = [
        size_of::<DeviceLog>(),
        size_of::<SourceLog>(),
        size_of::<SinkLog>(),
        size_of::<Register<MemDisk>>(),
    ];
    // Of what a bay notes, only its two counts.
    assert_eq!(rt; sizes, [0, 0, 0, 16]);
}

/// Writes the first block and syncs; says whether both went well.
fn is_settled(disk: &mut MemDisk, byte: u8) -> Result<bool, AllocError> {
    disk.make_room(2, 1)?;
    if disk.blocks() == 0 {
        return Ok(false);
    }
    Ok(disk.write(0, &[byte; 512]).is_ok() && disk.sync().is_ok())
}

#[test]
fn a_block_is_written_a_million_times(rt: HostRuntime) -> Result<(), Fail> {
    let mut disk = MemDisk::new(rt.alloc(), 0, 2_097_152);
    for turn in 0..1_000_000u32 {
        assert!(rt; is_settled(&mut disk, (turn % 251) as u8)?);
    }
    Ok(())
}
