// One read of a device.
ghost use Rattle.std.specs.Prelude.{◌≡◌, ◌≤◌, ◌+◌, ◌/◌, length, IfErr, OnOk};
ghost use Rattle.device_log.specs.Image.{span};
ghost use Rattle.logged_disk.specs.Device.{IsWhole};
ghost use Rattle.device_reads.specs.Reads.{Fails, Reads};

use logged_disk::Disk;
use std::alloc::AllocError;
use thiserror::Error;

/// Why a device was not read to the end.
#[derive(Debug, Drop, Error)]
pub enum ReadFault {
    /// A read failed; this is the device's count of faults.
    #[error("a read of the device failed")]
    DeviceFault { count: u64 },
    #[error("out of memory")]
    Memory(AllocError),
}

impl From<AllocError> for ReadFault {
    ghost use Rattle.device_reads.specs.declared.reads.ReadFault.TheVariants as faults;

    ghost from_gives = { λ e f. f ≡ faults.Memory e };

    fn from(e: AllocError) -> ReadFault {
        ReadFault::Memory(e)
    }
}

/// Reads whole blocks from one on.
pub fn read<D: Disk>(disk: &mut D, at: u64, into: &mut [u8]) -> Result<(), ReadFault>
    requires whole { IsWhole (length into.old) }
    requires within { at + length into.old / 512 ≤ (D.state disk.old).size }
    ensures reads { OnOk result (Reads at (at + length into.new / 512) 1 (D.state disk.old) (D.state disk.new)
        (λ c. into.new ≡ span c at (length into.new / 512))) }
    ensures unrefused { OnOk result ((D.state disk.new).faults ≡ (D.state disk.old).faults) }
    ensures fails { IfErr result (Fails at (at + length into.new / 512) 1 (D.state disk.old) (D.state disk.new)) }
    ensures len { length into.new ≡ length into.old }
{
    match disk.read(at, into) {
        Ok(()) => Ok(()),
        Err(_) => Err(ReadFault::DeviceFault {
            count: disk.faults(),
        }),
    }
}
