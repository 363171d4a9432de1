// What gives devices by name, and takes them back.
ghost use Rattle.std.specs.Prelude.{◌≡◌, ℕ, ◌<◌, ◌∷◌, List, IfOk, OnOk, IsErrOf};
ghost use Rattle.device_bay.specs.Calls.{BayCall, Gave, TookBack, bay_faults, out_of, IsBayLog};
ghost use Rattle.device_bay.specs.Bay.{IsNewDevice, Refuses};

use logged_disk::PowerDisk;
use std::alloc::{AllocError, Global};
use thiserror::Error;

/// Why a device was not attached.
#[derive(Clone, Copy, Debug, Error)]
pub enum BayFault {
    /// This is the bay's count of faults.
    #[error("no device was attached")]
    Failed { count: u64 },
    #[error("out of memory")]
    Memory(AllocError),
}

impl From<AllocError> for BayFault {
    ghost use Rattle.device_bay.specs.declared.bay.BayFault.TheVariants.{Memory};

    ghost from_gives = { λ e fault. fault ≡ Memory e };

    fn from(error: AllocError) -> BayFault {
        BayFault::Memory(error)
    }
}

/// Gives devices by name. Each call that changes it is in its log.
pub trait Bay {
    type Dev: PowerDisk;

    /// All calls, the newest first.
    ghost past: { Self → List BayCall };

    /// Attaches the device of that name, of at least so many blocks, or of its own size for 0.
    fn attach(&mut self, alloc: Global, name: &[u8], blocks: u64) -> Result<Self::Dev, BayFault>
        ensures device { IfOk result (λ device.
            IsNewDevice blocks (past self.old) (Self.Dev.state device)) }
        ensures gave { OnOk result (past self.new ≡ Gave name.now blocks ∷ past self.old) }
        ensures refused { (count : ℕ) → IsErrOf result (BayFault.Failed count)
            → Refuses name.now blocks count (past self.old) (past self.new) }
        ensures memory { (error : _) → IsErrOf result (BayFault.Memory error)
            → past self.new ≡ past self.old };

    /// Takes a device back.
    fn give_back(&mut self, device: Self::Dev)
        requires out { 0 < out_of (past self.old) }
        ensures took { past self.new ≡ TookBack (Self.Dev.state device) ∷ past self.old };

    /// How many attaches have failed.
    fn faults(&self) -> u64
        ensures { result ≡ bay_faults (past self.now) };

    ghost is_log: { (bay : Self) → IsBayLog (past bay) };
}
