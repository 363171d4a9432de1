// A bay of devices in memory.
ghost use Rattle.std.specs.Prelude.{◌≡◌, ◌≤◌};
ghost use Rattle.std.proofs.Props.{props};
ghost use Rattle.device_log.proofs.ReadLaws.{reads_are_prop};
ghost use Rattle.logged_disk.specs.Honest.{cuts_are_prop};
ghost use Rattle.device_bay.specs.Bay.{size_for};
ghost use Rattle.device_bay.specs.Register.{IsRegister};
ghost use Rattle.logged_disk.specs.MemDisk.{mem_state};

use crate::register::Register;
use crate::{Bay, BayFault};
use logged_disk::MemDisk;
use std::alloc::Global;

/// How many blocks a device has that is attached at its own size.
pub const OWN_BLOCKS: u64 = 64;

/// The size of a device in memory of which so many blocks are asked.
pub(crate) fn size_for(blocks: u64) -> u64
    ensures size { result ≡ size_for blocks }
    ensures enough { blocks ≤ result }
{
    if blocks == 0 { OWN_BLOCKS } else { blocks }
}

/// A bay that takes every name as that of a new device in memory.
#[derive(Drop)]
pub struct MemBay {
    /// How many attach calls were made.
    attaches: u64,
    fail_at: Vec<u64>,
    register: Register<MemDisk>,
    ghost is_register: { IsRegister mem_state register } by { Prim.hlevel (props, reads_are_prop, cuts_are_prop) },
}

impl MemBay {
    ghost use Rattle.std.specs.Prelude.{All};
    ghost use Rattle.device_bay.specs.Calls.{returned_by};
    ghost use Rattle.device_bay.specs.Returns.{IsMemReturn};
    ghost use Rattle.device_bay.specs.MemBay.{IsNew, mem_calls};

    /// The attach calls whose numbers are listed fail; the first has the number 1.
    pub fn new(_alloc: Global, fail_at: Vec<u64>) -> MemBay
        ensures { IsNew fail_at.items result }
    {
        MemBay {
            attaches: 0,
            fail_at,
            register: Register::new(),
        }
    }

    /// A law for proofs; it does nothing when it runs. Each device that came back failed where its
    /// switch was told to, and nowhere else.
    pub fn returns_obey(&self)
        ensures { All IsMemReturn (returned_by (mem_calls self.now)) }
    {}
}

impl Bay for MemBay {
    ghost use Rattle.std.specs.Prelude.{◌≡◌, ◌↔◌, ℕ, ◌<◌, ◌≤◌, ◌∷◌, [], Contains, IfOk, OnOk, IsErrOf};
    ghost use Rattle.device_log.specs.Causes.{one_more};
    ghost use Rattle.device_bay.specs.Calls.{Gave, TookBack, out_of};
    ghost use Rattle.device_bay.specs.Bay.{IsNewDevice, IsNewMemory, Refuses};
    ghost use Rattle.device_bay.specs.MemBay.{attach_calls, fail_numbers, mem_calls, mem_is_log};

    type Dev = MemDisk;

    ghost past = { mem_calls };

    fn attach(&mut self, alloc: Global, name: &[u8], blocks: u64) -> Result<MemDisk, BayFault>
        ensures device { IfOk result (λ device.
            IsNewDevice blocks (mem_calls self.old) (mem_state device)) }
        ensures fresh { IfOk result (λ device. IsNewMemory (size_for blocks) (mem_state device)) }
        ensures gave { OnOk result (mem_calls self.new ≡ Gave name.now blocks ∷ mem_calls self.old) }
        ensures refused { (count : ℕ) → IsErrOf result (BayFault.Failed count)
            → Refuses name.now blocks count (mem_calls self.old) (mem_calls self.new) }
        ensures memory { (error : _) → IsErrOf result (BayFault.Memory error)
            → mem_calls self.new ≡ mem_calls self.old }
        ensures wants_none { (error : _) → IsErrOf result (BayFault.Memory error) → ⊥ }
        ensures exactly { ((count : ℕ) × IsErrOf result (BayFault.Failed count))
            ↔ Contains (fail_numbers self.old) (one_more (attach_calls self.old)) }
        ensures calls { attach_calls self.new ≡ one_more (attach_calls self.old) }
        ensures fails { fail_numbers self.new ≡ fail_numbers self.old }
    {
        self.attaches = self.attaches.saturating_add(1);
        if self.fail_at.contains(&self.attaches) {
            let count = self.register.refused(name, blocks);
            return Err(BayFault::Failed { count });
        }
        let device = MemDisk::new(alloc, self.register.number(), size_for(blocks));
        self.register.gave(name, blocks);
        Ok(device)
    }

    fn give_back(&mut self, device: MemDisk)
        requires out { 0 < out_of (mem_calls self.old) }
        ensures took { mem_calls self.new ≡ TookBack (mem_state device) ∷ mem_calls self.old }
        ensures calls { attach_calls self.new ≡ attach_calls self.old }
        ensures fails { fail_numbers self.new ≡ fail_numbers self.old }
    {
        self.register.took(&device);
    }

    fn faults(&self) -> u64 {
        self.register.faults()
    }

    ghost is_log = { mem_is_log };
}
