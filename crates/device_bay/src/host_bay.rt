// The bay of the host: devices in memory and in files.
ghost use Rattle.std.specs.Prelude.{◌≡◌, ℕ, ◌≤◌, true, false, IsErr, IfOk};
ghost use Rattle.std.proofs.Props.{props};
ghost use Rattle.device_log.proofs.ReadLaws.{reads_are_prop};
ghost use Rattle.logged_disk.specs.Honest.{cuts_are_prop};
ghost use Rattle.logged_disk.specs.FileDisk.{file_state, IsAttached};
ghost use Rattle.device_bay.specs.Bay.{has_kind};
ghost use Rattle.device_bay.specs.Register.{IsRegister};
ghost use Rattle.device_bay.specs.HostDisk.{host_state};

use crate::device_file::{ClosedStreams, open_file};
use crate::mem_bay::size_for;
use crate::register::Register;
use crate::{Bay, BayFault, HostDisk, NoDevice};
use logged_disk::{BLOCK_BYTES, Disk, FileDisk, FileStart, MemDisk};
use std::alloc::Global;
use std::fmt::{Display, Formatter};
use std::fs::{File, Files};
use std::io::{Error, ErrorKind};
use std::{fmt, str};

/// A bay whose names are those of devices in memory, where they begin `mem:`, and else paths of
/// files, if no colon stands before any slash. `S` says what each file is taken to hold at its attach.
#[derive(Drop)]
pub struct HostBay<R, S: FileStart> {
    files: R,
    streams: ClosedStreams,
    refusal: Option<Refusal>,
    register: Register<HostDisk<S>>,
    ghost is_register: { IsRegister (host_state S.first) register } by { Prim.hlevel (props, reads_are_prop, cuts_are_prop) },
}

/// Why an attach was refused, with its name where memory was found for it.
#[derive(Debug, Drop)]
pub struct Refusal {
    pub name: Option<String>,
    pub why: NoDevice,
}

impl Refusal {
    fn new(alloc: Global, name: &[u8], why: NoDevice) -> Refusal {
        let text = str::from_utf8(name).unwrap_or("");
        Refusal {
            name: String::from_str(alloc, text).ok(),
            why,
        }
    }
}

impl Display for Refusal {
    fn fmt<W: fmt::Write>(&self, f: &mut Formatter<W>) -> fmt::Result {
        match &self.name {
            Some(name) => write!(f, "{name}: {}", self.why),
            None => write!(f, "{}", self.why),
        }
    }
}

/// Whether a colon stands in the name before any slash. Of such names those that begin `mem:` are of
/// devices in memory, those that begin `word:` are kept for words that threads share, of which there
/// are none yet, and no other has a device.
fn has_kind(name: &[u8]) -> bool
    ensures { result ≡ has_kind name.now }
{
    for byte in name {
        if *byte == b':' {
            return true;
        }
        if *byte == b'/' {
            return false;
        }
    }
    false
}

/// The device in the file of that name, of at least so many blocks.
fn open_device<R: Files<File = File>, S: FileStart>(
    files: &R,
    name: &[u8],
    number: u64,
    blocks: u64,
) -> Result<FileDisk<S>, NoDevice>
    ensures kept { has_kind name.now ≡ true → IsErr result }
    ensures size { IfOk result (λ disk. blocks ≤ (file_state S.first disk).size) }
    ensures attached { IfOk result (λ disk. IsAttached number true (file_state S.first disk)) }
{
    if has_kind(name) {
        return Err(NoDevice::Name);
    }
    let (Ok(path), Some(bytes)) = (str::from_utf8(name), blocks.checked_mul(BLOCK_BYTES as u64))
    else {
        return Err(NoDevice::System(Error::from(ErrorKind::InvalidInput)));
    };
    let file = open_file(files, path, bytes)?;
    let disk: FileDisk<S> = FileDisk::attach(file, number, true)?;
    let size = disk.blocks();
    if size < blocks {
        let bytes = size.saturating_mul(BLOCK_BYTES as u64);
        return Err(NoDevice::Short { bytes });
    }
    Ok(disk)
}

impl<R: Files<File = File>, S: FileStart> HostBay<R, S> {
    ghost use Rattle.std.specs.Prelude.{[]};
    ghost use Rattle.device_bay.specs.Register.{calls_in};

    /// A bay that has given nothing. As long as it is there, standard streams that are closed stay
    /// so, and no device comes in their place.
    pub fn new(files: R) -> HostBay<R, S>
        ensures { ⟦<HostBay<R, S> as Bay>⟧.past result ≡ [] }
    {
        let streams = ClosedStreams::hold(&files);
        HostBay {
            files,
            streams,
            refusal: None,
            register: Register::new(),
        }
    }

    /// Why the last attach that was refused was.
    pub fn refusal(&self) -> Option<&Refusal> {
        self.refusal.as_ref()
    }
}

#[tactic(auto, using(crate::proofs::Names::word_has_kind))]
impl<R: Files<File = File>, S: FileStart> Bay for HostBay<R, S> {
    ghost use Rattle.std.specs.Prelude.{◌<◌, ◌∷◌, IsTrue, IsOk, IfOk, OnOk, IsErrOf};
    ghost use Rattle.logged_disk.specs.Device.{IsTrusted};
    ghost use Rattle.device_bay.specs.Calls.{Gave, TookBack, out_of};
    ghost use Rattle.device_bay.specs.Bay.{IsNewDevice, IsNewMemory, Refuses, is_memory_name, is_word_name, size_for};
    ghost use Rattle.device_bay.specs.Register.{calls_in};

    type Dev = HostDisk<S>;

    ghost past = { λ bay. calls_in (host_state S.first) bay.register };

    fn attach(&mut self, alloc: Global, name: &[u8], blocks: u64) -> Result<HostDisk<S>, BayFault>
        ensures device { IfOk result (λ device.
            IsNewDevice blocks (calls_in (host_state S.first) self.old.register)
            (host_state S.first device)) }
        ensures gave { OnOk result (calls_in (host_state S.first) self.new.register
            ≡ Gave name.now blocks ∷ calls_in (host_state S.first) self.old.register) }
        ensures refused { (count : ℕ) → IsErrOf result (BayFault.Failed count)
            → Refuses name.now blocks count (calls_in (host_state S.first) self.old.register)
            (calls_in (host_state S.first) self.new.register) }
        ensures memory { (error : _) → IsErrOf result (BayFault.Memory error)
            → calls_in (host_state S.first) self.new.register
            ≡ calls_in (host_state S.first) self.old.register }
        ensures wants_none { (error : _) → IsErrOf result (BayFault.Memory error) → ⊥ }
        ensures of_word { is_word_name name.now ≡ true
            → (count : ℕ) × IsErrOf result (BayFault.Failed count) }
        ensures of_kind { has_kind name.now ≡ true → is_memory_name name.now ≡ false
            → (count : ℕ) × IsErrOf result (BayFault.Failed count) }
        ensures of_path { is_memory_name name.now ≡ false → IfOk result (λ device. (host_state S.first device).has_switch ≡ false) }
        ensures of_memory { is_memory_name name.now ≡ true → IsOk result }
        ensures fresh { is_memory_name name.now ≡ true
            → IfOk result (λ device. IsNewMemory (size_for blocks) (host_state S.first device)) }
        ensures trusted { IfOk result (λ device. IsTrusted (host_state S.first device)) }
    {
        if name.starts_with(b"mem:") {
            let device = MemDisk::new(alloc, self.register.number(), size_for(blocks));
            self.register.gave(name, blocks);
            return Ok(HostDisk::Memory(device));
        }
        match open_device(&self.files, name, self.register.number(), blocks) {
            Ok(device) => {
                self.register.gave(name, blocks);
                Ok(HostDisk::File(device))
            }
            Err(why) => {
                self.refusal = Some(Refusal::new(alloc, name, why));
                let count = self.register.refused(name, blocks);
                Err(BayFault::Failed { count })
            }
        }
    }

    fn give_back(&mut self, device: HostDisk<S>) {
        self.register.took(&device);
    }

    fn faults(&self) -> u64 {
        self.register.faults()
    }

    ghost is_log = { λ bay. bay.is_register.is_log };
}
