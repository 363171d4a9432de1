// What is known of a buffer on its device, and the calls that change it.
ghost use Rattle.std.specs.Prelude.{◌≡◌, ◌+◌, ◌-◌, ◌≤◌, IfSome, OnOk};
ghost use Rattle.stripe_header.specs.Layout.{body_blocks};
ghost use Rattle.agg_buffer.specs.Buffer.{filled_of};
ghost use Rattle.logged_disk.specs.Device.{TellsAll};
ghost use Rattle.cache_model.specs.State.{State};
ghost use Rattle.held_pieces.specs.Held.{IsHeld};
ghost use Rattle.cyclone.specs.Cyclone.{HasBuffer, IsCyclone, SameTape, seen_cyclone};
ghost use Rattle.cyclone.specs.Syncing.{MaySync, SyncsCopy, WritesRest};
ghost use Rattle.buffer_sync.specs.OnDevice.{IsOnDevice, WentOut, on_behind_sync, on_behind_write};

use cyclone::Cyclone;
use dir_table::Directory;
use edge_io::Failed;
use logged_disk::Disk;
use stripe_copies::{Copies, PacksEntries, SyncStop};
use stripe_header::CopyState;

/// How much of a buffer a device has, in blocks from its front.
#[derive(Clone, Copy, Debug, PartialEq, Eq)]
pub struct BufferOnDevice {
    /// They were written, and stand there as they do in the buffer.
    pub written: u32,
    /// A device sync went behind them.
    pub durable: u32,
}

/// Writes the blocks of the buffer that are not durable, by one call or none. Where the device
/// refuses, only what is durable counts as written.
pub fn write_buffer<D: Disk, R: Directory + Drop>(
    cyclone: &mut Cyclone<D, R>,
    on: &mut BufferOnDevice,
) -> Result<(), Failed>
    requires turns { IsCyclone cyclone.old }
    requires on { IsOnDevice on.old (seen_cyclone cyclone.old) }
    requires calls { 1 ≤ (seen_cyclone cyclone.old).device.calls }
    requires blocks { filled_of (seen_cyclone cyclone.old).buffer - on.old.durable
        ≤ (seen_cyclone cyclone.old).device.blocks }
    ensures turns { IsCyclone cyclone.new }
    ensures same { SameTape (seen_cyclone cyclone.old) (seen_cyclone cyclone.new) }
    ensures device { WritesRest on.old.durable (seen_cyclone cyclone.old) (seen_cyclone cyclone.new)
        result }
    ensures on { IsOnDevice on.new (seen_cyclone cyclone.new) }
    ensures numbers { on.new
        ≡ on_behind_write result (filled_of (seen_cyclone cyclone.old).buffer) on.old }
    ensures held { (s : State) → IsHeld s (seen_cyclone cyclone.old)
        → IsHeld s (seen_cyclone cyclone.new) }
    ensures whole { OnOk result
        (TellsAll (seen_cyclone cyclone.new).device → HasBuffer (seen_cyclone cyclone.new)) }
{
    match cyclone.write_rest(on.durable) {
        Ok(()) => {
            on.written = (cyclone.next_place() - cyclone.cursor()) as u32;
            Ok(())
        }
        Err(e) => {
            on.written = on.durable;
            Err(e)
        }
    }
}

/// A whole sync: a copy of the directory that says this is written, and is the newest then. All that
/// was written of the buffer is durable, also where the sync was broken off behind that.
pub(crate) fn sync_buffer<D: Disk, R: PacksEntries + Drop>(
    cyclone: &mut Cyclone<D, R>,
    on: &mut BufferOnDevice,
    copies: &mut Copies,
    state: CopyState,
) -> Result<u64, SyncStop>
    requires turns { IsCyclone cyclone.old }
    requires on { IsOnDevice on.old (seen_cyclone cyclone.old) }
    requires may { MaySync (seen_cyclone cyclone.old) copies.old state }
    ensures turns { IsCyclone cyclone.new }
    ensures same { SameTape (seen_cyclone cyclone.old) (seen_cyclone cyclone.new) }
    ensures syncs { SyncsCopy copies.old copies.new state (seen_cyclone cyclone.old)
        (seen_cyclone cyclone.new) result }
    ensures on { IsOnDevice on.new (seen_cyclone cyclone.new) }
    ensures numbers { on.new ≡ on_behind_sync result on.old }
    ensures held { (s : State) → IsHeld s (seen_cyclone cyclone.old)
        → IsHeld s (seen_cyclone cyclone.new) }
{
    match cyclone.sync_copy(copies, state) {
        Ok(serial) => {
            on.durable = on.written;
            Ok(serial)
        }
        Err(stop) => {
            if stop.durable {
                on.durable = on.written;
            }
            Err(stop)
        }
    }
}

/// Where a device stopped a flush: its count of faults, and whether a sync was begun.
#[derive(Clone, Copy, Debug, PartialEq, Eq)]
pub struct Halt {
    pub count: u64,
    pub begun: bool,
}

/// All that a flush asks of the device behind its reads: the buffer is written, and then a copy of
/// the directory, where a sync is due that says this.
pub fn write_and_sync<D: Disk, R: PacksEntries + Drop>(
    cyclone: &mut Cyclone<D, R>,
    on: &mut BufferOnDevice,
    copies: &mut Copies,
    due: Option<CopyState>,
) -> Result<(), Halt>
    requires turns { IsCyclone cyclone.old }
    requires on { IsOnDevice on.old (seen_cyclone cyclone.old) }
    requires may { IfSome due (MaySync (seen_cyclone cyclone.old) copies.old) }
    requires calls { 9 ≤ (seen_cyclone cyclone.old).device.calls }
    requires blocks { let c = seen_cyclone cyclone.old in
        filled_of c.buffer - on.old.durable + (body_blocks copies.old.area + 3) ≤ c.device.blocks }
    ensures turns { IsCyclone cyclone.new }
    ensures same { SameTape (seen_cyclone cyclone.old) (seen_cyclone cyclone.new) }
    ensures on { IsOnDevice on.new (seen_cyclone cyclone.new) }
    ensures goes { WentOut due on.old on.new copies.old copies.new (seen_cyclone cyclone.old)
        (seen_cyclone cyclone.new) result }
    ensures held { (s : State) → IsHeld s (seen_cyclone cyclone.old)
        → IsHeld s (seen_cyclone cyclone.new) }
    ensures whole { OnOk result
        (TellsAll (seen_cyclone cyclone.new).device → HasBuffer (seen_cyclone cyclone.new)) }
{
    match write_buffer(cyclone, on) {
        Err(_) => Err(Halt {
            count: cyclone.disk().faults(),
            begun: false,
        }),
        Ok(()) => match due {
            None => Ok(()),
            Some(state) => match sync_buffer(cyclone, on, copies, state) {
                Ok(_) => Ok(()),
                Err(SyncStop { count, .. }) => Err(Halt { count, begun: true }),
            },
        },
    }
}
