// How a cache begins, and gives its device back.
ghost use Rattle.std.specs.Prelude.{◌≡◌, ◌≤◌, IfOk, IfErr};
ghost use Rattle.cache_calls.specs.Begins.{Begins};
ghost use Rattle.stripe_copies.specs.Format.{IsRefusedFormat};
ghost use Rattle.tape_base.specs.Place.{device_blocks_of};

use crate::calls::Calls;
use logged_disk::Disk;
use std::alloc::Global;
use stripe_copies::FormatFault;
use tape_base::Geometry;

/// A cache that begins empty on a device of its own.
pub trait Formats<D: Disk>: Calls {
    /// Lays a device out, and begins a session on it with these numbers. Where memory is wanting, or
    /// the device refuses a call, it comes back.
    fn format(alloc: Global, device: D, geometry: Geometry) -> Result<Self, (FormatFault, D)>
        requires sized { device_blocks_of geometry ≤ (D.state device).size }
        ensures begins { IfOk result (Begins Self.at Self.holds Self.stands geometry
            (D.state device)) }
        ensures back { IfErr result (λ refused. IsRefusedFormat geometry (D.state device)
            (D.state refused.1) refused.0) };

    /// The device, as it stands.
    fn device(&self) -> &D
        ensures { D.state result.now ≡ (Self.at self.now).device };

    /// Ends the session. What was not written out is gone.
    fn into_device(self) -> D
        ensures { D.state result ≡ (Self.at self).device };
}
