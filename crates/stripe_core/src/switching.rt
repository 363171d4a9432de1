// What the switch of a stripe's device is told.
ghost use Rattle.std.specs.Prelude.{◌≡◌};
ghost use Rattle.cache_answers.specs.Orders.{call_of_order};
ghost use Rattle.cyclone.specs.Cyclone.{IsCyclone, seen_cyclone};
ghost use Rattle.cyclone.specs.Switch.{HasSwitch, IsSwitched};

use crate::Stripe;
use cache_answers::SwitchOrder;
use cache_chronicle::Chronicle;
use cyclone::Cyclone;
use dir_table::Directory;
use logged_disk::{Disk, PowerDisk};
use std::alloc::AllocError;

impl<D: PowerDisk, R: Directory + Drop, C: Chronicle> Stripe<D, R, C> {
    ghost use Rattle.stripe_core.specs.Between.{IsResting};
    ghost use Rattle.stripe_core.specs.Switch.{TellsInStripe};

    /// Tells the switch of the device, and says whether the device has one.
    pub fn tell(&mut self, order: SwitchOrder) -> Result<bool, AllocError>
        requires resting { IsResting self.old }
        ensures { TellsInStripe order self.old self.new result }
    {
        self.take_unit()?;
        if !self.pieces.cyclone.disk().has_switch() {
            return Ok(false);
        }
        self.flushes -= 1;
        tell(&mut self.pieces.cyclone, order);
        Ok(true)
    }
}

// Tells the switch of a cyclone's device, which has one.
fn tell<D: PowerDisk, R: Directory + Drop>(cyclone: &mut Cyclone<D, R>, order: SwitchOrder)
    requires turns { IsCyclone cyclone.old }
    requires switch { HasSwitch (seen_cyclone cyclone.old) }
    ensures turns { IsCyclone cyclone.new }
    ensures switched { IsSwitched (call_of_order (seen_cyclone cyclone.old).geometry order)
        (seen_cyclone cyclone.old) (seen_cyclone cyclone.new) }
{
    match order {
        SwitchOrder::Fail { nth } => cyclone.fail(nth.max(1)),
        SwitchOrder::StopAfter { calls } => cyclone.stop_after(calls),
        SwitchOrder::Flip { place, byte } => cyclone.flip(place, byte.min(511)),
    }
}
