// What the switch of a cache's device is told.
ghost use Rattle.cache_answers.specs.Orders.{TellsSwitch, call_of_order};
ghost use Rattle.cache_model.specs.Contents.{AnyContents};
ghost use Rattle.cache_calls.specs.Keeping.{RestsOn, state_at};
ghost use Rattle.cache_calls.specs.Standing.{StaysStanding};

use crate::calls::Calls;
use cache_answers::SwitchOrder;
use std::alloc::AllocError;

/// A cache on a device that may have a switch.
pub trait Powered: Calls {
    /// Tells the switch of the device, and says whether the device has one. Nothing is recorded.
    fn tell(&mut self, order: SwitchOrder) -> Result<bool, AllocError>
        requires { Self.holds self.old }
        ensures tells { TellsSwitch (call_of_order (state_at (Self.at self.old)).geometry order)
            (Self.at self.old).device (Self.at self.new).device result }
        ensures keeps { RestsOn Self.at Self.holds self.old self.new }
        ensures stands { StaysStanding Self.stands AnyContents self.old self.new };
}
