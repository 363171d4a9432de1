// Laws of what a cyclone holds and what the records say of it. These functions do nothing when they
// run.
ghost use Rattle.held_pieces.specs.Records.{PlacedIsHeld, MovedIsHeld, HeldFit, BegunIsHeld, TakenIsHeld, PassedIsHeld, AlikeIsHeld, DeviceMayChange, FreshIsHeld, OpenedIsHeld, RoomMayGrow};

/// A piece that is put and recorded as placed, behind what it displaced, is held.
pub fn placed_is_held()
    ensures { PlacedIsHeld }
{}

/// A piece that is copied into the buffer and recorded as moved is held.
pub fn moved_is_held()
    ensures { MovedIsHeld }
{}

/// Where an entry may displace others, each segment has slots for the pieces that are live.
pub fn held_fit()
    ensures { HeldFit }
{}

/// Where the next buffer begins and is recorded, what may still be read is held.
pub fn begun_is_held()
    ensures { BegunIsHeld }
{}

/// A live piece that is taken out of the directory and of the records leaves the others held.
pub fn taken_is_held()
    ensures { TakenIsHeld }
{}

/// A piece that is not live leaves the records alone.
pub fn passed_is_held()
    ensures { PassedIsHeld }
{}

/// Records that speak of no piece leave what is held.
pub fn alike_is_held()
    ensures { AlikeIsHeld }
{}

/// A device that changes leaves what is held.
pub fn device_may_change()
    ensures { DeviceMayChange }
{}

/// A fresh cyclone holds what a format begins with.
pub fn fresh_is_held()
    ensures { FreshIsHeld }
{}

/// A cyclone that goes on with what an opening found holds what that begins with.
pub fn opened_is_held()
    ensures { OpenedIsHeld }
{}

/// More room changes nothing of what is held.
pub fn room_may_grow()
    ensures { RoomMayGrow }
{}
