// Places of one lap, which lie block behind block on the device.
ghost use Rattle.std.specs.Prelude.{◌≡◌, IsTrue};
ghost use Rattle.stripe_header.specs.Spelling.{may_say};
ghost use Rattle.device_opening.specs.Tape.{AreStretches, IsStretch, end_of_stretch};

use reopening::bound_of;
use stripe_header::{Area, CopyState};
use tape_base::slot;

/// The places of a lap at which an opening looks, and the block where the first of them lies.
#[derive(Clone, Copy, Debug)]
pub(crate) struct Stretch {
    pub area: Area,
    pub told: CopyState,
    pub first: u64,
    pub low: u64,
    pub high: u64,
}

/// The places of the cursor's lap, and those of the lap before. These lie behind the others on the device.
#[derive(Clone, Copy, Debug)]
pub(crate) struct Stretches {
    pub here: Stretch,
    pub before: Stretch,
}

impl Stretch {
    /// The block behind those of its places.
    pub fn end(&self) -> u64
        requires stretch { IsStretch self.now }
        ensures { result ≡ end_of_stretch self.now }
    {
        self.first + (self.high - self.low)
    }
}

/// The places at which an opening looks.
pub(crate) fn stretches_of(area: &Area, told: &CopyState) -> Stretches
    requires says { IsTrue (may_say area.now.geometry told.now) }
    ensures { AreStretches area.now told.now result }
{
    let g = &area.geometry;
    let low = bound_of(g, told);
    let start = told.cursor - slot(g, told.cursor);
    Stretches {
        here: Stretch {
            area: *area,
            told: *told,
            first: area.content(),
            low: start,
            high: told.cursor,
        },
        before: Stretch {
            area: *area,
            told: *told,
            first: area.blocks() - (start - low),
            low,
            high: start,
        },
    }
}
