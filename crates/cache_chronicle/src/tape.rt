// Where the buffer begins, and how the session began.
ghost use Rattle.std.specs.Prelude.{◌≡◌, ◌+◌, ◌-◌, ◌≤◌};
ghost use Rattle.cache_model.specs.Verdict.{no_record};
ghost use Rattle.cache_model.specs.State.{State, floor_now, nothing_yet, state_after};

use cache_model::{Cause, Rec};

/// Where the buffer begins, and what a floor is reckoned from.
#[derive(Clone, Copy)]
pub(crate) struct Tape {
    cursor: u64,
    content: u64,
    agg: u32,
    // The floor and the serial of the opening with which the session began; 0 and none behind a format.
    least: u64,
    opened: Option<u64>,
    ghost narrow: { agg ≤ content },
}

impl Tape {
    ghost use Rattle.cache_chronicle.specs.TapeTable.{HasTape};

    /// The tape before the first record.
    pub(crate) fn new() -> Tape
        ensures { HasTape result nothing_yet }
    {
        Tape {
            cursor: 32,
            content: 32,
            agg: 8,
            least: 0,
            opened: None,
        }
    }

    pub(crate) fn floor(&self) -> u64
        ensures { (s : State) → HasTape self.now s → result ≡ floor_now s }
    {
        let passed = self.cursor.saturating_sub(self.content - self.agg as u64);
        passed.max(self.least)
    }

    /// The cause of what no record speaks of.
    pub(crate) fn no_record(&self) -> Cause
        ensures { (s : State) → HasTape self.now s → result ≡ no_record s }
    {
        match self.opened {
            Some(serial) => Cause::BeforeOpening { serial },
            None => Cause::NeverPut,
        }
    }

    /// How many puts were forgotten, of which there are none.
    pub(crate) fn dropped(&self) -> u64
        ensures { (s : State) → HasTape self.now s → result ≡ s.dropped }
    {
        0
    }

    /// The tape behind one more record.
    pub(crate) fn after(self, rec: &Rec) -> Tape
        ensures { (s : State) → HasTape self s → HasTape result (state_after s rec.now) }
    {
        match *rec {
            Rec::Formatted { geometry } => Tape {
                cursor: geometry.content,
                content: geometry.content,
                agg: geometry.agg,
                least: 0,
                opened: None,
            },
            Rec::Opened {
                geometry,
                serial,
                cursor,
                floor,
                ..
            } => Tape {
                cursor,
                content: geometry.content,
                agg: geometry.agg,
                least: floor,
                opened: Some(serial),
            },
            Rec::Began { cursor, .. } => Tape {
                cursor,
                content: self.content,
                agg: self.agg,
                least: self.least,
                opened: self.opened,
            },
            _ => self,
        }
    }
}
