// What makes a device's calls fail.
ghost use Rattle.std.specs.Prelude.{◌≡◌, ◌+◌, ◌≤◌, ◌<◌, ◌-◌, ◌||◌, ◌∷◌, ◌++◌, [], min, None, Some, OnOk, OnErr, vec_len, vec_capacity};
ghost use Rattle.logged_disk.specs.Counting.{is_among, counted_down, is_past, one_less, least};

use std::alloc::{AllocError, Global};

/// Which calls fail: those that are numbered, from the next on, and all behind a stop.
#[derive(Drop)]
pub struct Switch {
    armed: Vec<u64>,
    /// How many calls pass before all fail.
    stop: Option<u64>,
}

impl Switch {
    pub fn new(alloc: Global) -> Switch
        ensures armed { result.armed.items ≡ [] }
        ensures stop { result.stop ≡ None }
    {
        Switch {
            armed: Vec::new(alloc),
            stop: None,
        }
    }

    /// Makes room for so many calls of `fail`.
    pub fn reserve(&mut self, calls: usize) -> Result<(), AllocError>
        ensures armed { self.new.armed.items ≡ self.old.armed.items }
        ensures stop { self.new.stop ≡ self.old.stop }
        ensures len { vec_len self.new.armed ≡ vec_len self.old.armed }
        ensures capacity { vec_capacity self.old.armed ≤ vec_capacity self.new.armed }
        ensures room { OnOk result (vec_len self.new.armed + calls ≤ vec_capacity self.new.armed) }
    {
        self.armed.reserve(calls)
    }

    /// The nth call from now on fails.
    pub fn fail(&mut self, nth: u64)
        requires { vec_len self.old.armed < vec_capacity self.old.armed }
        ensures armed { self.new.armed.items ≡ self.old.armed.items ++ nth ∷ [] }
        ensures stop { self.new.stop ≡ self.old.stop }
        ensures len { vec_len self.new.armed ≡ vec_len self.old.armed + 1 }
        ensures capacity { vec_capacity self.old.armed ≤ vec_capacity self.new.armed }
    {
        let put: Result<_, _> = self.armed.push(nth);
        put.unwrap();
    }

    /// So many calls pass before all fail, unless fewer do already.
    pub fn stop_after(&mut self, calls: u64)
        ensures armed { self.new.armed ≡ self.old.armed }
        ensures stop { self.new.stop ≡ Some (least calls self.old.stop) }
    {
        self.stop = match self.stop {
            Some(passing) => Some(calls.min(passing)),
            None => Some(calls),
        };
    }

    /// Stops no longer.
    pub fn lift(&mut self)
        ensures armed { self.new.armed ≡ self.old.armed }
        ensures stop { self.new.stop ≡ None }
    {
        self.stop = None;
    }

    /// Says whether this call fails, and counts it.
    pub fn is_next(&mut self) -> bool
        ensures fails { result ≡ (is_among self.old.armed.items 1 || is_past self.old.stop 0) }
        ensures armed { self.new.armed.items ≡ counted_down self.old.armed.items }
        ensures stop { self.new.stop ≡ one_less self.old.stop }
        ensures len { vec_len self.new.armed ≤ vec_len self.old.armed }
        ensures capacity { vec_capacity self.new.armed ≡ vec_capacity self.old.armed }
    {
        let due = count_down(&mut self.armed);
        let stopped = match self.stop {
            Some(0) => true,
            Some(passing) => {
                self.stop = Some(passing - 1);
                false
            }
            None => false,
        };
        due || stopped
    }
}

/// Counts one call, and says whether it is one of those that fail.
fn count_down(armed: &mut Vec<u64>) -> bool
    ensures due { result ≡ is_among armed.old.items 1 }
    ensures armed { armed.new.items ≡ counted_down armed.old.items }
    ensures len { vec_len armed.new ≤ vec_len armed.old }
    ensures capacity { vec_capacity armed.new ≡ vec_capacity armed.old }
{
    let mut due = false;
    let mut kept = 0;
    for i in 0..armed.len() {
        let left = armed[i];
        if left == 1 {
            due = true;
        } else {
            armed[kept] = left.saturating_sub(1);
            kept += 1;
        }
    }
    armed.truncate(kept);
    due
}
