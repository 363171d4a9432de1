//! A state with a history, as small as can be.
ghost use Rattle.std.specs.Prelude.{◌≡◌, []};

use std::alloc::{AllocError, Global};
use stripe_lock::{Job, KeptState};

/// One turn: whose it was, and the job's number, which is the record that it added.
#[derive(Drop)]
pub struct TallyRow {
    pub worker: u32,
    pub job: u64,
}

/// The turns that were made.
#[derive(Drop)]
pub struct Tally {
    pub rows: Vec<TallyRow>,
}

impl Tally {
    pub fn new(alloc: Global) -> Tally
        ensures { result.rows.items ≡ [] }
    {
        Tally {
            rows: Vec::new(alloc),
        }
    }
}

impl KeptState for Tally {
    ghost use Rattle.std.specs.Prelude.{◌≡◌, ◌<◌, [], length, vec_len, vec_capacity};
    ghost use Rattle.lock_trials.specs.Rows.{turns_of, HaveOneRecord};

    type Record = u64;

    ghost chronicle = { λ t. [] };

    ghost turns = { λ t. turns_of t.rows.items };

    ghost is_sound = { λ t. Unit {0} };

    ghost has_room = { λ t. vec_len t.rows < vec_capacity t.rows };

    ghost is_legal = { λ chronicle turns. HaveOneRecord turns };

    ghost floor_of = { λ chronicle turns. length turns };

    fn count(&self) -> u64 {
        self.rows.len() as u64
    }

    fn floor(&self) -> u64 {
        self.rows.len() as u64
    }

    fn make_room(&mut self) -> Result<(), AllocError> {
        self.rows.reserve(1)
    }

    fn has_legal_turns(&self) {}
}

/// Adds a row, and answers with how many stood before it.
#[derive(Drop)]
pub struct Tick {
    pub job: u64,
}

impl Job<Tally> for Tick {
    ghost use Rattle.std.specs.Prelude.{◌≡◌, length};

    type Answer = u64;

    ghost number = { λ t. t.job };

    ghost fits = { λ old new chronicle before turn answer. (new ≡ old) × (answer ≡ length before) };

    fn run(&mut self, state: &mut Tally, worker: u32) -> u64 {
        let before = state.rows.len() as u64;
        state.rows.push_reserved(TallyRow {
            worker,
            job: self.job,
        });
        before
    }
}
