// The slots that the walks over an image have reached.
ghost use Rattle.std.specs.Prelude.{◌≡◌, ◌<◌, ◌≤◌, true, false, length, slice_index_or, slice_set, IfOk};
ghost use Rattle.dir_segment.specs.Image.{unmarked, marked};

use std::alloc::{AllocError, Global};
use std::marker::Model;

/// A mark for each slot, and how many there are.
#[derive(Drop)]
pub struct Reached {
    marks: Vec<bool>,
    count: u32,
}

impl Model for Reached {
    ghost use Rattle.std.specs.Prelude.{◌≡◌, ◌≤◌, List, Bool, length};
    ghost use Rattle.dir_segment.specs.Image.{marked};

    ghost Value = { List Bool };

    ghost view = { λ r. r.marks.items };

    ghost invariant = { λ r. (r.count ≡ marked r.marks.items) × (length r.marks.items ≤ 65532) };
}

impl Reached {
    pub fn new(alloc: Global, slots: u32) -> Result<Reached, AllocError>
        requires few { slots ≤ 65532 }
        ensures { IfOk result (λ reached. reached ≡ unmarked slots) }
    {
        let mut marks = Vec::new(alloc);
        for _ in 0..slots {
            marks.push(false)?;
        }
        Ok(Reached { marks, count: 0 })
    }

    pub fn has(&self, slot: u16) -> bool
        requires within { slot < length self.now }
        ensures { result ≡ slice_index_or self.now slot false }
    {
        self.marks[slot as usize]
    }

    pub fn mark(&mut self, slot: u16)
        requires within { slot < length self.old }
        ensures { self.new ≡ slice_set self.old slot true }
    {
        if !self.marks[slot as usize] {
            self.marks[slot as usize] = true;
            self.count += 1;
        }
    }

    pub fn count(&self) -> u32
        ensures marks { result ≡ marked self.now }
        ensures few { result ≤ 65532 }
    {
        self.count
    }
}
