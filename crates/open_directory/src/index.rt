// The next indices of the open readers, by their puts, in memory that can be made beforehand.

ghost use Rattle.std.specs.Prelude.{◌≡◌, ◌+◌, ◌<◌, ◌≤◌, [], IsOk, None, OnOk, Some, IsSome, true};
ghost use Rattle.std.specs.HashMap.{spare};
ghost use Rattle.open_directory.specs.Nexts.{AllLeast, KeepsIndex, SetsIndex, least_of, next_of, nexts_of};
ghost use Rattle.open_directory.specs.Index.{KeepsTrees, index_room};
ghost use Rattle.open_directory.specs.declared.nexts.Nexts.TheVariants.{Nobody};

use crate::nexts::{Nexts, Sides, spare_sides};
use std::alloc::{AllocError, Global};
use std::collections::HashMap;

// A new reader makes so many forks at most: its number and that of another differ in one of their bits.
const FORKS: usize = 64;

#[derive(Debug, Drop)]
pub(crate) struct Index {
    trees: HashMap<u64, Nexts>,
    sides: Vec<Sides>,
}

impl Index {
    pub(crate) fn new(alloc: Global) -> Index
        ensures { result.trees.entries ≡ [] }
    {
        Index {
            trees: HashMap::new(alloc),
            sides: Vec::new(alloc),
        }
    }

    /// Makes room for so many more readers.
    pub(crate) fn reserve(&mut self, alloc: Global, more: u32) -> Result<(), AllocError>
        ensures same { KeepsTrees self.old.trees.entries self.new.trees.entries }
        ensures room { OnOk result (more ≤ index_room self.new) }
        ensures kept { index_room self.old ≤ index_room self.new }
        ensures reserved { more ≤ index_room self.old → IsOk result }
    {
        self.trees.reserve(more as usize)?;
        spare_sides(&mut self.sides, alloc, more as usize * FORKS)
    }

    /// The least next index of the readers of a put.
    pub(crate) fn least(&self, put: u64) -> Option<u32>
        ensures { result ≡ least_of (nexts_of put self.now.trees.entries) }
    {
        self.trees.get(&put)?.least()
    }

    /// Adds a reader of a put, for which there is room.
    pub(crate) fn add(&mut self, put: u64, reader: u64, next: u32)
        requires least { AllLeast self.old.trees.entries }
        requires room { 0 < index_room self.old }
        ensures least { AllLeast self.new.trees.entries }
        ensures next { SetsIndex put reader (Some next) self.old.trees.entries self.new.trees.entries }
        ensures room { index_room self.old ≤ index_room self.new + 1 }
    {
        match self.trees.get_mut(&put) {
            Some(nexts) => nexts.add(&mut self.sides, reader, next),
            None => {
                let added: Result<_, _> = self.trees.insert(put, Nexts::One { reader, next });
                let _ = added.unwrap();
            }
        }
    }

    /// Writes the next index of a reader that is there.
    pub(crate) fn set(&mut self, put: u64, reader: u64, next: u32)
        requires least { AllLeast self.old.trees.entries }
        requires there { IsSome (next_of put reader self.old.trees.entries) }
        ensures least { AllLeast self.new.trees.entries }
        ensures next { SetsIndex put reader (Some next) self.old.trees.entries self.new.trees.entries }
        ensures room { index_room self.new ≡ index_room self.old }
    {
        if let Some(nexts) = self.trees.get_mut(&put) {
            nexts.set(reader, next);
        }
    }

    /// Takes a reader out, and a put without readers.
    pub(crate) fn remove(&mut self, put: u64, reader: u64)
        requires { AllLeast self.old.trees.entries }
        ensures least { AllLeast self.new.trees.entries }
        ensures next { SetsIndex put reader None self.old.trees.entries self.new.trees.entries }
        ensures room { index_room self.old ≤ index_room self.new }
    {
        remove_next(&mut self.trees, put, reader);
        forget_nobody(&mut self.trees, put);
    }
}

type Trees = HashMap<u64, Nexts>;

fn remove_next(trees: &mut Trees, put: u64, reader: u64)
    requires { AllLeast trees.old.entries }
    ensures least { AllLeast trees.new.entries }
    ensures next { SetsIndex put reader None trees.old.entries trees.new.entries }
    ensures room { spare trees.new ≡ spare trees.old }
{
    if let Some(nexts) = trees.get_mut(&put) {
        nexts.remove(reader);
    }
}

fn forget_nobody(trees: &mut Trees, put: u64)
    requires { AllLeast trees.old.entries }
    ensures least { AllLeast trees.new.entries }
    ensures kept { KeepsIndex trees.old.entries trees.new.entries }
    ensures room { spare trees.old ≤ spare trees.new }
{
    if is_nobody(trees, put) {
        trees.remove(&put);
    }
}

fn is_nobody(trees: &Trees, put: u64) -> bool
    ensures { result ≡ true → nexts_of put trees.now.entries ≡ Nobody }
{
    match trees.get(&put) {
        Some(nexts) => nexts.is_nobody(),
        None => false,
    }
}
