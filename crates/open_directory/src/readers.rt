// The open readers by their numbers, in memory that can be made beforehand.

ghost use Rattle.std.specs.Prelude.{◌≡◌, ◌+◌, ◌<◌, ◌≤◌, ◌^◌, [], length, IsOk, None, OnOk, Some, option_map};
ghost use Rattle.std.specs.BTreeMap.{insert_entry};
ghost use Rattle.std.specs.Map.{lookup, remove_entry};
ghost use Rattle.std.specs.Ordering.{nat_cmp};
ghost use Rattle.open_directory.specs.Directory.{changed, is_number};
ghost use Rattle.open_directory.specs.Readers.{Rises, SetsEntry};

use crate::kept::Reader;
use std::alloc::{AllocError, Global};
use std::collections::HashMap;
use std::marker::Model;

/// The open readers by their numbers.
#[derive(Debug, Drop)]
pub(crate) struct Readers {
    map: HashMap<u64, Reader>,
}

impl Model for Readers {
    ghost use Rattle.std.specs.HashMap.{spare};
    ghost use Rattle.open_directory.specs.Readers.{ReaderTable, by_number};

    ghost Value = { ReaderTable };

    ghost view = { λ r. record { entries = by_number r.map.entries; room = spare r.map } };
}

impl Readers {
    pub(crate) fn new(alloc: Global) -> Readers
        ensures { result.entries ≡ [] }
    {
        Readers {
            map: HashMap::new(alloc),
        }
    }

    /// Makes room for so many more readers.
    pub(crate) fn reserve(&mut self, more: usize) -> Result<(), AllocError>
        ensures entries { self.new.entries ≡ self.old.entries }
        ensures room { OnOk result (more ≤ self.new.room) }
        ensures kept { self.old.room ≤ self.new.room }
        ensures reserved { more ≤ self.old.room → IsOk result }
    {
        self.map.reserve(more)
    }

    /// How many there are.
    pub(crate) fn len(&self) -> usize
        ensures small { length self.now.entries < 2 ^ 63 }
        ensures rise { Rises 0 self.now.entries }
    {
        self.map.len()
    }

    pub(crate) fn get(&self, number: u64) -> Option<Reader>
        ensures { result ≡ lookup (is_number number) self.now.entries }
    {
        self.map.get(&number).copied()
    }

    /// Adds a reader for which there is room.
    pub(crate) fn add(&mut self, number: u64, reader: Reader)
        requires { 0 < self.old.room }
        ensures entries { self.new.entries ≡ insert_entry nat_cmp self.old.entries number reader }
        ensures finds { SetsEntry number (Some reader) self.old.entries self.new.entries }
        ensures room { self.old.room ≤ self.new.room + 1 }
    {
        let added: Result<_, _> = self.map.insert(number, reader);
        let _ = added.unwrap();
    }

    /// Writes the next index of a reader, and gives its put.
    pub(crate) fn set_next(&mut self, number: u64, next: u32) -> Option<u64>
        ensures put { result ≡ option_map (λ r. r.put) (lookup (is_number number) self.old.entries) }
        ensures moved { self.new.entries ≡ changed (λ r. record r { next = next }) number self.old.entries }
        ensures room { self.new.room ≡ self.old.room }
        ensures none { result ≡ None → self.new.entries ≡ self.old.entries }
    {
        let found = self.map.get_mut(&number)?;
        found.next = next;
        Some(found.put)
    }

    /// Takes a reader out.
    pub(crate) fn remove(&mut self, number: u64) -> Option<Reader>
        ensures value { result ≡ lookup (is_number number) self.old.entries }
        ensures entries { self.new.entries ≡ remove_entry (is_number number) self.old.entries }
        ensures finds { SetsEntry number None self.old.entries self.new.entries }
        ensures room { self.old.room ≤ self.new.room }
        ensures none { result ≡ None → self.new ≡ self.old }
    {
        let gone = self.get(number)?;
        self.map.remove(&number);
        Some(gone)
    }
}
