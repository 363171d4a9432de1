// The entries of a segment in slot order, each packed into its ten bytes.
ghost use Rattle.std.specs.Prelude.{◌≡◌, ℕ, ◌<◌, ◌++◌, ◌∷◌, [], length, slice_set, if◌then◌else◌, is_ok, IfOk, ◌*◌, ◌/◌};
ghost use Rattle.dir_entry.specs.Layout.{EntryFits};
ghost use Rattle.dir_segment.specs.Image.{entries_in_bytes};
ghost use Rattle.dir_segment.specs.Links.{at};

use dir_entry::{Entry, decode, encode};
use std::alloc::{AllocError, Global};
use std::marker::Model;

/// The entries of the slots, from slot 0 on.
#[derive(Drop)]
pub struct Slots {
    packed: Vec<[u8; 10]>,
}

impl Model for Slots {
    ghost use Rattle.std.specs.Prelude.{◌≡◌, List, map, length};
    ghost use Rattle.std.specs.List.{All};
    ghost use Rattle.dir_entry.specs.declared.entry.Entry.{Entry};
    ghost use Rattle.dir_entry.specs.Layout.{entry_of_bytes};

    ghost Value = { List Entry };

    ghost view = { λ s. map entry_of_bytes s.packed.items };

    ghost invariant = { λ s. All (λ bytes. length bytes ≡ 10) s.packed.items };
}

impl Slots {
    pub fn new(alloc: Global) -> Slots
        ensures { result ≡ [] }
    {
        Slots {
            packed: Vec::new(alloc),
        }
    }

    pub fn push(&mut self, entry: &Entry) -> Result<(), AllocError>
        requires entry { EntryFits entry.now }
        ensures { self.new ≡ (if is_ok result then self.old ++ entry.now ∷ [] else self.old) }
    {
        self.packed.push(encode(entry))?;
        Ok(())
    }

    pub fn len(&self) -> usize
        ensures { result ≡ length self.now }
    {
        self.packed.len()
    }

    pub fn get(&self, slot: u16) -> Entry
        requires within { slot < length self.now }
        ensures entry { result ≡ at self.now slot }
        ensures fits { EntryFits result }
    {
        decode(&self.packed[slot as usize])
    }

    pub fn set(&mut self, slot: u16, entry: &Entry)
        requires within { slot < length self.old }
        requires entry { EntryFits entry.now }
        ensures { self.new ≡ slice_set self.old slot entry.now }
    {
        self.packed[slot as usize] = encode(entry);
    }

    /// The slots that bytes spell, ten bytes each.
    pub fn from_bytes(alloc: Global, bytes: &[u8]) -> Result<Slots, AllocError>
        ensures { IfOk result
            (λ slots. slots ≡ entries_in_bytes (length bytes.now / 10) bytes.now) }
    {
        let mut packed = Vec::new(alloc);
        let mut rest = bytes;
        while let Some((ten, after)) = rest.split_first_chunk::<10>() {
            packed.push(*ten)?;
            rest = after;
        }
        Ok(Slots { packed })
    }

    /// The bytes of all slots, ten each.
    pub fn bytes(&self) -> &[u8]
        ensures bytes { entries_in_bytes (length self.now) result.now ≡ self.now }
        ensures len { length result.now ≡ 10 * length self.now }
    {
        self.packed.as_flattened()
    }

    /// A law for proofs: each field of each entry is below its width.
    pub fn fit(&self)
        ensures { (slot : ℕ) → EntryFits (at self.now slot) }
    {
        let _ = &self.packed;
    }
}
