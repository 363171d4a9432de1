// The actors of a run: their names, their numbers and what they have.

ghost use Rattle.std.specs.Prelude.{◌≡◌, ◌==◌, ℕ, ◌+◌, ◌-◌, ◌<◌, ◌≤◌, ◌^◌, [], ◌∷◌, ◌++◌, length, None, Some, IfOk, OnOk, OnErr, if◌then◌else◌, option_copied};
ghost use Rattle.std.specs.List.{IsDistinct};
ghost use Rattle.actor_table.specs.Index.{known_from};
ghost use Rattle.actor_table.specs.Table.{number_of_name, same_name, slot_of_actor, with_actor};

use crate::slots;
use std::alloc::{AllocError, Global};
use std::collections::HashMap;
use std::marker::Model;

/// The actors of a run, and what each of them has.
#[derive(Drop)]
pub struct Actors<T: Drop> {
    alloc: Global,
    numbers: HashMap<Vec<u8>, u32>,
    names: Vec<Vec<u8>>,
    slots: Vec<Option<T>>,
}

impl<T: Drop> Model for Actors<T> {
    ghost use Rattle.std.specs.List.{IsDistinct};
    ghost use Rattle.std.specs.Prelude.{◌≡◌, length};
    ghost use Rattle.actor_table.specs.Index.{IsIndex, texts_of_names};
    ghost use Rattle.actor_table.specs.Table.{TableSeen, same_name};

    ghost Value = { TableSeen T };

    ghost view = { λ a. record { names = texts_of_names a.names.items; slots = a.slots.items } };

    ghost invariant = { λ a. IsIndex (texts_of_names a.names.items) a.numbers.entries × (length a.slots.items ≡ length a.names.items) × IsDistinct same_name (texts_of_names a.names.items) };
}

impl<T: Drop> Actors<T> {
    #[tactic(auto, using(crate::proofs::Numbers::distinct_none))]
    pub fn new(alloc: Global) -> Actors<T>
        ensures names { result.names ≡ [] }
        ensures slots { result.slots ≡ [] }
    {
        Actors {
            alloc,
            numbers: HashMap::new(alloc),
            names: Vec::new(alloc),
            slots: Vec::new(alloc),
        }
    }

    /// How many actors there are.
    pub fn len(&self) -> usize
        ensures count { result ≡ length self.now.names }
        ensures few { result < 2 ^ 63 }
        ensures once { IsDistinct same_name self.now.names }
        ensures slots { length self.now.slots ≡ length self.now.names }
    {
        self.names.len()
    }

    /// The number of the actor of that name, from 1; a name that is new is given the next one.
    #[tactic(auto, using(crate::proofs::Numbers::known_stays, crate::proofs::Numbers::new_enters))]
    pub fn number(&mut self, name: &[u8]) -> Result<u32, AllocError>
        requires few { length self.old.names < 2 ^ 32 - 1 }
        ensures number { IfOk result (λ n. n ≡ number_of_name self.old.names name.now) }
        ensures names { OnOk result (self.new.names ≡ with_actor self.old.names name.now) }
        ensures slots { (n : ℕ) → slot_of_actor self.new.slots n ≡ slot_of_actor self.old.slots n }
        ensures known { IfOk result (λ n. (0 < n) × (n ≤ length self.new.names)) }
        ensures err { OnErr result (self.new ≡ self.old) }
    {
        match self.find(name) {
            Some(number) => Ok(number),
            None => self.add(name),
        }
    }

    // The number of a name that is known.
    fn find(&self, name: &[u8]) -> Option<u32>
        ensures { result ≡ known_from 1 self.now.names name.now }
    {
        self.numbers.get(name).copied()
    }

    // Gives a new name the next number.
    #[tactic(auto, using(crate::proofs::Having::slot_of_more))]
    fn add(&mut self, name: &[u8]) -> Result<u32, AllocError>
        requires few { length self.old.names < 2 ^ 32 - 1 }
        requires new { known_from 1 self.old.names name.now ≡ None }
        ensures number { IfOk result (λ n. n ≡ length self.old.names + 1) }
        ensures names { OnOk result (self.new.names ≡ self.old.names ++ name.now ∷ []) }
        ensures slots { (n : ℕ) → slot_of_actor self.new.slots n ≡ slot_of_actor self.old.slots n }
        ensures err { OnErr result (self.new ≡ self.old) }
    {
        let number = self.names.len() as u32 + 1;
        let key = name.to_vec(self.alloc)?;
        let kept = name.to_vec(self.alloc)?;
        self.names.reserve(1)?;
        self.slots.reserve(1)?;
        self.numbers.insert(key, number)?;
        self.names.push_reserved(kept);
        self.slots.push_reserved(None);
        Ok(number)
    }

    /// What the actor of a number has.
    pub fn get(&self, number: u32) -> Option<&T>
        ensures { option_copied result ≡ slot_of_actor self.now.slots number }
    {
        slots::get(&self.slots, number)
    }

    /// Takes what the actor of a number has.
    pub fn take(&mut self, number: u32) -> Option<T>
        ensures result { result ≡ slot_of_actor self.old.slots number }
        ensures names { self.new.names ≡ self.old.names }
        ensures slots { (n : ℕ) → slot_of_actor self.new.slots n ≡ (if n == number then None else slot_of_actor self.old.slots n) }
    {
        slots::take(&mut self.slots, number)
    }

    /// Gives an actor something in place of what it has; it takes no memory.
    pub fn set(&mut self, number: u32, value: T)
        requires known { (0 < number) × (number ≤ length self.old.names) }
        ensures names { self.new.names ≡ self.old.names }
        ensures slots { (n : ℕ) → slot_of_actor self.new.slots n ≡ (if n == number then Some value else slot_of_actor self.old.slots n) }
    {
        slots::set(&mut self.slots, number, value);
    }

    /// Takes from all what they have.
    pub fn clear(&mut self)
        ensures names { self.new.names ≡ self.old.names }
        ensures slots { (n : ℕ) → slot_of_actor self.new.slots n ≡ None }
    {
        slots::clear(&mut self.slots);
    }
}
