// The entries that a purge takes out of a segment.
ghost use Rattle.std.specs.Prelude.{◌≡◌, ℕ, ◌+◌, ◌*◌, ◌<◌, ◌≤◌, [], false, length, slice_index_or, IfOk};
ghost use Rattle.dir_segment.specs.Lists.{row};
ghost use Rattle.dir_segment.specs.Purging.{offer};

use dir_entry::Entry;
use std::alloc::{AllocError, Global};
use std::marker::Model;

/// The entries that the last purge took out, in slot order, with the memory for those of a whole segment.
#[derive(Drop)]
pub struct PurgeList {
    buckets: u32,
    skip: u32,
    entries: Vec<Entry>,
    marks: Vec<bool>,
}

impl Model for PurgeList {
    ghost use Rattle.std.specs.Prelude.{◌≡◌, ◌*◌, ◌≤◌, length, vec_capacity};
    ghost use Rattle.dir_segment.specs.Purging.{Purge};

    ghost Value = { Purge };

    ghost view = { λ p. record { buckets = p.buckets; skip = p.skip; entries = p.entries.items; marks = p.marks.items } };

    ghost invariant = { λ p. (p.buckets ≤ 16383) × (length p.marks.items ≡ 4 * p.buckets) × (3 * p.buckets ≤ 10 * vec_capacity p.entries) };
}

impl PurgeList {
    /// An empty list for the purges of a segment of so many buckets.
    pub fn new(alloc: Global, buckets: u32) -> Result<PurgeList, AllocError>
        requires buckets { buckets ≤ 16383 }
        ensures empty { IfOk result (λ list. list.entries ≡ []) }
        ensures buckets { IfOk result (λ list. list.buckets ≡ buckets) }
    {
        let most = (3 * buckets + 9) / 10;
        let entries = Vec::with_capacity(alloc, most as usize)?;
        let mut marks = Vec::new(alloc);
        for _ in 0..4 * buckets {
            marks.push(false)?;
        }
        Ok(PurgeList {
            buckets,
            skip: 0,
            entries,
            marks,
        })
    }

    /// How many entries the last purge took out.
    pub fn len(&self) -> usize
        ensures { result ≡ length self.now.entries }
    {
        self.entries.len()
    }

    /// One of the entries that the last purge took out, without its link to the next.
    pub fn get(&self, i: usize) -> Entry
        requires within { i < length self.now.entries }
        ensures { result ≡ slice_index_or self.now.entries i result }
    {
        self.entries[i]
    }

    /// Forgets the last purge.
    pub fn clear(&mut self)
        ensures empty { self.new.entries ≡ [] }
        ensures skip { self.new.skip ≡ 0 }
        ensures buckets { self.new.buckets ≡ self.old.buckets }
        ensures size { length self.new.marks ≡ 4 * self.new.buckets }
        ensures marks { (s : ℕ) → slice_index_or self.new.marks s false ≡ false }
    {
        self.skip = 0;
        self.entries.clear();
        for mark in self.marks.iter_mut() {
            *mark = false;
        }
    }

    /// Takes the entry of a slot where it is the next tenth.
    pub fn offer(&mut self, slot: u16, entry: &Entry)
        requires slot { slot < 4 * self.old.buckets }
        requires room { 10 * length self.old.entries < 3 * self.old.buckets + self.old.skip }
        ensures offered { self.new ≡ offer self.old (row slot entry.now) }
        ensures room { 10 * length self.new.entries + self.old.skip ≤ 10 * length self.old.entries + self.new.skip + 1 }
        ensures skip { self.old.skip ≤ 9 → self.new.skip ≤ 9 }
        ensures buckets { self.new.buckets ≡ self.old.buckets }
    {
        if self.skip > 0 {
            self.skip -= 1;
            return;
        }
        self.skip = 9;
        self.entries.push_reserved(Entry { next: 0, ..*entry });
        self.marks[slot as usize] = true;
    }

    /// Whether the entry of a slot was taken.
    pub fn has(&self, slot: u16) -> bool
        ensures { result ≡ slice_index_or self.now.marks slot false }
    {
        (slot as usize) < self.marks.len() && self.marks[slot as usize]
    }
}
