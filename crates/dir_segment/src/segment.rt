// A segment: who stands in which chain, and which slots are free.
ghost use Rattle.std.specs.Prelude.{◌≡◌, ◌≢◌, ◌+◌, ◌*◌, ◌%◌, ◌<◌, ◌≤◌, ◌↔◌, [], true, false, Bool, length, map, MatchOption, OnSome, IfSome, IfNone, IfOk, IfErr, OnOk, option_map};
ghost use Rattle.std.specs.List.{list_any};
ghost use Rattle.dir_entry.specs.Layout.{EntryFits};
ghost use Rattle.std.specs.Fn.{FnReturnsAt};
ghost use Rattle.dir_entry.specs.declared.entry.Entry.{Entry as EntryValue};
ghost use Rattle.dir_segment.specs.Cleaning.{Computes, BeginsAt, FirstPasses, clean_bucket, clean_buckets};
ghost use Rattle.dir_segment.specs.Entries.{AreCounted, EntriesAreStored, PurgeTakes};
ghost use Rattle.dir_segment.specs.Image.{image_lists, image_walk, IsFault, WalkIsSound};
ghost use Rattle.dir_segment.specs.Links.{fresh_link};
ghost use Rattle.dir_segment.specs.Lists.{new_lists, inserted, IsFull, entry_count, row, has_slot, chain_of, all_or_behind, behind_slot, take_root, take_next, slots_behind_roots, is_that, passes, deleted, IsRoot, IsBeforeFirst, GivesNext, first_of_tag, rest_of_tag, steps_to, ticked};
ghost use Rattle.dir_segment.specs.Purging.{purged, tenth_of, after_purge, behind_roots, find_slot, offer_found, offer_slots, thin_bucket, is_unmarked};
ghost use Rattle.dir_segment.specs.declared.segment.Inserted.TheVariants as answers;

use crate::fault::SegmentFault;
use crate::image::{empty_roots, walk_all};
use crate::purge::PurgeList;
use crate::reached::Reached;
use crate::slots::Slots;
use dir_entry::Entry;
use std::alloc::{AllocError, Global};
use std::marker::Model;
use tape_base::Steps;

const EMPTY: Entry = Entry {
    offset: 0,
    big: 0,
    size: 0,
    tag: 0,
    phase: false,
    head: false,
    pinned: false,
    token: false,
    next: 0,
};

/// Whether an entry found a place.
#[derive(Clone, Copy, Debug, PartialEq, Eq)]
pub enum Inserted {
    Inserted,
    Full,
}

/// The entries of some buckets, four slots for each bucket.
#[derive(Drop)]
pub struct Segment {
    buckets: u32,
    slots: Slots,
    free: u16,
    free_count: u32,
    used: u32,
}

impl Model for Segment {
    ghost use Rattle.dir_segment.specs.Lists.{Lists};
    ghost use Rattle.dir_segment.specs.Links.{IsSegment, lists_of};

    ghost Value = { Lists };

    ghost view = { λ s. lists_of s.slots s.free s.buckets };

    ghost invariant = { λ s. IsSegment s.slots s.free s.free_count s.used s.buckets (lists_of s.slots s.free s.buckets) };
}

fn is_kept<T: Fn(&Entry) -> bool>(keep: &T, entry: &Entry) -> bool
    requires keep { T.IsAlwaysCallable keep.now }
    ensures { FnReturnsAt T.Fn keep.now entry.now result }
{
    keep(entry)
}

fn is_that(e: &Entry, tag: u16, offset: u64, phase: bool) -> bool
    ensures { result ≡ is_that tag offset phase e.now }
{
    e.tag == tag && e.offset == offset && e.phase == phase
}

// What a slot of a new segment links to, below an end.
fn fresh_link(end: u16, slot: u16) -> u16
    requires end { (slot < end) × (end ≤ 65532) }
    ensures { result ≡ fresh_link end slot }
{
    match slot % 4 {
        0 => 0,
        3 => { if slot + 2 < end { slot + 2 } else { 0 } }
        _ => slot + 1,
    }
}

impl Segment {
    /// A segment with no entry.
    pub fn new(alloc: Global, buckets: u32) -> Result<Segment, AllocError>
        requires buckets { (0 < buckets) × (buckets ≤ 16383) }
        ensures { IfOk result (λ segment. segment ≡ new_lists buckets) }
    {
        let end = 4 * buckets as u16;
        let mut slots = Slots::new(alloc);
        for slot in 0..end {
            slots.push(&Entry {
                next: fresh_link(end, slot),
                ..EMPTY
            })?;
        }
        Ok(Segment {
            buckets,
            slots,
            free: 1,
            free_count: 3 * buckets,
            used: 0,
        })
    }

    fn root_of(&self, bucket: u32) -> u16
        requires bucket { bucket < length self.now.chains }
        ensures { result ≡ 4 * bucket }
    {
        let _buckets = self.buckets;
        4 * bucket as u16
    }

    /// Puts an entry into the empty root of its bucket, else into the first free slot.
    pub fn insert(&mut self, bucket: u32, entry: Entry) -> Inserted
        requires bucket { bucket < length self.old.chains }
        requires entry { EntryFits entry }
        requires some { 0 < entry.offset }
        ensures lists { self.new ≡ inserted self.old bucket entry }
        ensures full { (result ≡ answers.Full) ↔ IsFull self.old bucket }
    {
        let at = self.root_of(bucket);
        let root = self.slots.get(at);
        if root.offset == 0 {
            self.slots.set(at, &Entry { next: 0, ..entry });
            self.used += 1;
            return Inserted::Inserted;
        }
        if self.free == 0 {
            return Inserted::Full;
        }
        let slot = self.free;
        self.free = self.slots.get(slot).next;
        self.free_count -= 1;
        self.slots.set(
            slot,
            &Entry {
                next: root.next,
                ..entry
            },
        );
        self.slots.set(at, &Entry { next: slot, ..root });
        self.used += 1;
        Inserted::Inserted
    }

    /// Takes the first entry of a tag, an offset and a phase out of a bucket's chain, if there is one.
    pub fn delete(&mut self, bucket: u32, tag: u16, offset: u64, phase: bool) -> bool
        requires bucket { bucket < length self.old.chains }
        ensures lists { self.new ≡ deleted self.old bucket (is_that tag offset phase) }
        ensures found { result ≡ list_any (passes (is_that tag offset phase)) (chain_of self.old bucket) }
    {
        let Some((root, first)) = self.chain(bucket, None) else {
            return false;
        };
        if is_that(&first, tag, offset, phase) {
            self.take_root(bucket);
            return true;
        }
        match self.before_first(bucket, root, tag, offset, phase) {
            None => false,
            Some(before) => {
                self.take_next(bucket, before);
                true
            }
        }
    }

    // The slot right before the first entry of a tag, an offset and a phase behind the root.
    fn before_first(
        &self,
        bucket: u32,
        root: u16,
        tag: u16,
        offset: u64,
        phase: bool,
    ) -> Option<u16>
        requires bucket { bucket < length self.now.chains }
        requires root { IsRoot root (is_that tag offset phase) (chain_of self.now bucket) }
        ensures none { IfNone result (list_any (passes (is_that tag offset phase)) (chain_of self.now bucket) ≡ false) }
        ensures some { IfSome result (λ slot. IsBeforeFirst (is_that tag offset phase) slot (chain_of self.now bucket)) }
    {
        let mut before = root;
        while let Some((slot, entry)) = self.chain(bucket, Some(before)) {
            if is_that(&entry, tag, offset, phase) {
                return Some(before);
            }
            before = slot;
        }
        None
    }

    /// Takes out each entry that is not to be kept, along the chain of one bucket after another, and says how many.
    pub fn clean<T: Fn(&Entry) -> bool + Drop>(&mut self, keep: T) -> u32
        requires keep { T.IsAlwaysCallable keep }
        ensures lists { (test : EntryValue → Bool) → Computes (FnReturnsAt T.Fn keep) test → self.new ≡ clean_buckets test 0 (length self.old.chains) self.old }
        ensures width { length self.new.chains ≡ length self.old.chains }
        ensures count { result + entry_count self.new.chains ≡ entry_count self.old.chains }
    {
        let before = self.used();
        for bucket in 0..self.bucket_count() {
            self.clean_bucket(bucket, &keep);
        }
        before - self.used()
    }

    fn bucket_count(&self) -> u32
        ensures count { result ≡ length self.now.chains }
        ensures full { self.now.free ≡ [] → has_slot 1 (behind_roots self.now.chains) ≡ true }
        ensures tenth { self.now.free ≡ [] → length (purged self.now) ≡ tenth_of (length self.now.chains) }
    {
        self.buckets
    }

    // Takes out each entry of a bucket that is not to be kept.
    fn clean_bucket<T: Fn(&Entry) -> bool>(&mut self, bucket: u32, keep: &T)
        requires bucket { bucket < length self.old.chains }
        requires keep { T.IsAlwaysCallable keep.now }
        ensures width { length self.new.chains ≡ length self.old.chains }
        ensures fewer { entry_count self.new.chains ≤ entry_count self.old.chains }
        ensures lists { (test : EntryValue → Bool) → Computes (FnReturnsAt T.Fn keep.now) test → self.new ≡ clean_bucket test self.old bucket }
    {
        let Some(root) = self.clean_root(bucket, keep) else {
            return;
        };
        self.clean_behind(bucket, root, keep);
    }

    // Takes roots out until one is to be kept, and gives its slot.
    fn clean_root<T: Fn(&Entry) -> bool>(&mut self, bucket: u32, keep: &T) -> Option<u16>
        requires bucket { bucket < length self.old.chains }
        requires keep { T.IsAlwaysCallable keep.now }
        ensures width { length self.new.chains ≡ length self.old.chains }
        ensures fewer { entry_count self.new.chains ≤ entry_count self.old.chains }
        ensures root { MatchOption result (chain_of self.new bucket ≡ []) (λ slot. BeginsAt slot (chain_of self.new bucket)) }
        ensures kept { (test : EntryValue → Bool) → Computes (FnReturnsAt T.Fn keep.now) test → OnSome result (FirstPasses test (chain_of self.new bucket)) }
        ensures lists { (test : EntryValue → Bool) → Computes (FnReturnsAt T.Fn keep.now) test → clean_bucket test self.new bucket ≡ clean_bucket test self.old bucket }
    {
        while let Some((slot, entry)) = self.chain(bucket, None) {
            if is_kept(keep, &Entry { next: 0, ..entry }) {
                return Some(slot);
            }
            self.take_root(bucket);
        }
        None
    }

    // Takes out each entry behind the root that is not to be kept.
    fn clean_behind<T: Fn(&Entry) -> bool>(&mut self, bucket: u32, root: u16, keep: &T)
        requires bucket { bucket < length self.old.chains }
        requires keep { T.IsAlwaysCallable keep.now }
        requires root { BeginsAt root (chain_of self.old bucket) }
        ensures width { length self.new.chains ≡ length self.old.chains }
        ensures fewer { entry_count self.new.chains ≤ entry_count self.old.chains }
        ensures lists { (test : EntryValue → Bool) → Computes (FnReturnsAt T.Fn keep.now) test → FirstPasses test (chain_of self.old bucket) → self.new ≡ clean_bucket test self.old bucket }
    {
        let mut before = root;
        while let Some((slot, entry)) = self.chain(bucket, Some(before)) {
            if is_kept(keep, &Entry { next: 0, ..entry }) {
                before = slot;
            } else {
                self.take_next(bucket, before);
            }
        }
    }

    /// Takes out the first, the eleventh and so on of the entries behind the roots, in slot order.
    pub fn purge_tenth(&mut self, out: &mut PurgeList)
        requires made { out.old.buckets ≡ length self.old.chains }
        ensures lists { self.new ≡ after_purge self.old }
        ensures entries { out.new.entries ≡ map (λ r. r.entry) (purged self.old) }
        ensures few { 10 * length out.new.entries ≤ 3 * length self.old.chains + 9 }
        ensures tenth { self.old.free ≡ [] → length out.new.entries ≡ tenth_of (length self.old.chains) }
        ensures room { self.old.free ≡ [] → self.new.free ≢ [] }
        ensures buckets { out.new.buckets ≡ out.old.buckets }
        ensures width { length self.new.chains ≡ length self.old.chains }
    {
        out.clear();
        self.offer_all(out);
        for bucket in 0..self.bucket_count() {
            self.thin_bucket(bucket, out);
        }
    }

    // Offers each entry behind a root, in slot order.
    fn offer_all(&self, out: &mut PurgeList)
        requires made { out.old.buckets ≡ length self.now.chains }
        requires empty { out.old.entries ≡ [] }
        requires first { out.old.skip ≡ 0 }
        ensures offered { out.new ≡ offer_slots (slots_behind_roots 0 (length self.now.chains)) (behind_roots self.now.chains) out.old }
        ensures few { 10 * length out.new.entries ≤ 3 * length self.now.chains + 9 }
        ensures buckets { out.new.buckets ≡ out.old.buckets }
    {
        for bucket in 0..self.bucket_count() {
            let root = self.root_of(bucket);
            self.offer_slot(root + 1, out);
            self.offer_slot(root + 2, out);
            self.offer_slot(root + 3, out);
        }
    }

    // Offers the entry of a slot behind a root, if there is one.
    fn offer_slot(&self, slot: u16, out: &mut PurgeList)
        requires made { out.old.buckets ≡ length self.now.chains }
        requires slot { slot < 4 * length self.now.chains }
        requires behind { slot % 4 ≢ 0 }
        requires room { 10 * length out.old.entries < 3 * out.old.buckets + out.old.skip }
        ensures offered { out.new ≡ offer_found (find_slot slot (behind_roots self.now.chains)) out.old }
        ensures room { 10 * length out.new.entries + out.old.skip ≤ 10 * length out.old.entries + out.new.skip + 1 }
        ensures skip { out.old.skip ≤ 9 → out.new.skip ≤ 9 }
        ensures buckets { out.new.buckets ≡ out.old.buckets }
    {
        let entry = self.slots.get(slot);
        if entry.offset == 0 {
            return;
        }
        out.offer(slot, &entry);
    }

    // Takes out of a bucket, behind its root, each entry that was taken into a list.
    fn thin_bucket(&mut self, bucket: u32, gone: &PurgeList)
        requires bucket { bucket < length self.old.chains }
        ensures lists { self.new ≡ thin_bucket (is_unmarked gone.now.marks) self.old bucket }
        ensures width { length self.new.chains ≡ length self.old.chains }
    {
        let Some((root, _)) = self.chain(bucket, None) else {
            return;
        };
        let mut before = root;
        while let Some((slot, _)) = self.chain(bucket, Some(before)) {
            if gone.has(slot) {
                self.take_next(bucket, before);
            } else {
                before = slot;
            }
        }
    }

    // Takes the first entry out of a chain: the next moves into the root.
    fn take_root(&mut self, bucket: u32)
        requires bucket { bucket < length self.old.chains }
        requires some { chain_of self.old bucket ≢ [] }
        ensures { self.new ≡ take_root self.old bucket (chain_of self.old bucket) }
    {
        let at = self.root_of(bucket);
        let slot = self.slots.get(at).next;
        self.used -= 1;
        if slot == 0 {
            self.slots.set(at, &EMPTY);
            return;
        }
        let second = self.slots.get(slot);
        self.slots.set(at, &second);
        self.slots.set(
            slot,
            &Entry {
                next: self.free,
                ..EMPTY
            },
        );
        self.free = slot;
        self.free_count += 1;
    }

    // Takes the entry behind another out of their chain.
    fn take_next(&mut self, bucket: u32, before: u16)
        requires bucket { bucket < length self.old.chains }
        requires held { has_slot before (chain_of self.old bucket) ≡ true }
        requires some { behind_slot before (chain_of self.old bucket) ≢ [] }
        ensures { self.new ≡ take_next self.old bucket before (chain_of self.old bucket) }
    {
        let entry = self.slots.get(before);
        let gone = entry.next;
        let first = self.free;
        let next = self.slots.get(gone).next;
        self.slots.set(before, &Entry { next, ..entry });
        self.slots.set(
            gone,
            &Entry {
                next: first,
                ..EMPTY
            },
        );
        self.free = gone;
        self.free_count += 1;
        self.used -= 1;
    }

    /// The first entry of a bucket's chain, or the one behind the entry of a slot, with its slot.
    pub fn chain(&self, bucket: u32, after: Option<u16>) -> Option<(u16, Entry)>
        requires bucket { bucket < length self.now.chains }
        requires after { IfSome after (λ slot. has_slot slot (chain_of self.now bucket) ≡ true) }
        ensures fits { IfSome result (λ found. EntryFits found.1) }
        ensures used { IfSome result (λ found. 0 < found.1.offset) }
        ensures next { GivesNext result (all_or_behind after (chain_of self.now bucket)) (chain_of self.now bucket) }
    {
        match after {
            None => {
                let at = self.root_of(bucket);
                let root = self.slots.get(at);
                if root.offset == 0 {
                    return None;
                }
                Some((at, root))
            }
            Some(slot) => {
                let next = self.slots.get(slot).next;
                if next == 0 {
                    return None;
                }
                Some((next, self.slots.get(next)))
            }
        }
    }

    /// The next entry of a tag in a bucket's chain, or behind the entry of a slot, with its slot.
    /// Each entry that it looks at is a step.
    pub fn probe(
        &self,
        bucket: u32,
        tag: u16,
        mut after: Option<u16>,
        steps: &mut Steps,
    ) -> Option<(u16, Entry)>
        requires bucket { bucket < length self.now.chains }
        requires after { IfSome after (λ slot. has_slot slot (chain_of self.now bucket) ≡ true) }
        ensures found { option_map (λ f. row f.0 f.1) result ≡ first_of_tag tag (all_or_behind after (chain_of self.now bucket)) }
        ensures fits { IfSome result (λ f. EntryFits f.1) }
        ensures used { IfSome result (λ f. 0 < f.1.offset) }
        ensures held { IfSome result (λ f. has_slot f.0 (chain_of self.now bucket) ≡ true) }
        ensures next { IfSome result (λ f. behind_slot f.0 (chain_of self.now bucket)
            ≡ rest_of_tag tag (all_or_behind after (chain_of self.now bucket))) }
        ensures steps { steps.new ≡ ticked (steps_to tag (all_or_behind after (chain_of self.now bucket))) steps.old }
    {
        while let Some((slot, entry)) = self.chain(bucket, after) {
            steps.tick();
            if entry.tag == tag {
                return Some((slot, entry));
            }
            after = Some(slot);
        }
        None
    }

    /// How many entries stand on all chains.
    pub fn used(&self) -> u32
        ensures { result ≡ entry_count self.now.chains }
    {
        self.used
    }

    /// Writes the segment's bytes.
    pub fn to_bytes(&self, into: &mut [u8])
        requires len { length into.old ≡ 4 + 40 * length self.now.chains }
        ensures lists { image_lists (length self.now.chains) into.new ≡ self.now }
        ensures sound { WalkIsSound (image_walk (length self.now.chains) into.new) }
    {
        let count = self.free_count as u16;
        into[0..2].copy_from_slice(&self.free.to_le_bytes());
        into[2..4].copy_from_slice(&count.to_le_bytes());
        into[4..].copy_from_slice(self.slots.bytes());
    }

    /// The segment that bytes spell, or their first fault.
    pub fn from_bytes(alloc: Global, buckets: u32, bytes: &[u8]) -> Result<Segment, SegmentFault>
        requires buckets { (0 < buckets) × (buckets ≤ 16383) }
        requires len { length bytes.now ≡ 4 + 40 * buckets }
        ensures lists { IfOk result (λ segment. segment ≡ image_lists buckets bytes.now) }
        ensures width { IfOk result (λ segment. length segment.chains ≡ buckets) }
        ensures sound { OnOk result (WalkIsSound (image_walk buckets bytes.now)) }
        ensures fault { IfErr result (λ fault. IsFault fault (image_walk buckets bytes.now)) }
    {
        let free = u16::from_le_bytes([bytes[0], bytes[1]]);
        let kept = u16::from_le_bytes([bytes[2], bytes[3]]);
        let slots = Slots::from_bytes(alloc, &bytes[4..])?;
        let mut reached = Reached::new(alloc, 4 * buckets)?;
        walk_all(&slots, free, kept, buckets, &mut reached)?;
        let used = 4 * buckets - kept as u32 - empty_roots(&slots, buckets);
        Ok(Segment {
            buckets,
            slots,
            free,
            free_count: kept as u32,
            used,
        })
    }

    /// A law for proofs: how many entries and free slots there are together, and that each row has
    /// an entry which stands in a slot.
    pub fn is_counted(&self)
        ensures counted { AreCounted self.now }
        ensures stored { EntriesAreStored self.now }
    {
        self.slots.fit();
    }

    /// A law for proofs: what a purge of this segment takes and leaves.
    pub fn purge_takes(&self)
        ensures { PurgeTakes self.now }
    {
        let _ = &self.buckets;
    }
}
