// The walks over the slots of an image.
ghost use Rattle.std.specs.Prelude.{◌≡◌, ◌+◌, ◌*◌, ◌<◌, ◌≤◌, length};
ghost use Rattle.dir_segment.specs.Image.{is_bad_link, walk, walk_bucket, walk_buckets, walk_all, unmarked, Walks, empty_roots};

use crate::fault::SegmentFault;
use crate::reached::Reached;
use crate::slots::Slots;

fn is_bad_link(slots: &Slots, used: bool, slot: u16) -> bool
    ensures { result ≡ is_bad_link used slots.now slot }
{
    if slot as usize >= slots.len() || slot % 4 == 0 {
        return true;
    }
    let empty = slots.get(slot).offset == 0;
    if used { empty } else { !empty }
}

fn walk(slots: &Slots, used: bool, first: u16, reached: &mut Reached) -> Result<(), SegmentFault>
    requires size { length reached.old ≡ length slots.now }
    ensures walks { Walks result reached.new (walk used slots.now (length slots.now) first reached.old) }
    ensures size { length reached.new ≡ length slots.now }
{
    let mut slot = first;
    for _ in 0..slots.len() {
        if slot == 0 {
            return Ok(());
        }
        if is_bad_link(slots, used, slot) {
            return Err(SegmentFault::BadLink { slot: slot as u32 });
        }
        if reached.has(slot) {
            return Err(SegmentFault::Loop { slot: slot as u32 });
        }
        reached.mark(slot);
        slot = slots.get(slot).next;
    }
    if slot == 0 {
        return Ok(());
    }
    Err(SegmentFault::Loop { slot: slot as u32 })
}

fn walk_bucket(slots: &Slots, bucket: u32, reached: &mut Reached) -> Result<(), SegmentFault>
    requires size { length reached.old ≡ length slots.now }
    requires bucket { (4 * bucket < length slots.now) × (bucket < 16383) }
    ensures walks { Walks result reached.new (walk_bucket slots.now bucket reached.old) }
    ensures size { length reached.new ≡ length slots.now }
{
    let at = 4 * bucket as u16;
    let root = slots.get(at);
    if root.offset != 0 {
        reached.mark(at);
        return walk(slots, true, root.next, reached);
    }
    if root.next != 0 {
        return Err(SegmentFault::BadLink { slot: at as u32 });
    }
    reached.mark(at);
    Ok(())
}

fn walk_buckets(slots: &Slots, buckets: u32, reached: &mut Reached) -> Result<(), SegmentFault>
    requires size { length reached.old ≡ length slots.now }
    requires whole { (length slots.now ≡ 4 * buckets) × (buckets ≤ 16383) }
    ensures walks { Walks result reached.new (walk_buckets slots.now 0 buckets reached.old) }
    ensures size { length reached.new ≡ length slots.now }
{
    for bucket in 0..buckets {
        walk_bucket(slots, bucket, reached)?;
    }
    Ok(())
}

/// Walks the chain of each bucket, and then the free list, from slots that were not reached.
pub fn walk_all(
    slots: &Slots,
    head: u16,
    kept: u16,
    buckets: u32,
    reached: &mut Reached,
) -> Result<(), SegmentFault>
    requires start { reached.old ≡ unmarked (4 * buckets) }
    requires whole { (length slots.now ≡ 4 * buckets) × (buckets ≤ 16383) }
    ensures { Walks result reached.new (walk_all slots.now head kept buckets) }
{
    walk_buckets(slots, buckets, reached)?;
    let before = reached.count();
    walk(slots, false, head, reached)?;
    let after = reached.count();
    let found = after - before;
    if kept as u32 != found {
        return Err(SegmentFault::FreeListCount {
            kept: kept as u32,
            found,
        });
    }
    if after != 4 * buckets {
        return Err(SegmentFault::FreeListCount {
            kept: 4 * buckets,
            found: after,
        });
    }
    Ok(())
}

/// How many buckets have an empty root.
pub fn empty_roots(slots: &Slots, buckets: u32) -> u32
    requires whole { (length slots.now ≡ 4 * buckets) × (buckets ≤ 16383) }
    ensures { result ≡ empty_roots slots.now 0 buckets }
{
    let mut count = 0;
    for bucket in 0..buckets {
        if slots.get(4 * bucket as u16).offset == 0 {
            count += 1;
        }
    }
    count
}
