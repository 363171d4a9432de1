// One segment: what an entry pushes out.
ghost use Rattle.std.specs.Prelude.{◌≡◌, ◌<◌, [], length};
ghost use Rattle.dir_entry.specs.Layout.{EntryFits};
ghost use Rattle.dir_segment.specs.Entries.{AreCounted};
ghost use Rattle.dir_segment.specs.Lists.{unlinked};
ghost use Rattle.packed_directory.specs.Cleaned.{IsCleaned};
ghost use Rattle.packed_directory.specs.Entering.{TakesIn};

use crate::beside::Beside;
use dir_entry::Entry;
use dir_segment::{Inserted, PurgeList, Segment, clean_keeps, insert_enters};

// Forgets the last purge. Where none took anything nothing is done: to clear the marks costs as much
// as the segment has slots, and each insert comes here.
fn forget(out: &mut PurgeList)
    ensures empty { out.new.entries ≡ [] }
    ensures buckets { out.new.buckets ≡ out.old.buckets }
{
    if out.len() > 0 {
        out.clear();
    }
}

/// Puts an entry into a segment, and says whether a tenth of the others had to go first.
pub fn take_in(segment: &mut Segment, bucket: u32, entry: Entry, out: &mut PurgeList) -> bool
    requires bucket { bucket < length segment.old.chains }
    requires entry { EntryFits entry }
    requires some { 0 < entry.offset }
    requires made { out.old.buckets ≡ length segment.old.chains }
    ensures takes { TakesIn (record { bucket = bucket; entry = unlinked entry }) result
        out.new.entries segment.old segment.new }
    ensures counted { AreCounted segment.old }
    ensures made { out.new.buckets ≡ out.old.buckets }
{
    insert_enters();
    segment.is_counted();
    forget(out);
    match segment.insert(bucket, entry) {
        Inserted::Inserted => false,
        Inserted::Full => {
            segment.purge_takes();
            segment.purge_tenth(out);
            segment.insert(bucket, entry);
            true
        }
    }
}

/// Takes out of a segment each entry that stands for no place from one place on and below another.
pub fn clean(segment: &mut Segment, beside: &Beside, low: u64, high: u64)
    ensures { IsCleaned beside.now.geometry beside.now.cursor low high segment.old segment.new }
{
    clean_keeps();
    segment.is_counted();
    segment.clean(|e| beside.stands_between(low, high, e));
}
