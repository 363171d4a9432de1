// Laws of what the lists of a segment say of entries alone. These functions do nothing when they
// run.
ghost use Rattle.dir_segment.specs.Entries.{InsertEnters, FullStays, DeleteTakes, MissedStays};
ghost use Rattle.dir_segment.specs.Entries.{CleanKeeps, PassedStay};

/// A bucket that is not full has one entry more after an insert, and a full one stays as it is.
pub fn insert_enters()
    ensures enters { InsertEnters }
    ensures full { FullStays }
{}

/// A bucket has one entry less after a delete that found one, and else nothing changes.
pub fn delete_takes()
    ensures takes { DeleteTakes }
    ensures missed { MissedStays }
{}

/// A bucket keeps the entries that pass; where all pass, nothing changes.
pub fn clean_keeps()
    ensures keeps { CleanKeeps }
    ensures passed { PassedStay }
{}
