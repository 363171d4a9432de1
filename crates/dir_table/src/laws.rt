// Laws of the rows of any directory. The function does nothing when it runs.
ghost use Rattle.dir_table.specs.Apart.{EntersApart, LosesApart, WrapsApart};

/// Where no two rows of a segment share a place, none do behind an insert, a delete or a wrap.
pub fn rows_stay_apart()
    ensures enters { EntersApart }
    ensures loses { LosesApart }
    ensures wraps { WrapsApart }
{}
