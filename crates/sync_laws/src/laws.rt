// Laws for proofs. These functions do nothing when they run.
ghost use Rattle.sync_laws.specs.KnownCopies.{CopiesOpen, CopiesStay, CopiesWiden, EmptyIsDue, FormatHolds, LaterSparesMore, SyncsBreakOff, SyncsTurn};

/// Where it is known how the copies stand, behind each call of a whole sync that is due all that a cut may
/// leave opens to one of the syncs that may be found, and to none that is older than the last that finished.
pub fn a_sync_is_guarded()
    // Where it went, the copy that it wrote is the newest.
    ensures turn { SyncsTurn }
    // Where it was broken off, the newest copy is the one that was.
    ensures stop { SyncsBreakOff }
{}

/// What is known of the copies, between syncs.
pub fn copies_are_known()
    ensures first { FormatHolds }
    ensures open { CopiesOpen }
    ensures stay { CopiesStay }
    ensures widen { CopiesWiden }
    // So a first sync is due.
    ensures empty { EmptyIsDue }
    // And a later copy spares content as far.
    ensures onward { LaterSparesMore }
{}
