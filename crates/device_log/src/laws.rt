// Laws for proofs. These functions do nothing when they run.
ghost use Rattle.device_log.specs.Laws.{WritePuts, WriteSpares, RefusedWriteSpares, SeenIsImage, WriteTears, RefusedWriteTears, SyncSettles, RefusedSyncSettlesNothing, SeenMayStay, StillIsKept, MemoryMayLeave, StopsJoin, RefusalIsCounted, UntoldHasNoFault, UnhitIsAsWritten};

/// What a write does to what is seen.
pub fn writes_are_seen()
    ensures puts { WritePuts }
    ensures spares { WriteSpares }
    ensures refused { RefusedWriteSpares }
    ensures image { SeenIsImage }
    ensures unhit { UnhitIsAsWritten }
{}

/// What a power cut may leave behind a call.
pub fn cuts_leave()
    ensures tears { WriteTears }
    ensures refused { RefusedWriteTears }
    ensures settles { SyncSettles }
    ensures unsettled { RefusedSyncSettlesNothing }
    ensures stays { SeenMayStay }
    ensures kept { StillIsKept }
    ensures memory { MemoryMayLeave }
{}

/// Which calls fail, and what the counts say.
pub fn faults_are_counted()
    ensures counted { RefusalIsCounted }
    ensures untold { UntoldHasNoFault }
    ensures stops { StopsJoin }
{}
