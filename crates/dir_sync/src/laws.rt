// Laws for proofs. These functions do nothing when they run.
ghost use Rattle.dir_sync.specs.Laws.{ShuttingSparesAll, ShutStands, WritingReplaces, WritingSpares, PutStands, HaltStands, LastOpens};
ghost use Rattle.dir_sync.specs.RunLaws.{OthersSpare, BodiesAreAccepted};

/// What a cut may leave of a copy while it is replaced, on any device.
pub fn a_copy_is_shut_or_whole()
    ensures shutting { ShuttingSparesAll }
    ensures shut { ShutStands }
    ensures replaces { WritingReplaces }
    ensures spares { WritingSpares }
    ensures puts { PutStands }
    ensures halts { HaltStands }
    ensures opens { LastOpens }
{}

/// What holds of a run between its calls, and of its body.
pub fn runs_go_on()
    ensures others { OthersSpare }
    ensures accepted { BodiesAreAccepted }
{}
