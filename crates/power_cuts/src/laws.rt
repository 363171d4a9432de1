// The law for proofs. Its function does nothing when it runs.
ghost use Rattle.power_cuts.specs.Surviving.{CallsSurvive, FormatsHold, HeldOpens, SurvivesOn};

/// Behind each call of a session that a format began, all that a power cut may leave opens to a sync of the session
/// that is not older than the last that had finished.
pub fn sessions_survive()
    ensures format { FormatsHold }
    ensures calls { CallsSurvive }
    ensures on { SurvivesOn }
    ensures opens { HeldOpens }
{}
