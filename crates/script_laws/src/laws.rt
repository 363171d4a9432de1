// Laws of what lines answer. These functions do nothing when they run.
ghost use Rattle.script_laws.specs.Parting.{LinesAgreeBeforeTrouble, OutputIsFixed};
ghost use Rattle.script_laws.specs.TurnTroubles.{FaultlessTurns, TurnsTellRefusals, UndamagedTurns};
ghost use Rattle.script_laws.specs.Causes.{AnswersAreTraced, CausesAreTraced};
ghost use Rattle.script_laws.specs.Damages.{DamageIsRecorded, DamageStays};
ghost use Rattle.script_laws.specs.Runs.{FaultlessRuns, UndamagedRuns};
ghost use Rattle.script_laws.specs.Counts.{RunsAreCounted};
ghost use Rattle.script_laws.specs.Sessions.{SessionsAreLegal};
ghost use Rattle.script_laws.specs.Vectors.{VectorsAreOnRecord};
ghost use Rattle.script_run.specs.Losses.{FormatsLoseNone, LossesStay};
ghost use Rattle.script_laws.specs.Troubles.{FaultIsRecorded, FaultStays, RefusalIsRecorded};

use model_laws::{displacements_agree, steps_agree};

/// Each cause that a step tells to those who read is how things stand, or that of a piece that was lost
/// before, or that of a record of the step.
pub fn causes_are_traced()
    ensures { CausesAreTraced }
{}

/// And so is each cause that a line answers: of a miss, of a break, of what is absent, or of a fragment
/// that is gone.
pub fn answers_are_traced()
    ensures { AnswersAreTraced }
{}

/// Behind a format no piece was lost.
pub fn formats_lose_none()
    ensures { FormatsLoseNone }
{}

/// No piece is lost by a fault, whatever records follow.
pub fn losses_stay()
    ensures { LossesStay }
{}

/// Once a fault was told, the count of the last one stays above 0.
pub fn fault_stays()
    ensures { FaultStays }
{}

/// A step that the device refused recorded that fault.
pub fn refusal_is_recorded()
    ensures { RefusalIsRecorded }
{}

/// A line that answers a device fault recorded that fault.
pub fn fault_is_recorded()
    ensures { FaultIsRecorded }
{}

/// Behind a line that answers damage, a piece was told as damaged.
pub fn damage_is_recorded()
    ensures { DamageIsRecorded }
{}

/// Once a piece was told as damaged, one stays so told.
pub fn damage_stays()
    ensures { DamageStays }
{}

/// Where no fault was told of any device in the end, no line of the script answered or named one.
pub fn faultless_runs()
    ensures { FaultlessRuns }
{}

/// Where no piece of any device was told as damaged, no line of the script answered damage.
pub fn undamaged_runs()
    ensures { UndamagedRuns }
{}

/// In each session of a script what is told of how many alternates a vector lists is what it lists.
pub fn runs_are_counted()
    ensures { RunsAreCounted }
{}

/// In each session of a script the last vector of a key that was not removed stands, live or not, or its loss is
/// recorded.
pub fn vectors_are_on_record()
    ensures { VectorsAreOnRecord }
{}

/// The records of each session of a script are those of a legal chronicle, in whose steps the device made the
/// calls of the session's lines.
pub fn sessions_are_legal()
    ensures { SessionsAreLegal }
{}

/// Each fault that a line of a script recorded is a call that its device refused in that line.
pub fn turns_tell_refusals()
    ensures { TurnsTellRefusals }
{}

/// Where no fault was told of any device in the end, no line of the script recorded one.
pub fn faultless_turns()
    ensures { FaultlessTurns }
{}

/// Where no piece of any device was told as damaged, no line of the script recorded damage.
pub fn undamaged_turns()
    ensures { UndamagedTurns }
{}

/// Two runs of a script print the same up to the first line in which one of them recorded a fault or damage, or both a
/// displacement, whatever their devices did.
pub fn lines_agree_before_trouble()
    ensures { LinesAgreeBeforeTrouble }
{
    steps_agree();
    displacements_agree();
}

/// Where nothing was displaced, and no fault and no damage was told, in either of two runs of a script, they print
/// the same.
pub fn output_is_fixed()
    ensures { OutputIsFixed }
{
    lines_agree_before_trouble();
}
