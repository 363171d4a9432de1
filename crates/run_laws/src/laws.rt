// Sentences of whole runs. These functions do nothing when they run.
ghost use Rattle.headline.specs.Account.{PairsAreDoubted};
ghost use Rattle.headline.specs.Causes.{DamageWasGiven, FaultsWereRefused};
ghost use Rattle.headline.specs.Troubles.{CountsAreReached, NoFalseDamage, NoFalseFaults};
ghost use Rattle.headline.specs.Endings.{DoneWhereFine, EndsAreCaused, RunsAreTold};
ghost use Rattle.headline.specs.Fixed.{SourceFixesSink, SwitchedRunsAreSteady};
ghost use Rattle.headline.specs.Parting.{HistoriesAgreeBeforeTrouble, RunsAgreeBeforeTrouble};

use edge_io::texts_have_lines;
use line_laws::legal_is_kept;
use model_laws::faults_rise;
use reader_laws::damage_is_given;
use run_promise::texts_are_output;
use script_laws::{
    answers_are_traced, damage_is_recorded, damage_stays, fault_is_recorded, faultless_turns,
    lines_agree_before_trouble, turns_tell_refusals, undamaged_turns,
};
use script_run::{own_is_as_listed, reads_keep};

/// What is concluded of a run that was begun gives its account: what the sink took is the text of its answers, as far
/// as the status says. The other laws speak of every account.
pub fn runs_are_told()
    ensures { RunsAreTold }
{}

/// Devices that have a switch, as those in memory, told their content and refused nothing: that they did the top call
/// says of each run.
pub fn switched_runs_are_steady()
    ensures { SwitchedRunsAreSteady }
{}

/// Where the legal history of an account stops before a line, the device of that line's session did not tell its content
/// to the end, whatever the others did.
pub fn pairs_are_doubted()
    ensures { PairsAreDoubted }
{}

/// Where a line answers a device fault, a call of that line was refused, with that count behind it.
pub fn faults_were_refused()
    ensures { FaultsWereRefused }
{
    fault_is_recorded();
    damage_stays();
}

/// Where a line answers damage, the device gave other bytes in that line or an earlier one of its session; a record had
/// placed the piece there, or copied it, with the digest that was kept.
pub fn damage_was_given()
    ensures { DamageWasGiven }
{
    answers_are_traced();
    damage_is_given();
    damage_stays();
    legal_is_kept();
    own_is_as_listed();
    reads_keep();
}

/// No line answers a count above that with which its device came back.
pub fn counts_are_reached()
    ensures { CountsAreReached }
{}

/// Where a device came back with the count 0, no line on it answers a device fault.
pub fn no_false_faults()
    ensures { NoFalseFaults }
{
    fault_is_recorded();
    answers_are_traced();
    faults_rise();
}

/// Where a device told its content to the end, no line on it answers damage.
pub fn no_false_damage()
    ensures { NoFalseDamage }
{
    damage_is_recorded();
    damage_stays();
}

/// Nothing but a refused call, want of memory, the words, or the text keeps a run from its end.
pub fn done_where_fine()
    ensures { DoneWhereFine }
{}

/// Each status has its cause, and the first that is met ends the run.
pub fn ends_are_caused()
    ensures { EndsAreCaused }
{}

/// Over devices that tell their content, two runs of one source that were read to its end write the same up to the
/// first line in which a device refused a call, or both displaced a piece.
pub fn runs_agree_before_trouble()
    ensures { RunsAgreeBeforeTrouble }
{
    lines_agree_before_trouble();
    turns_tell_refusals();
    undamaged_turns();
    texts_are_output();
    texts_have_lines();
}

/// Whatever ended two runs, and whatever their devices told: the lines with which both legal histories begin print the
/// same up to the first that recorded a fault or damage in one of them, or a displacement in both.
pub fn histories_agree_before_trouble()
    ensures { HistoriesAgreeBeforeTrouble }
{
    lines_agree_before_trouble();
}

/// Over devices that tell their content and refuse nothing, and where not both runs displaced a piece, what the source
/// gave fixes what the sink took.
pub fn source_fixes_sink()
    ensures { SourceFixesSink }
{
    runs_agree_before_trouble();
    faultless_turns();
}
