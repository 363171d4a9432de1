// What the laws of `headline` say of the run.
ghost use Rattle.worked_runs.specs.Sentences.{EachRunIsDone, EachRunPrintsIt, ItWasRemoved, NothingWasPut, TheEndIsRead, TheGetIsWhole, TheGotIsTheBody, TheHistoryIsWhole, TheHitIsWhole, TheMissIsCaused, ThePutIsListed, ThePutTookItsBody, ThePutWasAnswered, ThePutWasCompleted, TheRemovalWasAnswered, TheRemovalWasRecorded};
ghost use Rattle.worked_runs.specs.Whole.{EachHistoryPrintsIt, EachRunAgrees, NoCountIsTold, NoDamageIsTold, NoFaultIsTold, TheRunEnds, TheRunIsSteady, TheRunIsTold};

use crate::{the_script_is_answered, the_script_is_concluded};
use account_laws::{completed_was_answered, got_is_whole, hit_is_whole, removal_was_answered};
use cause_laws::{
    end_is_read, found_is_listed, misses_are_caused, never_put_was_none, removed_was_recorded,
};
use edge_io::texts_have_lines;
use headline::honest_runs_are_whole;
use put_laws::{
    answered_put_was_completed, answered_removal_was_recorded, got_is_the_body, put_took_its_body,
};
use run_laws::{
    counts_are_reached, done_where_fine, ends_are_caused, histories_agree_before_trouble,
    no_false_damage, no_false_faults, runs_agree_before_trouble, runs_are_told, source_fixes_sink,
    switched_runs_are_steady,
};

/// The get gave all that the writer of put 1 took.
pub fn the_get_is_whole()
    ensures { TheGetIsWhole }
{
    got_is_whole();
    the_script_is_answered();
}

/// The hit told the length of what the writer of put 1 took.
pub fn the_hit_is_whole()
    ensures { TheHitIsWhole }
{
    hit_is_whole();
    the_script_is_answered();
}

/// What the actor was told up to the end is all that this writer took.
pub fn the_end_is_read()
    ensures { TheEndIsRead }
{
    end_is_read();
    the_script_is_answered();
}

/// The put that was got was completed by an earlier line, and is listed.
pub fn the_put_is_listed()
    ensures { ThePutIsListed }
{
    found_is_listed();
    the_script_is_answered();
}

/// Before the get that was answered never-put no put of the key had ended.
pub fn nothing_was_put()
    ensures { NothingWasPut }
{
    never_put_was_none();
    the_script_is_answered();
}

/// And the records of the lines before say so.
pub fn the_miss_is_caused()
    ensures { TheMissIsCaused }
{
    misses_are_caused();
    the_script_is_answered();
}

/// Before the get that was answered removed a line recorded the removal.
pub fn it_was_removed()
    ensures { ItWasRemoved }
{
    removed_was_recorded();
    the_script_is_answered();
}

/// Each account of these logs has a legal history of all its lines.
pub fn the_history_is_whole()
    ensures { TheHistoryIsWhole }
{
    honest_runs_are_whole();
}

/// The line that recorded the commit was answered so.
pub fn the_put_was_answered()
    ensures { ThePutWasAnswered }
{
    completed_was_answered();
}

/// So was the line that recorded the removal.
pub fn the_removal_was_answered()
    ensures { TheRemovalWasAnswered }
{
    removal_was_answered();
}

/// The line that was answered put 1 recorded that it was completed.
pub fn the_put_was_completed()
    ensures { ThePutWasCompleted }
{
    answered_put_was_completed();
    the_script_is_answered();
}

/// The line that was answered that it was removed recorded that.
pub fn the_removal_was_recorded()
    ensures { TheRemovalWasRecorded }
{
    answered_removal_was_recorded();
    the_script_is_answered();
}

/// What the writer of put 1 took is the body of its line.
pub fn the_put_took_its_body()
    ensures { ThePutTookItsBody }
{
    put_took_its_body();
    the_script_is_answered();
}

/// Whatever run has these lines: where its get gives of the put, it gives the body of that line.
pub fn the_got_is_the_body()
    ensures { TheGotIsTheBody }
{
    got_is_the_body();
}

/// Each other run over that text and steady devices printed the same, or both displaced a piece.
pub fn each_run_prints_it()
    ensures { EachRunPrintsIt }
{
    source_fixes_sink();
    the_script_is_concluded();
    the_run_is_steady();
}

/// Each run over that text ends with the status Done, where nothing was refused.
pub fn each_run_is_done()
    ensures { EachRunIsDone }
{
    done_where_fine();
    texts_have_lines();
}

/// What is concluded of the run gives an account of all nine lines.
pub fn the_run_is_told()
    ensures { TheRunIsTold }
{
    runs_are_told();
    texts_have_lines();
    the_script_is_concluded();
}

/// None of the nine lines had a cause to end the run, and the end of the source did.
pub fn the_run_ends()
    ensures { TheRunEnds }
{
    ends_are_caused();
    texts_have_lines();
    the_script_is_concluded();
}

/// No line behind the format answers a count of faults.
pub fn no_count_is_told()
    ensures { NoCountIsTold }
{
    counts_are_reached();
}

/// None answers a device fault.
pub fn no_fault_is_told()
    ensures { NoFaultIsTold }
{
    no_false_faults();
}

/// None answers damage.
pub fn no_damage_is_told()
    ensures { NoDamageIsTold }
{
    no_false_damage();
}

/// The device has a switch, so the clause `steady` of the top call says that it told its content and
/// refused nothing.
pub fn the_run_is_steady()
    ensures { TheRunIsSteady }
{
    switched_runs_are_steady();
}

/// Whatever ended another run: the lines with which its legal history begins printed the same, or one
/// of them met a refused call or damage.
pub fn each_history_prints_it()
    ensures { EachHistoryPrintsIt }
{
    histories_agree_before_trouble();
}

/// Each other run over that text and devices that told their content printed the same, or the two part
/// at a line.
pub fn each_run_agrees()
    ensures { EachRunAgrees }
{
    runs_agree_before_trouble();
    the_script_is_concluded();
}
