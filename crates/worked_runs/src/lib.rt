//! A run that was worked by hand: its steps, legal history, answers and account, and what the laws of `headline` say of it.
#![tactic(auto)]

ghost use Rattle.worked_runs.specs.Steps.{AHitIsAStep, AMissIsAStep, APieceIsAStep, AnEndIsAStep, APutIsAStep, AGetIsAStep, ARemovalIsAStep, AMissBehindItIsAStep, ThePutHolds};
ghost use Rattle.worked_runs.specs.History.{OnlyTheBodyIsGiven, TheScriptIsARun, TheScriptIsAnswered, TheScriptPrints};
ghost use Rattle.worked_runs.specs.Told.{TheScriptHasAnAccount, TheScriptIsConcluded};

mod laws;

pub use laws::{
    each_history_prints_it, each_run_agrees, each_run_is_done, each_run_prints_it, it_was_removed,
    no_count_is_told, no_damage_is_told, no_fault_is_told, nothing_was_put, the_end_is_read,
    the_get_is_whole, the_got_is_the_body, the_history_is_whole, the_hit_is_whole,
    the_miss_is_caused, the_put_is_listed, the_put_took_its_body, the_put_was_answered,
    the_put_was_completed, the_removal_was_answered, the_removal_was_recorded, the_run_ends,
    the_run_is_steady, the_run_is_told,
};
use run_promise::texts_are_output;

/// A lookup before the put finds nothing.
pub fn a_miss_is_a_step()
    ensures { AMissIsAStep }
{}

/// One byte is put.
pub fn a_put_is_a_step()
    ensures { APutIsAStep }
{}

/// Its fragment and its vector then stand in the first two blocks of the buffer, and the key has that vector.
pub fn the_put_holds()
    ensures { ThePutHolds }
{}

/// An actor opens a reader of it.
pub fn a_hit_is_a_step()
    ensures { AHitIsAStep }
{}

/// The reader is given it.
pub fn a_piece_is_a_step()
    ensures { APieceIsAStep }
{}

/// And comes to the end.
pub fn an_end_is_a_step()
    ensures { AnEndIsAStep }
{}

/// It is got whole.
pub fn a_get_is_a_step()
    ensures { AGetIsAStep }
{}

/// It is removed.
pub fn a_removal_is_a_step()
    ensures { ARemovalIsAStep }
{}

/// And not found any more.
pub fn a_miss_behind_it_is_a_step()
    ensures { AMissBehindItIsAStep }
{}

/// The lines of the script have a legal history, written out by hand.
pub fn the_script_is_a_run()
    ensures { TheScriptIsARun }
{}

/// In it the get gives the body of the put, and no other bytes.
pub fn only_the_body_is_given()
    ensures { OnlyTheBodyIsGiven }
{}

/// By these turns each line is answered so.
pub fn the_script_is_answered()
    ensures { TheScriptIsAnswered }
{}

/// And that is what is printed.
pub fn the_script_prints()
    ensures { TheScriptPrints }
{
    the_script_is_answered();
    texts_are_output();
}

/// The run has an account, with these lines, turns and answers.
pub fn the_script_has_an_account()
    ensures { TheScriptHasAnAccount }
{
    the_script_is_a_run();
    the_script_is_answered();
}

/// What the top call concludes with the status Done holds of its logs.
pub fn the_script_is_concluded()
    ensures { TheScriptIsConcluded }
{
    the_script_is_a_run();
    the_script_is_answered();
}
