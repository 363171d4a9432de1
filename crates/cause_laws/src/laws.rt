// Sentences of what is found, and of causes. These functions do nothing when they run.
ghost use Rattle.headline.specs.Readers.{EndIsRead};
ghost use Rattle.headline.specs.Breaks.{BreakWasAborted, BreakWasPassed, GetWasPassed};
ghost use Rattle.headline.specs.Misses.{DisplacedWasTold, NeverPutWasNone, VectorWasLost};
ghost use Rattle.headline.specs.Displacements.{BreakWasDisplaced, GetWasDisplaced, LostWasDisplaced};
ghost use Rattle.headline.specs.Verdicts.{AbsencesAreCaused, BreaksAreCaused, GetsAreCaused, LossesAreCaused, MissesAreCaused};
ghost use Rattle.headline.specs.Standing.{AbortedWasLast, FoundIsListed, NoMatchFitsNone, PassedWasPlaced, RemovedWasRecorded};

use line_laws::legal_is_kept;
use model_laws::{numbers_follow, one_group, reader_is_closed};
use reader_laws::{all_given, opens_first, reader_is_opened};
use script_laws::{answers_are_traced, runs_are_counted, vectors_are_on_record};

/// What a line gets or hits the lines of the session completed, and the vector of the key's put that they completed
/// last, and did not remove since, lists it.
pub fn found_is_listed()
    ensures { FoundIsListed }
{
    legal_is_kept();
}

/// Each line answered `end` is of a reader that an earlier line of the session opened, of a put that one completed; and
/// the pieces that the lines of its actor were answered since are, joined, all that the writer of that put took.
pub fn end_is_read()
    ensures { EndIsRead }
{
    reader_is_opened();
    opens_first();
    legal_is_kept();
    one_group();
    numbers_follow();
    reader_is_closed();
    all_given();
}

/// Where a line is answered never-put, no earlier line of its session completed, gave up or removed a put of the key.
pub fn never_put_was_none()
    ensures { NeverPutWasNone }
{
    vectors_are_on_record();
}

/// Where a line tells a displacement as a cause, it was recorded in that line or an earlier one of its session.
pub fn displaced_was_told()
    ensures { DisplacedWasTold }
{
    answers_are_traced();
}

/// And where it is why there is nothing under a key, the piece was the vector of the key's last commit.
pub fn vector_was_lost()
    ensures { VectorWasLost }
{}

/// Where a line is answered removed, an earlier line of its session recorded that the key's put was removed, and no
/// record since is of one that was completed.
pub fn removed_was_recorded()
    ensures { RemovedWasRecorded }
{}

/// Where a line is answered no-match, the vector of the put that the lines completed last lists so many alternates,
/// and none of them fits the request.
pub fn no_match_fits_none()
    ensures { NoMatchFitsNone }
{
    legal_is_kept();
    runs_are_counted();
}

/// Where a line is answered aborted, that put of the key was given up last in its session, and none was completed or
/// removed.
pub fn aborted_was_last()
    ensures { AbortedWasLast }
{
    legal_is_kept();
}

/// Where a line is answered passed, the vector of the put that the lines completed last was placed or copied there
/// last, and the floor is above it.
pub fn passed_was_placed()
    ensures { PassedWasPlaced }
{
    legal_is_kept();
}

/// Where a line that reads on is answered passed, the reader's next piece was placed or copied there last, and the
/// floor is above it.
pub fn break_was_passed()
    ensures { BreakWasPassed }
{}

/// Where a whole read is answered passed, so it is, before the line, of the first fragment that may not be read of what
/// it hit.
pub fn get_was_passed()
    ensures { GetWasPassed }
{}

/// Where a line that reads on is answered aborted, its reader follows that put, and was given all that was cut of it; an
/// earlier line of its session gave it up, and was answered so.
pub fn break_was_aborted()
    ensures { BreakWasAborted }
{
    reader_is_opened();
    opens_first();
    legal_is_kept();
    one_group();
    numbers_follow();
    reader_is_closed();
}

/// Where a line that reads on is answered displaced, that was recorded of the reader's next piece.
pub fn break_was_displaced()
    ensures { BreakWasDisplaced }
{}

/// Where a whole read is answered displaced, that was recorded of a piece of the put that it hit.
pub fn get_was_displaced()
    ensures { GetWasDisplaced }
{}

/// Where a line is refused for a fragment that was displaced, that was recorded of the fragment of the put that it closes.
pub fn lost_was_displaced()
    ensures { LostWasDisplaced }
{}

/// Where a line is answered with a miss, nothing of the key answers by the records of the lines before, and they say
/// why; or the key's vector was read in that line, and is damaged.
pub fn misses_are_caused()
    ensures { MissesAreCaused }
{
    vectors_are_on_record();
    runs_are_counted();
}

/// Where a removal is answered that there is nothing, the records of the lines before say why.
pub fn absences_are_caused()
    ensures { AbsencesAreCaused }
{
    vectors_are_on_record();
}

/// Where a line that reads on is answered that its reader broke, the records of the lines before say why; or the next
/// piece was read in that line, and is not what was kept.
pub fn breaks_are_caused()
    ensures { BreaksAreCaused }
{}

/// Where a whole read is answered that it broke, the records of the lines before say why of a piece of what it hit; or
/// that piece was read in that line, and is not what was kept.
pub fn gets_are_caused()
    ensures { GetsAreCaused }
{}

/// Where a line is refused for a lost fragment, that is the first one of the put that it closes which is missing behind
/// the line, and the records say why.
pub fn losses_are_caused()
    ensures { LossesAreCaused }
{}
