//! Sessions with openings and syncs, worked by hand and computed by the definitions over records.
#![tactic(auto)]

ghost use Rattle.record_rows.specs.Limit.{ACopyAboveTheLimitIsNoStep, ACopyMayEndBelowTheLimit, AFlushAtTheLimitIsRefused};
ghost use Rattle.record_rows.specs.Steps.{AClosedStripeIsAStep, ALastPartIsAStep, AMarkedStripeMayBeClosed, APartIsAStep, ARefusedEndIsAStep, ARefusedPartIsAStep, ARefusedPartLeavesTheSync, ARefusedSyncAtTheTapeEndIsNoStep, ASecondOneIsRefused, AWriteBeforeItsSyncIsAStep, AnEmptySyncAtTheTapeEndIsAStep, AnEmptySyncIsAStep, NoPartWithoutASync};
ghost use Rattle.record_rows.specs.Unlike.{ACopyOfItIsDamage, AnUnlikePayloadIsDamage, AnUnlikePayloadIsNotGiven, AnUnlikePayloadMayBeFound};
ghost use Rattle.record_rows.specs.Rows.{AClosedStripeOpensClean, AFinishedSyncIsTaken, AFormatMayBeOpened, AFoundVectorIsKnown, AFullSegmentLosesATenth, ALapEndsWithASync, AnOpeningFollows, AnotherPutMerges, ARemovalComesBack, ARunningSyncIsEndedFirst, ARunningSyncMayBeTaken, AShortBufferEndsTheLap, AnEmptyPutEndsItFirst, LaterPutsAreLost, TwoVectorsMayBeFound, WhatIsWrittenUnmarks};

/// What was put behind the last sync is lost, and told by the serial of the opening.
pub fn later_puts_are_lost()
    ensures { LaterPutsAreLost }
{}

/// An opening that takes that sync up follows the session.
pub fn an_opening_follows()
    ensures { AnOpeningFollows }
{}

/// What a format leaves may be opened, by a directory that displaces too.
pub fn a_format_may_be_opened()
    ensures { AFormatMayBeOpened }
{}

/// A removal behind the last sync comes back.
pub fn a_removal_comes_back()
    ensures { ARemovalComesBack }
{}

/// While a sync runs it may be found, or the one before it.
pub fn a_running_sync_may_be_taken()
    ensures { ARunningSyncMayBeTaken }
{}

/// Once it finished, it is found.
pub fn a_finished_sync_is_taken()
    ensures { AFinishedSyncIsTaken }
{}

/// A stripe that was closed opens with all that was live, and its copy is known as clean.
pub fn a_closed_stripe_opens_clean()
    ensures { AClosedStripeOpensClean }
{}

/// A sync that is not clean ends that, and bounds what is found again.
pub fn what_is_written_unmarks()
    ensures { WhatIsWrittenUnmarks }
{}

/// An opening may find two vectors.
pub fn two_vectors_may_be_found()
    ensures { TwoVectorsMayBeFound }
{}

/// A found vector is its key's last, with all its alternates.
pub fn a_found_vector_is_known()
    ensures { AFoundVectorIsKnown }
{}

/// A put behind an opening is merged into the vector that was found.
pub fn another_put_merges()
    ensures { AnotherPutMerges }
{}

/// The flush of the last buffer of a lap syncs.
pub fn a_lap_ends_with_a_sync()
    ensures { ALapEndsWithASync }
{}

/// So does that of a buffer of one block.
pub fn a_short_buffer_ends_the_lap()
    ensures { AShortBufferEndsTheLap }
{}

/// A sync in parts is ended before a buffer is written that lies outside the reach of the sync before.
pub fn a_running_sync_is_ended_first()
    ensures { ARunningSyncIsEndedFirst }
{}

/// So does a put of no bytes, which is the first of the buffer behind that.
pub fn an_empty_put_ends_it_first()
    ensures { AnEmptyPutEndsItFirst }
{}

/// A part of it that the device refuses leaves that sync, and another one is refused still.
pub fn a_refused_part_leaves_the_sync()
    ensures { ARefusedPartLeavesTheSync }
{}

/// A full segment loses a tenth of its slots, and then has one for the new entry.
pub fn a_full_segment_loses_a_tenth()
    ensures { AFullSegmentLosesATenth }
{}

/// A sync of an empty buffer is a step on its calls.
pub fn an_empty_sync_is_a_step()
    ensures { AnEmptySyncIsAStep }
{}

/// Also right below the end of the tape.
pub fn an_empty_sync_at_the_tape_end_is_a_step()
    ensures { AnEmptySyncAtTheTapeEndIsAStep }
{}

/// Where it is not refused.
pub fn a_refused_sync_at_the_tape_end_is_no_step()
    ensures { ARefusedSyncAtTheTapeEndIsNoStep }
{}

/// While a sync in parts goes on, another one is refused.
pub fn a_second_one_is_refused()
    ensures { ASecondOneIsRefused }
{}

/// The last part of a sync ends it.
pub fn a_last_part_is_a_step()
    ensures { ALastPartIsAStep }
{}

/// A part that the device refuses leaves the sync.
pub fn a_refused_part_is_a_step()
    ensures { ARefusedPartIsAStep }
{}

/// A part that is not the last one leaves the sync.
pub fn a_part_is_a_step()
    ensures { APartIsAStep }
{}

/// Where no sync goes on there is no part.
pub fn no_part_without_a_sync()
    ensures { NoPartWithoutASync }
{}

/// Where a sync in parts cannot be ended, that may be a fault alone.
pub fn a_refused_end_is_a_step()
    ensures { ARefusedEndIsAStep }
{}

/// A stripe with an empty buffer is closed by one clean sync.
pub fn a_closed_stripe_is_a_step()
    ensures { AClosedStripeIsAStep }
{}

/// So is one that was opened clean.
pub fn a_marked_stripe_may_be_closed()
    ensures { AMarkedStripeMayBeClosed }
{}

/// A buffer is written before the sync that names it.
pub fn a_write_before_its_sync_is_a_step()
    ensures { AWriteBeforeItsSyncIsAStep }
{}

/// An opening may find a fragment with another payload than the one that its vector lists.
pub fn an_unlike_payload_may_be_found()
    ensures { AnUnlikePayloadMayBeFound }
{}

/// A reader that comes to it is told the damage, with both digests.
pub fn an_unlike_payload_is_damage()
    ensures { AnUnlikePayloadIsDamage }
{}

/// And is not given it.
pub fn an_unlike_payload_is_not_given()
    ensures { AnUnlikePayloadIsNotGiven }
{}

/// So it is of its copy in a buffer that is not written out.
pub fn a_copy_of_it_is_damage()
    ensures { ACopyOfItIsDamage }
{}

/// A copy may end right below 2^62.
pub fn a_copy_may_end_below_the_limit()
    ensures { ACopyMayEndBelowTheLimit }
{}

/// A flush whose copy would end above it is no step.
pub fn a_copy_above_the_limit_is_no_step()
    ensures { ACopyAboveTheLimitIsNoStep }
{}

/// It is refused, and no device is asked.
pub fn a_flush_at_the_limit_is_refused()
    ensures { AFlushAtTheLimitIsRefused }
{}
