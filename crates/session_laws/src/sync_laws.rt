// Laws of syncs and of clean marks. These functions do nothing when they run.
ghost use Rattle.step_laws.specs.AskLaws.{AskedIsSynced, DueIsEnded, DueIsSynced, EndedFirst, FlushBegins, LegalSerialsRise, MarkIsTakenBack, MarkedIsEmpty, MarkedPlacesNothing, MarkedStaysEmpty, NoSyncIsRecorded, RoomBegins, SerialsFollow, SerialsRise, StepsTellNoSync, SyncEndsWhereDue, SyncIsDueOrAsked};
ghost use Rattle.session_laws.specs.MarkLaws.{MarksAreOpenable};
ghost use Rattle.session_laws.specs.SyncLaws.{FinishedIsLast, FollowerAllowsSync, FollowerHasSync, MarksStay, OnlyLaterAreAllowed, SyncIsHeld};

/// What a sync holds is how things stood when it began.
pub fn sync_is_held()
    ensures { SyncIsHeld }
{}

/// Nothing that is recorded later changes what a sync holds.
pub fn marks_stay()
    ensures { MarksStay }
{}

/// What a sync names passes the tests of an opening.
pub fn marks_are_openable()
    ensures { MarksAreOpenable }
{}

/// The sync that finished last is the last of which that is recorded.
pub fn finished_is_last()
    ensures { FinishedIsLast }
{}

/// Once a sync finished it may be found, and what was begun later, and nothing earlier.
pub fn only_later_are_allowed()
    ensures { OnlyLaterAreAllowed }
{}

/// An opening that follows a session has the pieces of the sync that it took up, and its number of the next put; and that
/// sync may be found again.
pub fn followers_take_up()
    ensures has { FollowerHasSync }
    ensures allows { FollowerAllowsSync }
{}

/// A stripe that does not sync records no sync.
pub fn no_sync_is_recorded()
    ensures group { NoSyncIsRecorded }
    ensures step { StepsTellNoSync }
{}

/// While a clean copy may be found, nothing is placed in an empty buffer, and what is to be placed
/// waits until the mark is taken back.
pub fn marked_places_nothing()
    ensures none { MarkedPlacesNothing }
    ensures back { MarkIsTakenBack }
{}

/// And the buffer is empty then.
pub fn marked_is_empty()
    ensures group { MarkedStaysEmpty }
    ensures legal { MarkedIsEmpty }
{}

/// Where a sync is asked for, or the buffer ends out of reach, the sync in parts is ended before all
/// else.
pub fn ended_first()
    ensures { EndedFirst }
{}

/// Where a whole sync is due or asked for behind the buffer, the next buffer begins only once that
/// sync went through; and a flush is done, also one for room, only where the next buffer begins.
pub fn due_is_synced()
    ensures due { DueIsSynced }
    ensures flush { FlushBegins }
    ensures room { RoomBegins }
{}

/// Where a sync is due or asked for behind the buffer, the sync in parts that goes on ends before the
/// next buffer begins.
pub fn due_is_ended()
    ensures { DueIsEnded }
{}

/// A sync that is asked for is made with the next serial: it ends, or, in parts, goes on.
pub fn asked_is_synced()
    ensures { AskedIsSynced }
{}

/// A sync begins only where it is asked for, where a buffer that is not empty is drained, where a
/// piece is to be placed behind a clean mark, or where it is due behind the flush with which what is
/// asked begins.
pub fn sync_is_due_or_asked()
    ensures { SyncIsDueOrAsked }
{}

/// A sync ends only where one is asked for, or the last part of one, where the stripe is drained, where a
/// piece is to be placed behind a clean mark, or where what is asked begins with a flush of a buffer
/// that is not empty, and a sync is due behind that or the buffer ends out of reach.
pub fn sync_ends_where_due()
    ensures { SyncEndsWhereDue }
{}

/// Each sync takes the next serial, so that the last one that began has the greatest of the session.
pub fn serials_rise()
    ensures follow { SerialsFollow }
    ensures group { SerialsRise }
    ensures legal { LegalSerialsRise }
{}
