// Laws of whole sessions: what is forgotten, room in the directory, and payloads. These functions do nothing when they run.
ghost use Rattle.session_laws.specs.SyncLaws.{OpenedIsTold};
ghost use Rattle.session_laws.specs.PayloadLaws.{FormattedAreCut, PayloadsAreCut};
ghost use Rattle.model_laws.specs.RoomLaws.{GroupFits, InsertFits, LegalFits, LessFits, MoveDisplacesNothing, NothingIsDisplaced, PlainDisplacesNothing, SlotIsMade, StepFits, TenthIsDisplaced};
ghost use Rattle.session_laws.specs.ForgetLaws.{FewAreDead, ForgettingCounts, ForgettingIsSound, ForgettingLeaves, ForgettingTells, ForgettingTwice, ForgottenIsDead, ForgottenIsUnrecorded, GivenStays, GreatestAreKept, KeptIsAnswered, KnownAreFalling, NamedIsKept, NoRecordIsTold, ReaderIsAnswered, WrittenIsKept};

/// In each legal chronicle a fragment of a put of the session has the length and the digest that this
/// has cut; behind a format each fragment is of such a put.
pub fn payloads_are_cut()
    ensures legal { PayloadsAreCut }
    ensures formatted { FormattedAreCut }
{}

/// A lookup of what neither the session nor its opening knows tells the opening's serial.
pub fn opened_is_told()
    ensures { OpenedIsTold }
{}

/// The puts of which something is known are counted once each, the greatest number first.
pub fn known_are_falling()
    ensures { KnownAreFalling }
{}

/// A put that is forgotten is neither written nor read, nothing of it is live, and no live vector lists it.
pub fn forgotten_is_dead()
    ensures { ForgottenIsDead }
{}

/// No put is forgotten of which a sync that may be found names a piece.
pub fn named_is_kept()
    ensures { NamedIsKept }
{}

/// No put is forgotten that is still written.
pub fn written_is_kept()
    ensures { WrittenIsKept }
{}

/// Forgetting leaves the tape, the numbers, the readers, the syncs, and all that may be read.
pub fn forgetting_leaves()
    ensures { ForgettingLeaves }
{}

/// Forgetting leaves places in order, and the live piece at each place.
pub fn forgetting_is_sound()
    ensures { ForgettingIsSound }
{}

/// Forgetting leaves vectors that spell their alternates.
pub fn forgetting_tells()
    ensures { ForgettingTells }
{}

/// Forgetting leaves told of the last vector of each key how many alternates it lists.
pub fn forgetting_counts()
    ensures { ForgettingCounts }
{}

/// What a lookup gives is given as before, also of a key of which puts were forgotten: at most the cause of a miss
/// becomes another one.
pub fn given_stays()
    ensures { GivenStays }
{}

/// A key is answered as before where neither its last vector nor its last put that was given up was forgotten, or
/// nothing was on record of it before either.
pub fn kept_is_answered()
    ensures { KeptIsAnswered }
{}

/// A key whose last vector was forgotten is missed as unrecorded.
pub fn forgotten_is_unrecorded()
    ensures { ForgottenIsUnrecorded }
{}

/// An open reader is answered as before, or breaks as before at a piece of which nothing was on record.
pub fn reader_is_answered()
    ensures { ReaderIsAnswered }
{}

/// Forgetting twice is forgetting once.
pub fn forgetting_twice()
    ensures { ForgettingTwice }
{}

/// Of the puts that are known and dead those of greatest numbers are kept.
pub fn greatest_are_kept()
    ensures { GreatestAreKept }
{}

/// Behind forgetting no more dead puts are known than are to be kept.
pub fn few_are_dead()
    ensures { FewAreDead }
{}

/// Of what nothing is on record it is told how many puts were forgotten, once one was.
pub fn no_record_is_told()
    ensures { NoRecordIsTold }
{}

/// Behind what the entry of a piece displaces there is a slot for it.
pub fn slot_is_made()
    ensures { SlotIsMade }
{}

/// Where the segment of a piece has no slot for its entry, as many of its pieces go as are a tenth of its
/// slots that are no roots, rounded up, and none of another segment; where it has one, none goes.
pub fn tenth_is_displaced()
    ensures tenth { TenthIsDisplaced }
    ensures none { NothingIsDisplaced }
{}

/// With a directory that displaces nothing no step tells of a displacement.
pub fn plain_displaces_nothing()
    ensures { PlainDisplacesNothing }
{}

/// An insert leaves a slot for each live piece, in each segment.
pub fn insert_fits()
    ensures { InsertFits }
{}

/// Where no piece is live that was not, each segment has slots as before.
pub fn less_fits()
    ensures { LessFits }
{}

/// Each group of records leaves a slot for each live piece, in each segment.
pub fn group_fits()
    ensures { GroupFits }
{}

/// So does each step.
pub fn step_fits()
    ensures { StepFits }
{}

/// So it is in each legal chronicle.
pub fn legal_fits()
    ensures { LegalFits }
{}

/// Each copy of a flush has a slot, so that it displaces nothing.
pub fn move_displaces_nothing()
    ensures { MoveDisplacesNothing }
{}
