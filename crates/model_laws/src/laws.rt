// Laws of the definitions over records, in the subject's sentences. These functions do nothing when
// they run.
ghost use Rattle.step_laws.specs.PlaceLaws.{PlaceFollows, PlaceIsLast, MovedIsThere, FoundIsThere, TakenIsNowhere, ReplacedIsNowhere, PassedIsNotLive, VectorIsLast, FloorIsLast};
ghost use Rattle.model_laws.specs.Choices.{GroupIsFixed, AskedIsAnswered, AnsweredIsTried, HitIsRead, GivenIsRead};
ghost use Rattle.step_laws.specs.StepLaws.{RefusalEnds, NumbersFollow, FaultsRise, OneGroup, NothingAsked, FragmentIsCut, LiveIsRemoved, EmptyFlush, LookupIsOne, TooLargeIsNotPlaced, AllIsCutFirst, ReaderIsClosed, TroubleIsBacked};
ghost use Rattle.model_laws.specs.VerdictLaws.{HitMatches, CompleteIsHit, RemovedIsMissed, PassedIsMissed, FormattedIsEmpty, GivenIsOwn, EndIsWhole, FollowedIsClosed, WaitsForOpen};
ghost use Rattle.model_laws.specs.TapeLaws.{LegalIsBelow, OpeningsAreSound, PlacesStayBelow, StepsAreSound, LegalIsSound, LiveIsKnown};
ghost use Rattle.model_laws.specs.FlushLaws.{DueAreFound, FlushIsSound, FrontIsBacked, GivenAreTried, KeptAreChosen, OutcomesAreFixed, OutcomesAreFound, OutcomesAreTried, StoppedIsBacked, StoppedIsSound, WalkFinds, WalkGoesOn};
ghost use Rattle.model_laws.specs.Agreeing.{GroupsAgree, StepsAgree};
ghost use Rattle.model_laws.specs.Purging.{DisplacementsAgree};
ghost use Rattle.step_laws.specs.PairLaws.{CopiedIsDueAndFits, LookupReadsItsKey, NothingAskedReadsNone, PairsAreBytes, PairsAreGiven, ReaderReadsItsNext};
ghost use Rattle.step_laws.specs.VectorLaws.{FlushTells, StoppedTells, FormatsTell, OpeningsTell, GroupsTell, StepsTell, VectorsAreKept, MergedIsSpelled, CountIsListed, FormatsCount, GroupsCount, OpeningsCount, StepsCount, UnansweredIsCounted};
ghost use Rattle.cache_model.specs.Vectors.{IsVectorAs};

/// What each record makes of the place of each piece.
pub fn place_follows()
    ensures { PlaceFollows }
{}

/// A piece stands where it was placed last, unless something behind that took it away.
pub fn place_is_last()
    ensures { PlaceIsLast }
{}

/// A piece that stands somewhere stands where it was moved last.
pub fn moved_is_there()
    ensures { MovedIsThere }
{}

/// A piece that was displaced, damaged or removed stands nowhere.
pub fn taken_is_nowhere()
    ensures { TakenIsNowhere }
{}

/// A key's vector stands nowhere once another put of the key was committed.
pub fn replaced_is_nowhere()
    ensures { ReplacedIsNowhere }
{}

/// A piece that begins below the floor is not live, wherever it ends.
pub fn passed_is_not_live()
    ensures { PassedIsNotLive }
{}

/// The vector of a key is the last of its commits and removals.
pub fn vector_is_last()
    ensures { VectorIsLast }
{}

/// The floor is that of the buffer that began last.
pub fn floor_is_last()
    ensures { FloorIsLast }
{}

/// A step that is asked one thing that cannot stay adds one group of records.
pub fn one_group()
    ensures { OneGroup }
{}

/// A step that is asked nothing adds nothing.
pub fn nothing_asked()
    ensures { NothingAsked }
{}

/// A fragment that has room is cut at once.
pub fn fragment_is_cut()
    ensures { FragmentIsCut }
{}

/// A live vector that is to be removed is removed.
pub fn live_is_removed()
    ensures { LiveIsRemoved }
{}

/// A flush of an empty buffer does nothing.
pub fn empty_flush()
    ensures { EmptyFlush }
{}

/// A lookup of a key without a live vector adds its answer alone.
pub fn lookup_is_one()
    ensures { LookupIsOne }
{}

/// A put whose vector alone is too large for a piece places none.
pub fn too_large_is_not_placed()
    ensures { TooLargeIsNotPlaced }
{}

/// A vector is placed once all of its put is cut.
pub fn all_is_cut_first()
    ensures { AllIsCutFirst }
{}

/// Behind a refusal a step cleans up alone.
pub fn refusal_ends()
    ensures { RefusalEnds }
{}

/// A step that ends by closing a reader leaves it closed.
pub fn reader_is_closed()
    ensures { ReaderIsClosed }
{}

/// Damage is recorded only with a digest of what the device gave, or of a payload as the records tell
/// it, and faults only where the device refused a call.
pub fn trouble_is_backed()
    ensures { TroubleIsBacked }
{}

/// Puts and readers are numbered one after the other, and the number of a put stays below the limit.
pub fn numbers_follow()
    ensures { NumbersFollow }
{}

/// Each recorded fault is a new one of the device.
pub fn faults_rise()
    ensures { FaultsRise }
{}

/// On a sound tape and a faithful device, and with a directory that displaces nothing, what is asked
/// fixes the records of a group and how it ends.
pub fn group_is_fixed()
    ensures { GroupIsFixed }
{}

/// Where two devices tell no fault and no damage, and nothing is displaced, what is asked at one moment
/// fixes the records of a group, but for the digests of copies, and how it ends.
pub fn groups_agree()
    ensures { GroupsAgree }
{}

/// So it does of a whole step, and why it did less.
pub fn steps_agree()
    ensures { StepsAgree }
{}

/// Where one of two such steps tells no trouble, so does the other, unless its device refused a call or gave other bytes.
pub fn displacements_agree()
    ensures { DisplacementsAgree }
{}

/// On a sound tape what may be asked can be done, or is refused, whatever the device gives for what was
/// tried.
pub fn asked_is_answered()
    ensures { AskedIsAnswered }
{}

/// What has to be read for an answer was in the buffer, or was read or refused in the step, and so was
/// what a flush is to copy.
pub fn answered_is_tried()
    ensures { AnsweredIsTried }
{}

/// A vector that is hit was in the buffer, or was read with the digest that was kept.
pub fn hit_is_read()
    ensures { HitIsRead }
{}

/// A fragment that is given was in the buffer, or was read with the digest that was kept, and its
/// payload is the one that is listed.
pub fn given_is_read()
    ensures { GivenIsRead }
{}

/// Each step leaves places in order, and lowers no floor.
pub fn steps_are_sound()
    ensures { StepsAreSound }
{}

/// Each legal chronicle has its places in order.
pub fn legal_is_sound()
    ensures { LegalIsSound }
{}

/// In each legal chronicle each piece that is placed, copied or found ends below the limit.
pub fn places_stay_below()
    ensures records { PlacesStayBelow }
    ensures legal { LegalIsBelow }
{}

/// A live piece is the one that is known at its place.
pub fn live_is_known()
    ensures { LiveIsKnown }
{}

/// What is hit is one of the key's alternates, and matches.
pub fn hit_matches()
    ensures { HitMatches }
{}

/// A put that is complete is what requests that match it hit.
pub fn complete_is_hit()
    ensures { CompleteIsHit }
{}

/// A removed object is missed.
pub fn removed_is_missed()
    ensures { RemovedIsMissed }
{}

/// An object whose vector the floor has passed is missed.
pub fn passed_is_missed()
    ensures { PassedIsMissed }
{}

/// Behind a format nothing was put.
pub fn formatted_is_empty()
    ensures { FormattedIsEmpty }
{}

/// A reader is given the next fragment of its own put.
pub fn given_is_own()
    ensures { GivenIsOwn }
{}

/// A reader comes to the end once all was given.
pub fn end_is_whole()
    ensures { EndIsWhole }
{}

/// A reader that follows a writer comes to the end once that is closed.
pub fn followed_is_closed()
    ensures { FollowedIsClosed }
{}

/// A reader waits for an open writer alone.
pub fn waits_for_open()
    ensures { WaitsForOpen }
{}

/// A format leaves no alternate that may not be kept.
pub fn formats_tell()
    ensures { FormatsTell }
{}

/// Each group of records leaves vectors that spell their alternates, and puts whose alternates may be
/// kept, or two documents of one SHA-256 are shown.
pub fn groups_tell()
    ensures { GroupsTell }
{}

/// And so does each step.
pub fn steps_tell()
    ensures { StepsTell }
{}

/// Both sides of a pair are bytes; and of a piece that was written out none is shown where the device gave
/// nothing for it.
pub fn pairs_are_given()
    ensures bytes { PairsAreBytes IsVectorAs }
    ensures given { PairsAreGiven IsVectorAs }
{}

/// In each legal chronicle each vector is the document that spells its alternates, or a step shows two
/// documents of one SHA-256.
pub fn vectors_are_kept()
    ensures { VectorsAreKept }
{}

/// A session that a format begins tells of the last vector of each key how many alternates it lists.
pub fn formats_count()
    ensures { FormatsCount }
{}

/// So does one that an opening begins.
pub fn openings_count()
    ensures { OpeningsCount }
{}

/// Each group of records leaves it so.
pub fn groups_count()
    ensures { GroupsCount }
{}

/// And so does each step.
pub fn steps_count()
    ensures { StepsCount }
{}

/// In each legal chronicle the last vector of a key, where it stands, lists as many alternates as are told
/// of it.
pub fn count_is_listed()
    ensures { CountIsListed }
{}

/// A request that nothing answers is told how many alternates the key has, where its last vector is live.
pub fn unanswered_is_counted()
    ensures { UnansweredIsCounted }
{}

/// The vector that a put is to have is a piece, where that of its own alternate alone is one.
pub fn merged_is_spelled()
    ensures { MergedIsSpelled }
{}

/// Exactly the pieces that the walk within the budget keeps are read.
pub fn kept_are_chosen()
    ensures { KeptAreChosen }
{}

/// What is due stands from the floor on, below the next one.
pub fn due_are_found()
    ensures { DueAreFound }
{}

/// A piece that begins at a place is the next of a walk.
pub fn walk_finds()
    ensures { WalkFinds }
{}

/// Where no live piece begins, a walk goes on.
pub fn walk_goes_on()
    ensures { WalkGoesOn }
{}

/// A flush that copies leaves places in order, lowers no floor, and leaves room for any piece.
pub fn flush_is_sound()
    ensures { FlushIsSound }
{}

/// Faults are new ones, and damage is that of bytes that the device gave.
pub fn front_is_backed()
    ensures { FrontIsBacked }
{}

/// So they are where the flush stops behind its reads.
pub fn stopped_is_backed()
    ensures { StoppedIsBacked }
{}

/// What was tried has outcomes, whatever the device gave.
pub fn outcomes_are_found()
    ensures { OutcomesAreFound }
{}

/// What has outcomes was tried.
pub fn outcomes_are_tried()
    ensures { OutcomesAreTried }
{}

/// What is due was tried where the device gave bytes for it.
pub fn given_are_tried()
    ensures { GivenAreTried }
{}

/// What is due has one list of outcomes on a faithful device.
pub fn outcomes_are_fixed()
    ensures { OutcomesAreFixed }
{}

/// A flush leaves vectors that list their alternates, or two documents of one SHA-256 are shown.
pub fn flush_tells()
    ensures { FlushTells }
{}

/// A flush that stops leaves them so.
pub fn stopped_tells()
    ensures { StoppedTells }
{}

/// A flush that stops leaves a sound tape, and the buffer as it was.
pub fn stopped_is_sound()
    ensures { StoppedIsSound }
{}

/// A pair is of a piece that is read for what is asked: a line that asks for none shows none, a lookup and a
/// reader show their own, and a flush shows what it comes to within its budget.
pub fn pairs_are_read()
    ensures none { NothingAskedReadsNone }
    ensures lookup { LookupReadsItsKey }
    ensures reader { ReaderReadsItsNext }
    ensures copied { CopiedIsDueAndFits }
{}

/// A piece stands where the opening of its session found it, unless something behind that moved it or took it away.
pub fn found_is_there()
    ensures { FoundIsThere }
{}

/// What an opening takes up lies soundly on the tape.
pub fn openings_are_sound()
    ensures { OpeningsAreSound }
{}

/// The vectors that an opening found list their alternates.
pub fn openings_tell()
    ensures { OpeningsTell }
{}
