// Laws of actors that are in step with the records. These functions do nothing when they run.
ghost use Rattle.stripe_actors.specs.ActorLaws.{AlikeStayInStep, OthersStayInStep, OpenIsWriting, WritersAreCounted, FollowedIsFound, KeptIsTold, WritingIsTold, FollowedIsTold, NextIsTold, PutWasGiven, ReaderWasGiven};

/// States with the same puts and readers are the same to the actors.
pub fn alike_stay_in_step()
    ensures { AlikeStayInStep }
{}

/// A record of pieces, of a removal, of a fault or of what a reader was told leaves the actors in step.
pub fn others_stay_in_step()
    ensures { OthersStayInStep }
{}

/// A put is open where the records say that it is being written.
pub fn open_is_writing()
    ensures { OpenIsWriting }
{}

/// As many writers are open as the records say.
pub fn writers_are_counted()
    ensures { WritersAreCounted }
{}

/// The writer that a lookup can follow is the one that the records say.
pub fn followed_is_found()
    ensures { FollowedIsFound }
{}

/// What is told of a put is what the records say of it.
pub fn kept_is_told()
    ensures { KeptIsTold }
{}

/// A put that is being written is told of.
pub fn writing_is_told()
    ensures { WritingIsTold }
{}

/// A put that a reader follows is told of, also once it ended.
pub fn followed_is_told()
    ensures { FollowedIsTold }
{}

/// The fragment that a reader of a writer takes next is the one that the records say.
pub fn next_is_told()
    ensures { NextIsTold }
{}

/// Each put of the records has a number that was given.
pub fn put_was_given()
    ensures { PutWasGiven }
{}

/// Each open reader of the records has a number that was given.
pub fn reader_was_given()
    ensures { ReaderWasGiven }
{}
