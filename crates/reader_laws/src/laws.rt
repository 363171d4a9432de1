// Laws of all that a reader is given. These functions do nothing when they run.
ghost use Rattle.line_laws.specs.Actors.{ReaderIsOpened};
ghost use Rattle.line_laws.specs.Laws.{AllGiven, DamageIsGiven, EndIsAll, FirstGiven, FollowIsAsked, GotIsPut, HitIsAsked, HitOpens, LengthIsTold, OpensFirst, PutIsMeasured};

use model_laws::{
    legal_is_sound, nothing_asked, numbers_follow, one_group, reader_is_closed, steps_are_sound,
};
use script_run::{formats_keep, hit_is_put, own_is_as_listed, reads_keep, steps_keep};

/// A reader that a line opens is at its first fragment.
pub fn opens_first()
    ensures { OpensFirst }
{
    one_group();
    nothing_asked();
}

/// Where the reader is then answered the end, they are all that follow.
pub fn end_is_all()
    ensures { EndIsAll }
{
    one_group();
    numbers_follow();
    reader_is_closed();
}

/// In each legal script all that lines give to a reader that a line opened are the first fragments of what
/// the writer of its put took.
pub fn first_given()
    ensures { FirstGiven }
{
    one_group();
    nothing_asked();
    numbers_follow();
    reader_is_closed();
    legal_is_sound();
    steps_are_sound();
    formats_keep();
    steps_keep();
}

/// And where the reader is then answered the end, they are all of it.
pub fn all_given()
    ensures { AllGiven }
{
    one_group();
    nothing_asked();
    numbers_follow();
    reader_is_closed();
    legal_is_sound();
    steps_are_sound();
    formats_keep();
    steps_keep();
}

/// Behind each legal script what a line is answered that it hit was put under the asked key by an earlier line
/// of the session, by a put whose lines fit the request.
pub fn hit_is_asked()
    ensures { HitIsAsked }
{
    numbers_follow();
    legal_is_sound();
    steps_are_sound();
    formats_keep();
    steps_keep();
    hit_is_put();
}

/// And so was what a line is answered that its reader follows.
pub fn follow_is_asked()
    ensures { FollowIsAsked }
{}

/// The reader that opens with a hit reads that put.
pub fn hit_opens()
    ensures { HitOpens }
{
    one_group();
}

/// All that a whole read gives is what the put's writer took.
pub fn got_is_put()
    ensures { GotIsPut }
{}

/// Behind each legal script the length that is told of what a line hits is that of all that the put's writer
/// took.
pub fn length_is_told()
    ensures { LengthIsTold }
{
    one_group();
    numbers_follow();
    legal_is_sound();
    steps_are_sound();
    formats_keep();
    steps_keep();
}

/// And the length that is told of a put which completes is that of all that its writer took, and its fragments
/// are the fewest that have room for that.
pub fn put_is_measured()
    ensures { PutIsMeasured }
{
    numbers_follow();
    legal_is_sound();
    steps_are_sound();
    formats_keep();
    steps_keep();
}

/// Behind each legal script the reader that an actor has was opened by a line of that actor in the session, and all
/// that it was given since the lines of that actor were given.
pub fn reader_is_opened()
    ensures { ReaderIsOpened }
{
    one_group();
    numbers_follow();
    legal_is_sound();
    steps_are_sound();
    formats_keep();
    steps_keep();
    hit_is_put();
}

/// Behind each legal script a piece is told as damaged only where the device gave, in that line, a document of
/// another digest than the one that was kept.
pub fn damage_is_given()
    ensures { DamageIsGiven }
{
    numbers_follow();
    legal_is_sound();
    steps_are_sound();
    formats_keep();
    steps_keep();
    reads_keep();
    own_is_as_listed();
}
