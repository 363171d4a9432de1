// Sentences of what is got, hit and followed, and of what a recorded end was answered. These functions do nothing when they run.
ghost use Rattle.headline.specs.Reads.{FollowWasPut, GotIsWhole, HitIsWhole};
ghost use Rattle.headline.specs.Answered.{CompletedWasAnswered, GivingUpWasAnswered, RemovalWasAnswered};

use line_laws::legal_is_kept;
use reader_laws::{follow_is_asked, got_is_put, hit_is_asked, length_is_told};

/// Each line answered `got` gave all that the writer of one put took, which an earlier line opened under the
/// asked key, with lines that fit the request, and which is the one that answers it.
pub fn got_is_whole()
    ensures { GotIsWhole }
{
    got_is_put();
    hit_is_asked();
    length_is_told();
}

/// Each line answered `hit` tells the length of what the writer of such a put took.
pub fn hit_is_whole()
    ensures { HitIsWhole }
{
    hit_is_asked();
    length_is_told();
}

/// What a line is answered that it follows was opened by an earlier line under the asked key, with lines that
/// fit the request.
pub fn follow_was_put()
    ensures { FollowWasPut }
{
    follow_is_asked();
}

/// A line that recorded that a put was completed asked for that, and was answered the put, with its bytes.
pub fn completed_was_answered()
    ensures { CompletedWasAnswered }
{
    legal_is_kept();
}

/// A line that recorded that a put was removed asked for that, and was answered the put.
pub fn removal_was_answered()
    ensures { RemovalWasAnswered }
{}

/// A line that recorded that a put was given up asked for that, or was refused.
pub fn giving_up_was_answered()
    ensures { GivingUpWasAnswered }
{
    legal_is_kept();
}
