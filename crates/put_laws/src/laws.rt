// Sentences of puts: what their lines recorded, and what their writers took. These functions do nothing when they run.
ghost use Rattle.headline.specs.Bodies.{ClosedPutStays, DataTookItsBytes, GotIsTheBody, PutTookItsBody};
ghost use Rattle.headline.specs.Answered.{AnsweredAbortWasRecorded, AnsweredPutWasCompleted, AnsweredRemovalWasRecorded};

use account_laws::got_is_whole;
use line_laws::legal_is_kept;
use model_laws::numbers_follow;
use reader_laws::put_is_measured;

/// A line that is answered a put recorded that it was completed, with so many bytes.
pub fn answered_put_was_completed()
    ensures { AnsweredPutWasCompleted }
{
    legal_is_kept();
}

/// A line that is answered that a put was removed recorded that.
pub fn answered_removal_was_recorded()
    ensures { AnsweredRemovalWasRecorded }
{}

/// A line that is answered that a put was given up recorded that.
pub fn answered_abort_was_recorded()
    ensures { AnsweredAbortWasRecorded }
{
    legal_is_kept();
}

/// Behind a `put` line that was answered its put, the writer of the put took that line's body, as long as its session
/// stands.
pub fn put_took_its_body()
    ensures { PutTookItsBody }
{
    legal_is_kept();
    put_is_measured();
    numbers_follow();
}

/// So what a later line of the session got of that put is the body of the `put` line.
pub fn got_is_the_body()
    ensures { GotIsTheBody }
{
    got_is_whole();
    put_took_its_body();
}

/// Behind a `close` line that was answered a put, what its writer had taken stays, as long as its session stands.
pub fn closed_put_stays()
    ensures { ClosedPutStays }
{
    legal_is_kept();
    put_is_measured();
    numbers_follow();
}

/// In a `data` line its writer took as many bytes as the line was answered, and with `took` all of them.
pub fn data_took_its_bytes()
    ensures { DataTookItsBytes }
{}
