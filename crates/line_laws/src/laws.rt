// Laws of what stands along lines, and of a reader that stays open. These functions do nothing when they run.
ghost use Rattle.line_laws.specs.Laws.{FragmentsGiven, LegalIsKept, LegalIsOwn, OwnIsKeptAlong};

use model_laws::{
    formats_tell, legal_is_sound, numbers_follow, one_group, reader_is_closed, steps_are_sound,
    steps_tell,
};
use script_run::{formats_keep, formats_own, own_is_kept, steps_keep, steps_own};

/// Along the lines of each legal script what stands is what writers took, and each put that an actor
/// writes is open; or a line of it shows two documents of one SHA-256, by bytes that the device gave in its
/// turn.
pub fn legal_is_own()
    ensures { LegalIsOwn }
{
    numbers_follow();
    legal_is_sound();
    steps_are_sound();
    formats_tell();
    steps_tell();
    formats_keep();
    steps_keep();
    formats_own();
    steps_own();
}

/// And whatever a line shows, what stands is what writers took but for the documents of fragments.
pub fn legal_is_kept()
    ensures { LegalIsKept }
{
    numbers_follow();
    legal_is_sound();
    steps_are_sound();
    formats_keep();
    steps_keep();
}

/// The one follows from the other, along any lines.
pub fn own_is_kept_along()
    ensures { OwnIsKeptAlong }
{
    own_is_kept();
}

/// What lines give to a reader that stays open are, in order, the fragments that follow of what the writer
/// of its put took.
pub fn fragments_given()
    ensures { FragmentsGiven }
{
    one_group();
    numbers_follow();
    reader_is_closed();
}
