// Laws of the bytes that lines give. These functions do nothing when they run.
ghost use Rattle.std.specs.Prelude.{ℕ};
ghost use Rattle.step_laws.specs.PairLaws.{PairsAreBytes, PairsAreGiven};
ghost use Rattle.script_run.specs.Run.{Stream};
ghost use Rattle.script_run.specs.Own.{IsPlacedAs};
ghost use Rattle.script_run.specs.Laws.{AllIsFollowed, AllIsGiven, FlushOwns, FormatsKeep, FormatsOwn, GivenIsListed, HitIsPut, NoneIsUnlike, OwnIsAsListed, OwnIsKept, ReadIsOwn, ReadsKeep, ReadsOwn, StepsKeep, StepsOwn, StoppedOwns};

use step_laws::writer_is_ended;

/// Behind a format nothing was put.
pub fn formats_own()
    ensures { FormatsOwn }
{}

/// A flush that copies what is due leaves what stands to what writers took, or two documents of one SHA-256
/// are shown.
pub fn flush_owns()
    ensures { FlushOwns }
{}

/// A flush that stops leaves it so too.
pub fn stopped_owns()
    ensures { StoppedOwns }
{}

/// What stands belongs to what writers took, behind each line as before it, where each put that an actor
/// writes is open before it; or the line shows two documents of one SHA-256, by bytes that the device gave in
/// its turn.
pub fn steps_own()
    ensures { StepsOwn }
{
    // A whole put leaves no open put.
    writer_is_ended();
}

/// What stands belongs to what writers took, but for the documents of fragments.
pub fn own_is_kept()
    ensures { OwnIsKept }
{}

/// Both sides of a pair that a line may show are bytes; and of a piece that was written out none is shown where
/// the device gave nothing for it.
pub fn shown_are_given()
    ensures bytes { (streams : ℕ → Stream) → PairsAreBytes (IsPlacedAs streams) }
    ensures given { (streams : ℕ → Stream) → PairsAreGiven (IsPlacedAs streams) }
{}

/// So it is behind a format.
pub fn formats_keep()
    ensures { FormatsKeep }
{}

/// And behind each line as before it, whatever a copy shows, where nothing is displaced before it; and nothing
/// is displaced behind it.
pub fn steps_keep()
    ensures { StepsKeep }
{
    // A whole put leaves no open put.
    writer_is_ended();
}

/// The payload of a fragment that was read is that part of what the writer of its put took, or two
/// documents of one SHA-256 are shown.
pub fn read_is_own()
    ensures { ReadIsOwn }
{}

/// The payload of the fragment that a reader takes next, written out or in the buffer, has the listed
/// digest, or two documents of one SHA-256 are shown.
pub fn given_is_listed()
    ensures { GivenIsListed }
{}

/// The payload of the fragment that a reader takes next is, as the records tell it, the listed one; so none is
/// unlike that.
pub fn own_is_as_listed()
    ensures listed { OwnIsAsListed }
    ensures unlike { NoneIsUnlike }
{}

/// A reader that hit something and was given all that its table lists was given all that was put.
pub fn all_is_given()
    ensures { AllIsGiven }
{}

/// A reader that follows a writer and was given all that is cut was given all that was put, once the put
/// is complete.
pub fn all_is_followed()
    ensures { AllIsFollowed }
{}

/// What stands belongs to what writers took also behind each group of records that only reads.
pub fn reads_own()
    ensures { ReadsOwn }
{}

/// And but for the documents of fragments.
pub fn reads_keep()
    ensures { ReadsKeep }
{}

/// What is hit is a complete put of the asked key, whose lines fit the request.
pub fn hit_is_put()
    ensures { HitIsPut }
{}
