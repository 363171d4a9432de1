//! What the answers of a racing read are worth. These functions do nothing when they run.
ghost use Rattle.racing_read.specs.RaceLaws.{GivenIsDocument, RaceIsDecided, RacesSeeLaterFloors, PassedStaysPassed};

use stripe_lock::KeptState;

/// What is given is the document of the ticket, unless two byte strings collide.
pub fn given_is_document<T: KeptState>()
    ensures { GivenIsDocument T.KeptState }
{}

/// The bytes and the floor have one answer.
pub fn race_is_decided<T: KeptState>()
    ensures { RaceIsDecided T.KeptState }
{}

/// A floor from before the pass's last turn is never loaded.
pub fn races_see_later_floors<T: KeptState>()
    ensures { RacesSeeLaterFloors T.KeptState }
{}

/// A document that was passed stays below the floor up to the end.
pub fn passed_stays_passed<T: KeptState>()
    ensures { PassedStaysPassed T.KeptState }
{}
