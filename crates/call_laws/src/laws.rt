// Laws of what calls did, in the subject's sentences. These functions do nothing when they run.
ghost use Rattle.call_laws.specs.Backed.{FaultsAreRefusals, LookupsAsk, RefusalsAreFaults};
ghost use Rattle.call_laws.specs.Laws.{CallsJoin, GrowsWithMore, NoneServes, RecordsServe, ServesBegins, ServesCarries, ServesEnds, ServesFails, ServesFailsAgain, ServesFirst, ServesGiven, ServesKeeps, ServesKnown, ServesNext, ServesOn, ServesPart, ServesShort, ServesStep, ServesStill, ServesThen, ServesWhereTold, ServesWider, ToldServes};

use crate::promise::Promise;

/// A call that does nothing leaves all that it was asked.
pub fn serves_still<P: Promise>()
    ensures { ServesStill P.placed P.known }
{}

/// A call that does some of what is asked leaves the rest.
pub fn serves_part<P: Promise>()
    ensures { ServesPart P.placed P.before P.known }
{}

/// Where a call falls short nothing comes of the rest, if that has no clean-up.
pub fn serves_short<P: Promise>()
    ensures { ServesShort P.placed P.before P.known }
{}

/// Wherever a call brings what it was asked, it has begun it, as where memory is wanting.
pub fn serves_begins<P: Promise>()
    ensures { ServesBegins P.placed P.before P.known }
{}

/// One call behind the other: all of what the first was asked is done, or what it leaves is what
/// the second is asked.
pub fn serves_then<P: Promise>()
    ensures then { ServesThen P.placed P.before P.between P.known }
    ensures first { ServesFirst P.placed P.before P.between P.known }
    ensures on { ServesOn P.placed P.before P.between P.known }
{}

/// Of all that was asked the next one is done, or falls short.
pub fn serves_next<P: Promise>()
    ensures next { ServesNext P.placed P.before P.between P.known }
    ensures ends { ServesEnds P.placed P.before P.between P.known }
{}

/// Behind a refusal the clean-ups of the rest are done, or fall short too.
pub fn serves_fails<P: Promise>()
    ensures fails { ServesFails P.placed P.before P.between P.known }
    ensures again { ServesFailsAgain P.placed P.before P.between P.known }
{}

/// What comes of one call and then of another comes of both.
pub fn calls_join<P: Promise>()
    ensures { CallsJoin P.first P.last P.both }
{}

/// A group of records that rests on no call of the device serves what is asked by it.
pub fn records_serve<P: Promise>()
    ensures records { RecordsServe P.placed P.before }
    ensures none { NoneServes P.placed P.known }
{}

/// What is known before a call and behind it may be said in other words, and carried over it.
pub fn serves_known<P: Promise>()
    ensures before { ServesGiven P.placed P.before P.known P.between }
    ensures behind { ServesKnown P.placed P.before P.known P.between }
    ensures carried { ServesCarries P.placed P.before P.known P.between P.more }
    ensures wider { ServesWider P.placed P.other_placed P.before P.known }
{}

/// What each group of records keeps is kept by a call.
pub fn serves_keeps<P: Promise>()
    ensures { ServesKeeps P.placed P.before P.known P.is_so }
{}

/// On a sound tape a call that starts from vectors that list their alternates leaves them so.
pub fn serves_told<P: Promise>()
    ensures told { ServesWhereTold P.known }
    ensures serves { ToldServes P.known }
{}

/// A call that leaves nothing of what it was asked is a step of its own.
pub fn serves_step<P: Promise>()
    ensures { ServesStep P.placed P.before P.known }
{}

/// What records make of some work they make of it with more asked behind it.
pub fn grows_with_more()
    ensures { GrowsWithMore }
{}

/// Each fault is a failed call, and each failed call a fault.
pub fn records_are_backed()
    ensures faults { FaultsAreRefusals }
    ensures refusals { RefusalsAreFaults }
{}

/// A lookup whose key has a live vector that was written out asked the device for it.
pub fn lookups_ask<P: Promise>()
    ensures { LookupsAsk P.placed P.before P.known }
{}
