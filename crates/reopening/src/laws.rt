// Laws for proofs. These functions do nothing when they run.
ghost use Rattle.reopening.specs.Device.{AreasByBlock, FaultsByBlock, OneArea};
ghost use Rattle.reopening.specs.Faults.{FaultsOpenNothing};
ghost use Rattle.reopening.specs.Windows.{WindowsAreApart, CleanWindowsAreApart};
ghost use Rattle.reopening.specs.Alike.{AllEndByCursor, NewestWins, NewestWon, OpensAlike, OpensByOne, ShutIsNoCopy};
ghost use Rattle.reopening.specs.Lasting.{GuardedImagesOpen, GuardedOpenNow, LastsOn, LastsStill, OpeningsFollow, ReplacedOpens, RestIsGuarded};
ghost use Rattle.reopening.specs.Stages.{GuardsStay, GuardsWiden, NextIsNewest, RunIsNewest};
ghost use Rattle.reopening.specs.Found.{FoundStand, RecordedIsFound};
ghost use Rattle.reopening.specs.Kept.{DocumentsPass, RowsAreKept};
ghost use Rattle.reopening.specs.Named.{MarksAreTakenUp};
ghost use Rattle.reopening.specs.Given.{ImagesGive, OpeningsGivenBegin};
ghost use Rattle.reopening.specs.Heads.{FirstBlocksDecide, HeadsDecide, HeadsTellBlocks};
ghost use Rattle.reopening.specs.Places.{GroupDecides, PlacesSuffice};
ghost use Rattle.reopening.specs.ByName.{LatestApart, LengthsByName, ReplacedByName};
ghost use Rattle.reopening.specs.Begins.{OpeningsMayBegin};

/// What is written behind a sync spares the blocks that its copy names.
pub fn windows_are_apart()
    ensures written { WindowsAreApart }
    ensures clean { CleanWindowsAreApart }
{}

/// What a cut may leave opens as an image does whose gates, bodies and documents it cannot lose.
pub fn images_open_alike()
    ensures alike { OpensAlike }
    // So the cursor may be taken as the end.
    ensures cursor { AllEndByCursor }
{}

/// Rows that stand as their documents open as themselves.
pub fn rows_are_kept()
    ensures rows { RowsAreKept }
    ensures documents { DocumentsPass }
{}

/// So what opens is never answered by a fault.
pub fn faults_open_nothing()
    ensures { FaultsOpenNothing }
{}

/// What an image opens to may begin a session.
pub fn openings_may_begin()
    ensures { OpeningsMayBegin }
{}

/// The first block of a device and its size decide where a stripe lies.
pub fn areas_by_first_block()
    ensures areas { AreasByBlock }
    ensures faults { FaultsByBlock }
    ensures one { OneArea }
{}

/// What a copy opens to may begin a session, whatever documents a device gave for its places.
pub fn documents_may_be_given()
    ensures begin { OpeningsGivenBegin }
    ensures images { ImagesGive }
{}

/// The first block of a document decides whether the rest is read.
pub fn heads_decide()
    ensures none { HeadsDecide }
    ensures first { FirstBlocksDecide }
    ensures blocks { HeadsTellBlocks }
{}

/// The places of entries are all that an opening looks at, each by its own entries.
pub fn places_suffice()
    ensures places { PlacesSuffice }
    ensures group { GroupDecides }
{}

/// What an opening compares may be looked up.
pub fn pieces_are_kept_by_name()
    ensures replaced { ReplacedByName }
    ensures lengths { LengthsByName }
    ensures apart { LatestApart }
{}

/// The newest copy is that which is accepted while the other one does not count, and it alone decides.
pub fn one_copy_decides()
    ensures wins { NewestWins }
    ensures won { NewestWon }
    ensures shut { ShutIsNoCopy }
    ensures alike { OpensByOne }
{}

/// While copies are guarded, all that a cut may leave opens to one that may be found.
pub fn guarded_images_open()
    ensures opens { GuardedImagesOpen }
    ensures now { GuardedOpenNow }
    ensures rest { RestIsGuarded }
    ensures replaced { ReplacedOpens }
{}

/// Guards outlive calls that leave what they rest on, and pass to the next copy once its gate is open.
pub fn guards_pass_on()
    ensures stay { GuardsStay }
    ensures widen { GuardsWiden }
    ensures newest { NextIsNewest }
    ensures run { RunIsNewest }
{}

/// What lasts between two moments and on to a third lasts between the first and the last, and what then opens follows.
pub fn it_lasts_on()
    ensures on { LastsOn }
    ensures still { LastsStill }
    ensures follow { OpeningsFollow }
{}

/// What an image opens to stands on it, and what stands as the records have it is found so.
pub fn found_pieces_stand()
    ensures stand { FoundStand }
    ensures recorded { RecordedIsFound }
{}

/// An image whose newest copy tells a sync and names its pieces opens to that sync.
pub fn marks_are_taken_up()
    ensures { MarksAreTakenUp }
{}
