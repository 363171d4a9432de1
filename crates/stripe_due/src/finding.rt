// The walk over the places that the next floor passes.
ghost use Rattle.std.specs.Prelude.{ℕ, ◌≡◌, ◌≤◌, ◌<◌, ◌+◌, ◌++◌, ◌||◌, ◌∷◌, [], if◌then◌else◌, nat_lt, option_map, vec_capacity, vec_len};
ghost use Rattle.cache_model.specs.Due.{is_awaited};
ghost use Rattle.cache_model.specs.Kept.{state_of};
ghost use Rattle.cache_model.specs.State.{State, floor_next, floor_now};
ghost use Rattle.cache_model.specs.Tape.{IsSound};
ghost use Rattle.stripe_actors.specs.Actors.{AreActors};
ghost use Rattle.cache_model.specs.Due.{due_candidates, most_passed};
ghost use Rattle.stripe_due.specs.Walk.{candidates_from, is_left_to_reader, live_row_at, pinned};

use cache_chronicle::Chronicle;
use evacuator::Candidate;
use stripe_actors::Actors;
use tape_base::PieceId;

// How many fragments a put may have. An opening may find a piece of a higher index, which is due to
// no reader.
const MOST_FRAGMENTS: u32 = 4096;

/// Brings to `into` the live pieces from `floor` on, up to the next floor `next`, that are pinned past
/// `now` or that an open reader has still to be given, in rising place.
pub fn find_due<C: Chronicle>(
    chronicle: &C,
    actors: &Actors,
    floor: u64,
    next: u64,
    now: u64,
    into: &mut Vec<Candidate>,
)
    requires sound { IsSound (state_of (C.kept chronicle.now)) }
    requires actors { AreActors (state_of (C.kept chronicle.now)) actors.now }
    requires floor { floor ≡ floor_now (state_of (C.kept chronicle.now)) }
    requires next { next ≡ floor_next (state_of (C.kept chronicle.now)) }
    requires room { most_passed (state_of (C.kept chronicle.now)).geometry ≤ vec_capacity into.old }
    ensures due { into.new.items ≡ due_candidates (state_of (C.kept chronicle.now)) now }
    ensures room { vec_capacity into.old ≤ vec_capacity into.new }
{
    into.clear();
    let mut place = floor;
    'walk: while place < next {
        pass(chronicle, actors, place, now, into);
        place += 1;
    }
}

// Brings the piece that begins at a place to `into` where it is due. Pieces that an opening found may
// overlap, so the walk goes on at the next place.
fn pass<C: Chronicle>(
    chronicle: &C,
    actors: &Actors,
    place: u64,
    now: u64,
    into: &mut Vec<Candidate>,
)
    requires sound { IsSound (state_of (C.kept chronicle.now)) }
    requires actors { AreActors (state_of (C.kept chronicle.now)) actors.now }
    requires live { floor_now (state_of (C.kept chronicle.now)) ≤ place }
    requires room { vec_len into.old < vec_capacity into.old }
    ensures due { let s = state_of (C.kept chronicle.now) in (next : ℕ) → place < next
        → into.new.items ++ candidates_from s now (place + 1) next ≡ into.old.items ++ candidates_from s now place next }
    ensures few { vec_len into.new ≤ vec_len into.old + 1 }
    ensures room { vec_capacity into.old ≤ vec_capacity into.new }
{
    match piece_at(chronicle, place) {
        Some((piece, pin)) => {
            let due = is_due(actors, piece.id, pin, now);
            bring(piece, due, into);
        }
        None => {}
    }
}

// Brings a piece to `into` where it is due.
fn bring(piece: Candidate, due: bool, into: &mut Vec<Candidate>)
    requires { vec_len into.old < vec_capacity into.old }
    ensures brought { into.new.items ≡ (if due then into.old.items ++ piece ∷ [] else into.old.items) }
    ensures few { vec_len into.new ≤ vec_len into.old + 1 }
    ensures room { vec_capacity into.old ≤ vec_capacity into.new }
{
    if due {
        let pushed: Result<_, _> = into.push(piece);
        pushed.unwrap();
    }
}

// The live piece that begins at a place, and its pin.
pub(crate) fn piece_at<C: Chronicle>(chronicle: &C, place: u64) -> Option<(Candidate, u64)>
    ensures { result ≡ option_map pinned (live_row_at (state_of (C.kept chronicle.now)) place) }
{
    let (id, piece) = chronicle.live_at(place)?;
    let candidate = Candidate {
        id,
        place,
        blocks: piece.blocks,
    };
    Some((candidate, piece.pin))
}

// The piece is pinned past the moment, or a reader has still to be given it.
pub(crate) fn is_due(actors: &Actors, id: PieceId, pin: u64, now: u64) -> bool
    ensures { (s : State) → AreActors s actors.now → result ≡ (nat_lt now pin || is_awaited s id) }
{
    pin > now || is_awaited(actors, id)
}

// An open reader of the put has still to be given the piece.
pub(crate) fn is_awaited(actors: &Actors, id: PieceId) -> bool
    ensures { (s : State) → AreActors s actors.now → result ≡ is_awaited s id }
{
    is_left(id, actors.open_directory().readers_of(id.put))
}

// The piece is a fragment, of an index that a put may have, and the least index that a reader takes
// next does not stand behind it.
fn is_left(id: PieceId, least: Option<u32>) -> bool
    ensures { result ≡ is_left_to_reader id least }
{
    match least {
        Some(next) => id.index != 0 && id.index <= MOST_FRAGMENTS && next <= id.index,
        None => false,
    }
}
