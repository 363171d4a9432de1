// Why pieces were lost, where pieces were placed, which were not saved, and which writers gave up.
ghost use Rattle.std.specs.Prelude.{◌+◌, ◌≤◌, ◌<◌};
ghost use Rattle.std.specs.HashMap.{spare};
ghost use Rattle.std.specs.HashSet.{spare as set_spare};
ghost use Rattle.cache_model.specs.State.{State, state_after};
ghost use Rattle.cache_chronicle.specs.Tables.{HasAborts, HasLosses, HasPlaces, HasUnsaved};
ghost use Rattle.cache_chronicle.specs.Weight.{weight_of};

use crate::opened::note_found_places;
use cache_model::{Cause, Rec};
use std::collections::{HashMap, HashSet};
use tape_base::{Key, PieceId};

pub(crate) type Losses = HashMap<PieceId, Cause>;

pub(crate) type Places = HashMap<u64, PieceId>;

pub(crate) type Unsaved = HashSet<u64>;

pub(crate) type Aborts = HashMap<Key, u64>;

/// Notes why a record takes a piece out.
pub(crate) fn note_loss(losses: &mut Losses, rec: &Rec)
    requires { weight_of rec.now ≤ spare losses.old }
    ensures has { (s : State) → HasLosses losses.old s.lost → HasLosses losses.new (state_after s rec.now).lost }
    ensures spare { spare losses.old ≤ spare losses.new + weight_of rec.now }
{
    match *rec {
        Rec::Formatted { .. } | Rec::Opened { .. } => losses.clear(),
        Rec::Displaced {
            piece,
            segment,
            live,
        } => {
            let noted: Result<_, _> = losses.insert(piece, Cause::Displaced { segment, live });
            let _ = noted.unwrap();
        }
        Rec::Damaged {
            piece,
            place,
            kept,
            found,
        } => {
            let noted: Result<_, _> = losses.insert(piece, Cause::Damaged { place, kept, found });
            let _ = noted.unwrap();
        }
        _ => {}
    }
}

/// Notes which piece a record places where.
pub(crate) fn note_place(places: &mut Places, rec: &Rec)
    requires { weight_of rec.now ≤ spare places.old }
    ensures has { (s : State) → HasPlaces places.old s.places → HasPlaces places.new (state_after s rec.now).places }
    ensures spare { spare places.old ≤ spare places.new + weight_of rec.now }
{
    match *rec {
        Rec::Formatted { .. } => places.clear(),
        Rec::Opened { ref list, .. } => {
            places.clear();
            note_found_places(places, list);
        }
        Rec::Placed { piece, place, .. } | Rec::Moved { piece, place, .. } => {
            let noted: Result<_, _> = places.insert(place, piece);
            let _ = noted.unwrap();
        }
        _ => {}
    }
}

/// Notes the place of a piece that was to be copied ahead and was not.
pub(crate) fn note_unsaved(unsaved: &mut Unsaved, rec: &Rec)
    requires { weight_of rec.now ≤ set_spare unsaved.old }
    ensures has { (s : State) → HasUnsaved unsaved.old s.unsaved → HasUnsaved unsaved.new (state_after s rec.now).unsaved }
    ensures spare { set_spare unsaved.old ≤ set_spare unsaved.new + weight_of rec.now }
{
    match *rec {
        Rec::Formatted { .. } | Rec::Opened { .. } => unsaved.clear(),
        Rec::Unsaved { place, .. } => {
            let noted: Result<_, _> = unsaved.insert(place);
            let _ = noted.unwrap();
        }
        _ => {}
    }
}

/// Notes which writer gave up.
pub(crate) fn note_abort(aborts: &mut Aborts, rec: &Rec)
    requires { weight_of rec.now ≤ spare aborts.old }
    ensures has { (s : State) → HasAborts aborts.old s.aborts → HasAborts aborts.new (state_after s rec.now).aborts }
    ensures spare { spare aborts.old ≤ spare aborts.new + weight_of rec.now }
{
    match *rec {
        Rec::Formatted { .. } | Rec::Opened { .. } => aborts.clear(),
        Rec::Aborted { put, key } => {
            let noted: Result<_, _> = aborts.insert(key, put);
            let _ = noted.unwrap();
        }
        _ => {}
    }
}
