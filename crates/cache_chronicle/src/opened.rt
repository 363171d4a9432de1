// What the tables have of the pieces that an opening found.
ghost use Rattle.std.specs.Prelude.{ℕ, ◌≡◌, ◌+◌, ◌≤◌, ◌<◌, ◌∷◌, ◌++◌, [], List, length, map, unwrap_or};
ghost use Rattle.std.specs.HashMap.{spare};
ghost use Rattle.std.specs.List.{flat_map};
ghost use Rattle.tape_base.specs.declared.keys.Key.{Key as Key'};
ghost use Rattle.tape_base.specs.declared.pieces.PieceId.{PieceId as PieceId'};
ghost use Rattle.cache_model.specs.State.{Row, LastVector as LastVector', count_of_found, place_of_found, row_of_found, vector_of_found};
ghost use Rattle.cache_chronicle.specs.Tables.{HasCounts, HasPlaces, HasRows, HasVectors};

use crate::counts::Counts;
use crate::losses::Places;
use crate::payloads::payload_of_found;
use crate::pieces::{KeptPiece, Pieces};
use crate::vectors::{NotedVector, Vectors};
use alternate_vector::Vector;
use cache_model::{FoundList, FoundRow};

/// Notes the pieces. Of two rows with one name the first counts.
pub(crate) fn note_found_pieces(pieces: &mut Pieces, list: &FoundList)
    requires empty { HasRows pieces.old [] }
    requires room { length list.now ≤ spare pieces.old }
    ensures has { HasRows pieces.new (map row_of_found list.now) }
    ensures spare { spare pieces.old ≤ spare pieces.new + length list.now }
{
    let mut left = list.len();
    while left > 0 {
        left -= 1;
        note_first_piece(pieces, list.get(left));
    }
}

fn note_first_piece(pieces: &mut Pieces, found: &FoundRow)
    requires { 0 < spare pieces.old }
    ensures has { (rows : List Row) → HasRows pieces.old rows → HasRows pieces.new (row_of_found found.now ∷ rows) }
    ensures spare { spare pieces.old ≤ spare pieces.new + 1 }
{
    let noted: Result<_, _> = pieces.insert(
        found.id,
        KeptPiece {
            place: found.place,
            blocks: found.blocks,
            digest: found.digest,
            payload: payload_of_found(found),
            pin: found.pin,
        },
    );
    let _ = noted.unwrap();
}

/// Notes which piece stands where. Of two at one place the first counts.
pub(crate) fn note_found_places(places: &mut Places, list: &FoundList)
    requires empty { HasPlaces places.old [] }
    requires room { length list.now ≤ spare places.old }
    ensures has { HasPlaces places.new (map place_of_found list.now) }
    ensures spare { spare places.old ≤ spare places.new + length list.now }
{
    let mut left = list.len();
    while left > 0 {
        left -= 1;
        note_first_place(places, list.get(left));
    }
}

fn note_first_place(places: &mut Places, found: &FoundRow)
    requires { 0 < spare places.old }
    ensures has { (rest : List (ℕ × PieceId')) → HasPlaces places.old rest → HasPlaces places.new (place_of_found found.now ∷ rest) }
    ensures spare { spare places.old ≤ spare places.new + 1 }
{
    let noted: Result<_, _> = places.insert(found.place, found.id);
    let _ = noted.unwrap();
}

/// Notes the vectors. Of two of one key the first counts.
pub(crate) fn note_found_vectors(vectors: &mut Vectors, list: &FoundList)
    requires empty { HasVectors vectors.old [] }
    requires room { length list.now ≤ spare vectors.old }
    ensures has { HasVectors vectors.new (flat_map vector_of_found list.now) }
    ensures spare { spare vectors.old ≤ spare vectors.new + length list.now }
{
    let mut left = list.len();
    while left > 0 {
        left -= 1;
        note_first_vector(vectors, list.get(left));
    }
}

fn note_first_vector(vectors: &mut Vectors, found: &FoundRow)
    requires { 0 < spare vectors.old }
    ensures has { (rest : List (Key' × LastVector')) → HasVectors vectors.old rest → HasVectors vectors.new (vector_of_found found.now ++ rest) }
    ensures spare { spare vectors.old ≤ spare vectors.new + 1 }
{
    if found.id.index == 0 {
        let noted: Result<_, _> = vectors.insert(
            found.id.first,
            NotedVector::Complete(found.id.put),
        );
        let _ = noted.unwrap();
    }
}

/// Notes how many alternates the vectors list. Of two with one name the first counts.
pub(crate) fn note_found_counts(counts: &mut Counts, list: &FoundList)
    requires empty { HasCounts counts.old [] }
    requires room { length list.now ≤ spare counts.old }
    ensures has { HasCounts counts.new (flat_map count_of_found list.now) }
    ensures spare { spare counts.old ≤ spare counts.new + length list.now }
{
    let mut left = list.len();
    while left > 0 {
        left -= 1;
        note_first_count(counts, list.get(left));
    }
}

fn note_first_count(counts: &mut Counts, found: &FoundRow)
    requires { 0 < spare counts.old }
    ensures has { (rest : List (PieceId' × ℕ)) → HasCounts counts.old rest → HasCounts counts.new (count_of_found found.now ++ rest) }
    ensures spare { spare counts.old ≤ spare counts.new + 1 }
{
    if found.id.index == 0 {
        let noted: Result<_, _> = counts.insert(found.id, count_of(&found.alternates));
        let _ = noted.unwrap();
    }
}

fn count_of(alternates: &Option<Vector>) -> u32
    ensures { result ≡ length (unwrap_or alternates.now []) }
{
    match alternates {
        Some(vector) => vector.len() as u32,
        None => 0,
    }
}
