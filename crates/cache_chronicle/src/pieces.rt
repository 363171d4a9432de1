// The pieces that stand, and what a record makes of them.
ghost use Rattle.std.specs.Prelude.{◌≡◌, ◌+◌, ◌≤◌, ◌<◌, ◌∷◌, ◌++◌, [], List, map, option_map, option_to_list};
ghost use Rattle.std.specs.HashMap.{spare};
ghost use Rattle.cache_model.specs.State.{State, Row, moved_row, row_in, state_after, vector_piece, without, without_earlier};
ghost use Rattle.cache_chronicle.specs.Tables.{HasCut, HasRows, HasVectors, IsRowOfPiece, told_vector};
ghost use Rattle.cache_chronicle.specs.Weight.{weight_of};

use crate::opened::note_found_pieces;
use crate::payloads::{Payload, payload_placed};
use crate::vectors::{NotedVector, Vectors, last_of};
use cache_model::Rec;
use std::collections::HashMap;
use tape_base::{Digest, Key, PieceId};

/// What is kept of a piece that was placed and not taken out.
#[derive(Clone, Copy, Debug, PartialEq, Eq)]
pub struct KeptPiece {
    pub place: u64,
    pub blocks: u32,
    /// Of its document.
    pub digest: Digest,
    /// None of a vector.
    pub payload: Option<Payload>,
    pub pin: u64,
}

pub(crate) type Pieces = HashMap<PieceId, KeptPiece>;

pub(crate) fn vector_piece(key: Key, put: u64) -> PieceId
    ensures { result ≡ vector_piece key put }
{
    PieceId {
        first: key,
        put,
        index: 0,
    }
}

/// Notes what a record says of a piece.
pub(crate) fn note_piece(
    pieces: &mut Pieces,
    vectors: &Vectors,
    last_cut: Option<Payload>,
    rec: &Rec,
)
    requires { weight_of rec.now ≤ spare pieces.old }
    ensures has { (s : State) → HasVectors vectors.now s.vectors → HasCut last_cut s.last_cut
        → HasRows pieces.old s.rows → HasRows pieces.new (state_after s rec.now).rows }
    ensures spare { spare pieces.old ≤ spare pieces.new + weight_of rec.now }
{
    match *rec {
        Rec::Formatted { .. } => pieces.clear(),
        Rec::Opened { ref list, .. } => {
            pieces.clear();
            note_found_pieces(pieces, list);
        }
        Rec::Placed {
            piece,
            place,
            blocks,
            digest,
            pin,
        } => put(
            pieces,
            piece,
            KeptPiece {
                place,
                blocks,
                digest,
                payload: payload_placed(piece, last_cut),
                pin,
            },
        ),
        Rec::Moved {
            piece,
            place,
            digest,
            ..
        } => move_to(pieces, piece, place, digest),
        Rec::Displaced { piece, .. } | Rec::Damaged { piece, .. } => take_out(pieces, piece),
        Rec::Committed { put, key, .. } => {
            take_out_earlier(pieces, last_of(vectors, key), key, put);
        }
        Rec::Removed { put, key } => take_out(pieces, vector_piece(key, put)),
        _ => {}
    }
}

fn put(pieces: &mut Pieces, piece: PieceId, standing: KeptPiece)
    requires { 0 < spare pieces.old }
    ensures has { (rows : List Row) (row : Row) → IsRowOfPiece piece standing row → HasRows pieces.old rows
        → HasRows pieces.new (without piece rows ++ row ∷ []) }
    ensures spare { spare pieces.old ≤ spare pieces.new + 1 }
{
    let noted: Result<_, _> = pieces.insert(piece, standing);
    let _ = noted.unwrap();
}

// A piece that stands somewhere stands at another place.
fn move_to(pieces: &mut Pieces, piece: PieceId, place: u64, digest: Digest)
    requires { 0 < spare pieces.old }
    ensures has { (rows : List Row) → HasRows pieces.old rows
        → HasRows pieces.new (without piece rows ++ map (moved_row place digest) (option_to_list (row_in rows piece))) }
    ensures spare { spare pieces.old ≤ spare pieces.new + 1 }
{
    match pieces.get(&piece).copied() {
        Some(standing) => {
            let noted: Result<_, _> = pieces.insert(
                piece,
                KeptPiece {
                    place,
                    digest,
                    ..standing
                },
            );
            let _ = noted.unwrap();
        }
        None => {}
    }
}

fn take_out(pieces: &mut Pieces, piece: PieceId)
    ensures has { (rows : List Row) → HasRows pieces.old rows → HasRows pieces.new (without piece rows) }
    ensures spare { spare pieces.old ≤ spare pieces.new }
{
    let _ = pieces.remove(&piece);
}

// A key's earlier vector goes where another is committed.
fn take_out_earlier(pieces: &mut Pieces, earlier: Option<NotedVector>, key: Key, put: u64)
    ensures has { (rows : List Row) → HasRows pieces.old rows → HasRows pieces.new (without_earlier key put (option_map told_vector earlier) rows) }
    ensures spare { spare pieces.old ≤ spare pieces.new }
{
    if let Some(NotedVector::Complete(old)) = earlier
        && old != put
    {
        take_out(pieces, vector_piece(key, old));
    }
}
