// The payloads of fragments: what was cut last, and what of it a piece has.
ghost use Rattle.std.specs.Prelude.{◌≡◌, option_map};
ghost use Rattle.cache_model.specs.State.{State, payload_of_found, payload_placed, state_after};
ghost use Rattle.cache_chronicle.specs.LivePieces.{kept_payload};
ghost use Rattle.cache_chronicle.specs.Tables.{HasCut};

use cache_model::{FoundRow, Rec};
use tape_base::{Digest, PieceId};

/// The bytes of a fragment's payload, and their digest.
#[derive(Clone, Copy, Debug, PartialEq, Eq)]
pub struct Payload {
    pub length: u32,
    pub digest: Digest,
}

/// The payload of the fragment that was cut last, behind one more record.
pub(crate) fn cut_after(last_cut: Option<Payload>, rec: &Rec) -> Option<Payload>
    ensures { (s : State) → HasCut last_cut s.last_cut → HasCut result (state_after s rec.now).last_cut }
{
    match *rec {
        Rec::Formatted { .. } | Rec::Opened { .. } => None,
        Rec::Cut { length, digest, .. } => Some(Payload { length, digest }),
        _ => last_cut,
    }
}

/// The payload of a piece that is placed: of a fragment that of what was cut last.
pub(crate) fn payload_placed(piece: PieceId, last_cut: Option<Payload>) -> Option<Payload>
    ensures { (s : State) → HasCut last_cut s.last_cut → result ≡ option_map kept_payload (payload_placed s piece) }
{
    if piece.index == 0 { None } else { last_cut }
}

/// The payload of a piece that an opening found.
pub(crate) fn payload_of_found(found: &FoundRow) -> Option<Payload>
    ensures { result ≡ option_map kept_payload (payload_of_found found.now) }
{
    if found.id.index == 0 {
        None
    } else {
        Some(Payload {
            length: found.length,
            digest: found.payload,
        })
    }
}
