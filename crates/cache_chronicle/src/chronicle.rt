// What a chronicle answers.
ghost use Rattle.std.specs.Prelude.{◌≡◌, ◌+◌, ◌≤◌, ◌<◌, ◌==◌, ℕ, None, OnOk, option_map};
ghost use Rattle.std.specs.Map.{lookup};
ghost use Rattle.cache_model.specs.Kept.{Kept, count_of, state_of, with_record};
ghost use Rattle.cache_model.specs.State.{live_row_of};
ghost use Rattle.cache_model.specs.Verdict.{cause_of_miss, cause_of_piece, vector_of, piece_at, digest_of_piece, payload_of_piece, size_of, pin_of};
ghost use Rattle.cache_chronicle.specs.LivePieces.{kept_live_at, kept_piece};
ghost use Rattle.cache_chronicle.specs.Weight.{weight_of};

use crate::pieces::KeptPiece;
use cache_model::{Cause, Rec};
use std::alloc::AllocError;
use tape_base::{Digest, Key, PieceId};

/// Tells of the records of a session. No call but `reserve` answers that memory is wanting.
pub trait Chronicle {
    /// The values at its beginning, and the records since.
    ghost kept: { Self → Kept };

    /// How many records can be pushed without more memory, the pieces of an opening counted too.
    ghost room: { Self → ℕ };

    fn reserve(&mut self, more: usize) -> Result<(), AllocError>
        ensures kept { kept self.new ≡ kept self.old }
        ensures room { OnOk result (more ≤ room self.new) }
        ensures same { room self.old ≤ room self.new };

    fn push(&mut self, rec: Rec)
        requires { weight_of rec ≤ room self.old }
        ensures kept { kept self.new ≡ with_record (kept self.old) rec }
        ensures room { room self.old ≤ room self.new + weight_of rec };

    /// How many records there are.
    fn count(&self) -> u64
        ensures { result ≡ count_of (kept self.now) };

    /// Why a lookup of the key gives neither a stored alternate nor a writer to follow.
    fn why(&self, key: Key) -> Cause
        ensures { result ≡ cause_of_miss (state_of (kept self.now)) key };

    /// Why a piece is not live.
    fn why_piece(&self, id: PieceId) -> Cause
        requires { live_row_of (state_of (kept self.now)) id ≡ None }
        ensures { result ≡ cause_of_piece (state_of (kept self.now)) id };

    /// The key's last vector, where it was not removed.
    fn vector_of(&self, key: Key) -> Option<PieceId>
        ensures { result ≡ vector_of (state_of (kept self.now)) key };

    /// What is kept of a live piece.
    fn live_of(&self, id: PieceId) -> Option<KeptPiece>
        ensures { result ≡ option_map kept_piece (live_row_of (state_of (kept self.now)) id) };

    /// The piece that was placed at a place last, wherever it stands now.
    fn last_at(&self, place: u64) -> Option<PieceId>
        ensures { result ≡ lookup (λ p. p == place) (state_of (kept self.now)).places };

    /// How many puts were forgotten.
    fn dropped(&self) -> u64
        ensures { result ≡ (state_of (kept self.now)).dropped };

    /// The live piece that begins at a place, and what is kept of it.
    fn live_at(&self, place: u64) -> Option<(PieceId, KeptPiece)>
        ensures { result ≡ kept_live_at (state_of (kept self.now)) place }
    {
        let id = self.last_at(place)?;
        let piece = self.live_of(id)?;
        if piece.place == place {
            Some((id, piece))
        } else {
            None
        }
    }

    /// The live piece that begins at a place.
    fn piece_at(&self, place: u64) -> Option<PieceId>
        ensures { result ≡ piece_at (state_of (kept self.now)) place }
    {
        let (id, _) = self.live_at(place)?;
        Some(id)
    }

    /// The recorded digest of a live piece.
    fn digest_of(&self, id: PieceId) -> Option<Digest>
        ensures { result ≡ digest_of_piece (state_of (kept self.now)) id }
    {
        let piece = self.live_of(id)?;
        Some(piece.digest)
    }

    /// The digest of the payload of a live fragment.
    fn payload_of(&self, id: PieceId) -> Option<Digest>
        ensures { result ≡ payload_of_piece (state_of (kept self.now)) id }
    {
        let payload = self.live_of(id)?.payload?;
        Some(payload.digest)
    }

    /// The blocks of a live piece.
    fn size_of(&self, id: PieceId) -> Option<u32>
        ensures { result ≡ size_of (state_of (kept self.now)) id }
    {
        let piece = self.live_of(id)?;
        Some(piece.blocks)
    }

    /// The pin of a live piece.
    fn pin_of(&self, id: PieceId) -> Option<u64>
        ensures { result ≡ pin_of (state_of (kept self.now)) id }
    {
        let piece = self.live_of(id)?;
        Some(piece.pin)
    }
}
