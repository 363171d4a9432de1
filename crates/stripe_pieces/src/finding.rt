// How a piece is read by its name.
ghost use Rattle.std.specs.Prelude.{◌≡◌, ◌*◌, ◌≤◌, ◌^◌, Some, length, take};
ghost use Rattle.doc_header.specs.Reading.{payload_of};
ghost use Rattle.cache_model.specs.Contents.{AnyContents};
ghost use Rattle.piece_answers.specs.Find.{HasBlocks, HasRoomFor, IsJudged, IsToBeRead, judged_records};
ghost use Rattle.stripe_pieces.specs.Load.{CanLoad, Loads};

use crate::{Pieces, records};
use cache_chronicle::Chronicle;
use cache_model::Cause;
use cyclone::Cyclone;
use dir_table::Directory;
use doc_header::{document_digest, payload};
use edge_io::Failed;
use logged_disk::Disk;
use piece_answers::Found;
use tape_base::{BLOCK, Digest, HEADER, PieceId};

impl<D: Disk, R: Directory + Drop, C: Chronicle> Pieces<D, R, C> {
    ghost use Rattle.held_pieces.specs.Whereabouts.{live_place_of};
    ghost use Rattle.stripe_pieces.specs.Pieces.{ArePieces, seen_now, state_now};
    ghost use Rattle.stripe_pieces.specs.Calls.{AddsRecords, ArePrepared, FindsPiece};

    /// Reads a live piece and brings its payload to the front of `into`, which has room for its blocks,
    /// or tells why there is none. Bytes that are not its own are recorded, and its entry goes.
    pub fn find(&mut self, id: PieceId, into: &mut [u8]) -> Found
        requires ready { ArePrepared 1 0 self.old }
        requires into { HasRoomFor (state_now self.old) id into.old }
        ensures { FindsPiece id result into.new self.old self.new }
    {
        match self.whereabouts(id) {
            Some(place) => self.read(id, place, into),
            None => Found::Missing(self.chronicle.why_piece(id)),
        }
    }

    fn read(&mut self, id: PieceId, place: u64, into: &mut [u8]) -> Found
        requires ready { ArePrepared 1 0 self.old }
        requires into { HasRoomFor (state_now self.old) id into.old }
        requires live { live_place_of (state_now self.old) id ≡ Some place }
        ensures { FindsPiece id result into.new self.old self.new }
    {
        let (blocks, kept) = self.recorded(id, place);
        match load(&mut self.cyclone, place, blocks, into) {
            Ok(()) => self.judge(id, place, kept, blocks, into),
            Err(_) => {
                let count = self.cyclone.disk().faults();
                records::fault(&mut self.chronicle, count);
                Found::Missing(Cause::DeviceFault { count })
            }
        }
    }

    // The blocks and the digest of a live piece.
    fn recorded(&self, id: PieceId, place: u64) -> (u32, Digest)
        requires pieces { ArePieces self.now }
        requires live { live_place_of (state_now self.now) id ≡ Some place }
        ensures { IsToBeRead (state_now self.now) (seen_now self.now) id place result.0 result.1 }
    {
        let piece = self.chronicle.live_of(id).unwrap();
        (piece.blocks, piece.digest)
    }

    // What was read in front of `into` is the piece, or is damaged.
    fn judge(
        &mut self,
        id: PieceId,
        place: u64,
        kept: Digest,
        blocks: u32,
        into: &mut [u8],
    ) -> Found
        requires ready { ArePrepared 1 0 self.old }
        requires live { live_place_of (state_now self.old) id ≡ Some place }
        requires blocks { HasBlocks blocks into.old }
        ensures keeps { AddsRecords AnyContents (judged_records id place result) 1 0 self.old self.new }
        ensures judges { IsJudged place kept (take (512 * blocks) into.old) result into.new }
    {
        let size = blocks as usize * BLOCK;
        let found = document_digest(&into[..size]);
        if found == kept {
            Found::Found {
                length: bring_payload(into, size),
            }
        } else {
            self.damage(id, place, kept, found);
            Found::Missing(Cause::Damaged { place, kept, found })
        }
    }
}

// Reads blocks to the front of the bytes.
pub(crate) fn load<D: Disk, R: Directory + Drop>(
    cyclone: &mut Cyclone<D, R>,
    place: u64,
    blocks: u32,
    into: &mut [u8],
) -> Result<(), Failed>
    requires { CanLoad place blocks into.old cyclone.old }
    ensures { Loads place blocks into.old into.new result cyclone.old cyclone.new }
{
    cyclone.read(place, &mut into[..blocks as usize * BLOCK])
}

// Brings the payload of the document in front of the bytes to their front, and gives its length.
fn bring_payload(bytes: &mut [u8], size: usize) -> u32
    requires header { 128 ≤ size }
    requires within { size ≤ length bytes.old }
    requires few { size ≤ 2 ^ 31 }
    ensures length { result ≡ length (payload_of (take size bytes.old)) }
    ensures front { take result bytes.new ≡ payload_of (take size bytes.old) }
{
    let length = payload(&bytes[..size]).len();
    bytes.copy_within(HEADER..HEADER + length, 0);
    length as u32
}
