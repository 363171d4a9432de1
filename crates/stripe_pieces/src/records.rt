// The records that the calls of a stripe push: one function for each kind, or for kinds that stand
// together.
ghost use Rattle.std.specs.Prelude.{◌≡◌, ◌+◌, ◌≤◌, [], ◌∷◌, length};
ghost use Rattle.cache_model.specs.Kept.{state_of, with_records};
ghost use Rattle.cache_model.specs.Legal.{answer_record, format_records};
ghost use Rattle.cache_model.specs.declared.record.Rec.TheVariants.{Aborted, Began, Committed, Damaged, Fault, Moved, Placed, ReadClosed, ReadOpened, Removed, Unsaved, WriteOpened};
ghost use Rattle.held_pieces.specs.Displaced.{displaced_of};
ghost use Rattle.piece_answers.specs.Place.{cut_record_of};
ghost use Rattle.stripe_pieces.specs.Pushes.{Pushes};

use alternate_vector::{Fields, Vector};
use cache_chronicle::Chronicle;
use cache_model::{NextAnswer, ReadAnswer, Rec};
use dir_table::Displaced;
use doc_header::Doc;
use tape_base::{Actor, Digest, Geometry, Key, PieceId, floor_of};

/// A session begins, and its first buffer.
pub fn formatted<C: Chronicle>(chronicle: &mut C, g: &Geometry)
    requires { 2 ≤ C.room chronicle.old }
    ensures { C.kept chronicle.new ≡ with_records (C.kept chronicle.old) (format_records g.now) }
{
    let geometry = *g;
    chronicle.push(Rec::Formatted { geometry });
    chronicle.push(Rec::Began {
        cursor: geometry.content,
        floor: floor_of(&geometry, geometry.content),
    });
}

/// A buffer begins.
pub fn began<C: Chronicle>(chronicle: &mut C, cursor: u64, floor: u64)
    requires { 1 ≤ C.room chronicle.old }
    ensures { Pushes C.Chronicle (Began cursor floor ∷ []) 1 chronicle.old chronicle.new }
{
    chronicle.push(Rec::Began { cursor, floor });
}

/// The device refused a call.
pub fn fault<C: Chronicle>(chronicle: &mut C, count: u64)
    requires { 1 ≤ C.room chronicle.old }
    ensures { Pushes C.Chronicle (Fault count ∷ []) 1 chronicle.old chronicle.new }
{
    chronicle.push(Rec::Fault { count });
}

/// A fragment was cut, of so many bytes with that digest; a vector is none.
pub fn cut<C: Chronicle>(chronicle: &mut C, id: PieceId, length: u32, digest: Digest)
    requires { 1 ≤ C.room chronicle.old }
    ensures { Pushes C.Chronicle (cut_record_of id length digest) 1 chronicle.old chronicle.new }
{
    if id.index != 0 {
        chronicle.push(Rec::Cut {
            put: id.put,
            index: id.index,
            length,
            digest,
        });
    }
}

/// The pieces that stood at these places were displaced.
pub fn displaced<C: Chronicle>(chronicle: &mut C, displaced: &Displaced)
    requires { length displaced.now.told.places ≤ C.room chronicle.old }
    ensures { let told = displaced.now.told in
        Pushes C.Chronicle (displaced_of (state_of (C.kept chronicle.old)) told)
        (length told.places) chronicle.old chronicle.new }
{
    for i in 0..displaced.len() {
        if let Some(piece) = chronicle.last_at(displaced.place(i)) {
            chronicle.push(Rec::Displaced {
                piece,
                segment: displaced.segment(),
                live: displaced.live(),
            });
        }
    }
}

/// A piece is placed, in so many blocks.
pub fn placed<C: Chronicle>(chronicle: &mut C, doc: &Doc, blocks: u32, digest: Digest)
    requires { 1 ≤ C.room chronicle.old }
    ensures { let d = doc.now in Pushes C.Chronicle (Placed d.id d.place blocks digest d.pin ∷ []) 1
        chronicle.old chronicle.new }
{
    chronicle.push(Rec::Placed {
        piece: doc.id,
        place: doc.place,
        blocks,
        digest,
        pin: doc.pin,
    });
}

/// Bytes that were read for a piece are not its own.
pub fn damaged<C: Chronicle>(
    chronicle: &mut C,
    piece: PieceId,
    place: u64,
    kept: Digest,
    found: Digest,
)
    requires { 1 ≤ C.room chronicle.old }
    ensures { Pushes C.Chronicle (Damaged piece place kept found ∷ []) 1
        chronicle.old chronicle.new }
{
    chronicle.push(Rec::Damaged {
        piece,
        place,
        kept,
        found,
    });
}

/// A piece that was to be copied ahead was not: it does not fit, or the device refused to give it.
pub fn unsaved<C: Chronicle>(chronicle: &mut C, piece: PieceId, place: u64, fault: bool)
    requires { 1 ≤ C.room chronicle.old }
    ensures { Pushes C.Chronicle (Unsaved piece place fault ∷ []) 1 chronicle.old chronicle.new }
{
    chronicle.push(Rec::Unsaved {
        piece,
        place,
        fault,
    });
}

/// A piece was copied ahead.
pub fn moved<C: Chronicle>(chronicle: &mut C, piece: PieceId, from: u64, place: u64, digest: Digest)
    requires { 1 ≤ C.room chronicle.old }
    ensures { Pushes C.Chronicle (Moved piece from place digest ∷ []) 1
        chronicle.old chronicle.new }
{
    chronicle.push(Rec::Moved {
        piece,
        from,
        place,
        digest,
    });
}

/// A put is complete, and its vector lists these alternates.
pub fn committed<C: Chronicle>(
    chronicle: &mut C,
    put: u64,
    key: Key,
    length: u64,
    alternates: Vector,
)
    requires { 1 ≤ C.room chronicle.old }
    ensures { Pushes C.Chronicle (Committed put key length alternates ∷ []) 1
        chronicle.old chronicle.new }
{
    chronicle.push(Rec::Committed {
        put,
        key,
        length,
        alternates,
    });
}

/// An object was removed.
pub fn removed<C: Chronicle>(chronicle: &mut C, put: u64, key: Key)
    requires { 1 ≤ C.room chronicle.old }
    ensures { Pushes C.Chronicle (Removed put key ∷ []) 1 chronicle.old chronicle.new }
{
    chronicle.push(Rec::Removed { put, key });
}

/// A writer opens.
pub fn write_opened<C: Chronicle>(
    chronicle: &mut C,
    actor: Actor,
    put: u64,
    key: Key,
    request: Fields,
    response: Fields,
    pin: u64,
)
    requires { 1 ≤ C.room chronicle.old }
    ensures { Pushes C.Chronicle (WriteOpened actor put key request response pin ∷ []) 1
        chronicle.old chronicle.new }
{
    chronicle.push(Rec::WriteOpened {
        actor,
        put,
        key,
        request,
        response,
        pin,
    });
}

/// A writer gives up.
pub fn aborted<C: Chronicle>(chronicle: &mut C, put: u64, key: Key)
    requires { 1 ≤ C.room chronicle.old }
    ensures { Pushes C.Chronicle (Aborted put key ∷ []) 1 chronicle.old chronicle.new }
{
    chronicle.push(Rec::Aborted { put, key });
}

/// A lookup was answered.
pub fn read_opened<C: Chronicle>(
    chronicle: &mut C,
    reader: u64,
    actor: Actor,
    key: Key,
    request: Fields,
    answer: ReadAnswer,
)
    requires { 1 ≤ C.room chronicle.old }
    ensures { Pushes C.Chronicle (ReadOpened reader actor key request answer ∷ []) 1
        chronicle.old chronicle.new }
{
    chronicle.push(Rec::ReadOpened {
        reader,
        actor,
        key,
        request,
        answer,
    });
}

/// A reader was answered.
pub fn answered<C: Chronicle>(chronicle: &mut C, reader: u64, answer: NextAnswer)
    requires { 1 ≤ C.room chronicle.old }
    ensures { Pushes C.Chronicle (answer_record reader answer ∷ []) 1 chronicle.old chronicle.new }
{
    chronicle.push(answer_record(reader, answer));
}

fn answer_record(reader: u64, answer: NextAnswer) -> Rec
    ensures { result ≡ answer_record reader answer }
{
    match answer {
        NextAnswer::Gave { index, length } => Rec::Gave {
            reader,
            index,
            length,
        },
        NextAnswer::Ended { length } => Rec::Ended { reader, length },
        NextAnswer::Waited { cut } => Rec::Waited { reader, cut },
        NextAnswer::Broke(cause) => Rec::Broke { reader, cause },
    }
}

/// A reader was closed.
pub fn read_closed<C: Chronicle>(chronicle: &mut C, reader: u64)
    requires { 1 ≤ C.room chronicle.old }
    ensures { Pushes C.Chronicle (ReadClosed reader ∷ []) 1 chronicle.old chronicle.new }
{
    chronicle.push(Rec::ReadClosed { reader });
}
