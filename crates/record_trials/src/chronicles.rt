// What no clause of `cache_chronicle` says, and no script shows: what a live piece is told, and how many
// alternates a vector lists beside one that was displaced.
ghost use Rattle.std.specs.Prelude.{◌≤◌};
ghost use Rattle.cache_chronicle.specs.Weight.{weight_of};

use alternate_vector::Vector;
use cache_chronicle::{Cause, Chronicle, FullChronicle, Rec};
use std::alloc::AllocError;
use std::test::Fail;
use tape_base::{Digest, Geometry, Key, PieceId};

fn piece(put: u64, index: u32) -> PieceId {
    PieceId {
        first: Key::new([1; 16]),
        put,
        index,
    }
}

/// Makes room for a record and adds it.
fn add(chronicle: &mut FullChronicle, rec: Rec) -> Result<(), AllocError>
    requires { weight_of rec ≤ 1 }
{
    chronicle.reserve(1)?;
    chronicle.push(rec);
    Ok(())
}

fn place(chronicle: &mut FullChronicle, piece: PieceId, place: u64) -> Result<(), AllocError> {
    let placed = Rec::Placed {
        piece,
        place,
        blocks: 2,
        digest: Digest([9; 32]),
        pin: 5,
    };
    add(chronicle, placed)
}

// A session on 64 blocks of content, with a buffer of 8.
fn begin(chronicle: &mut FullChronicle) -> Result<(), Fail> {
    let Ok(geometry) = Geometry::check(1, 64, 64, 8, 16, 4, 7) else {
        return Err("refused".into());
    };
    add(chronicle, Rec::Formatted { geometry })?;
    let began = Rec::Began {
        cursor: 64,
        floor: 8,
    };
    Ok(add(chronicle, began)?)
}

#[test]
fn a_live_piece_is_told_as_it_was_placed(rt: HostRuntime) -> Result<(), Fail> {
    let mut chronicle = FullChronicle::new(rt.alloc());
    begin(&mut chronicle)?;
    let id = piece(1, 1);
    let cut = Rec::Cut {
        put: 1,
        index: 1,
        length: 700,
        digest: Digest([3; 32]),
    };
    add(&mut chronicle, cut)?;
    place(&mut chronicle, id, 64)?;
    assert_eq!(rt; chronicle.piece_at(64), Some(id));
    assert_eq!(rt; chronicle.piece_at(65), None);
    assert_eq!(rt; chronicle.digest_of(id), Some(Digest([9; 32])));
    assert_eq!(rt; chronicle.payload_of(id), Some(Digest([3; 32])));
    assert_eq!(rt; chronicle.size_of(id), Some(2));
    assert_eq!(rt; chronicle.pin_of(id), Some(5));
    assert_eq!(rt; chronicle.count(), 4);
    Ok(())
}

// The vector of the put lists the alternates that these bytes spell.
fn commit(
    rt: &impl AllocGlobal,
    chronicle: &mut FullChronicle,
    put: u64,
    spelled: &[u8],
) -> Result<(), Fail> {
    let Ok(alternates) = Vector::decode(rt.alloc(), spelled) else {
        return Err("the bytes are no vector".into());
    };
    let rec = Rec::Committed {
        put,
        key: Key::new([1; 16]),
        length: 0,
        alternates,
    };
    Ok(add(chronicle, rec)?)
}

#[test]
fn a_vector_counts_what_its_commit_told(rt: HostRuntime) -> Result<(), Fail> {
    // alternates without lines and fragments, of which each takes 32 bytes
    let mut one = [0; 36];
    one[0] = 1;
    let mut two = [0; 68];
    two[0] = 2;
    let mut chronicle = FullChronicle::new(rt.alloc());
    begin(&mut chronicle)?;
    place(&mut chronicle, piece(1, 0), 64)?;
    commit(&rt, &mut chronicle, 1, &one)?;
    assert_eq!(rt;
        chronicle.why(Key::new([1; 16])),
        Cause::NoMatch { count: 1 }
    );
    let displaced = Rec::Displaced {
        piece: piece(1, 0),
        segment: 0,
        live: 7,
    };
    add(&mut chronicle, displaced)?;
    let gone = Cause::Displaced {
        segment: 0,
        live: 7,
    };
    assert_eq!(rt; chronicle.why(Key::new([1; 16])), gone);
    place(&mut chronicle, piece(2, 0), 66)?;
    commit(&rt, &mut chronicle, 2, &two)?;
    assert_eq!(rt;
        chronicle.why(Key::new([1; 16])),
        Cause::NoMatch { count: 2 }
    );
    assert_eq!(rt; chronicle.vector_of(Key::new([1; 16])), Some(piece(2, 0)));
    Ok(())
}
