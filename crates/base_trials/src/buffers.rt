// What no clause of `agg_buffer` says: worked places, and a copy that is read at its new place.
use crate::making::small;
use agg_buffer::{AggBuffer, PutAnswer};
use doc_header::{Doc, read_doc, write_doc};
use std::test::Fail;
use tape_base::{Digest, Key, PieceId};

fn fragment(place: u64) -> Doc {
    Doc {
        id: PieceId {
            first: Key::new([1; 16]),
            put: 1,
            index: 1,
        },
        place,
        generation: 7,
        pin: 0,
        start: 0,
    }
}

#[test]
fn pieces_stand_one_behind_another(rt: HostRuntime) -> Result<(), Fail> {
    let mut buffer = AggBuffer::new(rt.alloc(), &small()?, 64)?;
    assert_eq!(rt; buffer.put(&[0x61; 512]), PutAnswer::Placed(64));
    assert_eq!(rt; buffer.put(&[0x62; 1024]), PutAnswer::Placed(65));
    assert_eq!(rt; buffer.put(&[0x63; 3072]), PutAnswer::NoRoom { left: 5 });
    assert_eq!(rt; buffer.next_place(), 67);
    buffer.begin(128);
    assert_eq!(rt; buffer.put(&[0x62; 4096]), PutAnswer::Placed(128));
    Ok(())
}

#[test]
fn a_document_and_a_copy_are_spelled_behind_the_others(rt: HostRuntime) -> Result<(), Fail> {
    let mut buffer = AggBuffer::new(rt.alloc(), &small()?, 64)?;
    if buffer.room() < 2 {
        return Err("no room".into());
    }
    buffer.put_document(&fragment(64), b"abcd", &Digest::of(b"abcd"));
    let mut bytes = [0; 512];
    write_doc(&fragment(3), b"efgh", &Digest::of(b"efgh"), &mut bytes);
    if buffer.room() < 1 {
        return Err("no room".into());
    }
    buffer.put_moved(&bytes);
    let bytes = buffer.bytes();
    assert_eq!(rt; bytes.len(), 1024);
    assert_eq!(rt; &bytes[128..133], b"abcd\0".as_slice());
    let Ok(read) = read_doc(&bytes[512..], 7, 65) else {
        return Err("refused".into());
    };
    assert_eq!(rt; read.payload, b"efgh".as_slice());
    Ok(())
}
