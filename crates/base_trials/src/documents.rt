// What no clause of `doc_header` says: a document spelled out field by field, and a bad one for each fault.
use doc_header::{Doc, DocFault, document_digest, move_document, read_doc, write_doc};
use std::test::Fail;
use tape_base::{Digest, Key, PieceId};

const GENERATION: u64 = 0x3132_3334_3536_3738;

const PLACE: u64 = 0x2122_2324_2526_2728;

const MOVED: u64 = 0x6162_6364_6566_6768;

// The document of `doc` with the payload `abc`, up to its end: zeros follow. Behind the numbers stand
// the SHA-256 of the payload, and the first half of the SHA-256 of bytes 0 to 111, by hashlib.
const WORKED: [u8; 131] = [
    b'T', b'S', b'C', b'D', b'O', b'C', b'M', b'1', 1, 0, 0, 0, 3, 0, 0, 0, 0, 1, 2, 3, 4, 5, 6, 7,
    8, 9, 10, 11, 12, 13, 14, 15, 0x08, 0x07, 0x06, 0x05, 0x04, 0x03, 0x02, 0x01, 0x14, 0x13, 0x12,
    0x11, 1, 0, 0, 0, 0x28, 0x27, 0x26, 0x25, 0x24, 0x23, 0x22, 0x21, 0x38, 0x37, 0x36, 0x35, 0x34,
    0x33, 0x32, 0x31, 0x48, 0x47, 0x46, 0x45, 0x44, 0x43, 0x42, 0x41, 0x58, 0x57, 0x56, 0x55, 0x54,
    0x53, 0x52, 0x51, 0xba, 0x78, 0x16, 0xbf, 0x8f, 0x01, 0xcf, 0xea, 0x41, 0x41, 0x40, 0xde, 0x5d,
    0xae, 0x22, 0x23, 0xb0, 0x03, 0x61, 0xa3, 0x96, 0x17, 0x7a, 0x9c, 0xb4, 0x10, 0xff, 0x61, 0xf2,
    0x00, 0x15, 0xad, 0x23, 0x33, 0xd4, 0xa2, 0x6d, 0x47, 0x7a, 0x20, 0xca, 0x2f, 0x1e, 0x39, 0xfc,
    0x5a, 0x01, 0xa7, b'a', b'b', b'c',
];

// SHA-256 of bytes 0 to 130, by hashlib.
const WORKED_DIGEST: [u8; 32] = [
    0x26, 0x23, 0x00, 0xde, 0x7b, 0x27, 0x46, 0xb0, 0x35, 0x2a, 0xa1, 0x94, 0xc7, 0xa5, 0x57, 0xf7,
    0x5d, 0x57, 0x8e, 0x61, 0x83, 0x0c, 0x5e, 0x52, 0x51, 0xcf, 0x74, 0xfe, 0x42, 0xb2, 0x58, 0x65,
];

// The two digests where the document stands at `MOVED`, by hashlib.
const MOVED_CHECK: [u8; 16] = [
    0xcd, 0xa6, 0x35, 0x2f, 0x35, 0xac, 0x56, 0xb5, 0xfb, 0x45, 0x74, 0xbd, 0x4c, 0x1c, 0x35, 0xc3,
];

const MOVED_DIGEST: [u8; 32] = [
    0xd8, 0xd5, 0xa1, 0x6b, 0x01, 0xd5, 0xd3, 0xcf, 0x80, 0x9f, 0xa1, 0x3d, 0x68, 0x3e, 0x3e, 0xa4,
    0xa1, 0x6a, 0x61, 0x01, 0x0b, 0xee, 0x52, 0x48, 0xcc, 0x1d, 0x31, 0x7f, 0x30, 0x16, 0x73, 0x0f,
];

fn doc() -> Doc {
    Doc {
        id: PieceId {
            first: Key::new([0, 1, 2, 3, 4, 5, 6, 7, 8, 9, 10, 11, 12, 13, 14, 15]),
            put: 0x0102_0304_0506_0708,
            index: 0x1112_1314,
        },
        place: PLACE,
        generation: GENERATION,
        pin: 0x4142_4344_4546_4748,
        start: 0x5152_5354_5556_5758,
    }
}

#[test]
fn the_worked_document_is_written_over_every_byte(rt: HostRuntime) {
    let mut bytes = [0xff; 512];
    write_doc(&doc(), b"abc", &Digest::of(b"abc"), &mut bytes);
    assert_eq!(rt; &bytes[..131], WORKED.as_slice());
    assert_eq!(rt; &bytes[131..], [0; 381].as_slice());
    assert_eq!(rt; document_digest(&bytes), Digest(WORKED_DIGEST));
}

#[test]
fn a_moved_document_is_read_at_its_new_place(rt: HostRuntime) -> Result<(), Fail> {
    let mut bytes = [0; 512];
    write_doc(&doc(), b"abc", &Digest::of(b"abc"), &mut bytes);
    move_document(&mut bytes, MOVED);
    assert_eq!(rt; &bytes[48..56], b"hgfedcba".as_slice());
    assert_eq!(rt; &bytes[112..128], MOVED_CHECK.as_slice());
    assert_eq!(rt; document_digest(&bytes), Digest(MOVED_DIGEST));
    let Ok(read) = read_doc(&bytes, GENERATION, MOVED) else {
        return Err("refused".into());
    };
    assert_eq!(rt; read.payload, b"abc".as_slice());
    Ok(())
}

// How many bytes of the worked document are read, of which one may be another, and as which it is read.
#[derive(Clone, Copy)]
struct Reading {
    count: usize,
    at: usize,
    byte: u8,
    generation: u64,
    place: u64,
}

const WHOLE: Reading = Reading {
    count: 512,
    at: 131,
    byte: 1,
    generation: GENERATION,
    place: PLACE,
};

fn fault_of(reading: Reading) -> Option<DocFault> {
    let mut bytes = [0; 512];
    write_doc(&doc(), b"abc", &Digest::of(b"abc"), &mut bytes);
    if reading.at >= 512 || reading.count > 512 {
        return None;
    }
    bytes[reading.at] = reading.byte;
    let front = &bytes[..reading.count];
    read_doc(front, reading.generation, reading.place).err()
}

#[test]
fn each_byte_has_its_fault(rt: HostRuntime) {
    let rows = [
        (0, DocFault::Magic),
        (7, DocFault::Magic),
        (8, DocFault::Version),
        (11, DocFault::Version),
        (13, DocFault::Length),
        (44, DocFault::Length),
        (12, DocFault::HeaderCheck),
        (16, DocFault::HeaderCheck),
        (80, DocFault::HeaderCheck),
        (127, DocFault::HeaderCheck),
    ];
    for (at, fault) in rows {
        let other = Reading {
            at,
            byte: 2,
            ..WHOLE
        };
        assert_eq!(rt; fault_of(other), Some(fault), "byte {at}");
    }
}

#[test]
fn fewer_bytes_and_another_place_have_their_faults(rt: HostRuntime) {
    let generation = DocFault::Generation { found: GENERATION };
    let place = DocFault::Place { found: PLACE };
    // bytes, generation and place, and the fault
    let rows = [
        (512, GENERATION, PLACE, None),
        (127, GENERATION, PLACE, Some(DocFault::Short)),
        (511, GENERATION, PLACE, Some(DocFault::Length)),
        (512, 1, 2, Some(generation)),
        (512, GENERATION, 2, Some(place)),
    ];
    for (count, generation, place, fault) in rows {
        let other = Reading {
            count,
            generation,
            place,
            ..WHOLE
        };
        assert_eq!(rt; fault_of(other), fault, "{count} bytes");
    }
}

#[test]
fn another_payload_has_both_digests(rt: HostRuntime) {
    // The payload is `abd`.
    let other = Reading {
        at: 130,
        byte: b'd',
        ..WHOLE
    };
    let fault = DocFault::Digest {
        kept: Digest::of(b"abc"),
        found: Digest::of(b"abd"),
    };
    assert_eq!(rt; fault_of(other), Some(fault));
}
