// What no clause of `alternate_vector` says: that calls succeed with ample memory, and bytes that
// were spelled and refused by hand.
use alternate_vector::{FieldFault, Fields, Vector, VectorFault};
use std::test::Fail;

#[test]
fn a_line_is_refused_for_the_first_reason(rt: HostRuntime) {
    let long = [b'a'; 8193];
    let rows: [(&[u8], &[u8], Option<FieldFault>); 5] = [
        (b"X-1", &long[..8192], None),
        (b"a b", b"\n", Some(FieldFault::Name)),
        (&long[..257], b"v", Some(FieldFault::Name)),
        (b"a", b"\x7f", Some(FieldFault::Value)),
        (b"a", &long, Some(FieldFault::Value)),
    ];
    for (name, value, want) in rows {
        let refused = Fields::new(rt.alloc()).append(name, value).err();
        assert_eq!(rt; refused, want);
    }
}

// A vector of one alternate, whose request has the lines a:1 and b:2.
const TWO_LINES: [u8; 52] = [
    1, 0, 0, 0, 0, 0, 0, 0, 0, 0, 0, 0, 0, 0, 0, 0, 0, 0, 0, 0, 0, 0, 0, 0, 0, 0, 0, 0, 2, 0, 1, 0,
    1, 0, 0, 0, 97, 49, 1, 0, 1, 0, 0, 0, 98, 50, 0, 0, 0, 0, 0, 0,
];

#[test]
fn a_vector_is_read_and_spelled_behind_what_is_there(rt: HostRuntime) -> Result<(), Fail> {
    let Ok(vector) = Vector::decode(rt.alloc(), &TWO_LINES) else {
        return Err("the bytes are no vector".into());
    };
    if vector.len() == 0 {
        return Err("the vector is empty".into());
    }
    let mut bytes = Vec::from_slice(rt.alloc(), &[9])?;
    vector.encode(&mut bytes)?;
    assert!(rt; bytes.as_slice().starts_with(&[9, 1]));
    assert!(rt; bytes.as_slice().ends_with(&TWO_LINES));
    assert_eq!(rt; bytes.len(), 53);
    Ok(())
}

#[test]
fn the_first_fault_from_the_front_is_answered(rt: HostRuntime) {
    // the byte at this place is another one
    let rows = [
        (0, 0, VectorFault::Count),
        (0, 17, VectorFault::Count),
        (28, 129, VectorFault::Count),
        (36, b'A', VectorFault::Name),
        (44, b'`', VectorFault::Name),
        (37, b'\n', VectorFault::Value),
        (20, 1, VectorFault::Table),
        (30, 50, VectorFault::Short),
    ];
    for (place, byte, want) in rows {
        let mut bytes = TWO_LINES;
        if place < 52 {
            bytes[place] = byte;
        }
        let fault = Vector::decode(rt.alloc(), &bytes).err();
        assert_eq!(rt; fault, Some(want), "{place}");
    }
}
