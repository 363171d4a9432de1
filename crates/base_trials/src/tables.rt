// What no clause of `fragment_table` says: that calls succeed with ample memory, and a table that was
// spelled by hand.
use fragment_table::{FragTable, TableFault};
use std::test::Fail;

// Two rows, of 4 bytes and of 1 byte, with the digests 17 17 .. and 34 34 ..
const SPELLED: [u8; 76] = [
    2, 0, 0, 0, 4, 0, 0, 0, 17, 17, 17, 17, 17, 17, 17, 17, 17, 17, 17, 17, 17, 17, 17, 17, 17, 17,
    17, 17, 17, 17, 17, 17, 17, 17, 17, 17, 17, 17, 17, 17, 1, 0, 0, 0, 34, 34, 34, 34, 34, 34, 34,
    34, 34, 34, 34, 34, 34, 34, 34, 34, 34, 34, 34, 34, 34, 34, 34, 34, 34, 34, 34, 34, 34, 34, 34,
    34,
];

#[test]
fn a_table_is_spelled_behind_what_is_there(rt: HostRuntime) -> Result<(), Fail> {
    let mut table = FragTable::new(rt.alloc());
    table.reserve(2)?;
    table.push(4, [17; 32])?;
    table.push(1, [34; 32])?;
    assert_eq!(rt; table.fragment_at(4), Some((2, 0)));
    let mut bytes = Vec::from_slice(rt.alloc(), &[9])?;
    table.copy()?.encode(&mut bytes)?;
    assert_eq!(rt; bytes[0], 9);
    assert_eq!(rt; &bytes[1..], SPELLED.as_slice());
    Ok(())
}

#[test]
fn the_first_fault_is_answered(rt: HostRuntime) -> Result<(), Fail> {
    let mut empty_row = SPELLED;
    empty_row[40] = 0;
    let mut many = vec![in rt.alloc(); 1u8; 4 + 36 * 4097]?;
    many[2] = 0;
    many[3] = 0;
    many[1] = 16;
    let faults: [(&[u8], u64, Option<TableFault>); 6] = [
        (&SPELLED, 5, None),
        (&SPELLED[..3], 5, Some(TableFault::Short)),
        (&SPELLED[..75], 5, Some(TableFault::Short)),
        (&many, 5, Some(TableFault::Count)),
        (&SPELLED, 6, Some(TableFault::Sum)),
        (&empty_row, 4, Some(TableFault::Sum)),
    ];
    for (bytes, total, want) in faults {
        let fault = FragTable::decode(rt.alloc(), bytes, total).err();
        assert_eq!(rt; fault, want, "{total}");
    }
    Ok(())
}
