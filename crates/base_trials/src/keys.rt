// What no clause of `tape_base` says: keys and places that were worked out by hand.
use crate::making::{small, with_segments};
use std::test::Fail;
use tape_base::{Key, PieceId, blocks_of, floor_of, lap_end, next_cursor, phase};

#[test]
fn the_url_abc_has_the_worked_key(rt: HostRuntime) -> Result<(), Fail> {
    let key = Key::of_url(b"abc");
    let bytes = [
        0xba, 0x78, 0x16, 0xbf, 0x8f, 0x01, 0xcf, 0xea, 0x41, 0x41, 0x40, 0xde, 0x5d, 0xae, 0x22,
        0x23,
    ];
    assert_eq!(rt; key.bytes(), bytes);
    let g = with_segments(4, 16)?;
    assert_eq!(rt;
        (key.segment(&g), key.bucket(&g), key.tag()),
        (2, 15, 0x141)
    );
    Ok(())
}

#[test]
fn a_fragment_has_the_worked_key(rt: HostRuntime) {
    // The SHA-256 of 16 zeros, 1 in 8 bytes and 2 in 4 bytes, low bytes first.
    let fragment = PieceId {
        first: Key::new([0; 16]),
        put: 1,
        index: 2,
    };
    let bytes = [
        0xdb, 0x26, 0x63, 0x89, 0x5e, 0xac, 0x06, 0x81, 0x84, 0x93, 0x59, 0x12, 0xba, 0x09, 0x6c,
        0x8b,
    ];
    assert_eq!(rt; Key::of_piece(fragment).bytes(), bytes);
}

#[test]
fn places_at_the_ends_of_laps(rt: HostRuntime) -> Result<(), Fail> {
    let g = small()?;
    // place, phase, end of its lap, floor of a buffer begun there
    let places = [
        (64, true, 128, 8),
        (127, true, 128, 71),
        (128, false, 192, 72),
        (192, true, 256, 136),
    ];
    for (place, odd, end, floor) in places {
        assert_eq!(rt; (phase(&g, place), lap_end(&g, place)), (odd, end));
        assert!(rt; g.content <= place);
        assert_eq!(rt; floor_of(&g, place), floor, "at {place}");
    }
    Ok(())
}

#[test]
fn a_cursor_goes_on_to_the_end_of_its_lap(rt: HostRuntime) -> Result<(), Fail> {
    let g = small()?;
    // cursor, filled blocks, next cursor
    for (cursor, filled, next) in [(64, 1, 65), (112, 8, 120), (120, 0, 120), (120, 1, 128)] {
        assert!(rt; filled <= g.agg);
        assert_eq!(rt; next_cursor(&g, cursor, filled), next, "from {cursor}");
    }
    Ok(())
}

#[test]
fn documents_take_whole_blocks(rt: HostRuntime) {
    for (length, blocks) in [(0, 1), (384, 1), (385, 2), (1 << 31, 4_194_305)] {
        assert_eq!(rt; blocks_of(length), blocks, "of {length} bytes");
    }
}
