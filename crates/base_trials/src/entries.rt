// What other tools expect of `dir_entry`: entries with their bytes, and classes of size.
use dir_entry::{Entry, decode, encode, size_class};

const EMPTY: Entry = Entry {
    offset: 0,
    big: 0,
    size: 0,
    tag: 0,
    phase: false,
    head: false,
    pinned: false,
    token: false,
    next: 0,
};

#[test]
fn each_field_has_its_bits(rt: HostRuntime) {
    let numbers = Entry {
        offset: 0x0504_0302_01,
        big: 2,
        size: 42,
        tag: 0xABC,
        next: 0x0706,
        ..EMPTY
    };
    let phase = Entry {
        phase: true,
        ..EMPTY
    };
    let head = Entry {
        head: true,
        ..EMPTY
    };
    let pinned = Entry {
        pinned: true,
        ..EMPTY
    };
    let token = Entry {
        token: true,
        ..EMPTY
    };
    let rows = [
        (numbers, [1, 2, 3, 170, 0xBC, 0x0A, 6, 7, 4, 5]),
        (phase, [0, 0, 0, 0, 0, 16, 0, 0, 0, 0]),
        (head, [0, 0, 0, 0, 0, 32, 0, 0, 0, 0]),
        (pinned, [0, 0, 0, 0, 0, 64, 0, 0, 0, 0]),
        (token, [0, 0, 0, 0, 0, 128, 0, 0, 0, 0]),
    ];
    for (entry, bytes) in rows {
        assert_eq!(rt; decode(&bytes), entry);
        assert_eq!(rt; encode(&decode(&bytes)), bytes);
    }
    assert_eq!(rt; encode(&decode(&[255; 10])), [255; 10]);
}

#[test]
fn a_size_class_is_the_least_that_holds_the_blocks(rt: HostRuntime) {
    let rows = [
        (1, Some((0, 0))),
        (64, Some((0, 63))),
        (65, Some((1, 8))),
        (513, Some((2, 8))),
        (4096, Some((2, 63))),
        (32768, Some((3, 63))),
        (32769, None),
    ];
    for (blocks, class) in rows {
        if blocks > 0 {
            assert_eq!(rt; size_class(blocks), class, "{blocks} blocks");
        }
    }
}
