// What the definitions of `write_cursor` and `evacuator` are meant to say: plans at the ends of a lap,
// and what is kept of three candidates.
ghost use Rattle.std.specs.Prelude.{◌≡◌};

use crate::making::small;
use evacuator::{Candidate, choose};
use std::test::Fail;
use tape_base::{Key, PieceId};
use write_cursor::{Cursor, Next};

#[test]
fn a_flush_plans_the_next_buffer(rt: HostRuntime) -> Result<(), Fail> {
    let g = small()?;
    let plans = [
        // From the last sync on, a buffer that ends at its reach needs no sync, and one behind it does.
        ((64, 64, 8), (72, false, false, 16)),
        ((72, 64, 1), (73, false, true, 17)),
        // The last buffer of a lap ends where the lap does; from any later cursor the next lap begins.
        ((112, 112, 8), (120, false, false, 64)),
        ((120, 120, 0), (120, false, false, 64)),
        ((120, 120, 1), (128, true, true, 72)),
    ];
    for ((cursor, synced, filled), (next, wrapped, must_sync, floor)) in plans {
        assert!(rt; g.content <= cursor && cursor < 1 << 62);
        assert!(rt; g.content <= synced && synced < 1 << 62);
        assert!(rt; filled <= g.agg);
        let want = Next {
            cursor: next,
            wrapped,
            must_sync,
            floor,
        };
        let planned = Cursor { cursor, synced }.plan(&g, filled);
        assert_eq!(rt; planned, want, "{filled} blocks from {cursor}");
    }
    Ok(())
}

#[test]
fn the_window_is_from_the_floor_to_the_end_of_the_buffer(rt: HostRuntime) -> Result<(), Fail> {
    let g = small()?;
    let at = Cursor {
        cursor: 128,
        synced: 120,
    };
    for (place, held) in [(71, false), (72, true), (135, true), (136, false)] {
        assert!(rt; g.content <= at.cursor);
        assert_eq!(rt; at.window_holds(&g, place), held, "at {place}");
    }
    Ok(())
}

// Fragments of one put, in rising place, with these blocks.
fn candidate(index: u32, place: u64, blocks: u32) -> Candidate
    ensures { result.place ≡ place }
{
    let id = PieceId {
        first: Key::new([0; 16]),
        put: 1,
        index,
    };
    Candidate { id, place, blocks }
}

#[test]
fn what_fits_is_kept_also_behind_what_does_not(rt: HostRuntime) {
    let rows = [
        // blocks of three candidates, the budget, and which are kept
        ([2, 2, 1], 4, [true, true, false]),
        ([3, 2, 1], 4, [true, false, true]),
        ([1, 1, 1], 0, [false, false, false]),
        ([u32::MAX, u32::MAX, 4], 4, [false, false, true]),
    ];
    for ([first, second, third], budget, want) in rows {
        let candidates = [
            candidate(1, 64, first),
            candidate(2, 65, second),
            candidate(3, 70, third),
        ];
        let mut kept = [false; 3];
        choose(&candidates, budget, &mut kept);
        assert_eq!(rt; kept, want, "{budget}");
    }
}
