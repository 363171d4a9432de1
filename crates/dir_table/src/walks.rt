// Walks over the rows of a spot, the newest first.
ghost use Rattle.std.specs.Prelude.{◌≡◌, ◌+◌, ◌-◌, ◌^◌, ◌≤◌, true, filter, min};
ghost use Rattle.dir_table.specs.Links.{IsLinked, stands_at, entries_of, rows_in};
ghost use Rattle.dir_table.specs.Candidates.{GivesFirst, Counts};
ghost use Rattle.dir_table.specs.Trail.{trail_of, is_on, places_left, count_left};

use crate::links::{Links, newest_of, node_of};
use crate::rows::{Spot, StoredRow, Walk};
use crate::window::Window;
use tape_base::Steps;

pub(crate) fn begin(links: &Links, spot: Spot) -> Walk
    requires { IsLinked links.now }
    ensures on { is_on result (entries_of links.now) ≡ true }
    ensures trail { trail_of result (entries_of links.now)
        ≡ filter (stands_at spot) (rows_in links.now) }
{
    Walk {
        spot,
        next: newest_of(links, spot),
    }
}

// The row at which a walk stands. The walk goes on to the next older one of the spot.
fn pass(links: &Links, walk: &mut Walk) -> Option<StoredRow>
    requires linked { IsLinked links.now }
    requires on { is_on walk.old (entries_of links.now) ≡ true }
    ensures on { is_on walk.new (entries_of links.now) ≡ true }
    ensures trail { let entries = entries_of links.now in
        GivesFirst (trail_of walk.old entries) result (trail_of walk.new entries) }
{
    let number = walk.next?;
    let node = node_of(links, number);
    walk.next = node.older;
    Some(node.row)
}

// Counts one step. The counter is below 2^64, so it does not fall.
fn count(steps: &mut Steps)
    ensures later { steps.old ≤ steps.new }
    ensures one { min (steps.old + 1) (2 ^ 64 - 1) ≤ steps.new }
    ensures most { steps.new ≤ steps.old + 1 }
{
    let _taken = steps.count();
    steps.tick();
}

/// The next place of a walk that is in range.
pub(crate) fn next_place(
    links: &Links,
    window: &Window,
    walk: &mut Walk,
    steps: &mut Steps,
) -> Option<u64>
    requires linked { IsLinked links.now }
    requires on { is_on walk.old (entries_of links.now) ≡ true }
    ensures on { is_on walk.new (entries_of links.now) ≡ true }
    ensures gives { let entries = entries_of links.now in
        let w = window.now in
        GivesFirst (places_left w walk.old entries) result (places_left w walk.new entries) }
    ensures steps { let entries = entries_of links.now in
        let before = count_left walk.old entries in
        Counts before (count_left walk.new entries) result steps.old steps.new }
{
    while let Some(row) = pass(links, walk) {
        count(steps);
        if window.in_range(row.place) {
            return Some(row.place);
        }
    }
    None
}
