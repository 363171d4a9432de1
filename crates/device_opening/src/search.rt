// What stands at the places of elements, by reads of the tape.
ghost use Rattle.std.specs.Prelude.{◌≡◌, ◌≤◌, ◌<◌, ◌+◌, ◌-◌, ◌*◌, ◌^◌, ◌++◌, [], length, take, drop, IfErr, IfOk, OnOk};
ghost use Rattle.std.specs.List.{cons_option};
ghost use Rattle.stripe_header.specs.Layout.{block_of_place, device_blocks};
ghost use Rattle.reopening.specs.Tests.{standing_at, standing_from};
ghost use Rattle.device_reads.specs.Reads.{Fails, Reads};
ghost use Rattle.device_opening.specs.Tape.{Ascend, IsStretch, Shows, StandBelow, StandFrom, end_of_stretch, end_of_window};

use crate::head::blocks_behind;
use crate::stretch::Stretch;
use crate::window::Window;
use cache_model::FoundRow;
use device_reads::ReadFault;
use dir_table::StoredRow;
use logged_disk::Disk;
use reopening::judged;
use std::alloc::{AllocError, Global};

/// How far the search through a stretch is.
#[derive(Debug, Drop)]
pub(crate) struct Search {
    pub window: Window,
    pub found: Vec<FoundRow>,
    /// The least place that may come.
    pub next: u64,
}

// How many of the first elements stand below a place.
fn count_below(rows: &[StoredRow], place: u64) -> usize
    requires ascend { Ascend 0 rows.now }
    ensures within { result ≤ length rows.now }
    ensures below { StandBelow place (take result rows.now) }
    ensures above { StandFrom place (drop result rows.now) }
{
    let mut count = 0;
    while count < rows.len() && rows[count].place < place {
        count += 1;
    }
    count
}

/// Those below a place, and the others.
pub(crate) fn split_at_place(rows: &[StoredRow], place: u64) -> (&[StoredRow], &[StoredRow])
    requires ascend { Ascend 0 rows.now }
    ensures all { rows.now ≡ result.0.now ++ result.1.now }
    ensures below { StandBelow place result.0.now }
    ensures above { StandFrom place result.1.now }
    ensures front { Ascend 0 result.0.now }
    ensures back { Ascend 0 result.1.now }
{
    rows.split_at(count_below(rows, place))
}

// What stands at a place with these elements.
fn read_place<D: Disk>(
    alloc: Global,
    disk: &mut D,
    stretch: &Stretch,
    window: &mut Window,
    group: &[StoredRow],
    place: u64,
) -> Result<Option<FoundRow>, ReadFault>
    requires stretch { IsStretch stretch.now }
    requires room { device_blocks stretch.now.area ≤ (D.state disk.old).size }
    requires cursor { stretch.now.told.cursor < 2 ^ 62 }
    requires place { (stretch.now.low ≤ place) × (place < stretch.now.high) }
    requires window { (window.old.first ≤ block_of_place stretch.now.area place) × (end_of_window window.old ≤ end_of_stretch stretch.now) }
    ensures window { OnOk result ((window.new.first ≤ block_of_place stretch.now.area place) × (end_of_window window.new ≤ end_of_stretch stretch.now)) }
    ensures standing { IfOk result (λ s. Reads (end_of_window window.old) (end_of_window window.new) 2 (D.state disk.old) (D.state disk.new)
        (λ c. Shows window.old c → Shows window.new c × (s ≡ standing_at stretch.now.area stretch.now.told group.now c place))) }
    ensures unrefused { OnOk result ((D.state disk.new).faults ≡ (D.state disk.old).faults) }
    ensures fails { IfErr result (Fails (end_of_window window.old) (end_of_stretch stretch.now) 2 (D.state disk.old) (D.state disk.new)) }
{
    let area = &stretch.area;
    let told = &stretch.told;
    let limit = stretch.end();
    let at = area.block_of(place);
    window.cover(disk, at, 1, limit)?;
    let head = window.blocks(at, 1);
    let Some(blocks) = blocks_behind(&area.geometry, told.cursor, place, head) else {
        return Ok(None);
    };
    window.cover(disk, at, blocks, limit)?;
    let bytes = window.blocks(at, blocks);
    Ok(judged(alloc, &area.geometry, told, group, place, bytes)?)
}

// Adds what stands, if it does.
fn add(all: &mut Vec<FoundRow>, standing: Option<FoundRow>) -> Result<(), AllocError>
    ensures { OnOk result (all.new.items ≡ all.old.items ++ cons_option standing []) }
{
    match standing {
        Some(standing) => {
            all.push(standing)?;
            Ok(())
        }
        None => Ok(()),
    }
}

impl Search {
    ghost use Rattle.device_opening.specs.Tape.{IsSearch};

    fn new(alloc: Global, stretch: &Stretch) -> Search
        ensures window { (result.window.first ≡ stretch.now.first) × (result.window.bytes.items ≡ []) }
        ensures found { result.found.items ≡ [] }
        ensures next { result.next ≡ stretch.now.low }
    {
        Search {
            window: Window::new(alloc, stretch.first),
            found: Vec::new(alloc),
            next: stretch.low,
        }
    }

    // Looks at the next place, which has these elements.
    fn look<D: Disk>(
        &mut self,
        alloc: Global,
        disk: &mut D,
        stretch: &Stretch,
        group: &[StoredRow],
        place: u64,
    ) -> Result<(), ReadFault>
        requires stretch { IsStretch stretch.now }
        requires room { device_blocks stretch.now.area ≤ (D.state disk.old).size }
        requires cursor { stretch.now.told.cursor < 2 ^ 62 }
        requires search { IsSearch stretch.now self.old }
        requires place { (self.old.next ≤ place) × (place < stretch.now.high) }
        ensures search { OnOk result (IsSearch stretch.now self.new) }
        ensures next { OnOk result (self.new.next ≡ place + 1) }
        ensures looked { OnOk result (Reads (end_of_window self.old.window) (end_of_window self.new.window) 2 (D.state disk.old) (D.state disk.new)
            (λ c. Shows self.old.window c → Shows self.new.window c
            × (self.new.found.items ≡ self.old.found.items ++ cons_option (standing_at stretch.now.area stretch.now.told group.now c place) []))) }
        ensures unrefused { OnOk result ((D.state disk.new).faults ≡ (D.state disk.old).faults) }
        ensures fails { IfErr result (Fails (end_of_window self.old.window) (end_of_stretch stretch.now) 2 (D.state disk.old) (D.state disk.new)) }
    {
        let standing = read_place(alloc, disk, stretch, &mut self.window, group, place)?;
        add(&mut self.found, standing)?;
        self.next = place + 1;
        Ok(())
    }
}

/// What stands at the places of a stretch.
pub(crate) fn read_stretch<D: Disk>(
    alloc: Global,
    disk: &mut D,
    stretch: &Stretch,
    rows: &[StoredRow],
) -> Result<Vec<FoundRow>, ReadFault>
    requires stretch { IsStretch stretch.now }
    requires room { device_blocks stretch.now.area ≤ (D.state disk.old).size }
    requires cursor { stretch.now.told.cursor < 2 ^ 62 }
    requires ascend { Ascend 0 rows.now }
    ensures standing { IfOk result (λ all. let s = stretch.now in
        Reads s.first (end_of_stretch s) (2 * length rows.now) (D.state disk.old) (D.state disk.new)
        (λ c. all.items ≡ standing_from s.area s.told rows.now c s.low (s.high - s.low))) }
    ensures unrefused { OnOk result ((D.state disk.new).faults ≡ (D.state disk.old).faults) }
    ensures fails { IfErr result (let s = stretch.now in
        Fails s.first (end_of_stretch s) (2 * length rows.now) (D.state disk.old) (D.state disk.new)) }
{
    let mut search = Search::new(alloc, stretch);
    let mut rest = rows;
    'each: while let Some(row) = rest.first() {
        let place = row.place;
        if place >= stretch.high {
            break;
        }
        let (group, behind) = split_at_place(rest, place + 1);
        if place >= search.next {
            search.look(alloc, disk, stretch, group, place)?;
        }
        rest = behind;
    }
    Ok(search.found)
}
