// Worked bytes, purges, wraps, images from outside, and many calls on both directories.
use crate::driving::{Tally, drive, key_of};
use crate::images::{count_image, image_length, is_written_again, read_image};
use crate::lookups::{are_missed, are_short, chains_of, fill};
use crate::tables::{GOOD, Good};
use crate::taped::{Taped, image_of};
use crate::walks::all_rows;
use dir_table::{Directory, Displaced, ListDirectory, StoredRow};
use packed_directory::PackedDirectory;
use std::alloc::{AllocError, Global};
use std::test::Fail;
use tape_base::{Geometry, Key};

// Segments, buckets, content, buffer, reach, fragment.
fn geometry_of(numbers: (u32, u32, u64, u32, u64, u32)) -> Result<Geometry, Fail> {
    let (segments, buckets, content, agg, reach, fragment) = numbers;
    match Geometry::check(segments, buckets, content, agg, reach, fragment, 7) {
        Ok(geometry) => Ok(geometry),
        Err(_) => Err("no geometry".into()),
    }
}

// So many bytes, of which these are the first.
fn bytes_of(alloc: Global, text: &str, len: usize) -> Result<Vec<u8>, Fail> {
    let dots = text.replace(alloc, "-", ".........")?;
    let digits = dots.replace(alloc, ".", "00")?;
    let mut bytes = hex::decode(alloc, digits.as_str())?;
    bytes.resize(len, 0)?;
    Ok(bytes)
}

// Whether an image has these bytes.
fn has_image(
    alloc: Global,
    taped: &Taped<PackedDirectory>,
    text: &str,
    len: usize,
) -> Result<bool, Fail> {
    match image_of(alloc, taped)? {
        None => Ok(false),
        Some(image) => Ok(image == bytes_of(alloc, text, len)?),
    }
}

// That of `abc` at place 65.
const WORKED_ENTRY: [u8; 10] = [2, 0, 0, 0, 0x41, 0x31, 0, 0, 0, 0];

// Whether segment 2, which is 644 bytes long, has it in slot 60, which begins bucket 15.
fn has_worked_entry(alloc: Global, taped: &Taped<PackedDirectory>) -> Result<bool, AllocError> {
    match image_of(alloc, taped)? {
        None => Ok(false),
        Some(image) => Ok(image.len() == 3072 && &image[1892..1902] == WORKED_ENTRY.as_slice()),
    }
}

// Enters a piece that fills a buffer's first block, and a vector behind it.
fn enter_worked(taped: &mut Taped<PackedDirectory>) -> Result<bool, AllocError> {
    let first = taped.insert(Key::of_url(b"filler"), 1, false, false)?;
    let second = taped.insert(Key::of_url(b"abc"), 1, true, false)?;
    Ok(first == Some(64) && second == Some(65))
}

#[test]
fn the_worked_entry_comes_out(rt: HostRuntime) -> Result<(), Fail> {
    let g = geometry_of((4, 16, 64, 8, 16, 4))?;
    let mut taped: Taped<PackedDirectory> = Taped::new(rt.alloc(), &g)?;
    assert!(rt; enter_worked(&mut taped)?);
    assert!(rt; has_worked_entry(rt.alloc(), &taped)?);
    Ok(())
}

// The free list leads through the slots behind the roots.
const NEW_SEGMENT: &str = "01.06-........02-03-05--.06-07";

#[test]
fn a_new_segment_comes_out_with_zeros_behind(rt: HostRuntime) -> Result<(), Fail> {
    let g = geometry_of((1, 2, 64, 8, 16, 4))?;
    let taped: Taped<PackedDirectory> = Taped::new(rt.alloc(), &g)?;
    assert!(rt; has_image(rt.alloc(), &taped, NEW_SEGMENT, 512)?);
    Ok(())
}

// Whether a directory has these places under the key of number 0, whose bytes are all 0, in this
// order.
fn has_places(
    alloc: Global,
    taped: &Taped<PackedDirectory>,
    places: &[u64],
) -> Result<bool, AllocError> {
    Ok(taped.places(alloc, key_of(0))?.as_slice() == places)
}

// Whether these places were displaced.
fn has_out(displaced: &Displaced, places: &[u64]) -> bool {
    if displaced.len() != places.len() {
        return false;
    }
    for i in 0..places.len() {
        if displaced.place(i) != places[i] {
            return false;
        }
    }
    true
}

// Whether the last insert displaced these places, and found so many rows in segment 0.
fn tells(taped: &Taped<PackedDirectory>, places: &[u64], live: u64) -> bool {
    let displaced = taped.directory.displaced();
    displaced.segment() == 0 && displaced.live() == live && has_out(displaced, places)
}

// Enters a piece of one block, and says whether it stands there, and displaced these places.
fn enters(
    taped: &mut Taped<PackedDirectory>,
    place: u64,
    out: &[u64],
    live: u64,
) -> Result<bool, AllocError> {
    let entered = taped.insert(key_of(0), 1, false, false)?;
    Ok(entered == Some(place) && tells(taped, out, live))
}

// Fills segment 0, and says whether nothing was displaced.
fn fills(taped: &mut Taped<PackedDirectory>) -> Result<bool, AllocError> {
    for live in 0..13 {
        if !enters(taped, 64 + live, &[], live)? {
            return Ok(false);
        }
    }
    Ok(true)
}

// One piece more displaces the first and the eleventh behind the root, and no other.
fn purges(alloc: Global, taped: &mut Taped<PackedDirectory>) -> Result<bool, AllocError> {
    if !fills(taped)? || !enters(taped, 77, &[65, 75], 13)? {
        return Ok(false);
    }
    let left = [64, 77, 76, 74, 73, 72, 71, 70, 69, 68, 67, 66];
    has_places(alloc, taped, &left)
}

#[test]
fn a_purge_takes_the_first_and_the_eleventh(rt: HostRuntime) -> Result<(), Fail> {
    let g = geometry_of((1, 4, 64, 16, 16, 4))?;
    let mut taped: Taped<PackedDirectory> = Taped::new(rt.alloc(), &g)?;
    assert!(rt; purges(rt.alloc(), &mut taped)?);
    Ok(())
}

// Fills a buffer and turns to the next, and says whether place, cursor and floor are these.
fn turns(
    taped: &mut Taped<PackedDirectory>,
    place: u64,
    cursor: u64,
    floor: u64,
) -> Result<bool, AllocError> {
    let entered = taped.insert(key_of(0), 14, false, false)?;
    let turned = taped.turn() && taped.cursor == cursor && taped.floor == floor;
    Ok(entered == Some(place) && turned)
}

// Whether of three places in one block of three laps the second alone has a row, and has it once.
fn has_second(taped: &mut Taped<PackedDirectory>) -> bool {
    let key = key_of(0);
    let others = taped.delete(key, 64) || taped.delete(key, 192);
    let once = taped.delete(key, 128);
    once && !others && !taped.delete(key, 128)
}

// Four buffers, the last of which ends the lap.
fn goes_round(taped: &mut Taped<PackedDirectory>) -> Result<bool, AllocError> {
    Ok(
        turns(taped, 64, 78, 30)?
            && turns(taped, 78, 92, 44)?
            && turns(taped, 92, 106, 58)?
            && turns(taped, 106, 128, 80)?,
    )
}

// Behind the turn a piece stands where the first one stood, and goes again.
fn comes_back(alloc: Global, taped: &mut Taped<PackedDirectory>) -> Result<bool, AllocError> {
    if !has_places(alloc, taped, &[106, 92])? {
        return Ok(false);
    }
    let again = taped.insert(key_of(0), 14, false, false)?;
    if again != Some(128) || !has_places(alloc, taped, &[106, 128, 92])? {
        return Ok(false);
    }
    Ok(has_second(taped) && has_places(alloc, taped, &[106, 92])?)
}

// The first of these, and then the other.
fn is_turned(alloc: Global, taped: &mut Taped<PackedDirectory>) -> Result<bool, AllocError> {
    Ok(goes_round(taped)? && comes_back(alloc, taped)?)
}

#[test]
fn a_turn_takes_out_what_the_next_lap_would_take_for_its_own(rt: HostRuntime) -> Result<(), Fail> {
    let g = geometry_of((1, 4, 64, 16, 16, 4))?;
    let mut taped: Taped<PackedDirectory> = Taped::new(rt.alloc(), &g)?;
    assert!(rt; is_turned(rt.alloc(), &mut taped)?);
    Ok(())
}

// Whether a row stands where it was told to.
fn stands_at(row: &StoredRow, spot: &(u32, u32, u16, u64)) -> bool {
    let (segment, bucket, tag, place) = *spot;
    row.segment == segment && row.bucket == bucket && row.tag == tag && row.place == place
}

// The same of each row, in order.
fn stand_at(rows: &[StoredRow], spots: &[(u32, u32, u16, u64)]) -> bool {
    if rows.len() != spots.len() {
        return false;
    }
    for i in 0..rows.len() {
        if !stands_at(&rows[i], &spots[i]) {
            return false;
        }
    }
    true
}

// Whether these are the rows of an image from the floor on.
fn has_rows(alloc: Global, good: &Good, g: &Geometry, bytes: &[u8]) -> Result<bool, AllocError> {
    match read_image(alloc, g, good.cursor, good.floor, bytes) {
        Some(Ok(read)) => Ok(stand_at(&all_rows(alloc, &read)?, good.rows)),
        _ => Ok(false),
    }
}

fn has_count(alloc: Global, g: &Geometry, bytes: &[u8], entries: u64) -> bool {
    match count_image(alloc, g, bytes) {
        Some(Ok(count)) => count == entries,
        _ => false,
    }
}

// Whether an image has the entries and the rows that were told, and is written again where all its
// entries count.
fn is_read(alloc: Global, good: &Good) -> Result<bool, Fail> {
    let g = geometry_of(good.geometry)?;
    let bytes = bytes_of(alloc, good.bytes, image_length(&g))?;
    let again = matches!(
        is_written_again(alloc, &g, good.cursor, good.floor, &bytes),
        Ok(true)
    );
    Ok(
        has_count(alloc, &g, &bytes, good.entries)
            && has_rows(alloc, good, &g, &bytes)?
            && again == (good.rows.len() as u64 == good.entries),
    )
}

#[test]
fn images_from_outside_are_read_and_written_again(rt: HostRuntime) -> Result<(), Fail> {
    for good in &GOOD {
        assert!(rt; is_read(rt.alloc(), good)?, "{}", good.name);
    }
    Ok(())
}

fn driven(alloc: Global, buckets: u32) -> Result<Tally, Fail> {
    let g = geometry_of((2, buckets, 256, 16, 64, 4))?;
    match drive::<ListDirectory>(alloc, &g, 10_000) {
        Ok(tally) => Ok(tally),
        Err(_) => Err("the two differ".into()),
    }
}

#[test]
fn ten_thousand_calls_are_answered_alike(rt: HostRuntime) -> Result<(), Fail> {
    let tally = driven(rt.alloc(), 64)?;
    assert_eq!(rt; tally.purges, 0);
    assert!(rt; tally.inserts > 3000 && tally.found > 1000);
    assert!(rt; tally.turns > 500 && tally.images > 300);
    Ok(())
}

#[test]
fn ten_thousand_calls_differ_by_purges_alone(rt: HostRuntime) -> Result<(), Fail> {
    let tally = driven(rt.alloc(), 4)?;
    assert!(rt; tally.purges > 100);
    assert!(rt; tally.inserts > 3000 && tally.found > 500);
    Ok(())
}

// So many entries stand in the one segment of the next test.
const ENTRIES: u32 = 3000;

// Whether no lookup takes more steps than its chain has entries.
fn has_short_lookups(alloc: Global, taped: &Taped<PackedDirectory>) -> Result<bool, AllocError> {
    let rows = all_rows(alloc, &taped.directory)?;
    let chains = chains_of(alloc, &rows, taped.geometry.buckets)?;
    Ok(
        rows.len() == ENTRIES as usize
            && are_short(taped, &chains, ENTRIES)
            && are_missed(taped, &chains, ENTRIES, 2 * ENTRIES),
    )
}

#[test]
fn a_lookup_takes_no_more_steps_than_its_chain_has_entries(rt: HostRuntime) -> Result<(), Fail> {
    let g = geometry_of((1, 4096, 16_384, 4096, 4096, 4))?;
    let mut taped: Taped<PackedDirectory> = Taped::new(rt.alloc(), &g)?;
    assert!(rt; fill(&mut taped, ENTRIES)?);
    assert!(rt; has_short_lookups(rt.alloc(), &taped)?);
    Ok(())
}
