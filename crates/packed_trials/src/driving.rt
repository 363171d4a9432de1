// One list of calls, drawn by number, that drives both directories.
ghost use Rattle.std.specs.Prelude.{◌≡◌};

use crate::taped::{Taped, image_of, read_at};
use crate::walks::all_rows;
use dir_table::Directory;
use packed_directory::PackedDirectory;
use std::alloc::{AllocError, Global};
use tape_base::{Geometry, Key};

// So many keys are drawn from.
const KEYS: u32 = 300;

/// What was done.
#[derive(Clone, Copy)]
pub struct Tally {
    pub inserts: u64,
    pub deletes: u64,
    pub found: u64,
    pub turns: u64,
    pub purges: u64,
    pub images: u64,
}

/// Where the two differ, or a purge is not as it has to be.
#[derive(Drop)]
pub enum Unlike {
    Deleted,
    Places,
    Rows,
    PurgeSize,
    PurgeLive,
    PurgePlace,
    Image,
    TapeEnd,
    Memory(AllocError),
}

impl From<AllocError> for Unlike {
    ghost use Rattle.packed_trials.specs.declared.driving.Unlike.TheVariants as unlike;

    ghost from_gives = { λ e u. u ≡ unlike.Memory e };

    fn from(e: AllocError) -> Unlike {
        Unlike::Memory(e)
    }
}

/// A row that both have.
#[derive(Clone, Copy)]
struct Known {
    place: u64,
    number: u32,
}

/// The key of a number: few tags, so that keys share a segment, a bucket and a tag.
pub(crate) fn key_of(number: u32) -> Key {
    let [a, b, c, d] = number.to_le_bytes();
    let [e, f, g, h] = (number / 2).to_le_bytes();
    let [tag, ..] = (number % 3).to_le_bytes();
    Key::new([a, b, c, d, e, f, g, h, tag, 0, 0, 0, a, b, c, d])
}

// The next of a row of numbers (Knuth's multiplier for 64 bits).
fn next_draw(draw: u64) -> u64 {
    draw.wrapping_mul(6_364_136_223_846_793_005)
        .wrapping_add(1_442_695_040_888_963_407)
}

// The high half of a draw, whose low bits repeat soon.
fn high(draw: u64) -> u32 {
    (draw / (1 << 32)) as u32
}

// A key's number.
fn number_of(draw: u64) -> u32 {
    high(draw) / 2 % KEYS
}

// Below a limit, by the high bits of a draw.
fn below(draw: u64, limit: u64) -> u64 {
    let high = high(draw) as u64 / 2;
    high.checked_rem(limit).unwrap_or(0)
}

fn remember(known: &mut Vec<Known>, row: Known) -> Result<(), AllocError> {
    known.push(row)?;
    Ok(())
}

// The row of a place goes from those known, and gives its key's number.
fn forget(known: &mut Vec<Known>, place: u64) -> Option<u32> {
    let mut at = 0usize;
    for k in known.iter() {
        if k.place == place {
            break;
        }
        at = at.saturating_add(1);
    }
    if at < known.len() {
        return Some(known.swap_remove(at).number);
    }
    None
}

// How many known rows stand in a segment.
fn known_in(known: &[Known], g: &Geometry, segment: u32) -> u64 {
    let mut count = 0u64;
    for k in known {
        if key_of(k.number).segment(g) == segment {
            count = count.saturating_add(1);
        }
    }
    count
}

// Whether a row of a key's number stands at a place.
fn stands_in(known: &[Known], number: u32, place: u64) -> bool {
    let mut stands = false;
    for k in known {
        stands |= k.place == place && k.number == number;
    }
    stands
}

// How many known rows a key's number has.
fn count_of(known: &[Known], number: u32) -> usize {
    let mut count = 0usize;
    for k in known {
        if k.number == number {
            count = count.saturating_add(1);
        }
    }
    count
}

// The rows below a floor go.
fn forget_below(known: &mut Vec<Known>, floor: u64) {
    let mut at = 0usize;
    for _ in 0..known.len() {
        if at < known.len() && known[at].place < floor {
            known.swap_remove(at);
        } else {
            at = at.saturating_add(1);
        }
    }
}

// Takes what the last insert displaced out of the other directory and the rows known: a tenth of
// the slots behind the roots, all of the segment that was told.
fn follow_purge<L: Directory + Drop>(
    list: &mut Taped<L>,
    packed: &Taped<PackedDirectory>,
    known: &mut Vec<Known>,
) -> Result<bool, Unlike> {
    let displaced = packed.directory.displaced();
    let out = displaced.len();
    if out == 0 {
        return Ok(false);
    }
    let g = &packed.geometry;
    if out as u64 != (3 * g.buckets as u64).div_ceil(10) {
        return Err(Unlike::PurgeSize);
    }
    let segment = displaced.segment();
    if known_in(known, g, segment) != displaced.live() {
        return Err(Unlike::PurgeLive);
    }
    for i in 0..out {
        let place = displaced.place(i);
        if !drop_row(list, known, segment, place) {
            return Err(Unlike::PurgePlace);
        }
    }
    Ok(true)
}

// Takes a displaced row out of the other directory, and says whether it is of the segment.
fn drop_row<L: Directory + Drop>(
    list: &mut Taped<L>,
    known: &mut Vec<Known>,
    segment: u32,
    place: u64,
) -> bool {
    let Some(number) = forget(known, place) else {
        return false;
    };
    let key = key_of(number);
    key.segment(&list.geometry) == segment && list.delete(key, place)
}

// A directory of any kind and a packed one, the rows that both have, and what was done.
#[derive(Drop)]
struct Both<L: Directory + Drop> {
    list: Taped<L>,
    packed: Taped<PackedDirectory>,
    known: Vec<Known>,
    tally: Tally,
}

impl<L: Directory + Drop> Both<L> {
    fn new(alloc: Global, g: &Geometry) -> Result<Both<L>, AllocError> {
        Ok(Both {
            list: Taped::new(alloc, g)?,
            packed: Taped::new(alloc, g)?,
            known: Vec::new(alloc),
            tally: Tally {
                inserts: 0,
                deletes: 0,
                found: 0,
                turns: 0,
                purges: 0,
                images: 0,
            },
        })
    }

    // A piece of a key by its number is entered, and gives its place, if the buffers have room.
    fn put(&mut self, number: u32) -> Result<Option<u64>, Unlike> {
        let (key, blocks) = (key_of(number), 1 + number % 4);
        let (head, pinned) = (number % 2 == 0, number % 5 == 0);
        let place = self.list.insert(key, blocks, head, pinned)?;
        if self.packed.insert(key, blocks, head, pinned)? != place {
            return Err(Unlike::TapeEnd);
        }
        Ok(place)
    }

    // A piece of one of the keys is entered, where the buffer has no room in the next one.
    fn enter(&mut self, draw: u64) -> Result<(), Unlike> {
        let number = number_of(draw);
        let place = match self.put(number)? {
            Some(place) => place,
            None => {
                self.turn()?;
                match self.put(number)? {
                    Some(place) => place,
                    None => return Err(Unlike::TapeEnd),
                }
            }
        };
        if follow_purge(&mut self.list, &self.packed, &mut self.known)? {
            self.tally.purges = self.tally.purges.saturating_add(1);
        }
        self.tally.inserts = self.tally.inserts.saturating_add(1);
        remember(&mut self.known, Known { place, number })?;
        Ok(())
    }

    // The next buffer begins: the rows below its floor go.
    fn turn(&mut self) -> Result<(), Unlike> {
        if !self.list.turn() || !self.packed.turn() || self.list.cursor != self.packed.cursor {
            return Err(Unlike::TapeEnd);
        }
        forget_below(&mut self.known, self.packed.floor);
        self.tally.turns = self.tally.turns.saturating_add(1);
        Ok(())
    }

    // A row that both have is taken out, or one that neither has is asked for.
    fn delete(&mut self, draw: u64) -> Result<(), Unlike> {
        let at = below(draw, self.known.len() as u64) as usize;
        let Some(row) = self.known.get(at).copied() else {
            return Ok(());
        };
        let place = row.place.saturating_add((draw % 4 == 0) as u64);
        let stands = stands_in(&self.known, row.number, place);
        let key = key_of(row.number);
        if self.list.delete(key, place) != stands || self.packed.delete(key, place) != stands {
            return Err(Unlike::Deleted);
        }
        if stands {
            let _ = forget(&mut self.known, place);
            self.tally.found = self.tally.found.saturating_add(1);
        }
        self.tally.deletes = self.tally.deletes.saturating_add(1);
        Ok(())
    }

    // Both have the same places under a key.
    fn look(&self, alloc: Global, draw: u64) -> Result<(), Unlike> {
        let number = number_of(draw);
        let key = key_of(number);
        let mut listed = self.list.places(alloc, key)?;
        let mut packed = self.packed.places(alloc, key)?;
        listed.sort()?;
        packed.sort()?;
        if listed != packed || count_of(&self.known, number) > packed.len() {
            return Err(Unlike::Places);
        }
        Ok(())
    }

    // An image of the packed directory is read back as the same rows, and these are as many as are
    // known.
    fn read_back(&mut self, alloc: Global) -> Result<(), Unlike> {
        let rows = all_rows(alloc, &self.packed.directory)?;
        if rows.len() != self.known.len() {
            return Err(Unlike::Rows);
        }
        let Some(bytes) = image_of(alloc, &self.packed)? else {
            return Ok(());
        };
        let Some(Ok(again)) = read_at(alloc, &self.packed, &bytes) else {
            return Err(Unlike::Image);
        };
        if all_rows(alloc, &again)? != rows {
            return Err(Unlike::Image);
        }
        self.tally.images = self.tally.images.saturating_add(1);
        Ok(())
    }

    // One call, by a draw.
    fn call(&mut self, alloc: Global, draw: u64) -> Result<(), Unlike> {
        match draw >> 60 {
            0..=6 => self.enter(draw),
            7..=9 => self.delete(draw),
            10 => self.turn(),
            11 => self.read_back(alloc),
            _ => self.look(alloc, draw),
        }
    }
}

/// So many calls on a new directory of a kind and a new packed one, which answer alike, where what
/// the packed one displaces is taken out of the other.
pub fn drive<L: Directory + Drop>(
    alloc: Global,
    g: &Geometry,
    calls: u32,
) -> Result<Tally, Unlike> {
    let mut both: Both<L> = Both::new(alloc, g)?;
    let mut draw = 1;
    for _ in 0..calls {
        draw = next_draw(draw);
        both.call(alloc, draw)?;
    }
    Ok(both.tally)
}
