// How many steps a lookup takes, beside how long its chain is.
ghost use Rattle.std.specs.Prelude.{◌≤◌, count_by, IfSome};
ghost use Rattle.dir_table.specs.Rows.{is_in_bucket, plain_rows};

use crate::taped::Taped;
use dir_table::{Directory, StoredRow};
use std::alloc::{AllocError, Global};
use tape_base::{Key, Steps};

/// A drawn key, by its number.
pub(crate) fn drawn_key(number: u32) -> Key {
    Key::of_url(number.to_le_bytes().as_slice())
}

/// Enters a piece of one block under each of the first drawn keys, and says whether each stands right
/// behind the one before.
pub fn fill<D: Directory + Drop>(taped: &mut Taped<D>, count: u32) -> Result<bool, AllocError> {
    let first = taped.cursor;
    for number in 0..count {
        let place = taped.insert(drawn_key(number), 1, false, false)?;
        if place != first.checked_add(number as u64) {
            return Ok(false);
        }
    }
    Ok(true)
}

/// How many of these rows each of so many buckets has, in one segment.
pub fn chains_of(alloc: Global, rows: &[StoredRow], buckets: u32) -> Result<Vec<u64>, AllocError> {
    let mut chains = vec![in alloc; 0u64; buckets as usize]?;
    for row in rows {
        if let Some(chain) = chains.get_mut(row.bucket as usize) {
            *chain = chain.saturating_add(1);
        }
    }
    Ok(chains)
}

/// The steps of a whole walk over the places of a key.
pub fn whole_walk<D: Directory>(directory: &D, key: Key) -> u64
    ensures few { let g = (D.window directory.now).geometry in
        result ≤ count_by (is_in_bucket g key) (plain_rows (D.rows directory.now)) }
{
    let mut steps = Steps::new();
    let mut walk = directory.candidates(key);
    while let Some(_place) = directory.step(&mut walk, &mut steps) {}
    steps.count()
}

/// The steps of a walk over the places of a key that ends with a place, if it finds that.
pub fn walk_to<D: Directory>(directory: &D, key: Key, sought: u64) -> Option<u64>
    ensures few { let g = (D.window directory.now).geometry in
        IfSome result (λ steps. steps ≤ count_by (is_in_bucket g key) (plain_rows (D.rows directory.now))) }
{
    let mut steps = Steps::new();
    let mut walk = directory.candidates(key);
    while let Some(place) = directory.step(&mut walk, &mut steps) {
        if place == sought {
            return Some(steps.count());
        }
    }
    None
}

// Whether a lookup of a key takes so many steps at most, and finds a place within these.
fn is_short<D: Directory>(directory: &D, key: Key, place: u64, chain: u64) -> bool {
    let whole = whole_walk(directory, key);
    match walk_to(directory, key, place) {
        Some(steps) => 1 <= steps && steps <= whole && whole <= chain,
        None => false,
    }
}

/// Whether a lookup of each of the first drawn keys takes a step for each row of its bucket at most,
/// and finds the key's piece by then.
pub fn are_short<D: Directory + Drop>(taped: &Taped<D>, chains: &[u64], count: u32) -> bool {
    for number in 0..count {
        let key = drawn_key(number);
        let place = taped.cursor.saturating_add(number as u64);
        let Some(chain) = chains.get(key.bucket(&taped.geometry) as usize).copied() else {
            return false;
        };
        if !is_short(&taped.directory, key, place, chain) {
            return false;
        }
    }
    true
}

/// Whether a lookup of each of the drawn keys from one to another takes no more steps than its bucket
/// has rows, where none of them has a piece.
pub fn are_missed<D: Directory + Drop>(
    taped: &Taped<D>,
    chains: &[u64],
    first: u32,
    count: u32,
) -> bool {
    for number in first..count {
        let key = drawn_key(number);
        let chain = chains.get(key.bucket(&taped.geometry) as usize).copied();
        if chain < Some(whole_walk(&taped.directory, key)) {
            return false;
        }
    }
    true
}
