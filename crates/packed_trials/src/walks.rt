// Whole walks.
ghost use Rattle.std.specs.Prelude.{◌≡◌, IfOk};
ghost use Rattle.std.specs.List.Sorted.{IsPermutation};
ghost use Rattle.dir_table.specs.Candidates.{candidates_of};
ghost use Rattle.dir_table.specs.Rows.{plain_rows};

use dir_table::{Directory, StoredRow};
use packed_directory::StoredDirectory;
use std::alloc::{AllocError, Global};
use tape_base::{Key, Steps};

/// The places that a directory has under a key.
pub fn places_of<D: Directory>(
    alloc: Global,
    directory: &D,
    key: Key,
) -> Result<Vec<u64>, AllocError>
    ensures { IfOk result (λ v. v.items
        ≡ candidates_of (D.window directory.now) key (plain_rows (D.rows directory.now))) }
{
    let mut places = Vec::new(alloc);
    let mut steps = Steps::new();
    let mut walk = directory.candidates(key);
    while let Some(place) = directory.step(&mut walk, &mut steps) {
        places.push(place)?;
    }
    Ok(places)
}

/// All rows of a stored directory.
pub fn all_rows<D: StoredDirectory>(alloc: Global, stored: &D) -> Result<Vec<StoredRow>, AllocError>
    ensures { IfOk result (λ v. IsPermutation (D.rows stored.now) v.items) }
{
    let mut rows = Vec::new(alloc);
    let mut walk = stored.all();
    while let Some(row) = stored.step_all(&mut walk) {
        rows.push(row)?;
    }
    Ok(rows)
}
