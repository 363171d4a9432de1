// Which of the pieces that stand an opening keeps: they are compared by their names, which are looked up.
ghost use Rattle.std.specs.Prelude.{◌≡◌, ◌∷◌, [], ◌++◌, ◌&&◌, ◌||◌, List, map, reverse, IfOk, OnOk};
ghost use Rattle.std.specs.List.{list_any};
ghost use Rattle.tape_base.specs.Piece.{is_vector};
ghost use Rattle.cache_model.specs.declared.findings.FoundRow.{FoundRow as FoundRow'};
ghost use Rattle.reopening.specs.declared.later.Measure.{Measure as Measure'};
ghost use Rattle.reopening.specs.Later.{kept_rows, latest, measure_of, replaces, with_lengths};
ghost use Rattle.reopening.specs.ByName.{MeasuresApart, lists_measured, is_measured, measured, rows_measured};
ghost use Rattle.device_opening.specs.Kept.{HasMeasures, HasNames};

use alternate_vector::{Alternate, Vector};
use cache_model::{FoundList, FoundRow};
use std::alloc::{AllocError, Global};
use std::collections::{HashMap, HashSet};
use tape_base::{Key, PieceId};

/// The names of the pieces behind one, and the objects of the vectors among them.
#[derive(Debug, Drop)]
pub(crate) struct Names {
    pub pieces: HashSet<PieceId>,
    pub vectors: HashSet<Key>,
}

type Measures = HashMap<PieceId, u32>;

// Whether a piece is replaced by one with its name, or by a vector of its object.
fn is_replaced(id: PieceId, named: bool, vector: bool) -> bool
    ensures { result ≡ (named || (is_vector id && vector)) }
{
    named || (id.index == 0 && vector)
}

impl Names {
    fn new(alloc: Global) -> Names
        ensures { HasNames result [] }
    {
        Names {
            pieces: HashSet::new(alloc),
            vectors: HashSet::new(alloc),
        }
    }

    // Whether one of the pieces replaces it.
    fn replace(&self, id: PieceId) -> bool
        ensures { (later : List FoundRow') → HasNames self.now later → result ≡ list_any (λ y. replaces y.id id) later }
    {
        is_replaced(
            id,
            self.pieces.contains(&id),
            self.vectors.contains(&id.first),
        )
    }

    // Notes a piece.
    fn note(&mut self, id: PieceId) -> Result<(), AllocError>
        ensures { OnOk result ((row : FoundRow') (later : List FoundRow') → row.id ≡ id → HasNames self.old later → HasNames self.new (row ∷ later)) }
    {
        self.pieces.insert(id).map_err(AllocError::from)?;
        if id.index == 0 {
            self.vectors.insert(id.first).map_err(AllocError::from)?;
        }
        Ok(())
    }
}

// Those that no other replaces, the last first.
fn latest_back(alloc: Global, all: Vec<FoundRow>) -> Result<Vec<FoundRow>, AllocError>
    ensures { IfOk result (λ kept. kept.items ≡ reverse (latest all.items)) }
{
    let mut names = Names::new(alloc);
    let mut kept = Vec::new(alloc);
    let mut left = all;
    while let Some(row) = left.pop() {
        let replaced = names.replace(row.id);
        names.note(row.id)?;
        if !replaced {
            kept.push(row)?;
        }
    }
    Ok(kept)
}

// The lengths of the pieces by name; of two with one name the last counts.
fn measures_of(alloc: Global, back: &[FoundRow]) -> Result<Measures, AllocError>
    ensures { IfOk result (λ m. HasMeasures m (map measure_of (reverse back.now))) }
{
    let mut measures = HashMap::new(alloc);
    for row in back {
        measures
            .insert(row.id, row.length)
            .map_err(AllocError::from)?;
    }
    Ok(measures)
}

// Whether what is measured of a piece, if anything is, is this length.
fn is_measured(measures: &Measures, id: PieceId, length: u32) -> bool
    ensures { (all : List Measure') → HasMeasures measures.now all → result ≡ is_measured (measured id all) length }
{
    match measures.get(&id) {
        None => true,
        Some(found) => length == *found,
    }
}

// Whether the table of an alternate states what is measured of its fragments.
fn table_is_measured(measures: &Measures, first: Key, alternate: &Alternate) -> bool
    ensures { (all : List Measure') → HasMeasures measures.now all → result ≡ rows_measured all first alternate.now.put 1 alternate.now.table.rows }
{
    let count = alternate.table.len();
    let mut index = 0;
    while index < count {
        index += 1;
        let id = PieceId {
            first,
            put: alternate.put,
            index,
        };
        let (length, _) = alternate.table.row(index);
        if !is_measured(measures, id, length) {
            return false;
        }
    }
    true
}

// Whether all tables of a vector do.
fn lists_measured(measures: &Measures, row: &FoundRow) -> bool
    ensures { (all : List Measure') → HasMeasures measures.now all → result ≡ lists_measured all row.now.id.first row.now.alternates }
{
    let Some(vector) = &row.alternates else {
        return true;
    };
    for i in 0..vector.len() {
        if !table_is_measured(measures, row.id.first, vector.get(i)) {
            return false;
        }
    }
    true
}

fn add(found: &mut FoundList, row: FoundRow) -> Result<(), AllocError>
    ensures { OnOk result (found.new ≡ found.old ++ row ∷ []) }
{
    match found.push(row) {
        Ok(()) => Ok(()),
        Err((e, _)) => Err(e),
    }
}

// Those whose tables state what is measured, the last first.
fn with_measures(
    alloc: Global,
    measures: &Measures,
    back: Vec<FoundRow>,
) -> Result<FoundList, AllocError>
    ensures { IfOk result (λ found. (all : List Measure') → HasMeasures measures.now all → MeasuresApart all
        → found ≡ with_lengths all (reverse back.items)) }
{
    let mut found = FoundList::new(alloc);
    let mut left = back;
    while let Some(row) = left.pop() {
        if lists_measured(measures, &row) {
            add(&mut found, row)?;
        }
    }
    Ok(found)
}

/// Those that are kept of the pieces that stand.
pub(crate) fn kept_rows(alloc: Global, all: Vec<FoundRow>) -> Result<FoundList, AllocError>
    ensures { IfOk result (λ found. found ≡ kept_rows all.items) }
{
    let back = latest_back(alloc, all)?;
    let measures = measures_of(alloc, &back)?;
    with_measures(alloc, &measures, back)
}
