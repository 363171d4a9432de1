// The tests that compare the entries which passed those before.
ghost use Rattle.std.specs.Prelude.{◌≡◌, ◌≤◌, ◌<◌, ◌+◌, ◌-◌, [], ◌∷◌, ◌++◌, length, map, IfOk, OnOk};
ghost use Rattle.std.specs.List.{list_any, list_all};
ghost use Rattle.alternate_vector.specs.Alternates.{stored_of};
ghost use Rattle.reopening.specs.Later.{has_length, has_lengths, kept_rows, latest, lengths_agree, measure_of, replaces, row_of_fragment, states, with_lengths};

use alternate_vector::{Alternate, Vector};
use cache_model::{FoundList, FoundRow};
use std::alloc::{AllocError, Global};
use tape_base::PieceId;

/// The length of the payload of a piece that passed.
#[derive(Clone, Copy, Debug)]
pub struct Measure {
    pub id: PieceId,
    pub length: u32,
}

fn replaces(later: PieceId, id: PieceId) -> bool
    ensures { result ≡ replaces later id }
{
    later == id || (later.index == 0 && (id.index == 0 && later.first == id.first))
}

fn is_replaced(later: &[FoundRow], id: PieceId) -> bool
    ensures { result ≡ list_any (λ y. replaces y.id id) later.now }
{
    later.iter().any(|y| replaces(y.id, id))
}

fn push(kept: &mut Vec<FoundRow>, row: FoundRow) -> Result<(), AllocError>
    ensures { OnOk result (kept.new.items ≡ kept.old.items ++ row ∷ []) }
{
    kept.push(row)?;
    Ok(())
}

// Those that no other replaces.
#[tactic(auto, unfolding(crate::specs::Later::latest))]
fn latest(alloc: Global, all: Vec<FoundRow>) -> Result<Vec<FoundRow>, AllocError>
    ensures { IfOk result (λ kept. kept.items ≡ latest all.items) }
{
    let mut kept = Vec::new(alloc);
    let mut ahead = all;
    while !ahead.is_empty() {
        let first = ahead.remove(0);
        if !is_replaced(&ahead, first.id) {
            push(&mut kept, first)?;
        }
    }
    Ok(kept)
}

fn measure_of(row: &FoundRow) -> Measure
    ensures { result ≡ measure_of row.now }
{
    Measure {
        id: row.id,
        length: row.length,
    }
}

fn measures_of(alloc: Global, all: &[FoundRow]) -> Result<Vec<Measure>, AllocError>
    ensures { IfOk result (λ measures. measures.items ≡ map measure_of all.now) }
{
    let mut measures = Vec::new(alloc);
    for row in all {
        measures.push(measure_of(row))?;
    }
    Ok(measures)
}

// Whether the row of a fragment states this length, where there is such a row.
fn has_length(length: u32, alternate: &Alternate, index: u32) -> bool
    ensures { result ≡ has_length length (row_of_fragment alternate.now.table.rows index) }
{
    if index == 0 || index > alternate.table.len() {
        return true;
    }
    alternate.table.row(index).0 == length
}

fn states(y: Measure, alternate: &Alternate) -> bool
    ensures { result ≡ states y (stored_of alternate.now) }
{
    alternate.put != y.id.put || has_length(y.length, alternate, y.id.index)
}

fn all_state(y: Measure, vector: &Vector) -> bool
    ensures { result ≡ list_all (states y) vector.now }
{
    for i in 0..vector.len() {
        if !states(y, vector.get(i)) {
            return false;
        }
    }
    true
}

fn agrees(row: &FoundRow, y: Measure) -> bool
    ensures { result ≡ lengths_agree row.now y }
{
    if row.id.first != y.id.first {
        return true;
    }
    match &row.alternates {
        None => true,
        Some(vector) => all_state(y, vector),
    }
}

fn has_lengths(measures: &[Measure], row: &FoundRow) -> bool
    ensures { result ≡ has_lengths measures.now row.now }
{
    measures.iter().all(|y| agrees(row, *y))
}

fn add(found: &mut FoundList, row: FoundRow) -> Result<(), AllocError>
    ensures { OnOk result (found.new ≡ found.old ++ row ∷ []) }
{
    match found.push(row) {
        Ok(()) => Ok(()),
        Err((e, _)) => Err(e),
    }
}

// The rows of those whose vectors state the lengths of the fragments that passed.
#[tactic(auto, unfolding(crate::specs::Later::with_lengths))]
fn with_lengths(
    alloc: Global,
    measures: &[Measure],
    all: Vec<FoundRow>,
) -> Result<FoundList, AllocError>
    ensures { IfOk result (λ found. found ≡ with_lengths measures.now all.items) }
{
    let mut found = FoundList::new(alloc);
    let mut ahead = all;
    while !ahead.is_empty() {
        let row = ahead.remove(0);
        if has_lengths(measures, &row) {
            add(&mut found, row)?;
        }
    }
    Ok(found)
}

/// Those that are kept of the rows that passed by themselves.
pub fn kept_rows(alloc: Global, all: Vec<FoundRow>) -> Result<FoundList, AllocError>
    ensures { IfOk result (λ found. found ≡ kept_rows all.items) }
{
    let kept = latest(alloc, all)?;
    let measures = measures_of(alloc, &kept)?;
    with_lengths(alloc, &measures, kept)
}
