//! What a pass knows. The types stand in clauses and proofs: no value of them is made.
use std::collections::LinkedList;

/// A turn of the history: the number of its pass, its job's number, and the records that it added.
pub struct StripeTurn<R> {
    pub worker: u64,
    pub job: u64,
    pub records: LinkedList<R>,
}

/// A pass number, and the places in the history of the turns that were made under it, from 0.
pub struct PassTurns {
    pub number: u64,
    pub places: LinkedList<u64>,
}

/// What was seen: the chronicle from before the first turn, the turns so far, and the floor with the
/// turns behind which it was published.
pub struct Sight<R> {
    pub chronicle: LinkedList<R>,
    pub seen: LinkedList<StripeTurn<R>>,
    pub told: LinkedList<StripeTurn<R>>,
    pub floor: u64,
}

/// A number that stood in a word of the table when it was loaded.
pub struct Loaded {
    pub word: u64,
    pub number: u64,
}

/// What one pass knows, and how far it is in the line.
pub struct View<R> {
    pub sight: Sight<R>,
    /// What a pass that was just joined had seen.
    pub other: Sight<R>,
    /// Its own number first, then those that were joined into it.
    pub owned: LinkedList<PassTurns>,
    /// What it has found in the words `count` and `floor`, the last number last.
    pub looks: LinkedList<Loaded>,
    /// The highest floor that it has seen.
    pub peak: u64,
    pub stage: u64,
    pub ticket: u64,
}
