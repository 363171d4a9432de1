// The last vector of each key, and what a record makes of it.
ghost use Rattle.std.specs.Prelude.{◌≡◌, ◌+◌, ◌≤◌, ◌<◌};
ghost use Rattle.std.specs.HashMap.{spare, get};
ghost use Rattle.tape_base.specs.Key.{same_key};
ghost use Rattle.cache_model.specs.State.{State, state_after};
ghost use Rattle.cache_chronicle.specs.Tables.{HasVectors};
ghost use Rattle.cache_chronicle.specs.Weight.{weight_of};

use crate::opened::note_found_vectors;
use cache_model::Rec;
use std::collections::HashMap;
use tape_base::Key;

/// The last of a key's commits and removals, by the put of its vector.
#[derive(Clone, Copy)]
pub(crate) enum NotedVector {
    Complete(u64),
    TakenOut(u64),
}

pub(crate) type Vectors = HashMap<Key, NotedVector>;

pub(crate) fn last_of(vectors: &Vectors, key: Key) -> Option<NotedVector>
    ensures { result ≡ get same_key vectors.now key }
{
    vectors.get(&key).copied()
}

/// Notes what a record says of a key's vector.
pub(crate) fn note_vector(vectors: &mut Vectors, rec: &Rec)
    requires { weight_of rec.now ≤ spare vectors.old }
    ensures has { (s : State) → HasVectors vectors.old s.vectors → HasVectors vectors.new (state_after s rec.now).vectors }
    ensures spare { spare vectors.old ≤ spare vectors.new + weight_of rec.now }
{
    match *rec {
        Rec::Formatted { .. } => vectors.clear(),
        Rec::Opened { ref list, .. } => {
            vectors.clear();
            note_found_vectors(vectors, list);
        }
        Rec::Committed { put, key, .. } => {
            let noted: Result<_, _> = vectors.insert(key, NotedVector::Complete(put));
            let _ = noted.unwrap();
        }
        Rec::Removed { put, key } => {
            let noted: Result<_, _> = vectors.insert(key, NotedVector::TakenOut(put));
            let _ = noted.unwrap();
        }
        _ => {}
    }
}
