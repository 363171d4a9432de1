// How many alternates each vector lists, and what a record makes of it.
ghost use Rattle.std.specs.Prelude.{◌≡◌, ◌+◌, ◌≤◌, ◌<◌};
ghost use Rattle.std.specs.HashMap.{spare};
ghost use Rattle.cache_model.specs.State.{State, state_after};
ghost use Rattle.cache_chronicle.specs.Tables.{HasCounts};
ghost use Rattle.cache_chronicle.specs.Weight.{weight_of};

use crate::opened::note_found_counts;
use crate::pieces::vector_piece;
use cache_model::Rec;
use std::collections::HashMap;
use tape_base::PieceId;

pub(crate) type Counts = HashMap<PieceId, u32>;

/// Notes how many alternates a record tells that a vector lists.
pub(crate) fn note_count(counts: &mut Counts, rec: &Rec)
    requires { weight_of rec.now ≤ spare counts.old }
    ensures has { (s : State) → HasCounts counts.old s.counts → HasCounts counts.new (state_after s rec.now).counts }
    ensures spare { spare counts.old ≤ spare counts.new + weight_of rec.now }
{
    match *rec {
        Rec::Formatted { .. } => counts.clear(),
        Rec::Opened { ref list, .. } => {
            counts.clear();
            note_found_counts(counts, list);
        }
        Rec::Committed {
            put,
            key,
            ref alternates,
            ..
        } => {
            let count = alternates.len() as u32;
            let noted: Result<_, _> = counts.insert(vector_piece(key, put), count);
            let _ = noted.unwrap();
        }
        _ => {}
    }
}
