// A list of records that has no bytes when a program runs.
ghost use Rattle.std.specs.Prelude.{◌≡◌, List, [], ◌∷◌, ◌++◌};
ghost use Rattle.std.specs.Borrow.{ftrue};
ghost use Rattle.cache_model.specs.declared.record.Rec.{Rec};

use cache_model::Rec;
use std::marker::{Model, PhantomData};

/// Records, the oldest first, which clauses alone can read.
#[derive(Drop)]
pub(crate) struct GhostRecords {
    marker: PhantomData<u8>,
    pub(crate) ghost list: { List Rec },
}

impl Model for GhostRecords {
    ghost also_owns = { λ _. ftrue };
}

impl GhostRecords {
    pub(crate) fn new() -> GhostRecords
        ensures { result.list ≡ [] }
    {
        GhostRecords {
            marker: PhantomData,
        }
    }

    pub(crate) fn note(&mut self, _rec: &Rec)
        ensures { self.new.list ≡ self.old.list ++ _rec.now ∷ [] }
    {}
}
