// A list of what a bay did that has no bytes when a program runs.
ghost use Rattle.std.specs.Prelude.{◌≡◌, List, [], ◌∷◌, None, Some};
ghost use Rattle.std.specs.Borrow.{ftrue};
ghost use Rattle.device_bay.specs.Entry.{BayEntry, entry_of};

use std::marker::{Model, PhantomData};

/// Numbers, a name, and in some a device, the newest first, which clauses alone can read.
#[derive(Drop)]
pub struct GhostEntries<D> {
    of: PhantomData<D>,
    pub ghost entries: { List (BayEntry D) },
}

impl<D> Model for GhostEntries<D> {
    ghost also_owns = { λ _. ftrue };
}

impl<D> GhostEntries<D> {
    pub fn new() -> GhostEntries<D>
        ensures { result.entries ≡ [] }
    {
        GhostEntries { of: PhantomData }
    }

    pub fn note(&mut self, _numbers: &[u64], _name: &[u8])
        ensures { self.new.entries ≡ entry_of _numbers.now _name.now None ∷ self.old.entries }
    {}

    /// The list with a device as it is now.
    pub fn with(&self, _device: &D) -> GhostEntries<D>
        ensures { result.entries ≡ entry_of [] [] (Some _device.now) ∷ self.now.entries }
    {
        GhostEntries { of: PhantomData }
    }
}
