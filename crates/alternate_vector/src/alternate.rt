// A stored response and the request that it was stored for.

ghost use Rattle.std.specs.Prelude.{◌≡◌, [], ◌∷◌};
ghost use Rattle.alternate_vector.specs.Alternates.{is_match, stored_of, vector_size};
ghost use Rattle.alternate_vector.specs.Vary.{request_matches};

use crate::fields::Fields;
use crate::matching::request_matches;
use crate::sizes::alternate_size;
use fragment_table::FragTable;

/// One stored response of an object.
#[derive(Debug, Drop)]
pub struct Alternate {
    /// The number of the put that stored it.
    pub put: u64,
    /// Until when it is kept, 0 for no pin.
    pub pin: u64,
    /// The length of its body.
    pub length: u64,
    /// The request that it was stored for.
    pub request: Fields,
    pub response: Fields,
    /// The fragments of its body.
    pub table: FragTable,
}

impl Alternate {
    /// The length of the spelling of a vector that has this alternate alone.
    pub fn size_alone(&self) -> usize
        ensures { result ≡ vector_size (stored_of self.now ∷ []) }
    {
        4 + alternate_size(self)
    }
}

/// Whether a request may be answered with an alternate.
pub fn matches(request: &Fields, alternate: &Alternate) -> bool
    ensures { result ≡ is_match request.now (stored_of alternate.now) }
{
    request_matches(request, &alternate.request, &alternate.response)
}
