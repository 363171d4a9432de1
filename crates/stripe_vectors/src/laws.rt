// The law of what was read, by the laws of live vectors.
ghost use Rattle.stripe_vectors.specs.Reading.{ReadIsListed};

use cache_model::{live_vector_is_listed, vector_is_read_back};

/// What was read of a live vector is what the records say that it lists, or two documents of one
/// SHA-256 are shown.
pub fn read_is_listed()
    ensures { ReadIsListed }
{
    live_vector_is_listed();
    vector_is_read_back();
}
