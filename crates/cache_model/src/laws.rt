// Laws of a key's vector, on which the calls of a stripe stand. These functions do nothing when they run.
ghost use Rattle.cache_model.specs.Vectors.{LiveVectorIsListed, VectorIsReadBack};

/// What a key's live vector lists are the key's alternates.
pub fn live_vector_is_listed()
    ensures { LiveVectorIsListed }
{}

/// Bytes of a vector's digest give its alternates back, or they and its document are two byte strings of
/// one SHA-256.
pub fn vector_is_read_back()
    ensures { VectorIsReadBack }
{}
