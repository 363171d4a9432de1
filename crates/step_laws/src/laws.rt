// Laws for proofs. These functions do nothing when they run.
ghost use Rattle.step_laws.specs.StepLaws.{WriterIsEnded};

/// A step that ends by giving a put up leaves it not open.
pub fn writer_is_ended()
    ensures { WriterIsEnded }
{}
