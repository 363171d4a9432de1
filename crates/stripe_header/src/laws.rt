// Laws for proofs. This function does nothing when it runs.
ghost use Rattle.stripe_header.specs.Accepted.{CopiesAreAccepted, AcceptedAreCopies, ShutIsRefused};

/// Which bytes an opening takes for a copy.
pub fn copies_are_told()
    ensures accepted { CopiesAreAccepted }
    ensures found { AcceptedAreCopies }
    ensures shut { ShutIsRefused }
{}
