// Laws for proofs. These functions do nothing when they run.
ghost use Rattle.format_laws.specs.Laid.{FormattedIsGuarded, FormattedOpensNow};

/// Behind a format, all that a cut may leave opens to the empty sync with serial 1.
pub fn a_format_opens()
    ensures opens { FormattedOpensNow }
    // So the guards stand with which its session begins.
    ensures guarded { FormattedIsGuarded }
{}
