// Laws for proofs. These functions do nothing when they run.
ghost use Rattle.edge_io.specs.Laws.{SpelledAreLines, TextIsGiven};

/// Which lines a text has.
pub fn texts_have_lines()
    ensures spelled { SpelledAreLines }
    ensures given { TextIsGiven }
{}
