// What the answers of a run tell.
ghost use Rattle.run_promise.specs.Lines.{CountsAreKept, TextsAreOutput};

/// What is printed for the answers of a run is its output.
pub fn texts_are_output()
    ensures { TextsAreOutput }
{}

/// Where no count above 0 is told of any device, none is told in an answer.
pub fn counts_are_kept()
    ensures { CountsAreKept }
{}
