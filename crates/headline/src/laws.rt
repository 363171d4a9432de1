// The sentence that rests on the definitions alone. This function does nothing when it runs.
ghost use Rattle.headline.specs.Account.{HonestRunsAreWhole};

/// Where each device told its content to the end, the legal history of an account has all lines of the run: no line shows
/// two documents of one SHA-256.
pub fn honest_runs_are_whole()
    ensures { HonestRunsAreWhole }
{}
