// Laws of the grammar and the texts. These functions do nothing when they run.
ghost use Rattle.script_lang.specs.Lines.{AnswersAreLines, LastLinesAreLines};
ghost use Rattle.script_lang.specs.Spelled.{SpelledIsRead};

/// The line that spells a step is read as that step.
pub fn spelled_is_read()
    ensures { SpelledIsRead }
{}

/// The text of each answer is one line.
pub fn answers_are_lines()
    ensures { AnswersAreLines }
{}

/// The last line of a run that ends early is one line.
pub fn last_lines_are_lines()
    ensures { LastLinesAreLines }
{}
