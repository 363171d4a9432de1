// The first word of a line, which says what kind of step it is.
ghost use Rattle.std.specs.Prelude.{◌≡◌};
ghost use Rattle.script_grammar.specs.Verbs.{same_word, verb_of};

use script_grammar::Verb;

pub(crate) fn is_word(word: &[u8], name: &[u8]) -> bool
    ensures { result ≡ same_word word.now name.now }
{
    word == name
}

/// The verb that a word is.
#[tactic(auto, unfolding(script_grammar::specs::Verbs::verb_of))]
pub(crate) fn verb_of(word: &[u8]) -> Option<Verb>
    ensures { result ≡ verb_of word.now }
{
    if is_word(word, b"format") {
        Some(Verb::Format)
    } else if is_word(word, b"put") {
        Some(Verb::Put)
    } else if is_word(word, b"get") {
        Some(Verb::Get)
    } else if is_word(word, b"open-write") {
        Some(Verb::OpenWrite)
    } else if is_word(word, b"data") {
        Some(Verb::Data)
    } else if is_word(word, b"close") {
        Some(Verb::Close)
    } else if is_word(word, b"abort") {
        Some(Verb::Abort)
    } else if is_word(word, b"open-read") {
        Some(Verb::OpenRead)
    } else if is_word(word, b"next") {
        Some(Verb::Next)
    } else if is_word(word, b"done") {
        Some(Verb::Done)
    } else if is_word(word, b"remove") {
        Some(Verb::Remove)
    } else if is_word(word, b"flush") {
        Some(Verb::Flush)
    } else if is_word(word, b"now") {
        Some(Verb::Now)
    } else if is_word(word, b"fail") {
        Some(Verb::Fail)
    } else if is_word(word, b"stop-after") {
        Some(Verb::StopAfter)
    } else if is_word(word, b"flip") {
        Some(Verb::Flip)
    } else if is_word(word, b"cut") {
        Some(Verb::Cut)
    } else {
        None
    }
}
