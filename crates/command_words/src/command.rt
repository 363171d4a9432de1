// What a command line asks for.
ghost use Rattle.std.specs.Prelude.{◌≡◌, ◌≤◌, IfSome, option_map};
ghost use Rattle.command_words.specs.Words.{HasFewWorkers, flag_wish, name_in, wish_of, workers_in};

/// What a command line asks for.
#[derive(Clone, Copy, Debug)]
pub enum Command<'a> {
    Help,
    Version,
    Replay,
    Work { workers: u32 },
    Inspect { name: &'a str },
    Check { name: &'a str },
}

/// What the one word of a command line asks for, where it is a flag.
pub(crate) fn lone<'a>(word: &str) -> Option<Command<'a>>
    ensures wish { option_map wish_of result ≡ flag_wish word.now }
    ensures few { IfSome result HasFewWorkers }
{
    if word == "--help" || word == "-h" {
        return Some(Command::Help);
    }
    if word == "--version" || word == "-V" {
        return Some(Command::Version);
    }
    None
}

/// How many workers a word asks for: 1 to 16, in digits, with no sign and no zero before them.
pub(crate) fn workers(word: &str) -> Option<u32>
    ensures workers { result ≡ workers_in word.now }
    ensures few { IfSome result (λ n. n ≤ 16) }
{
    match word.as_bytes() {
        &[ones] if (b'1'..=b'9').contains(&ones) => Some(u32::from(ones - b'0')),
        &[b'1', ones] if (b'0'..=b'6').contains(&ones) => Some(10 + u32::from(ones - b'0')),
        _ => None,
    }
}

/// The name of a device that a word gives: any but the empty one.
pub(crate) fn named<'a>(word: &'a str) -> Option<&'a str>
    ensures { option_map (λ s. s.now) result ≡ name_in word.now }
{
    if word.is_empty() { None } else { Some(word) }
}
