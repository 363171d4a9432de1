// What words ask for, by clap's matches of them.
ghost use Rattle.std.specs.Prelude.{◌≡◌, IfErr, IfOk, IfSome, map, option_and_then, option_map, string_bytes};
ghost use Rattle.clap.specs.Words.{found_of, rows_of, subcommand_rows_of};
ghost use Rattle.command_words.specs.Line.{parameter_among, told_by_clap, wish_among, wish_in};
ghost use Rattle.command_words.specs.Words.{HasFewWorkers, MayWantMemory, asked_in_words, command_of, command_verb, wish_of, wish_of_one};

use crate::command::{Command, lone, named, workers};
use crate::line::line;
use clap::ArgMatches;
use clap::error::ErrorKind;
use std::alloc::{AllocError, Global};

/// The matches of the words, or none where they are no command.
fn parse<'a>(alloc: Global, words: &'a [String]) -> Result<Option<ArgMatches<'a>>, AllocError>
    ensures { IfOk result (λ m. option_map subcommand_rows_of m ≡ told_by_clap (map string_bytes words.now)) }
{
    let command = line(alloc)?;
    match command.try_get_matches_from(words) {
        Ok(matches) => Ok(Some(matches)),
        Err(error) => match error.kind() {
            ErrorKind::OutOfMemory => Err(AllocError),
            _ => Ok(None),
        },
    }
}

/// The parameter that the matches have.
fn parameter<'a>(matches: &ArgMatches<'a>) -> Option<&'a str>
    ensures { option_map (λ s. s.now) result ≡ parameter_among (rows_of (found_of matches.now)) }
{
    matches.get_str("parameter")
}

/// What a command of one parameter asks for.
fn command_of_one<'a>(verb: &str, word: &'a str) -> Option<Command<'a>>
    ensures wish { option_map wish_of result ≡ option_and_then (λ v. wish_of_one v word.now) (command_verb verb.now) }
    ensures few { IfSome result HasFewWorkers }
{
    if verb == "replay" {
        return None;
    }
    if verb == "work" {
        let workers = workers(word)?;
        return Some(Command::Work { workers });
    }
    if verb == "inspect" {
        let name = named(word)?;
        return Some(Command::Inspect { name });
    }
    if verb == "check" {
        let name = named(word)?;
        return Some(Command::Check { name });
    }
    None
}

/// What a command asks for with these matches.
fn command_with<'a>(verb: &str, matches: &ArgMatches<'a>) -> Option<Command<'a>>
    ensures wish { option_map wish_of result ≡ wish_in (verb.now, rows_of (found_of matches.now)) }
    ensures few { IfSome result HasFewWorkers }
{
    if verb == "replay" {
        return Some(Command::Replay);
    }
    match parameter(matches) {
        Some(word) => command_of_one(verb, word),
        None => None,
    }
}

/// What the matches ask for.
fn command_in<'a>(matches: &ArgMatches<'a>) -> Option<Command<'a>>
    ensures wish { option_map wish_of result ≡ wish_among (subcommand_rows_of matches.now) }
    ensures few { IfSome result HasFewWorkers }
{
    match matches.subcommand() {
        Some((verb, inner)) => command_with(verb, inner),
        None => None,
    }
}

/// What a command and its parameters ask for.
fn command<'a>(alloc: Global, words: &'a [String]) -> Result<Option<Command<'a>>, AllocError>
    ensures wish { IfOk result (λ asked. option_map wish_of asked ≡ command_of (map string_bytes words.now)) }
    ensures few { IfOk result (λ asked. IfSome asked HasFewWorkers) }
{
    match parse(alloc, words)? {
        Some(matches) => Ok(command_in(&matches)),
        None => Ok(None),
    }
}

/// What the words ask for, where they are a command. The one refusal is want of memory.
pub fn read_words<'a>(alloc: Global, words: &'a [String]) -> Result<Option<Command<'a>>, AllocError>
    ensures asked { IfOk result (λ asked. option_map wish_of asked ≡ asked_in_words words.now) }
    ensures few { IfOk result (λ asked. IfSome asked HasFewWorkers) }
    ensures wanting { IfErr result (λ _. MayWantMemory (asked_in_words words.now)) }
{
    if let [word] = words {
        if let Some(asked) = lone(word.as_str()) {
            return Ok(Some(asked));
        }
    }
    command(alloc, words)
}
