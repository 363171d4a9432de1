// The commands, as `clap` is told them.
ghost use Rattle.std.specs.Prelude.{◌≡◌, IfOk};
ghost use Rattle.clap.specs.Words.{app_of, new_app};
ghost use Rattle.command_words.specs.Line.{bare_app, command_app, one_app, with_command};

use clap::{Arg, Command};
use std::alloc::{AllocError, Global};

/// The command line with no command yet: `--help` is no flag of clap's, and `help` no command.
fn bare<'a>(alloc: Global) -> Command<'a>
    ensures { app_of result ≡ bare_app }
{
    Command::new(alloc, "cache_tool")
        .no_binary_name(true)
        .disable_help_flag(true)
        .disable_help_subcommand(true)
        .subcommand_required(true)
}

/// Adds a command that takes no parameter.
fn with_plain<'a>(
    alloc: Global,
    above: Command<'a>,
    verb: &'a str,
) -> Result<Command<'a>, AllocError>
    ensures { IfOk result (λ c. app_of c ≡ with_command (app_of above.entry) (new_app verb.now)) }
{
    let command = Command::new(alloc, verb);
    let all = above.subcommand(command)?;
    Ok(all)
}

/// Adds a command that takes one parameter.
fn with_one<'a>(alloc: Global, above: Command<'a>, verb: &'a str) -> Result<Command<'a>, AllocError>
    ensures { IfOk result (λ c. app_of c ≡ with_command (app_of above.entry) (one_app verb.now)) }
{
    let parameter = Arg::new(alloc, "parameter").required(true);
    let command = Command::new(alloc, verb).arg(parameter)?;
    let all = above.subcommand(command)?;
    Ok(all)
}

/// The command line with all commands.
pub(crate) fn line<'a>(alloc: Global) -> Result<Command<'a>, AllocError>
    ensures { IfOk result (λ c. app_of c ≡ command_app) }
{
    let replay = with_plain(alloc, bare(alloc), "replay")?;
    let work = with_one(alloc, replay, "work")?;
    let inspect = with_one(alloc, work, "inspect")?;
    let all = with_one(alloc, inspect, "check")?;
    Ok(all)
}
