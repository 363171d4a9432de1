// Reads one line of a script.
ghost use Rattle.std.specs.Prelude.{◌≡◌, IfOk};
ghost use Rattle.script_grammar.specs.Grammar.{step_of, is_passed_over, reading_of};
ghost use Rattle.script_lang.specs.Refusal.{ReadsValue};

use crate::left::Words;
use crate::steps::step_by;
use crate::tokens::Refusal;
use crate::verbs::verb_of;
use script_grammar::{BadKind, BadLine, LineAnswer, Step};
use std::alloc::{AllocError, Global};

/// The step that a line asks for.
#[tactic(auto, unfolding(script_grammar::specs::Grammar::step_of))]
fn step(alloc: Global, line: &[u8]) -> Result<Step, Refusal>
    ensures { ReadsValue (step_of line.now) result }
{
    let mut words = Words::new(line);
    let first = words.word()?;
    match verb_of(first.bytes) {
        Some(verb) => step_by(alloc, verb, &mut words),
        None => Err(Refusal::Bad(BadLine {
            column: first.column,
            kind: BadKind::Verb,
        })),
    }
}

pub(crate) fn is_passed_over(line: &[u8]) -> bool
    ensures { result ≡ is_passed_over line.now }
{
    line.is_empty() || line[0] == b'#'
}

/// Reads one line of a script, without its newline.
#[tactic(auto, unfolding(script_grammar::specs::Grammar::reading_of))]
pub fn read_line(alloc: Global, bytes: &[u8]) -> Result<LineAnswer, AllocError>
    ensures { IfOk result (λ answer. answer ≡ reading_of bytes.now) }
{
    if is_passed_over(bytes) {
        return Ok(LineAnswer::Nothing);
    }
    match step(alloc, bytes) {
        Ok(step) => Ok(LineAnswer::Step(step)),
        Err(Refusal::Bad(fault)) => Ok(LineAnswer::Bad(fault)),
        Err(Refusal::Memory(error)) => Err(error),
    }
}
