// How a run ends that does not answer all of its lines, and what its last line says.
ghost use Rattle.std.specs.Prelude.{◌≡◌, IfOk, string_bytes};
ghost use Rattle.script_grammar.specs.Texts.{kind_word, usage_line, bad_script_line, read_fault_line, bay_fault_line, too_long_line, too_many_line, no_cache_line, last_line};

use script_grammar::{BadKind, BadLine, LastLine};
use std::alloc::{AllocError, Global};

fn kind_word(kind: BadKind) -> &'static str
    ensures { result.now ≡ kind_word kind }
{
    match kind {
        BadKind::Verb => "verb",
        BadKind::Word => "word",
        BadKind::Count => "count",
        BadKind::Number => "number",
        BadKind::Body => "body",
        BadKind::Field => "field",
    }
}

/// The last line of a run whose words are no command. It takes no memory.
#[tactic(auto, unfolding(script_grammar::specs::Texts::usage_line))]
pub fn usage_text() -> &'static str
    ensures { result.now ≡ usage_line }
{
    "error usage\n"
}

#[tactic(auto, unfolding(script_grammar::specs::Texts::bad_script_line))]
fn bad_script(alloc: Global, line: u64, column: u64, kind: BadKind) -> Result<String, AllocError>
    ensures { IfOk result (λ text. string_bytes text ≡ bad_script_line line column kind) }
{
    let word = kind_word(kind);
    format!(in alloc; "error bad-script line {line} column {column} {word}\n")
}

#[tactic(auto, unfolding(script_grammar::specs::Texts::read_fault_line))]
fn read_fault(alloc: Global) -> Result<String, AllocError>
    ensures { IfOk result (λ text. string_bytes text ≡ read_fault_line) }
{
    String::from_str(alloc, "error read-fault\n")
}

#[tactic(auto, unfolding(script_grammar::specs::Texts::bay_fault_line))]
fn bay_fault(alloc: Global) -> Result<String, AllocError>
    ensures { IfOk result (λ text. string_bytes text ≡ bay_fault_line) }
{
    String::from_str(alloc, "error bay-fault\n")
}

#[tactic(auto, unfolding(script_grammar::specs::Texts::too_long_line))]
fn too_long(alloc: Global, line: u64) -> Result<String, AllocError>
    ensures { IfOk result (λ text. string_bytes text ≡ too_long_line line) }
{
    format!(in alloc; "error line-too-long line {line}\n")
}

#[tactic(auto, unfolding(script_grammar::specs::Texts::too_many_line))]
fn too_many(alloc: Global) -> Result<String, AllocError>
    ensures { IfOk result (λ text. string_bytes text ≡ too_many_line) }
{
    String::from_str(alloc, "error too-many-lines\n")
}

#[tactic(auto, unfolding(script_grammar::specs::Texts::no_cache_line))]
fn no_cache(alloc: Global, line: u64) -> Result<String, AllocError>
    ensures { IfOk result (λ text. string_bytes text ≡ no_cache_line line) }
{
    format!(in alloc; "error no-cache line {line}\n")
}

/// The last line of a run that ends early, with its newline.
pub fn last_line_text(alloc: Global, last: LastLine) -> Result<String, AllocError>
    ensures { IfOk result (λ text. string_bytes text ≡ last_line last) }
{
    match last {
        LastLine::Usage => String::from_str(alloc, usage_text()),
        LastLine::BadScript { line, fault } => bad_script(alloc, line, fault.column, fault.kind),
        LastLine::ReadFault => read_fault(alloc),
        LastLine::BayFault => bay_fault(alloc),
        LastLine::LineTooLong { line } => too_long(alloc, line),
        LastLine::TooManyLines => too_many(alloc),
        LastLine::NoCache { line } => no_cache(alloc, line),
    }
}
