// The lines of a script, as they are read.
ghost use Rattle.run_script.specs.Lines.{ReadsNextLine};

use edge_io::{LineFault, LineReader, Source};
use script_grammar::LineAnswer;
use script_lang::read_line;
use std::alloc::Global;

/// What the next line of a script is.
#[derive(Debug, Drop)]
pub(crate) enum Reading {
    Line(LineAnswer),
    End,
    Fault(LineFault),
    Memory,
}

pub(crate) fn next_reading<S: Source>(alloc: Global, reader: &mut LineReader<'_, S>) -> Reading
    ensures { ReadsNextLine S.reads S.left reader.old reader.new result }
{
    match reader.next_line() {
        Ok(Some(line)) => match read_line(alloc, line) {
            Ok(answer) => Reading::Line(answer),
            Err(_) => Reading::Memory,
        },
        Ok(None) => Reading::End,
        Err(fault) => Reading::Fault(fault),
    }
}
