// The lines before the jobs, as they are read.
ghost use Rattle.work_script.specs.Before.{ReadsBefore};

use edge_io::{LineFault, LineReader, Source};
use script_grammar::LineAnswer;
use script_lang::{read_line, read_split};
use std::alloc::Global;

/// What the next line before the jobs is.
#[derive(Debug, Drop)]
pub(crate) enum Reading {
    Line(LineAnswer),
    Split,
    End,
    Fault(LineFault),
    Memory,
}

pub(crate) fn next_reading<S: Source>(alloc: Global, reader: &mut LineReader<'_, S>) -> Reading
    ensures { ReadsBefore S.reads S.left reader.old reader.new result }
{
    match reader.next_line() {
        Ok(Some(line)) => match read_split(line) {
            Some(Ok(())) => Reading::Split,
            Some(Err(fault)) => Reading::Line(LineAnswer::Bad(fault)),
            None => match read_line(alloc, line) {
                Ok(answer) => Reading::Line(answer),
                Err(_) => Reading::Memory,
            },
        },
        Ok(None) => Reading::End,
        Err(fault) => Reading::Fault(fault),
    }
}
