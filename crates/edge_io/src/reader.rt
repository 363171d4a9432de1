// The lines of a source.
ghost use Rattle.std.specs.Prelude.{◌≡◌, ◌+◌, ◌<◌, ◌≤◌, [], length, take, IfOk, IfErr};
ghost use Rattle.std.specs.Borrow.{sem};
ghost use Rattle.std.specs.Io.BufRead.{Rests};
ghost use mir.Syntax.{named};

use crate::buffer::LineBuffer;
use crate::{Failed, Source};
use std::alloc::{AllocError, Global};
use thiserror::Error;

/// The longest line that is read, without its newline.
pub const MAX_LINE_BYTES: usize = 1_048_576;

/// How many lines are read.
pub const MAX_LINES: u64 = 16_777_216;

#[derive(Clone, Copy, Debug, PartialEq, Eq, Error)]
pub enum LineFault {
    /// The first line has the number 1.
    #[error("line {line} has more than {most} bytes", most = MAX_LINE_BYTES)]
    LineTooLong { line: u64 },
    #[error("there are more than {most} lines", most = MAX_LINES)]
    TooManyLines,
    /// This is the source's count of faults.
    #[error("a read failed")]
    ReadFault { count: u64 },
}

/// Reads a source line by line, in a buffer of fixed size.
#[derive(Drop)]
pub struct LineReader<'a, S: Source> {
    source: &'a mut S,
    buffer: LineBuffer,
    given: u64,
}

impl<'a, S: Source> LineReader<'a, S> {
    ghost use Rattle.edge_io.specs.contracts.reader.LineReader.{the_row};
    ghost use Rattle.edge_io.specs.LineReader.{source_of, lines_given, held, answer_of, GivesNextLine};

    /// Takes the memory for the longest line. Where it may want, and the source is still needed then,
    /// make the buffer first.
    pub fn new(alloc: Global, source: &'a mut S) -> Result<LineReader<'a, S>, AllocError>
        ensures source { IfOk result (λ reader. (source_of reader).ghost_name ≡ source.entry.ghost_name) }
        ensures now { IfOk result (λ reader. (source_of reader).now ≡ source.old) }
        ensures given { IfOk result (λ reader. lines_given reader ≡ 0) }
        ensures held { IfOk result (λ reader. held reader ≡ []) }
    {
        let buffer = LineBuffer::new(alloc)?;
        Ok(LineReader::with_buffer(source, buffer))
    }

    pub fn with_buffer(source: &'a mut S, buffer: LineBuffer) -> LineReader<'a, S>
        ensures source { (source_of result).ghost_name ≡ source.entry.ghost_name }
        ensures now { (source_of result).now ≡ source.old }
        ensures given { lines_given result ≡ 0 }
        ensures held { held result ≡ buffer.rest }
    {
        LineReader {
            source,
            buffer,
            given: 0,
        }
    }

    /// Gives the source back, behind the bytes that were read.
    pub fn into_source(self) -> &'a mut S
        ensures source { result.ghost_name ≡ (source_of self.entry).ghost_name }
        ensures now { result.now ≡ (source_of self.entry).now }
    {
        let LineReader { source, .. } = self;
        source
    }

    /// How many lines were given.
    pub fn lines_given(&self) -> u64
        ensures { result ≡ lines_given self.now }
    {
        self.given
    }

    /// The next line without its newline, or `None` at the end.
    pub fn next_line(&mut self) -> Result<Option<&[u8]>, LineFault>
        ensures* after { sem 𝓛 (Rests (the_row (record { mir = named 0; lft = [] }) S.row) self.entry
            (λ new. GivesNextLine S.reads S.left self.old new (answer_of result))) }
    {
        if self.advance()? {
            Ok(Some(self.buffer.line()))
        } else {
            Ok(None)
        }
    }
}

impl<S: Source> LineReader<'_, S> {
    ghost use Rattle.edge_io.specs.LineReader.{GivesNextLine, Waits, Ends, GivesRest, IsDecided, answer_so};
    ghost use Rattle.edge_io.specs.LineBuffer.{IsClear, IsNewline};

    /// Makes the next line the line of the buffer. Without one it gives false.
    fn advance(&mut self) -> Result<bool, LineFault>
        ensures { GivesNextLine S.reads S.left self.old self.new (answer_so self.new.buffer.line result) }
    {
        if self.given >= MAX_LINES {
            return self.behind_last();
        }
        let mut searched = 0;
        'search: loop {
            if let Some(len) = self.buffer.newline(searched) {
                self.give_line(len);
                return Ok(true);
            }
            searched = self.buffer.len();
            if searched > MAX_LINE_BYTES {
                return Err(LineFault::LineTooLong {
                    line: self.given + 1,
                });
            }
            match self.fill() {
                Ok(0) => return Ok(self.give_rest()),
                Ok(_) => {}
                Err(fault) => return Err(fault),
            }
        }
    }

    /// Behind the last line that may be, only the end may come.
    fn behind_last(&mut self) -> Result<bool, LineFault>
        requires { MAX_LINES ≤ self.old.given }
        ensures { GivesNextLine S.reads S.left self.old self.new (answer_so self.new.buffer.line result) }
    {
        if self.buffer.len() > 0 {
            return Err(LineFault::TooManyLines);
        }
        match self.fill() {
            Ok(0) => Ok(false),
            Ok(_) => Err(LineFault::TooManyLines),
            Err(fault) => Err(fault),
        }
    }

    /// Gives the bytes before the first newline.
    fn give_line(&mut self, len: usize)
        requires within { self.old.given < MAX_LINES }
        requires newline { IsNewline self.old.buffer.rest len }
        requires short { len ≤ MAX_LINE_BYTES }
        ensures { GivesNextLine S.reads S.left self.old self.new (Ok (Some self.new.buffer.line)) }
    {
        self.buffer.take_line(len);
        self.given += 1;
    }

    /// Gives what is left at the end of the source, if that is not nothing.
    fn give_rest(&mut self) -> bool
        requires { self.old.given < MAX_LINES }
        ensures { GivesRest self.old self.new result }
    {
        if self.buffer.len() == 0 {
            return false;
        }
        self.buffer.take_rest();
        self.given += 1;
        true
    }

    /// Reads more bytes; none come only at the end of the source.
    fn fill(&mut self) -> Result<usize, LineFault>
        requires short { length self.old.buffer.rest ≤ MAX_LINE_BYTES }
        requires undecided { ¬ IsDecided self.old.given self.old.buffer.rest }
        ensures waits { IfOk result (λ n. 0 < n → Waits S.reads S.left self.old self.new) }
        ensures more { IfOk result (λ n. length self.new.buffer.rest ≡ length self.old.buffer.rest + n) }
        ensures front { take (length self.old.buffer.rest) self.new.buffer.rest ≡ self.old.buffer.rest }
        ensures end { result ≡ Ok 0 → Ends S.reads S.left self.old self.new }
        ensures fault { IfErr result (λ fault. GivesNextLine S.reads S.left self.old self.new (Err fault)) }
    {
        match self.buffer.fill(self.source) {
            Ok(count) => Ok(count),
            Err(_) => Err(LineFault::ReadFault {
                count: self.source.faults(),
            }),
        }
    }
}
