// The bytes that a line reader has read and keeps.
ghost use Rattle.std.specs.Prelude.{◌≡◌, ◌+◌, ◌-◌, ◌<◌, ◌≤◌, [], length, take, drop, slice_range, IfOk, IfSome, OnErr, MatchOption};
ghost use Rattle.edge_io.specs.Source.{ReadsOnce};
ghost use Rattle.edge_io.specs.LineBuffer.{IsClear, IsNewline};

use crate::reader::MAX_LINE_BYTES;
use crate::{Failed, Source};
use memchr::memchr;
use std::alloc::{AllocError, Global};
use std::marker::Model;

/// The longest line and its newline.
pub(crate) const CAPACITY: usize = MAX_LINE_BYTES + 1;

/// The memory of a line reader: room for the longest line and its newline.
#[derive(Drop)]
pub struct LineBuffer {
    bytes: Vec<u8>,
    line_start: usize,
    line_end: usize,
    /// Here the bytes begin that are in no line.
    start: usize,
    /// Here the bytes end that were read.
    end: usize,
}

impl Model for LineBuffer {
    ghost use Rattle.std.specs.Prelude.{◌≡◌, ◌-◌, ◌≤◌, slice_range, vec_len};
    ghost use Rattle.edge_io.specs.LineBuffer.{Shown};
    ghost use Rattle.edge_io.specs.declared.buffer.TheConstants.{CAPACITY};

    ghost Value = { Shown };

    ghost view = { λ b. record {
      line = slice_range b.bytes.items b.line_start b.line_end;
      rest = slice_range b.bytes.items b.start b.end;
      room = CAPACITY - b.end;
    } };

    ghost invariant = { λ b. (vec_len b.bytes ≡ CAPACITY) × (b.line_start ≤ b.line_end)
        × (b.line_end ≤ CAPACITY) × (b.start ≤ b.end) × (b.end ≤ CAPACITY) };
}

impl LineBuffer {
    pub fn new(alloc: Global) -> Result<LineBuffer, AllocError>
        ensures { IfOk result (λ buffer. buffer.rest ≡ []) }
    {
        let bytes = vec![in alloc; 0; CAPACITY]?;
        Ok(LineBuffer {
            bytes,
            line_start: 0,
            line_end: 0,
            start: 0,
            end: 0,
        })
    }

    /// The line that was given last.
    pub(crate) fn line(&self) -> &[u8]
        ensures { result.now ≡ self.now.line }
    {
        &self.bytes[self.line_start..self.line_end]
    }

    /// How many bytes were read that are in no line.
    pub(crate) fn len(&self) -> usize
        ensures len { result ≡ length self.now.rest }
        ensures fits { result ≤ CAPACITY }
    {
        self.end - self.start
    }

    /// The place of the first newline among the bytes in no line, which is not among the first so many.
    pub(crate) fn newline(&self, from: usize) -> Option<usize>
        requires within { from ≤ length self.now.rest }
        requires clear { IsClear self.now.rest from }
        ensures place { MatchOption result (IsClear self.now.rest (length self.now.rest)) (IsNewline self.now.rest) }
        ensures short { IfSome result (λ place. place ≤ MAX_LINE_BYTES) }
    {
        newline_behind(&self.bytes[self.start..self.end], from)
    }

    /// Gives so many bytes as a line, and leaves the newline behind them out.
    pub(crate) fn take_line(&mut self, len: usize)
        requires { len < length self.old.rest }
        ensures line { self.new.line ≡ take len self.old.rest }
        ensures rest { self.new.rest ≡ drop (len + 1) self.old.rest }
    {
        self.line_start = self.start;
        self.line_end = self.start + len;
        self.start = self.line_end + 1;
    }

    /// Gives all bytes as the last line.
    pub(crate) fn take_rest(&mut self)
        ensures line { self.new.line ≡ self.old.rest }
        ensures rest { self.new.rest ≡ [] }
    {
        self.line_start = self.start;
        self.line_end = self.end;
        self.start = self.end;
    }

    /// Makes room for bytes that are still to be read.
    fn make_room(&mut self)
        requires { length self.old.rest < CAPACITY }
        ensures rest { self.new.rest ≡ self.old.rest }
        ensures room { 0 < self.new.room }
    {
        if self.end < CAPACITY {
            return;
        }
        move_to_front(&mut self.bytes, self.start, self.end);
        self.line_start = 0;
        self.line_end = 0;
        self.end -= self.start;
        self.start = 0;
    }

    /// Reads more bytes behind those that are in no line.
    fn read_from<S: Source>(&mut self, source: &mut S) -> Result<usize, Failed>
        requires { 0 < self.old.room }
        ensures reads { ReadsOnce S.reads S.left (λ n. drop (length self.old.rest) self.new.rest)
            source.old source.new result }
        ensures more { IfOk result (λ n. length self.new.rest ≡ length self.old.rest + n) }
        ensures front { take (length self.old.rest) self.new.rest ≡ self.old.rest }
        ensures err { OnErr result (self.new.rest ≡ self.old.rest) }
    {
        match read_behind(source, &mut self.bytes, self.end) {
            Ok(count) => {
                self.end += count;
                Ok(count)
            }
            Err(failed) => Err(failed),
        }
    }

    /// Reads more bytes behind those that are in no line; none come only at the end of the source.
    pub(crate) fn fill<S: Source>(&mut self, source: &mut S) -> Result<usize, Failed>
        requires { length self.old.rest < CAPACITY }
        ensures reads { ReadsOnce S.reads S.left (λ n. drop (length self.old.rest) self.new.rest)
            source.old source.new result }
        ensures more { IfOk result (λ n. length self.new.rest ≡ length self.old.rest + n) }
        ensures front { take (length self.old.rest) self.new.rest ≡ self.old.rest }
        ensures err { OnErr result (self.new.rest ≡ self.old.rest) }
    {
        self.make_room();
        self.read_from(source)
    }
}

/// The place of the first newline, which is not among the first so many bytes.
fn newline_behind(bytes: &[u8], from: usize) -> Option<usize>
    requires within { from ≤ length bytes.now }
    requires clear { IsClear bytes.now from }
    ensures { MatchOption result (IsClear bytes.now (length bytes.now)) (IsNewline bytes.now) }
{
    match memchr(b'\n', &bytes[from..]) {
        Some(place) => Some(from + place),
        None => None,
    }
}

/// Reads into the bytes behind the first so many.
fn read_behind<S: Source>(source: &mut S, bytes: &mut [u8], end: usize) -> Result<usize, Failed>
    requires { end < length bytes.old }
    ensures front { take end bytes.new ≡ take end bytes.old }
    ensures bound { IfOk result (λ n. end + n ≤ length bytes.new) }
    ensures reads { ReadsOnce S.reads S.left (λ n. take n (drop end bytes.new))
        source.old source.new result }
{
    source.read(&mut bytes[end..])
}

/// Moves the bytes of a range to the front.
fn move_to_front(bytes: &mut [u8], start: usize, end: usize)
    requires order { start ≤ end }
    requires within { end ≤ length bytes.old }
    ensures front { slice_range bytes.new 0 (end - start) ≡ slice_range bytes.old start end }
{
    bytes.copy_within(start..end, 0);
}
