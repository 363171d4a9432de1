// Any reader as a source, and any writer as a sink.
ghost use Rattle.std.specs.Prelude.{◌≡◌, ◌<◌, ◌≤◌, [], length, take, IfOk, IfErr, OnOk};
ghost use Rattle.std.specs.Io.{ReadsAtMost};
ghost use Rattle.std.specs.Io.KnownBytes.{Appends, Keeps, ReadConsumes, WriteAppends};
ghost use Rattle.device_log.specs.Streams.{read_faults, write_faults};
ghost use Rattle.device_log.specs.StreamLogs.{reads_of, writes_of};
ghost use Rattle.edge_io.specs.Sink.{NotesWrite, WritesOut};

use crate::memory::note_read;
use crate::{Failed, Sink, Source};
use device_log::{SinkLog, SourceLog};
use std::io::{ErrorKind, Read, Write};

/// How often an interrupted call is tried again.
const MAX_RETRIES: u32 = 1_000;

/// A reader as a source. Its log has what the reader gave.
#[derive(Drop)]
pub struct StdSource<R: Read> {
    inner: R,
    faults: u64,
    log: SourceLog,
    ghost failed: { faults ≡ read_faults (reads_of log) },
}

#[tactic(auto, unfolding(device_log::specs::Streams::refused_reads))]
impl<R: Read> StdSource<R> {
    pub fn new(inner: R) -> StdSource<R>
        ensures left { ⟦<StdSource<R> as Source>⟧.left result ≡ R.remaining inner }
        ensures reads { ⟦<StdSource<R> as Source>⟧.reads result ≡ [] }
    {
        StdSource {
            inner,
            faults: 0,
            log: SourceLog::new(),
        }
    }
}

/// Reads some bytes, and tries a call that was interrupted again.
fn read_some<R: Read>(inner: &mut R, into: &mut [u8]) -> Result<usize, Failed>
    ensures bound { ReadsAtMost result into.new }
    ensures bytes { ReadConsumes (R.remaining inner.old) (R.remaining inner.new) result into.new }
{
    for _ in 0..=MAX_RETRIES {
        match inner.read(into) {
            Ok(count) => return Ok(count),
            Err(e) if e.kind() == ErrorKind::Interrupted => {}
            Err(_) => return Err(Failed),
        }
    }
    Err(Failed)
}

#[tactic(auto, unfolding(device_log::specs::Streams::refused_reads))]
impl<R: Read> Source for StdSource<R> {
    ghost reads = { λ source. reads_of source.log };

    ghost left = { λ source. R.remaining source.inner };

    fn read(&mut self, into: &mut [u8]) -> Result<usize, Failed> {
        match read_some(&mut self.inner, into) {
            Ok(count) => {
                note_read(&mut self.log, count, into);
                Ok(count)
            }
            Err(failed) => {
                self.faults = self.faults.saturating_add(1);
                self.log.refused(self.faults);
                Err(failed)
            }
        }
    }

    fn faults(&self) -> u64 {
        self.faults
    }

    ghost are_bytes = { λ source. source.log.are_bytes };
}

/// A writer as a sink. Its log has what the writer took.
#[derive(Drop)]
pub struct StdSink<W: Write> {
    inner: W,
    faults: u64,
    log: SinkLog,
    ghost failed: { faults ≡ write_faults (writes_of log) },
}

/// Writes some of the bytes, but not none.
fn write_some<W: Write>(inner: &mut W, bytes: &[u8]) -> Result<usize, Failed>
    requires { 0 < length bytes.now }
    ensures some { IfOk result (λ n. (0 < n) × (n ≤ length bytes.now)) }
    ensures bytes { WriteAppends (W.contents inner.old) (W.contents inner.new) result bytes.now }
{
    for _ in 0..=MAX_RETRIES {
        match inner.write(bytes) {
            Ok(0) => return Err(Failed),
            Ok(count) => return Ok(count),
            Err(e) if e.kind() == ErrorKind::Interrupted => {}
            Err(_) => return Err(Failed),
        }
    }
    Err(Failed)
}

/// Lets what the writer keeps go out.
fn flush<W: Write>(inner: &mut W) -> Result<(), Failed>
    ensures { Keeps (W.contents inner.old) (W.contents inner.new) }
{
    for _ in 0..=MAX_RETRIES {
        match inner.flush() {
            Ok(()) => return Ok(()),
            Err(e) if e.kind() == ErrorKind::Interrupted => {}
            Err(_) => return Err(Failed),
        }
    }
    Err(Failed)
}

/// Writes all of the bytes, and lets them go out. A failure tells how many the writer took.
fn write_out<W: Write>(inner: &mut W, bytes: &[u8]) -> Result<(), usize>
    ensures all { OnOk result (Appends (W.contents inner.old) (W.contents inner.new) bytes.now) }
    ensures within { IfErr result (λ taken. taken ≤ length bytes.now) }
    ensures front { IfErr result (λ taken.
        Appends (W.contents inner.old) (W.contents inner.new) (take taken bytes.now)) }
{
    let mut at = 0;
    while at < bytes.len() {
        match write_some(inner, &bytes[at..]) {
            Ok(count) => at += count,
            Err(_) => return Err(at),
        }
    }
    match flush(inner) {
        Ok(()) => Ok(()),
        Err(_) => Err(at),
    }
}

#[tactic(auto, unfolding(device_log::specs::Streams::refused_writes, device_log::specs::Streams::taken_by))]
impl<W: Write> StdSink<W> {
    pub fn new(inner: W) -> StdSink<W>
        ensures writes { ⟦<StdSink<W> as Sink>⟧.writes result ≡ [] }
    {
        StdSink {
            inner,
            faults: 0,
            log: SinkLog::new(),
        }
    }
}

#[tactic(auto, unfolding(device_log::specs::Streams::refused_writes, device_log::specs::Streams::taken_by))]
impl<W: Write> Sink for StdSink<W> {
    ghost use Rattle.edge_io.specs.Writers.{writer_of};

    ghost writes = { λ sink. writes_of sink.log };

    fn write_all(&mut self, bytes: &[u8]) -> Result<(), Failed>
        ensures logs { NotesWrite (⟦<StdSink<W> as Sink>⟧.writes self.old)
            (⟦<StdSink<W> as Sink>⟧.writes self.new) result bytes.now }
        ensures goes_out { WritesOut (⟦<StdSink<W> as Sink>⟧.writes self.old)
            (⟦<StdSink<W> as Sink>⟧.writes self.new)
            (W.contents (writer_of self.old)) (W.contents (writer_of self.new)) }
    {
        match write_out(&mut self.inner, bytes) {
            Ok(()) => {
                self.log.took(bytes);
                Ok(())
            }
            Err(taken) => {
                self.faults = self.faults.saturating_add(1);
                self.log.refused(&bytes[..taken], self.faults);
                Err(Failed)
            }
        }
    }

    fn faults(&self) -> u64 {
        self.faults
    }

    ghost are_bytes = { λ sink. sink.log.are_bytes };
}
