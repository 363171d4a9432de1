// A source and a sink in memory.
ghost use Rattle.std.specs.Prelude.{◌≡◌, ◌↔◌, ◌+◌, ◌-◌, ◌<◌, ◌≤◌, ◌^◌, [], ◌∷◌, ◌++◌, length, take, drop, min, Contains, IsErr, IfOk, vec_len, vec_capacity};
ghost use Rattle.std.specs.Io.{ReadsAtMost};
ghost use Rattle.std.specs.Io.KnownBytes.{ReadConsumes};
ghost use Rattle.device_log.specs.Faults.{next_count};
ghost use Rattle.device_log.specs.Streams.{taken_by, read_faults, write_faults};
ghost use Rattle.device_log.specs.StreamLogs.{reads_of, writes_of};
ghost use Rattle.edge_io.specs.Source.{NotesRead, gave_into};
ghost use Rattle.edge_io.specs.Sink.{NotesWrite};

use crate::{Failed, Sink, Source};
use device_log::{SinkLog, SourceLog};
use std::alloc::{AllocError, Global};

/// A source that gives the bytes of a vector, and fails where it is told to.
#[derive(Drop)]
pub struct MemSource {
    bytes: Vec<u8>,
    at: usize,
    piece: usize,
    made: u64,
    fail_at: Vec<u64>,
    faults: u64,
    log: SourceLog,
    ghost within: { at ≤ length bytes.items },
    ghost some: { 0 < piece },
    ghost counted: { made ≡ min (length (reads_of log)) (2 ^ 64 - 1) },
    ghost failed: { faults ≡ read_faults (reads_of log) },
}

#[tactic(auto, unfolding(device_log::specs::Streams::refused_reads))]
impl MemSource {
    ghost use Rattle.edge_io.specs.Memory.{feed_of};

    /// The reads whose numbers are listed fail; the first read has the number 1.
    pub fn new(bytes: Vec<u8>, fail_at: Vec<u64>) -> MemSource
        ensures { feed_of result ≡ record {
          left = bytes.items;
          piece = 2 ^ 64 - 1;
          fail_at = fail_at.items;
          reads = [];
        } }
    {
        MemSource {
            bytes,
            at: 0,
            piece: usize::MAX,
            made: 0,
            fail_at,
            faults: 0,
            log: SourceLog::new(),
        }
    }

    /// The same source, but a read gives at most so many bytes.
    pub fn in_pieces_of(self, most: usize) -> MemSource
        requires { 0 < most }
        ensures { feed_of result ≡ record (feed_of self) { piece = most } }
    {
        let mut source = self;
        source.piece = most;
        source
    }
}

/// Copies the front of one slice to another, as much as there is in both but at most so many bytes.
fn copy_front(from: &[u8], into: &mut [u8], most: usize) -> usize
    ensures count { result ≡ min most (min (length from.now) (length into.old)) }
    ensures copied { take result into.new ≡ take result from.now }
{
    let len = most.min(from.len().min(into.len()));
    into[..len].copy_from_slice(&from[..len]);
    len
}

/// Notes a read of so many bytes into a place.
pub(crate) fn note_read(log: &mut SourceLog, count: usize, place: &[u8])
    requires { count ≤ length place.now }
    ensures { reads_of log.new ≡ gave_into count place.now ∷ reads_of log.old }
{
    if place.is_empty() || count > 0 {
        log.gave(&place[..count]);
    } else {
        log.came_to_end();
    }
}

#[tactic(auto, unfolding(device_log::specs::Streams::refused_reads))]
impl Source for MemSource {
    ghost use Rattle.std.specs.Prelude.{Some};
    ghost use Rattle.edge_io.specs.Memory.{feed_of};

    ghost reads = { λ source. (feed_of source).reads };

    ghost left = { λ source. Some (feed_of source).left };

    fn read(&mut self, into: &mut [u8]) -> Result<usize, Failed>
        ensures bound { ReadsAtMost result into.new }
        ensures logs { NotesRead (feed_of self.old).reads (feed_of self.new).reads result into.new }
        ensures left { ReadConsumes (Some (feed_of self.old).left) (Some (feed_of self.new).left)
            result into.new }
        ensures fails { IsErr result
            ↔ Contains (feed_of self.old).fail_at (next_count (length (feed_of self.old).reads)) }
        ensures count { IfOk result (λ n. n ≡ min (feed_of self.old).piece
            (min (length (feed_of self.old).left) (length into.old))) }
        ensures same { (feed_of self.new).fail_at ≡ (feed_of self.old).fail_at }
        ensures piece { (feed_of self.new).piece ≡ (feed_of self.old).piece }
    {
        self.made = self.made.saturating_add(1);
        if self.fail_at.contains(&self.made) {
            self.faults = self.faults.saturating_add(1);
            self.log.refused(self.faults);
            return Err(Failed);
        }
        let len = copy_front(&self.bytes[self.at..], into, self.piece);
        self.at += len;
        note_read(&mut self.log, len, into);
        Ok(len)
    }

    fn faults(&self) -> u64 {
        self.faults
    }

    ghost are_bytes = { λ source. source.log.are_bytes };
}

/// A sink that takes bytes into memory while there is room for them.
#[derive(Drop)]
pub struct MemSink {
    bytes: Vec<u8>,
    room: u64,
    faults: u64,
    log: SinkLog,
    ghost fits: { vec_len bytes + room ≤ vec_capacity bytes },
    ghost taken: { bytes.items ≡ taken_by (writes_of log) },
    ghost failed: { faults ≡ write_faults (writes_of log) },
}

#[tactic(auto, unfolding(device_log::specs::Streams::refused_writes, device_log::specs::Streams::taken_by))]
impl MemSink {
    ghost use Rattle.edge_io.specs.Memory.{intake_of};

    /// It takes at once the memory for so many bytes.
    pub fn new(alloc: Global, room: u64) -> Result<MemSink, AllocError>
        ensures { IfOk result (λ sink. intake_of sink
            ≡ record { bytes = []; room = room; writes = [] }) }
    {
        let bytes = Vec::with_capacity(alloc, room as usize)?;
        Ok(MemSink {
            bytes,
            room,
            faults: 0,
            log: SinkLog::new(),
        })
    }

    pub fn taken(&self) -> &[u8]
        ensures bytes { result.now ≡ (intake_of self.now).bytes }
        ensures taken { result.now ≡ taken_by (intake_of self.now).writes }
    {
        &self.bytes
    }
}

#[tactic(auto, unfolding(device_log::specs::Streams::refused_writes, device_log::specs::Streams::taken_by))]
impl Sink for MemSink {
    ghost use Rattle.edge_io.specs.Memory.{intake_of};

    ghost writes = { λ sink. (intake_of sink).writes };

    fn write_all(&mut self, bytes: &[u8]) -> Result<(), Failed>
        ensures logs { NotesWrite (intake_of self.old).writes (intake_of self.new).writes
            result bytes.now }
        ensures fails { IsErr result ↔ ((intake_of self.old).room < length bytes.now) }
        ensures takes { (intake_of self.new).bytes
            ≡ (intake_of self.old).bytes ++ take (intake_of self.old).room bytes.now }
        ensures room { (intake_of self.new).room ≡ (intake_of self.old).room - length bytes.now }
    {
        let fits = self.room >= bytes.len() as u64;
        let len = if fits {
            bytes.len()
        } else {
            self.room as usize
        };
        self.bytes.extend_from_slice(&bytes[..len]).unwrap();
        self.room -= len as u64;
        if fits {
            self.log.took(bytes);
            return Ok(());
        }
        self.faults = self.faults.saturating_add(1);
        self.log.refused(&bytes[..len], self.faults);
        Err(Failed)
    }

    fn faults(&self) -> u64 {
        self.faults
    }

    ghost are_bytes = { λ sink. sink.log.are_bytes };
}
