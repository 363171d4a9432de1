// The open directory of a stripe.

ghost use Rattle.std.specs.Prelude.{◌≡◌, ◌+◌, ◌<◌, ◌≤◌, length, [], None, OnOk, OnErr, IsOk, IfOk, IfSome, false, if◌then◌else◌, is_some, true};
ghost use Rattle.fragment_table.specs.Table.{CanGrow, made_row, total_length};
ghost use Rattle.std.specs.Map.{values_of};
ghost use Rattle.open_directory.specs.declared.kept.Writer.{Writer};
ghost use Rattle.open_directory.specs.Directory.{IsHeldDirectory, count_of_rows, kept_cuts, ended, put_followed, followers_of, is_ended_state, is_kept_open, is_open_state, is_writing_phase, least_next, moved, with_open_writer, reader_at, put_state, room_for_fragments, row_of_index, kept_with_cut, with_reader, with_reader_room, with_room, held_without_reader, writers_but, writers_of};
ghost use Rattle.open_directory.specs.Refusal.{IsWantOfMemory, RefusesCall, RefusesOnly, opening_refusal, writing_refusal};

use crate::index::Index;
use crate::kept::{KeptPut, Phase, PutState, Reader, Writer};
use crate::puts::{self, Puts};
use crate::readers::Readers;
use crate::refusal::OpenRefusal;
use alternate_vector::Fields;
use fragment_table::FragTable;
use std::alloc::{AllocError, Global};
use std::collections::BTreeMap;
use std::marker::Model;
use tape_base::{Digest, Key, MAX_WRITERS};

/// The open writers of a stripe, its open readers, and the puts that readers follow.
#[derive(Debug, Drop)]
pub struct OpenDirectory {
    alloc: Global,
    writers: Vec<Writer>,
    puts: Puts,
    readers: Readers,
    index: Index,
}

impl Model for OpenDirectory {
    ghost use Rattle.open_directory.specs.Directory.{Held, IsHeldDirectory, room_now};
    ghost use Rattle.open_directory.specs.Index.{index_room};

    ghost Value = { Held };

    ghost view = { λ d. record { writers = d.writers.items; puts = d.puts.entries; readers = d.readers.entries; reader_room = room_now d.readers.room (index_room d.index) } };

    ghost use Rattle.open_directory.specs.Nexts.{IsKeptDirectory};

    ghost invariant = { λ d. IsKeptDirectory (record { writers = d.writers.items; puts = d.puts.entries; readers = d.readers.entries; reader_room = room_now d.readers.room (index_room d.index) }) d.index.trees.entries };
}

impl OpenDirectory {
    /// Nobody writes and nobody reads, which takes no memory.
    pub fn new(alloc: Global) -> OpenDirectory
        ensures writers { result.writers ≡ [] }
        ensures puts { result.puts ≡ [] }
        ensures readers { result.readers ≡ [] }
    {
        OpenDirectory {
            alloc,
            writers: Vec::new(alloc),
            puts: BTreeMap::new(alloc),
            readers: Readers::new(alloc),
            index: Index::new(alloc),
        }
    }

    /// Opens the writer of a put.
    pub fn open_writer(
        &mut self,
        put: u64,
        key: Key,
        request: Fields,
        response: Fields,
    ) -> Result<(), OpenRefusal>
        requires { put_state put self.old.puts ≡ None }
        ensures exact { RefusesCall result (opening_refusal self.old) }
        ensures ok { let writer : Writer = record { put = put; key = key; request = request; response = response } in
            OnOk result (self.new
            ≡ with_open_writer writer (room_for_fragments put self.new.puts) self.old) }
        ensures err { OnErr result (self.new ≡ self.old) }
    {
        if self.writers.len() == MAX_WRITERS as usize {
            return Err(OpenRefusal::TooManyWriters);
        }
        self.writers.reserve(1)?;
        let kept = KeptPut {
            phase: Phase::Writing,
            cuts: FragTable::new(self.alloc),
            followers: 0,
        };
        self.puts.insert(put, kept)?;
        let pushed: Result<_, _> = self.writers.push(Writer {
            put,
            key,
            request,
            response,
        });
        pushed.unwrap();
        Ok(())
    }

    /// Adds the next fragment of a put, and says how many there are then.
    pub fn cut_fragment(
        &mut self,
        put: u64,
        length: u32,
        digest: Digest,
    ) -> Result<u32, OpenRefusal>
        requires some { 0 < length }
        requires few { CanGrow (kept_cuts put self.old.puts) }
        ensures exact { RefusesCall result (writing_refusal put self.old.puts) }
        ensures ok { OnOk result (self.new ≡ record self.old { puts = kept_with_cut put (made_row length digest.0) (room_for_fragments put self.new.puts) self.old.puts }) }
        ensures count { IfOk result (λ n. n ≡ count_of_rows (kept_cuts put self.new.puts)) }
        ensures err { OnErr result (self.new ≡ record self.old { puts = with_room put (room_for_fragments put self.new.puts) self.old.puts }) }
        ensures reserved { IsWantOfMemory result → room_for_fragments put self.old.puts ≡ 0 }
    {
        puts::push_row(&mut self.puts, put, length, digest)
    }

    /// Makes room so that the next fragment of a put takes no memory.
    pub fn reserve_cut(&mut self, put: u64) -> Result<(), OpenRefusal>
        ensures exact { RefusesCall result (writing_refusal put self.old.puts) }
        ensures room { OnOk result (0 < room_for_fragments put self.new.puts) }
        ensures rest { self.new ≡ record self.old { puts = with_room put (room_for_fragments put self.new.puts) self.old.puts } }
        ensures reserved { IsWantOfMemory result → room_for_fragments put self.old.puts ≡ 0 }
    {
        puts::reserve_row(&mut self.puts, put)
    }

    /// The put of the last open writer of a key whose request and response match a request.
    pub fn follow(&self, key: Key, request: &Fields) -> Option<u64>
        ensures last { result ≡ put_followed key request.now self.now.writers }
        ensures open { IfSome result (λ put. is_kept_open put self.now.puts ≡ true) }
    {
        last_match(&self.writers, key, request)
    }

    /// Commits a put: what was cut is all of it.
    pub fn close(&mut self, put: u64) -> Result<(), OpenRefusal>
        ensures exact { RefusesOnly result (writing_refusal put self.old.puts) }
        ensures ok { OnOk result (self.new ≡ ended Phase.Closed put self.old) }
        ensures err { OnErr result (self.new ≡ self.old) }
    {
        self.end(put, Phase::Closed)
    }

    /// Gives a put up.
    pub fn abort(&mut self, put: u64) -> Result<(), OpenRefusal>
        ensures exact { RefusesOnly result (writing_refusal put self.old.puts) }
        ensures ok { OnOk result (self.new ≡ ended Phase.GivenUp put self.old) }
        ensures err { OnErr result (self.new ≡ self.old) }
    {
        self.end(put, Phase::GivenUp)
    }

    /// Makes room so that so many more readers take no memory.
    pub fn reserve_readers(&mut self, more: u32) -> Result<(), AllocError>
        ensures room { OnOk result (more ≤ self.new.reader_room) }
        ensures kept { self.old.reader_room ≤ self.new.reader_room }
        ensures reserved { more ≤ self.old.reader_room → IsOk result }
        ensures rest { self.new ≡ with_reader_room self.new.reader_room self.old }
    {
        self.readers.reserve(more as usize)?;
        self.index.reserve(self.alloc, more)
    }

    /// Adds a reader of a put.
    pub fn add_reader(&mut self, reader: u64, put: u64, next: u32) -> Result<(), AllocError>
        requires { reader_at reader self.old ≡ None }
        ensures ok { OnOk result (self.new ≡ with_reader_room self.new.reader_room (with_reader reader put next self.old)) }
        ensures err { OnErr result (self.new ≡ with_reader_room self.new.reader_room self.old) }
        ensures room { self.old.reader_room ≤ self.new.reader_room + 1 }
        ensures reserved { 0 < self.old.reader_room → IsOk result }
    {
        self.reserve_readers(1)?;
        self.enter_reader(reader, put, next);
        Ok(())
    }

    // Adds a reader for which there is room.
    fn enter_reader(&mut self, reader: u64, put: u64, next: u32)
        requires new { reader_at reader self.old ≡ None }
        requires room { 0 < self.old.reader_room }
        ensures added { self.new ≡ with_reader_room self.new.reader_room (with_reader reader put next self.old) }
        ensures room { self.old.reader_room ≤ self.new.reader_room + 1 }
    {
        let follows = puts::is_open(&self.puts, put);
        let _readers = self.readers.len();
        self.index.add(put, reader, next);
        self.readers.add(reader, Reader { put, next, follows });
        if follows {
            puts::add_follower(&mut self.puts, put);
        }
    }

    /// Says which fragment a reader takes next, and whether there is that reader.
    pub fn set_reader(&mut self, reader: u64, next: u32) -> bool
        ensures found { result ≡ is_some (reader_at reader self.old) }
        ensures moved { self.new ≡ moved reader next self.old }
        ensures none { result ≡ false → self.new ≡ self.old }
    {
        match self.readers.set_next(reader, next) {
            Some(put) => {
                self.index.set(put, reader, next);
                true
            }
            None => false,
        }
    }

    /// Takes a reader out, and says whether there was that reader.
    pub fn drop_reader(&mut self, reader: u64) -> bool
        ensures found { result ≡ is_some (reader_at reader self.old) }
        ensures gone { self.new ≡ with_reader_room self.new.reader_room (held_without_reader reader self.old) }
        ensures room { self.old.reader_room ≤ self.new.reader_room }
        ensures none { result ≡ false → self.new ≡ self.old }
    {
        match self.readers.remove(reader) {
            Some(gone) => {
                self.index.remove(gone.put, reader);
                if gone.follows {
                    puts::remove_follower(&mut self.puts, gone.put);
                }
                true
            }
            None => false,
        }
    }

    /// The least index that a reader of a put takes next.
    pub fn readers_of(&self, put: u64) -> Option<u32>
        ensures { result ≡ least_next put (values_of self.now.readers) }
    {
        let _readers = self.readers.len();
        self.index.least(put)
    }

    /// How a put stands, while it is open or a reader follows it.
    pub fn put_state(&self, put: u64) -> Option<PutState>
        ensures state { result ≡ put_state put self.now.puts }
        ensures open { is_open_state result ≡ is_kept_open put self.now.puts }
        ensures writer { writers_of put self.now.writers ≡ (if is_open_state result then 1 else 0) }
        ensures followed { is_ended_state result ≡ true → 0 < followers_of put self.now.readers }
    {
        self.puts.get(&put).map(KeptPut::state)
    }

    /// The length and the digest of a fragment that was cut, counted from 1.
    pub fn row(&self, put: u64, index: u32) -> Option<(u32, Digest)>
        ensures row { result ≡ row_of_index index (kept_cuts put self.now.puts) }
        ensures few { IfSome result (λ row. index ≤ 4096) }
    {
        self.puts.get(&put)?.row(index)
    }

    /// How many bytes were cut of a put.
    pub fn length(&self, put: u64) -> u64
        ensures { result ≡ total_length (kept_cuts put self.now.puts) }
    {
        match self.puts.get(&put) {
            Some(kept) => kept.cuts.total(),
            None => 0,
        }
    }

    /// How many writers are open.
    pub fn writers(&self) -> u32
        ensures count { result ≡ length self.now.writers }
        ensures few { result ≤ 64 }
        ensures held { IsHeldDirectory self.now }
    {
        self.writers.len() as u32
    }

    fn end(&mut self, put: u64, phase: Phase) -> Result<(), OpenRefusal>
        requires { is_writing_phase phase ≡ false }
        ensures exact { RefusesOnly result (writing_refusal put self.old.puts) }
        ensures ok { OnOk result (self.new ≡ ended phase put self.old) }
        ensures err { OnErr result (self.new ≡ self.old) }
    {
        if !puts::is_open(&self.puts, put) {
            return Err(OpenRefusal::NoSuchWriter);
        }
        remove_writer(&mut self.writers, put);
        puts::end(&mut self.puts, put, phase);
        Ok(())
    }
}

fn last_match(writers: &[Writer], key: Key, request: &Fields) -> Option<u64>
    ensures { result ≡ put_followed key request.now writers.now }
{
    writers.iter().fold(None, |last, writer| {
        if writer.is_match(key, request) {
            Some(writer.put)
        } else {
            last
        }
    })
}

fn remove_writer(writers: &mut Vec<Writer>, put: u64)
    ensures but { writers.new.items ≡ writers_but put writers.old.items }
    ensures fewer { length writers.new.items ≤ length writers.old.items }
{
    writers.retain(|writer| writer.put != put);
}
