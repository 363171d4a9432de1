// Who writes and reads on a stripe.

ghost use Rattle.std.specs.Prelude.{◌≡◌, ◌+◌, ◌<◌, ◌≤◌, ◌^◌, OnOk, OnErr, IfOk, IsOk, true, length};
ghost use Rattle.fragment_table.specs.Table.{CanGrow};
ghost use Rattle.open_directory.specs.Directory.{IsHeldDirectory, is_kept_open, kept_cuts, room_for_fragments};
ghost use Rattle.cache_model.specs.declared.record.Rec.TheVariants as rec;
ghost use Rattle.stripe_actors.specs.Calls.{AnswersPut, BeginBehind, BeginInStep, Commits, CutsNext, GaveFragment, KeepUpWith, Misses, OpensPut, PutIsGivenUp, ReaderOpens, StayInStep, with_room_of, with_room_of_readers};
ghost use Rattle.stripe_actors.specs.Actors.{HasGivenNumbers, reader_room_of};

use crate::refusal::OpenPutRefusal;
use alternate_vector::Fields;
use open_directory::{OpenDirectory, OpenRefusal};
use std::alloc::{AllocError, Global};
use std::marker::Model;
use tape_base::{Digest, Key, LIMIT, MAX_WRITERS};

// The numbers of puts stay below this.
/// Who writes and reads on a stripe, and the numbers of the next put and of the next reader.
#[derive(Debug, Drop)]
pub struct Actors {
    open: OpenDirectory,
    next_put: u64,
    next_reader: u64,
}

impl Model for Actors {
    ghost use Rattle.stripe_actors.specs.Actors.{ActorsSeen, HasGivenNumbers};

    ghost Value = { ActorsSeen };

    ghost view = { λ a. record { held = a.open; next_put = a.next_put; next_reader = a.next_reader } };

    ghost invariant = { λ a. HasGivenNumbers (record { held = a.open; next_put = a.next_put; next_reader = a.next_reader }) };
}

impl Actors {
    /// Nobody, at the beginning of a session that a format began, which takes no memory.
    pub fn new(alloc: Global) -> Actors
        ensures { BeginInStep result }
    {
        Actors {
            open: OpenDirectory::new(alloc),
            next_put: 1,
            next_reader: 1,
        }
    }

    /// Nobody, at the beginning of a session that an opening began, whose next put has this number. It
    /// takes no memory.
    pub fn behind(alloc: Global, next_put: u64) -> Actors
        requires some { 1 ≤ next_put }
        requires below { next_put < 2 ^ 62 }
        ensures { BeginBehind next_put result }
    {
        Actors {
            open: OpenDirectory::new(alloc),
            next_put,
            next_reader: 1,
        }
    }

    pub fn open_directory(&self) -> &OpenDirectory
        ensures same { result.now ≡ self.now.held }
        ensures held { IsHeldDirectory self.now.held }
        ensures numbered { HasGivenNumbers self.now }
    {
        let _writers = self.open.writers();
        &self.open
    }

    /// How many writers are open.
    pub fn writers(&self) -> u32
        ensures { result ≡ length self.now.held.writers }
    {
        self.open.writers()
    }

    /// The number of the next put.
    pub fn next_put(&self) -> u64
        ensures number { result ≡ self.now.next_put }
        ensures below { result < 2 ^ 62 }
    {
        self.next_put
    }

    /// The number of the next reader.
    pub fn next_reader(&self) -> u64
        ensures { result ≡ self.now.next_reader }
    {
        self.next_reader
    }

    /// Opens the writer of a new put, and gives the put's number.
    pub fn open_put(
        &mut self,
        key: Key,
        request: Fields,
        response: Fields,
    ) -> Result<u64, OpenPutRefusal>
        ensures exact { AnswersPut self.old result }
        ensures ok { IfOk result (OpensPut key request response self.old self.new) }
        ensures err { OnErr result (self.new ≡ self.old) }
        ensures readers { reader_room_of self.old ≤ reader_room_of self.new }
    {
        if self.open.writers() == MAX_WRITERS {
            return Err(OpenPutRefusal::TooManyWriters);
        }
        let put = self.next_put;
        if LIMIT <= put + 1 {
            return Err(OpenPutRefusal::Exhausted { number: put + 1 });
        }
        match self.open.open_writer(put, key, request, response) {
            Ok(()) => {
                self.next_put = put + 1;
                Ok(put)
            }
            Err(OpenRefusal::Memory(failed)) => Err(OpenPutRefusal::Memory(failed)),
            Err(_) => unreachable!(),
        }
    }

    /// Makes room so that the next fragment of a put takes no memory.
    pub fn reserve_cut(&mut self, put: u64) -> Result<(), AllocError>
        requires { is_kept_open put self.old.held.puts ≡ true }
        ensures room { OnOk result (0 < room_for_fragments put self.new.held.puts) }
        ensures step { StayInStep self.old self.new }
        ensures rest { self.new
            ≡ with_room_of put (room_for_fragments put self.new.held.puts) self.old }
        ensures reserved { 0 < room_for_fragments put self.old.held.puts → IsOk result }
        ensures readers { reader_room_of self.old ≤ reader_room_of self.new }
    {
        match self.open.reserve_cut(put) {
            Ok(()) => Ok(()),
            Err(OpenRefusal::Memory(failed)) => Err(failed),
            Err(_) => unreachable!(),
        }
    }

    /// Adds the next fragment of a put for which there is room.
    pub fn cut(&mut self, put: u64, length: u32, digest: Digest)
        requires open { is_kept_open put self.old.held.puts ≡ true }
        requires some { 0 < length }
        requires few { CanGrow (kept_cuts put self.old.held.puts) }
        requires room { 0 < room_for_fragments put self.old.held.puts }
        ensures cuts { CutsNext put length digest self.old self.new }
        ensures readers { reader_room_of self.old ≤ reader_room_of self.new }
    {
        let cut: Result<_, _> = self.open.cut_fragment(put, length, digest);
        cut.unwrap();
    }

    /// Commits a put: what was cut is all of it.
    pub fn close(&mut self, put: u64)
        requires { is_kept_open put self.old.held.puts ≡ true }
        ensures commits { Commits put self.old self.new }
        ensures readers { reader_room_of self.old ≤ reader_room_of self.new }
    {
        self.open.close(put).unwrap();
    }

    /// Gives a put up.
    pub fn abort(&mut self, put: u64)
        requires { is_kept_open put self.old.held.puts ≡ true }
        ensures ends { PutIsGivenUp put self.old self.new }
        ensures readers { reader_room_of self.old ≤ reader_room_of self.new }
    {
        self.open.abort(put).unwrap();
    }

    /// Makes room so that so many more readers take no memory.
    pub fn reserve_readers(&mut self, more: u32) -> Result<(), AllocError>
        ensures room { OnOk result (more ≤ reader_room_of self.new) }
        ensures kept { reader_room_of self.old ≤ reader_room_of self.new }
        ensures reserved { more ≤ reader_room_of self.old → IsOk result }
        ensures step { StayInStep self.old self.new }
        ensures rest { self.new ≡ with_room_of_readers (reader_room_of self.new) self.old }
    {
        self.open.reserve_readers(more)
    }

    /// Opens a reader at the first fragment of a put, which it follows where that is open.
    pub fn open_reader(&mut self, put: u64) -> Result<u64, AllocError>
        requires { self.old.next_reader + 1 < 2 ^ 64 }
        ensures ok { IfOk result (ReaderOpens put self.old self.new) }
        ensures err { OnErr result (self.new ≡ with_room_of_readers (reader_room_of self.new) self.old) }
        ensures stays { OnErr result (StayInStep self.old self.new) }
        ensures room { reader_room_of self.old ≤ reader_room_of self.new + 1 }
        ensures reserved { 0 < reader_room_of self.old → IsOk result }
    {
        let reader = self.next_reader;
        self.open.add_reader(reader, put, 1)?;
        self.next_reader = reader + 1;
        Ok(reader)
    }

    /// Takes the next reader's number for a lookup that opens none.
    pub fn miss(&mut self) -> u64
        requires { self.old.next_reader + 1 < 2 ^ 64 }
        ensures misses { Misses self.old self.new result }
        ensures readers { reader_room_of self.old ≤ reader_room_of self.new }
    {
        let missed = self.next_reader;
        self.next_reader = missed + 1;
        missed
    }

    /// The reader was given a fragment, and takes the one behind it next.
    pub fn gave(&mut self, reader: u64, index: u32)
        requires { index + 1 < 2 ^ 32 }
        ensures gave { GaveFragment reader index self.old self.new }
        ensures readers { reader_room_of self.old ≤ reader_room_of self.new }
    {
        self.open.set_reader(reader, index + 1);
    }

    /// Closes a reader.
    pub fn close_reader(&mut self, reader: u64)
        ensures closes { KeepUpWith (rec.ReadClosed reader) self.old self.new }
        ensures readers { reader_room_of self.old ≤ reader_room_of self.new }
    {
        self.open.drop_reader(reader);
    }
}
