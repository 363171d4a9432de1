// What is kept of each writer, put and reader.

ghost use Rattle.std.specs.Prelude.{◌≡◌, ◌≤◌, IfSome};
ghost use Rattle.open_directory.specs.Directory.{is_follow, put_state_of, row_of_index};

use alternate_vector::{Fields, request_matches};
use fragment_table::FragTable;
use tape_base::{Digest, Key};

/// How a put stands.
#[derive(Clone, Copy, Debug, PartialEq, Eq)]
pub enum PutState {
    /// It is being written.
    Open {
        /// How many fragments were cut.
        cut: u32,
    },
    /// It was closed.
    Committed {
        cut: u32,
        /// The bytes of all its fragments.
        length: u64,
    },
    /// It was given up.
    Aborted {
        cut: u32,
    },
}

/// How far a put has come.
#[derive(Clone, Copy, Debug, PartialEq, Eq)]
pub enum Phase {
    Writing,
    Closed,
    GivenUp,
}

/// Who writes: the key, and the request and response that a reader has to match.
#[derive(Debug, Drop)]
pub struct Writer {
    pub put: u64,
    pub key: Key,
    pub request: Fields,
    pub response: Fields,
}

impl Writer {
    /// Whether a lookup of a key may be answered by following this writer.
    pub fn is_match(&self, key: Key, request: &Fields) -> bool
        ensures { result ≡ is_follow key request.now self.now }
    {
        self.key == key && request_matches(request, &self.request, &self.response)
    }
}

/// What is kept of a put while it is open, or while a reader follows it.
#[derive(Debug, Drop)]
pub struct KeptPut {
    pub phase: Phase,
    /// The fragments that were cut.
    pub cuts: FragTable,
    /// How many open readers were added while it was open.
    pub followers: u64,
}

impl KeptPut {
    pub fn state(&self) -> PutState
        ensures { result ≡ put_state_of self.now }
    {
        let cut = self.cuts.len();
        match self.phase {
            Phase::Writing => PutState::Open { cut },
            Phase::Closed => PutState::Committed {
                cut,
                length: self.cuts.total(),
            },
            Phase::GivenUp => PutState::Aborted { cut },
        }
    }

    /// The length and the digest of a fragment, counted from 1.
    pub fn row(&self, index: u32) -> Option<(u32, Digest)>
        ensures row { result ≡ row_of_index index self.now.cuts.rows }
        ensures few { IfSome result (λ row. index ≤ 4096) }
    {
        if index == 0 || self.cuts.len() < index {
            return None;
        }
        let (length, digest) = self.cuts.row(index);
        Some((length, Digest(digest)))
    }
}

/// A reader of a put.
#[derive(Clone, Copy, Debug)]
pub struct Reader {
    pub put: u64,
    /// The index of the fragment that it takes next.
    pub next: u32,
    /// The put was open when the reader was added.
    pub follows: bool,
}
