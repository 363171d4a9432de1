// A session: a cache on a device, and the actors of the script with what they have.
ghost use Rattle.std.specs.Prelude.{◌≡◌, ◌≤◌};

use actor_table::Actors;
use cache_calls::Calls;
use logged_disk::Disk;
use std::alloc::Global;

/// Runs the steps of a script, one after the other.
#[derive(Drop)]
pub struct Session<S: Calls> {
    pub(crate) alloc: Global,
    pub(crate) actors: Actors<ActorHolding<S::Writer, S::Reader>>,
    pub(crate) part: Option<Part<S>>,
    /// The moment for pins. It goes on behind a format.
    pub(crate) now: u64,
}

/// What the lines of a script work on: a session, or the device that a cut left without one.
#[derive(Drop)]
pub struct Replay<D: Disk, S: Calls> {
    pub(crate) session: Session<S>,
    pub(crate) bare: Option<Bare<D>>,
}

impl<D: Disk, S: Calls> Replay<D, S> {
    /// The session, and the bare device beside it.
    pub fn into_parts(self) -> (Session<S>, Option<Bare<D>>)
        ensures session { result.0 ≡ self.session }
        ensures bare { result.1 ≡ self.bare }
    {
        (self.session, self.bare)
    }

    /// A session with the bare device that was beside it.
    pub fn of_parts(session: Session<S>, bare: Option<Bare<D>>) -> Replay<D, S>
        ensures session { result.session ≡ session }
        ensures bare { result.bare ≡ bare }
    {
        Replay { session, bare }
    }
}

/// A device with no session on it.
#[derive(Drop)]
pub struct Bare<D: Disk> {
    pub(crate) device: D,
    // Of any device: with it the type carries what `D` tells of itself.
    ghost told: { 0 ≤ (D.state device).faults },
}

/// What a format began.
#[derive(Drop)]
pub(crate) struct Part<S: Calls> {
    pub(crate) cache: S,
    /// As many bytes as any piece has, for what is read.
    pub(crate) page: Vec<u8>,
    // Of any cache: with it the type carries what `S` tells of itself.
    ghost told: { 0 ≤ (S.at cache).device.faults },
}

/// What an actor has.
#[derive(Drop)]
pub(crate) enum ActorHolding<W: Drop, R: Drop> {
    Writer(W),
    Reader(R),
}
