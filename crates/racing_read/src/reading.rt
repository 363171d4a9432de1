//! A read without the lock.
ghost use Rattle.std.specs.Prelude.{◌≡◌, ◌*◌, ◌∷◌, length};
ghost use Rattle.hex.specs.Hex.{IsBytes};
ghost use Rattle.tape_base.specs.Blocks.{blocks_of};
ghost use Rattle.doc_header.specs.Reading.{document_digest};
ghost use Rattle.stripe_lock.specs.Turns.{SeesFloor};
ghost use Rattle.racing_read.specs.RaceCalls.{FloorLoaded};
ghost use Rattle.racing_read.specs.RaceLog.{race_calls};
ghost use Rattle.racing_read.specs.Races.{RacesAs};

use crate::log::RaceLog;
use crate::peek::Peek;
use crate::ticket::{Raced, Ticket};
use doc_header::document_digest;
use stripe_lock::{KeptState, Pass, SharedStripe};
use tape_base::Digest;

// Loads the published floor, and notes it.
fn load_floor<T: KeptState>(
    shared: &SharedStripe<T>,
    pass: &mut Pass<T::Record>,
    log: &mut RaceLog,
) -> u64
    requires lock { pass.old.lock ≡ shared.now.lock }
    ensures sees { SeesFloor T.KeptState pass.old pass.new result }
    ensures notes { race_calls log.new ≡ FloorLoaded result ∷ race_calls log.old }
{
    let floor = shared.floor(pass);
    log.loaded(floor);
    floor
}

// The digest of what was read, which is bytes.
fn digest_read(bytes: &[u8]) -> Digest
    ensures digest { result ≡ document_digest bytes.now }
    ensures bytes { IsBytes bytes.now }
{
    document_digest(bytes)
}

/// Reads the document of a ticket while others may write it, and loads the floor behind that. It
/// neither waits nor takes memory. Of what was read nothing but the answer says what it is worth.
pub fn racing_read<T: KeptState, P: Peek>(
    shared: &SharedStripe<T>,
    pass: &mut Pass<T::Record>,
    peek: &mut P,
    log: &mut RaceLog,
    ticket: &Ticket,
    into: &mut [u8],
) -> Raced
    requires lock { pass.old.lock ≡ shared.now.lock }
    requires room { length into.old ≡ 512 * blocks_of ticket.now.length }
    ensures races { RacesAs T.KeptState ticket.now
        (record { pass = pass.old; calls = race_calls log.old; missed = P.missed peek.old })
        (record { pass = pass.new; calls = race_calls log.new; missed = P.missed peek.new })
        into.new result }
{
    if peek.read_at(log, ticket.block, into).is_err() {
        return Raced::DeviceFault {
            count: peek.faults(),
        };
    }
    let floor = load_floor(shared, pass, log);
    if ticket.place < floor {
        return Raced::Passed {
            place: ticket.place,
            floor,
        };
    }
    let found = digest_read(into);
    if found == ticket.digest {
        return Raced::Given {
            length: ticket.length,
        };
    }
    Raced::Damaged {
        kept: ticket.digest,
        found,
    }
}
