// Readers open.
ghost use Rattle.std.specs.Prelude.{◌≡◌, ◌≤◌, Some, None, IfOk};
ghost use Rattle.cache_model.specs.State.{last_match};
ghost use Rattle.stripe_answers.specs.Acts.{IsFollowable};
ghost use Rattle.stripe_core.specs.Stripe.{IsStripe, state_in, units_in};
ghost use Rattle.stripe_core.specs.Between.{IsResting};
ghost use Rattle.stripe_read.specs.Lookups.{BeginsReading, IsChosen, LooksUpKey, OpensReaderInStripe, answer_of_looked, opened_as, otherwise};

use crate::Reader;
use alternate_vector::{Fields, Vector};
use cache_answers::Opened;
use cache_chronicle::Chronicle;
use cache_model::{Cause, ReadAnswer};
use dir_table::Directory;
use fragment_table::FragTable;
use logged_disk::Disk;
use std::alloc::AllocError;
use stripe_core::Stripe;
use stripe_vectors::{KeyVector, read_is_listed, read_vector};
use tape_base::{Actor, Key};

// What is found for a request, before its reader is open.
#[derive(Debug, Drop)]
enum Looked {
    Hit(Chosen),
    Follow { put: u64 },
    Miss(Cause),
}

// The alternate that answers a request: its put, and its fragments.
#[derive(Debug, Drop)]
struct Chosen {
    put: u64,
    table: FragTable,
}

/// Looks a key up: a stored alternate that matches the request, or else an open writer, or else the
/// cause. It opens the reader of what it finds.
#[tactic(auto)]
pub fn open_read<D: Disk, R: Directory + Drop, C: Chronicle>(
    stripe: &mut Stripe<D, R, C>,
    actor: Actor,
    key: Key,
    request: Fields,
) -> Result<Opened<Reader>, AllocError>
    requires { IsResting stripe.old }
    ensures { OpensReaderInStripe actor key request stripe.old stripe.new result }
{
    stripe.prepare(None, 2)?;
    let looked = look_up(stripe, key, &request)?;
    begin(stripe, actor, key, request, looked)
}

// What answers a request.
fn look_up<D: Disk, R: Directory + Drop, C: Chronicle>(
    stripe: &mut Stripe<D, R, C>,
    key: Key,
    request: &Fields,
) -> Result<Looked, AllocError>
    requires { IsStripe stripe.old }
    ensures { LooksUpKey key request.now stripe.old stripe.new result }
{
    match read_vector(stripe, key)? {
        KeyVector::Trouble(why) => Ok(Looked::Miss(why)),
        KeyVector::Absent => Ok(look_further(stripe, key, request)),
        KeyVector::Read(list) => {
            read_is_listed();
            match choose(&list, request)? {
                Some(chosen) => Ok(Looked::Hit(chosen)),
                None => Ok(look_further(stripe, key, request)),
            }
        }
    }
}

// The alternate of a list that answers a request.
fn choose(list: &Vector, request: &Fields) -> Result<Option<Chosen>, AllocError>
    ensures { IfOk result (IsChosen (last_match request.now list.now)) }
{
    match list.choose(request) {
        Some(place) => {
            let alternate = list.get(place);
            Ok(Some(Chosen {
                put: alternate.put,
                table: alternate.table.copy()?,
            }))
        }
        None => Ok(None),
    }
}

// The writer to follow where no alternate answers, or the cause.
fn look_further<D: Disk, R: Directory + Drop, C: Chronicle>(
    stripe: &Stripe<D, R, C>,
    key: Key,
    request: &Fields,
) -> Looked
    requires { IsStripe stripe.now }
    ensures answer { answer_of_looked result ≡ otherwise (state_in stripe.now) key request.now }
    ensures follows { IsFollowable (state_in stripe.now) (answer_of_looked result) }
{
    match stripe.open_directory().follow(key, request) {
        Some(put) => Looked::Follow { put },
        None => Looked::Miss(stripe.chronicle().why(key)),
    }
}

// Records the answer, and opens its reader.
fn begin<D: Disk, R: Directory + Drop, C: Chronicle>(
    stripe: &mut Stripe<D, R, C>,
    actor: Actor,
    key: Key,
    request: Fields,
    looked: Looked,
) -> Result<Opened<Reader>, AllocError>
    requires stripe { IsStripe stripe.old }
    requires unit { 1 ≤ units_in stripe.old }
    requires follows { IsFollowable (state_in stripe.old) (answer_of_looked looked) }
    ensures { BeginsReading actor key request looked stripe.old stripe.new result }
{
    let reader = stripe.start_read(actor, key, request, looked.answer())?;
    Ok(looked.opened(reader, key))
}

impl Looked {
    // As it is recorded.
    fn answer(&self) -> ReadAnswer
        ensures { result ≡ answer_of_looked self.now }
    {
        match self {
            Looked::Hit(chosen) => ReadAnswer::Hit { put: chosen.put },
            Looked::Follow { put } => ReadAnswer::Follow { put: *put },
            Looked::Miss(why) => ReadAnswer::Miss(*why),
        }
    }

    // With the number of its reader.
    fn opened(self, reader: u64, key: Key) -> Opened<Reader>
        ensures { result ≡ opened_as reader key self }
    {
        match self {
            Looked::Hit(chosen) => Opened::Hit {
                put: chosen.put,
                length: chosen.table.total(),
                reader: Reader {
                    reader,
                    key,
                    put: chosen.put,
                    table: Some(chosen.table),
                    next: 1,
                },
            },
            Looked::Follow { put } => Opened::Follow {
                put,
                reader: Reader {
                    reader,
                    key,
                    put,
                    table: None,
                    next: 1,
                },
            },
            Looked::Miss(why) => Opened::Miss(why),
        }
    }
}
