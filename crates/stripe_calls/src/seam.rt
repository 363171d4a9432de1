// A stripe is called as a cache is: each call is one of the stripe's.
ghost use Rattle.std.specs.Prelude.{◌≡◌};
ghost use Rattle.cache_model.specs.Legal.{is_writing};
ghost use Rattle.stripe_core.specs.Stripe.{IsStripe, state_in};

use crate::cache::StripeCache;
use alternate_vector::Fields;
use cache_calls::{Calls, Flushed, NextPiece, Opened, Receipt, Refusal, Removal};
use cache_chronicle::Chronicle;
use dir_table::Directory;
use logged_disk::Disk;
use open_directory::PutState;
use std::alloc::AllocError;
use stripe_core::Stripe;
use stripe_read::{Reader, close_read, open_read, read_next};
use stripe_write::{Writer, abort_write, close_write, open_write, remove, write};
use tape_base::{Actor, Geometry, Key};

impl<D: Disk, R: Directory + Drop, C: Chronicle> Calls for StripeCache<D, R, C> {
    ghost use Rattle.stripe_calls.specs.Cache.{IsCache, StandsIn, at_of};
    ghost use Rattle.stripe_write.specs.Writers.{written_as};
    ghost use Rattle.stripe_read.specs.Readers.{reading_as};
    ghost use Rattle.stripe_calls.specs.Resting.{is_at_rest, is_recorded, vectors_listed, where_told};

    type Writer = Writer;

    type Reader = Reader;

    ghost at = { at_of };

    ghost holds = { IsCache };

    ghost stands = { StandsIn };

    ghost written = { written_as };

    ghost reading = { reading_as };

    fn geometry(&self) -> &Geometry {
        self.stripe.geometry()
    }

    fn put_of(&self, writer: &Writer) -> u64 {
        writer.put()
    }

    fn is_open(&self, writer: &Writer) -> bool {
        is_open(&self.stripe, writer)
    }

    fn open_write(
        &mut self,
        actor: Actor,
        key: Key,
        request: Fields,
        response: Fields,
        pin: u64,
    ) -> Result<Writer, Refusal> {
        open_write(&mut self.stripe, actor, key, request, response, pin)
    }

    fn write(&mut self, writer: &mut Writer, bytes: &[u8], now: u64) -> Result<usize, Refusal> {
        write(&mut self.stripe, writer, bytes, now)
    }

    fn close_write(&mut self, writer: &mut Writer, now: u64) -> Result<Receipt, Refusal> {
        // Of a put that is not open nothing is asked of the device.
        if !is_open(&self.stripe, writer) {
            return Err(Refusal::NoSuchWriter);
        }
        close_write(&mut self.stripe, writer, now)
    }

    fn abort_write(&mut self, writer: &mut Writer) -> Result<u64, Refusal> {
        abort_write(&mut self.stripe, writer)
    }

    fn remove(&mut self, key: Key) -> Result<Removal, AllocError> {
        remove(&mut self.stripe, key)
    }

    fn flush(&mut self, now: u64) -> Result<Flushed, Refusal> {
        self.stripe.flush(now)
    }

    fn open_read(
        &mut self,
        actor: Actor,
        key: Key,
        request: Fields,
    ) -> Result<Opened<Reader>, AllocError> {
        open_read(&mut self.stripe, actor, key, request)
    }

    fn read_next(&mut self, reader: &mut Reader, into: &mut [u8]) -> Result<NextPiece, AllocError> {
        read_next(&mut self.stripe, reader, into)
    }

    fn close_read(&mut self, reader: Reader) -> Result<(), (AllocError, Reader)> {
        close_read(&mut self.stripe, reader)
    }

    ghost at_rest = { is_at_rest };

    ghost vectors_listed = { vectors_listed };

    ghost recorded = { is_recorded };

    ghost where_told = { where_told };
}

// Whether the put of a writer is open.
fn is_open<D: Disk, R: Directory + Drop, C: Chronicle>(
    stripe: &Stripe<D, R, C>,
    writer: &Writer,
) -> bool
    requires { IsStripe stripe.now }
    ensures { result ≡ is_writing (state_in stripe.now) writer.now.put }
{
    matches!(
        stripe.open_directory().put_state(writer.put()),
        Some(PutState::Open { .. })
    )
}
