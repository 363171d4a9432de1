// Objects of one byte: each is put by the calls of a writer, and read to its end by those of a reader.
ghost use Rattle.stripe_core.specs.Between.{IsResting};
ghost use Rattle.stripe_core.specs.Stripe.{state_in};
ghost use Rattle.cache_calls.specs.Actors.{IsOpenReader, IsWriterOf};
ghost use Rattle.stripe_write.specs.Writers.{written_as};
ghost use Rattle.stripe_read.specs.Readers.{reading_as};

use alternate_vector::Fields;
use cache_answers::{NextPiece, Opened};
use cache_chronicle::Chronicle;
use dir_table::Directory;
use logged_disk::Disk;
use std::alloc::AllocError;
use stripe_core::Stripe;
use stripe_read::{Reader, close_read, open_read, read_next};
use stripe_write::{Writer, close_write, open_write, write};
use tape_base::{Actor, Key};

/// Puts a byte under a key, and says whether it was put.
pub fn put_one<D: Disk, R: Directory + Drop, C: Chronicle>(
    stripe: &mut Stripe<D, R, C>,
    key: Key,
    byte: u8,
) -> bool
    requires { IsResting stripe.old }
    ensures { IsResting stripe.new }
{
    let alloc = stripe.alloc();
    let (request, response) = (Fields::new(alloc), Fields::new(alloc));
    match open_write(stripe, Actor(0), key, request, response, 0) {
        Ok(writer) => feed_one(stripe, writer, byte),
        Err(_) => false,
    }
}

// A writer takes the byte, and closes.
fn feed_one<D: Disk, R: Directory + Drop, C: Chronicle>(
    stripe: &mut Stripe<D, R, C>,
    writer: Writer,
    byte: u8,
) -> bool
    requires resting { IsResting stripe.old }
    requires writer { IsWriterOf (state_in stripe.old) (written_as writer) }
    ensures { IsResting stripe.new }
{
    let mut writer = writer;
    let taken = write(stripe, &mut writer, &[byte], 0);
    let closed = close_write(stripe, &mut writer, 0);
    matches!(taken, Ok(1)) && closed.is_ok()
}

/// Reads the object of a key to its end, and says whether it is that byte.
pub fn read_one<D: Disk, R: Directory + Drop, C: Chronicle>(
    stripe: &mut Stripe<D, R, C>,
    key: Key,
    byte: u8,
) -> Result<bool, AllocError>
    requires { IsResting stripe.old }
    ensures { IsResting stripe.new }
{
    let request = Fields::new(stripe.alloc());
    match open_read(stripe, Actor(0), key, request)? {
        Opened::Hit { reader, .. } => read_all(stripe, reader, byte),
        _ => Ok(false),
    }
}

// A reader is given the byte, and then the end, and closes.
fn read_all<D: Disk, R: Directory + Drop, C: Chronicle>(
    stripe: &mut Stripe<D, R, C>,
    reader: Reader,
    byte: u8,
) -> Result<bool, AllocError>
    requires resting { IsResting stripe.old }
    requires reader { IsOpenReader (state_in stripe.old) (reading_as reader) }
    ensures { IsResting stripe.new }
{
    let mut reader = reader;
    let (piece, end) = (
        NextPiece::Piece {
            index: 1,
            length: 1,
        },
        NextPiece::End { length: 1 },
    );
    let given = gives(stripe, &mut reader, piece, &[byte])?;
    let over = gives(stripe, &mut reader, end, &[])?;
    let closed = close_read(stripe, reader).is_ok();
    Ok(given && over && closed)
}

// Whether a reader is given this next, with these bytes.
fn gives<D: Disk, R: Directory + Drop, C: Chronicle>(
    stripe: &mut Stripe<D, R, C>,
    reader: &mut Reader,
    next: NextPiece,
    bytes: &[u8],
) -> Result<bool, AllocError>
    requires resting { IsResting stripe.old }
    requires reader { IsOpenReader (state_in stripe.old) (reading_as reader.old) }
    ensures resting { IsResting stripe.new }
    ensures reader { IsOpenReader (state_in stripe.new) (reading_as reader.new) }
{
    let budget = stripe.geometry().agg as usize / 2;
    let mut into = vec![in stripe.alloc(); 0u8; 512 * budget]?;
    let given = read_next(stripe, reader, &mut into)?;
    Ok(given == next && into.starts_with(bytes))
}
