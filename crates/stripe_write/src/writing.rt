// Writers open, take bytes, and are given up.
ghost use Rattle.std.specs.Prelude.{◌≡◌, ◌<◌, false, length};
ghost use Rattle.tape_base.specs.Digest.{digest_of};
ghost use Rattle.cache_model.specs.Legal.{is_writing};
ghost use Rattle.cache_model.specs.State.{most_fragments};
ghost use Rattle.stripe_actors.specs.Calls.{HasPutNumber};
ghost use Rattle.stripe_core.specs.Stripe.{IsStripe, state_in};
ghost use Rattle.stripe_core.specs.Between.{IsResting};
ghost use Rattle.stripe_write.specs.Writers.{HasOpenWriter, written_as};
ghost use Rattle.stripe_write.specs.Writes.{AbortsInStripe, CutsNextInStripe, IsReady, OpensInStripe, OverflowsInStripe, WritesInStripe};
ghost use Rattle.cache_calls.specs.Actors.{IsWriterOf};

use crate::Writer;
use alternate_vector::Fields;
use cache_answers::Refusal;
use cache_chronicle::Chronicle;
use dir_table::Directory;
use fragment_table::FragTable;
use logged_disk::Disk;
use open_directory::PutState;
use stripe_core::{Placed, Stripe};
use tape_base::{Actor, Digest, Key, PieceId};

// How many fragments a put may have.
const MAX_FRAGMENTS: u32 = 4096;

/// Opens a writer of a new put.
pub fn open_write<D: Disk, R: Directory + Drop, C: Chronicle>(
    stripe: &mut Stripe<D, R, C>,
    actor: Actor,
    key: Key,
    request: Fields,
    response: Fields,
    pin: u64,
) -> Result<Writer, Refusal>
    requires resting { IsResting stripe.old }
    ensures { OpensInStripe stripe.old stripe.new actor key request response pin result }
{
    match stripe.put_refusal() {
        Some(refusal) => Err(refusal),
        None => begin(stripe, actor, key, request, response, pin),
    }
}

/// Takes bytes up to the next cut, and says how many. As soon as a fragment has gathered it is cut and
/// placed, behind a flush where it has no room, which copies what is due at `now`. A refusal leaves the
/// writer as it was.
pub fn write<D: Disk, R: Directory + Drop, C: Chronicle>(
    stripe: &mut Stripe<D, R, C>,
    writer: &mut Writer,
    bytes: &[u8],
    now: u64,
) -> Result<usize, Refusal>
    requires resting { IsResting stripe.old }
    requires writer { IsWriterOf (state_in stripe.old) (written_as writer.old) }
    ensures { WritesInStripe R.purges now stripe.old stripe.new writer.old writer.new bytes.now
        result }
{
    if !is_open(stripe, writer.put) {
        return Err(Refusal::NoSuchWriter);
    }
    if writer.sealed {
        return Err(Refusal::Sealed);
    }
    if bytes.is_empty() {
        return Ok(0);
    }
    if writer.table.len() == MAX_FRAGMENTS {
        return overflow(stripe, writer);
    }
    take(stripe, writer, bytes, now)
}

/// Gives a put up that is open.
pub fn abort_write<D: Disk, R: Directory + Drop, C: Chronicle>(
    stripe: &mut Stripe<D, R, C>,
    writer: &mut Writer,
) -> Result<u64, Refusal>
    requires resting { IsResting stripe.old }
    requires writer { IsWriterOf (state_in stripe.old) (written_as writer.old) }
    ensures { AbortsInStripe stripe.old stripe.new writer.old writer.new result }
{
    if !is_open(stripe, writer.put) {
        return Err(Refusal::NoSuchWriter);
    }
    stripe.prepare(None, 1)?;
    stripe.give_up(writer.put, writer.key);
    Ok(writer.put)
}

pub(crate) fn is_open<D: Disk, R: Directory + Drop, C: Chronicle>(
    stripe: &Stripe<D, R, C>,
    put: u64,
) -> bool
    requires { IsStripe stripe.now }
    ensures { result ≡ is_writing (state_in stripe.now) put }
{
    matches!(
        stripe.open_directory().put_state(put),
        Some(PutState::Open { .. })
    )
}

fn begin<D: Disk, R: Directory + Drop, C: Chronicle>(
    stripe: &mut Stripe<D, R, C>,
    actor: Actor,
    key: Key,
    request: Fields,
    response: Fields,
    pin: u64,
) -> Result<Writer, Refusal>
    requires resting { IsResting stripe.old }
    requires number { HasPutNumber (state_in stripe.old) }
    ensures { OpensInStripe stripe.old stripe.new actor key request response pin result }
{
    let alloc = stripe.alloc();
    let kept_request = request.copy()?;
    let kept_response = response.copy()?;
    let put = stripe.start_put(actor, key, request, response, pin)?;
    Ok(Writer {
        put,
        key,
        request: kept_request,
        response: kept_response,
        pin,
        gathered: Vec::new(alloc),
        table: FragTable::new(alloc),
        sealed: false,
    })
}

// Gives a put up that would have too many fragments.
fn overflow<D: Disk, R: Directory + Drop, C: Chronicle>(
    stripe: &mut Stripe<D, R, C>,
    writer: &Writer,
) -> Result<usize, Refusal>
    requires writing { HasOpenWriter stripe.old writer.now }
    requires full { length writer.now.table.rows ≡ most_fragments }
    ensures { OverflowsInStripe stripe.old stripe.new writer.now result }
{
    stripe.prepare(None, 1)?;
    stripe.give_up(writer.put, writer.key);
    Err(Refusal::TooManyFragments)
}

// Takes bytes, of which there are some, and cuts the fragment that has gathered.
fn take<D: Disk, R: Directory + Drop, C: Chronicle>(
    stripe: &mut Stripe<D, R, C>,
    writer: &mut Writer,
    bytes: &[u8],
    now: u64,
) -> Result<usize, Refusal>
    requires writing { HasOpenWriter stripe.old writer.old }
    requires unsealed { writer.old.sealed ≡ false }
    requires few { length writer.old.table.rows < most_fragments }
    ensures { WritesInStripe R.purges now stripe.old stripe.new writer.old writer.new bytes.now
        result }
{
    let before = writer.gathered.len();
    let room = stripe.geometry().fragment as usize - before;
    let taken = bytes.len().min(room);
    stripe.prepare(Some(writer.put), 1)?;
    writer.table.reserve(1)?;
    writer.gathered.extend_from_slice(&bytes[..taken])?;
    if taken < room {
        return Ok(taken);
    }
    let digest = Digest::of(&writer.gathered);
    match cut(stripe, writer, digest, now) {
        Ok(_) => Ok(taken),
        Err(refusal) => {
            writer.gathered.truncate(before);
            Err(refusal)
        }
    }
}

// Cuts the fragment that has gathered, with this digest: a full one, or the short rest of a sealed
// writer.
pub(crate) fn cut<D: Disk, R: Directory + Drop, C: Chronicle>(
    stripe: &mut Stripe<D, R, C>,
    writer: &mut Writer,
    digest: Digest,
    now: u64,
) -> Result<Placed, Refusal>
    requires resting { IsResting stripe.old }
    requires ready { IsReady (state_in stripe.old) writer.old }
    requires digest { digest ≡ digest_of writer.old.gathered.items }
    ensures { CutsNextInStripe R.purges now stripe.old stripe.new writer.old writer.new result }
{
    let id = PieceId {
        first: writer.key,
        put: writer.put,
        index: writer.table.len() + 1,
    };
    let size = writer.gathered.len() as u32;
    let payload: &[u8] = &writer.gathered;
    let placed = stripe.place_piece(id, writer.pin, writer.table.total(), payload, digest, now)?;
    let pushed: Result<_, _> = writer.table.push(size, placed.payload.0);
    pushed.unwrap();
    writer.gathered.clear();
    Ok(placed)
}
