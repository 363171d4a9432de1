// What a stripe asks of its directory.
ghost use Rattle.std.specs.Prelude.{IfOk};
ghost use Rattle.stripe_core.specs.Between.{IsResting};

use crate::counting::Counting;
use crate::objects::{put_one, read_one};
use cache_chronicle::FullChronicle;
use logged_disk::{Disk, MemDisk};
use std::alloc::{AllocError, Global};
use std::test::Fail;
use stripe_core::Stripe;
use tape_base::{Geometry, Key, device_blocks};

type Counted = Stripe<MemDisk, Counting, FullChronicle>;

// An empty stripe in memory: a lap of 64 blocks, a buffer of 8, fragments of 4 bytes.
fn empty(alloc: Global) -> Result<Counted, Fail>
    ensures { IfOk result IsResting }
{
    let Ok(g) = Geometry::check(1, 64, 64, 8, 16, 4, 7) else {
        return Err("no geometry".into());
    };
    let disk = MemDisk::new(alloc, 0, device_blocks(&g));
    if disk.blocks() < device_blocks(&g) {
        return Err("a short device".into());
    }
    match Stripe::format(alloc, disk, FullChronicle::new(alloc), g) {
        Ok(stripe) => Ok(stripe),
        Err((_, _disk, _chronicle)) => Err("refused".into()),
    }
}

// The key of an object by its number.
fn key_of(number: u8) -> Key {
    Key::of_url(&[number])
}

// So many objects of one byte are put, each under a key of its own.
fn put_all(stripe: &mut Counted, count: u8) -> bool
    requires { IsResting stripe.old }
    ensures { IsResting stripe.new }
{
    let mut all = true;
    for number in 0..count {
        all &= put_one(stripe, key_of(number), number);
    }
    all
}

// How many steps of walks the directory was asked while an object was read to its end, if it was.
fn steps_of_read(stripe: &mut Counted, number: u8) -> Result<Option<u64>, AllocError>
    requires { IsResting stripe.old }
    ensures { IsResting stripe.new }
{
    let before = stripe.directory().steps();
    let whole = read_one(stripe, key_of(number), number)?;
    let steps = stripe.directory().steps().saturating_sub(before);
    Ok(whole.then_some(steps))
}

// Whether each of so many objects is read to its end by two steps at least.
fn are_walked(stripe: &mut Counted, count: u8) -> Result<bool, AllocError>
    requires { IsResting stripe.old }
    ensures { IsResting stripe.new }
{
    for number in 0..count {
        if steps_of_read(stripe, number)? < Some(2) {
            return Ok(false);
        }
    }
    Ok(true)
}

// One step at least finds the vector, and one the fragment.
#[test]
fn lookup_walks_directory(rt: HostRuntime) -> Result<(), Fail> {
    let mut stripe = empty(rt.alloc())?;
    assert!(rt; put_all(&mut stripe, 10));
    assert!(rt; are_walked(&mut stripe, 10)?);
    Ok(())
}
