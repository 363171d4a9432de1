//! A caller of a cache, to show how `Calls` is used: it puts a body, and reads the front of one.
#![tactic(auto)]

ghost use Rattle.std.specs.Prelude.{◌≡◌, ◌*◌, ◌≤◌, length, IfErr, IfOk, IfSome};
ghost use Rattle.tape_base.specs.Geometry.{budget_of};
ghost use Rattle.cache_calls.specs.Actors.{IsOpenReader, IsWriterOf};
ghost use Rattle.cache_calls.specs.Keeping.{Goes, KeepsUnharmed, state_at};
ghost use Rattle.cache_caller.specs.Refused.{RefusedIsOver};

use alternate_vector::Fields;
use cache_calls::{Calls, NextPiece, Opened, Receipt, Refusal};
use std::alloc::{AllocError, Global};
use tape_base::{Actor, Key};

/// Puts a body, and gives the put up where that is refused.
pub fn store<S: Calls>(
    cache: &mut S,
    alloc: Global,
    key: Key,
    body: &[u8],
    now: u64,
) -> Result<Receipt, Refusal>
    requires { S.holds cache.old }
    ensures keeps { KeepsUnharmed S.at S.holds cache.old cache.new }
    ensures put { let put = (state_at (S.at cache.old)).next_put in
        IfOk result (λ receipt. receipt.put ≡ put) }
    ensures whole { IfOk result (λ receipt. receipt.length ≡ length body.now) }
    ensures over { let put = (state_at (S.at cache.old)).next_put in
        IfErr result (RefusedIsOver (state_at (S.at cache.new)) put) }
{
    let (request, response) = (Fields::new(alloc), Fields::new(alloc));
    let mut writer = cache.open_write(Actor(0), key, request, response, 0)?;
    let mut taken = 0;
    'feed: while taken < body.len() {
        match cache.write(&mut writer, &body[taken..], now) {
            Ok(count) => taken += count,
            Err(why) => return Err(give_up(cache, &mut writer, why)),
        }
    }
    match cache.close_write(&mut writer, now) {
        Ok(receipt) => Ok(receipt),
        Err(why) => Err(give_up(cache, &mut writer, why)),
    }
}

// Gives a put up, and says why it was refused, unless memory is wanting to give it up.
fn give_up<S: Calls>(cache: &mut S, writer: &mut S::Writer, why: Refusal) -> Refusal
    requires holds { S.holds cache.old }
    requires writer { IsWriterOf (state_at (S.at cache.old)) (S.written writer.old) }
    ensures keeps { KeepsUnharmed S.at S.holds cache.old cache.new }
    ensures over { RefusedIsOver (state_at (S.at cache.new)) (S.written writer.old).put result }
{
    match cache.abort_write(writer) {
        Err(Refusal::Memory(e)) => Refusal::Memory(e),
        _ => why,
    }
}

/// Reads the first piece of what a key has, where there is one: so many bytes stand at the front.
pub fn first_piece<S: Calls>(
    cache: &mut S,
    key: Key,
    request: Fields,
    into: &mut [u8],
) -> Result<Option<u32>, AllocError>
    requires holds { S.holds cache.old }
    requires into { length into.old ≡ 512 * budget_of (state_at (S.at cache.old)).geometry }
    ensures goes { Goes S.at S.holds cache.old cache.new }
    ensures within { IfOk result (λ found. IfSome found (λ size. size ≤ length into.new)) }
{
    match cache.open_read(Actor(0), key, request)? {
        Opened::Hit { reader, .. } => read_once(cache, reader, into),
        Opened::Follow { reader, .. } => read_once(cache, reader, into),
        Opened::Miss(_) => Ok(None),
    }
}

// Reads one piece, and closes the reader.
fn read_once<S: Calls>(
    cache: &mut S,
    reader: S::Reader,
    into: &mut [u8],
) -> Result<Option<u32>, AllocError>
    requires holds { S.holds cache.old }
    requires reader { IsOpenReader (state_at (S.at cache.old)) (S.reading reader) }
    requires into { length into.old ≡ 512 * budget_of (state_at (S.at cache.old)).geometry }
    ensures goes { Goes S.at S.holds cache.old cache.new }
    ensures within { IfOk result (λ found. IfSome found (λ size. size ≤ length into.new)) }
{
    let mut reader = reader;
    let next = cache.read_next(&mut reader, into);
    match cache.close_read(reader) {
        Ok(()) => match next? {
            NextPiece::Piece { length, .. } => Ok(Some(length)),
            _ => Ok(None),
        },
        Err((e, _reader)) => Err(e),
    }
}
