// Whole bodies are put.
ghost use Rattle.std.specs.Prelude.{◌≡◌};
ghost use Rattle.cache_calls.specs.Actors.{IsWriterOf};
ghost use Rattle.cache_model.specs.Contents.{TellsVectors};
ghost use Rattle.cache_calls.specs.Keeping.{KeepsUnharmed, state_at};
ghost use Rattle.cache_calls.specs.Standing.{StaysStanding};
ghost use Rattle.cache_replay.specs.Putting.{BodyEndsWhere, FillsWhere, IsFreshWriter, PutsWhere, TellsOfPut, unless_memory};
ghost use Rattle.cache_replay.specs.Session.{IsOpenWriter};
ghost use Rattle.line_calls.specs.Standing.{TellsPut};

use crate::feeding::feed;
use alternate_vector::Fields;
use cache_calls::{Calls, Receipt, Refusal};
use tape_base::{Actor, Key};

/// Puts a body whole, and gives the put up where that is refused.
pub(crate) fn put<S: Calls>(
    cache: &mut S,
    key: Key,
    body: &[u8],
    request: Fields,
    response: Fields,
    now: u64,
) -> Result<Receipt, Refusal>
    requires holds { S.holds cache.old }
    ensures keeps { KeepsUnharmed S.at S.holds cache.old cache.new }
    ensures puts { PutsWhere now (S.at cache.old) (S.at cache.new) key body.now request response
        result }
    ensures tells { let put = (state_at (S.at cache.old)).next_put in
        TellsOfPut (S.at cache.old) (S.at cache.new) put result }
    ensures stands { StaysStanding S.stands (λ contents. TellsVectors contents
        × TellsPut (state_at (S.at cache.new)) (state_at (S.at cache.old)).next_put body.now contents)
        cache.old cache.new }
{
    match cache.open_write(Actor(0), key, request, response, 0) {
        Ok(mut writer) => put_open(cache, &mut writer, body, now),
        Err(why) => Err(why),
    }
}

// Puts a body with its new writer, and gives the put up where that is still open.
fn put_open<S: Calls>(
    cache: &mut S,
    writer: &mut S::Writer,
    body: &[u8],
    now: u64,
) -> Result<Receipt, Refusal>
    requires holds { S.holds cache.old }
    requires writer { IsOpenWriter (state_at (S.at cache.old)) (S.written writer.old) }
    requires fresh { IsFreshWriter (S.written writer.old) }
    ensures keeps { KeepsUnharmed S.at S.holds cache.old cache.new }
    ensures ends { BodyEndsWhere now (S.at cache.old) (S.at cache.new) (S.written writer.old).put
        body.now result }
    ensures tells { TellsOfPut (S.at cache.old) (S.at cache.new) (S.written writer.old).put
        result }
    ensures stands { StaysStanding S.stands (λ contents. TellsVectors contents
        × TellsPut (state_at (S.at cache.new)) (S.written writer.old).put body.now contents)
        cache.old cache.new }
{
    match fill(cache, writer, body, now) {
        Ok(receipt) => Ok(receipt),
        Err(why) => {
            let end = cache.abort_write(writer);
            Err(unless_memory(end, why))
        }
    }
}

// Why a body was refused, unless memory was wanting to give its put up.
fn unless_memory(end: Result<u64, Refusal>, why: Refusal) -> Refusal
    ensures { result ≡ unless_memory end why }
{
    match end {
        Err(Refusal::Memory(e)) => Refusal::Memory(e),
        _ => why,
    }
}

// Feeds all of a body to the new writer of an open put, and closes it.
fn fill<S: Calls>(
    cache: &mut S,
    writer: &mut S::Writer,
    body: &[u8],
    now: u64,
) -> Result<Receipt, Refusal>
    requires holds { S.holds cache.old }
    requires writer { IsOpenWriter (state_at (S.at cache.old)) (S.written writer.old) }
    requires fresh { IsFreshWriter (S.written writer.old) }
    ensures keeps { KeepsUnharmed S.at S.holds cache.old cache.new }
    ensures writer { IsWriterOf (state_at (S.at cache.new)) (S.written writer.new) }
    ensures put { (S.written writer.new).put ≡ (S.written writer.old).put }
    ensures fills { FillsWhere now (S.at cache.old) (S.at cache.new) (S.written writer.old)
        body.now result }
    ensures tells { TellsOfPut (S.at cache.old) (S.at cache.new) (S.written writer.old).put
        result }
    ensures stands { StaysStanding S.stands (λ contents. TellsVectors contents
        × TellsPut (state_at (S.at cache.new)) (S.written writer.old).put body.now contents)
        cache.old cache.new }
{
    match feed(cache, writer, body, now).refused {
        None => cache.close_write(writer, now),
        Some(why) => Err(why),
    }
}
