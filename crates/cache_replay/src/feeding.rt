// Writers are fed: bytes are given until all are taken or the writer is refused.
ghost use Rattle.cache_calls.specs.Keeping.{KeepsUnharmed, state_at};
ghost use Rattle.cache_calls.specs.Standing.{StaysStanding};
ghost use Rattle.cache_replay.specs.Feeding.{FeedsWhere, HasFed};
ghost use Rattle.cache_replay.specs.Session.{IsOpenWriter};
ghost use Rattle.line_calls.specs.Standing.{IsToldFrom};

use cache_calls::{Calls, Refusal};

/// How far a writer came: how many bytes it took, and what it was refused for.
#[derive(Debug, Drop)]
pub(crate) struct Fed {
    pub taken: u64,
    pub refused: Option<Refusal>,
}

/// Gives bytes to the writer of an open put.
pub(crate) fn feed<S: Calls>(cache: &mut S, writer: &mut S::Writer, bytes: &[u8], now: u64) -> Fed
    requires holds { S.holds cache.old }
    requires writer { IsOpenWriter (state_at (S.at cache.old)) (S.written writer.old) }
    ensures keeps { KeepsUnharmed S.at S.holds cache.old cache.new }
    ensures feeds { FeedsWhere now (S.at cache.old) (S.at cache.new) (S.written writer.old)
        bytes.now result.refused }
    ensures fed { HasFed (S.at cache.old) (S.at cache.new) (S.written writer.old) bytes.now
        result.taken result.refused (S.written writer.new) }
    ensures stands { StaysStanding S.stands (IsToldFrom (state_at (S.at cache.new))
        (S.written writer.old) bytes.now) cache.old cache.new }
{
    let mut taken = 0;
    'feed: loop {
        match cache.write(writer, &bytes[taken..], now) {
            Ok(count) => taken += count,
            Err(why) => {
                return Fed {
                    taken: taken as u64,
                    refused: Some(why),
                };
            }
        }
        if taken == bytes.len() {
            return Fed {
                taken: taken as u64,
                refused: None,
            };
        }
    }
}
