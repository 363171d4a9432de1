// The step of each verb, from the words behind it.
ghost use Rattle.std.specs.Prelude.{◌≡◌, ◌^◌};
ghost use Rattle.script_grammar.specs.Grammar.{take_number, alternates_kept, usual_of, format_of_numbers, geometry_of, format_of, put_line_of, get_of, take_actor, open_write_of, data_of, open_read_of, only_actor, remove_of, flush_of, now_of, fail_of, stop_of, flip_of, cut_of, step_by};
ghost use Rattle.script_lang.specs.Taken.{seen_word, words_in, TakesNumber};
ghost use Rattle.script_lang.specs.Refusal.{ReadsValue, TakesValue};

use crate::fields::fields;
use crate::left::{Word, Words};
use crate::tokens::{
    Refusal, actor, body, byte_number, choice, count, long_number, object, short_number,
};
use crate::verbs::is_word;
use script_grammar::{BadLine, ByteList, FieldKinds, Step, Verb};
use std::alloc::Global;
use tape_base::Geometry;

// The alternates that are kept where a line does not say how many.
const ALTERNATES: u32 = 5;

/// The next word, as a number below 2^32.
#[tactic(auto, unfolding(script_grammar::specs::Grammar::take_number))]
fn take_short(words: &mut Words) -> Result<u32, BadLine>
    ensures taken { TakesNumber (2 ^ 32) words.old.end (words_in words.old) result (words_in words.new) }
    ensures end { words.new.end ≡ words.old.end }
{
    let word = words.word()?;
    short_number(word)
}

/// The next word, as a number below 2^64.
#[tactic(auto, unfolding(script_grammar::specs::Grammar::take_number))]
fn take_long(words: &mut Words) -> Result<u64, BadLine>
    ensures taken { TakesNumber (2 ^ 64) words.old.end (words_in words.old) result (words_in words.new) }
    ensures end { words.new.end ≡ words.old.end }
{
    let word = words.word()?;
    long_number(word)
}

/// The next word, as the number of a byte in a block.
#[tactic(auto, unfolding(script_grammar::specs::Grammar::take_number))]
fn take_byte(words: &mut Words) -> Result<u32, BadLine>
    ensures taken { TakesNumber 512 words.old.end (words_in words.old) result (words_in words.new) }
    ensures end { words.new.end ≡ words.old.end }
{
    let word = words.word()?;
    byte_number(word)
}

/// The number of alternates, if a word is left, and the end of the line.
#[tactic(auto, unfolding(script_grammar::specs::Grammar::alternates_kept))]
fn alternates(words: &mut Words) -> Result<u32, BadLine>
    ensures { result ≡ alternates_kept words.old.end (words_in words.old) }
{
    if !words.has_more() {
        return Ok(ALTERNATES);
    }
    let most = take_short(words)?;
    words.end()?;
    Ok(most)
}

/// What stands behind `default`, and the numbers of the usual geometry.
#[tactic(auto, unfolding(script_grammar::specs::Grammar::usual_of))]
fn usual(name: ByteList, words: &mut Words) -> Result<Step, Refusal>
    ensures { ReadsValue (usual_of words.old.end name (words_in words.old)) result }
{
    let usual = Geometry::usual(take_long(words)?);
    let alternates = alternates(words)?;
    Ok(Step::Format {
        name,
        segments: usual.segments,
        buckets: usual.buckets,
        content: usual.content,
        agg: usual.agg,
        reach: usual.reach,
        fragment: usual.fragment,
        generation: usual.generation,
        alternates,
    })
}

/// The numbers of a geometry behind the first one.
#[tactic(auto, unfolding(script_grammar::specs::Grammar::format_of_numbers))]
fn numbers(name: ByteList, segments: u32, words: &mut Words) -> Result<Step, Refusal>
    ensures { ReadsValue
        (format_of_numbers words.old.end name segments (words_in words.old)) result }
{
    let buckets = take_short(words)?;
    let content = take_long(words)?;
    let agg = take_short(words)?;
    let reach = take_long(words)?;
    let fragment = take_short(words)?;
    let generation = take_long(words)?;
    let alternates = alternates(words)?;
    Ok(Step::Format {
        name,
        segments,
        buckets,
        content,
        agg,
        reach,
        fragment,
        generation,
        alternates,
    })
}

/// `default`, or the first of the numbers, and the words behind it.
fn geometry(name: ByteList, word: Word, words: &mut Words) -> Result<Step, Refusal>
    ensures { ReadsValue
        (geometry_of words.old.end name (seen_word word.entry) (words_in words.old)) result }
{
    if is_word(word.bytes, b"default") {
        return usual(name, words);
    }
    let segments = short_number(word)?;
    numbers(name, segments, words)
}

/// `format NAME S B N A R F G [M]` or `format NAME default G [M]`
#[tactic(auto, unfolding(script_grammar::specs::Grammar::format_of))]
fn format_line(alloc: Global, words: &mut Words) -> Result<Step, Refusal>
    ensures { ReadsValue (format_of words.old.end (words_in words.old)) result }
{
    let name = words.word()?;
    let word = words.word()?;
    let name = ByteList::new(name.bytes.to_vec(alloc)?);
    geometry(name, word, words)
}

/// `put OBJECT BODY FIELD*`
#[tactic(auto, unfolding(script_grammar::specs::Grammar::put_line_of))]
fn put_line(alloc: Global, words: &mut Words) -> Result<Step, Refusal>
    ensures { ReadsValue (put_line_of words.old.end (words_in words.old)) result }
{
    let object = object(words.word()?)?;
    let body = body(alloc, words.word()?)?;
    let sides = fields(alloc, FieldKinds::Both, words)?;
    Ok(Step::Put {
        object,
        body,
        request: sides.request,
        response: sides.response,
    })
}

/// `get OBJECT FIELD*`
#[tactic(auto, unfolding(script_grammar::specs::Grammar::get_of))]
fn get_line(alloc: Global, words: &mut Words) -> Result<Step, Refusal>
    ensures { ReadsValue (get_of words.old.end (words_in words.old)) result }
{
    let object = object(words.word()?)?;
    let sides = fields(alloc, FieldKinds::Request, words)?;
    Ok(Step::Get {
        object,
        request: sides.request,
    })
}

/// The next word, as the name of an actor.
#[tactic(auto, unfolding(script_grammar::specs::Grammar::take_actor))]
fn take_actor(alloc: Global, words: &mut Words) -> Result<ByteList, Refusal>
    ensures taken { TakesValue (take_actor words.old.end (words_in words.old)) result (words_in words.new) }
    ensures end { words.new.end ≡ words.old.end }
{
    let word = words.word()?;
    actor(alloc, word)
}

/// `open-write ACTOR OBJECT PIN FIELD*`
#[tactic(auto, unfolding(script_grammar::specs::Grammar::open_write_of))]
fn open_write_line(alloc: Global, words: &mut Words) -> Result<Step, Refusal>
    ensures { ReadsValue (open_write_of words.old.end (words_in words.old)) result }
{
    let actor = take_actor(alloc, words)?;
    let object = object(words.word()?)?;
    let pin = take_long(words)?;
    let sides = fields(alloc, FieldKinds::Both, words)?;
    Ok(Step::OpenWrite {
        actor,
        object,
        pin,
        request: sides.request,
        response: sides.response,
    })
}

/// `data ACTOR BODY`
#[tactic(auto, unfolding(script_grammar::specs::Grammar::data_of))]
fn data_line(alloc: Global, words: &mut Words) -> Result<Step, Refusal>
    ensures { ReadsValue (data_of words.old.end (words_in words.old)) result }
{
    let actor = take_actor(alloc, words)?;
    let body = body(alloc, words.word()?)?;
    words.end()?;
    Ok(Step::Feed { actor, body })
}

/// `open-read ACTOR OBJECT FIELD*`
#[tactic(auto, unfolding(script_grammar::specs::Grammar::open_read_of))]
fn open_read_line(alloc: Global, words: &mut Words) -> Result<Step, Refusal>
    ensures { ReadsValue (open_read_of words.old.end (words_in words.old)) result }
{
    let actor = take_actor(alloc, words)?;
    let object = object(words.word()?)?;
    let sides = fields(alloc, FieldKinds::Request, words)?;
    Ok(Step::OpenRead {
        actor,
        object,
        request: sides.request,
    })
}

/// An actor and no more.
#[tactic(auto, unfolding(script_grammar::specs::Grammar::only_actor))]
fn only_actor(alloc: Global, words: &mut Words) -> Result<ByteList, Refusal>
    ensures { ReadsValue (only_actor words.old.end (words_in words.old)) result }
{
    let actor = take_actor(alloc, words)?;
    words.end()?;
    Ok(actor)
}

/// `remove OBJECT`
#[tactic(auto, unfolding(script_grammar::specs::Grammar::remove_of))]
fn remove_line(words: &mut Words) -> Result<Step, Refusal>
    ensures { ReadsValue (remove_of words.old.end (words_in words.old)) result }
{
    let object = object(words.word()?)?;
    words.end()?;
    Ok(Step::Remove { object })
}

/// `flush`
fn flush_line(words: &Words) -> Result<Step, Refusal>
    ensures { ReadsValue (flush_of (words_in words.now)) result }
{
    words.end()?;
    Ok(Step::Flush)
}

/// `now MOMENT`
#[tactic(auto, unfolding(script_grammar::specs::Grammar::now_of))]
fn now_line(words: &mut Words) -> Result<Step, Refusal>
    ensures { ReadsValue (now_of words.old.end (words_in words.old)) result }
{
    let moment = take_long(words)?;
    words.end()?;
    Ok(Step::Now { moment })
}

/// `fail NTH`
#[tactic(auto, unfolding(script_grammar::specs::Grammar::fail_of))]
fn fail_line(words: &mut Words) -> Result<Step, Refusal>
    ensures { ReadsValue (fail_of words.old.end (words_in words.old)) result }
{
    let nth = count(words.word()?)?;
    words.end()?;
    Ok(Step::Fail { nth })
}

/// `stop-after CALLS`
#[tactic(auto, unfolding(script_grammar::specs::Grammar::stop_of))]
fn stop_line(words: &mut Words) -> Result<Step, Refusal>
    ensures { ReadsValue (stop_of words.old.end (words_in words.old)) result }
{
    let calls = take_long(words)?;
    words.end()?;
    Ok(Step::StopAfter { calls })
}

/// `flip PLACE BYTE`
#[tactic(auto, unfolding(script_grammar::specs::Grammar::flip_of))]
fn flip_line(words: &mut Words) -> Result<Step, Refusal>
    ensures { ReadsValue (flip_of words.old.end (words_in words.old)) result }
{
    let place = take_long(words)?;
    let byte = take_byte(words)?;
    words.end()?;
    Ok(Step::Flip { place, byte })
}

/// `cut CHOICE`
#[tactic(auto, unfolding(script_grammar::specs::Grammar::cut_of))]
fn cut_line(words: &mut Words) -> Result<Step, Refusal>
    ensures { ReadsValue (cut_of words.old.end (words_in words.old)) result }
{
    let choice = choice(words.word()?)?;
    words.end()?;
    Ok(Step::Cut { choice })
}

/// The step of a verb and the words behind it.
pub(crate) fn step_by(alloc: Global, verb: Verb, words: &mut Words) -> Result<Step, Refusal>
    ensures { ReadsValue (step_by words.old.end verb (words_in words.old)) result }
{
    match verb {
        Verb::Format => format_line(alloc, words),
        Verb::Put => put_line(alloc, words),
        Verb::Get => get_line(alloc, words),
        Verb::OpenWrite => open_write_line(alloc, words),
        Verb::Data => data_line(alloc, words),
        Verb::Close => Ok(Step::Close {
            actor: only_actor(alloc, words)?,
        }),
        Verb::Abort => Ok(Step::Abort {
            actor: only_actor(alloc, words)?,
        }),
        Verb::OpenRead => open_read_line(alloc, words),
        Verb::Next => Ok(Step::Next {
            actor: only_actor(alloc, words)?,
        }),
        Verb::Done => Ok(Step::Done {
            actor: only_actor(alloc, words)?,
        }),
        Verb::Remove => remove_line(words),
        Verb::Flush => flush_line(words),
        Verb::Now => now_line(words),
        Verb::Fail => fail_line(words),
        Verb::StopAfter => stop_line(words),
        Verb::Flip => flip_line(words),
        Verb::Cut => cut_line(words),
    }
}
