// Refusals and causes, as lines tell them.
ghost use Rattle.std.specs.Prelude.{◌≡◌};
ghost use Rattle.script_grammar.specs.declared.answer.StepAnswer.TheVariants as answer;
ghost use Rattle.script_run.specs.Answers.{broken_said, miss_said};
ghost use Rattle.cache_replay.specs.Replies.{closed_answer, refusal_answer, refused_answer};

use cache_calls::{Receipt, Refusal};
use cache_model::Cause;
use script_grammar::{Refused, StepAnswer};

/// What a line answers that was refused, with how many bytes were taken where that is told.
pub(crate) fn refusal_answer(why: Refusal, took: Option<u64>) -> StepAnswer
    ensures { result ≡ refusal_answer why took }
{
    match why {
        Refusal::TooManyWriters => refused(Refused::TooManyWriters, took),
        Refusal::TooManyFragments => refused(Refused::TooManyFragments, took),
        Refusal::VectorTooLarge { bytes } => refused(Refused::VectorTooLarge { bytes }, took),
        Refusal::Lost { index, cause } => refused(Refused::Lost { index, cause }, took),
        Refusal::Sealed => refused(Refused::Sealed, took),
        Refusal::Exhausted { .. } => refused(Refused::Exhausted, took),
        Refusal::DeviceFault { count } => StepAnswer::DeviceFault { count, took },
        Refusal::NoSuchWriter | Refusal::Memory(_) => refused(Refused::Idle, took),
    }
}

fn refused(why: Refused, took: Option<u64>) -> StepAnswer
    ensures { result ≡ answer.Refused why took }
{
    StepAnswer::Refused { why, took }
}

/// The same; for want of memory there is no answer.
pub(crate) fn answer_unless_memory(why: Refusal, took: Option<u64>) -> Option<StepAnswer>
    ensures { result ≡ refused_answer why took }
{
    match why {
        Refusal::Memory(_) => None,
        why => Some(refusal_answer(why, took)),
    }
}

/// What is answered of a put that was closed; for want of memory there is no answer.
pub(crate) fn closed_answer(given: Result<Receipt, Refusal>) -> Option<StepAnswer>
    ensures { result ≡ closed_answer given }
{
    match given {
        Ok(receipt) => Some(StepAnswer::Put {
            put: receipt.put,
            length: receipt.length,
            fragments: receipt.fragments,
        }),
        Err(why) => answer_unless_memory(why, None),
    }
}

/// There is nothing to read, for this cause.
pub(crate) fn miss_said(why: Cause) -> StepAnswer
    ensures { result ≡ miss_said why }
{
    match why {
        Cause::DeviceFault { count } => StepAnswer::DeviceFault { count, took: None },
        _ => StepAnswer::Miss(why),
    }
}

/// The body breaks off, for this cause.
pub(crate) fn broken_said(why: Cause) -> StepAnswer
    ensures { result ≡ broken_said why }
{
    match why {
        Cause::DeviceFault { count } => StepAnswer::DeviceFault { count, took: None },
        _ => StepAnswer::Broken(why),
    }
}
