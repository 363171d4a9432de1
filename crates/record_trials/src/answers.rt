// Texts of answers that no script over sound devices in memory shows.
use cache_model::Cause;
use script_grammar::{Refused, StepAnswer};
use script_lang::answer_text;
use std::test::Fail;

fn refused(why: Refused) -> StepAnswer {
    StepAnswer::Refused { why, took: None }
}

#[test]
fn answers_have_their_texts(rt: HostRuntime) -> Result<(), Fail> {
    let displaced = Cause::Displaced {
        segment: 0,
        live: 7,
    };
    let flushed = StepAnswer::Flushed {
        blocks: 8,
        cursor: 128,
        floor: 72,
        synced: Some(5),
    };
    let answers = [
        StepAnswer::Miss(displaced),
        flushed,
        refused(Refused::Sealed),
        refused(Refused::Exhausted),
    ];
    let mut out = Vec::new(rt.alloc());
    for answer in &answers {
        answer_text(answer, &mut out)?;
    }
    let texts =
        "miss displaced 0 7\nflushed 8 cursor 128 floor 72 synced 5\nrefused sealed\nrefused exhausted\n";
    assert_eq!(rt; out.as_slice(), texts.as_bytes());
    Ok(())
}
