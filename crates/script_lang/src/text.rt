// The text of each answer: one line, ended by a newline.
ghost use Rattle.std.specs.Prelude.{◌≡◌, ◌++◌, IfOk, OnOk, OnErr, string_bytes};
ghost use Rattle.script_grammar.specs.Texts.{shown, numbered, passed_text, displaced_text, damaged_text, cause_text, lost_text, open_text, refusal_text, took_text, synced_text, number_line, formatted_line, put_line, got_line, hit_line, piece_line, flushed_line, refused_line, fault_line, cause_line, why_line, done_line, armed_line, flipped_line, cut_line, answer_line};

use cache_model::Cause;
use hex::encode;
use script_grammar::{Refused, StepAnswer};
use sha_words::digest;
use std::alloc::{AllocError, Global};
use tape_base::Digest;

/// Bytes as an answer shows them.
#[tactic(auto, unfolding(script_grammar::specs::Texts::shown))]
fn shown(alloc: Global, bytes: &[u8]) -> Result<String, AllocError>
    ensures { IfOk result (λ text. string_bytes text ≡ shown bytes.now) }
{
    if bytes.is_empty() {
        return String::from_str(alloc, "-");
    }
    if bytes.len() <= 64 {
        return encode(alloc, bytes);
    }
    let digest = encode(alloc, digest(bytes).as_slice())?;
    format!(in alloc; "sha256 {digest}")
}

/// A word and a number.
#[tactic(auto, unfolding(script_grammar::specs::Texts::numbered))]
fn numbered(alloc: Global, word: &str, n: u64) -> Result<String, AllocError>
    ensures { IfOk result (λ text. string_bytes text ≡ numbered word.now n) }
{
    format!(in alloc; "{word} {n}")
}

#[tactic(auto, unfolding(script_grammar::specs::Texts::passed_text))]
fn passed(alloc: Global, place: u64, floor: u64, unsaved: bool) -> Result<String, AllocError>
    ensures { IfOk result (λ text. string_bytes text ≡ passed_text place floor unsaved) }
{
    let unsaved = if unsaved { " unsaved" } else { "" };
    format!(in alloc; "passed {place} {floor}{unsaved}")
}

#[tactic(auto, unfolding(script_grammar::specs::Texts::displaced_text))]
fn displaced(alloc: Global, segment: u32, live: u64) -> Result<String, AllocError>
    ensures { IfOk result (λ text. string_bytes text ≡ displaced_text segment live) }
{
    format!(in alloc; "displaced {segment} {live}")
}

#[tactic(auto, unfolding(script_grammar::specs::Texts::damaged_text))]
fn damaged(alloc: Global, place: u64, kept: Digest, found: Digest) -> Result<String, AllocError>
    ensures { IfOk result (λ text. string_bytes text ≡ damaged_text place kept found) }
{
    let kept = encode(alloc, kept.0.as_slice())?;
    let found = encode(alloc, found.0.as_slice())?;
    format!(in alloc; "damaged {place} {kept} {found}")
}

fn cause(alloc: Global, why: Cause) -> Result<String, AllocError>
    ensures { IfOk result (λ text. string_bytes text ≡ cause_text why) }
{
    match why {
        Cause::NeverPut => String::from_str(alloc, "never-put"),
        Cause::Removed => String::from_str(alloc, "removed"),
        Cause::Passed {
            place,
            floor,
            unsaved,
        } => passed(alloc, place, floor, unsaved),
        Cause::NoMatch { count } => numbered(alloc, "no-match", count as u64),
        Cause::Displaced { segment, live } => displaced(alloc, segment, live),
        Cause::Aborted { writer } => numbered(alloc, "aborted", writer),
        Cause::DeviceFault { count } => numbered(alloc, "device-fault", count),
        Cause::BeforeOpening { serial } => numbered(alloc, "before-opening", serial),
        Cause::Unrecorded { dropped } => numbered(alloc, "unrecorded", dropped),
        Cause::Damaged { place, kept, found } => damaged(alloc, place, kept, found),
    }
}

#[tactic(auto, unfolding(script_grammar::specs::Texts::lost_text))]
fn lost(alloc: Global, index: u32, why: Cause) -> Result<String, AllocError>
    ensures { IfOk result (λ text. string_bytes text ≡ lost_text index why) }
{
    let why = cause(alloc, why)?;
    format!(in alloc; "lost {index} {why}")
}

/// How many writers and readers are open.
#[tactic(auto, unfolding(script_grammar::specs::Texts::open_text))]
fn still_open(alloc: Global, writers: u32, readers: u32) -> Result<String, AllocError>
    ensures { IfOk result (λ text. string_bytes text ≡ open_text writers readers) }
{
    format!(in alloc; "still-open {writers} {readers}")
}

fn refusal(alloc: Global, why: Refused) -> Result<String, AllocError>
    ensures { IfOk result (λ text. string_bytes text ≡ refusal_text why) }
{
    match why {
        Refused::Geometry { number } => numbered(alloc, "geometry", number as u64),
        Refused::TooManyWriters => String::from_str(alloc, "too-many-writers"),
        Refused::TooManyFragments => String::from_str(alloc, "too-many-fragments"),
        Refused::VectorTooLarge { bytes } => numbered(alloc, "vector-too-large", bytes),
        Refused::Lost { index, cause } => lost(alloc, index, cause),
        Refused::Sealed => String::from_str(alloc, "sealed"),
        Refused::Exhausted => String::from_str(alloc, "exhausted"),
        Refused::Busy => String::from_str(alloc, "busy"),
        Refused::Idle => String::from_str(alloc, "idle"),
        Refused::NoSwitch => String::from_str(alloc, "no-switch"),
        Refused::SyncRunning { serial } => numbered(alloc, "sync-running", serial),
        Refused::NoSync => String::from_str(alloc, "no-sync"),
        Refused::StillOpen { writers, readers } => still_open(alloc, writers, readers),
        Refused::StillMoving { blocks } => numbered(alloc, "still-moving", blocks as u64),
    }
}

/// How many bytes were taken, where that is told.
fn took(alloc: Global, count: Option<u64>) -> Result<String, AllocError>
    ensures { IfOk result (λ text. string_bytes text ≡ took_text count) }
{
    match count {
        None => Ok(String::new(alloc)),
        Some(count) => format!(in alloc; " took {count}"),
    }
}

/// The serial of the sync that ran, where one did.
fn synced(alloc: Global, serial: Option<u64>) -> Result<String, AllocError>
    ensures { IfOk result (λ text. string_bytes text ≡ synced_text serial) }
{
    match serial {
        None => Ok(String::new(alloc)),
        Some(serial) => format!(in alloc; " synced {serial}"),
    }
}

/// The line of a word and a number.
#[tactic(auto, unfolding(script_grammar::specs::Texts::number_line))]
fn number(alloc: Global, word: &str, n: u64) -> Result<String, AllocError>
    ensures { IfOk result (λ text. string_bytes text ≡ number_line word.now n) }
{
    format!(in alloc; "{word} {n}\n")
}

#[tactic(auto, unfolding(script_grammar::specs::Texts::formatted_line))]
fn formatted(alloc: Global, serial: u64, cursor: u64, floor: u64) -> Result<String, AllocError>
    ensures { IfOk result (λ text. string_bytes text ≡ formatted_line serial cursor floor) }
{
    format!(in alloc; "formatted serial {serial} cursor {cursor} floor {floor}\n")
}

#[tactic(auto, unfolding(script_grammar::specs::Texts::put_line))]
fn put(alloc: Global, put: u64, length: u64, fragments: u32) -> Result<String, AllocError>
    ensures { IfOk result (λ text. string_bytes text ≡ put_line put length fragments) }
{
    format!(in alloc; "put {put} length {length} fragments {fragments}\n")
}

#[tactic(auto, unfolding(script_grammar::specs::Texts::got_line))]
fn got(alloc: Global, put: u64, length: u64, bytes: &[u8]) -> Result<String, AllocError>
    ensures { IfOk result (λ text. string_bytes text ≡ got_line put length bytes.now) }
{
    let body = shown(alloc, bytes)?;
    format!(in alloc; "got {put} length {length} {body}\n")
}

#[tactic(auto, unfolding(script_grammar::specs::Texts::hit_line))]
fn hit(alloc: Global, put: u64, length: u64) -> Result<String, AllocError>
    ensures { IfOk result (λ text. string_bytes text ≡ hit_line put length) }
{
    format!(in alloc; "hit {put} length {length}\n")
}

#[tactic(auto, unfolding(script_grammar::specs::Texts::piece_line))]
fn piece(alloc: Global, index: u32, length: u32, bytes: &[u8]) -> Result<String, AllocError>
    ensures { IfOk result (λ text. string_bytes text ≡ piece_line index length bytes.now) }
{
    let body = shown(alloc, bytes)?;
    format!(in alloc; "piece {index} {length} {body}\n")
}

#[tactic(auto, unfolding(script_grammar::specs::Texts::flushed_line))]
fn flushed(
    alloc: Global,
    blocks: u32,
    cursor: u64,
    floor: u64,
    serial: Option<u64>,
) -> Result<String, AllocError>
    ensures { IfOk result (λ text. string_bytes text ≡ flushed_line blocks cursor floor serial) }
{
    let synced = synced(alloc, serial)?;
    format!(in alloc; "flushed {blocks} cursor {cursor} floor {floor}{synced}\n")
}

#[tactic(auto, unfolding(script_grammar::specs::Texts::refused_line))]
fn refused(alloc: Global, why: Refused, count: Option<u64>) -> Result<String, AllocError>
    ensures { IfOk result (λ text. string_bytes text ≡ refused_line why count) }
{
    let why = refusal(alloc, why)?;
    let took = took(alloc, count)?;
    format!(in alloc; "refused {why}{took}\n")
}

#[tactic(auto, unfolding(script_grammar::specs::Texts::fault_line))]
fn fault(alloc: Global, count: u64, taken: Option<u64>) -> Result<String, AllocError>
    ensures { IfOk result (λ text. string_bytes text ≡ fault_line count taken) }
{
    let took = took(alloc, taken)?;
    format!(in alloc; "device-fault {count}{took}\n")
}

/// The line of a word and a cause.
#[tactic(auto, unfolding(script_grammar::specs::Texts::cause_line))]
fn told(alloc: Global, word: &str, why: Cause) -> Result<String, AllocError>
    ensures { IfOk result (λ text. string_bytes text ≡ cause_line word.now why) }
{
    let why = cause(alloc, why)?;
    format!(in alloc; "{word} {why}\n")
}

/// The line of a word and a cause, which a device's fault is by itself.
fn why(alloc: Global, word: &str, why: Cause) -> Result<String, AllocError>
    ensures { IfOk result (λ text. string_bytes text ≡ why_line word.now why) }
{
    match why {
        Cause::DeviceFault { count } => fault(alloc, count, None),
        _ => told(alloc, word, why),
    }
}

#[tactic(auto, unfolding(script_grammar::specs::Texts::done_line))]
fn done(alloc: Global) -> Result<String, AllocError>
    ensures { IfOk result (λ text. string_bytes text ≡ done_line) }
{
    String::from_str(alloc, "done\n")
}

#[tactic(auto, unfolding(script_grammar::specs::Texts::armed_line))]
fn armed(alloc: Global) -> Result<String, AllocError>
    ensures { IfOk result (λ text. string_bytes text ≡ armed_line) }
{
    String::from_str(alloc, "armed\n")
}

#[tactic(auto, unfolding(script_grammar::specs::Texts::flipped_line))]
fn flipped(alloc: Global) -> Result<String, AllocError>
    ensures { IfOk result (λ text. string_bytes text ≡ flipped_line) }
{
    String::from_str(alloc, "flipped\n")
}

#[tactic(auto, unfolding(script_grammar::specs::Texts::cut_line))]
fn cut(alloc: Global) -> Result<String, AllocError>
    ensures { IfOk result (λ text. string_bytes text ≡ cut_line) }
{
    String::from_str(alloc, "cut\n")
}

/// The line of an answer, with its newline.
fn line(alloc: Global, answer: &StepAnswer) -> Result<String, AllocError>
    ensures { IfOk result (λ text. string_bytes text ≡ answer_line answer.now) }
{
    match answer {
        StepAnswer::Formatted {
            serial,
            cursor,
            floor,
        } => formatted(alloc, *serial, *cursor, *floor),
        StepAnswer::Put {
            put: id,
            length,
            fragments,
        } => put(alloc, *id, *length, *fragments),
        StepAnswer::Got { put, length, bytes } => got(alloc, *put, *length, bytes.bytes()),
        StepAnswer::Miss(cause) => why(alloc, "miss", *cause),
        StepAnswer::Broken(cause) => why(alloc, "broken", *cause),
        StepAnswer::Follow { put } => number(alloc, "follow", *put),
        StepAnswer::Writer { put } => number(alloc, "writer", *put),
        StepAnswer::Took { count } => number(alloc, "took", *count),
        StepAnswer::Aborted { put } => number(alloc, "aborted", *put),
        StepAnswer::Hit { put, length } => hit(alloc, *put, *length),
        StepAnswer::Piece {
            index,
            length,
            bytes,
        } => piece(alloc, *index, *length, bytes.bytes()),
        StepAnswer::End { length } => number(alloc, "end", *length),
        StepAnswer::NotYet { cut } => number(alloc, "notyet", *cut as u64),
        StepAnswer::Done => done(alloc),
        StepAnswer::Removed { put } => number(alloc, "removed", *put),
        StepAnswer::Absent(cause) => why(alloc, "absent", *cause),
        StepAnswer::Flushed {
            blocks,
            cursor,
            floor,
            synced,
        } => flushed(alloc, *blocks, *cursor, *floor, *synced),
        StepAnswer::Now { moment } => number(alloc, "now", *moment),
        StepAnswer::Armed => armed(alloc),
        StepAnswer::Flipped => flipped(alloc),
        StepAnswer::Cut => cut(alloc),
        StepAnswer::Refused { why, took } => refused(alloc, *why, *took),
        StepAnswer::DeviceFault { count, took } => fault(alloc, *count, *took),
    }
}

/// Writes the line of an answer, with its newline, behind what stands in `out`. Without the memory
/// for all of it nothing is written.
pub fn answer_text(answer: &StepAnswer, out: &mut Vec<u8>) -> Result<(), AllocError>
    ensures ok { OnOk result (out.new.items ≡ out.old.items ++ answer_line answer.now) }
    ensures err { OnErr result (out.new.items ≡ out.old.items) }
{
    let text = line(*out.allocator(), answer)?;
    out.extend_from_slice(text.as_bytes())
}
