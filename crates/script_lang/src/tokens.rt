// What single words spell: numbers, objects, bodies and actors.
ghost use Rattle.std.specs.Prelude.{◌≡◌, ◌/◌, ◌+◌, ◌<◌, ◌≤◌, ◌^◌, ◌==◌, slice_index, true, length, position, nat_le, ◌&&◌, false, Some, IfSome, IfNone};
ghost use Rattle.std.specs.List.{list_all};
ghost use Rattle.script_grammar.specs.Tokens.{is_digit, is_number_word, number_of_digits, number_of_word, number_below, count_below, is_lower_hex, is_key_word, key_in, object_of, is_star, is_dash, hex_body, repeated_body, body_of_word, is_actor_byte, is_actor, actor_of_word};
ghost use Rattle.script_grammar.specs.Grammar.{choice_by, choice_of};
ghost use Rattle.script_lang.specs.Taken.{seen_word};
ghost use Rattle.script_grammar.specs.Words.{bad};
ghost use Rattle.script_lang.specs.Refusal.{ReadsValue};

use crate::left::Word;
use crate::verbs::is_word;
use device_log::CutChoice;
use hex::decode_to_slice;
use script_grammar::{BadKind, BadLine, ByteList};
use std::alloc::{AllocError, Global};
use std::str;
use tape_base::Key;

/// The longest URL, in bytes.
const MAX_URL: usize = 4_096;

/// The longest name of an actor.
const MAX_ACTOR: usize = 32;

/// The greatest count of a repeated byte.
const MAX_REPEATS: u64 = 67_108_864;

/// Why a line gives no step.
#[derive(Debug, Drop)]
pub(crate) enum Refusal {
    Bad(BadLine),
    Memory(AllocError),
}

impl From<BadLine> for Refusal {
    ghost use Rattle.script_lang.specs.declared.tokens.Refusal.TheVariants.{Bad};

    ghost from_gives = { λ fault refusal. refusal ≡ Bad fault };

    fn from(fault: BadLine) -> Refusal {
        Refusal::Bad(fault)
    }
}

impl From<AllocError> for Refusal {
    ghost use Rattle.script_lang.specs.declared.tokens.Refusal.TheVariants.{Memory};

    ghost from_gives = { λ error refusal. refusal ≡ Memory error };

    fn from(error: AllocError) -> Refusal {
        Refusal::Memory(error)
    }
}

fn are_digits(bytes: &[u8]) -> bool
    ensures { result ≡ list_all is_digit bytes.now }
{
    bytes.iter().all(|byte| *byte >= b'0' && *byte <= b'9')
}

fn is_number(bytes: &[u8]) -> bool
    ensures { result ≡ is_number_word bytes.now }
{
    are_digits(bytes) && (bytes.len() == 1 || !begins_with_zero(bytes))
}

fn begins_with_zero(bytes: &[u8]) -> bool
    ensures { result ≡ (slice_index bytes.now 0 == 48) }
{
    match bytes.first() {
        Some(first) => *first == b'0',
        None => false,
    }
}

/// The number that digits write, if it fits.
fn parse(digits: &str) -> Option<u64>
    requires { list_all is_digit digits.now ≡ true }
    ensures { result ≡ number_of_digits digits.now }
{
    digits.parse::<u64>().ok()
}

/// The number that these bytes spell: decimal digits, without a zero before others.
#[tactic(auto, unfolding(script_grammar::specs::Tokens::number_of_word))]
pub(crate) fn number_in(bytes: &[u8]) -> Option<u64>
    ensures { result ≡ number_of_word bytes.now }
{
    if !is_number(bytes) {
        return None;
    }
    match str::from_utf8(bytes) {
        Ok(text) => parse(text),
        Err(_) => None,
    }
}

#[tactic(auto, unfolding(script_grammar::specs::Tokens::number_below))]
pub(crate) fn long_number(word: Word) -> Result<u64, BadLine>
    ensures { result ≡ number_below (2 ^ 64) (seen_word word.entry) }
{
    match number_in(word.bytes) {
        Some(number) => Ok(number),
        None => Err(BadLine {
            column: word.column,
            kind: BadKind::Number,
        }),
    }
}

#[tactic(auto, unfolding(script_grammar::specs::Tokens::number_below))]
pub(crate) fn short_number(word: Word) -> Result<u32, BadLine>
    ensures { result ≡ number_below (2 ^ 32) (seen_word word.entry) }
{
    match number_in(word.bytes) {
        Some(number) if number <= u32::MAX as u64 => Ok(number as u32),
        _ => Err(BadLine {
            column: word.column,
            kind: BadKind::Number,
        }),
    }
}

/// The number of a byte in a block.
#[tactic(auto, unfolding(script_grammar::specs::Tokens::number_below))]
pub(crate) fn byte_number(word: Word) -> Result<u32, BadLine>
    ensures { result ≡ number_below 512 (seen_word word.entry) }
{
    match number_in(word.bytes) {
        Some(number) if number < 512 => Ok(number as u32),
        _ => Err(BadLine {
            column: word.column,
            kind: BadKind::Number,
        }),
    }
}

/// A number from 1 on.
#[tactic(auto, unfolding(script_grammar::specs::Tokens::count_below))]
pub(crate) fn count(word: Word) -> Result<u64, BadLine>
    ensures { result ≡ count_below (2 ^ 64) (seen_word word.entry) }
{
    let number = long_number(word)?;
    if number == 0 {
        return Err(BadLine {
            column: word.column,
            kind: BadKind::Number,
        });
    }
    Ok(number)
}

fn are_lower_hex(bytes: &[u8]) -> bool
    ensures { result ≡ list_all is_lower_hex bytes.now }
{
    bytes.iter().all(|byte| (*byte >= b'0' && *byte <= b'9') || (*byte >= b'a' && *byte <= b'f'))
}

/// Whether the bytes are `key:` and 32 lower-case hex digits.
fn is_key_word(bytes: &[u8]) -> bool
    ensures { result ≡ is_key_word bytes.now }
{
    bytes.len() == 36 && bytes.starts_with(b"key:") && are_lower_hex(&bytes[4..])
}

/// The key that the bytes spell.
#[tactic(auto, unfolding(script_grammar::specs::Tokens::key_in))]
fn key_in(bytes: &[u8]) -> Option<Key>
    ensures { result ≡ key_in bytes.now }
{
    if !is_key_word(bytes) {
        return None;
    }
    let mut key = [0; 16];
    match decode_to_slice(&bytes[4..], &mut key) {
        Ok(()) => Some(Key::new(key)),
        Err(_) => None,
    }
}

/// The key of the object that a word names.
#[tactic(auto, unfolding(script_grammar::specs::Tokens::object_of))]
pub(crate) fn object(word: Word) -> Result<Key, BadLine>
    ensures { result ≡ object_of (seen_word word.entry) }
{
    match key_in(word.bytes) {
        Some(key) => Ok(key),
        None if word.bytes.len() <= MAX_URL => Ok(Key::of_url(word.bytes)),
        None => Err(BadLine {
            column: word.column,
            kind: BadKind::Word,
        }),
    }
}

fn bad_body(word: Word) -> Refusal
    ensures { result ≡ Refusal.Bad (bad word.entry.column BadKind.Body) }
{
    Refusal::Bad(BadLine {
        column: word.column,
        kind: BadKind::Body,
    })
}

/// The bytes that pairs of hex digits spell.
#[tactic(auto, unfolding(script_grammar::specs::Tokens::hex_body))]
fn hex_body(alloc: Global, word: Word) -> Result<ByteList, Refusal>
    ensures { ReadsValue (hex_body (seen_word word.entry)) result }
{
    let mut bytes = vec![in alloc; 0; word.bytes.len() / 2]?;
    match decode_to_slice(word.bytes, &mut bytes) {
        Ok(()) => Ok(ByteList::new(bytes)),
        Err(_) => Err(bad_body(word)),
    }
}

/// The count of a repeated byte, if it may be one.
fn repeats(bytes: &[u8]) -> Option<u64>
    ensures value { IfSome result (λ count. number_of_word bytes.now ≡ Some count) }
    ensures fits { IfSome result (λ count. (1 ≤ count) × (count ≤ 67108864)) }
    ensures none { IfNone result (IfSome (number_of_word bytes.now) (λ count. (nat_le 1 count && nat_le count 67108864) ≡ false)) }
{
    match number_in(bytes) {
        Some(count) if count >= 1 && count <= MAX_REPEATS => Some(count),
        _ => None,
    }
}

/// The bytes of a count, a star and the hex digits of a byte.
#[tactic(auto, unfolding(script_grammar::specs::Tokens::repeated_body))]
fn repeated_body(alloc: Global, word: Word, star: usize) -> Result<ByteList, Refusal>
    requires { star < length word.bytes.now }
    ensures { ReadsValue (repeated_body (seen_word word.entry) star) result }
{
    let Some(count) = repeats(&word.bytes[..star]) else {
        return Err(bad_body(word));
    };
    let mut byte = [0; 1];
    match decode_to_slice(&word.bytes[star + 1..], &mut byte) {
        Ok(()) => Ok(ByteList::new(vec![in alloc; byte[0]; count as usize]?)),
        Err(_) => Err(bad_body(word)),
    }
}

fn star_in(bytes: &[u8]) -> Option<usize>
    ensures found { result ≡ position is_star bytes.now }
    ensures within { IfSome result (λ at. at < length bytes.now) }
{
    bytes.iter().position(|byte| *byte == b'*')
}

fn is_dash(bytes: &[u8]) -> bool
    ensures { result ≡ is_dash bytes.now }
{
    bytes.len() == 1 && bytes[0] == b'-'
}

/// The bytes of the body that a word spells.
#[tactic(auto, unfolding(script_grammar::specs::Tokens::body_of_word))]
pub(crate) fn body(alloc: Global, word: Word) -> Result<ByteList, Refusal>
    ensures { ReadsValue (body_of_word (seen_word word.entry)) result }
{
    if is_dash(word.bytes) {
        return Ok(ByteList::new(Vec::new(alloc)));
    }
    match star_in(word.bytes) {
        Some(star) => repeated_body(alloc, word, star),
        None => hex_body(alloc, word),
    }
}

fn is_actor_byte(byte: u8) -> bool
    ensures { result ≡ is_actor_byte byte }
{
    matches!(byte, b'0'..=b'9' | b'A'..=b'Z' | b'a'..=b'z' | b'-')
}

fn are_actor_bytes(bytes: &[u8]) -> bool
    ensures { result ≡ list_all is_actor_byte bytes.now }
{
    bytes.iter().all(|byte| is_actor_byte(*byte))
}

fn is_actor(bytes: &[u8]) -> bool
    ensures { result ≡ is_actor bytes.now }
{
    !bytes.is_empty() && bytes.len() <= MAX_ACTOR && are_actor_bytes(bytes)
}

/// The cut that a word names.
#[tactic(auto, unfolding(script_grammar::specs::Grammar::choice_of))]
fn choice_in(bytes: &[u8]) -> Option<CutChoice>
    ensures { result ≡ choice_of bytes.now }
{
    if is_word(bytes, b"lost") {
        Some(CutChoice::Lost)
    } else if is_word(bytes, b"kept") {
        Some(CutChoice::Kept)
    } else if is_word(bytes, b"torn") {
        Some(CutChoice::Torn)
    } else if is_word(bytes, b"junk") {
        Some(CutChoice::Junk)
    } else {
        None
    }
}

/// The same; a word that names none is the fault.
pub(crate) fn choice(word: Word) -> Result<CutChoice, BadLine>
    ensures { result ≡ choice_by (seen_word word.entry) (choice_of word.entry.bytes.now) }
{
    match choice_in(word.bytes) {
        Some(choice) => Ok(choice),
        None => Err(BadLine {
            column: word.column,
            kind: BadKind::Word,
        }),
    }
}

/// The actor that a word names.
#[tactic(auto, unfolding(script_grammar::specs::Tokens::actor_of_word))]
pub(crate) fn actor(alloc: Global, word: Word) -> Result<ByteList, Refusal>
    ensures { ReadsValue (actor_of_word (seen_word word.entry)) result }
{
    if !is_actor(word.bytes) {
        return Err(Refusal::Bad(BadLine {
            column: word.column,
            kind: BadKind::Word,
        }));
    }
    Ok(ByteList::new(word.bytes.to_vec(alloc)?))
}
