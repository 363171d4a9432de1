// The fields at the end of a line: `>name:value` of a request, `<name:value` of a response.
ghost use Rattle.std.specs.Prelude.{◌≡◌, ◌<◌, length, position, true, IfSome, IfOk, option_map, ◌&&◌};
ghost use Rattle.hex.specs.Hex.{is_hex_digit};
ghost use Rattle.script_grammar.specs.Words.{bad, is_word};
ghost use Rattle.script_grammar.specs.Fields.{begins_with_digits, is_escaped, unescaped, is_colon, parted, with_line, with_word, takes_response, with_field_of, fields_after, no_fields};
ghost use Rattle.script_lang.specs.Taken.{seen_word, words_in};
ghost use Rattle.script_lang.specs.Refusal.{AddsValue, ReadsValue};

use crate::left::{Word, Words};
use crate::tokens::Refusal;
use alternate_vector::{FieldFault, Fields};
use percent_encoding::percent_decode;
use script_grammar::{BadKind, BadLine, FieldKinds, Sides};
use std::alloc::{AllocError, Global};

fn bad_field(word: Word) -> Refusal
    ensures { result ≡ Refusal.Bad (bad word.entry.column BadKind.Field) }
{
    Refusal::Bad(BadLine {
        column: word.column,
        kind: BadKind::Field,
    })
}

fn is_hex_digit(byte: u8) -> bool
    ensures { result ≡ is_hex_digit byte }
{
    matches!(byte, b'0'..=b'9' | b'A'..=b'F' | b'a'..=b'f')
}

fn begins_with_digits(bytes: &[u8]) -> bool
    ensures { result ≡ begins_with_digits bytes.now }
{
    match bytes {
        [high, low, ..] => is_hex_digit(*high) && is_hex_digit(*low),
        _ => false,
    }
}

/// Whether two hex digits stand behind each `%`.
fn is_escaped(bytes: &[u8]) -> bool
    ensures { result ≡ is_escaped bytes.now }
{
    'escapes: for (i, byte) in bytes.iter().enumerate() {
        if *byte == b'%' && !begins_with_digits(&bytes[i + 1..]) {
            return false;
        }
    }
    true
}

/// The bytes that a text stands for.
fn unescaped(alloc: Global, text: &[u8]) -> Result<Option<Vec<u8>>, AllocError>
    ensures { IfOk result (λ value. option_map (λ v. v.items) value ≡ unescaped text.now) }
{
    if !is_escaped(text) {
        return Ok(None);
    }
    let mut value = Vec::new(alloc);
    percent_decode(text).append_to(&mut value)?;
    Ok(Some(value))
}

fn colon_at(bytes: &[u8]) -> Option<usize>
    ensures found { result ≡ position is_colon bytes.now }
    ensures within { IfSome result (λ at. at < length bytes.now) }
{
    bytes.iter().position(|byte| *byte == b':')
}

/// A name and a text, parted at the first colon.
fn parted(text: &[u8]) -> Option<(&[u8], &[u8])>
    ensures { option_map (λ parts. (parts.0.now, parts.1.now)) result ≡ parted text.now }
{
    let at = colon_at(text)?;
    Some((&text[..at], &text[at + 1..]))
}

/// Adds a line that may stand among the fields.
fn add_line(word: Word, fields: &mut Fields, name: &[u8], value: &[u8]) -> Result<(), Refusal>
    ensures { AddsValue (with_line fields.old (seen_word word.entry) name.now (Some value.now)) result fields.new }
{
    match fields.append(name, value) {
        Ok(()) => Ok(()),
        Err(FieldFault::Memory(error)) => Err(Refusal::Memory(error)),
        Err(_) => Err(bad_field(word)),
    }
}

/// Adds the field that stands behind the first byte of a word.
#[tactic(auto, unfolding(script_grammar::specs::Fields::with_word))]
fn add_word(alloc: Global, word: Word, fields: &mut Fields) -> Result<(), Refusal>
    requires { 0 < length word.bytes.now }
    ensures { AddsValue (with_word fields.old (seen_word word.entry)) result fields.new }
{
    let Some((name, text)) = parted(&word.bytes[1..]) else {
        return Err(bad_field(word));
    };
    match unescaped(alloc, text)? {
        Some(value) => add_line(word, fields, name, &value),
        None => Err(bad_field(word)),
    }
}

fn takes_response(kinds: FieldKinds) -> bool
    ensures { result ≡ takes_response kinds }
{
    match kinds {
        FieldKinds::Request => false,
        FieldKinds::Both => true,
    }
}

/// Adds the field that a word spells.
fn add_field(alloc: Global, kinds: FieldKinds, word: Word, sides: &mut Sides) -> Result<(), Refusal>
    requires { is_word word.bytes.now ≡ true }
    ensures { AddsValue (with_field_of kinds sides.old (seen_word word.entry)) result sides.new }
{
    if word.bytes[0] == b'>' {
        return add_word(alloc, word, &mut sides.request);
    }
    if word.bytes[0] == b'<' && takes_response(kinds) {
        return add_word(alloc, word, &mut sides.response);
    }
    Err(bad_field(word))
}

/// The fields that the words left of a line spell.
pub(crate) fn fields(alloc: Global, kinds: FieldKinds, words: &mut Words) -> Result<Sides, Refusal>
    ensures { ReadsValue (fields_after kinds no_fields (words_in words.old)) result }
{
    let mut sides = Sides {
        request: Fields::new(alloc),
        response: Fields::new(alloc),
    };
    'each: while words.has_more() {
        let word = words.word()?;
        add_field(alloc, kinds, word, &mut sides)?;
    }
    Ok(sides)
}
