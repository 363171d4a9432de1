// Which stored response a request may be answered with. Nothing here takes memory.

ghost use Rattle.std.specs.Prelude.{◌≡◌, true, ◌==◌, ◌||◌, position, reverse, bytes_eq, Some, []};
ghost use Rattle.std.specs.Iterator.{YieldsFirst, item_count};
ghost use Rattle.std.specs.List.{list_all};
ghost use Rattle.std.specs.Ordering.{nat_cmp};
ghost use Rattle.std.specs.Cmp.Lexicographic.{slice_cmp};
ghost use Rattle.http_header.specs.Token.{lowercase};
ghost use Rattle.alternate_vector.specs.Field.{IsRising};
ghost use Rattle.alternate_vector.specs.Lines.{fields_of};
ghost use Rattle.alternate_vector.specs.Vary.{agrees_on, elements_of, is_blank, is_empty, joined, named, request_matches, same_value, skip_blanks, trimmed, values_of};
ghost use Rattle.alternate_vector.specs.Joined.{joined_rest, joined_text};

use crate::fields::{Fields, Line, is_name};
use std::cmp::Ordering;

/// Whether a request may be answered with a response that was stored for another request.
pub fn request_matches(request: &Fields, stored: &Fields, response: &Fields) -> bool
    ensures { result ≡ request_matches request.now stored.now response.now }
{
    let vary = lines_of(response.lines(), b"vary");
    lines_agree(request.lines(), stored.lines(), vary)
}

fn lines_agree(request: &[Line], stored: &[Line], vary: &[Line]) -> bool
    requires request { IsRising (fields_of request.now) }
    requires stored { IsRising (fields_of stored.now) }
    ensures { result ≡ list_all (λ line. list_all (agrees_on (fields_of request.now) (fields_of stored.now)) (elements_of line.value.bytes)) vary.now }
{
    vary.iter().all(|line| elements_agree(request, stored, line.value.as_bytes()))
}

fn elements_agree(request: &[Line], stored: &[Line], value: &[u8]) -> bool
    requires request { IsRising (fields_of request.now) }
    requires stored { IsRising (fields_of stored.now) }
    ensures { result ≡ list_all (agrees_on (fields_of request.now) (fields_of stored.now)) (elements_of value.now) }
{
    let mut rest = value;
    'parts: loop {
        match comma_in(rest) {
            None => return part_agrees(request, stored, rest),
            Some(end) => {
                let (part, _) = rest.split_at(end);
                if !part_agrees(request, stored, part) {
                    return false;
                }
                let (_, after) = rest.split_at(end + 1);
                rest = after;
            }
        }
    }
}

fn comma_in(bytes: &[u8]) -> Option<usize>
    ensures { result ≡ position (λ b. b == 44) bytes.now }
{
    bytes.iter().position(|b| *b == b',')
}

fn part_agrees(request: &[Line], stored: &[Line], part: &[u8]) -> bool
    requires request { IsRising (fields_of request.now) }
    requires stored { IsRising (fields_of stored.now) }
    ensures { result ≡ (is_empty (trimmed part.now) || agrees_on (fields_of request.now) (fields_of stored.now) (trimmed part.now)) }
{
    let name = trimmed(part);
    name.is_empty() || name_agrees(request, stored, name)
}

fn name_agrees(request: &[Line], stored: &[Line], name: &[u8]) -> bool
    requires request { IsRising (fields_of request.now) }
    requires stored { IsRising (fields_of stored.now) }
    ensures { result ≡ agrees_on (fields_of request.now) (fields_of stored.now) name.now }
{
    name != b"*".as_slice()
        && is_name(name)
        && same_value(lines_of(request, name), lines_of(stored, name))
}

// The lines of a name, which is in any case.
fn lines_of<'a>(lines: &'a [Line], name: &[u8]) -> &'a [Line]
    requires { IsRising (fields_of lines.now) }
    ensures { fields_of result.now ≡ named (lowercase name.now) (fields_of lines.now) }
{
    let low = lines.partition_point(|line| order_of(line.name.as_bytes(), name).is_lt());
    let (_, rest) = lines.split_at(low);
    let count = rest.partition_point(|line| order_of(line.name.as_bytes(), name).is_le());
    let (same, _) = rest.split_at(count);
    same
}

pub(crate) fn order_of(name: &[u8], other: &[u8]) -> Ordering
    ensures { result ≡ slice_cmp nat_cmp name.now (lowercase other.now) }
{
    match name {
        [] => match other {
            [] => Ordering::Equal,
            [_, ..] => Ordering::Less,
        },
        [a, names @ ..] => match other {
            [] => Ordering::Greater,
            [b, others @ ..] => match a.cmp(&b.to_ascii_lowercase()) {
                Ordering::Equal => order_of(names, others),
                order => order,
            },
        },
    }
}

fn same_value(a: &[Line], b: &[Line]) -> bool
    ensures { result ≡ same_value (joined (values_of (fields_of a.now))) (joined (values_of (fields_of b.now))) }
{
    match (a.split_first(), b.split_first()) {
        (None, None) => true,
        (Some((first, lines)), Some((other, others))) => { same_text(first, lines, other, others) }
        _ => false,
    }
}

fn same_text(first: &Line, lines: &[Line], other: &Line, others: &[Line]) -> bool
    ensures { result ≡ bytes_eq (joined_text first.now lines.now) (joined_text other.now others.now) }
{
    let text = Joined::new(first, lines);
    text.cmp(Joined::new(other, others)).is_eq()
}

// The bytes of lines that are joined.
#[derive(Drop)]
struct Joined<'a> {
    value: &'a [u8],
    lines: &'a [Line],
    blank: bool,
}

impl<'a> Joined<'a> {
    fn new(first: &'a Line, lines: &'a [Line]) -> Joined<'a>
        ensures { joined_rest result.blank result.value.now result.lines.now ≡ joined_text first.now lines.now }
    {
        Joined {
            value: trimmed(first.value.as_bytes()),
            lines,
            blank: false,
        }
    }
}

impl<'a> Iterator for Joined<'a> {
    type Item = u8;

    ghost next_gives = { YieldsFirst (λ s. joined_rest s.blank s.value.now s.lines.now) };

    ghost remaining = { item_count (λ s. joined_rest s.blank s.value.now s.lines.now) };

    fn next(&mut self) -> Option<u8> {
        if self.blank {
            self.blank = false;
            return Some(b' ');
        }
        if let Some((byte, value)) = self.value.split_first() {
            self.value = value;
            return Some(*byte);
        }
        let (line, lines) = self.lines.split_first()?;
        self.value = trimmed(line.value.as_bytes());
        self.lines = lines;
        self.blank = true;
        Some(b',')
    }
}

fn trimmed(bytes: &[u8]) -> &[u8]
    ensures { result.now ≡ trimmed bytes.now }
{
    trimmed_end(trimmed_start(bytes))
}

fn trimmed_start(mut bytes: &[u8]) -> &[u8]
    ensures { result.now ≡ skip_blanks bytes.now }
{
    while let [first, rest @ ..] = bytes
        && is_blank(*first)
    {
        bytes = rest;
    }
    bytes
}

fn trimmed_end(mut bytes: &[u8]) -> &[u8]
    ensures { result.now ≡ reverse (skip_blanks (reverse bytes.now)) }
{
    while let [rest @ .., last] = bytes
        && is_blank(*last)
    {
        bytes = rest;
    }
    bytes
}

fn is_blank(b: u8) -> bool
    ensures { result ≡ is_blank b }
{
    b == b' ' || b == b'\t'
}
