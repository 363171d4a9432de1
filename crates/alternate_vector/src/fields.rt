// Field lines, kept in the order of their names.

ghost use Rattle.std.specs.Prelude.{◌≡◌, ◌<◌, ◌≤◌, List, [], length, Ok, Err, IfOk, OnOk, OnErr};
ghost use Rattle.http_header.specs.Token.{is_token_byte, is_value_byte};
ghost use Rattle.std.specs.List.{list_all};
ghost use Rattle.alternate_vector.specs.Field.{AreFields, IsRising, RefusesField, field_refusal, IsKept, IsNameOrMemory, is_name, is_value, made_field, with_field};
ghost use Rattle.alternate_vector.specs.Lines.{IsPlaceOfName, field_of, fields_of};

use crate::fault::FieldFault;
use bytes::Bytes;
use http_header::{HeaderName, HeaderNameError, HeaderValue, is_token_char};
use std::alloc::{AllocError, Global};
use std::marker::Model;

const MAX_LINES: usize = 128;

const MAX_NAME: usize = 256;

const MAX_VALUE: usize = 8192;

/// A field line, its name in lower case.
#[derive(Debug, Drop)]
pub(crate) struct Line {
    pub(crate) name: HeaderName,
    pub(crate) value: HeaderValue,
}

/// The field lines of a request or a response.
///
/// A contract sees them as a list in order of their names, each in lower case, and the lines of one
/// name in the order in which they were added.
#[derive(Debug, Drop)]
pub struct Fields {
    alloc: Global,
    lines: Vec<Line>,
}

impl Model for Fields {
    ghost use Rattle.std.specs.Prelude.{List};
    ghost use Rattle.alternate_vector.specs.Field.{Field, AreFields};
    ghost use Rattle.alternate_vector.specs.Lines.{fields_of};

    ghost Value = { List Field };

    ghost view = { λ fields. fields_of fields.lines.items };

    ghost invariant = { λ fields. AreFields (fields_of fields.lines.items) };
}

impl Fields {
    /// No lines, which takes no memory.
    pub fn new(alloc: Global) -> Fields
        ensures { result ≡ [] }
    {
        Fields {
            alloc,
            lines: Vec::new(alloc),
        }
    }

    /// Adds a line behind those of its name and of lesser names.
    pub fn append(&mut self, name: &[u8], value: &[u8]) -> Result<(), FieldFault>
        ensures ok { OnOk result (self.new ≡ with_field self.old (made_field name.now value.now)) }
        ensures err { OnErr result (self.new ≡ self.old) }
        ensures exact { RefusesField result (field_refusal self.old name.now value.now) }
    {
        let line = read_line(self.alloc, name, value)?;
        if self.lines.len() == MAX_LINES {
            return Err(FieldFault::TooMany);
        }
        let at = place_of(&self.lines, line.name.as_bytes());
        self.lines.insert(at, line)?;
        Ok(())
    }

    /// How many lines there are.
    pub fn len(&self) -> usize
        ensures len { result ≡ length self.now }
        ensures fields { AreFields self.now }
    {
        self.lines.len()
    }

    /// Equal lines of their own.
    pub fn copy(&self) -> Result<Fields, AllocError>
        ensures copy { IfOk result (λ fields. fields ≡ self.now) }
        ensures fields { AreFields self.now }
    {
        Ok(Fields {
            alloc: self.alloc,
            lines: copy_lines(self.alloc, &self.lines)?,
        })
    }

    pub(crate) fn from_lines(alloc: Global, lines: Vec<Line>) -> Fields
        requires { AreFields (fields_of lines.items) }
        ensures { result ≡ fields_of lines.items }
    {
        Fields { alloc, lines }
    }

    pub(crate) fn lines(&self) -> &[Line]
        ensures lines { fields_of result.now ≡ self.now }
        ensures fields { AreFields self.now }
    {
        &self.lines
    }
}

#[tactic(auto, using(crate::proofs::Order::kept_made))]
pub(crate) fn read_line(alloc: Global, name: &[u8], value: &[u8]) -> Result<Line, FieldFault>
    ensures ok { IfOk result (λ line. field_of line ≡ made_field name.now value.now) }
    ensures kept { OnOk result (IsKept (made_field name.now value.now)) }
    ensures exact { RefusesField result (field_refusal [] name.now value.now) }
{
    if !is_name(name) {
        return Err(FieldFault::Name);
    }
    if !is_value(value) {
        return Err(FieldFault::Value);
    }
    let name = HeaderName::from_bytes(alloc, name).map_err(name_fault)?;
    let value = HeaderValue::from_known_valid(Bytes::copy_from_slice(alloc, value)?);
    Ok(Line { name, value })
}

// Only for a name that is none does the crate below answer `Invalid`.
fn name_fault(e: HeaderNameError) -> FieldFault
    ensures name { result ≡ FieldFault.Name → e ≡ HeaderNameError.Invalid }
    ensures other { IsNameOrMemory result }
{
    match e {
        HeaderNameError::Invalid => FieldFault::Name,
        HeaderNameError::OutOfMemory => FieldFault::Memory(AllocError),
    }
}

pub(crate) fn is_name(bytes: &[u8]) -> bool
    ensures { result ≡ is_name bytes.now }
{
    !bytes.is_empty() && bytes.len() <= MAX_NAME && is_token_text(bytes)
}

fn is_token_text(bytes: &[u8]) -> bool
    ensures { result ≡ list_all is_token_byte bytes.now }
{
    bytes.iter().all(|b| is_token_char(*b))
}

pub(crate) fn is_value(bytes: &[u8]) -> bool
    ensures { result ≡ is_value bytes.now }
{
    bytes.len() <= MAX_VALUE && is_value_text(bytes)
}

fn is_value_text(bytes: &[u8]) -> bool
    ensures { result ≡ list_all is_value_byte bytes.now }
{
    bytes.iter().all(|b| is_value_byte(*b))
}

fn is_value_byte(b: u8) -> bool
    ensures { result ≡ is_value_byte b }
{
    b == b'\t' || b >= b' ' && b != 0x7f
}

// How many lines have a name that is not above this one.
fn place_of(lines: &[Line], name: &[u8]) -> usize
    ensures within { result ≤ length lines.now }
    ensures place { IsRising (fields_of lines.now) → IsPlaceOfName name.now lines.now result }
{
    lines.partition_point(|line| line.name.as_bytes().cmp(name).is_le())
}

fn copy_lines(alloc: Global, lines: &[Line]) -> Result<Vec<Line>, AllocError>
    ensures { IfOk result (λ copies. fields_of copies.items ≡ fields_of lines.now) }
{
    let mut copies = Vec::with_capacity(alloc, lines.len())?;
    for line in lines {
        let name = line.name.clone()?;
        let value = line.value.clone()?;
        copies.push(Line { name, value })?;
    }
    Ok(copies)
}
