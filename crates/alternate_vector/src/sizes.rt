// How many bytes a spelling takes.

ghost use Rattle.std.specs.Prelude.{◌≡◌, ◌+◌, ◌*◌, ◌^◌, ◌≤◌, length};
ghost use Rattle.alternate_vector.specs.Alternates.{all_stored, alternate_size, fields_size, stored_of, vector_size};
ghost use Rattle.alternate_vector.specs.Field.{AreFields, IsKept};
ghost use Rattle.alternate_vector.specs.Lines.{field_of, fields_of};

use crate::alternate::Alternate;
use crate::fields::{Fields, Line};

pub(crate) fn vector_size(alternates: &[Alternate]) -> usize
    requires { length alternates.now ≤ 64 }
    ensures { result ≡ vector_size (all_stored alternates.now) }
{
    let mut size = 4;
    for alternate in alternates {
        size += alternate_size(alternate);
    }
    size
}

pub(crate) fn alternate_size(alternate: &Alternate) -> usize
    ensures size { result ≡ alternate_size (stored_of alternate.now) }
    ensures bound { result ≤ 2 ^ 22 }
{
    let table = 4 + 36 * alternate.table.len() as usize;
    24 + fields_size(&alternate.request) + fields_size(&alternate.response) + table
}

/// How many bytes the spelling of some lines takes.
pub fn fields_size(fields: &Fields) -> usize
    ensures size { result ≡ fields_size fields.now }
    ensures bound { result ≤ 2 ^ 20 + 2 ^ 17 }
{
    lines_size(fields.lines())
}

fn lines_size(lines: &[Line]) -> usize
    requires { AreFields (fields_of lines.now) }
    ensures size { result ≡ fields_size (fields_of lines.now) }
    ensures bound { result ≤ 2 ^ 20 + 2 ^ 17 }
{
    let mut size = 2;
    for line in lines {
        size += line_size(line);
    }
    size
}

fn line_size(line: &Line) -> usize
    requires { IsKept (field_of line.now) }
    ensures size { result ≡ 6 + length line.now.name + length line.now.value.bytes }
    ensures bound { result ≤ 8454 }
{
    6 + line.name.as_bytes().len() + line.value.as_bytes().len()
}
