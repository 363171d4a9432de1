// A vector as bytes.

ghost use Rattle.std.specs.Prelude.{◌≡◌, ◌++◌, ◌≤◌, length, IfOk, OnOk};
ghost use Rattle.std.specs.Int.{w64, to_le_bytes};
ghost use Rattle.alternate_vector.specs.Alternates.{all_stored, stored_of};
ghost use Rattle.alternate_vector.specs.Field.{AreFields, IsKept};
ghost use Rattle.alternate_vector.specs.Lines.{field_of, fields_of};
ghost use Rattle.alternate_vector.specs.Spelling.{alternate_bytes, field_bytes, fields_bytes, vector_bytes};

use crate::alternate::Alternate;
use crate::fields::{Fields, Line};
use crate::sizes::vector_size;
use std::alloc::{AllocError, Global};

pub(crate) fn spelled(alloc: Global, alternates: &[Alternate]) -> Result<Vec<u8>, AllocError>
    requires { length alternates.now ≤ 16 }
    ensures { IfOk result (λ bytes. bytes.items ≡ vector_bytes (all_stored alternates.now)) }
{
    let mut bytes = Vec::with_capacity(alloc, vector_size(alternates))?;
    bytes.extend_from_slice(&(alternates.len() as u32).to_le_bytes())?;
    for alternate in alternates {
        write_alternate(alternate, &mut bytes)?;
    }
    Ok(bytes)
}

fn write_alternate(alternate: &Alternate, into: &mut Vec<u8>) -> Result<(), AllocError>
    ensures { OnOk result (into.new.items ≡ into.old.items ++ alternate_bytes (stored_of alternate.now)) }
{
    write_numbers(alternate, into)?;
    write_fields(&alternate.request, into)?;
    write_fields(&alternate.response, into)?;
    alternate.table.encode(into)?;
    Ok(())
}

fn write_numbers(alternate: &Alternate, into: &mut Vec<u8>) -> Result<(), AllocError>
    ensures { OnOk result (into.new.items ≡ into.old.items ++ (to_le_bytes w64 alternate.now.put
        ++ to_le_bytes w64 alternate.now.pin ++ to_le_bytes w64 alternate.now.length)) }
{
    into.extend_from_slice(&alternate.put.to_le_bytes())?;
    into.extend_from_slice(&alternate.pin.to_le_bytes())?;
    into.extend_from_slice(&alternate.length.to_le_bytes())
}

fn write_fields(fields: &Fields, into: &mut Vec<u8>) -> Result<(), AllocError>
    ensures { OnOk result (into.new.items ≡ into.old.items ++ fields_bytes fields.now) }
{
    write_lines(fields.lines(), into)
}

fn write_lines(lines: &[Line], into: &mut Vec<u8>) -> Result<(), AllocError>
    requires { AreFields (fields_of lines.now) }
    ensures { OnOk result (into.new.items ≡ into.old.items ++ fields_bytes (fields_of lines.now)) }
{
    into.extend_from_slice(&(lines.len() as u16).to_le_bytes())?;
    for line in lines {
        write_line(line, into)?;
    }
    Ok(())
}

fn write_line(line: &Line, into: &mut Vec<u8>) -> Result<(), AllocError>
    requires { IsKept (field_of line.now) }
    ensures { OnOk result (into.new.items ≡ into.old.items ++ field_bytes (field_of line.now)) }
{
    let name = line.name.as_bytes();
    let value = line.value.as_bytes();
    into.extend_from_slice(&(name.len() as u16).to_le_bytes())?;
    into.extend_from_slice(&(value.len() as u32).to_le_bytes())?;
    into.extend_from_slice(name)?;
    into.extend_from_slice(value)
}
