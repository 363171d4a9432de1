// A vector from bytes.

ghost use Rattle.std.specs.Prelude.{◌≡◌, ◌≤◌, ◌<◌, length, IfOk, Ok, [], true, false, bytes_eq};
ghost use Rattle.http_header.specs.Token.{lowercase};
ghost use Rattle.std.specs.List.{AllByRecursion};
ghost use Rattle.fragment_table.specs.Table.{AreRows, total_length};
ghost use Rattle.std.specs.Int.{w16, w32, w64};
ghost use Rattle.alternate_vector.specs.Alternates.{IsStored, AreStoredAlternates, all_stored, stored_of};
ghost use Rattle.alternate_vector.specs.Field.{AreFields, IsKept, is_above, is_name, is_value, plain_field};
ghost use Rattle.alternate_vector.specs.Reading.{GivesAs, alternate_at, alternates_at, field_at, fields_at, fields_from, follows, last_name, number_at, read_vector, table_at, text_at};
ghost use Rattle.alternate_vector.specs.Lines.{field_of, fields_of};

use crate::alternate::Alternate;
use crate::fault::VectorFault;
use crate::fields::{Fields, Line, is_name, is_value, read_line};
use crate::matching::order_of;
use fragment_table::{FragTable, TableFault};
use std::alloc::{AllocError, Global};

const MAX_ALTERNATES: u32 = 16;

const MAX_LINES: u16 = 128;

#[tactic(auto, unfolding(crate::specs::Reading::read_vector))]
pub(crate) fn read(alloc: Global, bytes: &[u8]) -> Result<Vec<Alternate>, VectorFault>
    ensures exact { GivesAs (λ v. all_stored v.items) result (read_vector bytes.now) }
    ensures stored { IfOk result (λ v. AreStoredAlternates (all_stored v.items)) }
{
    let (count, rest) = u32_at(bytes)?;
    if count == 0 || count > MAX_ALTERNATES {
        return Err(VectorFault::Count);
    }
    let (alternates, rest) = alternates_of(alloc, count, rest)?;
    if !rest.is_empty() {
        return Err(VectorFault::Rest);
    }
    Ok(alternates)
}

fn alternates_of(
    alloc: Global,
    count: u32,
    bytes: &[u8],
) -> Result<(Vec<Alternate>, &[u8]), VectorFault>
    ensures alternates { GivesAs (λ x. (all_stored x.0.items, x.1.now)) result (alternates_at count bytes.now) }
    ensures each { IfOk result (λ x. AllByRecursion IsStored (all_stored x.0.items)) }
    ensures count { IfOk result (λ x. length (all_stored x.0.items) ≡ count) }
{
    let mut alternates = Vec::new(alloc);
    let mut rest = bytes;
    for _ in 0..count {
        let (alternate, after) = alternate_of(alloc, rest)?;
        alternates.push(alternate)?;
        rest = after;
    }
    Ok((alternates, rest))
}

#[tactic(auto, unfolding(crate::specs::Reading::alternate_at))]
fn alternate_of(alloc: Global, bytes: &[u8]) -> Result<(Alternate, &[u8]), VectorFault>
    ensures alternate { GivesAs (λ x. (stored_of x.0, x.1.now)) result (alternate_at bytes.now) }
    ensures stored { IfOk result (λ x. IsStored (stored_of x.0)) }
{
    let (put, rest) = u64_at(bytes)?;
    let (pin, rest) = u64_at(rest)?;
    let (length, rest) = u64_at(rest)?;
    let (request, rest) = fields_of(alloc, rest)?;
    let (response, rest) = fields_of(alloc, rest)?;
    let (table, rest) = table_of(alloc, length, rest)?;
    let alternate = Alternate {
        put,
        pin,
        length,
        request,
        response,
        table,
    };
    Ok((alternate, rest))
}

fn table_of(alloc: Global, total: u64, bytes: &[u8]) -> Result<(FragTable, &[u8]), VectorFault>
    ensures table { GivesAs (λ x. (x.0.rows, x.1.now)) result (table_at total bytes.now) }
    ensures rows { IfOk result (λ x. AreRows x.0.rows) }
    ensures sum { IfOk result (λ x. total_length x.0.rows ≡ total) }
{
    match FragTable::decode(alloc, bytes, total) {
        Ok((table, taken)) => {
            let (_, rest) = bytes.split_at(taken);
            Ok((table, rest))
        }
        Err(TableFault::Short) => Err(VectorFault::Short),
        Err(TableFault::Count | TableFault::Sum) => Err(VectorFault::Table),
        Err(TableFault::Memory(e)) => Err(VectorFault::Memory(e)),
    }
}

fn u64_at(bytes: &[u8]) -> Result<(u64, &[u8]), VectorFault>
    ensures { GivesAs (λ x. (x.0, x.1.now)) result (number_at w64 bytes.now) }
{
    let (number, rest) = bytes.split_first_chunk::<8>().ok_or(VectorFault::Short)?;
    Ok((u64::from_le_bytes(*number), rest))
}

fn u32_at(bytes: &[u8]) -> Result<(u32, &[u8]), VectorFault>
    ensures { GivesAs (λ x. (x.0, x.1.now)) result (number_at w32 bytes.now) }
{
    let (number, rest) = bytes.split_first_chunk::<4>().ok_or(VectorFault::Short)?;
    Ok((u32::from_le_bytes(*number), rest))
}

fn u16_at(bytes: &[u8]) -> Result<(u16, &[u8]), VectorFault>
    ensures { GivesAs (λ x. (x.0, x.1.now)) result (number_at w16 bytes.now) }
{
    let (number, rest) = bytes.split_first_chunk::<2>().ok_or(VectorFault::Short)?;
    Ok((u16::from_le_bytes(*number), rest))
}

fn text_of(n: usize, bytes: &[u8]) -> Result<(&[u8], &[u8]), VectorFault>
    ensures { GivesAs (λ x. (x.0.now, x.1.now)) result (text_at n bytes.now) }
{
    if bytes.len() < n {
        return Err(VectorFault::Short);
    }
    Ok(bytes.split_at(n))
}

#[tactic(auto, unfolding(crate::specs::Reading::fields_at))]
fn fields_of(alloc: Global, bytes: &[u8]) -> Result<(Fields, &[u8]), VectorFault>
    ensures fields { GivesAs (λ x. (x.0, x.1.now)) result (fields_at bytes.now) }
    ensures valid { IfOk result (λ x. AreFields x.0) }
{
    let (count, rest) = u16_at(bytes)?;
    if count > MAX_LINES {
        return Err(VectorFault::Count);
    }
    let (lines, rest) = lines_of(alloc, count, rest)?;
    Ok((Fields::from_lines(alloc, lines), rest))
}

fn lines_of(alloc: Global, count: u16, bytes: &[u8]) -> Result<(Vec<Line>, &[u8]), VectorFault>
    requires { count ≤ 128 }
    ensures lines { GivesAs (λ x. (fields_of x.0.items, x.1.now)) result (fields_from count [] bytes.now) }
    ensures valid { IfOk result (λ x. AreFields (fields_of x.0.items)) }
{
    let mut lines = Vec::new(alloc);
    let mut rest = bytes;
    for _ in 0..count {
        let (line, after) = line_of(alloc, last_name(&lines), rest)?;
        lines.push(line)?;
        rest = after;
    }
    Ok((lines, rest))
}

fn last_name(lines: &[Line]) -> &[u8]
    ensures { result.now ≡ last_name (fields_of lines.now) }
{
    match lines {
        [] => &[],
        [.., line] => line.name.as_bytes(),
    }
}

#[tactic(auto, unfolding(crate::specs::Reading::field_at))]
fn line_of<'a>(
    alloc: Global,
    before: &[u8],
    bytes: &'a [u8],
) -> Result<(Line, &'a [u8]), VectorFault>
    ensures field { GivesAs (λ x. (field_of x.0, x.1.now)) result (field_at before.now bytes.now) }
    ensures kept { IfOk result (λ x. IsKept (field_of x.0)) }
    ensures order { IfOk result (λ x. is_above before.now (field_of x.0).name ≡ false) }
{
    let (name_length, rest) = u16_at(bytes)?;
    let (value_length, rest) = u32_at(rest)?;
    let (name, rest) = text_of(name_length as usize, rest)?;
    if !follows(before, name) {
        return Err(VectorFault::Name);
    }
    let (value, rest) = text_of(value_length as usize, rest)?;
    if !is_value(value) {
        return Err(VectorFault::Value);
    }
    Ok((kept_line(alloc, name, value)?, rest))
}

fn follows(before: &[u8], name: &[u8]) -> bool
    ensures { result ≡ follows before.now name.now }
{
    is_name(name) && is_lowercase(name) && !before.cmp(name).is_gt()
}

fn is_lowercase(name: &[u8]) -> bool
    ensures { result ≡ bytes_eq name.now (lowercase name.now) }
{
    order_of(name, name).is_eq()
}

fn kept_line(alloc: Global, name: &[u8], value: &[u8]) -> Result<Line, AllocError>
    requires name { is_name name.now ≡ true }
    requires lower { lowercase name.now ≡ name.now }
    ensures field { IfOk result (λ line. field_of line ≡ plain_field name.now value.now) }
    ensures kept { IfOk result (λ line. IsKept (field_of line)) }
{
    match read_line(alloc, name, value) {
        Ok(line) => Ok(line),
        Err(_) => Err(AllocError),
    }
}
