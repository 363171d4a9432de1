// A table from bytes.

ghost use Rattle.std.specs.Prelude.{◌≡◌, ◌*◌, ◌≤◌, length, drop};
ghost use Rattle.fragment_table.specs.Reading.{Gives, RowsGive, read_table, row_in_bytes, rows_in_bytes};
ghost use Rattle.fragment_table.specs.Table.{made_row};

use crate::fault::TableFault;
use crate::table::{COUNT_BYTES, FragTable, ROW_BYTES};
use std::alloc::Global;

const MAX_ROWS: usize = 4096;

#[tactic(auto, unfolding(crate::specs::Reading::read_table))]
pub(crate) fn read(
    alloc: Global,
    bytes: &[u8],
    total: u64,
) -> Result<(FragTable, usize), TableFault>
    ensures { Gives result (read_table bytes.now total) }
{
    let (count, rest) = bytes.split_first_chunk::<4>().ok_or(TableFault::Short)?;
    let count = u32::from_le_bytes(*count) as usize;
    if rest.len() < ROW_BYTES * count {
        return Err(TableFault::Short);
    }
    if count > MAX_ROWS {
        return Err(TableFault::Count);
    }
    let table = read_rows(alloc, count, rest)?;
    if table.total() != total {
        return Err(TableFault::Sum);
    }
    Ok((table, COUNT_BYTES + ROW_BYTES * count))
}

fn read_rows(alloc: Global, count: usize, bytes: &[u8]) -> Result<FragTable, TableFault>
    requires few { count ≤ 4096 }
    requires long { 36 * count ≤ length bytes.now }
    ensures { RowsGive result (rows_in_bytes count bytes.now) }
{
    let mut table = FragTable::new(alloc);
    table.reserve(count)?;
    let mut rest = bytes;
    for _ in 0..count {
        let (length, digest, after) = read_row(rest);
        if length == 0 {
            return Err(TableFault::Sum);
        }
        table.push(length, digest)?;
        rest = after;
    }
    Ok(table)
}

fn read_row(bytes: &[u8]) -> (u32, [u8; 32], &[u8])
    requires { 36 ≤ length bytes.now }
    ensures row { made_row result.0 result.1 ≡ row_in_bytes bytes.now }
    ensures rest { result.2.now ≡ drop 36 bytes.now }
{
    let (length, rest) = bytes.split_first_chunk::<4>().unwrap();
    let (digest, rest) = rest.split_first_chunk::<32>().unwrap();
    (u32::from_le_bytes(*length), *digest, rest)
}
