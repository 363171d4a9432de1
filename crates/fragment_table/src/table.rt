// A table, with the end of each fragment beside its row.

ghost use Rattle.std.specs.Prelude.{◌≡◌, ℕ, ◌+◌, ◌-◌, ◌*◌, ◌^◌, ◌<◌, ◌≤◌, ◌↔◌, List, IsTrue, [], ◌∷◌, ◌++◌, length, slice_get, IsOk, IsNone, OnOk, OnErr, IfOk, Ok};
ghost use Rattle.fragment_table.specs.Kept.{AreKept, EndsFrom, table_row_of, table_rows_of};
ghost use Rattle.fragment_table.specs.Reading.{Gives, HasSum, IsReadFrom, is_cut, read_table, told_count, told_rows};
ghost use Rattle.fragment_table.specs.Table.{TableRow, IsRow, AreRows, CanGrow, fragment_at, table_bytes, total_length, made_row};

use crate::fault::TableFault;
use crate::reading::read;
use std::alloc::{AllocError, Global};
use std::marker::Model;

pub(crate) const COUNT_BYTES: usize = 4;

pub(crate) const ROW_BYTES: usize = 36;

/// A fragment's row, and where the fragment ends in the body.
#[derive(Clone, Copy, Debug)]
struct FragmentRow {
    length: u32,
    digest: [u8; 32],
    end: u64,
}

impl FragmentRow {
    fn behind(start: u64, length: u32, digest: [u8; 32]) -> FragmentRow
        requires some { 0 < length }
        requires fits { start + length < 2 ^ 64 }
        ensures row { table_row_of result ≡ made_row length digest }
        ensures valid { IsRow (table_row_of result) }
        ensures end { result.end ≡ start + result.length }
    {
        FragmentRow {
            length,
            digest,
            end: start + length as u64,
        }
    }
}

/// The lengths and payload digests of a body's fragments.
#[derive(Debug, Drop)]
pub struct FragTable {
    rows: Vec<FragmentRow>,
}

impl Model for FragTable {
    ghost use Rattle.fragment_table.specs.Table.{Table};
    ghost use Rattle.fragment_table.specs.Kept.{AreKept, kept_table};

    ghost Value = { Table };

    ghost view = { λ table. kept_table table.rows };

    ghost invariant = { λ table. AreKept table.rows.items };
}

impl FragTable {
    /// A table without rows, which takes no memory.
    pub fn new(alloc: Global) -> FragTable
        ensures { result.rows ≡ [] }
    {
        FragTable {
            rows: Vec::new(alloc),
        }
    }

    /// Makes room for so many more rows.
    pub fn reserve(&mut self, more: usize) -> Result<(), AllocError>
        ensures rows { self.new.rows ≡ self.old.rows }
        ensures room { OnOk result (more ≤ self.new.room) }
        ensures kept { self.old.room ≤ self.new.room }
        ensures reserved { more ≤ self.old.room → IsOk result }
    {
        self.rows.reserve(more)
    }

    /// Adds the row of the next fragment, of `length` bytes.
    pub fn push(&mut self, length: u32, digest: [u8; 32]) -> Result<(), AllocError>
        requires some { 0 < length }
        requires few { CanGrow self.old.rows }
        ensures ok { OnOk result (self.new.rows ≡ self.old.rows ++ made_row length digest ∷ []) }
        ensures err { OnErr result (self.new.rows ≡ self.old.rows) }
        ensures room { self.old.room ≤ self.new.room + 1 }
        ensures reserved { 0 < self.old.room → IsOk result }
    {
        let row = FragmentRow::behind(end_of(&self.rows), length, digest);
        self.rows.push(row)?;
        Ok(())
    }

    /// How many rows there are.
    pub fn len(&self) -> u32
        ensures len { result ≡ length self.now.rows }
        ensures rows { AreRows self.now.rows }
    {
        self.rows.len() as u32
    }

    /// The length and the digest of a row, counted from 1.
    pub fn row(&self, index: u32) -> (u32, [u8; 32])
        requires first { 1 ≤ index }
        requires last { index ≤ length self.now.rows }
        ensures { slice_get self.now.rows (index - 1) ≡ Some (made_row result.0 result.1) }
    {
        let row = &self.rows[index as usize - 1];
        (row.length, row.digest)
    }

    /// The length of all fragments together.
    pub fn total(&self) -> u64
        ensures { result ≡ total_length self.now.rows }
    {
        end_of(&self.rows)
    }

    /// The fragment that has the byte at `offset`, counted from 1, and the offset within it.
    pub fn fragment_at(&self, offset: u64) -> Option<(u32, u64)>
        ensures found { result ≡ fragment_at self.now.rows offset }
        ensures none { IsNone result ↔ (total_length self.now.rows ≤ offset) }
    {
        find_fragment(&self.rows, offset)
    }

    /// Appends the bytes that spell the table.
    pub fn encode(&self, into: &mut Vec<u8>) -> Result<(), AllocError>
        ensures ok { OnOk result (into.new.items ≡ into.old.items ++ table_bytes self.now.rows) }
        ensures err { OnErr result (into.new.items ≡ into.old.items) }
    {
        write_rows(&self.rows, into)
    }

    /// Reads a table from the front of `bytes`, for a body of `total` bytes, and says how many
    /// bytes it took. What stands behind them is not looked at.
    pub fn decode(alloc: Global, bytes: &[u8], total: u64) -> Result<(FragTable, usize), TableFault>
        // Which table, or which fault.
        ensures exact { Gives result (read_table bytes.now total) }
        // What is read was spelled so.
        ensures spelled { IfOk result (λ read. IsReadFrom bytes.now total read.0.rows read.1) }
        // What is spelled so is read, whatever follows.
        ensures again { (rows : List TableRow) (rest : List ℕ) → AreRows rows → total ≡ total_length rows
            → bytes.now ≡ table_bytes rows ++ rest → Gives result (Ok (rows, length (table_bytes rows))) }
        ensures short { result ≡ Err TableFault.Short → IsTrue (is_cut bytes.now) }
        ensures count { result ≡ Err TableFault.Count → 4096 < told_count bytes.now }
        ensures sum { result ≡ Err TableFault.Sum → ¬ HasSum total (told_rows bytes.now) }
    {
        read(alloc, bytes, total)
    }

    /// An equal table of its own.
    pub fn copy(&self) -> Result<FragTable, AllocError>
        ensures { IfOk result (λ table. table.rows ≡ self.now.rows) }
    {
        Ok(FragTable {
            rows: Vec::from_slice(*self.rows.allocator(), &self.rows)?,
        })
    }
}

// Where the last fragment ends.
fn end_of(rows: &[FragmentRow]) -> u64
    requires { EndsFrom 0 rows.now }
    ensures { result ≡ total_length (table_rows_of rows.now) }
{
    match rows.last() {
        Some(row) => row.end,
        None => 0,
    }
}

fn find_fragment(rows: &[FragmentRow], offset: u64) -> Option<(u32, u64)>
    requires { AreKept rows.now }
    ensures { result ≡ fragment_at (table_rows_of rows.now) offset }
{
    let before = rows.partition_point(|row| row.end <= offset);
    if before == rows.len() {
        return None;
    }
    Some((before as u32 + 1, offset - end_of(&rows[..before])))
}

fn write_rows(rows: &[FragmentRow], into: &mut Vec<u8>) -> Result<(), AllocError>
    requires { length rows.now ≤ 4096 }
    ensures ok { OnOk result
        (into.new.items ≡ into.old.items ++ table_bytes (table_rows_of rows.now)) }
    ensures err { OnErr result (into.new.items ≡ into.old.items) }
{
    into.reserve(COUNT_BYTES + ROW_BYTES * rows.len())?;
    into.extend_from_slice(&(rows.len() as u32).to_le_bytes())?;
    for row in rows {
        into.extend_from_slice(&row.length.to_le_bytes())?;
        into.extend_from_slice(&row.digest)?;
    }
    Ok(())
}
