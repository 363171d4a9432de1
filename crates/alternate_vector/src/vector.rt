// The alternates of an object, the newest last.

ghost use Rattle.std.specs.Prelude.{◌≡◌, ◌<◌, ◌≤◌, List, [], ◌∷◌, ◌++◌, length, slice_get, Some, Ok, IfOk, OnOk, OnErr};
ghost use Rattle.alternate_vector.specs.Reading.{GivesAs, read_vector};
ghost use Rattle.alternate_vector.specs.Spelling.{IsSpelling, vector_bytes};
ghost use Rattle.fragment_table.specs.Table.{AreRows, total_length};
ghost use Rattle.alternate_vector.specs.Alternates.{AreStoredAlternates, IsStored, Stored, all_stored, chosen, is_within, longest_within, merged, stored_of, vector_size, with_new};

use crate::alternate::{Alternate, matches};
use crate::fault::VectorFault;
use crate::fields::Fields;
use crate::reading::read;
use crate::sizes::vector_size;
use crate::writing::spelled;
use fragment_table::FragTable;
use std::alloc::{AllocError, Global};
use std::marker::Model;

/// The alternates of an object, of which there are at most 16.
#[derive(Debug, Drop)]
pub struct Vector {
    alloc: Global,
    alternates: Vec<Alternate>,
}

impl Model for Vector {
    ghost use Rattle.std.specs.Prelude.{List};
    ghost use Rattle.alternate_vector.specs.Alternates.{AreStoredAlternates, Stored, all_stored};

    ghost Value = { List Stored };

    ghost view = { λ vector. all_stored vector.alternates.items };

    ghost invariant = { λ vector. AreStoredAlternates (all_stored vector.alternates.items) };
}

impl Vector {
    /// No alternates, which takes no memory.
    pub fn new(alloc: Global) -> Vector
        ensures { result ≡ [] }
    {
        Vector {
            alloc,
            alternates: Vec::new(alloc),
        }
    }

    /// How many alternates there are.
    pub fn len(&self) -> usize
        ensures len { result ≡ length self.now }
        ensures stored { AreStoredAlternates self.now }
    {
        self.alternates.len()
    }

    /// The alternate at a place, counted from 0.
    pub fn get(&self, i: usize) -> &Alternate
        requires { i < length self.now }
        ensures { slice_get self.now i ≡ Some (stored_of result.now) }
    {
        &self.alternates[i]
    }

    /// The place of the last alternate that matches the request.
    pub fn choose(&self, request: &Fields) -> Option<usize>
        ensures { result ≡ chosen request.now self.now }
    {
        last_match(&self.alternates, request)
    }

    /// The length of the spelling.
    pub fn size(&self) -> usize
        ensures size { result ≡ vector_size self.now }
        ensures spelling { result ≡ length (vector_bytes self.now) }
    {
        vector_size(&self.alternates)
    }

    /// The alternates that the new request does not match, with the new one behind them: as many
    /// from the end as `most` and `bytes` allow.
    pub fn merge(&self, new: &Alternate, most: usize, bytes: usize) -> Result<Vector, AllocError>
        requires length { new.now.length ≡ total_length new.now.table.rows }
        requires fits { vector_size (stored_of new.now ∷ []) ≤ bytes }
        requires some { 1 ≤ most }
        requires few { most ≤ 16 }
        ensures merged { IfOk result (λ vector. vector ≡ merged most bytes self.now (stored_of new.now)) }
        // So the result can be encoded.
        ensures some { IfOk result (λ vector. 0 < length vector) }
    {
        let all = with_new(self.alloc, &self.alternates, new)?;
        Ok(Vector {
            alloc: self.alloc,
            alternates: longest_within(all, most, bytes),
        })
    }

    /// Appends the bytes that spell the vector.
    pub fn encode(&self, into: &mut Vec<u8>) -> Result<(), AllocError>
        requires { 0 < length self.now }
        ensures ok { OnOk result (into.new.items ≡ into.old.items ++ vector_bytes self.now) }
        ensures err { OnErr result (into.new.items ≡ into.old.items) }
        ensures spelling { IsSpelling (vector_bytes self.now) self.now }
        // What is written is read again.
        ensures again { read_vector (vector_bytes self.now) ≡ Ok self.now }
    {
        let bytes = spelled(self.alloc, &self.alternates)?;
        into.extend_from_slice(&bytes)
    }

    /// Reads a vector, all of the bytes. An item is read whole before it is judged.
    pub fn decode(alloc: Global, bytes: &[u8]) -> Result<Vector, VectorFault>
        // Which vector, or which fault.
        ensures exact { GivesAs (λ vector. vector) result (read_vector bytes.now) }
        // What is read was spelled so.
        ensures found { IfOk result (λ vector. IsSpelling bytes.now vector) }
        // What is spelled so is read.
        ensures only { (alternates : List Stored) → IsSpelling bytes.now alternates
            → GivesAs (λ vector. vector) result (Ok alternates) }
    {
        Ok(Vector {
            alloc,
            alternates: read(alloc, bytes)?,
        })
    }

    /// Equal alternates of their own.
    pub fn copy(&self) -> Result<Vector, AllocError>
        ensures { IfOk result (λ vector. vector ≡ self.now) }
    {
        Ok(Vector {
            alloc: self.alloc,
            alternates: copy_all(self.alloc, &self.alternates)?,
        })
    }
}

fn last_match(alternates: &[Alternate], request: &Fields) -> Option<usize>
    ensures { result ≡ chosen request.now (all_stored alternates.now) }
{
    let mut last = None;
    for (i, alternate) in alternates.iter().enumerate() {
        if matches(request, alternate) {
            last = Some(i);
        }
    }
    last
}

fn with_new(
    alloc: Global,
    before: &[Alternate],
    new: &Alternate,
) -> Result<Vec<Alternate>, AllocError>
    requires { length before.now ≤ 16 }
    ensures all { IfOk result (λ all. all_stored all.items ≡ with_new (all_stored before.now) (stored_of new.now)) }
    ensures few { IfOk result (λ all. length all.items ≤ 17) }
    ensures new { OnOk result (new.now.length ≡ total_length new.now.table.rows → IsStored (stored_of new.now)) }
{
    let mut all = Vec::with_capacity(alloc, before.len() + 1)?;
    for alternate in before {
        if !matches(&new.request, alternate) {
            all.push(copy_alternate(alternate)?)?;
        }
    }
    all.push(copy_alternate(new)?)?;
    Ok(all)
}

fn longest_within(mut all: Vec<Alternate>, most: usize, bytes: usize) -> Vec<Alternate>
    requires few { most ≤ 16 }
    requires all { length all.items ≤ 17 }
    ensures longest { all_stored result.items ≡ longest_within most bytes (all_stored all.items) }
    ensures few { length result.items ≤ 16 }
{
    'drops: while !all.is_empty() && !is_within(&all, most, bytes) {
        all.remove(0);
    }
    all
}

fn is_within(alternates: &[Alternate], most: usize, bytes: usize) -> bool
    requires { length alternates.now ≤ 64 }
    ensures { result ≡ is_within most bytes (all_stored alternates.now) }
{
    alternates.len() <= most && vector_size(alternates) <= bytes
}

fn copy_all(alloc: Global, alternates: &[Alternate]) -> Result<Vec<Alternate>, AllocError>
    ensures { IfOk result (λ copies. all_stored copies.items ≡ all_stored alternates.now) }
{
    let mut copies = Vec::with_capacity(alloc, alternates.len())?;
    for alternate in alternates {
        copies.push(copy_alternate(alternate)?)?;
    }
    Ok(copies)
}

fn copy_alternate(alternate: &Alternate) -> Result<Alternate, AllocError>
    ensures copy { IfOk result (λ copy. stored_of copy ≡ stored_of alternate.now) }
    ensures stored { OnOk result (alternate.now.length ≡ total_length alternate.now.table.rows → IsStored (stored_of alternate.now)) }
{
    // The numbers are read first for what it tells of their widths.
    let put = alternate.put;
    let pin = alternate.pin;
    Ok(Alternate {
        put,
        pin,
        length: alternate.length,
        request: alternate.request.copy()?,
        response: alternate.response.copy()?,
        table: copy_table(&alternate.table)?,
    })
}

fn copy_table(table: &FragTable) -> Result<FragTable, AllocError>
    ensures copy { IfOk result (λ copy. copy.rows ≡ table.now.rows) }
    ensures rows { AreRows table.now.rows }
{
    // The count is read for what it tells of the rows.
    let _count = table.len();
    table.copy()
}
