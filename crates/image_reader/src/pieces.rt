// The lines of the pieces that an opening found.
use alternate_vector::Vector;
use cache_model::{FoundList, FoundRow};
use hex::encode;
use std::alloc::{AllocError, Global};

fn push(out: &mut String, line: String) -> Result<(), AllocError> {
    out.push_str(line.as_str())
}

// The bytes that spell a vector.
fn vector_text(alloc: Global, vector: &Vector, out: &mut String) -> Result<(), AllocError> {
    if vector.len() == 0 {
        return Ok(());
    }
    let mut bytes = Vec::new(alloc);
    vector.encode(&mut bytes)?;
    let digits = encode(alloc, &bytes)?;
    push(out, format!(in alloc; "vector {digits}\n")?)
}

fn row_text(alloc: Global, row: &FoundRow, out: &mut String) -> Result<(), AllocError> {
    let first = encode(alloc, &row.id.first.bytes())?;
    let digest = encode(alloc, &row.digest.0)?;
    push(
        out,
        format!(in alloc; "piece {first} put {} index {} ", row.id.put, row.id.index)?,
    )?;
    push(
        out,
        format!(in alloc;
            "place {} blocks {} digest {digest} pin {}\n",
            row.place, row.blocks, row.pin
        )?,
    )?;
    match &row.alternates {
        Some(vector) => vector_text(alloc, vector, out),
        None => Ok(()),
    }
}

pub fn pieces_text(alloc: Global, found: &FoundList, out: &mut String) -> Result<(), AllocError> {
    for i in 0..found.len() {
        row_text(alloc, found.get(i), out)?;
    }
    Ok(())
}
