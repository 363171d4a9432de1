// How the vector of a put is spelled.
ghost use Rattle.std.specs.Prelude.{◌≡◌, ◌≤◌, ◌∷◌, [], IfOk, max};
ghost use Rattle.tape_base.specs.Blocks.{blocks_of};
ghost use Rattle.tape_base.specs.Geometry.{budget_of};
ghost use Rattle.fragment_table.specs.Table.{total_length};
ghost use Rattle.alternate_vector.specs.Alternates.{stored_of, vector_size};
ghost use Rattle.cache_model.specs.Room.{greatest_pin};
ghost use Rattle.stripe_vectors.specs.Spelled.{IsSpelled};

use alternate_vector::{Alternate, Vector};
use std::alloc::{AllocError, Global};
use tape_base::{BLOCK, Geometry, HEADER};

/// A vector's bytes, the greatest pin of its alternates, and the list of these.
#[derive(Debug, Drop)]
pub struct Spelled {
    pub bytes: Vec<u8>,
    pub pin: u64,
    pub list: Vector,
}

/// Spells what a vector lists when a new alternate, which alone fits a piece, comes to those of a
/// list.
pub fn spell(
    alloc: Global,
    g: &Geometry,
    list: &Vector,
    new: &Alternate,
) -> Result<Spelled, AllocError>
    requires length { new.now.length ≡ total_length new.now.table.rows }
    requires fits { blocks_of (vector_size (stored_of new.now ∷ [])) ≤ budget_of g.now }
    ensures { IfOk result (IsSpelled g.now list.now (stored_of new.now)) }
{
    let most = g.agg as usize / 2 * BLOCK - HEADER;
    let merged = list.merge(new, g.alternates as usize, most)?;
    let mut bytes = Vec::with_capacity(alloc, merged.size())?;
    merged.encode(&mut bytes)?;
    Ok(Spelled {
        bytes,
        pin: greatest_pin(&merged),
        list: merged,
    })
}

fn greatest_pin(list: &Vector) -> u64
    ensures { result ≡ greatest_pin list.now }
{
    let mut pin = 0;
    'alternates: for i in 0..list.len() {
        pin = greater(pin, list.get(i).pin);
    }
    pin
}

fn greater(a: u64, b: u64) -> u64
    ensures { result ≡ max a b }
{
    if a < b { b } else { a }
}
