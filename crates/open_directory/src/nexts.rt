// The next indices of the readers of one put, with the least of them at hand.

ghost use Rattle.std.specs.Prelude.{◌≡◌, ◌≢◌, ◌+◌, ◌/◌, ◌<◌, ◌≤◌, ◌^◌, None, Some, OnOk, IsOk, IsSome, length, true};
ghost use Rattle.open_directory.specs.declared.nexts.Nexts.TheVariants.{Nobody};
ghost use Rattle.open_directory.specs.Nexts.{HasLeast, IsFork, KeepsNexts, SetsNext, SidesHaveLeast, is_nobody, is_one, least_of, lesser, next_at};

use std::alloc::{AllocError, Global};

/// The readers of a put by their numbers: those of even and of odd numbers stand apart, each by half its number.
#[derive(Debug, Drop)]
pub enum Nexts {
    Nobody,
    One {
        reader: u64,
        next: u32,
    },
    Fork {
        /// The least next index of all.
        least: Option<u32>,
        even: Box<Nexts>,
        odd: Box<Nexts>,
    },
}

/// Memory for the two sides of a fork.
#[derive(Debug, Drop)]
pub(crate) struct Sides {
    even: Box<Nexts>,
    odd: Box<Nexts>,
}

impl Sides {
    fn new(alloc: Global) -> Result<Sides, AllocError> {
        let even = Box::new(alloc, Nexts::Nobody)?;
        let odd = Box::new(alloc, Nexts::Nobody)?;
        Ok(Sides { even, odd })
    }
}

/// Makes memory for so many forks.
pub(crate) fn spare_sides(
    sides: &mut Vec<Sides>,
    alloc: Global,
    count: usize,
) -> Result<(), AllocError>
    ensures enough { OnOk result (count ≤ length sides.new.items) }
    ensures kept { length sides.old.items ≤ length sides.new.items }
    ensures reserved { count ≤ length sides.old.items → IsOk result }
{
    while sides.len() < count {
        let more = Sides::new(alloc)?;
        sides.push(more)?;
    }
    Ok(())
}

impl Nexts {
    /// The least next index, where there is a reader.
    pub fn least(&self) -> Option<u32>
        ensures { result ≡ least_of self.now }
    {
        match self {
            Nexts::Nobody => None,
            Nexts::One { next, .. } => Some(*next),
            Nexts::Fork { least, .. } => *least,
        }
    }

    pub fn is_nobody(&self) -> bool
        ensures exact { result ≡ is_nobody self.now }
        ensures nobody { result ≡ true → self.now ≡ Nobody }
    {
        match self {
            Nexts::Nobody => true,
            _ => false,
        }
    }

    /// Writes the next index of a reader that is there.
    pub fn set(&mut self, reader: u64, next: u32)
        requires least { HasLeast self.old }
        requires there { IsSome (next_at reader self.old) }
        ensures least { HasLeast self.new }
        ensures next { SetsNext reader (Some next) self.old self.new }
    {
        match self {
            Nexts::Nobody => {}
            Nexts::One { next: kept, .. } => *kept = next,
            Nexts::Fork { least, even, odd } => {
                if reader % 2 == 0 {
                    even.set(reader / 2, next);
                } else {
                    odd.set(reader / 2, next);
                }
                *least = lesser(even.least(), odd.least());
            }
        }
    }

    /// Takes a reader out.
    pub fn remove(&mut self, reader: u64)
        requires least { HasLeast self.old }
        ensures least { HasLeast self.new }
        ensures next { SetsNext reader None self.old self.new }
    {
        match self {
            Nexts::Nobody => {}
            Nexts::One { reader: one, .. } => {
                if *one == reader {
                    *self = Nexts::Nobody;
                }
            }
            Nexts::Fork { even, odd, .. } => {
                if reader % 2 == 0 {
                    even.remove(reader / 2);
                } else {
                    odd.remove(reader / 2);
                }
                self.settle();
            }
        }
    }

    // Finds the least of the sides, and forgets sides where nobody is.
    #[tactic(auto, using(crate::proofs::LeastNext::nobody_there))]
    fn settle(&mut self)
        requires { SidesHaveLeast self.old }
        ensures least { HasLeast self.new }
        ensures next { KeepsNexts self.old self.new }
    {
        if let Nexts::Fork { least, even, odd } = self {
            *least = lesser(even.least(), odd.least());
            if least.is_none() {
                *self = Nexts::Nobody;
            }
        }
    }

    /// Adds a reader, or writes the next index of one that is there. There are no more forks than
    /// a number has bits.
    pub(crate) fn add(&mut self, sides: &mut Vec<Sides>, reader: u64, next: u32)
        requires least { HasLeast self.old }
        requires room { 64 ≤ length sides.old.items }
        ensures least { HasLeast self.new }
        ensures next { SetsNext reader (Some next) self.old self.new }
        ensures room { length sides.old.items ≤ length sides.new.items + 64 }
    {
        match self {
            Nexts::Nobody => *self = Nexts::One { reader, next },
            Nexts::One {
                reader: one,
                next: kept,
            } => {
                if *one == reader {
                    *kept = next;
                } else {
                    *self = apart(sides, *one, *kept, reader, next, 64);
                }
            }
            Nexts::Fork { least, even, odd } => {
                if reader % 2 == 0 {
                    even.add(sides, reader / 2, next);
                } else {
                    odd.add(sides, reader / 2, next);
                }
                *least = lesser(even.least(), odd.least());
            }
        }
    }
}

fn lesser(one: Option<u32>, other: Option<u32>) -> Option<u32>
    ensures { result ≡ lesser one other }
{
    match (one, other) {
        (Some(a), Some(b)) => Some(a.min(b)),
        (None, _) => other,
        (_, None) => one,
    }
}

// Two readers, whose numbers have no more than so many bits.
fn apart(sides: &mut Vec<Sides>, a: u64, a_next: u32, b: u64, b_next: u32, bits: u32) -> Nexts
    requires two { a ≢ b }
    requires a_bits { a < 2 ^ bits }
    requires b_bits { b < 2 ^ bits }
    requires room { bits ≤ length sides.old.items }
    ensures least { HasLeast result }
    ensures two { SetsNext b (Some b_next) (is_one a a_next) result }
    ensures room { length sides.old.items ≤ length sides.new.items + bits }
{
    let fewer = without_last_bit(a, b, bits);
    let one = Nexts::One {
        reader: a / 2,
        next: a_next,
    };
    let other = Nexts::One {
        reader: b / 2,
        next: b_next,
    };
    match (a % 2 == 0, b % 2 == 0) {
        (true, true) => {
            let both = apart(sides, a / 2, a_next, b / 2, b_next, fewer);
            fork(sides, both, Nexts::Nobody)
        }
        (true, false) => fork(sides, one, other),
        (false, true) => fork(sides, other, one),
        (false, false) => {
            let both = apart(sides, a / 2, a_next, b / 2, b_next, fewer);
            fork(sides, Nexts::Nobody, both)
        }
    }
}

// How many bits the halves of two numbers have, where the numbers have so many.
fn without_last_bit(a: u64, b: u64, bits: u32) -> u32
    requires two { a ≢ b }
    requires a_bits { a < 2 ^ bits }
    requires b_bits { b < 2 ^ bits }
    ensures one { result + 1 ≡ bits }
    ensures a_bits { a / 2 < 2 ^ result }
    ensures b_bits { b / 2 < 2 ^ result }
{
    bits - 1
}

fn fork(sides: &mut Vec<Sides>, even: Nexts, odd: Nexts) -> Nexts
    requires even { HasLeast even }
    requires odd { HasLeast odd }
    requires room { 0 < length sides.old.items }
    ensures least { HasLeast result }
    ensures sides { IsFork even odd result }
    ensures room { length sides.old.items ≡ length sides.new.items + 1 }
{
    let least = lesser(even.least(), odd.least());
    let Sides {
        even: mut even_side,
        odd: mut odd_side,
    } = sides.pop().unwrap();
    *even_side = even;
    *odd_side = odd;
    Nexts::Fork {
        least,
        even: even_side,
        odd: odd_side,
    }
}
