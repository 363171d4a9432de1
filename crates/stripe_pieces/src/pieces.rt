// The pieces of a stripe: on the cyclone, and in the records.
ghost use Rattle.std.specs.Prelude.{◌≡◌, ◌*◌, ◌<◌, ◌≤◌, ◌^◌, [], IfOk, IfErr, OnOk, OnErr};
ghost use Rattle.cache_model.specs.Kept.{all_of};
ghost use Rattle.cache_model.specs.Legal.{format_records};
ghost use Rattle.cyclone.specs.Cyclone.{IsCyclone, seen_cyclone};
ghost use Rattle.logged_disk.specs.Device.{Affords};
ghost use Rattle.stripe_pieces.specs.Units.{records_of_unit};
ghost use Rattle.held_pieces.specs.This.{is_this};
ghost use Rattle.stripe_copies.specs.Format.{IsRefusedFormat};
ghost use Rattle.tape_base.specs.Place.{device_blocks_of};

use crate::records;
use cache_chronicle::Chronicle;
use cyclone::Cyclone;
use dir_table::Directory;
use logged_disk::Disk;
use std::alloc::{AllocError, Global};
use stripe_copies::FormatFault;
use tape_base::{Geometry, Key, PieceId, Steps};

// The records of a flush for each block of the buffer: the floor moves by two buffers at most, and of a
// piece there are two records at most.
const PER_BLOCK: usize = 4;

// The records of the next buffer, of a cut, of a place, and one more.
const RECORDS: usize = 4;

// Of each bucket three slots are for any chain of its segment. An entry displaces a tenth of these.
const CHAINED: usize = 3;

/// The pieces on a device, and the chronicle that tells of them.
#[derive(Drop)]
pub struct Pieces<D: Disk, R: Directory + Drop, C: Chronicle> {
    /// What stands on the device, in the buffer and in the directory.
    pub cyclone: Cyclone<D, R>,
    /// The records, and what they tell. Only functions of the module `records` push one.
    pub chronicle: C,
    // Of any chronicle: with it the type carries what `C` tells of itself, beside what the cyclone's
    // type carries.
    ghost told: { 0 ≤ C.room chronicle },
}

impl<D: Disk, R: Directory + Drop, C: Chronicle> Pieces<D, R, C> {
    ghost use Rattle.held_pieces.specs.Whereabouts.{live_place_of};
    ghost use Rattle.stripe_pieces.specs.Pieces.{ArePieces, kept_now, seen_now, state_now};
    ghost use Rattle.stripe_pieces.specs.Calls.{HasGrown, IsFormatted, OnlyGrows};

    /// Lays the device out, and begins a session on it. A refusal gives back the device and the
    /// chronicle.
    pub fn format(
        alloc: Global,
        disk: D,
        chronicle: C,
        g: Geometry,
    ) -> Result<Pieces<D, R, C>, (FormatFault, D, C)>
        requires sized { device_blocks_of g ≤ (D.state disk).size }
        requires empty { C.kept chronicle ≡ all_of [] }
        ensures formatted { IfOk result (IsFormatted g (D.state disk)) }
        ensures back { IfErr result (λ r.
            IsRefusedFormat g (D.state disk) (D.state r.1) r.0 × (C.kept r.2 ≡ all_of [])) }
    {
        let mut chronicle = chronicle;
        if let Err(e) = chronicle.reserve(2) {
            return Err((FormatFault::Memory(e), disk, chronicle));
        }
        match Cyclone::format(alloc, disk, g) {
            Ok(cyclone) => Ok(Pieces::begun(cyclone, chronicle)),
            Err((fault, disk)) => Err((fault, disk, chronicle)),
        }
    }

    fn begun(cyclone: Cyclone<D, R>, chronicle: C) -> Pieces<D, R, C>
        requires turns { IsCyclone cyclone }
        requires room { 2 ≤ C.room chronicle }
        requires empty { C.kept chronicle ≡ all_of [] }
        ensures same { result.cyclone ≡ cyclone }
        ensures records { C.kept result.chronicle
            ≡ all_of (format_records (seen_cyclone cyclone).geometry) }
    {
        let mut chronicle = chronicle;
        records::formatted(&mut chronicle, cyclone.geometry());
        Pieces { cyclone, chronicle }
    }

    /// Makes room for so many calls, each with its pieces and records, and on the device for at
    /// least so many flushes.
    pub fn prepare(&mut self, units: u32, flushes: u32) -> Result<(), AllocError>
        requires { ArePieces self.old }
        ensures keeps { OnlyGrows self.old self.new }
        ensures grown { OnOk result (HasGrown units flushes self.old self.new) }
        ensures none { OnErr result (Affords 0 0 (seen_now self.old).device
            (seen_now self.new).device) }
    {
        let g = self.cyclone.geometry();
        let entries = (g.agg as usize / 2 + 1) * units as usize;
        self.chronicle.reserve(records_of(g, units))?;
        self.cyclone.prepare(entries, flushes)
    }

    /// Gives the device and the chronicle back.
    pub fn into_parts(self) -> (D, C)
        ensures device { D.state result.0 ≡ (seen_now self).device }
        ensures records { C.kept result.1 ≡ kept_now self }
    {
        let Pieces { cyclone, chronicle } = self;
        (cyclone.into_disk(), chronicle)
    }

    pub fn chronicle(&self) -> &C
        ensures { C.kept result.now ≡ kept_now self.now }
    {
        &self.chronicle
    }

    /// The place of a live piece, by a walk over the places that its key may have. It reads no
    /// device.
    pub fn whereabouts(&self, id: PieceId) -> Option<u64>
        requires { ArePieces self.now }
        ensures { result ≡ live_place_of (state_now self.now) id }
    {
        let directory = self.cyclone.directory();
        let mut walk = directory.candidates(Key::of_piece(id));
        let mut steps = Steps::new();
        'walks: while let Some(place) = directory.step(&mut walk, &mut steps) {
            if is_this(self.chronicle.piece_at(place), id) {
                return Some(place);
            }
        }
        None
    }
}

/// How many records so many calls add at most.
pub fn records_of(g: &Geometry, units: u32) -> usize
    ensures count { result ≡ records_of_unit g.now * units }
    ensures few { result < 2 ^ 48 }
{
    let displaced = (CHAINED * g.buckets as usize + 9) / 10;
    (PER_BLOCK * g.agg as usize + RECORDS + displaced) * units as usize
}

fn is_this(found: Option<PieceId>, id: PieceId) -> bool
    ensures { result ≡ is_this found id }
{
    match found {
        Some(other) => other == id,
        None => false,
    }
}
