// The two copies of a stripe's directory, and whole syncs into the one that is not the newest.
ghost use Rattle.std.specs.Prelude.{◌≡◌, ◌≤◌, ◌+◌, ◌*◌, false, length, IsTrue, IfOk, IfErr, OnOk, OnErr};
ghost use Rattle.tape_base.specs.Place.{directory_blocks_of};
ghost use Rattle.logged_disk.specs.Device.{IsAfter, Keeps};
ghost use Rattle.stripe_header.specs.Layout.{body_blocks, device_blocks};
ghost use Rattle.stripe_header.specs.Spelling.{may_say};
ghost use Rattle.dir_sync.specs.Runs.{directory_in, spelled_body};
ghost use Rattle.stripe_copies.specs.Format.{Goes};
ghost use Rattle.stripe_copies.specs.Copies.{IsBrokenOff, IsImageOf, IsSynced, MayBeNext, StopsAt, broken_off, first_copies, sync_calls, turned};

use crate::packs::PacksEntries;
use dir_sync::{SyncFault, SyncRun};
use logged_disk::Disk;
use std::alloc::{AllocError, Global};
use std::marker::Model;
use std::mem;
use stripe_header::{Area, CopyState, Side};
use tape_base::{BLOCK, Geometry, directory_blocks};
use thiserror::Error;

/// The two copies of the directory as a stripe knows them, with the memory of one body.
#[derive(Drop)]
pub struct Copies {
    alloc: Global,
    area: Area,
    // The newest copy, its serial and its cursor.
    newest: Side,
    finished: u64,
    synced: u64,
    // The serial of the last sync that was begun.
    begun: u64,
    // Whether the gate of the other copy is known to be shut.
    shut: bool,
    body: Vec<u8>,
}

impl Model for Copies {
    ghost use Rattle.stripe_copies.specs.Copies.{AreCopies, CopiesState};

    ghost Value = { CopiesState };

    ghost view = { λ k. record {
      area = k.area;
      newest = k.newest;
      finished = k.finished;
      synced = k.synced;
      begun = k.begun;
      shut = k.shut;
    } };

    ghost invariant = { λ k. AreCopies k.area k.body.items };
}

// The image of a directory, between the first and the last block of a body.
fn put_directory<R: PacksEntries>(directory: &R, area: &Area, cursor: u64, body: &mut [u8])
    requires geometry { (R.window directory.now).geometry ≡ area.now.geometry }
    requires blocks { area.now.directory ≡ directory_blocks_of area.now.geometry }
    requires next { MayBeNext (R.window directory.now) cursor }
    requires whole { length body.old ≡ 512 * body_blocks area.now }
    ensures image { IsImageOf area.now.geometry cursor (R.rows directory.now)
        (directory_in body.new) }
    ensures whole { length body.new ≡ 512 * body_blocks area.now }
{
    let end = body.len() - BLOCK;
    directory.image(cursor, &mut body[BLOCK..end]);
}

// A body with that image.
fn with_directory<R: PacksEntries>(
    directory: &R,
    area: &Area,
    cursor: u64,
    body: Vec<u8>,
) -> Vec<u8>
    requires geometry { (R.window directory.now).geometry ≡ area.now.geometry }
    requires blocks { area.now.directory ≡ directory_blocks_of area.now.geometry }
    requires next { MayBeNext (R.window directory.now) cursor }
    requires whole { length body.items ≡ 512 * body_blocks area.now }
    ensures image { IsImageOf area.now.geometry cursor (R.rows directory.now)
        (directory_in result.items) }
    ensures whole { length result.items ≡ 512 * body_blocks area.now }
{
    let mut body = body;
    put_directory(directory, area, cursor, &mut body);
    body
}

/// Why a sync was broken off.
#[derive(Clone, Copy, Debug, PartialEq, Eq, Error)]
#[error("the device refused a call of the sync")]
pub struct SyncStop {
    /// The device's count of faults.
    pub count: u64,
    /// Whether all that was written before the sync is durable.
    pub durable: bool,
}

// What a sync leaves: the memory of its body, and whether the gate of its copy is known to be shut.
struct Left {
    body: Vec<u8>,
    shut: bool,
    answer: Result<u64, SyncStop>,
}

// A whole sync of one copy.
fn replace<D: Disk>(
    disk: &mut D,
    area: &Area,
    target: Side,
    shut: bool,
    state: CopyState,
    body: Vec<u8>,
) -> Left
    requires whole { length body.items ≡ 512 * body_blocks area.now }
    requires within { device_blocks area.now ≤ (D.state disk.old).size }
    requires calls { 8 ≤ (D.state disk.old).calls }
    requires blocks { body_blocks area.now + 3 ≤ (D.state disk.old).blocks }
    ensures keeps { Keeps 8 (body_blocks area.now + 3) (D.state disk.old) (D.state disk.new) }
    ensures whole { length result.body.items ≡ length body.items }
    ensures went { IfOk result.answer (λ serial. (serial ≡ state.serial)
        × Goes (sync_calls area.now target shut (spelled_body area.now state body.items))
        (D.state disk.old) (D.state disk.new)) }
    ensures opened { OnOk result.answer (result.shut ≡ false) }
    ensures stopped { IfErr result.answer (λ stop. StopsAt area.now target shut
        (spelled_body area.now state body.items) stop result.shut
        (D.state disk.old).past (D.state disk.new).past
        × (stop.count ≡ (D.state disk.new).faults)) }
{
    let mut run = match SyncRun::begin(disk, area, target, shut, state, body) {
        Ok(run) => run,
        Err((SyncFault { count }, body)) => {
            let answer = Err(SyncStop {
                count,
                durable: false,
            });
            return Left { body, shut, answer };
        }
    };
    match run.finish(disk) {
        Ok(serial) => Left {
            shut: run.shut(),
            body: run.into_body(),
            answer: Ok(serial),
        },
        Err(SyncFault { count }) => Left {
            shut: run.shut(),
            body: run.into_body(),
            answer: Err(SyncStop {
                count,
                durable: true,
            }),
        },
    }
}

impl Copies {
    /// Those behind a format, which leaves the gate of copy B shut. All memory for syncs is taken here.
    pub fn behind_format(alloc: Global, g: &Geometry) -> Result<Copies, AllocError>
        ensures area { IfOk result (λ k. (k.area.geometry ≡ g.now)
            × (k.area.directory ≡ directory_blocks_of g.now)) }
        ensures first { IfOk result (λ k. k ≡ first_copies k.area) }
    {
        let area = Area {
            geometry: *g,
            directory: directory_blocks(g),
        };
        let body = vec![in alloc; 0; area.body_blocks() as usize * BLOCK]?;
        Ok(Copies {
            alloc,
            area,
            newest: Side::A,
            finished: 1,
            synced: g.content,
            begun: 1,
            shut: true,
            body,
        })
    }

    /// The serial of the newest copy.
    pub fn finished(&self) -> u64
        ensures { result ≡ self.now.finished }
    {
        self.finished
    }

    /// The cursor of the newest copy.
    pub fn synced(&self) -> u64
        ensures { result ≡ self.now.synced }
    {
        self.synced
    }

    /// The serial of the last sync that was begun.
    pub fn begun(&self) -> u64
        ensures { result ≡ self.now.begun }
    {
        self.begun
    }

    /// A whole sync: writes the copy that is not the newest, and answers its serial. It is the newest
    /// then. Where the device refuses a call the newest copy stays, and the serial is used up.
    pub fn whole<D: Disk, R: PacksEntries>(
        &mut self,
        disk: &mut D,
        directory: &R,
        state: CopyState,
    ) -> Result<u64, SyncStop>
        requires says { IsTrue (may_say self.old.area.geometry state) }
        requires serial { state.serial ≡ self.old.begun + 1 }
        requires geometry { (R.window directory.now).geometry ≡ self.old.area.geometry }
        requires next { MayBeNext (R.window directory.now) state.cursor }
        requires within { device_blocks self.old.area ≤ (D.state disk.old).size }
        requires calls { 8 ≤ (D.state disk.old).calls }
        requires blocks { body_blocks self.old.area + 3 ≤ (D.state disk.old).blocks }
        ensures keeps { Keeps 8 (body_blocks self.old.area + 3) (D.state disk.old) (D.state disk.new) }
        ensures goes { IsAfter (D.state disk.old) (D.state disk.new) }
        ensures went { IfOk result (λ serial. (serial ≡ state.serial)
            × IsSynced self.old state (R.rows directory.now) (D.state disk.old) (D.state disk.new)) }
        ensures turned { OnOk result (self.new ≡ turned self.old state) }
        ensures stopped { IfErr result (λ stop. IsBrokenOff self.old state (R.rows directory.now)
            stop self.new.shut (D.state disk.old) (D.state disk.new)) }
        ensures stays { OnErr result (self.new ≡ broken_off self.old state self.new.shut) }
    {
        let target = self.newest.other();
        let body = mem::replace(&mut self.body, Vec::new(self.alloc));
        let body = with_directory(directory, &self.area, state.cursor, body);
        let Left { body, shut, answer } = replace(disk, &self.area, target, self.shut, state, body);
        self.body = body;
        self.begun = state.serial;
        self.shut = shut;
        if let Ok(serial) = answer {
            self.newest = target;
            self.finished = serial;
            self.synced = state.cursor;
        }
        answer
    }
}
