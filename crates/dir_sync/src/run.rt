// A sync of the directory into one of its copies.
ghost use Rattle.std.specs.Prelude.{◌≡◌, ◌≤◌, ◌<◌, ◌+◌, ◌*◌, length, true, min, OnOk, OnErr, IfOk, IfErr};
ghost use Rattle.logged_disk.specs.Device.{Keeps, CutLeaves, Elapses};
ghost use Rattle.device_log.specs.Along.{Stopped};
ghost use Rattle.stripe_header.specs.Layout.{device_blocks, body_blocks};
ghost use Rattle.dir_sync.specs.SyncCalls.{shutting_calls, past_behind};
ghost use Rattle.dir_sync.specs.Moments.{IsReplaced};
ghost use Rattle.dir_sync.specs.Passes.{StandsOn, SparesBeside, OpenedOn, pass_after};
ghost use Rattle.dir_sync.specs.Laws.{past_done, begun_pass, Halts};
ghost use Rattle.dir_sync.specs.Runs.{RunKeeps, BeginKeeps, RunStands, IsBegun, ComesBack, IsToldRight, WentOn, Halted, CanBeginAgain, IfRunning, left_of, answer_of_run};

use crate::parts::{Halt, put_body, put_first, put_last, shut_gate};
use crate::progress::SyncProgress;
use edge_io::Failed;
use logged_disk::Disk;
use std::marker::Model;
use stripe_header::{Area, CopyState, Side, write_body};
use thiserror::Error;

// The blocks that a step writes at most.
const STEP: u64 = 64;

// Shuts the gate where a pass begins, writes the next blocks, and opens the gate behind the last.
fn write_parts<D: Disk>(
    disk: &mut D,
    area: &Area,
    side: Side,
    body: &[u8],
    p: SyncProgress,
    n: u64,
) -> Result<(), Halt>
    requires whole { length body.now ≡ 512 * body_blocks area.now }
    requires some { 0 < n }
    requires next { p.written + n ≤ body_blocks area.now }
    requires begun { p.begun ≡ true → p.shut ≡ true }
    requires within { device_blocks area.now ≤ (D.state disk.old).size }
    requires calls { 6 ≤ (D.state disk.old).calls }
    requires blocks { n + 2 ≤ (D.state disk.old).blocks }
    ensures keeps { Keeps 6 (n + 2) (D.state disk.old) (D.state disk.new) }
    ensures went { OnOk result ((D.state disk.new).past
        ≡ past_done area.now side body.now p n (D.state disk.old).past) }
    ensures halts { IfErr result (λ h. Halts area.now side body.now p n h.count h.shut
        (D.state disk.old).past (D.state disk.new).past × (h.count ≡ (D.state disk.new).faults)) }
{
    put_first(disk, side, p)?;
    put_body(disk, area, side, body, p, n)?;
    put_last(disk, area, side, p, n)
}

// The same, as a cut sees it.
fn advance<D: Disk>(
    disk: &mut D,
    area: &Area,
    side: Side,
    body: &[u8],
    p: SyncProgress,
    n: u64,
) -> Result<(), Halt>
    requires whole { length body.now ≡ 512 * body_blocks area.now }
    requires some { 0 < n }
    requires next { p.written + n ≤ body_blocks area.now }
    requires begun { p.begun ≡ true → p.shut ≡ true }
    requires within { device_blocks area.now ≤ (D.state disk.old).size }
    requires calls { 6 ≤ (D.state disk.old).calls }
    requires blocks { n + 2 ≤ (D.state disk.old).blocks }
    ensures keeps { Keeps 6 (n + 2) (D.state disk.old) (D.state disk.new) }
    ensures went { OnOk result ((D.state disk.new).past
        ≡ past_done area.now side body.now p n (D.state disk.old).past) }
    ensures halts { IfErr result (λ h. Halts area.now side body.now p n h.count h.shut
        (D.state disk.old).past (D.state disk.new).past × (h.count ≡ (D.state disk.new).faults)) }
    ensures moments { StandsOn area.now side body.now p (D.state disk.old)
        → Elapses (IsReplaced area.now side body.now (CutLeaves (D.state disk.old)))
        (D.state disk.old) (D.state disk.new) }
    ensures stands { StandsOn area.now side body.now p (D.state disk.old)
        → StandsOn area.now side body.now (pass_after area.now p n result) (D.state disk.new) }
    ensures spares { SparesBeside area.now side (D.state disk.old) (D.state disk.new) }
    ensures opens { p.written + n ≡ body_blocks area.now
        → OnOk result (OpenedOn side (D.state disk.new)) }
{
    write_parts(disk, area, side, body, p, n)
}

// Shuts the gate, as a cut sees it.
fn bar<D: Disk>(
    disk: &mut D,
    area: &Area,
    side: Side,
    shut: bool,
    body: &[u8],
) -> Result<(), Failed>
    requires within { 2 < (D.state disk.old).size }
    requires calls { 2 ≤ (D.state disk.old).calls }
    requires blocks { 1 ≤ (D.state disk.old).blocks }
    ensures keeps { Keeps 2 1 (D.state disk.old) (D.state disk.new) }
    ensures went { OnOk result ((D.state disk.new).past
        ≡ past_behind (shutting_calls side shut) (D.state disk.old).past) }
    ensures stopped { OnErr result (Stopped (shutting_calls side shut)
        (D.state disk.new).faults (D.state disk.old).past (D.state disk.new).past) }
    ensures holds { BeginKeeps area.now side shut (D.state disk.old) (D.state disk.new) }
    ensures stands { IsToldRight side shut (D.state disk.old)
        → OnOk result (StandsOn area.now side body.now begun_pass (D.state disk.new)) }
{
    shut_gate(disk, side, shut)
}

/// Why a sync did not go on.
#[derive(Clone, Copy, Debug, Drop, PartialEq, Eq, Error)]
#[error("the device refused a call of the sync")]
pub struct SyncFault {
    /// The device's count of faults.
    pub count: u64,
}

/// How far a sync is.
#[derive(Clone, Copy, Debug, Drop, PartialEq, Eq)]
pub enum SyncState {
    /// So many blocks of the body are left.
    Running { left: u64 },
    Done { serial: u64 },
}

/// A sync that was begun. It keeps one body, and takes no memory.
#[derive(Drop)]
pub struct SyncRun {
    area: Area,
    target: Side,
    state: CopyState,
    body: Vec<u8>,
    progress: SyncProgress,
}

impl Model for SyncRun {
    ghost use Rattle.dir_sync.specs.RunState.{RunState, IsRunState};

    ghost Value = { RunState };

    ghost view = { λ r. record {
      area = r.area;
      side = r.target;
      state = r.state;
      body = r.body.items;
      progress = r.progress;
    } };

    ghost invariant = { λ r. IsRunState r.area r.body.items r.progress };
}

impl SyncRun {
    /// Spells the copy and shuts its gate. The body has its directory in place. After a failure it
    /// comes back, to begin again with it and with the same word on the gate.
    pub fn begin<D: Disk>(
        disk: &mut D,
        area: &Area,
        target: Side,
        shut: bool,
        state: CopyState,
        body: Vec<u8>,
    ) -> Result<SyncRun, (SyncFault, Vec<u8>)>
        requires whole { length body.items ≡ 512 * body_blocks area.now }
        requires within { device_blocks area.now ≤ (D.state disk.old).size }
        requires calls { 2 ≤ (D.state disk.old).calls }
        requires blocks { 1 ≤ (D.state disk.old).blocks }
        ensures keeps { Keeps 2 1 (D.state disk.old) (D.state disk.new) }
        ensures holds { BeginKeeps area.now target shut (D.state disk.old) (D.state disk.new) }
        ensures run { IfOk result (λ run. IsBegun area.now target state body.items run
            × ((D.state disk.new).past
            ≡ past_behind (shutting_calls target shut) (D.state disk.old).past)) }
        ensures stands { IsToldRight target shut (D.state disk.old)
            → IfOk result (λ run. RunStands run (D.state disk.new)) }
        ensures halts { IfErr result (λ e. Stopped (shutting_calls target shut) e.0.count
            (D.state disk.old).past (D.state disk.new).past
            × (e.0.count ≡ (D.state disk.new).faults)) }
        ensures back { IfErr result (λ e. ComesBack area.now state body.items e.1.items) }
    {
        let mut body = body;
        write_body(&area.geometry, &state, &mut body);
        match bar(disk, area, target, shut, &body) {
            Ok(()) => Ok(SyncRun {
                area: *area,
                target,
                state,
                body,
                progress: SyncProgress {
                    begun: true,
                    shut: true,
                    written: 0,
                },
            }),
            Err(Failed) => Err((
                SyncFault {
                    count: disk.faults(),
                },
                body,
            )),
        }
    }

    // Writes the next blocks.
    fn go_on<D: Disk>(&mut self, disk: &mut D, n: u64) -> Result<(), SyncFault>
        requires some { 0 < n }
        requires next { n ≤ left_of self.old }
        requires within { device_blocks self.old.area ≤ (D.state disk.old).size }
        requires calls { 6 ≤ (D.state disk.old).calls }
        requires blocks { n + 2 ≤ (D.state disk.old).blocks }
        ensures keeps { Keeps 6 (n + 2) (D.state disk.old) (D.state disk.new) }
        ensures holds { RunKeeps self.old self.new (D.state disk.old) (D.state disk.new) }
        ensures went { OnOk result (WentOn self.old self.new n
            (D.state disk.old).past (D.state disk.new).past) }
        ensures halts { IfErr result (λ f. Halted self.old self.new n f.count
            (D.state disk.old).past (D.state disk.new).past
            × (f.count ≡ (D.state disk.new).faults)) }
        ensures again { OnErr result (CanBeginAgain self.old self.new) }
    {
        match advance(disk, &self.area, self.target, &self.body, self.progress, n) {
            Ok(()) => {
                let written = self.progress.written + n;
                self.progress = SyncProgress {
                    begun: written != self.area.body_blocks(),
                    shut: written != self.area.body_blocks(),
                    written,
                };
                Ok(())
            }
            Err(halt) => {
                self.progress = SyncProgress {
                    begun: false,
                    shut: halt.shut,
                    written: 0,
                };
                Err(SyncFault { count: halt.count })
            }
        }
    }

    /// Writes the next blocks, 64 at most. After a failure the run is at its start: the next call
    /// shuts the gate again, and the body is written anew under the same serial.
    pub fn step<D: Disk>(&mut self, disk: &mut D) -> Result<SyncState, SyncFault>
        requires unfinished { 0 < left_of self.old }
        requires within { device_blocks self.old.area ≤ (D.state disk.old).size }
        requires calls { 6 ≤ (D.state disk.old).calls }
        requires blocks { min 64 (left_of self.old) + 2 ≤ (D.state disk.old).blocks }
        ensures keeps { Keeps 6 (min 64 (left_of self.old) + 2)
            (D.state disk.old) (D.state disk.new) }
        ensures holds { RunKeeps self.old self.new (D.state disk.old) (D.state disk.new) }
        ensures went { IfOk result (λ s. (s ≡ answer_of_run self.new)
            × WentOn self.old self.new (min 64 (left_of self.old))
            (D.state disk.old).past (D.state disk.new).past) }
        ensures fewer { IfOk result (λ s. IfRunning s (λ left. left + 64 ≡ left_of self.old)) }
        ensures halts { IfErr result (λ f.
            Halted self.old self.new (min 64 (left_of self.old)) f.count
            (D.state disk.old).past (D.state disk.new).past
            × (f.count ≡ (D.state disk.new).faults)) }
        ensures again { OnErr result (CanBeginAgain self.old self.new) }
    {
        let next = self.left().min(STEP);
        match self.go_on(disk, next) {
            Ok(()) => Ok(self.answer()),
            Err(fault) => Err(fault),
        }
    }

    /// Writes all blocks that are left, and answers the serial. Else as `step`.
    pub fn finish<D: Disk>(&mut self, disk: &mut D) -> Result<u64, SyncFault>
        requires unfinished { 0 < left_of self.old }
        requires within { device_blocks self.old.area ≤ (D.state disk.old).size }
        requires calls { 6 ≤ (D.state disk.old).calls }
        requires blocks { left_of self.old + 2 ≤ (D.state disk.old).blocks }
        ensures keeps { Keeps 6 (left_of self.old + 2) (D.state disk.old) (D.state disk.new) }
        ensures holds { RunKeeps self.old self.new (D.state disk.old) (D.state disk.new) }
        ensures went { IfOk result (λ serial. (serial ≡ self.old.state.serial)
            × WentOn self.old self.new (left_of self.old)
            (D.state disk.old).past (D.state disk.new).past) }
        ensures done { OnOk result (left_of self.new ≡ 0) }
        ensures halts { IfErr result (λ f. Halted self.old self.new (left_of self.old) f.count
            (D.state disk.old).past (D.state disk.new).past
            × (f.count ≡ (D.state disk.new).faults)) }
        ensures again { OnErr result (CanBeginAgain self.old self.new) }
    {
        let left = self.left();
        match self.go_on(disk, left) {
            Ok(()) => Ok(self.state.serial),
            Err(fault) => Err(fault),
        }
    }

    // What a step answers here.
    fn answer(&self) -> SyncState
        ensures { result ≡ answer_of_run self.now }
    {
        match self.left() {
            0 => SyncState::Done {
                serial: self.state.serial,
            },
            left => SyncState::Running { left },
        }
    }

    /// Whether the gate of the copy is known to be shut.
    pub fn shut(&self) -> bool
        ensures { result ≡ self.now.progress.shut }
    {
        self.progress.shut
    }

    /// The blocks of the body that are left to write.
    pub fn left(&self) -> u64
        ensures { result ≡ left_of self.now }
    {
        self.area.body_blocks() - self.progress.written
    }

    pub fn into_body(self) -> Vec<u8>
        ensures { result.items ≡ self.body }
    {
        self.body
    }
}
