// Sessions begin, formats give them devices, and the devices come back.
ghost use Rattle.std.specs.Prelude.{◌≡◌, ◌+◌, ◌++◌, ◌*◌, ◌<◌, ◌≤◌, ◌∷◌, [], ℕ, List, None, Some, length, IfOk, IfErr, OnOk, OnErr};
ghost use Rattle.std.specs.Result.{result_err};
ghost use Rattle.tape_base.specs.Geometry.{HasNumbers, budget_of};
ghost use Rattle.tape_base.specs.Limits.{first_refusal};
ghost use Rattle.logged_disk.specs.Device.{DeviceState as Device};
ghost use Rattle.device_bay.specs.Calls.{Gave, out_of, returned_by};
ghost use Rattle.device_bay.specs.Bay.{IsNewDevice};
ghost use Rattle.script_grammar.specs.declared.step.Step.TheVariants as step;
ghost use Rattle.script_run.specs.Run.{Harm, fresh};
ghost use Rattle.script_run.specs.Answers.{number_of_bad};
ghost use Rattle.script_run.specs.Ledger.{AreReached, ComeBack, KeepsOrder};
ghost use Rattle.cache_replay.specs.Deals.{AnswersStep, FormatsAs, GivesBack, GivesNone};
ghost use Rattle.run_promise.specs.Outline.{blank_outline};
ghost use Rattle.cache_replay.specs.Replay.{IsOutlined, IsReplay, PlaysOn, PlaysReach, actors_in, bare_return, devices_in, returns_in};
ghost use Rattle.cache_replay.specs.Session.{at_in, return_of, slots_in};
ghost use Rattle.cache_replay.specs.Stop.{IsFormatStop, RefusesAtStop};

use crate::session::{Bare, Part, Replay, Session};
use crate::stop::Stop;
use actor_table::Actors;
use cache_calls::{Calls, Formats};
use device_bay::{Bay, BayFault};
use logged_disk::Disk;
use script_grammar::{Refused, StepAnswer};
use std::alloc::{AllocError, Global};
use std::mem;
use stripe_copies::FormatFault;
use tape_base::{BadGeometry, Geometry, alternates_are_last, device_blocks, floor_of};

/// A replay in which nothing was formatted yet.
pub fn begin<D: Disk, S: Calls>(alloc: Global) -> Replay<D, S>
    ensures replay { IsReplay result }
    ensures plays { PlaysOn fresh result }
    ensures outline { IsOutlined blank_outline result }
    ensures devices { devices_in result ≡ 0 }
    ensures names { actors_in result ≡ [] }
{
    Replay {
        session: Session {
            alloc,
            actors: Actors::new(alloc),
            part: None,
            now: 0,
        },
        bare: None,
    }
}

/// The device at hand has counted as far as the run was told, its calls are those of the lines since its attach, and
/// where it tells its content no piece was told as damaged.
pub fn plays_reach<D: Disk, S: Calls>()
    ensures { PlaysReach D.Disk S.Calls }
{}

/// Gives the device at hand back.
pub fn close<B: Bay, S: Formats<B::Dev>>(replay: Replay<B::Dev, S>, bay: &mut B)
    requires held { devices_in replay ≤ out_of (B.past bay.old) }
    ensures back { (harms : List Harm) → AreReached harms (returns_in replay)
        → ComeBack (returned_by (B.past bay.old)) (returned_by (B.past bay.new)) harms }
    ensures gives { GivesBack (returns_in replay) (B.past bay.old) (B.past bay.new) }
{
    let Replay { session, bare } = replay;
    let Session { part, .. } = session;
    give_back(bay, part, bare);
}

// Gives back the device at hand, that of a cache or a bare one.
fn give_back<B: Bay, S: Formats<B::Dev>>(
    bay: &mut B,
    part: Option<Part<S>>,
    bare: Option<Bare<B::Dev>>,
)
    requires held { length (return_of part ++ bare_return bare) ≤ out_of (B.past bay.old) }
    ensures gives { GivesBack (return_of part ++ bare_return bare) (B.past bay.old) (B.past bay.new) }
{
    give_back_part(bay, part);
    give_back_bare(bay, bare);
}

/// Gives back a bare device, where there is one.
pub(crate) fn give_back_bare<B: Bay>(bay: &mut B, bare: Option<Bare<B::Dev>>)
    requires held { length (bare_return bare) ≤ out_of (B.past bay.old) }
    ensures gives { GivesBack (bare_return bare) (B.past bay.old) (B.past bay.new) }
    ensures none { bare ≡ None → B.past bay.new ≡ B.past bay.old }
{
    match bare {
        Some(bare) => {
            let Bare { device, .. } = bare;
            bay.give_back(device)
        }
        None => {}
    }
}

// Gives back the device of a cache, where there is one.
fn give_back_part<B: Bay, S: Formats<B::Dev>>(bay: &mut B, part: Option<Part<S>>)
    requires held { length (return_of part) ≤ out_of (B.past bay.old) }
    ensures gives { GivesBack (return_of part) (B.past bay.old) (B.past bay.new) }
{
    match part {
        Some(part) => {
            let Part { cache, .. } = part;
            bay.give_back(cache.into_device())
        }
        None => {}
    }
}

fn number_of(bad: BadGeometry) -> u32
    ensures { result ≡ number_of_bad bad }
{
    match bad {
        BadGeometry::Segments => 1,
        BadGeometry::Buckets => 2,
        BadGeometry::Agg => 3,
        BadGeometry::Content => 4,
        BadGeometry::Reach => 5,
        BadGeometry::Fragment => 6,
        BadGeometry::Alternates => 7,
    }
}

// The geometry of these numbers, where none of them is refused.
fn checked(
    segments: u32,
    buckets: u32,
    content: u64,
    agg: u32,
    reach: u64,
    fragment: u32,
    generation: u64,
    alternates: u32,
) -> Result<Geometry, BadGeometry>
    ensures numbers { IfOk result (λ g.
        HasNumbers g segments buckets content agg reach fragment generation alternates) }
    ensures refused { result_err result
        ≡ first_refusal segments buckets content agg reach fragment alternates }
{
    alternates_are_last();
    let usual = Geometry::check(segments, buckets, content, agg, reach, fragment, generation)?;
    usual.with_alternates(alternates)
}

// As many bytes as any piece has.
fn make_page(alloc: Global, geometry: &Geometry) -> Result<Vec<u8>, AllocError>
    ensures { IfOk result (λ page. length page.items ≡ 512 * budget_of geometry.now) }
{
    let bytes = 512 * (geometry.agg as usize / 2);
    vec![in alloc; 0; bytes]
}

// Attaches a device.
fn attach<B: Bay>(alloc: Global, bay: &mut B, name: &[u8], blocks: u64) -> Result<B::Dev, Stop>
    ensures device { IfOk result (λ device. IsNewDevice blocks (B.past bay.old) (B.Dev.state device)) }
    ensures gave { OnOk result (B.past bay.new ≡ Gave name.now blocks ∷ B.past bay.old) }
    ensures refused { OnErr result (GivesNone (B.past bay.old) (B.past bay.new)) }
    ensures stop { IfErr result (IsFormatStop name.now blocks (B.past bay.old) (B.past bay.new)) }
    ensures refusals { RefusesAtStop (B.past bay.old) (B.past bay.new) result }
{
    match bay.attach(alloc, name, blocks) {
        Ok(device) => Ok(device),
        Err(BayFault::Failed { .. }) => Err(Stop::BayFault),
        Err(BayFault::Memory(_)) => Err(Stop::Memory),
    }
}

// Ends the session, and gives the device at hand back.
fn end<B: Bay, S: Formats<B::Dev>>(replay: &mut Replay<B::Dev, S>, bay: &mut B)
    requires held { devices_in replay.old ≤ out_of (B.past bay.old) }
    ensures part { replay.new.session.part ≡ None }
    ensures bare { replay.new.bare ≡ None }
    ensures slots { (n : ℕ) → slots_in replay.new.session n ≡ None }
    ensures names { actors_in replay.new ≡ actors_in replay.old }
    ensures now { replay.new.session.now ≡ replay.old.session.now }
    ensures gives { GivesBack (returns_in replay.old) (B.past bay.old) (B.past bay.new) }
{
    replay.session.actors.clear();
    let part = mem::replace(&mut replay.session.part, None);
    let bare = mem::replace(&mut replay.bare, None);
    give_back(bay, part, bare);
}

/// `format NAME S B N A R F G M`: the session before it ends, and one begins on the device of that name.
pub(crate) fn format_line<B: Bay, S: Formats<B::Dev>>(
    replay: &mut Replay<B::Dev, S>,
    bay: &mut B,
    name: &[u8],
    segments: u32,
    buckets: u32,
    content: u64,
    agg: u32,
    reach: u64,
    fragment: u32,
    generation: u64,
    alternates: u32,
) -> Result<StepAnswer, Stop>
    requires replay { IsReplay replay.old }
    requires held { devices_in replay.old ≤ out_of (B.past bay.old) }
    ensures answers { AnswersStep (step.Format name.now segments buckets content agg reach fragment
        generation alternates) replay.old replay.new (B.past bay.old) (B.past bay.new) result }
{
    match checked(
        segments, buckets, content, agg, reach, fragment, generation, alternates,
    ) {
        Err(bad) => Ok(StepAnswer::Refused {
            why: Refused::Geometry {
                number: number_of(bad),
            },
            took: None,
        }),
        Ok(geometry) => match format(replay, bay, name, geometry)? {
            Tried::Begun => Ok(StepAnswer::Formatted {
                serial: 1,
                cursor: geometry.content,
                floor: floor_of(&geometry, geometry.content),
            }),
            Tried::Refused { count } => Ok(StepAnswer::DeviceFault { count, took: None }),
        },
    }
}

/// What became of a device that was attached: a session began on it, or it refused a call of its
/// format, and its count of faults then stood at `count`.
#[derive(Clone, Copy, Debug)]
pub enum Tried {
    Begun,
    Refused { count: u64 },
}

// Lays the device of that name out, and begins a session on it.
fn format<B: Bay, S: Formats<B::Dev>>(
    replay: &mut Replay<B::Dev, S>,
    bay: &mut B,
    name: &[u8],
    geometry: Geometry,
) -> Result<Tried, Stop>
    requires replay { IsReplay replay.old }
    requires held { devices_in replay.old ≤ out_of (B.past bay.old) }
    ensures formats { FormatsAs name.now geometry replay.old replay.new (B.past bay.old)
        (B.past bay.new) result }
{
    let alloc = replay.session.alloc;
    let page = make_page(alloc, &geometry)?;
    let device = attach(alloc, bay, name, device_blocks(&geometry))?;
    match S::format(alloc, device, geometry) {
        Ok(cache) => {
            start(replay, bay, Part { cache, page });
            Ok(Tried::Begun)
        }
        Err((fault, device)) => {
            end(replay, bay);
            bay.give_back(device);
            match fault {
                FormatFault::Memory(_) => Err(Stop::Memory),
                FormatFault::Device(count) => Ok(Tried::Refused { count }),
            }
        }
    }
}

// Puts another cache in the place of the session's, and gives the device at hand back.
fn start<B: Bay, S: Formats<B::Dev>>(replay: &mut Replay<B::Dev, S>, bay: &mut B, part: Part<S>)
    requires held { devices_in replay.old ≤ out_of (B.past bay.old) }
    ensures part { replay.new.session.part ≡ Some part }
    ensures bare { replay.new.bare ≡ None }
    ensures slots { (n : ℕ) → slots_in replay.new.session n ≡ None }
    ensures names { actors_in replay.new ≡ actors_in replay.old }
    ensures now { replay.new.session.now ≡ replay.old.session.now }
    ensures gives { GivesBack (returns_in replay.old) (B.past bay.old) (B.past bay.new) }
{
    replay.session.actors.clear();
    let before = mem::replace(&mut replay.session.part, Some(part));
    let bare = mem::replace(&mut replay.bare, None);
    give_back(bay, before, bare);
}
