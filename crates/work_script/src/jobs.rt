// The jobs of workers, on a session.
ghost use Rattle.std.specs.Prelude.{◌≡◌, ◌<◌, IfSome, map, vec_len};
ghost use Rattle.cache_replay.specs.Replay.{IsReplay, devices_in, returns_in};
ghost use Rattle.cache_replay.specs.Session.{AreLater, IsSession, devices_of, return_in};
ghost use Rattle.job_lines.specs.Lanes.{lane_of};
ghost use Rattle.work_script.specs.Jobs.{AreWorkers};
ghost use Rattle.work_script.specs.Taking.{AreUnder, TakesTurns};
ghost use Rattle.work_script.specs.Turns.{AreSaid, turns_in};

use crate::turns::{Row, are_said};
use cache_calls::Calls;
use cache_replay::{Replay, Session};
use lock_workers::Gate;
use logged_disk::Disk;
use shared_session::{JobStep, SharedSession, share_session};
use shared_steps::{Answered, StepJob};
use std::alloc::Global;
use std::sync::Wait;
use std::thread::Threads;

/// Lets workers do their jobs on a session, each as a turn; the turns are there where there was
/// memory for all of them.
fn do_jobs<
    V: Drop + Send,
    R: Drop + Send,
    C: Calls<Writer = V, Reader = R> + Send,
    H: Threads + Wait + Sync,
    G: Gate + Sync,
>(
    rt: &H,
    alloc: Global,
    session: Session<C>,
    lanes: Vec<Vec<StepJob<JobStep>>>,
    gate: &G,
) -> (Session<C>, Option<Vec<Row>>)
    requires session { IsSession session }
    requires few { vec_len lanes < 64 }
    ensures takes { IfSome result.1 (λ rows. TakesTurns session (turns_in rows.items) result.0) }
    ensures said { IfSome result.1 (λ rows. AreSaid rows.items) }
    ensures order { IfSome result.1 (λ rows.
        AreUnder 1 (map lane_of (map (λ lane. lane.items) lanes.items)) (turns_in rows.items)) }
    ensures workers { IfSome result.1 (λ rows. AreWorkers (vec_len lanes) (turns_in rows.items)) }
    ensures session { IsSession result.0 }
    ensures device { AreLater (return_in session) (return_in result.0) }
    ensures devices { devices_of result.0 ≡ devices_of session }
{
    match share_session(rt, alloc, SharedSession { session }, lanes, gate) {
        Ok(Answered { state, rows, short }) => {
            let SharedSession { session } = state;
            if short || !are_said(&rows) {
                return (session, None);
            }
            (session, Some(rows))
        }
        Err((_, shared)) => {
            let SharedSession { session } = shared;
            (session, None)
        }
    }
}

/// Lets workers do their jobs on the session of a replay, as `do_jobs` does.
pub(crate) fn do_jobs_beside<
    D: Disk,
    V: Drop + Send,
    R: Drop + Send,
    C: Calls<Writer = V, Reader = R> + Send,
    H: Threads + Wait + Sync,
    G: Gate + Sync,
>(
    rt: &H,
    alloc: Global,
    replay: Replay<D, C>,
    lanes: Vec<Vec<StepJob<JobStep>>>,
    gate: &G,
) -> (Replay<D, C>, Option<Vec<Row>>)
    requires replay { IsReplay replay }
    requires few { vec_len lanes < 64 }
    ensures takes { IfSome result.1 (λ rows.
        TakesTurns replay.session (turns_in rows.items) result.0.session) }
    ensures bare { result.0.bare ≡ replay.bare }
    ensures said { IfSome result.1 (λ rows. AreSaid rows.items) }
    ensures order { IfSome result.1 (λ rows.
        AreUnder 1 (map lane_of (map (λ lane. lane.items) lanes.items)) (turns_in rows.items)) }
    ensures workers { IfSome result.1 (λ rows. AreWorkers (vec_len lanes) (turns_in rows.items)) }
    ensures replay { IsReplay result.0 }
    ensures device { AreLater (returns_in replay) (returns_in result.0) }
    ensures devices { devices_in result.0 ≡ devices_in replay }
{
    let (session, bare) = replay.into_parts();
    let (session, rows) = do_jobs(rt, alloc, session, lanes, gate);
    (Replay::of_parts(session, bare), rows)
}
