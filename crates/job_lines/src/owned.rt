// The steps of workers, whose actors are their own.
ghost use Rattle.std.specs.Prelude.{◌≡◌, ◌<◌, IfOk};
ghost use Rattle.job_lines.specs.Owned.{own_name, own_step};

use script_grammar::{ByteList, Step};
use std::alloc::{AllocError, Global};

fn own_name(alloc: Global, worker: u32, name: &ByteList) -> Result<ByteList, AllocError>
    requires { worker < 256 }
    ensures { IfOk result (λ own. own ≡ own_name worker name.now) }
{
    let mut bytes = Vec::new(alloc);
    bytes.push(worker as u8)?;
    bytes.extend_from_slice(name.bytes())?;
    Ok(ByteList::new(bytes))
}

/// The step of a worker, whose number stands before its actor's name.
pub(crate) fn own_step(alloc: Global, worker: u32, step: Step) -> Result<Step, AllocError>
    requires { worker < 256 }
    ensures { IfOk result (λ own. own ≡ own_step worker step) }
{
    match step {
        Step::OpenWrite {
            actor,
            object,
            pin,
            request,
            response,
        } => Ok(Step::OpenWrite {
            actor: own_name(alloc, worker, &actor)?,
            object,
            pin,
            request,
            response,
        }),
        Step::Feed { actor, body } => Ok(Step::Feed {
            actor: own_name(alloc, worker, &actor)?,
            body,
        }),
        Step::Close { actor } => Ok(Step::Close {
            actor: own_name(alloc, worker, &actor)?,
        }),
        Step::Abort { actor } => Ok(Step::Abort {
            actor: own_name(alloc, worker, &actor)?,
        }),
        Step::OpenRead {
            actor,
            object,
            request,
        } => Ok(Step::OpenRead {
            actor: own_name(alloc, worker, &actor)?,
            object,
            request,
        }),
        Step::Next { actor } => Ok(Step::Next {
            actor: own_name(alloc, worker, &actor)?,
        }),
        Step::Done { actor } => Ok(Step::Done {
            actor: own_name(alloc, worker, &actor)?,
        }),
        other => Ok(other),
    }
}
