// The jobs of workers, as lines ask for them.
ghost use Rattle.std.specs.Prelude.{◌≡◌, ◌-◌, ◌<◌, ◌≤◌, true, None, Some, Option, IfOk, OnOk, map, vec_len};
ghost use Rattle.shared_session.specs.Steps.{is_on_session};
ghost use Rattle.job_lines.specs.Asked.{lanes_in};
ghost use Rattle.job_lines.specs.Lanes.{AreBlank, lane_of, or_first, with_job};
ghost use Rattle.job_lines.specs.Owned.{own_step};

use crate::owned::own_step;
use script_grammar::Step;
use shared_session::JobStep;
use shared_steps::StepJob;
use std::alloc::{AllocError, Global};

/// What the lines behind `split` ask for.
#[derive(Drop)]
pub struct Asked {
    /// The jobs of each worker, in their order.
    pub lanes: Vec<Vec<StepJob<JobStep>>>,
    /// The line of the first job of all.
    pub first: Option<u64>,
}

// No job, for each of so many workers.
fn blank(alloc: Global, workers: u32) -> Result<Vec<Vec<StepJob<JobStep>>>, AllocError>
    ensures width { IfOk result (λ lanes. vec_len lanes ≡ workers) }
    ensures blank { IfOk result (λ lanes. AreBlank (map lane_of (map (λ lane. lane.items) lanes.items))) }
{
    let mut lanes = Vec::new(alloc);
    for _ in 0..workers {
        lanes.push(Vec::new(alloc))?;
    }
    Ok(lanes)
}

// One job more, of the worker at this place.
fn give(
    lanes: &mut Vec<Vec<StepJob<JobStep>>>,
    place: usize,
    step: JobStep,
) -> Result<(), AllocError>
    requires { place < vec_len lanes.old }
    ensures job { OnOk result (map lane_of (map (λ lane. lane.items) lanes.new.items)
        ≡ with_job place step.step (map lane_of (map (λ lane. lane.items) lanes.old.items))) }
    ensures width { vec_len lanes.new ≡ vec_len lanes.old }
{
    let lane = &mut lanes[place];
    let number = lane.len() as u64 + 1;
    lane.push(StepJob { number, step })?;
    Ok(())
}

impl Asked {
    /// Nothing, of so many workers.
    pub(crate) fn new(alloc: Global, workers: u32) -> Result<Asked, AllocError>
        ensures width { IfOk result (λ asked. vec_len asked.lanes ≡ workers) }
        ensures blank { IfOk result (λ asked. AreBlank (lanes_in asked)) }
        ensures first { IfOk result (λ asked. asked.first ≡ None) }
    {
        let lanes = blank(alloc, workers)?;
        Ok(Asked { lanes, first: None })
    }

    /// Takes in the job of a line.
    pub(crate) fn add(
        &mut self,
        alloc: Global,
        worker: u32,
        step: Step,
        line: u64,
    ) -> Result<(), AllocError>
        requires worker { (1 ≤ worker) × (worker ≤ vec_len self.old.lanes) }
        requires few { vec_len self.old.lanes < 256 }
        requires step { is_on_session step ≡ true }
        ensures job { OnOk result
            (lanes_in self.new ≡ with_job (worker - 1) (own_step worker step) (lanes_in self.old)) }
        ensures first { OnOk result (self.new.first ≡ or_first self.old.first line) }
        ensures width { vec_len self.new.lanes ≡ vec_len self.old.lanes }
    {
        let own = own_step(alloc, worker, step)?;
        let Some(job) = JobStep::new(own) else {
            unreachable!()
        };
        give(&mut self.lanes, worker as usize - 1, job)?;
        if self.first.is_none() {
            self.first = Some(line);
        }
        Ok(())
    }
}
