// A step that needs no bay.
ghost use Rattle.std.specs.Prelude.{◌≡◌, ◌↔◌, true, IfSome, IsSome};
ghost use Rattle.shared_session.specs.Steps.{is_on_session};

use script_grammar::Step;

/// A step that works on a session.
#[derive(Drop)]
pub struct JobStep {
    pub step: Step,
    ghost needs: { is_on_session step ≡ true },
}

impl JobStep {
    /// A step as a job, where it works on a session: a format, a moment and a line for the switch of a
    /// device do not.
    pub fn new(step: Step) -> Option<JobStep>
        ensures step { IfSome result (λ job. job.step ≡ step) }
        ensures when { IsSome result ↔ (is_on_session step ≡ true) }
    {
        match step {
            Step::Format { .. }
            | Step::Now { .. }
            | Step::Fail { .. }
            | Step::StopAfter { .. }
            | Step::Flip { .. }
            | Step::Cut { .. } => None,
            other => Some(JobStep { step: other }),
        }
    }
}
