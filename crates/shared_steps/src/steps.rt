// What takes steps.
ghost use Rattle.std.specs.Prelude.{◌≡◌, ◌↔◌, true, Result};

/// Takes steps one after the other, each with its own answer, up to one that stops it.
pub trait TakesSteps {
    type Step;

    type Answer: Drop;

    /// Why it stops.
    type Stop: Drop;

    /// What holds of it between two steps.
    ghost stands: { Self → Type 0 };

    /// There is room for one step more.
    ghost has_space: { Self → Type 0 };

    /// What a step makes of it, and what comes of the step.
    ghost takes: { Self → Self.Step → Self → Result Self.Answer Self.Stop → Type 0 };

    /// Whether there is room for one step more.
    fn has_space(&self) -> bool
        requires { stands self.now }
        ensures { (result ≡ true) ↔ has_space self.now };

    /// Takes a step, of which nothing is left.
    fn take(&mut self, step: &mut Self::Step) -> Result<Self::Answer, Self::Stop>
        requires stands { stands self.old }
        requires space { has_space self.old }
        ensures stands { stands self.new }
        ensures takes { takes self.old step.old self.new result };
}
