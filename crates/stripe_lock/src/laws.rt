//! What the rule says of a lock's table at each moment, and from one moment to the next.
ghost use Rattle.stripe_lock.specs.Rule.{HomeIsPublished};
ghost use Rattle.stripe_lock.specs.Course.{StepKeepsFloor, FloorNeverFalls};

use crate::kept::KeptState;
use crate::steps::{About, Line};
use crate::view::View;
use atomic_table::TableRule;

impl Line {
    /// While no pass has the state in hand, the words `count` and `floor` are those of its history,
    /// and the state is sound.
    #[tactic(auto, using(crate::proofs::Bounds::home_is_published))]
    pub fn home_is_published<T: KeptState>(about: &About<T>)
        ensures { HomeIsPublished T.KeptState
            (⟦<Line as TableRule<T, View<T::Record>, About<T>>>⟧.holds about.now) }
    {}

    /// The word `floor` does not fall over a step, nor over any number of steps.
    pub fn floor_never_falls<T: KeptState>(about: &About<T>)
        ensures step { StepKeepsFloor T.KeptState
            (⟦<Line as TableRule<T, View<T::Record>, About<T>>>⟧.holds about.now) }
        ensures steps { FloorNeverFalls T.KeptState
            (⟦<Line as TableRule<T, View<T::Record>, About<T>>>⟧.holds about.now) }
    {}
}
