// What a law leaves open.

ghost use Rattle.std.specs.Prelude.{⊤};
ghost use Rattle.cache_model.specs.Pair.{Documents};
ghost use Rattle.cache_model.specs.State.{State};
ghost use Rattle.cache_model.specs.Vectors.{AreTold, IsVectorAs};
ghost use Rattle.call_laws.specs.Moments.{NothingKnown, Facts};
ghost use Rattle.call_laws.specs.Serves.{Upshots};

use std::marker::Brand;

/// What a law of calls is about. The law holds whatever these are.
pub trait Promise {
    /// As which documents pieces stand.
    ghost placed: { Documents };

    /// And as which others.
    ghost other_placed: { Documents };

    /// What is known before the first call.
    ghost before: { Facts };

    /// What is known between two calls.
    ghost between: { Facts };

    /// What is known behind the last call.
    ghost known: { Facts };

    /// What is known besides.
    ghost more: { Facts };

    /// What each group of records keeps.
    ghost is_so: { State → Type 0 };

    /// What comes of one call.
    ghost first: { Upshots };

    /// What comes of the next one.
    ghost last: { Upshots };

    /// What comes of both.
    ghost both: { Upshots };
}

/// The words of `Serves`. A proof that calls a law at `Brand` may pick others.
impl Promise for Brand {
    ghost placed = { IsVectorAs };

    ghost other_placed = { IsVectorAs };

    ghost before = { AreTold };

    ghost between = { AreTold };

    ghost known = { AreTold };

    ghost more = { NothingKnown };

    ghost is_so = { AreTold };

    ghost first = { λ c. ⊤ };

    ghost last = { λ c. ⊤ };

    ghost both = { λ c. ⊤ };
}
