ghost use Rattle.std.specs.Prelude.{◌≡◌};
ghost use Rattle.ilk_unroll.specs.Goal.{query_step_count};

use ilk_ir::{Form, Forms};

/// A query: the kind of run that it asks for, with the number of steps.
#[derive(Clone, Copy)]
pub enum Wanted {
    /// A run from the start to a hazard, through values of hazard-free states.
    Hazard(u32),
    /// A run from the start, through values of hazard-free states, to such values that break a
    /// family of the invariant.
    Breach(u32),
    /// A counterexample to induction: a run from anywhere, through values of hazard-free states
    /// that keep all families, to a hazard or to values that break a family.
    Step(u32),
}

impl Wanted {
    /// Returns the number of steps of the run.
    pub fn steps(self) -> u32
        ensures { result ≡ query_step_count self }
    {
        match self {
            Wanted::Hazard(n) => n,
            Wanted::Breach(n) => n,
            Wanted::Step(n) => n,
        }
    }
}

/// The forms over a system's values that queries use.
#[derive(Drop)]
pub struct Goal {
    /// Holds for the values at the start.
    pub start: Form,
    /// Holds for values with a hazard.
    pub hazard: Form,
    /// Holds for values that are those of a state without hazard.
    pub wellformed: Form,
    /// For each family of the invariant, a form that holds for values that keep it.
    pub families: Forms,
}
