ghost use Rattle.std.specs.Prelude.{◌≡◌, IfOk, OnOk, OnErr, is_some, unwrap_or};
ghost use Rattle.ilk_plant.specs.Start.{start};
ghost use Rattle.ilk_model.specs.Event.{next};
ghost use Rattle.ilk_model.specs.Meets.{Meets};
ghost use Rattle.ilk_strict.specs.IsStrict.{IsStrict};

use ilk_model::{Event, apply, start};
use ilk_plant::{Plant, State};
use std::alloc::{AllocError, Global};

/// Returns the initial state of `plant`, which meets the invariant. Fails only if memory runs out.
#[tactic(auto, using(crate::proofs::Invariant::begun_meets))]
pub fn begin(alloc: Global, plant: &Plant) -> Result<State, AllocError>
    ensures start { IfOk result (λ s. s ≡ start plant.now) }
    ensures meets { IfOk result (Meets plant.now) }
{
    start(alloc, plant)
}

/// Executes event `e` if it is enabled, for a strict table and a state that meets the invariant.
/// Returns whether it was enabled. On `false`, or if memory runs out, the state is unchanged.
/// Afterwards the state meets the invariant.
#[tactic(auto, using(crate::proofs::Invariant::advanced_meets))]
pub fn advance(alloc: Global, plant: &Plant, s: &mut State, e: Event) -> Result<bool, AllocError>
    requires strict { IsStrict plant.now }
    requires meets { Meets plant.now s.old }
    ensures answer { IfOk result (λ enabled. enabled ≡ is_some (next plant.now s.old e)) }
    ensures next { OnOk result (s.new ≡ unwrap_or (next plant.now s.old e) s.old) }
    ensures err { OnErr result (s.new ≡ s.old) }
    ensures meets { Meets plant.now s.new }
{
    plant.prove_is_plant();
    apply(alloc, plant, s, e)
}
