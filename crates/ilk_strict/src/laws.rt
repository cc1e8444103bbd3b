//! Theorems, each the contract of a function with an empty body.
ghost use Rattle.std.specs.Prelude.{◌≡◌, List, [], Some};
ghost use Rattle.ilk_plant.specs.ColumnRules.{column_rules_broken};
ghost use Rattle.ilk_plant.specs.Start.{start};
ghost use Rattle.ilk_plant.specs.declared.state.State.{State};
ghost use Rattle.ilk_model.specs.Event.{next};
ghost use Rattle.ilk_model.specs.Meets.{Meets};
ghost use Rattle.ilk_model.specs.Run.{run};
ghost use Rattle.ilk_model.specs.declared.event.Event.{Event};
ghost use Rattle.ilk_strict.specs.IsStrict.{IsStrict, KeepsPathRules};

use ilk_plant::Plant;

/// A table is strict if it keeps C1, C7, the part of C2 about the end of a path, and the part of C3
/// about the path. A path then ends at a board or at the track's end. The table may break C4, C5,
/// C6 and C8, and the other parts of C2 (destinations, boards inside a path) and of C3 (overlaps).
/// Proof only; no run-time effect.
#[tactic(auto, using(crate::proofs::Strict::strict_from_rules))]
pub fn path_rules_imply_strict(plant: &Plant)
    requires { KeepsPathRules plant.now }
    ensures { IsStrict plant.now }
{}

/// A table that breaks no column rule is strict. Proof only; no run-time effect.
#[tactic(auto, using(crate::proofs::Strict::strict_from_list))]
pub fn clean_is_strict(plant: &Plant)
    requires { column_rules_broken plant.now ≡ [] }
    ensures { IsStrict plant.now }
{}

/// A plant with a strict table is safe. The initial state meets the invariant, and each event keeps
/// it. So every run from the initial state, of any length, ends in a state that meets the
/// invariant. Proof only; no run-time effect.
pub fn strict_is_safe(plant: &Plant)
    requires { IsStrict plant.now }
    ensures start { Meets plant.now (start plant.now) }
    ensures step { (s t : State) (event : Event) → Meets plant.now s →
        next plant.now s event ≡ Some t → Meets plant.now t }
    ensures runs { (events : List Event) (t : State) →
        run plant.now (start plant.now) events ≡ Some t → Meets plant.now t }
{
    plant.prove_is_plant();
}

/// A plant is safe if its table keeps C1, C7, the part of C2 about the end of a path, and the part
/// of C3 about the path. Every run from the initial state, of any length, then ends in a state that
/// meets the invariant. Proof only; no run-time effect.
pub fn path_rules_imply_safe(plant: &Plant)
    requires { KeepsPathRules plant.now }
    ensures { (events : List Event) (t : State) → run plant.now (start plant.now) events ≡ Some t
        → Meets plant.now t }
{
    path_rules_imply_strict(plant);
    strict_is_safe(plant);
}
