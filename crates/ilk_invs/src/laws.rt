ghost use Rattle.std.specs.Prelude.{◌≡◌, ℕ, true};
ghost use Rattle.ilk_ir.specs.Tree.{tree_valid};
ghost use Rattle.ilk_layout.specs.Variables.{ranges_of_plant};
ghost use Rattle.ilk_invs.specs.FamilyTrees.{family_tree};
ghost use Rattle.ilk_invs.specs.Laws.{TreeMeansFamily};

use ilk_plant::Plant;

/// The form of each family holds for the image of a well-formed state without hazard if and only if
/// the state keeps the family. Proof only; no run-time effect.
pub fn family_forms_are_correct(plant: &Plant)
    ensures { (j : ℕ) → TreeMeansFamily plant.now j (family_tree plant.now j) }
{
    plant.prove_is_plant();
    plant.prove_sound_acyclic_drafts();
}

/// The form of each family is valid over the ranges of the plant's variables. Proof only; no
/// run-time effect.
pub fn family_forms_are_valid(plant: &Plant)
    ensures { (j : ℕ) → tree_valid (ranges_of_plant plant.now) (family_tree plant.now j) ≡ true }
{
    plant.prove_is_plant();
}
