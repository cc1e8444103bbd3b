ghost use Rattle.std.specs.Prelude.{◌≡◌, ◌≤◌, map, true, IfOk};
ghost use Rattle.ilk_ir.specs.Form.{tree_of};
ghost use Rattle.ilk_ir.specs.Tree.{tree_valid};
ghost use Rattle.ilk_layout.specs.Variables.{ranges_of_plant};
ghost use Rattle.ilk_invs.specs.FamilyTrees as definitions;
ghost use Rattle.ilk_invs.specs.Laws.{TreeMeansFamily};

use crate::hold_family::v2_sections_held_once_form;
use crate::kept_family::v8_bodies_have_routes_form;
use crate::lock_family::v3_locks_match_routes_form;
use crate::point_family::v6_points_match_modes_form;
use crate::route_families::{
    v1_consistent_counts_form, v4_allocating_paths_vacant_form, v5_open_needs_locked_form,
    v9_protecting_boards_closed_form,
};
use crate::train_families::v7_heads_have_routes_form;
use ilk_ir::{Form, Forms};
use ilk_plant::{Plant, Row};
use std::alloc::{AllocError, Global};

fn form_of(alloc: Global, plant: &Plant, j: u8) -> Result<Form, AllocError>
    requires first { 1 ≤ j }
    requires last { j ≤ 9 }
    ensures { IfOk result (λ form. tree_of form ≡ definitions.family_tree plant.now j) }
{
    match j {
        1 => v1_consistent_counts_form(alloc, plant),
        2 => v2_sections_held_once_form(alloc, plant),
        3 => v3_locks_match_routes_form(alloc, plant),
        4 => v4_allocating_paths_vacant_form(alloc, plant),
        5 => v5_open_needs_locked_form(alloc, plant),
        6 => v6_points_match_modes_form(alloc, plant),
        7 => v7_heads_have_routes_form(alloc, plant),
        8 => v8_bodies_have_routes_form(alloc, plant),
        _ => v9_protecting_boards_closed_form(alloc, plant),
    }
}

/// Returns the form of family V`j` of the invariant, for `j` from 1 to 9. Fails only if memory runs
/// out.
pub fn family_form(alloc: Global, plant: &Plant, j: u8) -> Result<Form, AllocError>
    requires first { 1 ≤ j }
    requires last { j ≤ 9 }
    ensures tree { IfOk result (λ form. tree_of form ≡ definitions.family_tree plant.now j) }

    ensures kept { IfOk result (λ form. TreeMeansFamily plant.now j (tree_of form)) }
    ensures valid { IfOk result
        (λ form. tree_valid (ranges_of_plant plant.now) (tree_of form) ≡ true) }
{
    plant.prove_is_plant();
    plant.prove_sound_acyclic_drafts();
    let form = form_of(alloc, plant, j)?;
    Ok(form)
}

/// Returns the forms of all nine families of the invariant, in order. Fails only if memory runs
/// out.
pub fn family_forms(alloc: Global, plant: &Plant) -> Result<Forms, AllocError>
    ensures { IfOk result (λ forms. map tree_of forms ≡ definitions.family_trees plant.now) }
{
    let mut forms = Row::new(alloc);
    forms.push(family_form(alloc, plant, 1)?)?;
    forms.push(family_form(alloc, plant, 2)?)?;
    forms.push(family_form(alloc, plant, 3)?)?;
    forms.push(family_form(alloc, plant, 4)?)?;
    forms.push(family_form(alloc, plant, 5)?)?;
    forms.push(family_form(alloc, plant, 6)?)?;
    forms.push(family_form(alloc, plant, 7)?)?;
    forms.push(family_form(alloc, plant, 8)?)?;
    forms.push(family_form(alloc, plant, 9)?)?;
    Ok(forms)
}
