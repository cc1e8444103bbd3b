ghost use Rattle.std.specs.Prelude.{◌≡◌, ◌<◌, ◌++◌, ◌∷◌, length, map, slice_get, IfOk, OnOk};
ghost use Rattle.ilk_ir.specs.Form.{tree_of};
ghost use Rattle.ilk_ir.specs.Tree.{negation};
ghost use Rattle.ilk_plant.specs.declared.network.Dir.TheVariants.{Up, Down};
ghost use Rattle.ilk_invs.specs.Parts as parts;
ghost use Rattle.ilk_invs.specs.TrainFamilies as definitions;

use crate::held::section_retained_by;
use crate::train_families::{body_at, continues_without_board, route_runs_in_direction};
use ilk_ir::Form;
use ilk_layout::negated;
use ilk_plant::{Dir, Plant, contains_section};
use std::alloc::{AllocError, Global};

fn push_keeps_at(
    alloc: Global,
    forms: &mut Vec<Form>,
    plant: &Plant,
    d: Dir,
    x: u32,
    r: u32,
) -> Result<(), AllocError>
    requires { r < length plant.now.routes }
    ensures { OnOk result
        (map tree_of forms.new.items
        ≡ map tree_of forms.old.items
        ++ parts.conditions_for_optional_value (slice_get plant.now.routes r)
        (definitions.route_retains_in_direction plant.now d x r)) }
{
    let route = plant.route(r);
    if route_runs_in_direction(plant, d, route) && contains_section(&route.path, x) {
        forms.push(section_retained_by(alloc, plant, r, route, x)?)?;
    }
    Ok(())
}

fn is_kept_by_some(alloc: Global, plant: &Plant, d: Dir, x: u32) -> Result<Form, AllocError>
    requires { x < length plant.now.sections }
    ensures { IfOk result
        (λ form. tree_of form
        ≡ parts.some_of
        (negation (definitions.body_at plant.now d x)
        ∷ parts.conditions_of_each_route plant.now
        (definitions.route_retains_in_direction plant.now d x))) }
{
    let body = body_at(alloc, plant, d, x)?;
    let mut forms = Vec::new(alloc);
    forms.push(negated(alloc, body)?)?;
    for r in 0..plant.routes() {
        push_keeps_at(alloc, &mut forms, plant, d, x, r)?;
    }
    Ok(Form::Or(forms))
}

fn push_kept_at(
    alloc: Global,
    forms: &mut Vec<Form>,
    plant: &Plant,
    d: Dir,
    x: u32,
) -> Result<(), AllocError>
    requires { x < length plant.now.sections }
    ensures { OnOk result
        (map tree_of forms.new.items
        ≡ map tree_of forms.old.items ++ definitions.body_has_route_set_at plant.now d x) }
{
    if continues_without_board(plant, d, x) {
        forms.push(is_kept_by_some(alloc, plant, d, x)?)?;
    }
    Ok(())
}

fn push_kept(alloc: Global, forms: &mut Vec<Form>, plant: &Plant, x: u32) -> Result<(), AllocError>
    requires { x < length plant.now.sections }
    ensures { OnOk result
        (map tree_of forms.new.items
        ≡ map tree_of forms.old.items
        ++ (definitions.body_has_route_set_at plant.now Up x
        ++ definitions.body_has_route_set_at plant.now Down x)) }
{
    push_kept_at(alloc, forms, plant, Dir::Up, x)?;
    push_kept_at(alloc, forms, plant, Dir::Down, x)
}

/// Returns the form of family V8: if a section of a train's body has a neighbour ahead but no
/// board, some Locked or Occupied route in the train's direction has not released it.
pub(crate) fn v8_bodies_have_routes_form(alloc: Global, plant: &Plant) -> Result<Form, AllocError>
    ensures { IfOk result (λ form. tree_of form ≡
        definitions.v8_bodies_have_routes_tree plant.now) }
{
    let mut forms = Vec::new(alloc);
    for x in 0..plant.sections() {
        push_kept(alloc, &mut forms, plant, x)?;
    }
    Ok(Form::And(forms))
}
