ghost use Rattle.std.specs.Prelude.{◌≡◌, ◌<◌, ◌+◌, ◌++◌, ◌∷◌, [], All, length, map, flat_map, IfOk, OnOk};
ghost use Rattle.ilk_ir.specs.Form.{tree_of};
ghost use Rattle.ilk_ir.specs.Tree.{negation};
ghost use Rattle.ilk_invs.specs.Held as held;
ghost use Rattle.ilk_invs.specs.HoldFamilies as definitions;

use crate::held::{is_in_overlap_or_protecting, section_held_by};
use crate::parts::implication;
use ilk_ir::Form;
use ilk_layout::negated;
use ilk_plant::{Plant, Row, contains_section};
use std::alloc::{AllocError, Global};

/// The greatest number of routes that family V2 compares in order for one section. A longer list is
/// split into halves.
pub(crate) const MAX_ORDERED_HOLDERS: usize = 16;

#[tactic(auto, using(crate::proofs::Sections::sections_of_route))]
fn is_possible_holder(plant: &Plant, x: u32, r: u32) -> bool
    requires { r < length plant.now.routes }
    ensures { result ≡ definitions.is_possible_holder plant.now x r }
{
    let route = plant.route(r);
    contains_section(&route.path, x) || is_in_overlap_or_protecting(route, x)
}

#[tactic(auto, using(crate::proofs::Pushed::all_passing))]
fn possible_holders(alloc: Global, plant: &Plant, x: u32) -> Result<Row<u32>, AllocError>
    ensures possible_holders { IfOk result (λ routes. routes ≡
        definitions.possible_holders plant.now x) }
    ensures known { IfOk result (λ routes. All (λ r. r < length plant.now.routes) routes) }
{
    let mut routes = Row::new(alloc);
    for r in 0..plant.routes() {
        routes.push_if(is_possible_holder(plant, x, r), r)?;
    }
    Ok(routes)
}

fn route_holding(alloc: Global, plant: &Plant, x: u32, r: u32) -> Result<Form, AllocError>
    requires { r < length plant.now.routes }
    ensures { IfOk result (λ form. definitions.route_holding plant.now x r ≡ tree_of form ∷ []) }
{
    section_held_by(alloc, plant, r, plant.route(r), x)
}

fn push_not_holding(
    alloc: Global,
    forms: &mut Vec<Form>,
    plant: &Plant,
    x: u32,
    routes: &[u32],
) -> Result<(), AllocError>
    requires { All (λ r. r < length plant.now.routes) routes.now }
    ensures { OnOk result
        (map tree_of forms.new.items
        ≡ map tree_of forms.old.items
        ++ map negation (flat_map (definitions.route_holding plant.now x) routes.now)) }
{
    for r in routes {
        let holding = route_holding(alloc, plant, x, *r)?;
        forms.push(negated(alloc, holding)?)?;
    }
    Ok(())
}

fn none_holding(alloc: Global, plant: &Plant, x: u32, routes: &[u32]) -> Result<Form, AllocError>
    requires { All (λ r. r < length plant.now.routes) routes.now }
    ensures { IfOk result (λ form. tree_of form ≡ definitions.none_holding plant.now x routes.now) }
{
    let mut forms = Vec::new(alloc);
    push_not_holding(alloc, &mut forms, plant, x, routes)?;
    Ok(Form::And(forms))
}

fn none_before_if_holding(
    alloc: Global,
    plant: &Plant,
    x: u32,
    before: &[u32],
    r: u32,
) -> Result<Form, AllocError>
    requires known { r < length plant.now.routes }
    requires before { All (λ q. q < length plant.now.routes) before.now }
    ensures { IfOk result
        (λ form. tree_of form ≡ definitions.none_before_if_holding plant.now x before.now r) }
{
    let mut held = Vec::new(alloc);
    held.push(route_holding(alloc, plant, x, r)?)?;
    let none = none_holding(alloc, plant, x, before)?;
    implication(alloc, Form::And(held), none)
}

fn push_held_in_order(
    alloc: Global,
    forms: &mut Vec<Form>,
    plant: &Plant,
    x: u32,
    routes: &[u32],
) -> Result<(), AllocError>
    requires { All (λ r. r < length plant.now.routes) routes.now }
    ensures { OnOk result
        (map tree_of forms.new.items
        ≡ map tree_of forms.old.items ++ definitions.at_most_one_in_order plant.now x routes.now) }
{
    for i in 1..routes.len() {
        forms.push(none_before_if_holding(alloc, plant, x, &routes[..i], routes[i])?)?;
    }
    Ok(())
}

fn not_held_by_both_groups(
    alloc: Global,
    plant: &Plant,
    x: u32,
    these: &[u32],
    those: &[u32],
) -> Result<Form, AllocError>
    requires these { All (λ r. r < length plant.now.routes) these.now }
    requires those { All (λ r. r < length plant.now.routes) those.now }
    ensures { IfOk result
        (λ form. tree_of form ≡
        definitions.not_held_by_both_groups plant.now x these.now those.now) }
{
    let mut forms = Vec::new(alloc);
    forms.push(none_holding(alloc, plant, x, these)?)?;
    forms.push(none_holding(alloc, plant, x, those)?)?;
    Ok(Form::Or(forms))
}

fn push_held_by_halves(
    alloc: Global,
    forms: &mut Vec<Form>,
    plant: &Plant,
    x: u32,
    routes: &[u32],
    n: usize,
) -> Result<(), AllocError>
    requires { All (λ r. r < length plant.now.routes) routes.now }
    ensures { OnOk result
        (map tree_of forms.new.items
        ≡ map tree_of forms.old.items
        ++ definitions.at_most_one_by_halves n plant.now x routes.now) }
{
    if n == 0 || routes.len() <= MAX_ORDERED_HOLDERS {
        return push_held_in_order(alloc, forms, plant, x, routes);
    }
    let (first, second) = routes.split_at(routes.len() / 2);
    forms.push(not_held_by_both_groups(alloc, plant, x, first, second)?)?;
    push_held_by_halves(alloc, forms, plant, x, first, n - 1)?;
    push_held_by_halves(alloc, forms, plant, x, second, n - 1)?;
    Ok(())
}

fn push_held_once(
    alloc: Global,
    forms: &mut Vec<Form>,
    plant: &Plant,
    x: u32,
) -> Result<(), AllocError>
    ensures { OnOk result
        (map tree_of forms.new.items
        ≡ map tree_of forms.old.items ++ definitions.at_most_one_holder plant.now x) }
{
    let routes = possible_holders(alloc, plant, x)?;
    let routes = routes.as_slice();
    push_held_by_halves(alloc, forms, plant, x, routes, routes.len())
}

/// Returns the form of family V2: no two routes hold the same section.
pub(crate) fn v2_sections_held_once_form(alloc: Global, plant: &Plant) -> Result<Form, AllocError>
    ensures { IfOk result (λ form. tree_of form ≡
        definitions.v2_sections_held_once_tree plant.now) }
{
    let mut forms = Vec::new(alloc);
    for x in 0..plant.sections() {
        push_held_once(alloc, &mut forms, plant, x)?;
    }
    Ok(Form::And(forms))
}
