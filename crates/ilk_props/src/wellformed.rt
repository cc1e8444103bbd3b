ghost use Rattle.std.specs.Prelude.{◌≡◌, ◌<◌, ◌++◌, length, map, option_to_list, slice_get, IfOk, OnOk};
ghost use Rattle.ilk_ir.specs.Form.{tree_of};
ghost use Rattle.ilk_ir.specs.Tree.{any_of, trees_from_list};
ghost use Rattle.ilk_plant.specs.NetworkRules.{opposite_direction};
ghost use Rattle.ilk_plant.specs.Plant.{next_to};
ghost use Rattle.ilk_props.specs.Laws.{WellformedMeansHazardFreeImage, WellformedTreeIsCorrect, IsValidOverPlant};
ghost use Rattle.ilk_props.specs.WellformedForm as forms;

use crate::hazard::hazard_in_section;
use ilk_ir::Form;
use ilk_layout::{Occupancy, negated, occupancy_is, section_point_is_detected, train_at};
use ilk_plant::{Dir, Lie, Plant, Section};
use std::alloc::{AllocError, Global};

fn opposite(d: Dir) -> Dir
    ensures { result ≡ opposite_direction d }
{
    match d {
        Dir::Up => Dir::Down,
        Dir::Down => Dir::Up,
    }
}

fn implies(alloc: Global, condition: Form, consequence: Form) -> Result<Form, AllocError>
    ensures { IfOk result
        (λ made. tree_of made ≡ forms.implies (tree_of condition) (tree_of consequence)) }
{
    let mut either = Vec::new(alloc);
    either.push(negated(alloc, condition)?)?;
    either.push(consequence)?;
    Ok(Form::Or(either))
}

fn goes_on_at(alloc: Global, plant: &Plant, x: u32, d: Dir, side: Dir) -> Result<Form, AllocError>
    requires { x < length plant.now.sections }
    ensures { IfOk result (λ made. tree_of made ≡ forms.continues_beyond plant.now x d side) }
{
    let within = Occupancy::Taken {
        dir: d,
        tail: false,
        head: false,
    };
    let end = Occupancy::Taken {
        dir: d,
        tail: side == d,
        head: side != d,
    };
    let mut either = Vec::new(alloc);
    either.push(occupancy_is(plant, x, within))?;
    either.push(occupancy_is(plant, x, end))?;
    Ok(Form::Or(either))
}

fn leads_by_lie(plant: &Plant, x: u32, side: Dir, y: u32) -> Form
    requires { x < length plant.now.sections }
    ensures { tree_of result ≡ forms.track_leads_to_neighbour plant.now x side y }
{
    match *plant.section(x) {
        Section::Linear { .. } => Form::Yes,
        Section::Point { plus, faces, .. } => {
            if faces == side {
                section_point_is_detected(plant, x, if plus == y { Lie::Plus } else { Lie::Minus })
            } else {
                Form::Yes
            }
        }
    }
}

fn joined_by_train(
    alloc: Global,
    plant: &Plant,
    x: u32,
    d: Dir,
    side: Dir,
    y: u32,
) -> Result<Form, AllocError>
    requires here { x < length plant.now.sections }
    requires there { y < length plant.now.sections }
    ensures { IfOk result (λ made. tree_of made ≡ forms.joined_by_train plant.now x d side y) }
{
    let back = opposite(side);
    let mut each = Vec::new(alloc);
    each.push(leads_by_lie(plant, x, side, y))?;
    each.push(leads_by_lie(plant, y, back, x))?;
    each.push(goes_on_at(alloc, plant, y, d, back)?)?;
    Ok(Form::And(each))
}

fn push_neighbour_has_train(
    alloc: Global,
    some: &mut Vec<Form>,
    plant: &Plant,
    x: u32,
    d: Dir,
    side: Dir,
    i: u32,
) -> Result<(), AllocError>
    requires { x < length plant.now.sections }
    ensures { OnOk result
        (map tree_of some.new.items
        ≡ map tree_of some.old.items
        ++ map (forms.joined_by_train plant.now x d side)
        (option_to_list (slice_get (next_to plant.now x side) i))) }
{
    if let Some(y) = plant.neighbour(x, side, i) {
        some.push(joined_by_train(alloc, plant, x, d, side, y)?)?;
    }
    Ok(())
}

// Returns the condition that some neighbour of `x` on this side has the train in direction `d` that
// is at `x`.
fn next_has_train(
    alloc: Global,
    plant: &Plant,
    x: u32,
    d: Dir,
    side: Dir,
) -> Result<Form, AllocError>
    requires { x < length plant.now.sections }
    ensures { IfOk result
        (λ made. tree_of made
        ≡ any_of
        (trees_from_list
        (map (forms.joined_by_train plant.now x d side) (next_to plant.now x side)))) }
{
    let mut some = Vec::new(alloc);
    for i in 0..2 {
        push_neighbour_has_train(alloc, &mut some, plant, x, d, side, i)?;
    }
    Ok(Form::Or(some))
}

fn neighbour_has_train_if_continuing(
    alloc: Global,
    plant: &Plant,
    x: u32,
    d: Dir,
    side: Dir,
) -> Result<Form, AllocError>
    requires { x < length plant.now.sections }
    ensures { IfOk result (λ made. tree_of made ≡
        forms.neighbour_has_train_if_continuing plant.now x d side) }
{
    let goes_on = goes_on_at(alloc, plant, x, d, side)?;
    let next = next_has_train(alloc, plant, x, d, side)?;
    implies(alloc, goes_on, next)
}

fn no_moving_under_train(alloc: Global, plant: &Plant, x: u32) -> Result<Form, AllocError>
    requires { x < length plant.now.sections }
    ensures { IfOk result (λ made. tree_of made ≡ forms.no_moving_under_train plant.now x) }
{
    let train = train_at(alloc, plant, x)?;
    let still = negated(alloc, section_point_is_detected(plant, x, Lie::Moving))?;
    implies(alloc, train, still)
}

fn push_own_demands(
    alloc: Global,
    demands: &mut Vec<Form>,
    plant: &Plant,
    x: u32,
) -> Result<(), AllocError>
    requires { x < length plant.now.sections }
    ensures { OnOk result
        (map tree_of demands.new.items
        ≡ map tree_of demands.old.items ++ forms.no_hazard_or_moving_point plant.now x) }
{
    demands.push(negated(alloc, hazard_in_section(plant, x))?)?;
    demands.push(no_moving_under_train(alloc, plant, x)?)?;
    Ok(())
}

fn push_train_demands(
    alloc: Global,
    demands: &mut Vec<Form>,
    plant: &Plant,
    x: u32,
    d: Dir,
) -> Result<(), AllocError>
    requires { x < length plant.now.sections }
    ensures { OnOk result
        (map tree_of demands.new.items
        ≡ map tree_of demands.old.items
        ++ forms.neighbours_have_train_if_continuing plant.now x d) }
{
    demands.push(neighbour_has_train_if_continuing(alloc, plant, x, d, Dir::Up)?)?;
    demands.push(neighbour_has_train_if_continuing(alloc, plant, x, d, Dir::Down)?)?;
    Ok(())
}

fn push_section_demands(
    alloc: Global,
    demands: &mut Vec<Form>,
    plant: &Plant,
    x: u32,
) -> Result<(), AllocError>
    requires { x < length plant.now.sections }
    ensures { OnOk result
        (map tree_of demands.new.items
        ≡ map tree_of demands.old.items ++ forms.section_demands plant.now x) }
{
    push_own_demands(alloc, demands, plant, x)?;
    push_train_demands(alloc, demands, plant, x, Dir::Up)?;
    push_train_demands(alloc, demands, plant, x, Dir::Down)?;
    Ok(())
}

fn all_demands(alloc: Global, plant: &Plant) -> Result<Form, AllocError>
    ensures { IfOk result (λ form. tree_of form ≡ forms.wellformed_tree plant.now) }
{
    let mut demands = Vec::new(alloc);
    for x in 0..plant.sections() {
        push_section_demands(alloc, &mut demands, plant, x)?;
    }
    Ok(Form::And(demands))
}

/// Returns the form "the values are the image of a well-formed state without hazard" over the
/// plant's variables: a condition on each section and its neighbours. Fails only if memory runs
/// out.
pub fn wellformed_form(alloc: Global, plant: &Plant) -> Result<Form, AllocError>
    ensures form { IfOk result (λ form. tree_of form ≡ forms.wellformed_tree plant.now) }

    ensures valid { IsValidOverPlant plant.now (forms.wellformed_tree plant.now) }

    ensures wellformed { WellformedTreeIsCorrect plant.now }

    ensures images { WellformedMeansHazardFreeImage plant.now }
{
    plant.prove_is_plant();
    plant.prove_sound_acyclic_drafts();
    all_demands(alloc, plant)
}
