ghost use Rattle.std.specs.Prelude.{◌≡◌, ◌<◌, ◌++◌, ◌∷◌, [], Some, true, false, length, map, flat_map, slice_get, IfOk, OnOk};
ghost use Rattle.std.specs.Option.{option_to_list};
ghost use Rattle.ilk_ir.specs.Form.{tree_of};
ghost use Rattle.ilk_ir.specs.System.{plain_rule};
ghost use Rattle.ilk_ir.specs.Tree.{any_of, negation, trees_from_list};
ghost use Rattle.ilk_plant.specs.Plant.{next_to};
ghost use Rattle.ilk_layout.specs.declared.values.Occupancy.TheVariants.{Crash, Taken};
ghost use Rattle.ilk_behave.specs.Settings as settings;
ghost use Rattle.ilk_behave.specs.TrainRules as definitions;

use crate::guards::{
    push_board_open_if_any, push_is_wrong_from, push_leg_set_if_facing, push_not_wrong_from,
};
use crate::settings::{push_close_board_if_any, push_rule, set_occupancy};
use ilk_ir::{Form, Rules, Sets};
use ilk_layout::{Occupancy, no_train_at, occupancy_is, train_at};
use ilk_plant::{Dir, Plant, Row};
use std::alloc::{AllocError, Global};

fn may_go_on(
    alloc: Global,
    plant: &Plant,
    x: u32,
    d: Dir,
    y: u32,
    tail: bool,
) -> Result<Vec<Form>, AllocError>
    requires { x < length plant.now.sections }
    ensures { IfOk result
        (λ forms. map tree_of forms.items ≡ definitions.head_move_conditions plant.now x d y tail) }
{
    let train = Occupancy::Taken {
        dir: d,
        tail,
        head: true,
    };
    let mut forms = Vec::new(alloc);
    forms.push(occupancy_is(plant, x, train))?;
    push_board_open_if_any(&mut forms, plant, x, d)?;
    push_leg_set_if_facing(&mut forms, plant, x, d, y)?;
    Ok(forms)
}

fn gone_on(
    alloc: Global,
    plant: &Plant,
    x: u32,
    d: Dir,
    y: u32,
    tail: bool,
    there: Occupancy,
) -> Result<Sets, AllocError>
    requires here { x < length plant.now.sections }
    requires ahead { y < length plant.now.sections }
    ensures { IfOk result (λ sets. sets ≡
        definitions.head_move_settings plant.now x d y tail there) }
{
    let left = Occupancy::Taken {
        dir: d,
        tail,
        head: false,
    };
    let mut sets = Row::new(alloc);
    sets.push(set_occupancy(plant, x, left))?;
    sets.push(set_occupancy(plant, y, there))?;
    push_close_board_if_any(&mut sets, plant, x, d)?;
    Ok(sets)
}

// Adds the condition that a train from `x` in direction `d` causes no hazard on `y`.
fn push_free_from(
    alloc: Global,
    forms: &mut Vec<Form>,
    plant: &Plant,
    x: u32,
    d: Dir,
    y: u32,
) -> Result<(), AllocError>
    requires { y < length plant.now.sections }
    ensures { OnOk result
        (map tree_of forms.new.items
        ≡ map tree_of forms.old.items ++ definitions.no_hazard_for_train plant.now x d y) }
{
    forms.push(no_train_at(plant, y))?;
    push_not_wrong_from(alloc, forms, plant, x, d, y)
}

fn not_free_from(alloc: Global, plant: &Plant, x: u32, d: Dir, y: u32) -> Result<Form, AllocError>
    requires { y < length plant.now.sections }
    ensures { IfOk result
        (λ form. tree_of form
        ≡ any_of (trees_from_list
        (map negation (definitions.no_hazard_for_train plant.now x d y)))) }
{
    let mut forms = Vec::new(alloc);
    forms.push(train_at(alloc, plant, y)?)?;
    push_is_wrong_from(alloc, &mut forms, plant, x, d, y)?;
    Ok(Form::Or(forms))
}

fn push_head_free(
    alloc: Global,
    rules: &mut Rules,
    plant: &Plant,
    x: u32,
    d: Dir,
    y: u32,
    tail: bool,
) -> Result<(), AllocError>
    requires here { x < length plant.now.sections }
    requires there { y < length plant.now.sections }
    ensures { OnOk result
        (map plain_rule rules.new
        ≡ map plain_rule rules.old
        ++ settings.rule
        (definitions.head_move_conditions plant.now x d y tail
        ++ definitions.no_hazard_for_train plant.now x d y)
        (definitions.head_move_settings plant.now x d y tail (Taken d false true)) ∷ []) }
{
    let mut forms = may_go_on(alloc, plant, x, d, y, tail)?;
    push_free_from(alloc, &mut forms, plant, x, d, y)?;
    let there = Occupancy::Taken {
        dir: d,
        tail: false,
        head: true,
    };
    let sets = gone_on(alloc, plant, x, d, y, tail, there)?;
    push_rule(rules, forms, sets)
}

fn push_head_crash(
    alloc: Global,
    rules: &mut Rules,
    plant: &Plant,
    x: u32,
    d: Dir,
    y: u32,
    tail: bool,
) -> Result<(), AllocError>
    requires here { x < length plant.now.sections }
    requires there { y < length plant.now.sections }
    ensures { OnOk result
        (map plain_rule rules.new
        ≡ map plain_rule rules.old
        ++ settings.rule
        (definitions.head_move_conditions plant.now x d y tail
        ++ any_of (trees_from_list (map negation (definitions.no_hazard_for_train plant.now x d y)))
        ∷ [])
        (definitions.head_move_settings plant.now x d y tail Crash) ∷ []) }
{
    let mut forms = may_go_on(alloc, plant, x, d, y, tail)?;
    forms.push(not_free_from(alloc, plant, x, d, y)?)?;
    let sets = gone_on(alloc, plant, x, d, y, tail, Occupancy::Crash)?;
    push_rule(rules, forms, sets)
}

fn push_head_to(
    alloc: Global,
    rules: &mut Rules,
    plant: &Plant,
    x: u32,
    d: Dir,
    y: u32,
) -> Result<(), AllocError>
    requires here { x < length plant.now.sections }
    requires there { y < length plant.now.sections }
    ensures { OnOk result
        (map plain_rule rules.new
        ≡ map plain_rule rules.old
        ++ flat_map (definitions.head_rules_to_neighbour plant.now x d y) (true ∷ false ∷ [])) }
{
    push_head_free(alloc, rules, plant, x, d, y, true)?;
    push_head_crash(alloc, rules, plant, x, d, y, true)?;
    push_head_free(alloc, rules, plant, x, d, y, false)?;
    push_head_crash(alloc, rules, plant, x, d, y, false)
}

fn push_head_at(
    alloc: Global,
    rules: &mut Rules,
    plant: &Plant,
    x: u32,
    d: Dir,
    i: u32,
) -> Result<(), AllocError>
    requires { x < length plant.now.sections }
    ensures { OnOk result
        (map plain_rule rules.new
        ≡ map plain_rule rules.old
        ++ flat_map
        (λ y. flat_map (definitions.head_rules_to_neighbour plant.now x d y) (true ∷ false ∷ []))
        (option_to_list (slice_get (next_to plant.now x d) i))) }
{
    if let Some(y) = plant.neighbour(x, d, i) {
        push_head_to(alloc, rules, plant, x, d, y)?;
    }
    Ok(())
}

fn push_head_in(
    alloc: Global,
    rules: &mut Rules,
    plant: &Plant,
    x: u32,
    d: Dir,
) -> Result<(), AllocError>
    requires { x < length plant.now.sections }
    ensures { OnOk result
        (map plain_rule rules.new
        ≡ map plain_rule rules.old
        ++ flat_map
        (λ y. flat_map (definitions.head_rules_to_neighbour plant.now x d y) (true ∷ false ∷ []))
        (next_to plant.now x d)) }
{
    push_head_at(alloc, rules, plant, x, d, 0)?;
    push_head_at(alloc, rules, plant, x, d, 1)?;
    Ok(())
}

/// Adds to `rules` the rules of the event `head x`: for each direction and each neighbour of `x`,
/// with and without a hazard.
pub(crate) fn push_head_rules(
    alloc: Global,
    rules: &mut Rules,
    plant: &Plant,
    x: u32,
) -> Result<(), AllocError>
    requires { x < length plant.now.sections }
    ensures { OnOk result
        (map plain_rule rules.new
        ≡ map plain_rule rules.old ++ definitions.rules_of_head plant.now x) }
{
    push_head_in(alloc, rules, plant, x, Dir::Up)?;
    push_head_in(alloc, rules, plant, x, Dir::Down)
}
