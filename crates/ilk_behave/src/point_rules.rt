ghost use Rattle.std.specs.Prelude.{◌≡◌, ◌<◌, ◌++◌, ◌∷◌, [], length, map, IfOk, OnOk};
ghost use Rattle.ilk_ir.specs.Form.{tree_of};
ghost use Rattle.ilk_ir.specs.System.{plain_rule};
ghost use Rattle.ilk_plant.specs.Plant.{point_count};
ghost use Rattle.ilk_ir.specs.Tree.{any_of, negation, trees_from_list};
ghost use Rattle.ilk_plant.specs.declared.state.Lie.TheVariants.{Moving};
ghost use Rattle.ilk_routes.specs.Lies.{lie_from_position};
ghost use Rattle.ilk_layout.specs.declared.values.Occupancy.TheVariants.{Crash};
ghost use Rattle.ilk_layout.specs.Conditions as conditions;
ghost use Rattle.ilk_behave.specs.PointRules as definitions;
ghost use Rattle.ilk_behave.specs.Settings as settings;

use crate::settings::{push_rule, set_detected, set_occupancy};
use ilk_ir::{Form, Rules};
use ilk_layout::{
    Occupancy, is_point_commanded, is_point_detected, negated, no_train_at, train_at,
};
use ilk_plant::{Lie, Plant, Position, Row};
use ilk_routes::lie_from_position;
use std::alloc::{AllocError, Global};

fn lies_or_is_commanded_elsewhere(
    alloc: Global,
    plant: &Plant,
    n: u32,
    position: Position,
) -> Result<Form, AllocError>
    requires { n < point_count plant.now }
    ensures { IfOk result
        (λ form. tree_of form
        ≡ any_of
        (trees_from_list
        (negation (conditions.is_point_detected plant.now n (lie_from_position position))
        ∷ negation (conditions.is_point_commanded plant.now n position) ∷ []))) }
{
    let mut forms = Vec::new(alloc);
    forms.push(negated(
        alloc,
        is_point_detected(plant, n, lie_from_position(position)),
    )?)?;
    forms.push(negated(alloc, is_point_commanded(plant, n, position))?)?;
    Ok(Form::Or(forms))
}

fn lies_elsewhere(alloc: Global, plant: &Plant, n: u32) -> Result<Vec<Form>, AllocError>
    requires { n < point_count plant.now }
    ensures { IfOk result
        (λ forms. map tree_of forms.items ≡ definitions.rests_out_of_position plant.now n) }
{
    let mut forms = Vec::new(alloc);
    forms.push(negated(alloc, is_point_detected(plant, n, Lie::Moving))?)?;
    forms.push(lies_or_is_commanded_elsewhere(alloc, plant, n, Position::Plus)?)?;
    forms.push(lies_or_is_commanded_elsewhere(alloc, plant, n, Position::Minus)?)?;
    Ok(forms)
}

fn push_throw_clear(
    alloc: Global,
    rules: &mut Rules,
    plant: &Plant,
    x: u32,
    n: u32,
) -> Result<(), AllocError>
    requires point { n < point_count plant.now }
    requires section { x < length plant.now.sections }
    ensures { OnOk result
        (map plain_rule rules.new
        ≡ map plain_rule rules.old
        ++ settings.rule
        (definitions.rests_out_of_position plant.now n
        ++ conditions.no_train_at plant.now x ∷ [])
        (settings.set_detected plant.now n Moving ∷ []) ∷ []) }
{
    let mut forms = lies_elsewhere(alloc, plant, n)?;
    forms.push(no_train_at(plant, x))?;
    let mut sets = Row::new(alloc);
    sets.push(set_detected(plant, n, Lie::Moving))?;
    push_rule(rules, forms, sets)
}

fn push_throw_under_train(
    alloc: Global,
    rules: &mut Rules,
    plant: &Plant,
    x: u32,
    n: u32,
) -> Result<(), AllocError>
    requires point { n < point_count plant.now }
    requires section { x < length plant.now.sections }
    ensures { OnOk result
        (map plain_rule rules.new
        ≡ map plain_rule rules.old
        ++ settings.rule
        (definitions.rests_out_of_position plant.now n
        ++ conditions.train_at plant.now x ∷ [])
        (settings.set_detected plant.now n Moving
        ∷ settings.set_occupancy plant.now x Crash ∷ []) ∷ []) }
{
    let mut forms = lies_elsewhere(alloc, plant, n)?;
    forms.push(train_at(alloc, plant, x)?)?;
    let mut sets = Row::new(alloc);
    sets.push(set_detected(plant, n, Lie::Moving))?;
    sets.push(set_occupancy(plant, x, Occupancy::Crash))?;
    push_rule(rules, forms, sets)
}

/// Adds to `rules` the rules of the event `throw x`; none if section `x` has no point.
pub(crate) fn push_throw_rules(
    alloc: Global,
    rules: &mut Rules,
    plant: &Plant,
    x: u32,
) -> Result<(), AllocError>
    requires { x < length plant.now.sections }
    ensures { OnOk result
        (map plain_rule rules.new
        ≡ map plain_rule rules.old ++ definitions.rules_of_throw plant.now x) }
{
    if let Some(n) = plant.point_number(x) {
        push_throw_clear(alloc, rules, plant, x, n)?;
        push_throw_under_train(alloc, rules, plant, x, n)?;
    }
    Ok(())
}

fn push_settle_at(
    alloc: Global,
    rules: &mut Rules,
    plant: &Plant,
    n: u32,
    position: Position,
) -> Result<(), AllocError>
    requires { n < point_count plant.now }
    ensures { OnOk result
        (map plain_rule rules.new
        ≡ map plain_rule rules.old
        ++ settings.rule
        (conditions.is_point_detected plant.now n Moving
        ∷ conditions.is_point_commanded plant.now n position
        ∷ [])
        (settings.set_detected plant.now n (lie_from_position position) ∷ []) ∷ []) }
{
    let mut forms = Vec::new(alloc);
    forms.push(is_point_detected(plant, n, Lie::Moving))?;
    forms.push(is_point_commanded(plant, n, position))?;
    let mut sets = Row::new(alloc);
    sets.push(set_detected(plant, n, lie_from_position(position)))?;
    push_rule(rules, forms, sets)
}

/// Adds to `rules` the rules of the event `settle x`; none if section `x` has no point.
pub(crate) fn push_settle_rules(
    alloc: Global,
    rules: &mut Rules,
    plant: &Plant,
    x: u32,
) -> Result<(), AllocError>
    requires { x < length plant.now.sections }
    ensures { OnOk result
        (map plain_rule rules.new
        ≡ map plain_rule rules.old ++ definitions.rules_of_settle plant.now x) }
{
    if let Some(n) = plant.point_number(x) {
        push_settle_at(alloc, rules, plant, n, Position::Plus)?;
        push_settle_at(alloc, rules, plant, n, Position::Minus)?;
    }
    Ok(())
}
