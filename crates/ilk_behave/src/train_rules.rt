ghost use Rattle.std.specs.Prelude.{◌≡◌, ◌<◌, ◌++◌, ◌∷◌, [], Some, true, false, not, filter, length, map, flat_map, slice_get, OnOk};
ghost use Rattle.ilk_ir.specs.System.{plain_rule};
ghost use Rattle.ilk_plant.specs.Plant.{next_to};
ghost use Rattle.ilk_motion.specs.Trains.{has_neighbour};
ghost use Rattle.ilk_layout.specs.declared.values.Occupancy.TheVariants.{Taken};
ghost use Rattle.ilk_behave.specs.TrainRules as definitions;

use crate::guards::push_leg_set_if_facing;
use crate::settings::{push_rule, set_occupancy};
use ilk_ir::Rules;
use ilk_layout::{Occupancy, lock_is, no_train_at, occupancy_is};
use ilk_plant::{Dir, Hold, Plant, Row, Section};
use std::alloc::{AllocError, Global};

/// Adds to `rules` the rule of the event `enter x`; none if section `x` is not a border.
pub(crate) fn push_enter_rules(
    alloc: Global,
    rules: &mut Rules,
    plant: &Plant,
    x: u32,
) -> Result<(), AllocError>
    requires { x < length plant.now.sections }
    ensures { OnOk result
        (map plain_rule rules.new
        ≡ map plain_rule rules.old ++ definitions.rules_of_enter plant.now x) }
{
    if let Some(inward) = plant.inward_direction_if_border(x) {
        let mut forms = Vec::new(alloc);
        forms.push(no_train_at(plant, x))?;
        forms.push(lock_is(plant, x, Hold::Free))?;
        let train = Occupancy::Taken {
            dir: inward,
            tail: true,
            head: true,
        };
        let mut sets = Row::new(alloc);
        sets.push(set_occupancy(plant, x, train))?;
        push_rule(rules, forms, sets)?;
    }
    Ok(())
}

fn push_tail_rule(
    alloc: Global,
    rules: &mut Rules,
    plant: &Plant,
    x: u32,
    d: Dir,
    y: u32,
    head: bool,
) -> Result<(), AllocError>
    requires here { x < length plant.now.sections }
    requires there { y < length plant.now.sections }
    ensures { OnOk result
        (map plain_rule rules.new ≡ map plain_rule rules.old
        ++ definitions.tail_rule_to_neighbour plant.now x d y head ∷ []) }
{
    let mut forms = Vec::new(alloc);
    let before = Occupancy::Taken {
        dir: d,
        tail: true,
        head: false,
    };
    forms.push(occupancy_is(plant, x, before))?;
    push_leg_set_if_facing(&mut forms, plant, x, d, y)?;
    let next = Occupancy::Taken {
        dir: d,
        tail: false,
        head,
    };
    forms.push(occupancy_is(plant, y, next))?;
    let mut sets = Row::new(alloc);
    sets.push(set_occupancy(plant, x, Occupancy::Vacant))?;
    let tail = Occupancy::Taken {
        dir: d,
        tail: true,
        head,
    };
    sets.push(set_occupancy(plant, y, tail))?;
    push_rule(rules, forms, sets)
}

fn push_tail_to(
    alloc: Global,
    rules: &mut Rules,
    plant: &Plant,
    x: u32,
    d: Dir,
    y: u32,
) -> Result<(), AllocError>
    requires here { x < length plant.now.sections }
    requires there { y < length plant.now.sections }
    ensures { OnOk result
        (map plain_rule rules.new
        ≡ map plain_rule rules.old
        ++ map (definitions.tail_rule_to_neighbour plant.now x d y) (true ∷ false ∷ [])) }
{
    push_tail_rule(alloc, rules, plant, x, d, y, true)?;
    push_tail_rule(alloc, rules, plant, x, d, y, false)
}

fn push_tail_in(
    alloc: Global,
    rules: &mut Rules,
    plant: &Plant,
    x: u32,
    d: Dir,
) -> Result<(), AllocError>
    requires { x < length plant.now.sections }
    ensures { OnOk result
        (map plain_rule rules.new
        ≡ map plain_rule rules.old
        ++ flat_map
        (λ y. map (definitions.tail_rule_to_neighbour plant.now x d y) (true ∷ false ∷ []))
        (next_to plant.now x d)) }
{
    if let Some(y) = plant.neighbour(x, d, 0) {
        push_tail_to(alloc, rules, plant, x, d, y)?;
    }
    if let Some(y) = plant.neighbour(x, d, 1) {
        push_tail_to(alloc, rules, plant, x, d, y)?;
    }
    Ok(())
}

/// Adds to `rules` the rules of the event `tail x`: for each direction and each neighbour of
/// section `x`.
pub(crate) fn push_tail_rules(
    alloc: Global,
    rules: &mut Rules,
    plant: &Plant,
    x: u32,
) -> Result<(), AllocError>
    requires { x < length plant.now.sections }
    ensures { OnOk result
        (map plain_rule rules.new
        ≡ map plain_rule rules.old ++ definitions.rules_of_tail plant.now x) }
{
    push_tail_in(alloc, rules, plant, x, Dir::Up)?;
    push_tail_in(alloc, rules, plant, x, Dir::Down)
}

fn push_leave_in(
    alloc: Global,
    rules: &mut Rules,
    plant: &Plant,
    x: u32,
    section: &Section,
    d: Dir,
) -> Result<(), AllocError>
    requires known { x < length plant.now.sections }
    requires section { slice_get plant.now.sections x ≡ Some section.now }
    ensures { OnOk result
        (map plain_rule rules.new
        ≡ map plain_rule rules.old
        ++ map (definitions.leave_rule_in_direction plant.now x)
        (filter (λ e. not (has_neighbour section.now e)) (d ∷ []))) }
{
    if section.nth_neighbour_on(d, 0).is_some() {
        return Ok(());
    }
    let train = Occupancy::Taken {
        dir: d,
        tail: true,
        head: true,
    };
    let mut forms = Vec::new(alloc);
    forms.push(occupancy_is(plant, x, train))?;
    let mut sets = Row::new(alloc);
    sets.push(set_occupancy(plant, x, Occupancy::Vacant))?;
    push_rule(rules, forms, sets)
}

/// Adds to `rules` the rules of the event `leave x`: one for each direction in which section `x`
/// has no neighbour.
pub(crate) fn push_leave_rules(
    alloc: Global,
    rules: &mut Rules,
    plant: &Plant,
    x: u32,
) -> Result<(), AllocError>
    requires { x < length plant.now.sections }
    ensures { OnOk result
        (map plain_rule rules.new
        ≡ map plain_rule rules.old ++ definitions.rules_of_leave plant.now x) }
{
    let section = plant.section(x);
    push_leave_in(alloc, rules, plant, x, section, Dir::Up)?;
    push_leave_in(alloc, rules, plant, x, section, Dir::Down)
}
