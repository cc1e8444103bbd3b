ghost use Rattle.std.specs.Prelude.{◌≡◌, ◌++◌, map, IfOk, IsTrue, OnOk};
ghost use Rattle.ilk_ir.specs.System.{plain_rule, plain_system, system_valid};
ghost use Rattle.ilk_behave.specs.Behaviour.{rules_of_event, system_of_plant};
ghost use Rattle.std.specs.List.{flat_map};
ghost use Rattle.ilk_behave.specs.Behaviour.{events_of_plant};
ghost use Rattle.ilk_behave.specs.Numbered.{IsEventOfPlant, EachIsEventOfPlant};
ghost use Rattle.ilk_behave.specs.Steps.{SystemMatchesEvents};

use crate::events::{events_of_route, events_of_section};
use crate::heads::push_head_rules;
use crate::laws::system_matches_events;
use crate::passage_rules::{push_finish_rules, push_release_rules, push_sense_rules};
use crate::point_rules::{push_settle_rules, push_throw_rules};
use crate::route_rules::{
    push_allocate_rules, push_cancel_rules, push_lock_rules, push_mark_rules,
};
use crate::train_rules::{push_enter_rules, push_leave_rules, push_tail_rules};
use crate::validity::system_is_valid;
use ilk_ir::{Rules, System};
use ilk_layout::ranges;
use ilk_model::Event;
use ilk_plant::{Plant, Row};
use std::alloc::{AllocError, Global};

fn push_rules_of(
    alloc: Global,
    rules: &mut Rules,
    plant: &Plant,
    event: Event,
) -> Result<(), AllocError>
    requires { IsEventOfPlant plant.now event }
    ensures { OnOk result
        (map plain_rule rules.new ≡ map plain_rule rules.old ++ rules_of_event plant.now event) }
{
    match event {
        Event::Mark(r) => push_mark_rules(alloc, rules, plant, r),
        Event::Allocate(r) => push_allocate_rules(alloc, rules, plant, r),
        Event::Lock(r) => push_lock_rules(alloc, rules, plant, r),
        Event::Sense(r) => push_sense_rules(alloc, rules, plant, r),
        Event::Release(r) => push_release_rules(alloc, rules, plant, r),
        Event::Finish(r) => push_finish_rules(alloc, rules, plant, r),
        Event::Throw(x) => push_throw_rules(alloc, rules, plant, x),
        Event::Settle(x) => push_settle_rules(alloc, rules, plant, x),
        Event::Enter(x) => push_enter_rules(alloc, rules, plant, x),
        Event::Head(x) => push_head_rules(alloc, rules, plant, x),
        Event::Tail(x) => push_tail_rules(alloc, rules, plant, x),
        Event::Leave(x) => push_leave_rules(alloc, rules, plant, x),
        Event::Cancel(r) => push_cancel_rules(alloc, rules, plant, r),
    }
}

fn push_rules_of_all(
    alloc: Global,
    rules: &mut Rules,
    plant: &Plant,
    events: &[Event],
) -> Result<(), AllocError>
    requires { EachIsEventOfPlant plant.now events.now }
    ensures { OnOk result
        (map plain_rule rules.new
        ≡ map plain_rule rules.old ++ flat_map (rules_of_event plant.now) events.now) }
{
    for event in events {
        push_rules_of(alloc, rules, plant, *event)?;
    }
    Ok(())
}

fn all_rules(alloc: Global, plant: &Plant) -> Result<Rules, AllocError>
    ensures { IfOk result
        (λ rules. map plain_rule rules ≡ flat_map (rules_of_event plant.now)
        (events_of_plant plant.now)) }
{
    let mut rules = Row::new(alloc);
    for r in 0..plant.routes() {
        push_rules_of_all(alloc, &mut rules, plant, &events_of_route(r))?;
    }
    for x in 0..plant.sections() {
        push_rules_of_all(alloc, &mut rules, plant, &events_of_section(x))?;
    }
    Ok(rules)
}

/// Returns the finite system of a plant: its variables and the rules of its events. It is valid and
/// steps as the events do. Fails only if memory runs out.
pub fn behaviour(alloc: Global, plant: &Plant) -> Result<System, AllocError>
    ensures system { IfOk result (λ made. plain_system made ≡ system_of_plant plant.now) }
    ensures valid { IsTrue (system_valid (system_of_plant plant.now)) }
    ensures steps { SystemMatchesEvents plant.now }
{
    system_is_valid(plant);
    system_matches_events(plant);
    Ok(System {
        ranges: ranges(alloc, plant)?,
        rules: all_rules(alloc, plant)?,
    })
}
