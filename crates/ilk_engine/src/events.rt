ghost use Rattle.std.specs.Prelude.{◌≡◌, ◌++◌, IfOk, IsTrue, OnOk, Some, is_some, option_to_list};
ghost use Rattle.ilk_behave.specs.Behaviour.{event_of_rule};
ghost use Rattle.ilk_queries.specs.Lifting.{events_of_rule_numbers_or_none};
ghost use Rattle.ilk_engine.specs.Lifted.{events_of_fired_rules};

use ilk_base::Row;
use ilk_behave::event_of;
use ilk_model::Event;
use ilk_plant::Plant;
use ilk_unroll::Rows;
use std::alloc::{AllocError, Global};

fn push_event(plant: &Plant, events: &mut Row<Event>, rule: u32) -> Result<(), AllocError>
    ensures { OnOk result
        (events.new ≡ events.old ++ option_to_list (event_of_rule plant.now rule)) }
{
    match event_of(plant, rule) {
        None => Ok(()),
        Some(event) => {
            events.push(event)?;
            Ok(())
        }
    }
}

fn push_events(plant: &Plant, events: &mut Row<Event>, rules: &Rows) -> Result<(), AllocError>
    ensures { OnOk result (events.new ≡ events.old ++ events_of_fired_rules plant.now rules.now) }
{
    for rule in rules.as_slice() {
        push_event(plant, events, *rule)?;
    }
    Ok(())
}

/// Returns the events of `rules`, each of which has one.
pub(crate) fn events_of_rules(
    alloc: Global,
    plant: &Plant,
    rules: &Rows,
) -> Result<Row<Event>, AllocError>
    requires { IsTrue (is_some (events_of_rule_numbers_or_none plant.now rules.now)) }
    ensures { IfOk result (λ events. events_of_rule_numbers_or_none plant.now rules.now
        ≡ Some events) }
{
    let mut events = Row::new(alloc);
    push_events(plant, &mut events, rules)?;
    Ok(events)
}
