ghost use Rattle.std.specs.Prelude.{◌≡◌, ◌↔◌, ◌≤◌, ◌+◌, None, Some, IfErr, IfOk, length, slice_get};
ghost use Rattle.ilk_behave.specs.Behaviour as behaviour;
ghost use Rattle.ilk_behave.specs.Behaviour.{event_of_rule, events_of_rules, system_of_plant};
ghost use Rattle.ilk_behave.specs.Numbered.{EachIsEventOfPlant};

use crate::counts::count_event_rules;
use ilk_model::Event;
use ilk_plant::Plant;

/// Returns the seven events of route `r`, in the order of their rules.
pub(crate) fn events_of_route(r: u32) -> [Event; 7]
    ensures { result ≡ behaviour.events_of_route r }
{
    [
        Event::Mark(r),
        Event::Allocate(r),
        Event::Lock(r),
        Event::Sense(r),
        Event::Release(r),
        Event::Finish(r),
        Event::Cancel(r),
    ]
}

/// Returns the six events of section `x`, in the order of their rules. Throw and settle are among
/// them even if `x` has no point.
pub(crate) fn events_of_section(x: u32) -> [Event; 6]
    ensures { result ≡ behaviour.events_of_section x }
{
    [
        Event::Throw(x),
        Event::Settle(x),
        Event::Enter(x),
        Event::Head(x),
        Event::Tail(x),
        Event::Leave(x),
    ]
}

// Returns the event of rule number `place` among the rules of `events`. If there are too few,
// returns `Err` with `place` minus their count.
fn find_event(plant: &Plant, events: &[Event], place: u32) -> Result<Event, u32>
    requires { EachIsEventOfPlant plant.now events.now }
    ensures found { IfOk result
        (λ event. slice_get (events_of_rules plant.now events.now) place ≡ Some event) }
    ensures past { IfErr result
        (λ left. place ≡ length (events_of_rules plant.now events.now) + left) }
{
    let mut left = place;
    for event in events {
        let count = count_event_rules(plant, *event);
        if left < count {
            return Ok(*event);
        }
        left -= count;
    }
    Err(left)
}

/// Returns the event to which rule number `rule` of the plant's system belongs. Returns `None` if
/// and only if no rule has this number.
pub fn event_of(plant: &Plant, rule: u32) -> Option<Event>
    ensures event { result ≡ event_of_rule plant.now rule }
    ensures none { (result ≡ None) ↔ (length (system_of_plant plant.now).rules ≤ rule) }
{
    let mut left = rule;
    for r in 0..plant.routes() {
        match find_event(plant, &events_of_route(r), left) {
            Ok(event) => return Some(event),
            Err(rest) => left = rest,
        }
    }
    for x in 0..plant.sections() {
        match find_event(plant, &events_of_section(x), left) {
            Ok(event) => return Some(event),
            Err(rest) => left = rest,
        }
    }
    None
}
