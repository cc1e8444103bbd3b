ghost use Rattle.std.specs.Prelude.{◌≡◌, ◌≤◌, ◌<◌, ◌+◌, Some, filter, length, not};
ghost use Rattle.ilk_motion.specs.Trains.{has_neighbour};
ghost use Rattle.ilk_plant.specs.Plant.{next_to};
ghost use Rattle.ilk_plant.specs.declared.network.Dir.TheVariants.{Up, Down};
ghost use Rattle.ilk_behave.specs.Behaviour.{rules_of_event};
ghost use Rattle.ilk_behave.specs.Numbered.{IsEventOfPlant};
ghost use Rattle.ilk_behave.specs.PointRules.{rules_of_throw};
ghost use Rattle.ilk_behave.specs.RouteRules.{rules_of_cancel, rules_of_finish, rules_of_release, rules_of_sense};
ghost use Rattle.ilk_behave.specs.TrainRules.{all_directions};

use ilk_model::Event;
use ilk_plant::{Dir, Plant, Section};

fn neighbours(plant: &Plant, x: u32, d: Dir) -> u32
    requires { x < length plant.now.sections }
    ensures count { result ≡ length (next_to plant.now x d) }
    ensures few { result ≤ 2 }
{
    if plant.neighbour(x, d, 1).is_some() {
        2
    } else if plant.neighbour(x, d, 0).is_some() {
        1
    } else {
        0
    }
}

fn all_neighbours(plant: &Plant, x: u32) -> u32
    requires { x < length plant.now.sections }
    ensures count { result ≡ length (next_to plant.now x Up) + length (next_to plant.now x Down) }
    ensures few { result ≤ 4 }
{
    neighbours(plant, x, Dir::Up) + neighbours(plant, x, Dir::Down)
}

fn open_ends(section: &Section) -> u32
    ensures { result ≡ length (filter (λ d. not (has_neighbour section.now d)) all_directions) }
{
    let up = if section.nth_neighbour_on(Dir::Up, 0).is_some() {
        0
    } else {
        1
    };
    let down = if section.nth_neighbour_on(Dir::Down, 0).is_some() {
        0
    } else {
        1
    };
    up + down
}

fn point_rule_count(plant: &Plant, x: u32) -> u32
    requires { x < length plant.now.sections }
    ensures { result ≡ length (rules_of_throw plant.now x) }
{
    match plant.point_number(x) {
        Some(_) => 2,
        None => 0,
    }
}

fn sense_rule_count(plant: &Plant, r: u32) -> u32
    requires { r < length plant.now.routes }
    ensures { result ≡ length (rules_of_sense plant.now r) }
{
    let route = plant.route(r);
    route.path.len() as u32
}

fn release_rule_count(plant: &Plant, r: u32) -> u32
    requires { r < length plant.now.routes }
    ensures { result ≡ length (rules_of_release plant.now r) }
{
    let route = plant.route(r);
    route.path.len() as u32 - 1
}

fn finish_rule_count(plant: &Plant, r: u32) -> u32
    requires { r < length plant.now.routes }
    ensures { result ≡ length (rules_of_finish plant.now r) }
{
    let _route = plant.route(r);
    1
}

fn cancel_rule_count(plant: &Plant, r: u32) -> u32
    requires { r < length plant.now.routes }
    ensures { result ≡ length (rules_of_cancel plant.now r) }
{
    let _route = plant.route(r);
    2
}

/// Returns the number of rules that the system of `plant` has for `event`.
pub(crate) fn count_event_rules(plant: &Plant, event: Event) -> u32
    requires { IsEventOfPlant plant.now event }
    ensures { result ≡ length (rules_of_event plant.now event) }
{
    match event {
        Event::Mark(_) | Event::Allocate(_) | Event::Lock(_) => 1,
        Event::Sense(r) => sense_rule_count(plant, r),
        Event::Release(r) => release_rule_count(plant, r),
        Event::Finish(r) => finish_rule_count(plant, r),
        Event::Throw(x) | Event::Settle(x) => point_rule_count(plant, x),
        Event::Enter(x) => if plant.inward_direction_if_border(x).is_some() {
            1
        } else {
            0
        },
        Event::Head(x) => 4 * all_neighbours(plant, x),
        Event::Tail(x) => 2 * all_neighbours(plant, x),
        Event::Leave(x) => open_ends(plant.section(x)),
        Event::Cancel(r) => cancel_rule_count(plant, r),
    }
}
