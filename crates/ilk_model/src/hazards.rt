ghost use Rattle.std.specs.Prelude.{◌≡◌, find, length};
ghost use Rattle.std.specs.List.{list_any, range_with_len};
ghost use Rattle.ilk_plant.specs.Shape.{HasShape};
ghost use Rattle.ilk_model.specs.Hazard.{are_adjacent_in_body, hazard, is_wrong_under_train, is_wrong_under_body};
ghost use Rattle.ilk_model.specs.Shared.{is_section_hazardous_by_bits};

use crate::shared::{SharedSections, is_in_shared_sections, shared_sections};
use ilk_plant::{
    Lie, Plant, Row, Section, State, Train, contains_section, detected_position_in_state,
};

/// A hazard, with its section.
#[derive(Clone, Copy, PartialEq, Eq, Debug)]
pub enum HazardAt {
    /// Collision: two or more trains have the section in their bodies.
    Two(u32),
    /// Derailment risk: a train is on the point, which is moving or not set for the train.
    Wrong(u32),
}

fn has_pair(body: &Row<u32>, x: u32, y: u32) -> bool
    ensures { result ≡ are_adjacent_in_body x y body.now }
{
    let sections = body.as_slice();
    sections
        .iter()
        .zip(sections.iter().skip(1))
        .any(|(a, b)| (*a == x && *b == y) || (*a == y && *b == x))
}

fn strays(body: &Row<u32>, x: u32, plus: u32, minus: u32, lie: Option<Lie>) -> bool
    ensures { result ≡ is_wrong_under_body x plus minus lie body.now }
{
    match lie {
        None => false,
        Some(Lie::Plus) => has_pair(body, x, minus),
        Some(Lie::Minus) => has_pair(body, x, plus),
        Some(Lie::Moving) => contains_section(body, x),
    }
}

fn any_strays(trains: &Row<Train>, x: u32, plus: u32, minus: u32, lie: Option<Lie>) -> bool
    ensures { result ≡ list_any (λ train. is_wrong_under_body x plus minus lie train.body)
        trains.now }
{
    trains
        .as_slice()
        .iter()
        .any(|train| strays(&train.body, x, plus, minus, lie))
}

/// Returns whether section `x` is a point that, in state `s`, is moving or not set for a train on
/// it.
pub fn is_wrong_under_train(plant: &Plant, s: &State, x: u32) -> bool
    ensures { result ≡ is_wrong_under_train plant.now s.now x }
{
    if x >= plant.sections() {
        return false;
    }
    match *plant.section(x) {
        Section::Linear { .. } => false,
        Section::Point { plus, minus, .. } => {
            let lie = detected_position_in_state(plant, s, x);
            any_strays(&s.trains, x, plus, minus, lie)
        }
    }
}

fn is_section_hazardous(plant: &Plant, s: &State, shared: SharedSections, x: u32) -> bool
    ensures { result ≡ is_section_hazardous_by_bits plant.now s.now shared x }
{
    is_in_shared_sections(shared, x) || is_wrong_under_train(plant, s, x)
}

fn first_hazardous(plant: &Plant, s: &State, shared: SharedSections) -> Option<u32>
    ensures { result
        ≡ find (is_section_hazardous_by_bits plant.now s.now shared)
        (range_with_len 0 (length plant.now.sections)) }
{
    (0..plant.sections()).find(|x| is_section_hazardous(plant, s, shared, *x))
}

/// Returns the hazard of state `s` at the first section that has one, or `None` if there is none.
/// At the same section, `Two` comes before `Wrong`.
pub fn hazard(plant: &Plant, s: &State) -> Option<HazardAt>
    requires { HasShape plant.now s.now }
    ensures { result ≡ hazard plant.now s.now }
{
    plant.prove_is_plant();
    let shared = shared_sections(s);
    let x = first_hazardous(plant, s, shared)?;
    Some(if is_in_shared_sections(shared, x) {
        HazardAt::Two(x)
    } else {
        HazardAt::Wrong(x)
    })
}
