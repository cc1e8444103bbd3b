//! The hazard after an event, if there was none before. Only the sections that the event touches
//! are checked, so the time doesn't grow with the plant.
ghost use Rattle.std.specs.Prelude.{◌≡◌, [], ◌∷◌, option_to_list};
ghost use Rattle.ilk_model.specs.Hazard.{is_section_hazardous, has_two_trains};
ghost use Rattle.ilk_drive.specs.Awakening.{neighbours_of};
ghost use Rattle.ilk_drive.specs.Touched.{IsOptionalHazardAfterEvent, IsLeastHazardousAmong, IsCombinedLeastHazardousSection, sections_at_risk};

use ilk_model::{Event, HazardAt, is_wrong_under_train};
use ilk_plant::{Plant, Section, State, contains_section};

fn is_two(s: &State, x: u32) -> bool
    ensures { result ≡ has_two_trains s.now x }
{
    s.trains
        .as_slice()
        .iter()
        .filter(|train| contains_section(&train.body, x))
        .count()
        > 1
}

fn is_section_hazardous(plant: &Plant, s: &State, x: u32) -> bool
    ensures { result ≡ is_section_hazardous plant.now s.now x }
{
    is_two(s, x) || is_wrong_under_train(plant, s, x)
}

// Returns `x` if it has a hazard and is less than `found`, and otherwise `found`.
fn lesser(plant: &Plant, s: &State, x: u32, found: Option<u32>) -> Option<u32>
    ensures { IsCombinedLeastHazardousSection plant.now s.now (x ∷ []) found result }
{
    if x >= plant.sections() {
        return found;
    }
    if !is_section_hazardous(plant, s, x) {
        return found;
    }
    match found {
        Some(y) if y <= x => Some(y),
        _ => Some(x),
    }
}

fn lesser_if(plant: &Plant, s: &State, x: Option<u32>, found: Option<u32>) -> Option<u32>
    ensures { IsCombinedLeastHazardousSection plant.now s.now (option_to_list x) found result }
{
    match x {
        Some(x) => lesser(plant, s, x, found),
        None => found,
    }
}

fn least_around(plant: &Plant, s: &State, x: u32) -> Option<u32>
    ensures { IsLeastHazardousAmong plant.now s.now (neighbours_of plant.now x) result }
{
    if x >= plant.sections() {
        return None;
    }
    match *plant.section(x) {
        Section::Linear { down, up, .. } => {
            let above = lesser_if(plant, s, up, None);
            lesser_if(plant, s, down, above)
        }
        Section::Point {
            stem,
            plus,
            minus,
            ..
        } => {
            let leg = lesser(plant, s, minus, None);
            let legs = lesser(plant, s, plus, leg);
            lesser(plant, s, stem, legs)
        }
    }
}

fn least_touched(plant: &Plant, s: &State, event: Event) -> Option<u32>
    ensures { IsLeastHazardousAmong plant.now s.now (sections_at_risk plant.now event) result }
{
    match event {
        Event::Throw(x) => lesser(plant, s, x, None),
        Event::Settle(x) => lesser(plant, s, x, None),
        Event::Head(x) => {
            let beside = least_around(plant, s, x);
            lesser(plant, s, x, beside)
        }
        _ => None,
    }
}

/// Returns the hazard of the state after `event`, if the state before it had none.
pub(crate) fn hazard_after(plant: &Plant, s: &State, event: Event) -> Option<HazardAt>
    ensures { IsOptionalHazardAfterEvent plant.now s.now event result }
{
    let x = least_touched(plant, s, event)?;
    Some(if is_two(s, x) {
        HazardAt::Two(x)
    } else {
        HazardAt::Wrong(x)
    })
}
