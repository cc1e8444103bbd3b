ghost use Rattle.std.specs.Prelude.{◌≡◌};
ghost use Rattle.ilk_ir.specs.System.{in_ranges};

use crate::plants::image_of;
use ilk_decode::state_of;
use ilk_invs::family_forms;
use ilk_ir::{Form, Forms, Values, holds};
use ilk_layout::ranges;
use ilk_model::{broken_family, hazard};
use ilk_plant::{Plant, State};
use ilk_props::{hazard_form, start_form, wellformed_form};
use std::alloc::{AllocError, Global};
use std::test::Fail;

/// The forms over a plant's variables that describe its states: hazard, well-formed, initial state
/// and the nine families.
#[derive(Drop)]
pub(crate) struct PlantForms {
    pub hazard: Form,
    pub wellformed: Form,
    pub start: Form,
    pub families: Forms,
}

/// Creates all forms of `plant`.
pub(crate) fn forms_of(alloc: Global, plant: &Plant) -> Result<PlantForms, AllocError> {
    Ok(PlantForms {
        hazard: hazard_form(alloc, plant)?,
        wellformed: wellformed_form(alloc, plant)?,
        start: start_form(alloc, plant)?,
        families: family_forms(alloc, plant)?,
    })
}

// Returns the numbers of the families, from 1, whose forms don't hold.
fn denied(alloc: Global, families: &Forms, values: &Values) -> Result<Vec<u8>, AllocError> {
    let mut numbers = Vec::new(alloc);
    for (form, number) in families.as_slice().iter().zip(1..10) {
        if !holds(form, values) {
            numbers.push(number)?;
        }
    }
    Ok(numbers)
}

fn are_in_ranges(values: &[u8], ranges: &[u8]) -> bool
    ensures { result ≡ in_ranges values.now ranges.now }
{
    match values {
        [] => match ranges {
            [] => true,
            [_, ..] => false,
        },
        [value, rest @ ..] => match ranges {
            [] => false,
            [range, more @ ..] => *value < *range && are_in_ranges(rest, more),
        },
    }
}

/// Returns the state whose image is `values`, or `None` if a value is out of range or the form of
/// well-formed values doesn't hold.
pub(crate) fn decode_state_if_wellformed(
    alloc: Global,
    plant: &Plant,
    values: &Values,
) -> Result<Option<State>, AllocError> {
    let ranges = ranges(alloc, plant)?;
    let wellformed = wellformed_form(alloc, plant)?;
    if !are_in_ranges(values.as_slice(), ranges.as_slice()) || !holds(&wellformed, values) {
        return Ok(None);
    }
    Ok(Some(state_of(alloc, plant, values)?))
}

// Compares the family forms with the least family that a state without hazard breaks.
fn compare_families(
    alloc: Global,
    plant: &Plant,
    forms: &PlantForms,
    s: &State,
    values: &Values,
) -> Result<(), Fail> {
    if !plant.has_shape(s) {
        return Err(Fail::new("a state without shape"));
    }
    let numbers = denied(alloc, &forms.families, values)?;
    if numbers.first().copied() == broken_family(plant, s) {
        Ok(())
    } else {
        Err(Fail::new("the families' forms"))
    }
}

fn compare_decoded(alloc: Global, plant: &Plant, values: &Values) -> Result<(), Fail> {
    match decode_state_if_wellformed(alloc, plant, values)? {
        None => Err(Fail::new("an image that isn't well-formed")),
        Some(read) => compare_values_with_image(alloc, plant, &read, values),
    }
}

/// Fails unless `values` are the image of state `s`.
pub(crate) fn compare_values_with_image(
    alloc: Global,
    plant: &Plant,
    s: &State,
    values: &Values,
) -> Result<(), Fail> {
    let image = image_of(alloc, plant, s)?;
    if image.as_slice() == values.as_slice() {
        Ok(())
    } else {
        Err(Fail::new("another image"))
    }
}

fn compare_values(
    alloc: Global,
    plant: &Plant,
    forms: &PlantForms,
    s: &State,
    values: &Values,
) -> Result<(), Fail> {
    let hazardous = is_hazardous(plant, s);
    if holds(&forms.hazard, values) != hazardous {
        return Err(Fail::new("the form of hazards"));
    }
    if holds(&forms.wellformed, values) == hazardous {
        return Err(Fail::new("the well-formed form"));
    }
    if hazardous {
        return Ok(());
    }
    compare_families(alloc, plant, forms, s, values)?;
    compare_decoded(alloc, plant, values)
}

/// Fails unless all forms, over the image of state `s`, agree with the state. If it has no hazard,
/// also decodes the image and compares the result.
pub(crate) fn compare_forms_with_state(
    alloc: Global,
    plant: &Plant,
    forms: &PlantForms,
    s: &State,
) -> Result<(), Fail> {
    let values = image_of(alloc, plant, s)?;
    compare_values(alloc, plant, forms, s, &values)
}

/// Fails unless `families` are exactly the families whose forms are false of `values`.
pub(crate) fn expect_violated_families(
    alloc: Global,
    forms: &PlantForms,
    values: &Values,
    families: &[u8],
) -> Result<(), Fail> {
    let numbers = denied(alloc, &forms.families, values)?;
    if numbers.as_slice() == families {
        Ok(())
    } else {
        Err(Fail::new("other families"))
    }
}

/// Returns whether state `s` has a hazard.
pub(crate) fn is_hazardous(plant: &Plant, s: &State) -> bool {
    plant.has_shape(s) && hazard(plant, s).is_some()
}
