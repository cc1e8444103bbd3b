ghost use Rattle.std.specs.Prelude.{◌≡◌, ◌<◌, length, IfSome};
ghost use Rattle.ilk_plant.specs.Plant.{first_number_named};
ghost use Rattle.ilk_replay.specs.EventLine.{point_named};

use ilk_plant::Plant;

// Names are ASCII, so a text that isn't UTF-8 is not a name.
/// Returns the number of the route `name`, or `None` if there is none.
pub(crate) fn route_named(plant: &Plant, name: &[u8]) -> Option<u32>
    ensures { result ≡ first_number_named plant.now.route_names name.now }
{
    plant.prove_is_plant();
    match str::from_utf8(name) {
        Ok(name) => plant.route_named(name),
        Err(_) => None,
    }
}

/// Returns the number of the section `name`, or `None` if there is none.
pub(crate) fn section_named(plant: &Plant, name: &[u8]) -> Option<u32>
    ensures number { result ≡ first_number_named plant.now.section_names name.now }
    ensures known { IfSome result (λ x. x < length plant.now.sections) }
{
    plant.prove_is_plant();
    match str::from_utf8(name) {
        Ok(name) => plant.section_named(name),
        Err(_) => None,
    }
}

/// Returns the number of the section `name` if it is a point.
pub(crate) fn point_named(plant: &Plant, name: &[u8]) -> Option<u32>
    ensures { result ≡ point_named plant.now name.now }
{
    let x = section_named(plant, name)?;
    if plant.section(x).is_point() {
        Some(x)
    } else {
        None
    }
}
