ghost use Rattle.std.specs.Prelude.{◌≡◌, ◌∷◌, ◌++◌, ◌<◌, [], IfOk, OnOk, slice_get, take};
ghost use Rattle.std.specs.List.{list_any};
ghost use Rattle.ilk_base.specs.Option.{is_some_and};
ghost use Rattle.ilk_plant.specs.ColumnRules.{is_leg_at_position};
ghost use Rattle.ilk_tablegen.specs.Routes.{point_listed_between, points_along, position_towards_one_of_sections};

use ilk_plant::{Listed, Plant, Position, Row, is_leg_at_position};
use std::alloc::{AllocError, Global};

fn leads_along(plant: &Plant, x: u32, at: Position, before: u32, after: &[u32]) -> bool
    ensures { result
        ≡ list_any (λ y. is_some_and (slice_get plant.now.sections x) (is_leg_at_position at y))
        (before ∷ take 1 after.now) }
{
    is_leg_at_position(plant, x, at, before)
        || match after {
            [next, ..] => is_leg_at_position(plant, x, at, *next),
            [] => false,
        }
}

fn position_towards_one_of_sections(
    plant: &Plant,
    before: u32,
    x: u32,
    after: &[u32],
) -> Option<Position>
    ensures { result ≡ position_towards_one_of_sections plant.now (before ∷ take 1 after.now) x }
{
    if leads_along(plant, x, Position::Plus, before, after) {
        Some(Position::Plus)
    } else if leads_along(plant, x, Position::Minus, before, after) {
        Some(Position::Minus)
    } else {
        None
    }
}

fn push_listed(
    plant: &Plant,
    points: &mut Row<Listed>,
    before: u32,
    x: u32,
    after: &[u32],
) -> Result<(), AllocError>
    ensures { OnOk result (points.new ≡ points.old
        ++ point_listed_between plant.now before x after.now) }
{
    if let Some(at) = position_towards_one_of_sections(plant, before, x, after) {
        points.push(Listed { point: x, at })?;
    }
    Ok(())
}

/// Returns each point of `path`, in order, with its position along the path: that of the leg which
/// is the section before it or the one after it. The path begins after section `start`.
pub(crate) fn points_along(
    alloc: Global,
    plant: &Plant,
    start: u32,
    path: &[u32],
) -> Result<Row<Listed>, AllocError>
    ensures { IfOk result (λ points. points ≡ points_along plant.now start path.now) }
{
    let mut points = Row::new(alloc);
    let mut before = start;
    for (i, x) in path.iter().enumerate() {
        push_listed(plant, &mut points, before, *x, &path[i + 1..])?;
        before = *x;
    }
    Ok(points)
}
