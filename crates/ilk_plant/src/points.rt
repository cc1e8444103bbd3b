ghost use Rattle.std.specs.Prelude.{◌≡◌, ◌<◌, IfSome, slice_get};
ghost use Rattle.ilk_base.specs.Option.{is_some_and};
ghost use Rattle.ilk_plant.specs.ColumnRules.{is_leg_at_position};
ghost use Rattle.ilk_plant.specs.Plant.{point_count, point_number};
ghost use Rattle.ilk_plant.specs.State.{detected_position_in_state};

use crate::{Lie, Plant, Position, Section, State};

/// Returns the number of the point on section `x`, or `None` if `x` is not a point section.
pub fn point_number_at(plant: &Plant, x: u32) -> Option<u32>
    ensures number { result ≡ point_number plant.now x }
    ensures known { IfSome result (λ n. n < point_count plant.now) }
{
    if x < plant.sections() {
        plant.point_number(x)
    } else {
        None
    }
}

/// Returns the position in which the point on section `x` is detected in state `s`, or `None` if
/// `x` is not a point section.
pub fn detected_position_in_state(plant: &Plant, s: &State, x: u32) -> Option<Lie>
    ensures { result ≡ detected_position_in_state plant.now s.now x }
{
    let n = point_number_at(plant, x)?;
    let point = s.points.as_slice().get(n as usize)?;
    Some(point.at)
}

/// Returns whether `y` is the section to which the point on section `x` leads in position `at`.
/// Returns `false` if `x` is not a point section.
pub fn is_leg_at_position(plant: &Plant, x: u32, at: Position, y: u32) -> bool
    ensures { result ≡ is_some_and (slice_get plant.now.sections x) (is_leg_at_position at y) }
{
    if x >= plant.sections() {
        return false;
    }
    match (plant.section(x), at) {
        (Section::Point { plus, .. }, Position::Plus) => *plus == y,
        (Section::Point { minus, .. }, Position::Minus) => *minus == y,
        _ => false,
    }
}
