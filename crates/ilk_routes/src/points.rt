ghost use Rattle.std.specs.Prelude.{◌≡◌, is_some, unwrap_or};
ghost use Rattle.ilk_plant.specs.Shape.{HasShape};
ghost use Rattle.ilk_routes.specs.Points.{after_settle, after_throw};

use crate::conditions::{is_lie_at_position, is_lie_moving, lie_from_position};
use ilk_plant::{Lie, Plant, State, point_number_at};

fn throw(plant: &Plant, s: &mut State, p: u32) -> bool
    requires { HasShape plant.now s.old }
    ensures answer { result ≡ is_some (after_throw plant.now s.old p) }
    ensures next { s.new ≡ unwrap_or (after_throw plant.now s.old p) s.old }
{
    let Some(n) = point_number_at(plant, p) else {
        return false;
    };
    let point = *s.points.at(n as u64);
    if is_lie_moving(point.at) || is_lie_at_position(point.at, point.to) {
        return false;
    }
    s.points.at_mut(n as u64).at = Lie::Moving;
    true
}

fn settle(plant: &Plant, s: &mut State, p: u32) -> bool
    requires { HasShape plant.now s.old }
    ensures answer { result ≡ is_some (after_settle plant.now s.old p) }
    ensures next { s.new ≡ unwrap_or (after_settle plant.now s.old p) s.old }
{
    let Some(n) = point_number_at(plant, p) else {
        return false;
    };
    let point = *s.points.at(n as u64);
    if !is_lie_moving(point.at) {
        return false;
    }
    s.points.at_mut(n as u64).at = lie_from_position(point.to);
    true
}

/// Throws the point on section `p`: it starts to move.
///
/// Returns `true` if and only if `p` is a point section whose point is neither moving nor detected
/// in its commanded position. Otherwise `s` doesn't change.
pub fn step_throw(plant: &Plant, s: &mut State, p: u32) -> bool
    requires { HasShape plant.now s.old }
    ensures answer { result ≡ is_some (after_throw plant.now s.old p) }
    ensures next { s.new ≡ unwrap_or (after_throw plant.now s.old p) s.old }
    ensures shape { HasShape plant.now s.new }
{
    throw(plant, s, p)
}

/// Settles the point on section `p`: it is detected in its commanded position.
///
/// Returns `true` if and only if `p` is a point section whose point is moving. Otherwise `s`
/// doesn't change.
pub fn step_settle(plant: &Plant, s: &mut State, p: u32) -> bool
    requires { HasShape plant.now s.old }
    ensures answer { result ≡ is_some (after_settle plant.now s.old p) }
    ensures next { s.new ≡ unwrap_or (after_settle plant.now s.old p) s.old }
    ensures shape { HasShape plant.now s.new }
{
    settle(plant, s, p)
}
