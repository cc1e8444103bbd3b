ghost use Rattle.std.specs.Prelude.{◌≡◌};
ghost use Rattle.ilk_motion.specs.Ahead.{ahead};

use ilk_plant::{Dir, Lie, Plant, Section, State, detected_position_in_state};

/// Returns the section to which section `x` leads in direction `d`. A linear section leads to its
/// neighbour. A point that faces `d` leads to the leg of its detected position, another point to
/// its stem. Returns `None` if there is no such section, the point that faces `d` is moving, or `x`
/// is not a section.
pub fn ahead(plant: &Plant, s: &State, x: u32, d: Dir) -> Option<u32>
    ensures { result ≡ ahead plant.now s.now x d }
{
    if x >= plant.sections() {
        return None;
    }
    match *plant.section(x) {
        Section::Linear { down, up, .. } => match d {
            Dir::Down => down,
            Dir::Up => up,
        },
        Section::Point {
            stem,
            plus,
            minus,
            faces,
        } => {
            if faces != d {
                return Some(stem);
            }
            match detected_position_in_state(plant, s, x)? {
                Lie::Plus => Some(plus),
                Lie::Minus => Some(minus),
                Lie::Moving => None,
            }
        }
    }
}
