ghost use Rattle.std.specs.Prelude.{◌≡◌, ◌<◌, length};
ghost use Rattle.ilk_tablegen.specs.Ways.{way_ends_at_section};

use ilk_plant::{Dir, Plant};

/// Returns whether a way (candidate route path) in direction `d` ends at section `x`: it has a
/// board for `d`, or no neighbour on side `d`.
pub(crate) fn way_ends_at_section(plant: &Plant, d: Dir, x: u32) -> bool
    requires { x < length plant.now.sections }
    ensures { result ≡ way_ends_at_section plant.now d x }
{
    plant.board_of(x, d).is_some() || plant.neighbour(x, d, 0).is_none()
}
