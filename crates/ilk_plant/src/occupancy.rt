ghost use Rattle.std.specs.Prelude.{◌≡◌};
ghost use Rattle.ilk_plant.specs.Network.{contains_section};
ghost use Rattle.ilk_plant.specs.State.{is_occupied};

use crate::{Row, State};
use ilk_base::has_number;

/// Returns whether `sections` contains section `x`.
pub fn contains_section(sections: &Row<u32>, x: u32) -> bool
    ensures { result ≡ contains_section x sections.now }
{
    has_number(sections.as_slice(), x)
}

/// Returns whether section `x` is in some train's body. If not, it is vacant.
pub fn occupied(s: &State, x: u32) -> bool
    ensures { result ≡ is_occupied s.now x }
{
    s.trains
        .as_slice()
        .iter()
        .any(|train| contains_section(&train.body, x))
}
