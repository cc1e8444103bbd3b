ghost use Rattle.std.specs.Prelude.{◌≡◌, ◌&&◌, count_by};
ghost use Rattle.std.specs.List.{list_any};
ghost use Rattle.ilk_plant.specs.Network.{same_direction};
ghost use Rattle.ilk_net_check.specs.Numbers.{refers_to, names_no_other, ends_of_section as ends_there, end_not_named_back_once, is_named_once_on_side};

use crate::ends::{ResolvedEnd, ends_of_section, opposite};
use ilk_plant::{Dir, Row};

/// Returns whether some of the ends of section `x` names `x` itself or no existing section.
pub(crate) fn has_invalid_neighbour(ends: &[ResolvedEnd], x: u32) -> bool
    ensures { result ≡ list_any (names_no_other x) ends.now }
{
    ends.iter().any(|end| !end.refers_to_another(x))
}

fn count_naming(ends: &[ResolvedEnd], x: u32) -> usize
    ensures { result ≡ count_by (refers_to x) ends.now }
{
    ends.iter().filter(|end| end.refers_to(x)).count()
}

fn names_from(ends: &[ResolvedEnd], x: u32, side: Dir) -> bool
    ensures { result ≡ list_any (λ end. refers_to x end && same_direction end.side side) ends.now }
{
    ends.iter().any(|end| end.refers_to(x) && end.side == side)
}

fn is_named_once_on_side(ends: &[ResolvedEnd], x: u32, side: Dir) -> bool
    ensures { result ≡ is_named_once_on_side x side ends.now }
{
    count_naming(ends, x) == 1 && names_from(ends, x, side)
}

fn is_one_sided(all: &Row<Row<ResolvedEnd>>, x: u32, end: &ResolvedEnd) -> bool
    ensures { result ≡ end_not_named_back_once all.now x end.now }
{
    match end.section {
        Some(y) => y != x && !is_named_once_on_side(ends_of_section(all, y), x, opposite(end.side)),
        None => false,
    }
}

/// Returns whether some neighbour of section `x`, other than `x`, doesn't name `x` back: at exactly
/// one of its ends, on the opposite side. `all` has the ends of each section.
pub(crate) fn is_not_named_back_once(all: &Row<Row<ResolvedEnd>>, x: u32) -> bool
    ensures { result ≡ list_any (end_not_named_back_once all.now x) (ends_there all.now x) }
{
    ends_of_section(all, x)
        .iter()
        .any(|end| is_one_sided(all, x, end))
}
