ghost use Rattle.std.specs.Prelude.{◌≡◌, ◌||◌, ◌<◌, IfOk, false, length, map, slice_index_or};
ghost use Rattle.std.specs.List.{list_any};
ghost use Rattle.ilk_plant.specs.TableRules.{protecting_points_of};
ghost use Rattle.ilk_plant.specs.ColumnRules.{breaks_column_rule_at_pair, closes_source_of, share_locked_section};
ghost use Rattle.ilk_plant.specs.declared.broken.Rule.TheVariants.{C6};
ghost use Rattle.ilk_table_check.specs.Columns.{listed_conflict_matrix, locked_flags};
ghost use Rattle.ilk_base.specs.Numbers.{has_number};

use crate::conflicts::lists_as_conflict;
use crate::flags::Flags;
use ilk_base::has_number;
use ilk_plant::{Listed, Plant, Route, Row, Rule};
use std::alloc::{AllocError, Global};

fn locked_flags(alloc: Global, plant: &Plant, i: u32) -> Result<Flags, AllocError>
    requires { i < length plant.now.routes }
    ensures { IfOk result (λ locked. locked ≡ locked_flags plant.now i) }
{
    let route = plant.route(i);
    let mut locked = Flags::from_numbers(alloc, plant.sections(), route.path.as_slice())?;
    locked.set_numbers(route.overlap.as_slice());
    locked.set_points(route.protecting_points.as_slice());
    Ok(locked)
}

fn any_flagged(flags: &Flags, sections: &[u32]) -> bool
    ensures { result ≡ list_any (λ x. slice_index_or flags.now x false) sections.now }
{
    sections.iter().any(|x| flags.at(*x))
}

fn any_point_flagged(flags: &Flags, points: &[Listed]) -> bool
    ensures { result
        ≡ list_any (λ x. slice_index_or flags.now x false)
        (map (λ listed. listed.point) points.now) }
{
    points
        .iter()
        .map(|listed| listed.point)
        .any(|x| flags.at(x))
}

fn any_of_route_flagged(flags: &Flags, route: &Route) -> bool
    ensures { result ≡ ((list_any (λ x. slice_index_or flags.now x false) route.now.path
        || list_any (λ x. slice_index_or flags.now x false) route.now.overlap)
        || list_any (λ x. slice_index_or flags.now x false) (protecting_points_of route.now)) }
{
    any_flagged(flags, route.path.as_slice())
        || any_flagged(flags, route.overlap.as_slice())
        || any_point_flagged(flags, route.protecting_points.as_slice())
}

fn share_locked_section(plant: &Plant, locked: &Flags, i: u32, j: u32) -> bool
    requires first { i < length plant.now.routes }
    requires second { j < length plant.now.routes }
    requires locked { locked.now ≡ locked_flags plant.now i }
    ensures { result ≡ share_locked_section plant.now i j }
{
    let other = plant.route(j);
    any_of_route_flagged(locked, other)
}

/// Returns whether board `m` is a protecting board of `route`.
pub(crate) fn is_protecting_board(route: &Route, m: u32) -> bool
    ensures { result ≡ has_number m route.now.protecting_boards }
{
    has_number(route.protecting_boards.as_slice(), m)
}

fn closes_source_of(plant: &Plant, i: u32, j: u32) -> bool
    requires first { i < length plant.now.routes }
    requires second { j < length plant.now.routes }
    ensures { result ≡ closes_source_of plant.now i j }
{
    is_protecting_board(plant.route(i), plant.route(j).source)
}

/// Returns whether `rule` is violated at the pair of routes `i` and `j`. `listed` is the table of
/// all routes' conflicts. `locked` has a flag for each section locked for route `i`; only C6 uses
/// it.
pub(crate) fn breaks_at_pair(
    plant: &Plant,
    listed: &Row<Flags>,
    locked: &Flags,
    rule: Rule,
    i: u32,
    j: u32,
) -> bool
    requires first { i < length plant.now.routes }
    requires second { j < length plant.now.routes }
    requires listed { listed.now ≡ listed_conflict_matrix plant.now }
    requires locked { rule ≡ C6 → locked.now ≡ locked_flags plant.now i }
    ensures { result ≡ breaks_column_rule_at_pair plant.now rule i j }
{
    match rule {
        Rule::C5 => lists_as_conflict(plant, listed, i, j)
            && !lists_as_conflict(plant, listed, j, i),
        Rule::C6 => i < j
            && !lists_as_conflict(plant, listed, i, j)
            && share_locked_section(plant, locked, i, j),
        Rule::C8 => !lists_as_conflict(plant, listed, i, j) && closes_source_of(plant, i, j),
        _ => false,
    }
}

/// Returns a flag for each section: whether it is locked for route `i`. If `rule` isn't C6, no
/// flags are needed and none are returned. Fails only if memory runs out.
pub(crate) fn locked_flags_if_rule_needs(
    alloc: Global,
    plant: &Plant,
    rule: Rule,
    i: u32,
) -> Result<Flags, AllocError>
    requires { i < length plant.now.routes }
    ensures { rule ≡ C6 → IfOk result (λ locked. locked ≡ locked_flags plant.now i) }
{
    match rule {
        Rule::C6 => locked_flags(alloc, plant, i),
        _ => Flags::new(alloc, 0),
    }
}
