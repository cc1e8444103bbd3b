ghost use Rattle.std.specs.Prelude.{◌≡◌, ◌==◌, ◌&&◌, ◌<◌, ◌++◌, IfOk, OnOk, not};
ghost use Rattle.std.specs.List.{list_all};
ghost use Rattle.ilk_plant.specs.Broken.{broken_below, place_kind_of};
ghost use Rattle.ilk_plant.specs.Network.{contains_section};
ghost use Rattle.ilk_plant.specs.Limits.{WithinLimits};
ghost use Rattle.ilk_plant.specs.Plant.{is_point_section};
ghost use Rattle.ilk_plant.specs.TableRules.{breaks_table_rule_at, place_count_in_plant, conflicts_are_other_routes_once, destination_is_board_or_none, has_only_passed_points_once, has_nonsource_protecting_boards_once, has_outside_protecting_points_once, has_sections_once, is_board, is_other_route, is_section, nonprotecting_points_of, protecting_points_of, plant_table_rules_broken, path_and_overlap_of, table_rules_broken};
ghost use Rattle.ilk_base.specs.Numbers.{has_number};

use crate::twice::none_twice;
use ilk_base::has_number;
use ilk_plant::{
    Broken, NetDraft, NumberedNetAndTable, Route, Row, Rule, TableDraft, push_broken_if,
};
use std::alloc::{AllocError, Global};

const TABLE_RULES: [Rule; 8] = [
    Rule::R1,
    Rule::R2,
    Rule::R3,
    Rule::R4,
    Rule::R5,
    Rule::R6,
    Rule::R7,
    Rule::R8,
];

fn is_among_both(x: u32, first: &[u32], second: &[u32]) -> bool
    ensures { result ≡ has_number x (first.now ++ second.now) }
{
    has_number(first, x) || has_number(second, x)
}

fn share_none(first: &[u32], second: &[u32]) -> bool
    ensures { result ≡ list_all (λ x. not (has_number x second.now)) first.now }
{
    first.iter().all(|x| !has_number(second, *x))
}

fn are_sections(plant: &NumberedNetAndTable, sections: &[u32]) -> bool
    ensures { result ≡ list_all (is_section plant.now) sections.now }
{
    sections.iter().all(|x| plant.is_section(*x))
}

fn both_are_sections(plant: &NumberedNetAndTable, first: &[u32], second: &[u32]) -> bool
    ensures { result ≡ list_all (is_section plant.now) (first.now ++ second.now) }
{
    are_sections(plant, first) && are_sections(plant, second)
}

// Returns whether path and overlap are sections without duplicates.
#[tactic(auto, using(crate::proofs::Once::differ_in_both))]
fn has_sections_once(plant: &NumberedNetAndTable, route: &Route) -> bool
    ensures { result ≡ has_sections_once plant.now route.now }
{
    let path = route.path.as_slice();
    let overlap = route.overlap.as_slice();
    both_are_sections(plant, path, overlap)
        && none_twice(path)
        && none_twice(overlap)
        && share_none(path, overlap)
}

fn is_point_of(plant: &NumberedNetAndTable, route: &Route, x: u32) -> bool
    ensures { result ≡ (is_point_section plant.now x && contains_section x
        (path_and_overlap_of route.now)) }
{
    plant.is_point_section(x) && is_among_both(x, route.path.as_slice(), route.overlap.as_slice())
}

fn are_points_of(plant: &NumberedNetAndTable, route: &Route) -> bool
    ensures { result
        ≡ list_all (λ x. is_point_section plant.now x && contains_section x
        (path_and_overlap_of route.now))
        (nonprotecting_points_of route.now) }
{
    let points = route.points.as_slice();
    points
        .iter()
        .map(|listed| listed.point)
        .all(|x| is_point_of(plant, route, x))
}

// Returns whether each listed point is a point section of path or overlap, and is listed once.
fn has_only_passed_points_once(plant: &NumberedNetAndTable, route: &Route) -> bool
    ensures { result ≡ has_only_passed_points_once plant.now route.now }
{
    are_points_of(plant, route) && none_twice(route.points.as_slice())
}

fn destination_is_board_or_none(plant: &NumberedNetAndTable, destination: Option<u32>) -> bool
    ensures { result ≡ destination_is_board_or_none plant.now destination }
{
    match destination {
        Some(m) => plant.is_board(m),
        None => true,
    }
}

fn are_other_routes(plant: &NumberedNetAndTable, i: u32, routes: &Row<u32>) -> bool
    ensures { result ≡ list_all (is_other_route plant.now i) routes.now }
{
    routes
        .as_slice()
        .iter()
        .all(|r| plant.is_other_route(i, *r))
}

// Returns whether each conflict of route `i` is another route, and is listed once.
#[tactic(auto, using(crate::proofs::Once::differ_by_number))]
fn conflicts_are_other_routes_once(plant: &NumberedNetAndTable, i: u32, route: &Route) -> bool
    ensures { result ≡ conflicts_are_other_routes_once plant.now i route.now }
{
    are_other_routes(plant, i, &route.conflicts) && none_twice(route.conflicts.as_slice())
}

fn is_point_apart(plant: &NumberedNetAndTable, route: &Route, x: u32) -> bool
    ensures { result
        ≡ (is_point_section plant.now x && not (contains_section x
        (path_and_overlap_of route.now))) }
{
    plant.is_point_section(x) && !is_among_both(x, route.path.as_slice(), route.overlap.as_slice())
}

fn are_points_apart(plant: &NumberedNetAndTable, route: &Route) -> bool
    ensures { result
        ≡ list_all
        (λ x. is_point_section plant.now x && not (contains_section x
        (path_and_overlap_of route.now)))
        (protecting_points_of route.now) }
{
    let points = route.protecting_points.as_slice();
    points
        .iter()
        .map(|listed| listed.point)
        .all(|x| is_point_apart(plant, route, x))
}

// Returns whether each protecting point is a point section in neither path nor overlap, and is
// listed once.
fn has_outside_protecting_points_once(plant: &NumberedNetAndTable, route: &Route) -> bool
    ensures { result ≡ has_outside_protecting_points_once plant.now route.now }
{
    are_points_apart(plant, route) && none_twice(route.protecting_points.as_slice())
}

fn is_other_board(plant: &NumberedNetAndTable, source: u32, m: u32) -> bool
    ensures { result ≡ (is_board plant.now m && not (m == source)) }
{
    plant.is_board(m) && m != source
}

fn are_other_boards(plant: &NumberedNetAndTable, route: &Route) -> bool
    ensures { result
        ≡ list_all (λ m. is_board plant.now m && not (m == route.now.source))
        route.now.protecting_boards }
{
    let boards = route.protecting_boards.as_slice();
    boards
        .iter()
        .all(|m| is_other_board(plant, route.source, *m))
}

// Returns whether each protecting board is a board other than the source, and is listed once.
#[tactic(auto, using(crate::proofs::Once::differ_by_number))]
fn has_nonsource_protecting_boards_once(plant: &NumberedNetAndTable, route: &Route) -> bool
    ensures { result ≡ has_nonsource_protecting_boards_once plant.now route.now }
{
    are_other_boards(plant, route) && none_twice(route.protecting_boards.as_slice())
}

fn breaks_table_rule_at(plant: &NumberedNetAndTable, rule: Rule, i: u32) -> bool
    requires { i < place_count_in_plant plant.now (place_kind_of rule) }
    ensures { result ≡ breaks_table_rule_at plant.now rule i }
{
    match rule {
        Rule::R1 => plant.repeats_earlier_name(i),
        Rule::R2 => !plant.is_board(plant.route(i).source),
        Rule::R3 => !has_sections_once(plant, plant.route(i)),
        Rule::R4 => !has_only_passed_points_once(plant, plant.route(i)),
        Rule::R5 => !destination_is_board_or_none(plant, plant.route(i).destination),
        Rule::R6 => !conflicts_are_other_routes_once(plant, i, plant.route(i)),
        Rule::R7 => !has_outside_protecting_points_once(plant, plant.route(i)),
        Rule::R8 => !has_nonsource_protecting_boards_once(plant, plant.route(i)),
        _ => false,
    }
}

fn push_rule(
    found: &mut Row<Broken>,
    plant: &NumberedNetAndTable,
    rule: Rule,
) -> Result<(), AllocError>
    ensures { OnOk result (found.new ≡ found.old
        ++ broken_below rule (place_count_in_plant plant.now (place_kind_of rule))
        (breaks_table_rule_at plant.now rule)) }
{
    for i in 0..plant.count(rule.places()) {
        let entry = Broken {
            rule,
            first: i,
            second: None,
        };
        push_broken_if(found, breaks_table_rule_at(plant, rule, i), entry)?;
    }
    Ok(())
}

/// Returns every violated rule of the table, R1 to R8, with its route, ordered by rule and route. A
/// name refers to the first section, board or route that has it. Network and table must be within
/// the limits. Fails only if memory runs out.
pub fn check_table(
    alloc: Global,
    net: &NetDraft,
    table: &TableDraft,
) -> Result<Row<Broken>, AllocError>
    requires { WithinLimits net.now table.now }
    ensures { IfOk result (λ found. found ≡ table_rules_broken net.now table.now) }
{
    let plant = NumberedNetAndTable::from_drafts(alloc, net, table)?;
    check_numbered_table(alloc, &plant)
}

/// Returns every violated rule of the table, as `check_table` does, for drafts that are numbered
/// already. Fails only if memory runs out.
pub fn check_numbered_table(
    alloc: Global,
    plant: &NumberedNetAndTable,
) -> Result<Row<Broken>, AllocError>
    ensures { IfOk result (λ found. found ≡ plant_table_rules_broken plant.now) }
{
    let mut found = Row::new(alloc);
    for rule in &TABLE_RULES {
        push_rule(&mut found, plant, *rule)?;
    }
    Ok(found)
}
