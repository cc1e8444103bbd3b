ghost use Rattle.std.specs.Prelude.{◌≡◌, ◌<◌, ◌++◌, IfOk, OnOk, length};
ghost use Rattle.ilk_plant.specs.Broken.{broken_below, broken_at_pairs, place_kind_of};
ghost use Rattle.ilk_plant.specs.TableRules.{place_count_in_plant};
ghost use Rattle.ilk_plant.specs.ColumnRules.{breaks_column_rule_at, breaks_column_rule_at_pair, broken_for_column_rule, column_rules_broken, is_border_without_board};
ghost use Rattle.ilk_plant.specs.declared.broken.Rule.TheVariants.{C7};
ghost use Rattle.ilk_table_check.specs.Columns.{listed_conflict_matrix, broken_pairs_for_fixed_first};

use crate::asking::may_break_with_first_route;
use crate::conflicts::listed_conflict_matrix;
use crate::flags::Flags;
use crate::pairs::{breaks_at_pair, locked_flags_if_rule_needs};
use crate::ways::{
    is_path_connected_from_source, overlap_is_connected, path_and_overlap_points_listed,
    path_destination_is_first_board,
};
use ilk_plant::{Broken, PlaceKind, Plant, Row, Rule, push_broken_if};
use std::alloc::{AllocError, Global};

const COLUMN_RULES: [Rule; 8] = [
    Rule::C1,
    Rule::C2,
    Rule::C3,
    Rule::C4,
    Rule::C5,
    Rule::C6,
    Rule::C7,
    Rule::C8,
];

fn is_border_without_board(plant: &Plant, x: u32) -> bool
    requires { x < length plant.now.sections }
    ensures { result ≡ is_border_without_board plant.now x }
{
    match plant.inward_direction_if_border(x) {
        Some(inward) => plant.board_of(x, inward).is_none(),
        None => false,
    }
}

fn count(plant: &Plant, places: PlaceKind) -> u32
    ensures { result ≡ place_count_in_plant plant.now places }
{
    match places {
        PlaceKind::Sections => plant.sections(),
        PlaceKind::Boards => plant.boards(),
        PlaceKind::Routes | PlaceKind::RoutePairs => plant.routes(),
    }
}

fn breaks(plant: &Plant, rule: Rule, i: u32) -> bool
    requires { i < place_count_in_plant plant.now (place_kind_of rule) }
    ensures { result ≡ breaks_column_rule_at plant.now rule i }
{
    match rule {
        Rule::C1 => !is_path_connected_from_source(plant, plant.route(i)),
        Rule::C2 => !path_destination_is_first_board(plant, plant.route(i)),
        Rule::C3 => !path_and_overlap_points_listed(plant, plant.route(i)),
        Rule::C4 => !overlap_is_connected(plant, plant.route(i)),
        Rule::C7 => is_border_without_board(plant, i),
        _ => false,
    }
}

fn push_places(found: &mut Row<Broken>, plant: &Plant, rule: Rule) -> Result<(), AllocError>
    ensures { OnOk result (found.new ≡ found.old
        ++ broken_below rule (place_count_in_plant plant.now (place_kind_of rule))
        (breaks_column_rule_at plant.now rule)) }
{
    for i in 0..count(plant, rule.places()) {
        let entry = Broken {
            rule,
            first: i,
            second: None,
        };
        push_broken_if(found, breaks(plant, rule, i), entry)?;
    }
    Ok(())
}

fn push_pairs_of(
    alloc: Global,
    found: &mut Row<Broken>,
    plant: &Plant,
    listed: &Row<Flags>,
    rule: Rule,
    i: u32,
) -> Result<(), AllocError>
    requires first { i < length plant.now.routes }
    requires listed { listed.now ≡ listed_conflict_matrix plant.now }
    ensures { OnOk result
        (found.new
        ≡ found.old
        ++ broken_pairs_for_fixed_first rule (length plant.now.routes) i
        (breaks_column_rule_at_pair plant.now rule i)) }
{
    if !may_break_with_first_route(plant, listed, rule, i) {
        return Ok(());
    }
    let locked = locked_flags_if_rule_needs(alloc, plant, rule, i)?;
    for j in 0..plant.routes() {
        let entry = Broken {
            rule,
            first: i,
            second: Some(j),
        };
        push_broken_if(
            found,
            breaks_at_pair(plant, listed, &locked, rule, i, j),
            entry,
        )?;
    }
    Ok(())
}

fn push_pairs(
    alloc: Global,
    found: &mut Row<Broken>,
    plant: &Plant,
    listed: &Row<Flags>,
    rule: Rule,
) -> Result<(), AllocError>
    requires { listed.now ≡ listed_conflict_matrix plant.now }
    ensures { OnOk result
        (found.new
        ≡ found.old
        ++ broken_at_pairs rule (length plant.now.routes)
        (breaks_column_rule_at_pair plant.now rule)) }
{
    for i in 0..plant.routes() {
        push_pairs_of(alloc, found, plant, listed, rule, i)?;
    }
    Ok(())
}

fn push_rule(
    alloc: Global,
    found: &mut Row<Broken>,
    plant: &Plant,
    listed: &Row<Flags>,
    rule: Rule,
) -> Result<(), AllocError>
    requires { listed.now ≡ listed_conflict_matrix plant.now }
    ensures { OnOk result (found.new ≡ found.old ++ broken_for_column_rule plant.now rule) }
{
    match rule.places() {
        PlaceKind::RoutePairs => push_pairs(alloc, found, plant, listed, rule),
        _ => push_places(found, plant, rule),
    }
}

/// Returns every violated rule of the columns, C1 to C8, with its one or two locations. They are
/// ordered by rule, first location and second location. Fails only if memory runs out.
pub fn check_columns(alloc: Global, plant: &Plant) -> Result<Row<Broken>, AllocError>
    ensures { IfOk result (λ found. found ≡ column_rules_broken plant.now) }
{
    let listed = listed_conflict_matrix(alloc, plant)?;
    let mut found = Row::new(alloc);
    for rule in &COLUMN_RULES {
        push_rule(alloc, &mut found, plant, &listed, *rule)?;
    }
    Ok(found)
}

/// Returns every violation of C7: the borders without a board in their inward direction, in the
/// order of sections. No other rule of the columns depends on the network alone. Fails only if
/// memory runs out.
pub fn borders_without_inward_board(alloc: Global, plant: &Plant) -> Result<Row<Broken>, AllocError>
    ensures { IfOk result (λ found. found ≡ broken_for_column_rule plant.now C7) }
{
    let mut found = Row::new(alloc);
    push_places(&mut found, plant, Rule::C7)?;
    Ok(found)
}
