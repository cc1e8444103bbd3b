ghost use Rattle.std.specs.Prelude.{◌≡◌, [], Err, IfErr, IfOk, Ok};
ghost use Rattle.ilk_plant.specs.Draft.{plant_from_drafts};
ghost use Rattle.ilk_plant.specs.Limits.{WithinLimits, NetworkWithinLimits};
ghost use Rattle.ilk_plant.specs.NetNames.{HasBoardsAndNamesOf};
ghost use Rattle.ilk_plant.specs.NetworkRules.{network_rules_broken};
ghost use Rattle.ilk_plant.specs.TableRules.{table_rules_broken};
ghost use Rattle.ilk_answers.specs.Answer.{ok_unless_refusals, refusals_if_any_broken_rules};
ghost use Rattle.ilk_answers.specs.Stages.{table_unless_network_only, borders_without_board_if_strict, broken_column_rules_if_strict, first_nonempty_broken, first_broken_stage_rules};
ghost use Rattle.ilk_tablegen.specs.Rules.{no_routes};

use crate::Refusals;
use ilk_net_check::check_network_with_names;
use ilk_plant::{Broken, NetDraft, NetNames, NumberedNetAndTable, Plant, Row, TableDraft};
use ilk_table_check::{borders_without_inward_board, check_columns, check_numbered_table};
use ilk_tablegen::network_without_routes_makes_plant;
use ilk_words::{CheckedRuleStages, ColumnRuleMode};
use std::alloc::{AllocError, Global};

fn broken_columns(
    alloc: Global,
    columns: ColumnRuleMode,
    plant: &Plant,
) -> Result<Row<Broken>, AllocError>
    ensures { IfOk result (λ found. found ≡ broken_column_rules_if_strict columns plant.now) }
{
    match columns {
        ColumnRuleMode::Strict => check_columns(alloc, plant),
        ColumnRuleMode::Free => Ok(Row::new(alloc)),
    }
}

fn unless_broken<T: Drop>(
    found: Result<Row<Broken>, AllocError>,
    asked: T,
) -> Result<Result<T, Refusals>, AllocError>
    ensures answered { IfOk found (λ broken. result
        ≡ Ok (ok_unless_refusals (refusals_if_any_broken_rules broken) asked)) }
    ensures wanting { IfErr found (λ error. result ≡ Err error) }
{
    match Refusals::from_broken_rules_if_any(found?) {
        Some(refusals) => Ok(Err(refusals)),
        None => Ok(Ok(asked)),
    }
}

fn check_plant(
    alloc: Global,
    columns: ColumnRuleMode,
    plant: Plant,
) -> Result<Result<Plant, Refusals>, AllocError>
    ensures { IfOk result
        (λ found. found ≡ ok_unless_refusals
        (refusals_if_any_broken_rules (broken_column_rules_if_strict columns plant)) plant) }
{
    let found = broken_columns(alloc, columns, &plant);
    unless_broken(found, plant)
}

// Numbers the drafts once, with the names that the network was checked with.
fn check_routes(
    alloc: Global,
    columns: ColumnRuleMode,
    names: NetNames,
    net: &NetDraft,
    table: &TableDraft,
) -> Result<Result<Plant, Refusals>, AllocError>
    requires limits { WithinLimits net.now table.now }
    requires named { HasBoardsAndNamesOf names net.now }
    requires network { network_rules_broken net.now ≡ [] }
    ensures { IfOk result (λ found. found ≡ ok_unless_refusals
        (refusals_if_any_broken_rules
        (first_nonempty_broken (table_rules_broken net.now table.now)
        (broken_column_rules_if_strict columns (plant_from_drafts net.now table.now))))
        (plant_from_drafts net.now table.now)) }
{
    let drafts = NumberedNetAndTable::from_drafts_with_names(alloc, names, net, table)?;
    let found = check_numbered_table(alloc, &drafts);
    match unless_broken(found, drafts)? {
        Ok(drafts) => check_plant(alloc, columns, Plant::from_numbered(alloc, drafts)?),
        Err(refusals) => Ok(Err(refusals)),
    }
}

fn check_all(
    alloc: Global,
    columns: ColumnRuleMode,
    net: &NetDraft,
    table: &TableDraft,
) -> Result<Result<Plant, Refusals>, AllocError>
    requires { WithinLimits net.now table.now }
    ensures { IfOk result
        (λ found. found
        ≡ ok_unless_refusals (refusals_if_any_broken_rules
        (first_broken_stage_rules (CheckedRuleStages.All columns) net.now table.now))
        (plant_from_drafts net.now table.now)) }
{
    let names = NetNames::from_network(alloc, net)?;
    let found = check_network_with_names(alloc, net, &names);
    match unless_broken(found, names)? {
        Ok(names) => check_routes(alloc, columns, names, net, table),
        Err(refusals) => Ok(Err(refusals)),
    }
}

fn broken_borders(
    alloc: Global,
    columns: ColumnRuleMode,
    plant: &Plant,
) -> Result<Row<Broken>, AllocError>
    ensures { IfOk result (λ found. found ≡ borders_without_board_if_strict columns plant.now) }
{
    match columns {
        ColumnRuleMode::Strict => borders_without_inward_board(alloc, plant),
        ColumnRuleMode::Free => Ok(Row::new(alloc)),
    }
}

fn check_plant_borders(
    alloc: Global,
    columns: ColumnRuleMode,
    plant: Plant,
) -> Result<Result<Plant, Refusals>, AllocError>
    ensures { IfOk result
        (λ found. found ≡ ok_unless_refusals
        (refusals_if_any_broken_rules (borders_without_board_if_strict columns plant)) plant) }
{
    let found = broken_borders(alloc, columns, &plant);
    unless_broken(found, plant)
}

// Checks the borders of the network's plant without routes, if the columns are strict.
fn check_bare(
    alloc: Global,
    columns: ColumnRuleMode,
    names: NetNames,
    net: &NetDraft,
) -> Result<Result<Plant, Refusals>, AllocError>
    requires limits { NetworkWithinLimits net.now }
    requires named { HasBoardsAndNamesOf names net.now }
    requires network { network_rules_broken net.now ≡ [] }
    ensures { IfOk result
        (λ found. found
        ≡ ok_unless_refusals (refusals_if_any_broken_rules (borders_without_board_if_strict columns
        (plant_from_drafts net.now no_routes)))
        (plant_from_drafts net.now no_routes)) }
{
    network_without_routes_makes_plant();
    let table = TableDraft {
        routes: Row::new(alloc),
    };
    let drafts = NumberedNetAndTable::from_drafts_with_names(alloc, names, net, &table)?;
    check_plant_borders(alloc, columns, Plant::from_numbered(alloc, drafts)?)
}

fn check_network(
    alloc: Global,
    columns: ColumnRuleMode,
    net: &NetDraft,
) -> Result<Result<Plant, Refusals>, AllocError>
    requires { NetworkWithinLimits net.now }
    ensures { IfOk result (λ found. found ≡ ok_unless_refusals
        (refusals_if_any_broken_rules
        (first_nonempty_broken (network_rules_broken net.now)
        (borders_without_board_if_strict columns (plant_from_drafts net.now no_routes))))
        (plant_from_drafts net.now no_routes)) }
{
    let names = NetNames::from_network(alloc, net)?;
    let found = check_network_with_names(alloc, net, &names);
    match unless_broken(found, names)? {
        Ok(names) => check_bare(alloc, columns, names, net),
        Err(refusals) => Ok(Err(refusals)),
    }
}

/// Checks the rules of a network and its table, stage by stage: network, table, columns. If a stage
/// finds broken rules, returns all of that stage as refusals. Otherwise returns the plant, without
/// routes if `stages` checks only the network.
pub(crate) fn check_drafts(
    alloc: Global,
    stages: CheckedRuleStages,
    net: &NetDraft,
    table: &TableDraft,
) -> Result<Result<Plant, Refusals>, AllocError>
    requires { WithinLimits net.now table.now }
    ensures { IfOk result
        (λ found. found
        ≡ ok_unless_refusals (refusals_if_any_broken_rules (first_broken_stage_rules stages net.now
        table.now))
        (plant_from_drafts net.now (table_unless_network_only stages table.now))) }
{
    match stages {
        CheckedRuleStages::All(columns) => check_all(alloc, columns, net, table),
        CheckedRuleStages::Network(columns) => check_network(alloc, columns, net),
    }
}
