//! The rules of small tables: the check succeeds if memory suffices.
ghost use Rattle.std.specs.Prelude.{◌≡◌, ◌∷◌, [], IfOk, length, true};
ghost use Rattle.std.specs.List.{list_all};
ghost use Rattle.ilk_plant.specs.Limits.{route_within_limits, are_names_in_route_valid, are_names_in_section_valid};
ghost use Rattle.ilk_plant.specs.Name.{is_name, is_name_if_given};

use crate::parts::text;
use ilk_plant::{
    Broken, KindDraft, NetDraft, RouteDraft, Row, Rule, SectionDraft, TableDraft, Text,
};
use ilk_table_check::check_table;
use std::alloc::{AllocError, Global};
use std::test::Fail;

// Creates a linear section without boards.
fn section(
    alloc: Global,
    name: &str,
    down: Option<Text>,
    up: Option<Text>,
) -> Result<SectionDraft, AllocError>
    requires name { is_name name.now ≡ true }
    requires down { is_name_if_given down ≡ true }
    requires up { is_name_if_given up ≡ true }
    ensures { IfOk result (λ section. are_names_in_section_valid section ≡ true) }
{
    let kind = KindDraft::Linear {
        down,
        up,
        board_down: None,
        board_up: None,
    };
    Ok(SectionDraft {
        name: text(alloc, name)?,
        kind,
    })
}

fn row_of(alloc: Global, name: &str) -> Result<Row<Text>, AllocError>
    ensures { IfOk result (λ row. row ≡ name.now ∷ []) }
{
    let mut row = Row::new(alloc);
    row.push(text(alloc, name)?)?;
    Ok(row)
}

// Creates a route over one section, which lists one conflict.
fn route(
    alloc: Global,
    source: &str,
    section: &str,
    conflict: &str,
) -> Result<RouteDraft, AllocError>
    requires source { is_name source.now ≡ true }
    requires section { is_name section.now ≡ true }
    requires conflict { is_name conflict.now ≡ true }
    ensures limits { IfOk result (λ route. route_within_limits route ≡ true) }
    ensures named { IfOk result (λ route. are_names_in_route_valid route ≡ true) }
{
    Ok(RouteDraft {
        name: text(alloc, "r")?,
        source: text(alloc, source)?,
        destination: None,
        path: row_of(alloc, section)?,
        overlap: Row::new(alloc),
        points: Row::new(alloc),
        conflicts: row_of(alloc, conflict)?,
        protecting_points: Row::new(alloc),
        protecting_boards: Row::new(alloc),
    })
}

// Creates the sections a and b, in a line, without boards.
fn line(alloc: Global) -> Result<NetDraft, AllocError>
    ensures count { IfOk result (λ net. length net.sections ≡ 2) }
    ensures named { IfOk result (λ net. list_all are_names_in_section_valid net.sections ≡ true) }
{
    let mut sections = Row::new(alloc);
    sections.push(section(alloc, "a", None, Some(text(alloc, "b")?))?)?;
    sections.push(section(alloc, "b", Some(text(alloc, "a")?), None)?)?;
    Ok(NetDraft { sections })
}

// Returns the broken rules of a table with one route on the line, which begins at no board.
fn found(alloc: Global, section: &str, conflict: &str) -> Result<Row<Broken>, AllocError>
    requires section { is_name section.now ≡ true }
    requires conflict { is_name conflict.now ≡ true }
{
    let net = line(alloc)?;
    let mut routes = Row::new(alloc);
    routes.push(route(alloc, "m", section, conflict)?)?;
    let table = TableDraft { routes };
    check_table(alloc, &net, &table)
}

fn at_first(rule: Rule) -> Broken {
    Broken {
        rule,
        first: 0,
        second: None,
    }
}

#[test]
fn lists_every_broken_rule(rt: HostRuntime) -> Result<(), Fail> {
    let alloc = rt.alloc();
    let (source, path, conflicts) = (at_first(Rule::R2), at_first(Rule::R3), at_first(Rule::R6));
    assert_eq!(rt;
        found(alloc, "b", "r")?.as_slice(),
        [source, conflicts].as_slice()
    );
    assert_eq!(rt;
        found(alloc, "c", "r")?.as_slice(),
        [source, path, conflicts].as_slice()
    );
    assert_eq!(rt;
        found(alloc, "b", "s")?.as_slice(),
        [source, conflicts].as_slice()
    );
    Ok(())
}
