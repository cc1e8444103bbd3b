ghost use Rattle.std.specs.Prelude.{◌≡◌, ◌≤◌, ◌<◌, IfOk, Some, length, map, slice_get};
ghost use Rattle.ilk_plant.specs.Draft.{repeats_earlier_name, names_of_routes, plant_from_drafts, numbered_route, numbered_section};
ghost use Rattle.ilk_plant.specs.TableRules.{place_count_in_plant, is_board, is_other_route, is_section};
ghost use Rattle.ilk_plant.specs.Plant.{is_point_section};
ghost use Rattle.ilk_plant.specs.Kept.{point_number_per_section};
ghost use Rattle.ilk_plant.specs.NetNames.{HasBoardsAndNamesOf};
ghost use Rattle.ilk_plant.specs.declared.limits.TheConstants.{MAX_SECTIONS, MAX_ROUTES};

use crate::names::Names;
use crate::numbering::{numbered_routes, numbered_sections, route_names};
use crate::{Board, NetDraft, NetNames, PlaceKind, Route, Row, Section, TableDraft};
use std::alloc::{AllocError, Global};
use std::marker::Model;

/// A network and an interlocking table with numbers in place of names, not yet checked. An unknown
/// name gets the number of known names, which no item has.
#[derive(Drop)]
pub struct NumberedNetAndTable {
    pub(crate) sections: Row<Section>,
    pub(crate) boards: Row<Board>,
    pub(crate) routes: Row<Route>,
    pub(crate) section_names: Names,
    pub(crate) board_names: Names,
    pub(crate) route_names: Names,
}

impl Model for NumberedNetAndTable {
    ghost use Rattle.std.specs.Prelude.{◌≡◌, ◌≤◌, length};
    ghost use Rattle.ilk_plant.specs.Plant.{PlantLists};
    ghost use Rattle.ilk_plant.specs.declared.limits.TheConstants.{MAX_BOARDS, MAX_ROUTES, MAX_SECTIONS};

    ghost Value = { PlantLists };

    ghost view = { λ p. record {
      sections = p.sections;
      boards = p.boards;
      routes = p.routes;
      section_names = p.section_names;
      board_names = p.board_names;
      route_names = p.route_names;
    } };

    ghost invariant = { λ p. (length p.sections ≤ MAX_SECTIONS) ×
        (length p.boards ≤ MAX_BOARDS) × (length p.routes ≤ MAX_ROUTES) ×
        (length p.route_names ≡ length p.routes) };
}

#[derive(Drop)]
struct Lists {
    route_names: Names,
    sections: Row<Section>,
    routes: Row<Route>,
}

fn numbered_lists(
    alloc: Global,
    names: &NetNames,
    net: &NetDraft,
    table: &TableDraft,
) -> Result<Lists, AllocError>
    requires { length table.now.routes ≤ MAX_ROUTES }
    ensures names { IfOk result (λ l. l.route_names ≡ names_of_routes table.now.routes) }
    ensures sections { IfOk result
        (λ l. l.sections ≡
        map (λ s. numbered_section names.now.section_names names.now.board_names s.kind)
        net.now.sections) }
    ensures routes { IfOk result
        (λ l. l.routes ≡
        map (numbered_route names.now.section_names names.now.board_names l.route_names)
        table.now.routes) }
{
    let NetNames {
        section_names,
        board_names,
        ..
    } = names;
    let route_names = route_names(alloc, &table.routes)?;
    let sections = numbered_sections(alloc, section_names, board_names, &net.sections)?;
    let routes = numbered_routes(
        alloc,
        section_names,
        board_names,
        &route_names,
        &table.routes,
    )?;
    Ok(Lists {
        route_names,
        sections,
        routes,
    })
}

impl NumberedNetAndTable {
    /// Returns the network `net` and the table `table` with numbers in place of names. Fails only
    /// if memory runs out.
    pub fn from_drafts(
        alloc: Global,
        net: &NetDraft,
        table: &TableDraft,
    ) -> Result<NumberedNetAndTable, AllocError>
        requires few_sections { length net.now.sections ≤ MAX_SECTIONS }
        requires few_routes { length table.now.routes ≤ MAX_ROUTES }
        ensures { IfOk result (λ made. made ≡ plant_from_drafts net.now table.now) }
    {
        let names = NetNames::from_network(alloc, net)?;
        NumberedNetAndTable::from_drafts_with_names(alloc, names, net, table)
    }

    /// Returns the network `net` and the table `table` with numbers in place of names; `names` are
    /// the names of `net`. Fails only if memory runs out.
    pub fn from_drafts_with_names(
        alloc: Global,
        names: NetNames,
        net: &NetDraft,
        table: &TableDraft,
    ) -> Result<NumberedNetAndTable, AllocError>
        requires few_sections { length net.now.sections ≤ MAX_SECTIONS }
        requires few_routes { length table.now.routes ≤ MAX_ROUTES }
        requires named { HasBoardsAndNamesOf names net.now }
        ensures { IfOk result (λ made. made ≡ plant_from_drafts net.now table.now) }
    {
        let Lists {
            route_names,
            sections,
            routes,
        } = numbered_lists(alloc, &names, net, table)?;
        let NetNames {
            section_names,
            board_names,
            boards,
        } = names;
        Ok(NumberedNetAndTable {
            sections,
            boards,
            routes,
            section_names,
            board_names,
            route_names,
        })
    }

    /// Returns for each section its number among the points, if it is one. Fails only if memory
    /// runs out.
    pub(crate) fn point_number_per_section(
        &self,
        alloc: Global,
    ) -> Result<Row<Option<u32>>, AllocError>
        ensures { IfOk result (λ numbers. numbers ≡ point_number_per_section self.now) }
    {
        let mut numbers = Row::new(alloc);
        let mut points = 0;
        for section in self.sections.as_slice() {
            if section.is_point() {
                numbers.push(Some(points))?;
                points += 1;
            } else {
                numbers.push(None)?;
            }
        }
        Ok(numbers)
    }

    /// Returns the number of routes, at most `MAX_ROUTES`.
    pub fn routes(&self) -> u32
        ensures { result ≡ length self.now.routes }
    {
        self.routes.len() as u32
    }

    /// Returns the number of locations of a kind. For pairs of routes it is the number of routes.
    pub fn count(&self, places: PlaceKind) -> u32
        ensures { result ≡ place_count_in_plant self.now places }
    {
        match places {
            PlaceKind::Sections => self.sections.len() as u32,
            PlaceKind::Boards => self.boards.len() as u32,
            PlaceKind::Routes | PlaceKind::RoutePairs => self.routes(),
        }
    }

    /// Returns route `i`.
    pub fn route(&self, i: u32) -> &Route
        requires { i < length self.now.routes }
        ensures { slice_get self.now.routes i ≡ Some result.now }
    {
        self.routes.at(i as u64)
    }

    /// Returns whether an earlier route has the same name as route `i`. Returns `false` if there is
    /// no route `i`.
    pub fn repeats_earlier_name(&self, i: u32) -> bool
        ensures { result ≡ repeats_earlier_name self.now.route_names i }
    {
        let _ = &self.routes;
        self.route_names.repeats_earlier_name(i)
    }

    /// Returns whether `m` is the number of a board.
    pub fn is_board(&self, m: u32) -> bool
        ensures { result ≡ is_board self.now m }
    {
        (m as u64) < self.boards.len()
    }

    /// Returns whether `x` is the number of a section.
    pub fn is_section(&self, x: u32) -> bool
        ensures { result ≡ is_section self.now x }
    {
        (x as u64) < self.sections.len()
    }

    /// Returns whether `x` is the number of a point section.
    pub fn is_point_section(&self, x: u32) -> bool
        ensures { result ≡ is_point_section self.now x }
    {
        match self.sections.as_slice().get(x as usize) {
            Some(section) => section.is_point(),
            None => false,
        }
    }

    /// Returns whether `r` is the number of a route other than route `i`.
    pub fn is_other_route(&self, i: u32, r: u32) -> bool
        ensures { result ≡ is_other_route self.now i r }
    {
        (r as u64) < self.routes.len() && r != i
    }
}
