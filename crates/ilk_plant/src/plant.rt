ghost use Rattle.std.specs.Prelude.{◌≡◌, ◌<◌, length, slice_get, Some, IfOk, IfSome};
ghost use Rattle.ilk_plant.specs.Sound.{IsFromSoundDrafts, IsAcyclic};
ghost use Rattle.ilk_plant.specs.Plant.{IsPlant, IsValidRouteOf, board_of, inward_direction_if_border, first_number_named, next_to, point_count, point_number};

use crate::{Board, Dir, NumberedNetAndTable, Route, Row, Section};
use std::alloc::{AllocError, Global};
use std::marker::Model;

/// A plant: its sections, boards and routes by number from 0, with their names.
///
/// Sections and routes are numbered in the order of the configuration. Boards are numbered in the
/// order of their sections; on one section, the board for direction down comes first. Points are
/// numbered in the order of their sections. A plant is within the limits for counts of sections and
/// routes, for the lists of a route, and for names. It violates no rule of the network or of the
/// interlocking table.
#[derive(Drop)]
pub struct Plant {
    numbered: NumberedNetAndTable,
    // For each section its number among the points, if it is one.
    point_number_per_section: Row<Option<u32>>,
}

impl Model for Plant {
    ghost use Rattle.ilk_plant.specs.Plant.{PlantLists};
    ghost use Rattle.ilk_plant.specs.Kept.{IsSoundWithPointNumbers};

    ghost Value = { PlantLists };

    ghost view = { λ p. p.numbered };

    ghost invariant = { λ p. IsSoundWithPointNumbers p.numbered p.point_number_per_section };
}

impl Plant {
    /// Creates the plant of a numbered network and table. They must come from drafts within the
    /// limits that violate no rule of the network or table. Fails only if memory runs out.
    pub fn from_numbered(alloc: Global, numbered: NumberedNetAndTable) -> Result<Plant, AllocError>
        requires { IsFromSoundDrafts numbered }
        ensures { IfOk result (λ plant. plant ≡ numbered) }
    {
        let point_number_per_section = numbered.point_number_per_section(alloc)?;
        Ok(Plant {
            numbered,
            point_number_per_section,
        })
    }

    /// Every plant satisfies `IsPlant`: its names and numbers are valid and within the limits.
    /// Proof only; no run-time effect.
    pub fn prove_is_plant(&self)
        ensures { IsPlant self.now }
    {
        let _ = &self.numbered;
    }

    /// Every plant comes from drafts within the limits that violate no rule, and no walk in one
    /// direction visits a section twice. Proof only; no run-time effect.
    pub fn prove_sound_acyclic_drafts(&self)
        ensures drafts { IsFromSoundDrafts self.now }
        ensures walks { IsAcyclic self.now }
    {
        let _ = &self.numbered;
    }

    /// Returns the number of sections, 1 to `MAX_SECTIONS`.
    pub fn sections(&self) -> u32
        ensures { result ≡ length self.now.sections }
    {
        self.numbered.sections.len() as u32
    }

    /// Returns the number of boards, at most `MAX_BOARDS`.
    pub fn boards(&self) -> u32
        ensures { result ≡ length self.now.boards }
    {
        self.numbered.boards.len() as u32
    }

    /// Returns the number of routes, at most `MAX_ROUTES`.
    pub fn routes(&self) -> u32
        ensures { result ≡ length self.now.routes }
    {
        self.numbered.routes()
    }

    /// Returns the number of points, at most that of sections.
    pub fn points(&self) -> u32
        ensures { result ≡ point_count self.now }
    {
        self.numbered
            .sections
            .as_slice()
            .iter()
            .filter(|section| section.is_point())
            .count() as u32
    }

    /// Returns the routes, in numerical order.
    pub(crate) fn routes_as_slice(&self) -> &[Route]
        ensures { result.now ≡ self.now.routes }
    {
        self.numbered.routes.as_slice()
    }

    /// Returns section `x`.
    pub fn section(&self, x: u32) -> &Section
        requires { x < length self.now.sections }
        ensures { slice_get self.now.sections x ≡ Some result.now }
    {
        self.numbered.sections.at(x as u64)
    }

    /// Returns board `m`.
    pub fn board(&self, m: u32) -> &Board
        requires { m < length self.now.boards }
        ensures { slice_get self.now.boards m ≡ Some result.now }
    {
        self.numbered.boards.at(m as u64)
    }

    /// Returns route `r`.
    pub fn route(&self, r: u32) -> &Route
        requires { r < length self.now.routes }
        ensures route { slice_get self.now.routes r ≡ Some result.now }
        ensures known { IsValidRouteOf self.now result.now }
    {
        self.numbered.route(r)
    }

    /// Returns the number of the board on section `x` for trains in direction `d`, if there is one.
    pub fn board_of(&self, x: u32, d: Dir) -> Option<u32>
        requires { x < length self.now.sections }
        ensures board { result ≡ board_of self.now x d }
        ensures known { IfSome result (λ m. m < length self.now.boards) }
    {
        let _ = &self.numbered;
        self.section(x).board_on(d)
    }

    /// Returns neighbour `i`, from 0, of section `x` on side `d`, if there is one.
    pub fn neighbour(&self, x: u32, d: Dir, i: u32) -> Option<u32>
        requires { x < length self.now.sections }
        ensures entry { result ≡ slice_get (next_to self.now x d) i }
        ensures known { IfSome result (λ y. y < length self.now.sections) }
    {
        let _ = &self.numbered;
        self.section(x).nth_neighbour_on(d, i)
    }

    /// Returns the number of the point on section `x`, or `None` if `x` has no point.
    pub fn point_number(&self, x: u32) -> Option<u32>
        requires { x < length self.now.sections }
        ensures number { result ≡ point_number self.now x }
        ensures known { IfSome result (λ n. n < point_count self.now) }
    {
        *self.point_number_per_section.at(x as u64)
    }

    /// Returns the direction in which trains enter the network at section `x`, or `None` if `x` is
    /// not a border.
    pub fn inward_direction_if_border(&self, x: u32) -> Option<Dir>
        requires { x < length self.now.sections }
        ensures { result ≡ inward_direction_if_border self.now x }
    {
        self.section(x).inward_if_border()
    }

    /// Returns the first section with the name `name`, if there is one.
    pub fn section_named(&self, name: &str) -> Option<u32>
        ensures number { result ≡ first_number_named self.now.section_names name.now }
        ensures known { IfSome result (λ x. x < length self.now.sections) }
    {
        let _ = &self.numbered;
        self.numbered.section_names.number(name)
    }

    /// Returns the first board with the name `name`, if there is one.
    pub fn board_named(&self, name: &str) -> Option<u32>
        ensures number { result ≡ first_number_named self.now.board_names name.now }
        ensures known { IfSome result (λ m. m < length self.now.boards) }
    {
        let _ = &self.numbered;
        self.numbered.board_names.number(name)
    }

    /// Returns the first route with the name `name`, if there is one.
    pub fn route_named(&self, name: &str) -> Option<u32>
        ensures number { result ≡ first_number_named self.now.route_names name.now }
        ensures known { IfSome result (λ r. r < length self.now.routes) }
    {
        let _ = &self.numbered;
        self.numbered.route_names.number(name)
    }

    /// Returns the name of section `x`.
    pub fn section_name(&self, x: u32) -> &str
        requires { x < length self.now.sections }
        ensures { slice_get self.now.section_names x ≡ Some result.now }
    {
        let _ = &self.numbered;
        self.numbered.section_names.name(x).as_str()
    }

    /// Returns the name of board `m`.
    pub fn board_name(&self, m: u32) -> &str
        requires { m < length self.now.boards }
        ensures { slice_get self.now.board_names m ≡ Some result.now }
    {
        let _ = &self.numbered;
        self.numbered.board_names.name(m).as_str()
    }

    /// Returns the name of route `r`.
    pub fn route_name(&self, r: u32) -> &str
        requires { r < length self.now.routes }
        ensures { slice_get self.now.route_names r ≡ Some result.now }
    {
        let _ = &self.numbered;
        self.numbered.route_names.name(r).as_str()
    }
}
