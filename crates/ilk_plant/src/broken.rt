ghost use Rattle.std.specs.Prelude.{◌≡◌, ◌∷◌, [], ◌++◌, if◌then◌else◌, OnErr, OnOk};
ghost use Rattle.ilk_plant.specs.Broken.{name_and_place_kind, place_kind_of};

use crate::Row;
use ilk_base::HasWord;
use std::alloc::AllocError;

/// A rule that a configuration must keep: a rule of its network (N), of its interlocking table (R)
/// or of the table's columns (C).
#[derive(Clone, Copy, PartialEq, Eq, Debug)]
pub enum Rule {
    N1,
    N2,
    N3,
    N4,
    N5,
    N6,
    N7,
    N8,
    R1,
    R2,
    R3,
    R4,
    R5,
    R6,
    R7,
    R8,
    C1,
    C2,
    C3,
    C4,
    C5,
    C6,
    C7,
    C8,
}

/// The kind of location at which a rule is checked: each section, board, route or pair of routes.
#[derive(Clone, Copy, PartialEq, Eq, Debug)]
pub enum PlaceKind {
    Sections,
    Boards,
    Routes,
    RoutePairs,
}

impl Rule {
    fn name_and_place_kind(self) -> (&'static str, PlaceKind)
        ensures name { result.0.now ≡ (name_and_place_kind self).0 }
        ensures places { result.1 ≡ (name_and_place_kind self).1 }
    {
        match self {
            Rule::N1 => ("N1", PlaceKind::Sections),
            Rule::N2 => ("N2", PlaceKind::Boards),
            Rule::N3 => ("N3", PlaceKind::Sections),
            Rule::N4 => ("N4", PlaceKind::Sections),
            Rule::N5 => ("N5", PlaceKind::Sections),
            Rule::N6 => ("N6", PlaceKind::Sections),
            Rule::N7 => ("N7", PlaceKind::Sections),
            Rule::N8 => ("N8", PlaceKind::Sections),
            Rule::R1 => ("R1", PlaceKind::Routes),
            Rule::R2 => ("R2", PlaceKind::Routes),
            Rule::R3 => ("R3", PlaceKind::Routes),
            Rule::R4 => ("R4", PlaceKind::Routes),
            Rule::R5 => ("R5", PlaceKind::Routes),
            Rule::R6 => ("R6", PlaceKind::Routes),
            Rule::R7 => ("R7", PlaceKind::Routes),
            Rule::R8 => ("R8", PlaceKind::Routes),
            Rule::C1 => ("C1", PlaceKind::Routes),
            Rule::C2 => ("C2", PlaceKind::Routes),
            Rule::C3 => ("C3", PlaceKind::Routes),
            Rule::C4 => ("C4", PlaceKind::Routes),
            Rule::C5 => ("C5", PlaceKind::RoutePairs),
            Rule::C6 => ("C6", PlaceKind::RoutePairs),
            Rule::C7 => ("C7", PlaceKind::Sections),
            Rule::C8 => ("C8", PlaceKind::RoutePairs),
        }
    }

    /// Returns the kind of location at which the rule is checked.
    pub fn places(self) -> PlaceKind
        ensures { result ≡ place_kind_of self }
    {
        self.name_and_place_kind().1
    }
}

impl HasWord for Rule {
    ghost use Rattle.ilk_plant.specs.Broken.{rule_word};

    ghost word_of = { rule_word };

    fn word(self) -> &'static str {
        self.name_and_place_kind().0
    }
}

impl HasWord for PlaceKind {
    ghost use Rattle.ilk_plant.specs.Broken.{place_kind_word};

    ghost word_of = { place_kind_word };

    fn word(self) -> &'static str {
        match self {
            PlaceKind::Sections => "sections",
            PlaceKind::Boards => "boards",
            PlaceKind::Routes | PlaceKind::RoutePairs => "routes",
        }
    }
}

/// A violated rule and its location: `first` is the number of a section, board or route. If the
/// rule is about a pair of routes, `second` is the other route.
#[derive(Clone, Copy, PartialEq, Eq, Debug)]
pub struct Broken {
    pub rule: Rule,
    pub first: u32,
    pub second: Option<u32>,
}

/// Adds `entry` to `found` if `is_broken`. Fails only if memory runs out; `found` is then
/// unchanged.
pub fn push_broken_if(
    found: &mut Row<Broken>,
    is_broken: bool,
    entry: Broken,
) -> Result<(), AllocError>
    ensures ok { OnOk result (found.new ≡ found.old ++ (if is_broken then entry ∷ [] else [])) }
    ensures err { OnErr result (found.new ≡ found.old) }
{
    found.push_if(is_broken, entry)
}
