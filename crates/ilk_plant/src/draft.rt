use crate::{Dir, Position, Row, Text};

/// A network as read from a configuration: its items refer to each other by name.
#[derive(Drop)]
pub struct NetDraft {
    pub sections: Row<SectionDraft>,
}

/// A section as read from a configuration.
#[derive(Drop)]
pub struct SectionDraft {
    pub name: Text,
    pub kind: KindDraft,
}

/// The kind of a section, with the names of its neighbours and boards.
#[derive(Drop)]
pub enum KindDraft {
    Linear {
        down: Option<Text>,
        up: Option<Text>,
        board_down: Option<Text>,
        board_up: Option<Text>,
    },
    Point {
        stem: Text,
        plus: Text,
        minus: Text,
        faces: Dir,
    },
}

/// An interlocking table as read from a configuration: its routes refer to other items by name.
#[derive(Drop)]
pub struct TableDraft {
    pub routes: Row<RouteDraft>,
}

/// A point, by the name of its section, and the position that a route requires.
#[derive(Drop)]
pub struct ListedDraft {
    pub point: Text,
    pub at: Position,
}

/// A route (row of the interlocking table) as read from a configuration, with names.
#[derive(Drop)]
pub struct RouteDraft {
    pub name: Text,
    pub source: Text,
    pub destination: Option<Text>,
    pub path: Row<Text>,
    pub overlap: Row<Text>,
    pub points: Row<ListedDraft>,
    pub conflicts: Row<Text>,
    pub protecting_points: Row<ListedDraft>,
    pub protecting_boards: Row<Text>,
}
